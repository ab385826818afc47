//! Formulas judged on short traces.
ghost use Rattle.std.specs.Prelude.{◌<◌, IfOk};
ghost use Rattle.forms.specs.Proper.{IsProper, IsProperProgram};
ghost use Rattle.forms.specs.Tree.{program, tree};

use bes_io::Memory;
use forms::{Form, Path};
use std::alloc::Global;
use std::process::Abort;
use trace_meaning::judge;

// Proposition 0 is a, of weight 2 in a letter, and proposition 1 is b, of weight 1.
fn atom(alloc: Global, i: u32) -> Result<Box<Form>, Memory>
    requires { i < 2 }
    ensures { IfOk result (λ made. IsProper 2 (tree made.value)) }
{
    Ok(Box::new(alloc, Form::Atom(i))?)
}

fn step(alloc: Global, i: u32) -> Result<Box<Path>, Memory>
    requires { i < 2 }
    ensures { IfOk result (λ made. IsProperProgram 2 (program made.value)) }
{
    let form = Box::new(alloc, Form::Atom(i))?;
    Ok(Box::new(alloc, Path::Step(form))?)
}

fn any_step(alloc: Global) -> Result<Box<Path>, Memory>
    ensures { IfOk result (λ made. IsProperProgram 2 (program made.value)) }
{
    let form = Box::new(alloc, Form::True)?;
    Ok(Box::new(alloc, Path::Step(form))?)
}

// `<p*> end`, where `end` is `[true] false`: no letter is left.
fn star_to_end(alloc: Global, turn: Path) -> Result<Form, Memory>
    requires { IsProperProgram 2 (program turn) }
    ensures { IfOk result (λ made. IsProper 2 (tree made)) }
{
    let star = Path::Star(Box::new(alloc, turn)?);
    let fails = Box::new(alloc, Form::False)?;
    let end = Form::BoxAll(any_step(alloc)?, fails);
    Ok(Form::Diamond(Box::new(alloc, star)?, Box::new(alloc, end)?))
}

// Each word with the answer that it must have.
fn check(
    rt: &impl Abort,
    alloc: Global,
    form: &Form,
    cases: &[(&[u64], bool)],
) -> Result<(), Memory>
    requires { IsProper 2 (tree form.now) }
{
    for (word, want) in cases {
        assert!(rt; word.len() > 0, "a trace has a letter");
        assert!(rt;
            judge(alloc, form, 2, word)? == *want,
            "the answer is another"
        );
    }
    Ok(())
}

#[test]
fn temporal_operators(rt: HostRuntime) -> Result<(), Memory> {
    let alloc = rt.alloc();
    let next = Form::Next(Box::new(alloc, Form::True)?);
    check(&rt, alloc, &next, &[(&[0], false), (&[0, 0], true)])?;
    let weak_next = Form::WeakNext(Box::new(alloc, Form::False)?);
    check(&rt, alloc, &weak_next, &[(&[0], true), (&[0, 0], false)])?;
    let until = Form::Until(atom(alloc, 0)?, atom(alloc, 1)?);
    check(
        &rt,
        alloc,
        &until,
        &[(&[2, 2, 1], true), (&[2, 2, 2], false), (&[2, 0, 1], false)],
    )?;
    let release = Form::Release(atom(alloc, 0)?, atom(alloc, 1)?);
    check(
        &rt,
        alloc,
        &release,
        &[(&[1, 3, 0], true), (&[1, 1], true), (&[1, 2], false)],
    )?;
    let eventually = Form::Eventually(atom(alloc, 0)?);
    check(
        &rt,
        alloc,
        &eventually,
        &[(&[0, 1, 2], true), (&[1, 1], false)],
    )?;
    let always = Form::Always(atom(alloc, 0)?);
    check(&rt, alloc, &always, &[(&[2, 3], true), (&[2, 1], false)])?;
    Ok(())
}

#[test]
fn path_programs(rt: HostRuntime) -> Result<(), Memory> {
    let alloc = rt.alloc();
    let even = star_to_end(alloc, Path::Seq(any_step(alloc)?, any_step(alloc)?))?;
    check(
        &rt,
        alloc,
        &even,
        &[(&[0], false), (&[0, 0], true), (&[0, 0, 0], false)],
    )?;
    let in_turn = star_to_end(alloc, Path::Seq(step(alloc, 0)?, step(alloc, 1)?))?;
    check(
        &rt,
        alloc,
        &in_turn,
        &[(&[2, 1, 2, 1], true), (&[2, 1, 2], false), (&[2, 2], false)],
    )?;
    let a = Path::Test(atom(alloc, 0)?);
    let always = Path::Test(Box::new(alloc, Form::True)?);
    let tests = Path::Choice(Box::new(alloc, a)?, Box::new(alloc, always)?);
    check(&rt, alloc, &star_to_end(alloc, tests)?, &[(&[2], false)])?;
    let after = Form::Diamond(step(alloc, 0)?, atom(alloc, 1)?);
    check(
        &rt,
        alloc,
        &after,
        &[(&[2, 1], true), (&[2, 2], false), (&[3], false)],
    )?;
    let each = Form::BoxAll(step(alloc, 0)?, atom(alloc, 1)?);
    check(
        &rt,
        alloc,
        &each,
        &[(&[2, 1], true), (&[1, 0], true), (&[3], false)],
    )?;
    Ok(())
}

#[test]
fn traces_longer_than_a_block(rt: HostRuntime) -> Result<(), Memory> {
    let alloc = rt.alloc();
    let even = star_to_end(alloc, Path::Seq(any_step(alloc)?, any_step(alloc)?))?;
    let until = Form::Until(atom(alloc, 0)?, atom(alloc, 1)?);
    let mut word = vec![in alloc; 2; 2049]?;
    word[2048] = 1;
    check(&rt, alloc, &even, &[(&word, false), (&word[1..], true)])?;
    check(&rt, alloc, &until, &[(&word, true), (&word[..2048], false)])?;
    Ok(())
}
