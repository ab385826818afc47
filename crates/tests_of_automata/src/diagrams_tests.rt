//! Small functions of two propositions a and b, against values worked out by hand.
ghost use Rattle.std.specs.Prelude.{◌≡◌, ℕ, ◌<◌, ◌≤◌, length, IfOk};
ghost use Rattle.diagrams.specs.Tree.{Assignment};
ghost use Rattle.diagrams.specs.Eval.{DependsOn, eval};
ghost use Rattle.diagrams.specs.Live.{IsLive, IsTruth};
ghost use Rattle.diagrams.specs.Work.{CanApply};
ghost use Rattle.diagrams.specs.Folded.{IsExtremum};
ghost use Rattle.diagrams.specs.Composed.{AllTruths, IsOverObligations};

use bes_io::Memory;
use diagrams::{ComposeMemo, Cubes, Id, Memo, Op, Store};
use std::alloc::Global;
use test_support::row;

// A store of two propositions, a and b.
fn pair(alloc: Global) -> Result<(Store, Id, Id), Memory>
    ensures props { IfOk result (λ made. made.0.props ≡ 2) }
    ensures a { IfOk result (λ made. IsTruth made.0 made.1) }
    ensures b { IfOk result (λ made. IsTruth made.0 made.2) }
    ensures a_over { IfOk result (λ made. DependsOn made.0 made.1 (λ v. v < 2)) }
    ensures b_over { IfOk result (λ made. DependsOn made.0 made.2 (λ v. v < 2)) }
{
    let mut store = Store::new(alloc, 2)?;
    let a = store.literal(0)?;
    let b = store.literal(1)?;
    Ok((store, a, b))
}

// The function that numbers the letters, 2 * a + b.
fn numbers(alloc: Global) -> Result<(Store, Id), Memory>
    ensures props { IfOk result (λ made. made.0.props ≡ 2) }
    ensures live { IfOk result (λ made. IsLive made.0 made.1) }
    ensures small { IfOk result (λ made. (a : Assignment) → eval made.0 made.1 a < 4) }
    ensures over { IfOk result (λ made. DependsOn made.0 made.1 (λ v. v < 2)) }
{
    let (mut store, a, b) = pair(alloc)?;
    let number = store.combine(Op::Pair { width: 2 }, a, b)?;
    Ok((store, number))
}

// The values at the four letters, as the digits of a number.
fn values(store: &Store, f: Id) -> u32
    requires props { store.now.props ≡ 2 }
    requires live { IsLive store.now f }
{
    let mut digits = 0u32;
    for letter in 0..4 {
        digits = digits.wrapping_mul(10).wrapping_add(store.value(f, letter));
    }
    digits
}

// The row of an operation on a and b.
fn combined(alloc: Global, op: Op) -> Result<u32, Memory>
    requires { (x y : ℕ) → x < 2 → y < 2 → CanApply op x y }
{
    let (mut store, a, b) = pair(alloc)?;
    let f = store.combine(op, a, b)?;
    Ok(values(&store, f))
}

#[test]
fn operations_give_their_tables(rt: HostRuntime) -> Result<(), Memory> {
    let alloc = rt.alloc();
    assert_eq!(rt; combined(alloc, Op::And)?, 1);
    assert_eq!(rt; combined(alloc, Op::Or)?, 111);
    assert_eq!(rt; combined(alloc, Op::Iff)?, 1001);
    assert_eq!(rt; combined(alloc, Op::Least)?, 1);
    assert_eq!(rt; combined(alloc, Op::Greatest)?, 111);
    assert_eq!(rt; combined(alloc, Op::Pair { width: 2 })?, 123);
    Ok(())
}

// The row of b where a is true, and else of a.
fn chosen(alloc: Global) -> Result<u32, Memory> {
    let (mut store, a, b) = pair(alloc)?;
    let f = store.ite(a, b, a)?;
    Ok(values(&store, f))
}

// The row of a constant where a is true, and else of a.
fn constant_or_test(alloc: Global, value: u32) -> Result<u32, Memory> {
    let (mut store, a, _b) = pair(alloc)?;
    let constant = store.terminal(value)?;
    let f = store.ite(a, constant, a)?;
    Ok(values(&store, f))
}

// The row of a where it is true, and else of a constant.
fn test_or_constant(alloc: Global, value: u32) -> Result<u32, Memory> {
    let (mut store, a, _b) = pair(alloc)?;
    let constant = store.terminal(value)?;
    let f = store.ite(a, a, constant)?;
    Ok(values(&store, f))
}

#[test]
fn a_choice_between_a_constant_and_its_test(rt: HostRuntime) -> Result<(), Memory> {
    let alloc = rt.alloc();
    assert_eq!(rt; constant_or_test(alloc, 1)?, 11, "a or a");
    assert_eq!(rt; constant_or_test(alloc, 0)?, 0, "never");
    assert_eq!(rt; test_or_constant(alloc, 0)?, 11, "a and a");
    assert_eq!(rt; test_or_constant(alloc, 1)?, 1111, "always");
    Ok(())
}

// The row of the number with its terminals looked up.
fn mapped(alloc: Global, table: &[u32]) -> Result<u32, Memory>
    requires { length table.now ≡ 4 }
{
    let (mut store, number) = numbers(alloc)?;
    let f = store.map_terminals(number, table)?;
    Ok(values(&store, f))
}

// The row of the least or greatest number over some variables.
fn folded(alloc: Global, op: Op, from: u32, to: u32) -> Result<u32, Memory>
    requires op { IsExtremum op }
    requires range { from ≤ to }
{
    let (mut store, number) = numbers(alloc)?;
    let f = store.fold(op, number, from, to)?;
    Ok(values(&store, f))
}

// The row of the least number of the variables from `from` on with which a variable is true.
fn picked(alloc: Global, var: u32, from: u32) -> Result<u32, Memory>
    requires var { var < 2 }
    requires from { from ≤ 2 }
{
    let mut store = Store::new(alloc, 2)?;
    let f = store.literal(var)?;
    let least = store.pick(f, from, 2)?;
    Ok(values(&store, least))
}

#[test]
fn functions_made_from_others(rt: HostRuntime) -> Result<(), Memory> {
    let alloc = rt.alloc();
    assert_eq!(rt; chosen(alloc)?, 1, "b where a, else a");
    assert_eq!(rt; mapped(alloc, &[7, 0, 7, 9])?, 7079, "other terminals");
    assert_eq!(rt; folded(alloc, Op::Least, 0, 1)?, 101, "least over a");
    assert_eq!(rt; folded(alloc, Op::Greatest, 0, 1)?, 2323, "greatest over a");
    assert_eq!(rt; folded(alloc, Op::Least, 1, 2)?, 22, "least over b");
    assert_eq!(rt;
        folded(alloc, Op::Greatest, 0, 2)?,
        3333,
        "greatest over both"
    );
    assert_eq!(rt;
        folded(alloc, Op::Greatest, 1, 1)?,
        123,
        "greatest over none"
    );
    assert_eq!(rt; picked(alloc, 0, 0)?, 2222, "a first holds with number 2");
    assert_eq!(rt; picked(alloc, 1, 0)?, 1111, "b first holds with number 1");
    assert_eq!(rt; picked(alloc, 1, 1)?, 1111, "b alone");
    assert_eq!(rt; picked(alloc, 0, 1)?, 0, "where a fails no b helps");
    Ok(())
}

// Obligation 1, and the cells b and a.
fn obligation(alloc: Global) -> Result<(Store, Id, [Id; 2]), Memory>
    ensures live { IfOk result (λ made. IsLive made.0 made.1) }
    ensures over { IfOk result (λ made. IsOverObligations made.0 (length made.2) made.1) }
    ensures cells { IfOk result (λ made. AllTruths made.0 made.2) }
{
    let (mut store, a, b) = pair(alloc)?;
    let second = store.literal(3)?;
    Ok((store, second, [b, a]))
}

#[test]
fn composing_gives_the_id_of_the_cell(rt: HostRuntime) -> Result<(), Memory> {
    let (mut store, second, cells) = obligation(rt.alloc())?;
    let whole = store.compose(second, &cells)?;
    assert!(rt; whole == cells[1]);
    Ok(())
}

#[test]
fn a_kept_memo_gives_the_same_id(rt: HostRuntime) -> Result<(), Memory> {
    let (mut store, second, cells) = obligation(rt.alloc())?;
    let mut memo = ComposeMemo::new(rt.alloc());
    let first = store.compose_with(&mut memo, second, &cells)?;
    let again = store.compose_with(&mut memo, second, &cells)?;
    assert!(rt; first == cells[1] && again == first);
    Ok(())
}

#[test]
fn a_memo_gives_back_what_was_kept(rt: HostRuntime) -> Result<(), Memory> {
    let mut store = Store::new(rt.alloc(), 1)?;
    let zero = store.terminal(0)?;
    let one = store.terminal(1)?;
    let mut memo = Memo::new(rt.alloc());
    assert!(rt; memo.get(&zero).is_none(), "nothing was kept");
    memo.keep(zero, one)?;
    assert!(rt;
        memo.get(&zero) == Some(one) && memo.get(&one).is_none(),
        "one key"
    );
    memo.keep(one, zero)?;
    memo.keep(zero, zero)?;
    assert!(rt; memo.get(&zero) == Some(zero), "what was kept last");
    assert!(rt;
        memo.get(&one) == Some(zero),
        "another key, with a place of its own"
    );
    Ok(())
}

#[test]
fn a_memo_grows_and_answers_only_what_was_kept(rt: HostRuntime) -> Result<(), Memory> {
    let mut memo = Memo::new(rt.alloc());
    for k in 0..1000 {
        memo.keep(Id(k), Id(k + 1))?;
    }
    let mut known = 0u32;
    for k in 0..1000 {
        if let Some(id) = memo.get(&Id(k)) {
            assert!(rt; id == Id(k + 1), "the result for the key");
            known = known.wrapping_add(1);
        }
    }
    assert!(rt; memo.get(&Id(999)) == Some(Id(1000)), "what was kept last");
    assert!(rt; memo.get(&Id(1000)).is_none(), "a key that wasn't kept");
    assert!(rt; known > 500, "most were not forgotten");
    Ok(())
}

// Whether a list has these cubes.
fn are(cubes: &Cubes, expected: &[(&[u8], u32)]) -> bool {
    if cubes.len() != expected.len() {
        return false;
    }
    for (i, (text, terminal)) in expected.iter().enumerate() {
        let cube = cubes.item(i);
        if cube.text.bytes() != *text || cube.terminal != *terminal {
            return false;
        }
    }
    true
}

// The cubes of a variable over the variables from `from` to before 2.
fn variable(alloc: Global, var: u32, from: u32) -> Result<Cubes, Memory>
    requires after { from ≤ var }
    requires before { var < 2 }
{
    let mut store = Store::new(alloc, 2)?;
    let f = store.literal(var)?;
    store.cubes(alloc, f, from, 2)
}

// The cubes of a constant over so many variables.
fn constant(alloc: Global, value: u32, count: u32) -> Result<Cubes, Memory> {
    let mut store = Store::new(alloc, 2)?;
    let f = store.terminal(value)?;
    store.cubes(alloc, f, 0, count)
}

#[test]
fn cubes_split_on_what_a_function_depends_on(rt: HostRuntime) -> Result<(), Memory> {
    let alloc = rt.alloc();
    assert!(rt; are(&variable(alloc, 0, 0)?, &[(b"0-", 0), (b"1-", 1)]));
    assert!(rt; are(&variable(alloc, 1, 0)?, &[(b"-0", 0), (b"-1", 1)]));
    assert!(rt; are(&variable(alloc, 1, 1)?, &[(b"0", 0), (b"1", 1)]));
    assert!(rt; are(&constant(alloc, 7, 2)?, &[(b"--", 7)]));
    assert!(rt; are(&constant(alloc, 7, 0)?, &[(b".", 7)]));
    let (store, number) = numbers(alloc)?;
    let all = store.cubes(alloc, number, 0, 2)?;
    assert!(rt; are(&all, &[(b"00", 0), (b"01", 1), (b"10", 2), (b"11", 3)]));
    Ok(())
}

// The terminals of the number with its terminals looked up.
fn terminals(alloc: Global, table: &[u32]) -> Result<Vec<u32>, Memory>
    requires { length table.now ≡ 4 }
{
    let (mut store, number) = numbers(alloc)?;
    let f = store.map_terminals(number, table)?;
    store.next_terminals(alloc, f)
}

#[test]
fn terminals_come_in_order_of_least_letters(rt: HostRuntime) -> Result<(), Memory> {
    let alloc = rt.alloc();
    assert_eq!(rt;
        terminals(alloc, &[3, 1, 3, 0])?.as_slice(),
        [3, 1, 0].as_slice()
    );
    assert_eq!(rt;
        terminals(alloc, &[2, 9, 9, 2])?.as_slice(),
        [2, 9].as_slice()
    );
    assert_eq!(rt; terminals(alloc, &[5, 5, 5, 5])?.as_slice(), [5].as_slice());
    Ok(())
}

#[test]
fn a_row_is_relabelled(rt: HostRuntime) -> Result<(), Memory> {
    let mut store = Store::new(rt.alloc(), 1)?;
    let old = row(&mut store, 9, 0, 1, 2)?;
    let wanted = row(&mut store, 9, 0, 7, 5)?;
    let mut memo = Memo::new(rt.alloc());
    let blocks = [0, 7, 5, 0, 0, 0, 0, 0, 0, 0];
    assert!(rt; store.map_terminals_with(&mut memo, old, &blocks)? == wanted);
    assert!(rt; memo.get(&old) == Some(wanted), "the memo has it");
    Ok(())
}
