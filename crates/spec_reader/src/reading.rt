//! Specification files.
ghost use Rattle.std.specs.Prelude.{◌≡◌, ◌↔◌, ◌∷◌, ◌++◌, [], ℕ, List, Some, None, IfOk, OnOk, IfErr, MatchOption, map, length, true};
ghost use Rattle.form_tokens.specs.Names.{AreNames};
ghost use Rattle.spec_lines.specs.Lines.{shown};
ghost use Rattle.spec_lines.specs.Keywords as keywords;
ghost use Rattle.spec_lines.specs.Values.{words_of};
ghost use Rattle.spec_reader.specs.Shared.{first_names};
ghost use Rattle.spec_reader.specs.Specification.{Specification, plain, AreLinesOf, IsSpecificationOf};
ghost use Rattle.spec_reader.specs.Refusal as refusal;
ghost use Rattle.spec_reader.specs.Refusal.{Blames, first_refusal};
ghost use Rattle.spec_reader.specs.Said as said;
ghost use Rattle.spec_reader.specs.Answer.{Gives, AreProper, CanBeTold};
ghost use Rattle.spec_reader.specs.Sides.{AreSidesOf, AreNamed};

use crate::checking::{add_names, check_lines};
use crate::formulas::read_conjunction;
use crate::spec::{Key, Spec, SpecFault};
use form_tokens::{Dialect, Names};
use forms::{Mover, Partition};
use spec_lines::{
    Heading, Keyword, Line, counted_lines, dialect_of, empty_of, heading_of, limit_of, mover_of,
};
use std::alloc::Global;

const LONGEST_TEXT: usize = 65536;

const USUAL_LIMIT: u32 = 1024;

/// The value of the first line with this key.
fn value_of<'a>(lines: &[Line<'a>], keyword: Keyword) -> Option<&'a [u8]>
    ensures { MatchOption result (keywords.values_of keyword (map shown lines.now) ≡ []) (λ value. (later : List (List ℕ)) × (keywords.values_of keyword (map shown lines.now) ≡ value.now ∷ later)) }
{
    let word = keyword.word();
    for line in lines {
        if line.key == word {
            return Some(line.value);
        }
    }
    None
}

/// The dialect of the lines.
fn said_dialect(lines: &[Line<'_>]) -> Dialect
    ensures { result ≡ refusal.said_dialect (map shown lines.now) }
{
    match value_of(lines, Keyword::Dialect) {
        // A value that is no dialect was refused before.
        Some(value) => dialect_of(value).unwrap_or(Dialect::Ltlf),
        None => Dialect::Ltlf,
    }
}

/// The limit of the lines.
fn said_limit(heading: Heading, lines: &[Line<'_>]) -> u32
    ensures { result ≡ said.said_limit heading (map shown lines.now) }
{
    match value_of(lines, Keyword::Limit) {
        // A value that is no limit was refused before.
        Some(value) => limit_of(heading, value).unwrap_or(USUAL_LIMIT),
        None => USUAL_LIMIT,
    }
}

/// Whether the lines say that the empty history may meet the goal.
fn said_empty(lines: &[Line<'_>]) -> bool
    ensures { result ≡ said.said_empty (map shown lines.now) }
{
    match value_of(lines, Keyword::Empty) {
        // A value that is neither was refused before.
        Some(value) => empty_of(value).unwrap_or(false),
        None => false,
    }
}

/// What has to be said in a file: who moves first, and the names of both sides.
#[derive(Clone, Copy)]
struct Sides<'a> {
    first: Mover,
    inputs: &'a [u8],
    outputs: &'a [u8],
}

/// The sides of the lines, or the first key that is missing.
fn sides_of<'a>(lines: &[Line<'a>]) -> Result<Sides<'a>, SpecFault>
    ensures ok { OnOk result (refusal.missing_fault (map shown lines.now) ≡ None) }
    ensures sides { IfOk result (λ sides. AreSidesOf (map shown lines.now) sides.first sides.inputs.now sides.outputs.now) }
    ensures fault { IfErr result (λ e. refusal.missing_fault (map shown lines.now) ≡ Some e) }
{
    let missing = |key| SpecFault::Missing { key };
    let inputs = value_of(lines, Keyword::Inputs).ok_or(missing(Key::Inputs))?;
    let outputs = value_of(lines, Keyword::Outputs).ok_or(missing(Key::Outputs))?;
    let first = value_of(lines, Keyword::First).ok_or(missing(Key::First))?;
    value_of(lines, Keyword::Goal).ok_or(missing(Key::Goal))?;
    Ok(Sides {
        // A value that is no mover was refused before.
        first: mover_of(first).unwrap_or(Mover::Agent),
        inputs,
        outputs,
    })
}

/// The closed table of the names of two sides, and how many each has.
fn name_sides(alloc: Global, front: &[u8], back: &[u8]) -> Result<(Names, u32, u32), SpecFault>
    requires { AreNames (words_of front.now ++ words_of back.now) }
    ensures names { IfOk result (λ made. made.0.names ≡ words_of front.now ++ words_of back.now) }
    ensures closed { IfOk result (λ made. made.0.closed ≡ true) }
    ensures front { IfOk result (λ made. made.1 ≡ length (words_of front.now)) }
    ensures back { IfOk result (λ made. made.2 ≡ length (words_of back.now)) }
    ensures memory { IfErr result (λ e. e ≡ SpecFault.Memory) }
{
    // Bad names were refused before, at their lines: only memory can run out here.
    let mut names = Names::new(alloc)?;
    if add_names(&mut names, 0, front).is_err() {
        return Err(SpecFault::Memory);
    }
    let split = names.len();
    if add_names(&mut names, 0, back).is_err() {
        return Err(SpecFault::Memory);
    }
    names.close();
    let rest = names.len() - split;
    Ok((names, split, rest))
}

/// The names of both sides, those of the first mover first, and how many each has.
fn named_sides(alloc: Global, sides: &Sides<'_>) -> Result<(Names, Partition), SpecFault>
    requires { AreNames (first_names sides.now.first (words_of sides.now.inputs.now) (words_of sides.now.outputs.now)) }
    ensures named { IfOk result (λ made. AreNamed sides.now.first (words_of sides.now.inputs.now) (words_of sides.now.outputs.now) made.0.names made.1) }
    ensures closed { IfOk result (λ made. made.0.closed ≡ true) }
    ensures memory { IfErr result (λ e. e ≡ SpecFault.Memory) }
{
    let first = sides.first;
    match first {
        Mover::Agent => {
            let (names, outputs, inputs) = name_sides(alloc, sides.outputs, sides.inputs)?;
            Ok((
                names,
                Partition {
                    first,
                    inputs,
                    outputs,
                },
            ))
        }
        Mover::Environment => {
            let (names, inputs, outputs) = name_sides(alloc, sides.inputs, sides.outputs)?;
            Ok((
                names,
                Partition {
                    first,
                    inputs,
                    outputs,
                },
            ))
        }
    }
}

/// The specification of lines each of which is good by itself.
fn read_lines(alloc: Global, heading: Heading, lines: &[Line<'_>]) -> Result<Spec, SpecFault>
    requires heading { keywords.heading_of (map shown lines.now) ≡ Some heading }
    requires good { refusal.lines_fault heading [] [] (map shown lines.now) ≡ None }
    ensures found { IfOk result (λ spec. AreLinesOf heading (map shown lines.now) (plain spec)) }
    ensures closed { IfOk result (λ spec. spec.names.closed ≡ true) }
    ensures ok { OnOk result (refusal.later_fault (map shown lines.now) ≡ None) }
    ensures fault { IfErr result (λ e. Blames e (refusal.later_fault (map shown lines.now) ≡ Some e)) }
{
    let sides = sides_of(lines)?;
    let (mut names, partition) = named_sides(alloc, &sides)?;
    let dialect = said_dialect(lines);
    let assume = read_conjunction(alloc, dialect, &mut names, lines, Keyword::Assume)?;
    let goal = read_conjunction(alloc, dialect, &mut names, lines, Keyword::Goal)?;
    let duty = read_conjunction(alloc, dialect, &mut names, lines, Keyword::Duty)?;
    // That there is a goal was tried first, by `sides_of`.
    let goal = goal.ok_or(SpecFault::Missing { key: Key::Goal })?;
    Ok(Spec {
        names,
        partition,
        dialect,
        assume,
        goal,
        limit: said_limit(heading, lines),
        empty: said_empty(lines),
        duty,
    })
}

/// The number of the leading line.
fn leading_number(lines: &[Line<'_>]) -> u64
    ensures { result ≡ refusal.leading_number (map shown lines.now) }
{
    match lines {
        [] => 0,
        [first, ..] => first.number,
    }
}

/// The specification of a text, or the first of its faults.
fn read_text(alloc: Global, text: &[u8]) -> Result<Spec, SpecFault>
    ensures found { IfOk result (λ spec. IsSpecificationOf text.now (plain spec)) }
    ensures closed { IfOk result (λ spec. spec.names.closed ≡ true) }
    ensures told { IfErr result (λ e. Blames e (first_refusal text.now ≡ Some e)) }
{
    if text.len() > LONGEST_TEXT {
        return Err(SpecFault::TooLong);
    }
    let lines = counted_lines(alloc, text)?;
    let Some(heading) = heading_of(&lines) else {
        return Err(SpecFault::BadValue {
            line: leading_number(&lines),
        });
    };
    check_lines(alloc, heading, &lines)?;
    read_lines(alloc, heading, &lines)
}

/// The specification of a text of at most 65,536 bytes, or the first of its faults.
///
/// Faults are sought in the order of the file: at each line its key, by the lines before it, and then its value. Then
/// comes the first key that is missing, and last the first formula that is refused: the assumptions', the goals', the
/// duties'. The names of the first mover have the lower numbers.
pub fn read_spec(alloc: Global, text: &[u8]) -> Result<Spec, SpecFault>
    // What is read is the specification of the text.
    ensures found { IfOk result (λ spec. IsSpecificationOf text.now (plain spec)) }

    // A text has at most one specification.
    ensures one { (s t : Specification) → IsSpecificationOf text.now s → IsSpecificationOf text.now t → s ≡ t }

    // A text with a specification is answered by it, unless memory ran out.
    ensures only { (specification : Specification) → IsSpecificationOf text.now specification → Gives result specification }

    // A refusal tells the first fault.
    ensures told { IfErr result (λ e. Blames e (first_refusal text.now ≡ Some e)) }

    // A formula is refused neither for a name too many, since names are declared, nor for want of memory.
    ensures formula { IfErr result CanBeTold }

    // A text in which nothing is refused has a specification, and the other way round.
    ensures complete { (first_refusal text.now ≡ None) ↔ ((specification : Specification) × IsSpecificationOf text.now specification) }

    // A formula that is read with the names may have no other.
    ensures closed { IfOk result (λ spec. spec.names.closed ≡ true) }
    ensures proper { IfOk result (λ spec. AreProper (plain spec)) }
{
    read_text(alloc, text)
}
