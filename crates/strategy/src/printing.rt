//! The text of a strategy.
ghost use Rattle.std.specs.Prelude.{◌≡◌, ◌<◌, ◌≤◌, ◌++◌, ◌+◌, ◌-◌, false, length, decimal, IfOk, OnOk};
ghost use Rattle.diagrams.specs.Eval.{Diagrams, DependsOn, eval, letter_truth};
ghost use Rattle.diagrams.specs.Live.{IsLive};
ghost use Rattle.game.specs.Board.{width};
ghost use Rattle.printed_strategy.specs.CubeLines.{function_lines};
ghost use Rattle.printed_strategy.specs.Strategy.{is_goal};
ghost use Rattle.printed_strategy.specs.StrategyText.{mark_text, bits_text, choice_text, target_text, version_line, verdict_line, first_line, spaced, input_names, output_names, lines_below, location_text, location_texts, head_text, strategy_text, decision_width, shown_width};
ghost use Rattle.choosing.specs.MarkOf.{mark_of};
ghost use Rattle.strategy.specs.Plan.{size_of, mark_at, choice_of, plan_of, target_at};
ghost use Rattle.strategy.specs.Fits.{FitsStrategy};
ghost use Rattle.strategy.specs.Listing.{IsBitBefore, key_of, fields_of, cube_line, cube_lines, AreTold, spaced_from, propositions_text};

use crate::strategy::Strategy;
use bes_io::{Memory, Text};
use choosing::{Chosen, Mark};
use diagrams::{Cube, Cubes, Id, Store};
use form_tokens::Names;
use forms::{Mover, Partition};
use std::alloc::Global;

/// Appends a word and a number.
fn print_numbered(text: &mut Text, word: &[u8], number: u32) -> Result<(), Memory>
    ensures { OnOk result (text.new ≡ text.old ++ word.now ++ decimal number) }
{
    text.push(word)?;
    text.number(u64::from(number))
}

/// Appends a mark.
pub fn print_mark(text: &mut Text, mark: Mark) -> Result<(), Memory>
    ensures { OnOk result (text.new ≡ text.old ++ mark_text (mark_of mark)) }
{
    match mark {
        Mark::Goal => text.push(b"goal"),
        Mark::Win(rounds) => print_numbered(text, b"win ", rounds),
        Mark::Pending(rounds) => print_numbered(text, b"open ", rounds),
        Mark::Lost => text.push(b"lost"),
        Mark::Held => text.push(b"held"),
        Mark::LostIn(rounds) => print_numbered(text, b"lost ", rounds),
    }
}

/// Appends the highest bit of a number, by its weight, and answers what is left.
fn print_bit(text: &mut Text, weight: u64, number: u64) -> Result<u64, Memory>
    ensures { IfOk result (λ rest. IsBitBefore weight text.old text.new number rest) }
{
    if number < weight {
        text.push(b"0")?;
        return Ok(number);
    }
    text.push(b"1")?;
    Ok(number - weight)
}

/// Appends so many bits of a number, the highest first; `.` where there is none.
pub fn print_bits(text: &mut Text, count: u32, number: u64) -> Result<(), Memory>
    requires { count ≤ 32 }
    ensures { OnOk result (text.new ≡ text.old ++ bits_text count number) }
{
    if count == 0 {
        return text.push(b".");
    }
    let mut rest = number;
    for at in 0..count {
        rest = print_bit(text, 1u64 << (count - 1 - at), rest)?;
    }
    Ok(())
}

/// Appends what is chosen for a decision.
fn print_choice(text: &mut Text, outputs: u32, choice: Option<Chosen>) -> Result<(), Memory>
    requires { outputs ≤ 32 }
    ensures { OnOk result (text.new ≡ text.old ++ choice_text outputs (choice_of choice)) }
{
    match choice {
        None => text.push(b"illegal"),
        Some(chosen) => {
            print_mark(text, chosen.mark)?;
            text.push(b" ")?;
            print_bits(text, outputs, chosen.output)
        }
    }
}

/// Appends where a letter leads.
fn print_target(text: &mut Text, size: u32, at: u32) -> Result<(), Memory>
    ensures { OnOk result (text.new ≡ text.old ++ target_text (target_at size at)) }
{
    if at < size {
        text.number(u64::from(at))
    } else {
        text.push(b"illegal")
    }
}

/// The lists of cubes that a location has.
#[derive(Clone, Copy)]
enum Lines {
    Round,
    Move,
    Answer,
}

/// Appends what follows a cube.
fn print_fields(text: &mut Text, strategy: &Strategy, list: Lines, value: u32) -> Result<(), Memory>
    requires { width strategy.now.partition ≤ 32 }
    ensures { OnOk result (text.new ≡ text.old ++ fields_of strategy.now list value) }
{
    match list {
        Lines::Round => print_target(text, strategy.size(), value),
        Lines::Move => print_choice(text, strategy.partition.outputs, strategy.choice(value)),
        Lines::Answer => print_bits(text, strategy.partition.inputs, u64::from(value)),
    }
}

/// Appends the line of a cube.
fn print_cube(text: &mut Text, strategy: &Strategy, list: Lines, cube: &Cube) -> Result<(), Memory>
    requires { width strategy.now.partition ≤ 32 }
    ensures { OnOk result (text.new ≡ text.old ++ cube_line (key_of list) (fields_of strategy.now list) cube.now) }
{
    match list {
        Lines::Round => text.push(b"round ")?,
        Lines::Move => text.push(b"move ")?,
        Lines::Answer => text.push(b"answer ")?,
    }
    text.push(cube.text.bytes())?;
    text.push(b" ")?;
    print_fields(text, strategy, list, cube.terminal)?;
    text.push(b"\n")
}

/// Appends the lines of cubes.
fn print_cubes(
    text: &mut Text,
    strategy: &Strategy,
    list: Lines,
    cubes: &Cubes,
) -> Result<(), Memory>
    requires { width strategy.now.partition ≤ 32 }
    ensures { OnOk result (text.new ≡ text.old ++ cube_lines (key_of list) (fields_of strategy.now list) cubes.now) }
{
    for i in 0..cubes.len() {
        print_cube(text, strategy, list, cubes.item(i))?;
    }
    Ok(())
}

/// How many propositions a decision has.
fn decision_width(partition: Partition) -> u32
    ensures { result ≡ decision_width partition.first partition }
{
    match partition.first {
        Mover::Agent => 0,
        Mover::Environment => partition.inputs,
    }
}

/// How many propositions the environment is shown before it answers.
fn shown_width(partition: Partition) -> u32
    ensures { result ≡ shown_width partition.first partition }
{
    match partition.first {
        Mover::Agent => partition.outputs,
        Mover::Environment => 0,
    }
}

/// Appends the lines of a diagram over so many variables.
fn print_list(
    alloc: Global,
    store: &Store,
    text: &mut Text,
    strategy: &Strategy,
    list: Lines,
    id: Id,
    count: u32,
) -> Result<(), Memory>
    requires live { IsLive store.now id }
    requires over { DependsOn store.now id (λ v. v < count) }
    requires told { AreTold (fields_of strategy.now list) (eval store.now id) }
    requires width { width strategy.now.partition ≤ 32 }
    ensures { OnOk result (text.new ≡ text.old ++ function_lines (key_of list) count (λ n. fields_of strategy.now list (eval store.now id (letter_truth count n)))) }
{
    let cubes = store.cubes(alloc, id, 0, count)?;
    print_cubes(text, strategy, list, &cubes)
}

/// Appends what stands below the line of a location that isn't a goal.
fn print_below(
    alloc: Global,
    store: &Store,
    text: &mut Text,
    strategy: &Strategy,
    at: u32,
) -> Result<(), Memory>
    requires fits { FitsStrategy store.now strategy.now }
    requires at { at < size_of strategy.now }
    requires goal { is_goal (mark_of (mark_at strategy.now at)) ≡ false }
    ensures { OnOk result (text.new ≡ text.old ++ lines_below (plan_of store.now strategy.now) at) }
{
    prove!(store.props() <= 32);
    let parts = strategy.partition;
    let index = at as usize;
    print_list(
        alloc,
        store,
        text,
        strategy,
        Lines::Round,
        strategy.rows[index],
        parts.inputs + parts.outputs,
    )?;
    print_list(
        alloc,
        store,
        text,
        strategy,
        Lines::Move,
        strategy.moves[index],
        decision_width(parts),
    )?;
    match strategy.answers[index] {
        None => Ok(()),
        Some(id) => print_list(
            alloc,
            store,
            text,
            strategy,
            Lines::Answer,
            id,
            shown_width(parts),
        ),
    }
}

/// Appends the lines of a location.
fn print_location(
    alloc: Global,
    store: &Store,
    text: &mut Text,
    strategy: &Strategy,
    at: u32,
) -> Result<(), Memory>
    requires fits { FitsStrategy store.now strategy.now }
    requires at { at < size_of strategy.now }
    ensures { OnOk result (text.new ≡ text.old ++ location_text (plan_of store.now strategy.now) at) }
{
    let mark = strategy.mark(at);
    print_numbered(text, b"location ", at)?;
    text.push(b" ")?;
    print_mark(text, mark)?;
    text.push(b"\n")?;
    match mark {
        Mark::Goal => Ok(()),
        _ => print_below(alloc, store, text, strategy, at),
    }
}

/// Appends names from one to before another, with a space before each.
fn print_names(text: &mut Text, names: &Names, from: u32, to: u32) -> Result<(), Memory>
    requires range { from ≤ to }
    requires within { to ≤ length names.now.names }
    ensures { OnOk result (text.new ≡ text.old ++ spaced_from names.now.names from (to - from)) }
{
    for at in from..to {
        text.push(b" ")?;
        text.push(names.name(at))?;
    }
    Ok(())
}

/// Appends the names of the inputs, with a space before each.
fn print_inputs(text: &mut Text, names: &Names, parts: Partition) -> Result<(), Memory>
    requires { length names.now.names ≡ width parts }
    ensures { OnOk result (text.new ≡ text.old ++ spaced (input_names parts.first parts names.now.names)) }
{
    match parts.first {
        Mover::Agent => print_names(text, names, parts.outputs, names.len()),
        Mover::Environment => print_names(text, names, 0, parts.inputs),
    }
}

/// Appends the names of the outputs, with a space before each.
fn print_outputs(text: &mut Text, names: &Names, parts: Partition) -> Result<(), Memory>
    requires { length names.now.names ≡ width parts }
    ensures { OnOk result (text.new ≡ text.old ++ spaced (output_names parts.first parts names.now.names)) }
{
    match parts.first {
        Mover::Agent => print_names(text, names, 0, parts.outputs),
        Mover::Environment => print_names(text, names, parts.inputs, names.len()),
    }
}

/// Appends the line of the first mover.
fn print_first(text: &mut Text, first: Mover) -> Result<(), Memory>
    ensures { OnOk result (text.new ≡ text.old ++ first_line first) }
{
    match first {
        Mover::Agent => text.push(b"first agent\n"),
        Mover::Environment => text.push(b"first environment\n"),
    }
}

/// Appends the lines of the propositions.
fn print_propositions(text: &mut Text, names: &Names, parts: Partition) -> Result<(), Memory>
    requires { length names.now.names ≡ width parts }
    ensures { OnOk result (text.new ≡ text.old ++ propositions_text names.now.names parts) }
{
    print_first(text, parts.first)?;
    text.push(b"inputs")?;
    print_inputs(text, names, parts)?;
    text.push(b"\n")?;
    text.push(b"outputs")?;
    print_outputs(text, names, parts)?;
    text.push(b"\n")
}

/// Appends the line of a verdict: the number of rounds within which the goal is forced, where it can be.
pub fn print_verdict(text: &mut Text, verdict: Option<u32>) -> Result<(), Memory>
    ensures { OnOk result (text.new ≡ text.old ++ verdict_line verdict) }
{
    match verdict {
        None => text.push(b"verdict unrealisable\n"),
        Some(rounds) => {
            print_numbered(text, b"verdict realisable ", rounds)?;
            text.push(b"\n")
        }
    }
}

/// Appends the first line, which tells whether there is a duty.
fn print_version(text: &mut Text, duty: bool) -> Result<(), Memory>
    ensures { OnOk result (text.new ≡ text.old ++ version_line duty) }
{
    if duty {
        text.push(b"strategy 2\n")
    } else {
        text.push(b"strategy 1\n")
    }
}

/// Appends the lines before those of locations.
fn print_head(text: &mut Text, strategy: &Strategy, names: &Names) -> Result<(), Memory>
    requires { length names.now.names ≡ width strategy.now.partition }
    ensures { (s : Diagrams) → OnOk result (text.new ≡ text.old ++ head_text names.now.names (plan_of s strategy.now)) }
{
    print_version(text, strategy.duty)?;
    print_verdict(text, strategy.verdict)?;
    print_propositions(text, names, strategy.partition)?;
    print_numbered(text, b"locations ", strategy.size())?;
    text.push(b"\n")
}

/// The text of a strategy: its verdict and propositions, and for each location its mark, and where it isn't a goal the cubes
/// of where rounds lead, of what is chosen, and, where the goal can't be forced, of what is answered.
pub fn print_strategy(
    alloc: Global,
    store: &Store,
    strategy: &Strategy,
    names: &Names,
) -> Result<Text, Memory>
    requires fits { FitsStrategy store.now strategy.now }
    requires names { length names.now.names ≡ width (plan_of store.now strategy.now).parts }
    ensures { IfOk result (λ text. text ≡ strategy_text names.now.names (plan_of store.now strategy.now)) }
{
    let mut text = Text::new(alloc);
    print_head(&mut text, strategy, names)?;
    for at in 0..strategy.size() {
        print_location(alloc, store, &mut text, strategy, at)?;
    }
    text.push(b"end\n")?;
    Ok(text)
}
