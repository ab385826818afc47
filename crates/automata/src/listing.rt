//! The text of an automaton.
ghost use Rattle.std.specs.Prelude.{◌≡◌, ◌<◌, ◌++◌, ℕ, IfOk, OnOk};
ghost use Rattle.automata.specs.Table.{size_of, mark_of, Fits};
ghost use Rattle.automata.specs.Listing.{location_line, round_line, round_lines, Lists};

use crate::automaton::Automaton;
use bes_io::{Memory, Text};
use diagrams::{Cube, Cubes, Store};
use std::alloc::Global;

/// Appends the line of a location.
fn print_location(text: &mut Text, at: u32, mark: u32) -> Result<(), Memory>
    ensures { OnOk result (text.new ≡ text.old ++ location_line at mark) }
{
    text.push(b"location ")?;
    text.number(u64::from(at))?;
    text.push(if mark == 1 {
        b" accept\n"
    } else {
        b" reject\n"
    })
}

/// Appends the line of a cube.
fn print_round(text: &mut Text, cube: &Cube) -> Result<(), Memory>
    ensures { OnOk result (text.new ≡ text.old ++ round_line cube.now) }
{
    text.push(b"round ")?;
    text.push(cube.text.bytes())?;
    text.push(b" ")?;
    text.number(u64::from(cube.terminal))?;
    text.push(b"\n")
}

/// Appends the lines of cubes.
fn print_rounds(text: &mut Text, cubes: &Cubes) -> Result<(), Memory>
    ensures { OnOk result (text.new ≡ text.old ++ round_lines cubes.now) }
{
    for i in 0..cubes.len() {
        print_round(text, cubes.item(i))?;
    }
    Ok(())
}

/// The lines of an automaton's locations: for each in order `location K accept` or `location K reject`, and then
/// `round CUBE TARGET` for each cube of its row. Marks are 1 for `accept` and 0 for `reject`.
pub fn print_table(alloc: Global, store: &Store, automaton: &Automaton) -> Result<Text, Memory>
    requires fits { Fits store.now automaton.now }
    requires marks { (at : ℕ) → at < size_of automaton.now → mark_of automaton.now at < 2 }
    ensures { IfOk result (λ text. Lists store.now automaton.now (size_of automaton.now) text) }
{
    let mut text = Text::new(alloc);
    for at in 0..automaton.size() {
        print_location(&mut text, at, automaton.mark(at))?;
        let cubes = store.cubes(alloc, automaton.row(at), 0, store.props())?;
        print_rounds(&mut text, &cubes)?;
    }
    Ok(text)
}
