//! Arenas as lines of text.
ghost use Rattle.std.specs.Prelude.{◌≡◌, ◌<◌, length};
ghost use Rattle.arena.specs.Left.{FitsArena};

use arena::Arena;
use bes_io::{Memory, Text};
use diagrams::{Cube, Store};
use std::alloc::Global;

/// What the histories of a location are.
fn kind_of(arena: &Arena, at: u32) -> &'static str
    requires { at < length arena.now.rows }
{
    if arena.is_goal(at) {
        "goal"
    } else if arena.is_broken(at) {
        "broken"
    } else {
        "running"
    }
}

/// Appends a cube and the location to which its rounds lead.
fn add_rounds(text: &mut Text, cube: &Cube, size: u32) -> Result<(), Memory> {
    text.push(b", ")?;
    text.push(cube.text.bytes())?;
    if cube.terminal >= size {
        return text.push(b" illegal");
    }
    text.push(b" ")?;
    text.number(u64::from(cube.terminal))
}

/// The line of a location: what its histories are and, before the goal, where rounds lead.
fn line_of(alloc: Global, store: &Store, arena: &Arena, at: u32) -> Result<Text, Memory>
    requires fits { FitsArena store.now arena.now }
    requires at { at < length arena.now.rows }
{
    let mut text = Text::new(alloc);
    text.push(kind_of(arena, at).as_bytes())?;
    if arena.is_goal(at) {
        return Ok(text);
    }
    let cubes = store.cubes(alloc, arena.row(at), 0, store.props())?;
    for i in 0..cubes.len() {
        add_rounds(&mut text, cubes.item(i), arena.size())?;
    }
    Ok(text)
}

/// Whether the arena has these lines.
pub(crate) fn has_lines(
    alloc: Global,
    store: &Store,
    arena: &Arena,
    lines: &[&str],
) -> Result<bool, Memory>
    requires fits { FitsArena store.now arena.now }
{
    if arena.size() as usize != lines.len() {
        return Ok(false);
    }
    for at in 0..arena.size() {
        let line = line_of(alloc, store, arena, at)?;
        if line.bytes() != lines[at as usize].as_bytes() {
            return Ok(false);
        }
    }
    Ok(true)
}
