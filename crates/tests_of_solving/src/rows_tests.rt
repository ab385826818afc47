//! What is found on the arena of a chain that is made by its rows, whose locations have all numbers.
ghost use Rattle.std.specs.Prelude.{◌≡◌, ◌<◌, ℕ, IfOk};
ghost use Rattle.diagrams.specs.Live.{Keeps};
ghost use Rattle.automata.specs.Table.{size_of, mark_of, Fits};

use adversarial::solve;
use arena::build;
use automata::Automaton;
use bes_io::Memory;
use cooperative::distances;
use diagrams::Store;
use forms::{Mover, Partition};
use std::alloc::Global;
use std::test::Fail;
use test_support::{Location, automaton_of, has_small_marks};

const SIZE: u32 = 300;

// A chain: at each location the proposition leads on to the next one, and else the location stays. The last is a goal.
fn chain(alloc: Global, store: &mut Store, var: u32) -> Result<Automaton, Memory>
    ensures keeps { Keeps store.old store.new }
    ensures fits { IfOk result (Fits store.new) }
    ensures marks { IfOk result (λ made. (at : ℕ) → at < size_of made → mark_of made at < 2) }
{
    prove!(store.props() <= 32);
    let mut table = Vec::new(alloc);
    for at in 0..SIZE {
        let mark = if at + 1 == SIZE { 1 } else { 0 };
        table.push(Location(mark, var, at, at + 1))?;
    }
    let made = automaton_of(alloc, store, 0, &table)?;
    if !has_small_marks(&made) {
        return Err(Memory);
    }
    Ok(made)
}

// Whether the numbers go down by one from each location to the next, and the last is 0.
fn go_down(numbers: &[Option<u32>]) -> bool {
    if numbers.len() != SIZE as usize {
        return false;
    }
    for at in 0..SIZE {
        if numbers[at as usize] != Some(SIZE - 1 - at) {
            return false;
        }
    }
    true
}

// Whether only the last has one, which is 0.
fn is_last_alone(numbers: &[Option<u32>]) -> bool {
    if numbers.len() != SIZE as usize {
        return false;
    }
    for at in 0..SIZE - 1 {
        if numbers[at as usize].is_some() {
            return false;
        }
    }
    numbers[SIZE as usize - 1] == Some(0)
}

// Whether the ranks and the distances of the chain by a proposition are as they must. Each location has a rank where the
// proposition is the agent's, and the last one alone where it is the environment's.
fn is_solved(alloc: Global, first: Mover, var: u32, is_output: bool) -> Result<bool, Fail> {
    let mut store = Store::new(alloc, 2)?;
    let goal = chain(alloc, &mut store, var)?;
    let partition = Partition {
        first,
        inputs: 1,
        outputs: 1,
    };
    let arena = build(alloc, &mut store, &goal, None, None, partition)?;
    let ranks = solve(alloc, &mut store, &arena)?;
    let near = distances(alloc, &mut store, &arena, &ranks)?;
    let ranked = if is_output {
        go_down(ranks.items())
    } else {
        is_last_alone(ranks.items())
    };
    Ok(ranked && go_down(near.items()))
}

#[test]
fn a_chain_has_all_numbers(rt: HostRuntime) -> Result<(), Fail> {
    for (first, var, is_output) in [
        (Mover::Agent, 0, true),
        (Mover::Agent, 1, false),
        (Mover::Environment, 0, false),
        (Mover::Environment, 1, true),
    ] {
        let solved = is_solved(rt.alloc(), first, var, is_output)?;
        assert!(rt; solved, "proposition {var}");
    }
    Ok(())
}
