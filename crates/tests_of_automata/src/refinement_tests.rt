//! Blocks as they are shifted, the locations that lead to others, and the classes of a long chain.
ghost use Rattle.std.specs.Prelude.{◌≡◌, ◌<◌, ◌≤◌, ◌-◌, ◌^◌, length, IfOk};
ghost use Rattle.automata.specs.Table.{size_of, Fits};

use automata::Automaton;
use bes_io::Memory;
use diagrams::Store;
use linked_blocks::Blocks;
use looking::Predecessors;
use minimise::minimise;
use refinement::refine;
use std::alloc::Global;
use test_support::{Location, automaton_of, row};

// The locations of a block, in order. A link to no location fails the test.
fn listed(alloc: Global, blocks: &Blocks, block: u32) -> Result<Vec<u32>, Memory>
    requires { block < length blocks.now.lists }
{
    let size = blocks.numbers().len();
    let mut found = Vec::new(alloc);
    let mut next = blocks.first(block);
    for _ in 0..blocks.count(block) {
        let Some(at) = next else {
            return Err(Memory);
        };
        if at as usize >= size {
            return Err(Memory);
        }
        found.push(at)?;
        next = blocks.next(at);
    }
    Ok(found)
}

// Shifts a location. What is asked of a shift but isn't so fails the test.
fn shift(blocks: &mut Blocks, at: u32, into: u32) -> Result<(), Memory> {
    let size = blocks.numbers().len();
    if at as usize >= size || into >= blocks.len() || blocks.moves() == u64::MAX {
        return Err(Memory);
    }
    if blocks.block_of(at) == into {
        return Err(Memory);
    }
    blocks.shift(at, into);
    Ok(())
}

// What two blocks hold after shifts, each of a location into a block, of so many locations.
struct Case {
    size: u32,
    shifts: &'static [(u32, u32)],
    first: &'static [u32],
    second: &'static [u32],
}

const CASES: [Case; 5] = [
    Case {
        size: 3,
        shifts: &[(1, 1)],
        first: &[0, 2],
        second: &[1],
    },
    Case {
        size: 3,
        shifts: &[(0, 1)],
        first: &[1, 2],
        second: &[0],
    },
    Case {
        size: 3,
        shifts: &[(2, 1)],
        first: &[0, 1],
        second: &[2],
    },
    Case {
        size: 4,
        shifts: &[(1, 1), (3, 1), (1, 0)],
        first: &[0, 2, 1],
        second: &[3],
    },
    Case {
        size: 2,
        shifts: &[(1, 1), (0, 1)],
        first: &[],
        second: &[1, 0],
    },
];

#[test]
fn a_shifted_location_stands_at_the_end_of_its_block(rt: HostRuntime) -> Result<(), Memory> {
    let alloc = rt.alloc();
    for case in &CASES {
        let mut blocks = Blocks::new(alloc, case.size.max(2))?;
        let added = blocks.add_block();
        for (at, into) in case.shifts {
            shift(&mut blocks, *at, *into)?;
        }
        if blocks.len() <= added {
            return Err(Memory);
        }
        let first = listed(alloc, &blocks, 0)?;
        let second = listed(alloc, &blocks, added)?;
        assert_eq!(rt; first.as_slice(), case.first);
        assert_eq!(rt; second.as_slice(), case.second);
        assert_eq!(rt; blocks.moves(), case.shifts.len() as u64);
    }
    Ok(())
}

// 0 and 3 lead to 2 by the letter 1, and 2 to itself; all but 3 lead to 1 by the letter 0.
const FOUR: [Location; 4] = [
    Location(0, 0, 1, 2),
    Location(0, 0, 1, 1),
    Location(1, 0, 1, 2),
    Location(0, 0, 3, 2),
];

#[test]
fn predecessors_lead_to_what_was_shifted(rt: HostRuntime) -> Result<(), Memory> {
    let alloc = rt.alloc();
    let mut store = Store::new(alloc, 1)?;
    let table = automaton_of(alloc, &mut store, 0, &FOUR)?;
    let predecessors = Predecessors::new(alloc, &store, &table)?;
    let lead_to_2 = predecessors.of_all(alloc, &[2])?;
    let lead_to_0_or_3 = predecessors.of_all(alloc, &[0, 3])?;
    assert_eq!(rt; lead_to_2.as_slice(), [0, 2, 3].as_slice());
    assert_eq!(rt; lead_to_0_or_3.as_slice(), [3].as_slice());
    Ok(())
}

// By the letter 1 each location leads to the next, and else to itself; the last alone has mark 1.
fn chain(alloc: Global, store: &mut Store, size: u32) -> Result<Automaton, Memory>
    requires some { 0 < size }
    requires few { size ≤ 2 ^ 32 - 2 }
    ensures fits { IfOk result (λ made. Fits store.new made) }
    ensures size { IfOk result (λ made. size_of made ≡ size) }
{
    prove!(store.props() <= 32);
    let last = size - 1;
    let mut marks = Vec::new(alloc);
    let mut rows = Vec::new(alloc);
    for at in 0..size {
        marks.push(if at == last { 1 } else { 0 })?;
        rows.push(row(store, last, 0, at, at + 1)?)?;
    }
    Ok(Automaton::new(0, marks, rows))
}

// How many locations a chain has.
const LONG: u32 = 100_000;

#[test]
fn each_location_of_a_long_chain_is_a_class(rt: HostRuntime) -> Result<(), Memory> {
    let alloc = rt.alloc();
    let mut store = Store::new(alloc, 1)?;
    let table = chain(alloc, &mut store, LONG)?;
    let mut blocks = Blocks::new(alloc, table.size())?;
    refine(alloc, &mut store, &table, &mut blocks)?;
    assert_eq!(rt; blocks.len(), LONG);
    let least = minimise(alloc, &mut store, table)?;
    assert_eq!(rt; least.size(), LONG);
    Ok(())
}
