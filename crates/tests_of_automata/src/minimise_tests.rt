//! Least automata, and the rounds that find them.
use automata::renumber;
use bes_io::Memory;
use diagrams::Store;
use dividing::{Targets, block_rows, divide_by_rows, renewed_rows};
use minimise::minimise;
use std::alloc::Global;
use test_support::{Location, automaton_of, listing};

// What becomes of an automaton, by the number of propositions.
struct Case {
    props: u32,
    table: &'static [Location],
    renumbered: &'static str,
    least: &'static str,
}

const CASES: [Case; 3] = [
    Case {
        props: 0,
        table: &[
            Location(0, 0, 2, 2),
            Location(1, 0, 0, 0),
            Location(1, 0, 3, 3),
            Location(1, 0, 2, 2),
        ],
        renumbered: "location 0 reject\nround . 1\nlocation 1 accept\nround . 2\nlocation 2 accept\nround . 1\n",
        least: "location 0 reject\nround . 1\nlocation 1 accept\nround . 1\n",
    },
    Case {
        props: 1,
        table: &[
            Location(0, 0, 2, 1),
            Location(1, 0, 1, 3),
            Location(0, 0, 2, 1),
            Location(1, 0, 3, 1),
        ],
        renumbered: "location 0 reject\nround 0 1\nround 1 2\nlocation 1 reject\nround 0 1\nround 1 2\nlocation 2 accept\nround 0 2\nround 1 3\nlocation 3 accept\nround 0 3\nround 1 2\n",
        least: "location 0 reject\nround 0 0\nround 1 1\nlocation 1 accept\nround - 1\n",
    },
    Case {
        props: 3,
        table: &[
            Location(0, 0, 3, 2),
            Location(0, 0, 0, 5),
            Location(0, 1, 2, 4),
            Location(0, 2, 3, 5),
            Location(1, 0, 5, 5),
            Location(1, 1, 4, 5),
        ],
        renumbered: "location 0 reject\nround 0-- 1\nround 1-- 2\nlocation 1 reject\nround --0 1\nround --1 3\nlocation 2 reject\nround -0- 2\nround -1- 4\nlocation 3 accept\nround -0- 4\nround -1- 3\nlocation 4 accept\nround --- 3\n",
        least: "location 0 reject\nround 0-- 1\nround 1-- 2\nlocation 1 reject\nround --0 1\nround --1 3\nlocation 2 reject\nround -0- 2\nround -1- 3\nlocation 3 accept\nround --- 3\n",
    },
];

#[test]
fn hand_made_automata_are_renumbered_and_minimised(rt: HostRuntime) -> Result<(), Memory> {
    let alloc = rt.alloc();
    for case in &CASES {
        let mut store = Store::new(alloc, case.props.min(32))?;
        let table = automaton_of(alloc, &mut store, 0, case.table)?;
        let table = renumber(alloc, &mut store, table)?;
        let text = listing(alloc, &store, &table)?;
        assert!(rt; text.bytes() == case.renumbered.as_bytes(), "renumbered");
        let table = minimise(alloc, &mut store, table)?;
        let text = listing(alloc, &store, &table)?;
        assert!(rt; text.bytes() == case.least.as_bytes(), "least");
    }
    Ok(())
}

// 0 and 3 accept after the letter 1; the letter 0 leads to what never accepts from 0, and from 3 back to it.
const DIVIDED: [Location; 4] = [
    Location(0, 0, 1, 2),
    Location(0, 0, 1, 1),
    Location(1, 0, 1, 2),
    Location(0, 0, 3, 2),
];

// The blocks that two rounds make of one block.
fn two_rounds(alloc: Global) -> Result<(Vec<u32>, Vec<u32>), Memory> {
    let mut store = Store::new(alloc, 1)?;
    let table = automaton_of(alloc, &mut store, 0, &DIVIDED)?;
    let one_block = [0; 4];
    let rows = block_rows(alloc, &mut store, &table, &one_block)?;
    let first = divide_by_rows(alloc, &table, &rows)?;
    let targets = Targets::new(alloc, &store, &table)?;
    let rows = renewed_rows(
        alloc, &mut store, &table, &targets, &one_block, &first, &rows,
    )?;
    let second = divide_by_rows(alloc, &table, &rows)?;
    Ok((first, second))
}

#[test]
fn rounds_divide_by_the_mark_and_the_row(rt: HostRuntime) -> Result<(), Memory> {
    let (first, second) = two_rounds(rt.alloc())?;
    assert_eq!(rt; first.as_slice(), [0, 0, 2, 0].as_slice());
    assert_eq!(rt; second.as_slice(), [0, 1, 2, 0].as_slice());
    Ok(())
}
