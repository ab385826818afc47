//! The words that tell the locations of small automata apart, worked out by hand.
use bes_io::Memory;
use diagrams::Store;
use distinguish::{Words, telling_words};
use minimise::minimise;
use test_support::{Location, automaton_of};

// Whether a list has these words.
fn are_words(words: &Words, expected: &[&[u64]]) -> bool {
    if words.len() != expected.len() {
        return false;
    }
    for i in 0..words.len() {
        if words.item(i).as_slice() != expected[i] {
            return false;
        }
    }
    true
}

// The words of a least automaton, by the number of propositions.
struct Case {
    props: u32,
    table: &'static [Location],
    words: &'static [&'static [u64]],
}

const CASES: [Case; 7] = [
    Case {
        props: 0,
        table: &[Location(1, 0, 0, 0)],
        words: &[],
    },
    Case {
        props: 0,
        table: &[
            Location(0, 0, 1, 1),
            Location(0, 0, 2, 2),
            Location(1, 0, 2, 2),
        ],
        words: &[&[], &[0]],
    },
    Case {
        props: 1,
        table: &[
            Location(0, 0, 1, 2),
            Location(0, 0, 1, 1),
            Location(1, 0, 1, 2),
        ],
        words: &[&[], &[1]],
    },
    Case {
        props: 1,
        table: &[
            Location(0, 0, 0, 1),
            Location(0, 0, 0, 2),
            Location(0, 0, 0, 3),
            Location(1, 0, 3, 3),
        ],
        words: &[&[], &[1], &[1, 1]],
    },
    Case {
        props: 2,
        table: &[Location(1, 1, 1, 0), Location(0, 1, 1, 1)],
        words: &[&[]],
    },
    Case {
        props: 2,
        table: &[
            Location(0, 1, 0, 1),
            Location(0, 1, 0, 2),
            Location(1, 0, 2, 2),
        ],
        words: &[&[], &[1]],
    },
    Case {
        props: 2,
        table: &[
            Location(0, 0, 1, 2),
            Location(0, 1, 1, 3),
            Location(0, 0, 4, 3),
            Location(1, 0, 3, 3),
            Location(0, 0, 3, 3),
        ],
        words: &[&[], &[0], &[1], &[2]],
    },
];

#[test]
fn least_automata_have_these_telling_words(rt: HostRuntime) -> Result<(), Memory> {
    let alloc = rt.alloc();
    for case in &CASES {
        let mut store = Store::new(alloc, case.props.min(32))?;
        let table = automaton_of(alloc, &mut store, 0, case.table)?;
        let table = minimise(alloc, &mut store, table)?;
        assert!(rt; table.size() as usize == case.table.len(), "least");
        let words = telling_words(alloc, &mut store, &table)?;
        assert!(rt; are_words(&words, case.words), "words");
    }
    Ok(())
}
