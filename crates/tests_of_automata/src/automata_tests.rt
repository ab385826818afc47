//! An automaton that is followed by words.
ghost use Rattle.forms.specs.Word.{IsOver};
ghost use Rattle.automata.specs.Table.{Fits};

use automata::Automaton;
use bes_io::Memory;
use diagrams::Store;
use test_support::{Location, are_below, automaton_of};

// The first location is 1. From there the letter 1 leads to location 2 and back, and 0 to one that leads nowhere else.
const TABLE: [Location; 3] = [
    Location(0, 0, 0, 0),
    Location(0, 0, 0, 2),
    Location(1, 0, 0, 1),
];

// A word, the location after it, and whether it is accepted.
const WORDS: [(&[u64], u32, bool); 7] = [
    (&[], 1, false),
    (&[0], 0, false),
    (&[1], 2, true),
    (&[1, 1], 1, false),
    (&[1, 0], 0, false),
    (&[0, 1], 0, false),
    (&[1, 1, 1], 2, true),
];

fn location_after(store: &Store, made: &Automaton, word: &[u64]) -> u32
    requires fits { Fits store.now made.now }
    requires letters { IsOver store.now.props word.now }
{
    let mut at = made.first();
    for letter in word {
        at = made.step(store, at, *letter);
    }
    at
}

#[test]
fn words_lead_from_the_first_location(rt: HostRuntime) -> Result<(), Memory> {
    let mut store = Store::new(rt.alloc(), 1)?;
    let made = automaton_of(rt.alloc(), &mut store, 1, &TABLE)?;
    for (word, location, answer) in WORDS {
        assert!(rt; are_below(word, 2), "letters");
        assert_eq!(rt; location_after(&store, &made, word), location, "{word:?}");
        assert_eq!(rt; made.accepts(&store, word), answer, "{word:?}");
    }
    Ok(())
}
