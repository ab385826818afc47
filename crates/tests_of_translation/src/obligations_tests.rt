//! Small alternating automata over two propositions, with words and answers worked out by hand.
ghost use Rattle.std.specs.Prelude.{◌≡◌, IfOk};
ghost use Rattle.diagrams.specs.Live.{Keeps};
ghost use Rattle.automata.specs.Table.{Fits};
ghost use Rattle.obligations.specs.Value.{FitsCells};
ghost use Rattle.obligations.specs.Inclusion.{IsWider};
ghost use Rattle.obligations.specs.Followed.{wider_of};

use crate::tables::{A, B, Entry, FIRST, SECOND, THIRD, cells_of, conjunction};
use automata::Automaton;
use bes_io::Memory;
use diagrams::Store;
use obligations::{Cells, Inclusions, determinise, find_inclusions, follow, themselves};
use std::alloc::Global;
use test_support::{Location, accepted, automaton_of};

// The automaton of a conjunction of obligations, once those of the locations of another are added.
fn followed(
    alloc: Global,
    store: &mut Store,
    cells: &mut Cells,
    made: &Automaton,
    lists: &Inclusions,
    start: &[u32],
) -> Result<Automaton, Memory>
    requires props { store.old.props ≡ 2 }
    requires made { Fits store.old made.now }
    requires cells { FitsCells store.old cells.old }
    requires wider { IsWider store.old made.now (wider_of lists.now) }
    ensures keeps { Keeps store.old store.new }
    ensures cells { FitsCells store.new cells.new }
    ensures fits { IfOk result (Fits store.new) }
{
    follow(alloc, store, cells, made, lists)?;
    let to = 2 + cells.len();
    let claim = conjunction(store, FIRST, to, start)?;
    determinise(alloc, store, cells, claim)
}

// A word, and whether the obligations hold on it.
type Answer = (&'static [u64], bool);

// Whether the conjunction of some of three obligations holds on each word as it must, and so does the
// obligation of the first location of its automaton.
fn agree(
    alloc: Global,
    entries: &[Entry],
    start: &[u32],
    answers: &[Answer],
) -> Result<bool, Memory> {
    let mut store = Store::new(alloc, 2)?;
    let mut cells = cells_of(alloc, &mut store, 3, entries)?;
    let claim = conjunction(&mut store, FIRST, 5, start)?;
    let made = determinise(alloc, &mut store, &cells, claim)?;
    let own = themselves(alloc, &store, &made)?;
    let first = [2 + cells.len()];
    let plain = followed(alloc, &mut store, &mut cells, &made, &own, &first)?;
    let wider = find_inclusions(alloc, &store, &made)?;
    let first = [2 + cells.len()];
    let closed = followed(alloc, &mut store, &mut cells, &made, &wider, &first)?;
    for (word, answer) in answers {
        if accepted(&store, &made, word)? != *answer
            || accepted(&store, &plain, word)? != *answer
            || accepted(&store, &closed, word)? != *answer
        {
            return Ok(false);
        }
    }
    Ok(true)
}

// Three obligations, those of them that are asked for, and what they say of words.
struct Case {
    name: &'static str,
    entries: &'static [Entry<'static>],
    start: &'static [u32],
    answers: &'static [Answer],
}

// a until b, and b until a; the third holds on every word.
const UNTILS: &[Entry] = &[
    (false, &[&[B], &[A, FIRST]]),
    (false, &[&[A], &[B, SECOND]]),
    (true, &[&[]]),
];

const COUNTER: &[Entry] = &[
    (true, &[&[SECOND]]),
    (false, &[&[THIRD]]),
    (false, &[&[FIRST]]),
];

// Each goes on for ever: always a, what never holds, and what always holds.
const SELVES: &[Entry] = &[
    (true, &[&[A, FIRST]]),
    (false, &[&[SECOND]]),
    (true, &[&[THIRD]]),
];

const CASES: [Case; 4] = [
    Case {
        name: "two untils",
        entries: UNTILS,
        start: &[FIRST, SECOND, THIRD],
        answers: &[
            (&[], false),
            (&[0], false),
            (&[1], false),
            (&[2], false),
            (&[3], true),
            (&[2, 1], true),
            (&[1, 1, 2, 0], true),
            (&[1, 0, 3], false),
        ],
    },
    Case {
        name: "a counter of three",
        entries: COUNTER,
        start: &[FIRST],
        answers: &[
            (&[], true),
            (&[3], false),
            (&[0, 1], false),
            (&[0, 1, 2], true),
            (&[3, 2, 1, 0], false),
        ],
    },
    Case {
        name: "always a",
        entries: SELVES,
        start: &[FIRST, THIRD],
        answers: &[
            (&[], true),
            (&[2, 3], true),
            (&[1], false),
            (&[2, 1, 2], false),
        ],
    },
    Case {
        name: "never",
        entries: SELVES,
        start: &[SECOND],
        answers: &[(&[], false), (&[3, 2], false)],
    },
];

#[test]
fn accepted_words_are_those_on_which_the_obligations_hold(rt: HostRuntime) -> Result<(), Memory> {
    for case in &CASES {
        let agrees = agree(rt.alloc(), case.entries, case.start, case.answers)?;
        assert!(rt; agrees, "{}", case.name);
    }
    Ok(())
}

// How many locations the conjunction of the obligations of the three locations of `a` until `b` has,
// with each location alone and with those that accept more.
fn sizes(alloc: Global) -> Result<(u32, u32), Memory> {
    let mut store = Store::new(alloc, 2)?;
    let until: [Entry; 1] = [(false, &[&[B], &[A, FIRST]])];
    let mut cells = cells_of(alloc, &mut store, 1, &until)?;
    let claim = conjunction(&mut store, FIRST, 3, &[FIRST])?;
    let made = determinise(alloc, &mut store, &cells, claim)?;
    let own = themselves(alloc, &store, &made)?;
    let plain = followed(alloc, &mut store, &mut cells, &made, &own, &[3, 4, 5])?;
    let wider = find_inclusions(alloc, &store, &made)?;
    let closed = followed(alloc, &mut store, &mut cells, &made, &wider, &[6, 7, 8])?;
    Ok((plain.size(), closed.size()))
}

#[test]
fn locations_that_accept_more_join_claims(rt: HostRuntime) -> Result<(), Memory> {
    // Once the rejecting location is asked for, all three are.
    assert_eq!(rt; sizes(rt.alloc())?, (3, 1));
    Ok(())
}

// So many locations that accept nothing, each leading to the next one.
fn chain(alloc: Global, store: &mut Store, count: u32) -> Result<Automaton, Memory>
    ensures keeps { Keeps store.old store.new }
    ensures fits { IfOk result (Fits store.new) }
{
    let _ = store.terminal(0)?;
    let mut table = Vec::new(alloc);
    for at in 0..count {
        table.push(Location(0, 0, at + 1, at + 1))?;
    }
    automaton_of(alloc, store, 0, &table)
}

#[test]
fn past_512_locations_each_is_found_to_include_itself_alone(rt: HostRuntime) -> Result<(), Memory> {
    let mut store = Store::new(rt.alloc(), 0)?;
    let few = chain(rt.alloc(), &mut store, 3)?;
    let found = find_inclusions(rt.alloc(), &store, &few)?;
    assert_eq!(rt; found.of(1), [0, 1, 2].as_slice());
    let many = chain(rt.alloc(), &mut store, 513)?;
    let found = find_inclusions(rt.alloc(), &store, &many)?;
    for at in 0..513 {
        assert_eq!(rt; found.of(at), [at].as_slice());
    }
    Ok(())
}

#[test]
fn cells_give_back_what_was_added_and_set(rt: HostRuntime) -> Result<(), Memory> {
    let alloc = rt.alloc();
    let mut store = Store::new(alloc, 2)?;
    let never = store.terminal(0)?;
    let always = store.terminal(1)?;
    let mut cells = Cells::new(alloc);
    let first = cells.add(true, never)?;
    let second = cells.add(false, never)?;
    cells.set(second, always);
    assert_eq!(rt; cells.len(), 2);
    assert!(rt; cells.ends(first) && !cells.ends(second), "end values");
    assert!(rt; cells.body(first) == never, "the body that was added");
    assert!(rt;
        cells.body(second) == always && always != never,
        "the body that was set"
    );
    Ok(())
}
