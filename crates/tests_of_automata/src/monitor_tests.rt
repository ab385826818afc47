//! The verdicts of small automata.
ghost use Rattle.std.specs.Prelude.{◌≡◌};
ghost use Rattle.monitor.specs.Configuration.{IsReady};

use bes_io::Memory;
use diagrams::Store;
use minimise::minimise;
use monitor::{Monitor, Verdict};
use std::alloc::Global;
use test_support::{Location, automaton_of, has_small_marks};

// The verdict after each letter of one proposition.
fn verdicts(
    alloc: Global,
    store: &Store,
    monitor: &mut Monitor,
    letters: &[bool],
) -> Result<Vec<Verdict>, Memory>
    requires props { store.now.props ≡ 1 }
    requires ready { IsReady store.now monitor.old }
{
    let mut found = Vec::new(alloc);
    for letter in letters {
        found.push(monitor.event(store, u64::from(*letter)))?;
    }
    Ok(found)
}

// What is said of a formula's automaton after each letter.
struct Case {
    name: &'static str,
    table: &'static [Location],
    letters: &'static [bool],
    verdicts: &'static [Verdict],
}

const EVENTUALLY: &[Location] = &[Location(0, 0, 0, 1), Location(1, 0, 1, 1)];

const ALWAYS: &[Location] = &[
    Location(0, 0, 1, 2),
    Location(0, 0, 1, 1),
    Location(1, 0, 1, 2),
];

const TWO_LETTERS: &[Location] = &[
    Location(0, 0, 1, 1),
    Location(0, 0, 2, 2),
    Location(1, 0, 2, 2),
];

const CASES: [Case; 4] = [
    Case {
        name: "F a",
        table: EVENTUALLY,
        letters: &[true, false, true],
        verdicts: &[Verdict::PermTrue, Verdict::PermTrue, Verdict::PermTrue],
    },
    Case {
        name: "F a, late",
        table: EVENTUALLY,
        letters: &[false, true],
        verdicts: &[Verdict::TempFalse, Verdict::PermTrue],
    },
    Case {
        name: "G a",
        table: ALWAYS,
        letters: &[true, false, true],
        verdicts: &[Verdict::TempTrue, Verdict::PermFalse, Verdict::PermFalse],
    },
    Case {
        name: "X true",
        table: TWO_LETTERS,
        letters: &[false, false],
        verdicts: &[Verdict::TempFalse, Verdict::PermTrue],
    },
];

#[test]
fn each_letter_has_its_verdict(rt: HostRuntime) -> Result<(), Memory> {
    let alloc = rt.alloc();
    for case in &CASES {
        let mut store = Store::new(alloc, 1)?;
        let table = automaton_of(alloc, &mut store, 0, case.table)?;
        let whole = minimise(alloc, &mut store, table)?;
        if !has_small_marks(&whole) {
            return Err(Memory);
        }
        let mut monitor = Monitor::new(alloc, &store, whole)?;
        let found = verdicts(alloc, &store, &mut monitor, case.letters)?;
        assert_eq!(rt; found.as_slice(), case.verdicts, "{}", case.name);
    }
    Ok(())
}
