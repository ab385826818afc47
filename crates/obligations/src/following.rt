//! Obligations for the locations of an automaton.
ghost use Rattle.std.specs.Prelude.{◌≡◌, ◌<◌, ◌+◌, ◌^◌, length, IfOk, OnOk};
ghost use Rattle.diagrams.specs.Live.{Keeps};
ghost use Rattle.automata.specs.Table.{size_of, Fits};
ghost use Rattle.obligations.specs.Value.{FitsCells};
ghost use Rattle.obligations.specs.Located.{AllClaims};
ghost use Rattle.obligations.specs.Inclusion.{IsWider};
ghost use Rattle.obligations.specs.Followed.{GoesOn, StandsFor, wider_of};
ghost use Rattle.obligations.specs.Entered.{HasEnds, HasOtherBodies, AllEnter};

use crate::bodies::{all_asked, entered};
use crate::cells::Cells;
use crate::inclusions::Inclusions;
use automata::Automaton;
use bes_io::Memory;
use diagrams::{Id, Memo, Store};
use std::alloc::Global;

/// Appends an obligation for each location, with its mark as end value and a body that never holds.
fn append(store: &mut Store, cells: &mut Cells, automaton: &Automaton) -> Result<(), Memory>
    requires cells { FitsCells store.old cells.old }
    ensures keeps { Keeps store.old store.new }
    ensures cells { FitsCells store.new cells.new }
    ensures grows { GoesOn cells.old cells.new }
    ensures ends { OnOk result (HasEnds cells.new automaton.now (length cells.old) (size_of automaton.now)) }
{
    let never = store.terminal(0)?;
    for at in 0..automaton.size() {
        cells.add(automaton.mark(at) == 1, never)?;
    }
    Ok(())
}

/// Gives the obligation of each location, from `base` on, its body: the item to which the row leads.
fn set_bodies(
    alloc: Global,
    store: &mut Store,
    cells: &mut Cells,
    automaton: &Automaton,
    base: u32,
    items: &[Id],
) -> Result<(), Memory>
    requires fits { Fits store.old automaton.now }
    requires cells { FitsCells store.old cells.old }
    requires count { length cells.old ≡ base + size_of automaton.now }
    requires few { length cells.old < 2 ^ 31 }
    requires each { length items.now ≡ size_of automaton.now }
    requires items { AllClaims store.old (length cells.old) items.now }
    ensures keeps { Keeps store.old store.new }
    ensures cells { FitsCells store.new cells.new }
    ensures others { HasOtherBodies base cells.old cells.new }
    ensures bodies { OnOk result (AllEnter store.new cells.new automaton.now base items.now (size_of automaton.now)) }
{
    prove!(store.props() <= 32);
    let mut memo = Memo::new(alloc);
    for at in 0..automaton.size() {
        let body = entered(store, &mut memo, items, automaton.row(at))?;
        cells.set(base + at, body);
    }
    Ok(())
}

/// Appends an obligation for each location of an automaton, in their order, and answers the number of the first.
/// The inclusions change no value; they keep claims few where locations accept what others do.
pub fn follow(
    alloc: Global,
    store: &mut Store,
    cells: &mut Cells,
    automaton: &Automaton,
    inclusions: &Inclusions,
) -> Result<u32, Memory>
    requires fits { Fits store.old automaton.now }
    requires cells { FitsCells store.old cells.old }
    requires wider { IsWider store.old automaton.now (wider_of inclusions.now) }
    ensures keeps { Keeps store.old store.new }
    ensures cells { FitsCells store.new cells.new }
    ensures grows { GoesOn cells.old cells.new }
    ensures base { IfOk result (λ base. base ≡ length cells.old) }
    ensures count { IfOk result (λ base. length cells.new ≡ base + size_of automaton.now) }
    ensures stands { IfOk result (λ base. StandsFor store.new cells.new automaton.now base) }
{
    let base = cells.len();
    append(store, cells, automaton)?;
    prove!(cells.len() < 2147483648);
    let items = all_asked(alloc, store, base, automaton.size(), inclusions)?;
    set_bodies(alloc, store, cells, automaton, base, &items)?;
    Ok(base)
}
