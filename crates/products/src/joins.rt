//! The automaton that goes as two others do at once.
ghost use Rattle.std.specs.Prelude.{◌≡◌, ◌<◌, ◌+◌, ◌^◌, ◌-◌, length, slice_get, Some, true, OnOk, IfOk};
ghost use Rattle.diagrams.specs.Eval.{Diagrams};
ghost use Rattle.diagrams.specs.Kept.{AllKept};
ghost use Rattle.diagrams.specs.Live.{Keeps};
ghost use Rattle.automata.specs.Table.{size_of, Fits, moves_of};
ghost use Rattle.products.specs.Places.{same_rows, ArePlaces, Grows, IsPaired};
ghost use Rattle.products.specs.Joins.{IsJoin};
ghost use Rattle.products.specs.Stops.{IsIdle};
ghost use Rattle.products.specs.Joining.{mark_at, IsJoinRow, AreNewWithin, IsJoining};

use crate::places::{Place, Rows, number, walked};
use crate::stops::stopped;
use automata::Automaton;
use bes_io::Memory;
use diagrams::{Id, Memo, Store};
use indexmap::IndexSet;
use std::alloc::Global;

/// The places found so far, and a mark and a row for the first of them.
#[derive(Drop)]
pub(crate) struct Joining {
    pub(crate) places: IndexSet<Place>,
    pub(crate) marks: Vec<u32>,
    pub(crate) rows: Vec<Id>,
}

/// The mark of a place: the greater of the two.
fn greater_mark(a: &Automaton, b: &Automaton, place: Place) -> u32
    requires left { place.left < size_of a.now }
    requires right { place.right < size_of b.now }
    ensures { result ≡ mark_at a.now b.now place }
{
    a.mark(place.left).max(b.mark(place.right))
}

/// The row of a place: to itself where the mark is an end, else where the two rows lead.
fn row_at(
    store: &mut Store,
    memo: &mut Memo<Rows>,
    places: &mut IndexSet<Place>,
    a: &Automaton,
    b: &Automaton,
    at: u32,
    place: Place,
    mark: u32,
) -> Result<Id, Memory>
    requires a { Fits store.old a.now }
    requires b { Fits store.old b.now }
    requires left { place.left < size_of a.now }
    requires right { place.right < size_of b.now }
    requires mark { mark ≡ mark_at a.now b.now place }
    requires places { ArePlaces places.old.keys }
    requires kept { AllKept same_rows (IsPaired store.old places.old.keys) memo.old }
    ensures keeps { Keeps store.old store.new }
    ensures places { OnOk result (ArePlaces places.new.keys) }
    ensures grows { OnOk result (Grows places.old.keys places.new.keys) }
    ensures within { OnOk result (AreNewWithin a.now b.now places.old.keys places.new.keys) }
    ensures kept { OnOk result (AllKept same_rows (IsPaired store.new places.new.keys) memo.new) }
    ensures row { IfOk result (λ id. IsJoinRow store.new a.now b.now places.new.keys place at id) }
{
    if mark == 1 || mark == 3 {
        return store.terminal(at);
    }
    walked(store, memo, places, a.row(place.left), b.row(place.right))
}

/// Gives the next place its mark and its row.
fn follow(
    store: &mut Store,
    memo: &mut Memo<Rows>,
    joining: &mut Joining,
    a: &Automaton,
    b: &Automaton,
    place: Place,
) -> Result<(), Memory>
    requires a { Fits store.old a.now }
    requires b { Fits store.old b.now }
    requires joining { IsJoining store.old a.now b.now joining.old.places.keys joining.old.marks.items joining.old.rows.items }
    requires here { slice_get joining.old.places.keys (length joining.old.rows.items) ≡ Some place }
    requires kept { AllKept same_rows (IsPaired store.old joining.old.places.keys) memo.old }
    ensures keeps { Keeps store.old store.new }
    ensures joining { OnOk result (IsJoining store.new a.now b.now joining.new.places.keys joining.new.marks.items joining.new.rows.items) }
    ensures kept { OnOk result (AllKept same_rows (IsPaired store.new joining.new.places.keys) memo.new) }
    ensures more { OnOk result (length joining.new.rows.items ≡ length joining.old.rows.items + 1) }
{
    let at = joining.rows.len() as u32;
    let mark = greater_mark(a, b, place);
    let row = row_at(store, memo, &mut joining.places, a, b, at, place, mark)?;
    joining.marks.push(mark)?;
    joining.rows.push(row)?;
    Ok(())
}

/// The join that has found the first place alone.
fn begin(alloc: Global, a: &Automaton, b: &Automaton) -> Result<Joining, Memory>
    ensures joining { IfOk result (λ made. (s : Diagrams) → IsJoining s a.now b.now made.places.keys made.marks.items made.rows.items) }
{
    let mut places = IndexSet::new(alloc);
    let first = Place {
        left: a.first(),
        right: b.first(),
    };
    number(&mut places, first)?;
    Ok(Joining {
        places,
        marks: Vec::new(alloc),
        rows: Vec::new(alloc),
    })
}

/// The automaton of the pairs of locations that words reach.
fn paired(
    alloc: Global,
    store: &mut Store,
    a: &Automaton,
    b: &Automaton,
) -> Result<Automaton, Memory>
    requires a { Fits store.old a.now }
    requires b { Fits store.old b.now }
    ensures keeps { Keeps store.old store.new }
    ensures fits { IfOk result (λ made. Fits store.new made) }
    ensures join { IfOk result (λ made. IsJoin store.new.props (moves_of store.new a.now) (moves_of store.new b.now) (moves_of store.new made)) }
{
    prove!(store.props() <= 32);
    let mut memo = Memo::new(alloc);
    let mut joining = begin(alloc, a, b)?;
    while let Some(place) = joining.places.get_index(joining.rows.len()).copied() {
        follow(store, &mut memo, &mut joining, a, b, place)?;
    }
    Ok(Automaton::new(0, joining.marks, joining.rows))
}

/// Whether the automaton has one location alone, with the mark 0.
fn is_idle(automaton: &Automaton) -> bool
    ensures { result ≡ true → IsIdle automaton.now }
{
    automaton.size() == 1 && automaton.mark(0) == 0
}

/// An automaton that goes as both do. Its marks are the greater ones, and a location with the mark 1 or 3 leads to itself.
/// It is made of the pairs of locations that words reach, but where one of the two has nothing to tell.
pub fn join(
    alloc: Global,
    store: &mut Store,
    a: &Automaton,
    b: &Automaton,
) -> Result<Automaton, Memory>
    requires a { Fits store.old a.now }
    requires b { Fits store.old b.now }
    ensures keeps { Keeps store.old store.new }
    ensures fits { IfOk result (λ made. Fits store.new made) }
    ensures join { IfOk result (λ made. IsJoin store.new.props (moves_of store.new a.now) (moves_of store.new b.now) (moves_of store.new made)) }
{
    prove!(a.first() < a.size());
    prove!(b.first() < b.size());
    if is_idle(a) {
        return stopped(alloc, store, b);
    }
    if is_idle(b) {
        return stopped(alloc, store, a);
    }
    paired(alloc, store, a, b)
}
