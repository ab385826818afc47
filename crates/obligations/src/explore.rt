//! The deterministic automaton of a claim over obligations.
ghost use Rattle.std.specs.Prelude.{◌≡◌, ◌<◌, ℕ, List, length, IfOk};
ghost use Rattle.diagrams.specs.Eval.{eval};
ghost use Rattle.diagrams.specs.Live.{Keeps};
ghost use Rattle.diagrams.specs.Kept.{AllKept};
ghost use Rattle.diagrams.specs.Transformed.{same_id};
ghost use Rattle.diagrams.specs.Composed.{IsRightFor};
ghost use Rattle.automata.specs.Moves.{accepts};
ghost use Rattle.automata.specs.Table.{size_of, mark_of, Fits, moves_of};
ghost use Rattle.obligations.specs.Table.{ends_of};
ghost use Rattle.obligations.specs.Value.{IsClaim, FitsCells, by_values, holds};
ghost use Rattle.obligations.specs.Located.{Grows, AllClaims, IsCut, IsLocated, HasBodies};

use crate::cells::Cells;
use crate::cut::cut;
use crate::frontier::Frontier;
use automata::Automaton;
use bes_io::Memory;
use diagrams::{ComposeMemo, Id, Look, Memo, Store};
use std::alloc::Global;

/// The bodies of a table, in order.
fn bodies_of(alloc: Global, cells: &Cells) -> Result<Vec<Id>, Memory>
    ensures { IfOk result (λ made. HasBodies cells.now made.items) }
{
    let mut made = Vec::new(alloc);
    for cell in 0..cells.len() {
        made.push(cells.body(cell))?;
    }
    Ok(made)
}

/// What a claim says of the empty word.
fn at_end(store: &Store, cells: &Cells, f: Id) -> u32
    requires f { IsClaim store.now (length cells.now) f }
    ensures { result ≡ eval store.now f (by_values store.now.props (ends_of cells.now)) }
{
    match store.look(f) {
        Look::Terminal(value) => value,
        Look::Node { var, lo, hi } => {
            let props = store.props();
            if cells.ends(var - props) {
                at_end(store, cells, hi)
            } else {
                at_end(store, cells, lo)
            }
        }
    }
}

/// The row and the mark of the location of a claim.
fn explored(
    store: &mut Store,
    composed: &mut ComposeMemo,
    rows: &mut Memo<Id>,
    frontier: &mut Frontier,
    cells: &Cells,
    bodies: &[Id],
    claim: Id,
) -> Result<(Id, u32), Memory>
    requires fits { FitsCells store.old cells.now }
    requires bodies { HasBodies cells.now bodies.now }
    requires claim { IsClaim store.old (length cells.now) claim }
    requires claims { AllClaims store.old (length cells.now) frontier.old }
    requires composed { IsRightFor store.old bodies.now composed.old }
    requires rows { AllKept same_id (IsCut store.old frontier.old) rows.old }
    ensures keeps { Keeps store.old store.new }
    ensures grows { Grows frontier.old frontier.new }
    ensures claims { AllClaims store.new (length cells.now) frontier.new }
    ensures composed { IsRightFor store.new bodies.now composed.new }
    ensures rows { AllKept same_id (IsCut store.new frontier.new) rows.new }
    ensures located { IfOk result (λ made. IsLocated store.new cells.now frontier.new claim made.0 made.1) }
{
    let mark = at_end(store, cells, claim);
    let whole = store.compose_with(composed, claim, bodies)?;
    let row = cut(store, rows, frontier, cells.len(), whole)?;
    Ok((row, mark))
}

/// The automaton that accepts a word exactly where a claim holds on it.
pub fn determinise(
    alloc: Global,
    store: &mut Store,
    cells: &Cells,
    start: Id,
) -> Result<Automaton, Memory>
    requires fits { FitsCells store.old cells.now }
    requires start { IsClaim store.old (length cells.now) start }
    ensures keeps { Keeps store.old store.new }
    ensures fits { IfOk result (λ made. Fits store.new made) }
    ensures marks { IfOk result (λ made. (at : ℕ) → at < size_of made → mark_of made at < 2) }
    ensures accepts { IfOk result (λ made.
        (word : List ℕ) → accepts (moves_of store.new made) word ≡ holds store.old cells.now start word) }
{
    prove!(store.props() <= 32);
    let bodies = bodies_of(alloc, cells)?;
    let mut composed = ComposeMemo::new(alloc);
    let mut cuts = Memo::new(alloc);
    let mut frontier = Frontier::new(alloc);
    frontier.place(start)?;
    let mut rows: Vec<Id> = Vec::new(alloc);
    let mut marks: Vec<u32> = Vec::new(alloc);
    let mut at = 0;
    while at < frontier.len() {
        let claim = frontier.claim(at);
        let (row, mark) = explored(
            store,
            &mut composed,
            &mut cuts,
            &mut frontier,
            cells,
            &bodies,
            claim,
        )?;
        rows.push(row)?;
        marks.push(mark)?;
        at += 1;
    }
    Ok(Automaton::new(0, marks, rows))
}
