//! Rows folded over the outputs, environment first: what each input leads to by the least item of a table.
ghost use Rattle.std.specs.Prelude.{◌≡◌, ◌<◌, ℕ, List, length, OnOk, IfOk};
ghost use Rattle.diagrams.specs.Tree.{Assignment};
ghost use Rattle.diagrams.specs.Eval.{Diagrams, eval};
ghost use Rattle.diagrams.specs.Live.{IsLive, Keeps};
ghost use Rattle.attractor.specs.Graph.{number_at};
ghost use Rattle.layers.specs.Folding.{IsFound, AllLeast, IsLeastItem, HasRoom, IsInstead, IsFoldedRow, IsRightFor};

use bes_io::Memory;
use diagrams::{Id, Look, Memo, Store};
use std::alloc::Global;

/// What is put below an input, by the least item over the outputs.
#[derive(Clone, Copy)]
pub enum Below {
    /// That item.
    Item,
    /// Where it is at most this size, the location of that number after the locations; else what the row has there.
    Place { size: u32 },
    /// Where it is 0, this location; else what the row has there.
    Sink { sink: u32 },
}

/// The least item that was found for a diagram.
fn known(found: &Vec<Option<u32>>, f: Id) -> Option<u32>
    ensures { result ≡ number_at found.now.items f.0 }
{
    if f.0 < found.len() { found[f.0] } else { None }
}

/// Keeps the least item of a diagram.
fn keep(found: &mut Vec<Option<u32>>, f: Id, item: u32) -> Result<(), Memory>
    ensures { OnOk result (IsFound found.old.items found.new.items f item) }
{
    'room: while found.len() <= f.0 {
        found.push(None)?;
    }
    found[f.0] = Some(item);
    Ok(())
}

/// The least of the table's items at the terminals of a diagram. Those that were found before are in `found`, by their ids.
fn least(store: &Store, found: &mut Vec<Option<u32>>, f: Id, table: &[u32]) -> Result<u32, Memory>
    requires live { IsLive store.now f }
    requires fit { (a : Assignment) → eval store.now f a < length table.now }
    requires found { AllLeast store.now table.now found.old.items }
    ensures found { OnOk result (AllLeast store.now table.now found.new.items) }
    ensures least { IfOk result (λ item. IsLeastItem store.now table.now f item) }
{
    match store.look(f) {
        Look::Terminal(terminal) => Ok(table[terminal as usize]),
        Look::Node { lo, hi, .. } => {
            if let Some(item) = known(found, f) {
                return Ok(item);
            }
            let low = least(store, found, lo, table)?;
            let high = least(store, found, hi, table)?;
            let item = low.min(high);
            keep(found, f, item)?;
            Ok(item)
        }
    }
}

/// What is put in place of a diagram that stands below an input.
fn instead(
    store: &mut Store,
    found: &mut Vec<Option<u32>>,
    f: Id,
    table: &[u32],
    below: Below,
) -> Result<Id, Memory>
    requires live { IsLive store.old f }
    requires fit { (a : Assignment) → eval store.old f a < length table.now }
    requires room { HasRoom below }
    requires found { AllLeast store.old table.now found.old.items }
    ensures keeps { Keeps store.old store.new }
    ensures found { OnOk result (AllLeast store.new table.now found.new.items) }
    ensures id { IfOk result (λ id. IsInstead store.old store.new below table.now f id) }
{
    prove!(store.props() <= 32);
    let item = least(store, found, f, table)?;
    match below {
        Below::Item => store.terminal(item),
        Below::Place { size } => {
            if item > size {
                return Ok(f);
            }
            store.terminal(size + 1 + item)
        }
        Below::Sink { sink } => {
            if item != 0 {
                return Ok(f);
            }
            store.terminal(sink)
        }
    }
}

/// What was found so far while rows of one store are folded by one table: the least item of each diagram that was met, and what
/// was made of each that has inputs.
#[derive(Drop)]
pub struct Folding {
    found: Vec<Option<u32>>,
    made: Memo<Id>,
}

impl Folding {
    /// Nothing was found yet.
    pub fn new(alloc: Global) -> Folding
        ensures { (s : Diagrams) (below : Below) (inputs : ℕ) (table : List ℕ) → IsRightFor s below inputs table result }
    {
        let found = Vec::new(alloc);
        let made = Memo::new(alloc);
        Folding { found, made }
    }
}

/// The row in which each input leads to what is put below it. Diagrams that rows share are walked once for all of them.
pub fn fold_row(
    store: &mut Store,
    folding: &mut Folding,
    f: Id,
    table: &[u32],
    below: Below,
    inputs: u32,
) -> Result<Id, Memory>
    requires live { IsLive store.old f }
    requires fit { (a : Assignment) → eval store.old f a < length table.now }
    requires room { HasRoom below }
    requires right { IsRightFor store.old below inputs table.now folding.old }
    ensures keeps { Keeps store.old store.new }
    ensures right { OnOk result (IsRightFor store.new below inputs table.now folding.new) }
    ensures row { IfOk result (λ row. IsFoldedRow store.old store.new below inputs table.now f row) }
{
    match store.look(f) {
        Look::Terminal(_) => instead(store, &mut folding.found, f, table, below),
        Look::Node { var, lo, hi } => {
            if var >= inputs {
                return instead(store, &mut folding.found, f, table, below);
            }
            if let Some(row) = folding.made.get(&f) {
                return Ok(row);
            }
            let low = fold_row(store, folding, lo, table, below, inputs)?;
            let high = fold_row(store, folding, hi, table, below, inputs)?;
            let row = store.node(var, low, high)?;
            folding.made.keep(f, row)?;
            Ok(row)
        }
    }
}
