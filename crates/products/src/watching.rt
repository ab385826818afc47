//! Automata that watch a claim about each nonempty prefix.
ghost use Rattle.std.specs.Prelude.{◌≡◌, ◌<◌, ◌+◌, ◌^◌, ◌-◌, IfOk};
ghost use Rattle.diagrams.specs.Live.{Keeps};
ghost use Rattle.forms.specs.Word.{Word};
ghost use Rattle.automata.specs.Moves.{mark_after};
ghost use Rattle.automata.specs.Table.{size_of, Fits, moves_of};
ghost use Rattle.products.specs.Watch.{IsWatching};
ghost use Rattle.products.specs.Watching.{IsKeptOr};

use automata::Automaton;
use bes_io::Memory;
use diagrams::{Memo, Store};
use std::alloc::Global;

/// For each location of an automaton itself where it accepts, else the sink.
fn kept_or(alloc: Global, automaton: &Automaton, sink: u32) -> Result<Vec<u32>, Memory>
    ensures { IfOk result (λ table. IsKeptOr automaton.now sink table.items (size_of automaton.now)) }
{
    let mut table = Vec::new(alloc);
    for at in 0..automaton.size() {
        let item = if automaton.mark(at) == 1 { at } else { sink };
        table.push(item)?;
    }
    Ok(table)
}

/// The automaton whose mark after a word is `violated` where the automaton rejects some nonempty prefix of it, else 0.
pub fn watch(
    alloc: Global,
    store: &mut Store,
    automaton: &Automaton,
    violated: u32,
) -> Result<Automaton, Memory>
    requires { Fits store.old automaton.now }
    ensures keeps { Keeps store.old store.new }
    ensures fits { IfOk result (λ made. Fits store.new made) }
    ensures watching { IfOk result (λ made. IsWatching store.new.props (moves_of store.new automaton.now) (moves_of store.new made) violated) }
{
    prove!(store.props() <= 32);
    prove!(automaton.first() < automaton.size());
    let size = automaton.size();
    if size > 4294967292 {
        return Err(Memory);
    }
    let sink = size + 1;
    let table = kept_or(alloc, automaton, sink)?;
    let mut memo = Memo::new(alloc);
    let mut marks = Vec::new(alloc);
    let mut rows = Vec::new(alloc);
    for at in 0..size {
        marks.push(0)?;
        rows.push(store.map_terminals_with(&mut memo, automaton.row(at), &table)?)?;
    }
    marks.push(0)?;
    let begin = automaton.row(automaton.first());
    rows.push(store.map_terminals_with(&mut memo, begin, &table)?)?;
    marks.push(violated)?;
    rows.push(store.terminal(sink)?)?;
    Ok(Automaton::new(size, marks, rows))
}

/// The automaton of one location with the mark 0.
pub fn unwatched(alloc: Global, store: &mut Store) -> Result<Automaton, Memory>
    ensures keeps { Keeps store.old store.new }
    ensures fits { IfOk result (λ made. Fits store.new made) }
    ensures none { IfOk result (λ made. (w : Word) → mark_after (moves_of store.new made) made.first w ≡ 0) }
{
    prove!(store.props() <= 32);
    let marks = vec![in alloc; 0; 1]?;
    let row = store.terminal(0)?;
    let rows = vec![in alloc; row; 1]?;
    Ok(Automaton::new(0, marks, rows))
}
