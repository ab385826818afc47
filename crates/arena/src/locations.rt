//! Arenas: the locations of live histories.
ghost use Rattle.std.specs.Prelude.{◌≡◌, ◌<◌, ◌≤◌, ◌+◌, ◌-◌, ◌^◌, ◌==◌, length, slice_index, true, false, IfOk};
ghost use Rattle.diagrams.specs.Eval.{eval, id_at};
ghost use Rattle.diagrams.specs.Kept.{AllKept};
ghost use Rattle.diagrams.specs.Live.{Keeps};
ghost use Rattle.diagrams.specs.Transformed.{IsTransformed, IsTableItem, same_id};
ghost use Rattle.automata.specs.Table.{size_of, mark_of, Fits, IsRow, moves_of};
ghost use Rattle.game.specs.Kinds.{IsLeftOf};
ghost use Rattle.arena.specs.Left.{is_goal_at, is_broken_at, locations_of, FitsArena, IsLeftRow};

use crate::numbers::numbers;
use automata::Automaton;
use bes_io::Memory;
use diagrams::{Id, Memo, Store};
use forms::Partition;
use std::alloc::Global;
use std::marker::Model;

/// The locations of live histories, numbered by their least histories. A row has as terminals locations, or `size` for an
/// illegal round; the row of a location that meets the goal leads to itself.
#[derive(Drop)]
pub struct Arena {
    partition: Partition,
    has_duty: bool,
    goals: Vec<bool>,
    broken: Vec<bool>,
    rows: Vec<Id>,
}

impl Model for Arena {
    ghost use Rattle.std.specs.Prelude.{◌≡◌, ◌≤◌, ◌^◌, ◌-◌, length};
    ghost use Rattle.arena.specs.Left.{ArenaTable};

    ghost Value = { ArenaTable };

    ghost view = { λ a. record { partition = a.partition; has_duty = a.has_duty; goals = a.goals.items; broken = a.broken.items; rows = a.rows.items } };

    ghost invariant = { λ a. (length a.goals.items ≡ length a.rows.items) × (length a.broken.items ≡ length a.rows.items) × (length a.rows.items ≤ 2 ^ 32 - 2) };
}

impl Arena {
    /// The partition that it was built for.
    pub fn partition(&self) -> &Partition
        ensures { result.now ≡ self.now.partition }
    {
        &self.partition
    }

    /// Whether there is a duty.
    pub fn has_duty(&self) -> bool
        ensures { result ≡ self.now.has_duty }
    {
        self.has_duty
    }

    /// The number of locations.
    pub fn size(&self) -> u32
        ensures size { result ≡ length self.now.rows }
        ensures few { result ≤ 2 ^ 32 - 2 }
    {
        self.rows.len() as u32
    }

    /// Whether the location's histories meet the goal.
    pub fn is_goal(&self, at: u32) -> bool
        requires { at < length self.now.rows }
        ensures { result ≡ is_goal_at self.now at }
    {
        self.goals[at as usize]
    }

    /// Whether the location's histories have broken the duty.
    pub fn is_broken(&self, at: u32) -> bool
        requires { at < length self.now.rows }
        ensures { result ≡ is_broken_at self.now at }
    {
        self.broken[at as usize]
    }

    /// The row of a location.
    pub fn row(&self, at: u32) -> Id
        requires { at < length self.now.rows }
        ensures { result ≡ id_at self.now.rows at }
    {
        self.rows[at as usize]
    }

    /// The rows of all locations.
    pub fn rows(&self) -> &[Id]
        ensures { result.now ≡ self.now.rows }
    {
        self.rows.as_slice()
    }

    /// Of each location whether its histories meet the goal.
    pub fn goals(&self) -> &[bool]
        ensures items { result.now ≡ self.now.goals }
        ensures size { length result.now ≡ length self.now.rows }
    {
        self.goals.as_slice()
    }

    /// Of each location whether its histories have broken the duty.
    pub fn broken(&self) -> &[bool]
        ensures items { result.now ≡ self.now.broken }
        ensures size { length result.now ≡ length self.now.rows }
    {
        self.broken.as_slice()
    }
}

/// The row of a location that is left, with what was found for other rows.
fn left_row(
    store: &mut Store,
    memo: &mut Memo<Id>,
    row: Id,
    table: &[u32],
    mark: u32,
    own: u32,
) -> Result<Id, Memory>
    requires row { IsRow store.old (length table.now) row }
    requires right { AllKept same_id (IsTransformed store.old (IsTableItem table.now)) memo.old }
    ensures keeps { Keeps store.old store.new }
    ensures right { AllKept same_id (IsTransformed store.new (IsTableItem table.now)) memo.new }
    ensures row { IfOk result (λ id. IsLeftRow store.old store.new table.now row mark own id) }
{
    if mark == 1 {
        return store.terminal(own);
    }
    store.map_terminals_with(memo, row, table)
}

/// The arena of the locations with a mark below 3.
pub(crate) fn left_of(
    alloc: Global,
    store: &mut Store,
    partition: Partition,
    has_duty: bool,
    automaton: &Automaton,
) -> Result<Arena, Memory>
    requires fits { Fits store.old automaton.now }
    requires first { automaton.now.first ≡ 0 }
    requires live { mark_of automaton.now 0 < 3 }
    ensures keeps { Keeps store.old store.new }
    ensures fits { IfOk result (λ arena. FitsArena store.new arena) }
    ensures partition { IfOk result (λ arena. arena.partition ≡ partition) }
    ensures duty { IfOk result (λ arena. arena.has_duty ≡ has_duty) }
    ensures left { IfOk result (λ arena. IsLeftOf store.new.props (moves_of store.new automaton.now) (locations_of store.new arena)) }
{
    prove!(store.props() <= 32);
    prove!(automaton.first() < automaton.size());
    let table = numbers(alloc, automaton)?;
    let mut memo = Memo::new(alloc);
    let mut goals = Vec::new(alloc);
    let mut broken = Vec::new(alloc);
    let mut rows = Vec::new(alloc);
    for at in 0..automaton.size() {
        let mark = automaton.mark(at);
        if mark < 3 {
            let own = rows.len() as u32;
            goals.push(mark == 1)?;
            broken.push(mark == 2)?;
            let row = automaton.row(at);
            rows.push(left_row(store, &mut memo, row, &table, mark, own)?)?;
        }
    }
    Ok(Arena {
        partition,
        has_duty,
        goals,
        broken,
        rows,
    })
}
