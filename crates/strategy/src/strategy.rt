//! A strategy as it is kept.
ghost use Rattle.std.specs.Prelude.{◌<◌, ◌-◌, ◌^◌, length};

use choosing::{Chosen, Mark};
use diagrams::Id;
use forms::Partition;
use indexmap::IndexSet;

/// A mark for each location, and for each that isn't a goal where letters lead, what is chosen for each decision, and what
/// the environment answers where the goal can't be forced. It belongs to the store in which it was merged.
#[derive(Drop)]
pub struct Strategy {
    pub(crate) partition: Partition,
    pub(crate) duty: bool,
    pub(crate) verdict: Option<u32>,
    pub(crate) marks: Vec<Mark>,
    pub(crate) rows: Vec<Id>,
    pub(crate) moves: Vec<Id>,
    pub(crate) choices: IndexSet<Option<Chosen>>,
    pub(crate) answers: Vec<Option<Id>>,
    ghost few: { length marks.items < 2 ^ 32 - 1 },
}
