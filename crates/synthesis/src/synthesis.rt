//! The strategy of a specification.
ghost use Rattle.std.specs.Prelude.{◌≡◌, ◌<◌, ◌≤◌, ◌*◌, ℕ, [], IfOk, OnOk, IfErr};
ghost use Rattle.std.specs.Option.{option_copied};
ghost use Rattle.diagrams.specs.Live.{Keeps};
ghost use Rattle.automata.specs.Table.{size_of, mark_of, Fits};
ghost use Rattle.game.specs.Board.{width};
ghost use Rattle.game.specs.Histories.{IsKeepable};
ghost use Rattle.game.specs.Same.{Claims, aims_with, Agree};
ghost use Rattle.legality.specs.Legal.{IsRightFault};
ghost use Rattle.arena.specs.Building.{FitsWhere, assumed_count, duty_count};
ghost use Rattle.printed_strategy.specs.Printed.{IsPrintedFor};
ghost use Rattle.strategy.specs.Plan.{plan_of};
ghost use Rattle.strategy.specs.Fits.{FitsStrategy};
ghost use Rattle.synthesis.specs.Claims.{claims_of};

use crate::solved::strategy_of;
use arena::build;
use automata::Automaton;
use diagrams::Store;
use forms::Partition;
use legality::ArenaFault;
use std::alloc::Global;
use strategy::Strategy;

/// The strategy of a specification, by automata of its goal, of what is assumed and of the duty, where there are such: of
/// each specification whose claims agree with what the automata accept on the words over its propositions.
///
/// There is none where the agent can violate what is assumed, whatever the environment does; the fault tells within how many
/// rounds.
pub fn synthesise(
    alloc: Global,
    store: &mut Store,
    goal: &Automaton,
    keep: Option<&Automaton>,
    duty: Option<&Automaton>,
    partition: Partition,
) -> Result<Strategy, ArenaFault>
    requires width { width partition ≡ store.old.props }
    requires goal { Fits store.old goal.now }
    requires keep { FitsWhere store.old (option_copied keep) }
    requires duty { FitsWhere store.old (option_copied duty) }
    requires marks { (at : ℕ) → at < size_of goal.now → mark_of goal.now at < 2 }
    ensures keeps { Keeps store.old store.new }
    ensures fits { IfOk result (λ made. FitsStrategy store.new made) }
    ensures partition { IfOk result (λ made. (plan_of store.new made).parts ≡ partition) }
    ensures printed { (d : Claims) → Agree (width partition) (claims_of store.old goal.now (option_copied keep.entry) (option_copied duty.entry)) d
        → IfOk result (λ made. IsPrintedFor (aims_with partition d) (plan_of store.new made)) }
    ensures few { IfOk result (λ made. (plan_of store.new made).size
        ≤ size_of goal.now * assumed_count (option_copied keep.entry) * duty_count (option_copied duty.entry)) }
    ensures kept { (d : Claims) → Agree (width partition) (claims_of store.old goal.now (option_copied keep.entry) (option_copied duty.entry)) d
        → OnOk result (IsKeepable (aims_with partition d) []) }
    ensures unkeepable { (d : Claims) → Agree (width partition) (claims_of store.old goal.now (option_copied keep.entry) (option_copied duty.entry)) d
        → IfErr result (λ fault. IsRightFault (aims_with partition d) fault) }
{
    match build(alloc, store, goal, keep, duty, partition) {
        Ok(arena) => Ok(strategy_of(alloc, store, arena)?),
        Err(fault) => Err(fault),
    }
}
