//! Building an arena.
ghost use Rattle.std.specs.Prelude.{◌≡◌, ◌<◌, ◌+◌, ◌*◌, ◌≤◌, ◌^◌, ◌-◌, ℕ, length, [], Some, IfOk, OnOk, IfErr};
ghost use Rattle.std.specs.Option.{option_copied};
ghost use Rattle.diagrams.specs.Eval.{Diagrams};
ghost use Rattle.diagrams.specs.Live.{Keeps};
ghost use Rattle.automata.specs.Table.{size_of, mark_of, Fits, moves_of};
ghost use Rattle.game.specs.Board.{width};
ghost use Rattle.game.specs.Histories.{Aims, IsKeepable, is_given};
ghost use Rattle.game.specs.Arena.{IsArenaOf};
ghost use Rattle.legality.specs.Violation.{TellsViolated};
ghost use Rattle.game.specs.Kinds.{TellsKinds};
ghost use Rattle.layers.specs.Ranked.{IsPlayableArena, GoesByInput};
ghost use Rattle.arena.specs.Left.{locations_of, FitsArena};
ghost use Rattle.legality.specs.Legal.{claim_of, keeping, TellsLegal, IsRightFault, ArePlayable};
ghost use Rattle.arena.specs.Building.{claim_where, FitsWhere, BeginsWhere, assumed_count, duty_count, aims_of, TellsGoal, GoesOnLegally, EachHistoryGoesOn};

use crate::locations::{Arena, left_of};
use automata::Automaton;
use bes_io::Memory;
use diagrams::Store;
use forms::Partition;
use legality::{ArenaFault, legal_histories};
use minimise::minimise;
use products::{ended, join, unwatched, watch};
use std::alloc::Global;

/// The automaton of legal histories.
fn legal_part(
    alloc: Global,
    store: &mut Store,
    keep: Option<&Automaton>,
    partition: &Partition,
) -> Result<Automaton, ArenaFault>
    requires width { width partition.now ≡ store.old.props }
    requires fits { FitsWhere store.old (option_copied keep) }
    ensures keeps { Keeps store.old store.new }
    ensures fits { IfOk result (λ made. Fits store.new made) }
    ensures legal { IfOk result (λ made. TellsLegal (keeping partition.now (claim_where store.old (option_copied keep.entry))) (moves_of store.new made)) }
    ensures kept { OnOk result (IsKeepable (keeping partition.now (claim_where store.old (option_copied keep.entry))) []) }
    ensures playable { OnOk result (ArePlayable partition.now (claim_where store.old (option_copied keep.entry))) }
    ensures unkeepable { IfErr result (λ fault. IsRightFault (keeping partition.now (claim_where store.old (option_copied keep.entry))) fault) }
{
    match keep {
        Some(keep) => legal_histories(alloc, store, partition, keep),
        None => Ok(unwatched(alloc, store)?),
    }
}

/// The automaton that watches a duty.
fn watched_duty(alloc: Global, store: &mut Store, duty: &Automaton) -> Result<Automaton, Memory>
    requires { Fits store.old duty.now }
    ensures keeps { Keeps store.old store.new }
    ensures fits { IfOk result (λ made. Fits store.new made) }
    ensures duty { IfOk result (λ made. (s : Diagrams) → Keeps s store.old → Fits s duty.now
        → TellsViolated s.props (moves_of store.new made) 2 (Some (claim_of s duty.now))) }
{
    prove!(duty.first() < duty.size());
    watch(alloc, store, duty, 2)
}

/// The automaton that watches the duty, where there is one. Its claim is that of the store as it was at any time before.
fn duty_part(
    alloc: Global,
    store: &mut Store,
    duty: Option<&Automaton>,
) -> Result<Automaton, Memory>
    requires { FitsWhere store.old (option_copied duty) }
    ensures keeps { Keeps store.old store.new }
    ensures fits { IfOk result (λ made. Fits store.new made) }
    ensures duty { IfOk result (λ made. (s : Diagrams) → Keeps s store.old → FitsWhere s (option_copied duty.entry)
        → TellsViolated s.props (moves_of store.new made) 2 (claim_where s (option_copied duty.entry))) }
{
    match duty {
        Some(duty) => watched_duty(alloc, store, duty),
        None => unwatched(alloc, store),
    }
}

/// The automaton that tells the kind of each history, of those that tell which are legal, where the duty is violated and where
/// the goal's claim holds.
fn kinds_of(
    alloc: Global,
    store: &mut Store,
    legal: &Automaton,
    duty: &Automaton,
    goal: &Automaton,
) -> Result<Automaton, Memory>
    requires legal { Fits store.old legal.now }
    requires duty { Fits store.old duty.now }
    requires goal { Fits store.old goal.now }
    ensures keeps { Keeps store.old store.new }
    ensures fits { IfOk result (λ made. Fits store.new made) }
    ensures kinds { IfOk result (λ made. (s : Aims) → width s.parts ≡ store.old.props → TellsLegal s (moves_of store.old legal.now)
        → TellsViolated store.old.props (moves_of store.old duty.now) 2 s.duty → TellsGoal s (moves_of store.old goal.now) → TellsKinds s (moves_of store.new made)) }
{
    prove!(legal.first() < legal.size());
    prove!(duty.first() < duty.size());
    prove!(goal.first() < goal.size());
    let both = join(alloc, store, legal, duty)?;
    let all = join(alloc, store, &both, goal)?;
    ended(alloc, store, &all)
}

/// What is known of an automaton, said of one that may be there.
fn known(automaton: Option<&Automaton>)
    ensures { BeginsWhere (option_copied automaton.entry) }
{
    if let Some(automaton) = automaton {
        prove!(automaton.first() < automaton.size());
    }
}

/// The arena of the live histories: those of legal rounds, by what is assumed, before and at the goal, which a history that
/// has broken the duty never meets.
pub fn build(
    alloc: Global,
    store: &mut Store,
    goal: &Automaton,
    keep: Option<&Automaton>,
    duty: Option<&Automaton>,
    partition: Partition,
) -> Result<Arena, ArenaFault>
    requires width { width partition ≡ store.old.props }
    requires goal { Fits store.old goal.now }
    requires keep { FitsWhere store.old (option_copied keep) }
    requires duty { FitsWhere store.old (option_copied duty) }
    requires marks { (at : ℕ) → at < size_of goal.now → mark_of goal.now at < 2 }
    ensures keeps { Keeps store.old store.new }
    ensures fits { IfOk result (λ arena. FitsArena store.new arena) }
    ensures partition { IfOk result (λ arena. arena.partition ≡ partition) }
    ensures duty { IfOk result (λ arena. arena.has_duty ≡ is_given (claim_where store.old (option_copied duty.entry))) }
    ensures playable { IfOk result (λ arena.
        IsPlayableArena partition (is_given (claim_where store.old (option_copied duty.entry))) (locations_of store.new arena)) }
    ensures even { IfOk result (λ arena. GoesByInput partition (locations_of store.new arena)) }
    ensures rounds { OnOk result (GoesOnLegally (aims_of store.old partition goal.now (option_copied keep.entry) (option_copied duty.entry))) }
    ensures goes_on { OnOk result (EachHistoryGoesOn (aims_of store.old partition goal.now (option_copied keep.entry) (option_copied duty.entry))) }
    ensures arena { IfOk result (λ arena.
        IsArenaOf (aims_of store.old partition goal.now (option_copied keep.entry) (option_copied duty.entry)) (locations_of store.new arena)) }
    ensures few { IfOk result (λ arena.
        length arena.rows ≤ size_of goal.now * assumed_count (option_copied keep.entry) * duty_count (option_copied duty.entry)) }
    ensures kept { OnOk result (IsKeepable (aims_of store.old partition goal.now (option_copied keep.entry) (option_copied duty.entry)) []) }
    ensures unkeepable { IfErr result (λ fault.
        IsRightFault (aims_of store.old partition goal.now (option_copied keep.entry) (option_copied duty.entry)) fault) }
{
    prove!(goal.first() < goal.size());
    known(keep);
    known(duty);
    let legal = legal_part(alloc, store, keep, &partition)?;
    let watched = duty_part(alloc, store, duty)?;
    prove!(legal.first() < legal.size());
    prove!(watched.first() < watched.size());
    let kinds = kinds_of(alloc, store, &legal, &watched, goal)?;
    let least = minimise(alloc, store, kinds)?;
    Ok(left_of(alloc, store, partition, duty.is_some(), &least)?)
}
