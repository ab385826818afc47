//! The strategy of a specification in formulas.
ghost use Rattle.std.specs.Prelude.{◌≡◌, [], IfOk, OnOk, IfErr};
ghost use Rattle.std.specs.Option.{option_copied};
ghost use Rattle.diagrams.specs.Live.{Keeps};
ghost use Rattle.game.specs.Board.{width};
ghost use Rattle.game.specs.Histories.{IsKeepable};
ghost use Rattle.printed_strategy.specs.Printed.{IsPrintedFor};
ghost use Rattle.strategy.specs.Plan.{plan_of};
ghost use Rattle.strategy.specs.Fits.{FitsStrategy};
ghost use Rattle.synthesis.specs.Formulas.{asked, aims_by, AreProper, AreWithin, HasCause, HasFewLocations};

use crate::fault::{SynthesisFault, fault_of};
use crate::synthesis::synthesise;
use crate::translations::{Formulas, automata_of};
use automata::Automaton;
use diagrams::Store;
use forms::Partition;
use std::alloc::Global;
use strategy::Strategy;

/// A reference to the automaton, where there is one.
fn reference(automaton: &Option<Automaton>) -> Option<&Automaton>
    ensures { option_copied result ≡ automaton.now }
{
    match automaton {
        Some(automaton) => Some(automaton),
        None => None,
    }
}

/// The strategy of a specification, in a store of its propositions: what is assumed, the goal and the duty are translated in
/// this order, each within the limit, and the game is built and solved. It is the printed strategy of the formulas, whatever
/// they are; where there is none, the fault tells why.
pub fn synthesise_formulas(
    alloc: Global,
    store: &mut Store,
    partition: Partition,
    formulas: &Formulas<'_>,
    limit: u32,
) -> Result<Strategy, SynthesisFault>
    requires width { width partition ≡ store.old.props }
    requires proper { AreProper store.old.props (asked formulas.now) }
    ensures keeps { Keeps store.old store.new }
    ensures fits { IfOk result (λ made. FitsStrategy store.new made) }
    ensures partition { IfOk result (λ made. (plan_of store.new made).parts ≡ partition) }
    ensures printed { IfOk result (λ made. IsPrintedFor (aims_by partition (asked formulas.now)) (plan_of store.new made)) }
    ensures few { IfOk result (λ made. HasFewLocations (width partition) (asked formulas.now) (plan_of store.new made).size) }
    ensures kept { OnOk result (IsKeepable (aims_by partition (asked formulas.now)) []) }
    ensures within { OnOk result (AreWithin (width partition) limit (asked formulas.now)) }
    ensures cause { IfErr result (λ fault. HasCause limit partition (asked formulas.now) fault) }
{
    let made = automata_of(alloc, store, formulas, limit)?;
    let keep = reference(&made.keep);
    let duty = reference(&made.duty);
    match synthesise(alloc, store, &made.goal, keep, duty, partition) {
        Ok(strategy) => Ok(strategy),
        Err(fault) => Err(fault_of(fault)),
    }
}
