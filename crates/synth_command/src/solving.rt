//! The game of a specification, solved.
ghost use Rattle.std.specs.Prelude.{◌≡◌, [], length, IfOk, OnOk, IfErr};
ghost use Rattle.game.specs.Board.{width};
ghost use Rattle.game.specs.Histories.{IsKeepable};
ghost use Rattle.printed_strategy.specs.Printed.{IsPrintedFor};
ghost use Rattle.spec_reader.specs.Specification.{plain};
ghost use Rattle.spec_reader.specs.Answer.{AreProper};
ghost use Rattle.strategy.specs.Plan.{plan_of};
ghost use Rattle.strategy.specs.Fits.{FitsStrategy};
ghost use Rattle.synthesis.specs.Formulas.{HasFewLocations};
ghost use Rattle.synth_command.specs.Synthesis.{concern_of, fault_ending, asked_of, aims_of, IsWithinLimit, EndsUnsolved};

use command_endings::{Concern, Ending, Refusal};
use diagrams::Store;
use spec_reader::Spec;
use std::alloc::Global;
use strategy::Strategy;
use synthesis::{Formulas, Role, SynthesisFault, synthesise_formulas};

/// The strategy of a specification, and the store to which it belongs.
#[derive(Drop)]
pub struct Solved {
    pub store: Store,
    pub strategy: Strategy,
}

/// The formula of a role, as messages name it.
fn concern_of(role: Role) -> Concern
    ensures { result ≡ concern_of role }
{
    match role {
        Role::Assumption => Concern::Assume,
        Role::Goal => Concern::Goal,
        Role::Duty => Concern::Duty,
    }
}

/// How a run ends where a specification with this limit has no strategy, or memory is out.
fn fault_ending(limit: u32, fault: SynthesisFault) -> Ending
    ensures { result ≡ fault_ending limit fault }
{
    match fault {
        SynthesisFault::TooMany { role, part, count } => Ending::Refused(Refusal::TooMany {
            concern: concern_of(role),
            part,
            count,
            limit,
        }),
        SynthesisFault::Unkeepable { rounds } => Ending::Refused(Refusal::Breakable {
            rounds: u64::from(rounds),
        }),
        SynthesisFault::Memory => Ending::NoMemory,
    }
}

/// The strategy of a specification, or how the run ends without one.
pub fn solve_specification(alloc: Global, spec: &Spec) -> Result<Solved, Ending>
    requires proper { AreProper (plain spec.now) }
    requires named { width (plain spec.now).partition ≡ length (plain spec.now).names }
    ensures fits { IfOk result (λ made. FitsStrategy made.store made.strategy) }
    ensures partition { IfOk result (λ made. (plan_of made.store made.strategy).parts ≡ (plain spec.now).partition) }
    ensures printed { IfOk result (λ made. IsPrintedFor (aims_of (plain spec.now)) (plan_of made.store made.strategy)) }
    ensures within { OnOk result (IsWithinLimit (plain spec.now)) }
    ensures few { IfOk result (λ made. HasFewLocations (width (plain spec.now).partition) (asked_of (plain spec.now)) (plan_of made.store made.strategy).size) }
    ensures kept { OnOk result (IsKeepable (aims_of (plain spec.now)) []) }
    ensures ending { IfErr result (λ ending. EndsUnsolved (plain spec.now) ending) }
{
    let Ok(mut store) = Store::new(alloc, spec.names.len()) else {
        return Err(Ending::NoMemory);
    };
    let formulas = Formulas {
        assume: &spec.assume,
        goal: &spec.goal,
        empty: spec.empty,
        duty: &spec.duty,
    };
    match synthesise_formulas(alloc, &mut store, spec.partition, &formulas, spec.limit) {
        Ok(strategy) => Ok(Solved { store, strategy }),
        Err(fault) => Err(fault_ending(spec.limit, fault)),
    }
}
