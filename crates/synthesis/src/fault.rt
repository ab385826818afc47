//! Why a specification has no strategy.
ghost use Rattle.std.specs.Prelude.{◌≡◌};
ghost use Rattle.synthesis.specs.Formulas.{fault_at, fault_of};

use legality::ArenaFault;
use translate::TranslateFault;

/// A formula of a specification, in the order in which limits are tried.
#[derive(Clone, Copy, Debug, PartialEq, Eq)]
pub enum Role {
    /// What is assumed.
    Assumption,
    /// The goal.
    Goal,
    /// The duty.
    Duty,
}

/// Why a specification has no strategy.
#[derive(Clone, Copy, Debug, PartialEq, Eq)]
pub enum SynthesisFault {
    /// This formula is the first with a part over the limit, and the part is its first, counted from 1 and the whole after the
    /// last; it has so many classes of equivalent words.
    TooMany { role: Role, part: u64, count: u32 },
    /// The agent can violate what is assumed within this many rounds, whatever the environment does, and within no fewer.
    Unkeepable { rounds: u32 },
    /// Memory is out.
    Memory,
}

/// The fault of a formula that has no automaton within the limit.
pub(crate) fn fault_at(role: Role, fault: TranslateFault) -> SynthesisFault
    ensures { result ≡ fault_at role fault }
{
    match fault {
        TranslateFault::TooMany { part, count } => SynthesisFault::TooMany { role, part, count },
        TranslateFault::Memory => SynthesisFault::Memory,
    }
}

/// The fault of automata without an arena.
pub(crate) fn fault_of(fault: ArenaFault) -> SynthesisFault
    ensures { result ≡ fault_of fault }
{
    match fault {
        ArenaFault::Unkeepable { rounds } => SynthesisFault::Unkeepable { rounds },
        ArenaFault::Memory => SynthesisFault::Memory,
    }
}
