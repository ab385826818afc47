//! Specifications, and why a text is none.
use bes_io::Memory;
use form_reader::FormFault;
use form_tokens::{Dialect, Names};
use forms::{Form, Partition};
use std::alloc::AllocFailed;

/// A specification (De Giacomo and Vardi 2015; with an assumption on the environment, Aminof, De Giacomo and Rubin 2021).
#[derive(Drop)]
pub struct Spec {
    /// The names of the propositions, those of the first mover first. The table is closed.
    pub names: Names,
    /// Who moves first, and how many propositions each player has.
    pub partition: Partition,
    /// The dialect of every formula.
    pub dialect: Dialect,
    /// What every nonempty prefix is taken to satisfy.
    pub assume: Option<Form>,
    /// What the agent wants to meet.
    pub goal: Form,
    /// How many locations an automaton may have, from 1 to 4,096.
    pub limit: u32,
    /// Whether the empty history may meet the goal.
    pub empty: bool,
    /// What every nonempty prefix has to satisfy.
    pub duty: Option<Form>,
}

/// A key that may not be missing.
#[derive(Clone, Copy, Debug, PartialEq, Eq)]
pub enum Key {
    Inputs,
    Outputs,
    First,
    Goal,
}

/// Why a text is no specification file. Lines are counted from 1, those passed over too.
#[derive(Clone, Copy, Debug, PartialEq, Eq)]
pub enum SpecFault {
    /// It has more than 65,536 bytes.
    TooLong,
    /// No line may have this key in a file of its version.
    UnknownKey { line: u64 },
    /// A line before has this key, which one line may have.
    Repeated { line: u64 },
    /// A word of the line is no name: no word of at most 64 bytes, or reserved.
    BadName { line: u64 },
    /// A name of the line was given on this or an earlier line.
    NameTwice { line: u64 },
    /// A name of the line is the 33rd of both lines together.
    TooManyNames { line: u64 },
    /// The value is none that the key may have.
    BadValue { line: u64 },
    /// No line has this key.
    Missing { key: Key },
    /// The line's formula is refused, at a place that counts from the line's first byte.
    Form { line: u64, fault: FormFault },
    /// It is the 65th line with a formula under this key.
    TooManyLines { line: u64 },
    /// No memory was found. No contract says when.
    Memory,
}

impl From<Memory> for SpecFault {
    ghost use Rattle.std.specs.Prelude.{◌≡◌};
    ghost use Rattle.spec_reader.specs.declared.spec.SpecFault.TheVariants as faults;

    ghost from_gives = { λ _ e. e ≡ faults.Memory };

    fn from(_: Memory) -> SpecFault {
        SpecFault::Memory
    }
}

impl<T: Drop> From<AllocFailed<T>> for SpecFault {
    ghost use Rattle.std.specs.Prelude.{◌≡◌};
    ghost use Rattle.spec_reader.specs.declared.spec.SpecFault.TheVariants as faults;

    ghost from_gives = { λ _ e. e ≡ faults.Memory };

    fn from(_: AllocFailed<T>) -> SpecFault {
        SpecFault::Memory
    }
}
