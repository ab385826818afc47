//! Why there is no automaton.
ghost use Rattle.std.specs.Prelude.{◌≡◌};
ghost use Rattle.translate.specs.declared.fault.TranslateFault.TheVariants as fault;

use bes_io::Memory;

/// Why there is no automaton.
#[derive(Clone, Copy, Debug, PartialEq, Eq)]
pub enum TranslateFault {
    /// The first part, counted from 1 and the whole coming last, that has more classes than the limit, and how many.
    TooMany { part: u64, count: u32 },
    /// Memory is out.
    Memory,
}

impl From<Memory> for TranslateFault {
    ghost from_gives = { λ _ e. e ≡ fault.Memory };

    fn from(_e: Memory) -> TranslateFault {
        TranslateFault::Memory
    }
}
