//! Why there is no arena.
ghost use Rattle.std.specs.Prelude.{◌≡◌};
ghost use Rattle.legality.specs.declared.fault.ArenaFault.TheVariants as fault;

use bes_io::Memory;

/// Why there is no arena.
#[derive(Debug, Drop)]
pub enum ArenaFault {
    /// The agent can violate what is assumed within this many rounds, and no fewer.
    Unkeepable { rounds: u32 },
    /// Memory is out.
    Memory,
}

impl From<Memory> for ArenaFault {
    ghost from_gives = { λ _ e. e ≡ fault.Memory };

    fn from(_e: Memory) -> ArenaFault {
        ArenaFault::Memory
    }
}
