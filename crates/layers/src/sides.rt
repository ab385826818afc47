//! Which side takes the lesser number at which propositions.
ghost use Rattle.std.specs.Prelude.{◌≡◌};
ghost use Rattle.layers.specs.ArenaRows as rows;

use attractor::Sides;
use forms::{Mover, Partition};

/// The sides of the game in which the agent wants to meet the goal: the lesser number is taken at outputs.
pub fn agent_sides(partition: &Partition) -> Sides
    ensures { result ≡ rows.agent_sides partition.now }
{
    match partition.first {
        Mover::Agent => Sides {
            before: partition.outputs,
            lesser_before: true,
        },
        Mover::Environment => Sides {
            before: partition.inputs,
            lesser_before: false,
        },
    }
}

/// The sides of the game in which the environment wants to break the duty: the lesser number is taken at inputs.
pub fn environment_sides(partition: &Partition) -> Sides
    ensures { result ≡ rows.environment_sides partition.now }
{
    match partition.first {
        Mover::Agent => Sides {
            before: partition.outputs,
            lesser_before: false,
        },
        Mover::Environment => Sides {
            before: partition.inputs,
            lesser_before: true,
        },
    }
}
