//! Who moves first in a game, and how many propositions each player has.

/// The player that moves first in each round.
#[derive(Clone, Copy, PartialEq, Eq)]
pub enum Mover {
    /// The agent shows its output, and then the environment answers with an input.
    Agent,
    /// The environment shows its input, and then the agent answers with an output.
    Environment,
}

/// The propositions of a game, split into the environment's inputs and the agent's outputs (De Giacomo and Vardi 2015).
/// The propositions of the first mover have the lower numbers.
#[derive(Clone, Copy, PartialEq, Eq)]
pub struct Partition {
    /// Who moves first.
    pub first: Mover,
    /// How many propositions are inputs.
    pub inputs: u32,
    /// How many propositions are outputs.
    pub outputs: u32,
}
