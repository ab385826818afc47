//! What waits while a formula is read, and what was read last.
use crate::operand::Operand;
use form_tokens::{Infix, Modality, PathInfix, Prefix};
use forms::Path;

/// An open bracket.
#[derive(Clone, Copy)]
pub enum Bracket {
    Formula,
    Path,
    Brace,
    Modality(Modality),
}

/// An operator that waits for the formula after it.
#[derive(Drop)]
pub enum Operator {
    Before(Prefix),
    Behind(Modality, Path),
    Between(Infix, Operand),
}

/// What waits.
#[derive(Drop)]
pub enum Item {
    Bracket(Bracket),
    Operator(Operator),
    PathOperator(PathInfix, Path),
}

/// What was read after the latest item that waits.
#[derive(Drop)]
pub enum Latest {
    FormulaDue,
    Formula(Operand),
    PathDue,
    /// What a step or a test holds.
    Guard(Operand),
    /// A path that may take a star.
    Path(Path),
    Starred(Path),
}
