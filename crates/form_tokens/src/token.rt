//! The tokens of formulas.
/// An operator before one operand.
#[derive(Clone, Copy)]
pub enum Prefix {
    Not,
    Next,
    WeakNext,
    Eventually,
    Always,
}

/// An operator between two formulas.
#[derive(Clone, Copy)]
pub enum Infix {
    Iff,
    Implies,
    Or,
    And,
    Until,
    Release,
}

/// An operator between two paths.
#[derive(Clone, Copy)]
pub enum PathInfix {
    Choice,
    Seq,
}

/// The brackets around a path, `<` and `>` or `[` and `]`.
#[derive(Clone, Copy)]
pub enum Modality {
    Diamond,
    BoxAll,
}

/// A name by its number, or a constant word.
#[derive(Clone, Copy)]
pub enum Leaf {
    True,
    False,
    /// `last` of LTLf.
    Last,
    /// `last` of LDLf.
    LastStep,
    End,
    Name(u32),
}

/// A token of either dialect.
#[derive(Clone, Copy)]
pub enum Token {
    Open,
    Close,
    Prefix(Prefix),
    Infix(Infix),
    Leaf(Leaf),
    OpenModality(Modality),
    CloseModality(Modality),
    OpenBrace,
    CloseBrace,
    Question,
    Star,
    PathInfix(PathInfix),
    /// A word that is no name and has no place in a formula of the dialect.
    Reserved,
}
