//! The operators, position by position from the last one backwards.
ghost use Rattle.std.specs.Prelude.{◌≡◌};
ghost use Rattle.trace_meaning.specs.Operator as spec;

/// An operator of one operand.
#[derive(Clone, Copy)]
pub enum Unary {
    Not,
    Next,
    WeakNext,
    Eventually,
    Always,
}

/// An operator of two operands.
#[derive(Clone, Copy)]
pub enum Binary {
    And,
    Or,
    Implies,
    Iff,
    Until,
    Release,
}

impl Unary {
    /// The value at a position, `later` being what the next one hands on.
    #[inline(always)]
    pub fn now(self, x: bool, later: bool) -> bool
        ensures { result ≡ spec.unary_now self x later }
    {
        match self {
            Unary::Not => !x,
            Unary::Next => later,
            Unary::WeakNext => later,
            Unary::Eventually => x || later,
            Unary::Always => x && later,
        }
    }

    /// What a position hands on to the one before it.
    #[inline(always)]
    pub fn handed_on(self, x: bool, later: bool) -> bool
        ensures { result ≡ spec.unary_handed_on self x later }
    {
        match self {
            Unary::Not => !x,
            Unary::Next => x,
            Unary::WeakNext => x,
            Unary::Eventually => x || later,
            Unary::Always => x && later,
        }
    }

    /// The value at the end of the word, which is also what the end hands on.
    pub fn at_end(self, x: bool) -> bool
        ensures { result ≡ spec.unary_at_end self x }
    {
        match self {
            Unary::Not => !x,
            Unary::Next => false,
            Unary::WeakNext => true,
            Unary::Eventually => false,
            Unary::Always => true,
        }
    }
}

impl Binary {
    /// The value at a position, `later` being the value at the next one.
    #[inline(always)]
    pub fn now(self, x: bool, y: bool, later: bool) -> bool
        ensures { result ≡ spec.binary_now self x y later }
    {
        match self {
            Binary::And => x && y,
            Binary::Or => x || y,
            Binary::Implies => !x || y,
            Binary::Iff => x == y,
            Binary::Until => y || x && later,
            Binary::Release => y && (x || later),
        }
    }

    /// The value at the end of the word.
    pub fn at_end(self, x: bool, y: bool) -> bool
        ensures { result ≡ spec.binary_at_end self x y }
    {
        match self {
            Binary::And => x && y,
            Binary::Or => x || y,
            Binary::Implies => !x || y,
            Binary::Iff => x == y,
            Binary::Until => false,
            Binary::Release => true,
        }
    }
}
