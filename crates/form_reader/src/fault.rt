//! Why a text gives no formula.
/// Why a text gives no formula, and at which byte, counted from 1.
#[derive(Clone, Copy, Debug, PartialEq, Eq)]
pub enum FormFault {
    /// No token of the dialect begins at this byte, or it is the 65th byte of a run of word bytes.
    BadByte { at: u64 },
    /// This token isn't admitted after those before it.
    Unexpected { at: u64 },
    /// The text ends, and its tokens are no formula.
    Unfinished,
    /// With this token 301 items wait: open brackets, and operators without their last operand.
    TooDeep { at: u64 },
    /// This is token 2,001.
    TooManyTokens { at: u64 },
    /// This name isn't in the table, which isn't closed and has 32 names.
    TooManyNames { at: u64 },
    /// This name isn't in the table, which is closed.
    Undeclared { at: u64 },
    /// No memory was found. No contract says when.
    Memory,
}
