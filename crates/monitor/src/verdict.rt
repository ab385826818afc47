//! Verdicts.

/// What the letters so far say of a claim (Bauer, Leucker and Schallhart 2010; on finite traces De Giacomo, De Masellis,
/// Grasso, Maggi and Montali 2014).
#[derive(Debug, Clone, Copy, PartialEq, Eq)]
pub enum Verdict {
    /// The claim holds of the letters so far, and of them with every continuation.
    PermTrue,
    /// It holds neither of the letters so far nor of them with any continuation.
    PermFalse,
    /// It holds of the letters so far, and fails with some continuation.
    TempTrue,
    /// It fails of the letters so far, and holds with some continuation.
    TempFalse,
}
