//! The two languages of formulas.
/// The language of a formula.
#[derive(Clone, Copy, Debug, PartialEq, Eq)]
pub enum Dialect {
    /// Linear temporal logic on finite traces (De Giacomo and Vardi, 2013).
    Ltlf,
    /// Linear dynamic logic on finite traces (De Giacomo and Vardi, 2013).
    Ldlf,
}
