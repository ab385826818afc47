//! An automaton with its formula.
use crate::automaton::Automaton;
use forms::Form;

/// An automaton and a formula that it stands for. Contracts say by `IsMeant` that the automaton fits the store and
/// accepts a word over the store's propositions, the empty one included, exactly where the formula holds at its front.
/// Where the formula is proper the same holds of every list of numbers, by the lemma `IsMeant-everywhere`: neither the
/// rows nor the formula look past the propositions.
#[derive(Drop)]
pub struct Meant {
    pub automaton: Automaton,
    pub form: Form,
}
