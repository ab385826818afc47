//! Formulas and path programs, each with what it knows of the letters judged so far.
use crate::operator::{Binary, Unary};

/// Where a path leads from a position: `further`, to a later one that is a good end of it, and `stays`,
/// to the position itself.
#[derive(Clone, Copy)]
pub struct Lead {
    pub further: bool,
    pub stays: bool,
}

/// A formula, with what it must know of the letters that were judged so far.
#[cycle(node)]
#[derive(Drop)]
pub enum Node {
    Fixed(bool),
    /// The proposition of this bit of a letter.
    Atom(u32),
    /// With what the first of those letters hands on.
    Unary(Unary, Box<Node>, bool),
    /// With the value at the first of those letters.
    Binary(Binary, Box<Node>, Box<Node>, bool),
    /// With whether the operand holds at the first of those letters.
    Diamond(Box<Track>, Box<Node>, bool),
}

/// A path program with the same. The list of a step or a test has its values at the letters of a
/// block that a star around it has still to take turns over; else it is empty.
#[cycle(node)]
#[derive(Drop)]
pub enum Track {
    Step(Box<Node>, Vec<bool>),
    Test(Box<Node>, Vec<bool>),
    Choice(Box<Track>, Box<Track>),
    /// With where the second path leads from the first of those letters.
    Seq(Box<Track>, Box<Track>, Lead),
    /// With whether the star leads further from the first of those letters.
    Star(Box<Track>, bool),
}
