/// A formula of LTLf or LDLf over finite traces (De Giacomo and Vardi 2013).
#[cycle(form)]
#[derive(Drop)]
pub enum Form {
    True,
    False,
    /// The proposition of this number, counted from 0.
    Atom(u32),
    Not(Box<Form>),
    And(Box<Form>, Box<Form>),
    Or(Box<Form>, Box<Form>),
    Implies(Box<Form>, Box<Form>),
    Iff(Box<Form>, Box<Form>),
    /// `X f`: there is a next position, and `f` holds there.
    Next(Box<Form>),
    /// `N f`: `f` holds at the next position, if there is one.
    WeakNext(Box<Form>),
    /// `f U g`: `g` holds at some position from here on, and `f` at each one before it.
    Until(Box<Form>, Box<Form>),
    /// `f R g`, the dual of until.
    Release(Box<Form>, Box<Form>),
    /// `F f`: `f` holds at some position from here on.
    Eventually(Box<Form>),
    /// `G f`: `f` holds at each position from here on.
    Always(Box<Form>),
    /// `<p> f`: `f` holds where some way through the path ends.
    Diamond(Box<Path>, Box<Form>),
    /// `[p] f`: `f` holds where each way through the path ends.
    BoxAll(Box<Path>, Box<Form>),
}

/// A path program: a regular expression over steps and tests.
#[cycle(form)]
#[derive(Drop)]
pub enum Path {
    /// Reads one letter, before which the formula holds. In a proper form the formula has atoms and
    /// connectives alone.
    Step(Box<Form>),
    /// `f?`: stays where it is, where the formula holds.
    Test(Box<Form>),
    /// `p + q`: one of the two.
    Choice(Box<Path>, Box<Path>),
    /// `p ; q`: the first, and then the second.
    Seq(Box<Path>, Box<Path>),
    /// `p*`: any number of turns, none included.
    Star(Box<Path>),
}
