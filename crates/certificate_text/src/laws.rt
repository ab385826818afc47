//! Laws of asking, each proved because the contract of a function here names it.
ghost use Rattle.certificate_text.specs.AskingLaws.{EachIsAsked, SomeIsAsked, SomeEachIsAsked, EachSomeIsAsked, OneEachIsAsked, OneSomeIsAsked, CubeIsAsked, SomeFailsIsNotEach, WholeGivesEach, WholeIsExact, FieldIsLine, TestsAreOfRules};

/// What questions by levels mean, what whole lists give assignments, and what targets are asked for.
pub fn laws_of_asking()
    ensures each { EachIsAsked }
    ensures some { SomeIsAsked }
    ensures some_each { SomeEachIsAsked }
    ensures each_some { EachSomeIsAsked }
    ensures one_each { OneEachIsAsked }
    ensures one_some { OneSomeIsAsked }
    ensures cube { CubeIsAsked }
    ensures some_fails { SomeFailsIsNotEach }
    ensures whole { WholeGivesEach }
    ensures exact { WholeIsExact }
    ensures line { FieldIsLine }
    ensures tests { TestsAreOfRules }
{}
