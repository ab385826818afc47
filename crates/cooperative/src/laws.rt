//! The law of hope, proved because the contract of the function here names it.
ghost use Rattle.cooperative.specs.Hoped.{HopeIsPossibility};

/// What can be hoped for is met by some legal continuation, from each legal history, also from one that went past a goal. Where
/// there is no hope no legal continuation meets the goal; where one does, and it is decided which decisions on the way can be
/// won, there is hope. The function does nothing when it runs.
pub fn laws_of_hope()
    ensures { HopeIsPossibility }
{}
