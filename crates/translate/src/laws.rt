//! Laws of the first part over a limit, each proved because the contract of a function here names it.
ghost use Rattle.translate.specs.Counting.{FirstOverIsOne, FirstOverIsNotWithin};

/// At most one part, the whole coming last, is the first over a limit, and where one is, the counts are not all within
/// it: so `translate` refuses no other part, and gives no automaton there. The function does nothing when it runs.
pub fn laws_of_counts()
    ensures one { FirstOverIsOne }
    ensures not_within { FirstOverIsNotWithin }
{}
