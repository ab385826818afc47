//! Laws of least automata, each proved because the contract of a function here names it.
ghost use Rattle.minimise.specs.Minimal.{SizeIsClassCount, ClassCountIsOne, LeastIsUnique, LeastIsSmallest};

/// What holds of every least automaton: where marks are 0 and 1 its size is a class
/// count (Myhill 1957, Nerode 1958), which is one number, and
/// it is the smallest, and with its numbering the only one. The function does nothing when it runs.
pub fn laws_of_least_automata()
    ensures count { SizeIsClassCount }
    ensures one { ClassCountIsOne }
    ensures unique { LeastIsUnique }
    ensures smallest { LeastIsSmallest }
{}
