//! Laws of partition refinement, each proved because the contract of a function here names it.
ghost use Rattle.class_laws.specs.Laws.{MarksDivide, RowsDivide, UnchangedAreClasses, ClassesAreStable, PaidAreFew};

/// What holds of blocks that are split by marks and then by rows (Moore 1956), and of moves into a block of at most
/// half the size (Hopcroft 1971). The function does nothing when it runs.
pub fn laws_of_classes()
    ensures marks { MarksDivide }
    ensures rows { RowsDivide }
    ensures unchanged { UnchangedAreClasses }
    ensures stable { ClassesAreStable }
    ensures few { PaidAreFew }
{}
