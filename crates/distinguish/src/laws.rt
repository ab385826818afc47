//! Laws of distinguishing words, each proved because the contract of a function here names it.
ghost use Rattle.distinguish.specs.Telling.{TellingWordsAreFew, TellingListIsUnique};

/// What holds of every list of distinguishing words: there are fewer words than locations, and automata
/// with the same marks and moves have one list. The function does nothing when it runs.
pub fn laws_of_telling_words()
    ensures few { TellingWordsAreFew }
    ensures unique { TellingListIsUnique }
{}
