//! Laws of the definitions, each proved because the contract of a function here names it.
ghost use Rattle.forms.specs.SatisfactionLaws.{TrueHolds, FalseHolds, AtomHolds, NotHolds, AndHolds, OrHolds, ImpliesHolds, IffHolds, NextHolds, WeakNextHolds, UntilHolds, ReleaseHolds, EventuallyHolds, AlwaysHolds, MeetsHolds};
ghost use Rattle.forms.specs.PathLaws.{DiamondHolds, BoxHolds, StepGoes, TestGoes, ChoiceGoes, SeqGoes, StarGoes, GoesToSuffixes, StarIsClosure};
ghost use Rattle.forms.specs.Normal.{NormalHolds, NegatedHolds, NormalGoes, NormalIsNormal};
ghost use Rattle.forms.specs.Shortlex.{ShorterComesFirst, LesserLetterComesFirst, NeverBeforeItself, BeforeIsTransitive, OneComesFirst};

/// The table of satisfaction, form by form (De Giacomo and Vardi 2013; the empty word is our own).
pub fn laws_of_satisfaction()
    ensures constant_true { TrueHolds }
    ensures constant_false { FalseHolds }
    ensures atom { AtomHolds }
    ensures not { NotHolds }
    ensures and { AndHolds }
    ensures or { OrHolds }
    ensures implies { ImpliesHolds }
    ensures iff { IffHolds }
    ensures next { NextHolds }
    ensures weak_next { WeakNextHolds }
    ensures until { UntilHolds }
    ensures release { ReleaseHolds }
    ensures eventually { EventuallyHolds }
    ensures always { AlwaysHolds }
    ensures diamond { DiamondHolds }
    ensures box_all { BoxHolds }
    ensures meets { MeetsHolds }
{}

/// The path relation, path program by path program.
pub fn laws_of_paths()
    ensures step { StepGoes }
    ensures test { TestGoes }
    ensures choice { ChoiceGoes }
    ensures seq { SeqGoes }
    ensures star { StarGoes }
    ensures star_is_closure { StarIsClosure }
    ensures suffixes_alone { GoesToSuffixes }
{}

/// Shortlex order is the strict total order by length and then by the letters from the front.
pub fn laws_of_shortlex()
    ensures shorter { ShorterComesFirst }
    ensures lesser_letter { LesserLetterComesFirst }
    ensures never_itself { NeverBeforeItself }
    ensures transitive { BeforeIsTransitive }
    ensures total { OneComesFirst }
{}

/// Negation normal form keeps what a formula says of each word, the empty one included, and where a path leads.
pub fn laws_of_normal_form()
    ensures holds { NormalHolds }
    ensures negated { NegatedHolds }
    ensures goes { NormalGoes }
    ensures shape { NormalIsNormal }
{}
