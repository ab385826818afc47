//! Laws of printed strategies, each proved because the contract of a function here names it.
ghost use Rattle.printed_strategy.specs.PrintedLaws.{PrintedKeeps, FollowingIsPromised, PrintedIsOnly, TextIsOne, ComputedIsPrinted, NamesOfAgentFirst, NamesOfEnvironmentFirst};

/// What the printed strategy of a specification keeps, that there is one, and how it comes of numbers on an arena.
pub fn laws_of_printed_strategies()
    ensures keeps { PrintedKeeps }
    ensures follows { FollowingIsPromised }
    ensures only { PrintedIsOnly }
    ensures one_text { TextIsOne }
    ensures computed { ComputedIsPrinted }
    ensures agent_first { NamesOfAgentFirst }
    ensures environment_first { NamesOfEnvironmentFirst }
{}
