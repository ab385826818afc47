//! Laws of the lines of an input, each proved because the contract of a function here names it.
ghost use Rattle.bes_io.specs.LineLaws.{InOneWay, EachHasLines, AsStrLines, CauseOfLineTooLong, CauseOfInputTooLong, EndsWithinMost, StopsPastMost};

/// An input has one reading: its lines, and why they stop; and which byte is one too many of a line or of an input.
pub fn laws_of_lines()
    ensures one_way { InOneWay }
    ensures some { EachHasLines }
    ensures str_lines { AsStrLines }
    ensures line_too_long { CauseOfLineTooLong }
    ensures input_too_long { CauseOfInputTooLong }
    ensures within { EndsWithinMost }
    ensures past { StopsPastMost }
{}
