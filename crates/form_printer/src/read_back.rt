//! Laws of the definitions, each proved because the contract of a function here names it.
ghost use Rattle.form_printer.specs.ReadBack.{PrintedReadsBack, NamesAreNumbered};

/// Reading is left inverse to printing, within the limits of the reader.
pub fn laws_of_printing()
    ensures printed { PrintedReadsBack }
    ensures numbered { NamesAreNumbered }
{}
