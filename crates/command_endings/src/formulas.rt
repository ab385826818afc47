//! The formula of a command line.
ghost use Rattle.std.specs.Prelude.{◌≡◌, IfOk, IfErr, length};
ghost use Rattle.forms.specs.Tree.{tree};
ghost use Rattle.forms.specs.Proper.{IsProper};
ghost use Rattle.command_endings.specs.Formulas.{IsFormula, names_of, fault_ending, EndsAtFormula};

use crate::endings::{Ending, Refusal};
use form_reader::{FormFault, read_form};
use form_tokens::{Dialect, Names};
use forms::Form;
use std::alloc::Global;

/// How a run ends where its formula can't be read.
fn formula_ending(fault: FormFault) -> Ending
    ensures { result ≡ fault_ending fault }
{
    match fault {
        FormFault::Memory => Ending::NoMemory,
        FormFault::BadByte { .. }
        | FormFault::Unexpected { .. }
        | FormFault::Unfinished
        | FormFault::TooDeep { .. }
        | FormFault::TooManyTokens { .. }
        | FormFault::TooManyNames { .. }
        | FormFault::Undeclared { .. } => Ending::Refused(Refusal::Formula(fault)),
    }
}

/// The formula of a text, with its names in order of first use.
pub fn read_formula(alloc: Global, dialect: Dialect, text: &[u8]) -> Result<(Form, Names), Ending>
    ensures formula { IfOk result (λ read. IsFormula dialect text.now (tree read.0)) }
    ensures names { IfOk result (λ read. read.1.names ≡ names_of dialect text.now) }
    ensures proper { IfOk result (λ read. IsProper (length read.1.names) (tree read.0)) }
    ensures ending { IfErr result (λ ending. EndsAtFormula dialect text.now ending) }
{
    let Ok(mut names) = Names::new(alloc) else {
        return Err(Ending::NoMemory);
    };
    let form = read_form(alloc, dialect, text, &mut names).map_err(formula_ending)?;
    Ok((form, names))
}
