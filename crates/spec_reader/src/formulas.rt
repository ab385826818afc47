//! The formulas of a specification file: those of a key, joined to one.
ghost use Rattle.std.specs.Prelude.{◌≡◌, ◌<◌, ◌+◌, ◌^◌, Some, None, IfOk, OnOk, IfErr, map, true};
ghost use Rattle.std.specs.Option.{option_map};
ghost use Rattle.forms.specs.Tree.{tree};
ghost use Rattle.form_reader.specs.Reading.{IsFormulaOf};
ghost use Rattle.spec_lines.specs.Lines.{shown};
ghost use Rattle.spec_lines.specs.Keywords.{lines_with, values_of};
ghost use Rattle.spec_reader.specs.Specification.{IsConjunctionOf};
ghost use Rattle.spec_reader.specs.Formulas.{AreFormulasOf, conjunction_of, place_of};
ghost use Rattle.spec_reader.specs.Refusal as refusal;
ghost use Rattle.spec_reader.specs.Refusal.{Blames};

use crate::spec::SpecFault;
use bes_io::Memory;
use form_reader::{FormFault, read_form};
use form_tokens::{Dialect, Names};
use forms::Form;
use spec_lines::{Keyword, Line};
use std::alloc::Global;

/// The fault with its place counted from so many bytes before.
fn moved(before: u64, fault: FormFault) -> FormFault
    requires { before + place_of fault < 2 ^ 64 }
    ensures { result ≡ refusal.moved before fault }
{
    match fault {
        FormFault::BadByte { at } => FormFault::BadByte { at: before + at },
        FormFault::Unexpected { at } => FormFault::Unexpected { at: before + at },
        FormFault::Unfinished => FormFault::Unfinished,
        FormFault::TooDeep { at } => FormFault::TooDeep { at: before + at },
        FormFault::TooManyTokens { at } => FormFault::TooManyTokens { at: before + at },
        FormFault::TooManyNames { at } => FormFault::TooManyNames { at: before + at },
        FormFault::Undeclared { at } => FormFault::Undeclared { at: before + at },
        FormFault::Memory => FormFault::Memory,
    }
}

/// The formula of a line.
fn read_line(
    alloc: Global,
    dialect: Dialect,
    names: &mut Names,
    line: &Line<'_>,
) -> Result<Form, SpecFault>
    requires { names.old.closed ≡ true }
    ensures found { IfOk result (λ form. IsFormulaOf dialect names.old line.now.value.now (tree form)) }
    ensures ok { OnOk result (refusal.form_fault dialect names.old (shown line.now) ≡ None) }
    ensures names { OnOk result (names.new ≡ names.old) }
    ensures fault { IfErr result (λ e. Blames e (refusal.form_fault dialect names.old (shown line.now) ≡ Some e)) }
{
    match read_form(alloc, dialect, line.value, names) {
        Ok(form) => Ok(form),
        Err(FormFault::Memory) => Err(SpecFault::Memory),
        Err(fault) => Err(SpecFault::Form {
            line: line.number,
            fault: moved(line.before, fault),
        }),
    }
}

/// The conjunction of the forms in their order, nested to the right.
fn conjunction(alloc: Global, mut forms: Vec<Form>) -> Result<Option<Form>, Memory>
    ensures { IfOk result (λ whole. option_map tree whole ≡ conjunction_of (map tree forms.items)) }
{
    let Some(mut whole) = forms.pop() else {
        return Ok(None);
    };
    while let Some(form) = forms.pop() {
        whole = Form::And(Box::new(alloc, form)?, Box::new(alloc, whole)?);
    }
    Ok(Some(whole))
}

/// The formulas of the lines with this key, in their order.
fn read_formulas(
    alloc: Global,
    dialect: Dialect,
    names: &mut Names,
    lines: &[Line<'_>],
    keyword: Keyword,
) -> Result<Vec<Form>, SpecFault>
    requires { names.old.closed ≡ true }
    ensures found { IfOk result (λ forms. AreFormulasOf dialect names.old (values_of keyword (map shown lines.now)) (map tree forms.items)) }
    ensures ok { OnOk result (refusal.forms_fault dialect names.old (lines_with keyword (map shown lines.now)) ≡ None) }
    ensures names { OnOk result (names.new ≡ names.old) }
    ensures fault { IfErr result (λ e. Blames e (refusal.forms_fault dialect names.old (lines_with keyword (map shown lines.now)) ≡ Some e)) }
{
    let mut forms = Vec::new(alloc);
    for line in lines {
        if line.key == keyword.word() {
            forms.push(read_line(alloc, dialect, names, line)?)?;
        }
    }
    Ok(forms)
}

/// The conjunction of the formulas of the lines with this key, if there are any.
pub fn read_conjunction(
    alloc: Global,
    dialect: Dialect,
    names: &mut Names,
    lines: &[Line<'_>],
    keyword: Keyword,
) -> Result<Option<Form>, SpecFault>
    requires { names.old.closed ≡ true }
    ensures found { IfOk result (λ whole. IsConjunctionOf dialect names.old (values_of keyword (map shown lines.now)) (option_map tree whole)) }
    ensures ok { OnOk result (refusal.forms_fault dialect names.old (lines_with keyword (map shown lines.now)) ≡ None) }
    ensures names { OnOk result (names.new ≡ names.old) }
    ensures fault { IfErr result (λ e. Blames e (refusal.forms_fault dialect names.old (lines_with keyword (map shown lines.now)) ≡ Some e)) }
{
    let forms = read_formulas(alloc, dialect, names, lines, keyword)?;
    Ok(conjunction(alloc, forms)?)
}
