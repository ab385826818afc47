//! What a reader makes of a specification file, as a line of text.
ghost use Rattle.std.specs.Prelude.{length};
ghost use Rattle.std.specs.Option.{IfSome};
ghost use Rattle.forms.specs.Tree.{tree};
ghost use Rattle.forms.specs.Proper.{IsProper};
ghost use Rattle.spec_reader.specs.Specification.{plain};
ghost use Rattle.spec_reader.specs.Answer.{AreProper};

use bes_io::{Memory, Text};
use form_printer::print_form;
use form_reader::FormFault;
use form_tokens::{Dialect, Names};
use forms::{Form, Mover};
use spec_reader::{Key, Spec, SpecFault, read_spec};
use std::alloc::Global;

/// Appends the names, with commas between them.
fn push_names(out: &mut Text, names: &Names) -> Result<(), Memory> {
    for i in 0..names.len() {
        if i > 0 {
            out.push(b",")?;
        }
        out.push(names.name(i))?;
    }
    Ok(())
}

/// Appends a formula, or `-` for none.
fn push_form(
    alloc: Global,
    out: &mut Text,
    form: Option<&Form>,
    names: &Names,
) -> Result<(), Memory>
    requires { IfSome form (λ f. IsProper (length names.now.names) (tree f.now)) }
{
    match form {
        Some(form) => out.push(print_form(alloc, form, names)?.bytes()),
        None => out.push(b"-"),
    }
}

/// Appends dialect, mover and how many names each side has.
fn push_sides(out: &mut Text, spec: &Spec) -> Result<(), Memory> {
    out.push(match spec.dialect {
        Dialect::Ltlf => b"ltlf / ".as_slice(),
        Dialect::Ldlf => b"ldlf / ".as_slice(),
    })?;
    out.push(match spec.partition.first {
        Mover::Agent => b"agent / ".as_slice(),
        Mover::Environment => b"environment / ".as_slice(),
    })?;
    out.number(u64::from(spec.partition.inputs))?;
    out.push(b" / ")?;
    out.number(u64::from(spec.partition.outputs))?;
    out.push(b" / ")
}

/// Appends a specification, its parts separated by slashes.
fn push_spec(alloc: Global, out: &mut Text, spec: &Spec) -> Result<(), Memory>
    requires { AreProper (plain spec.now) }
{
    push_sides(out, spec)?;
    push_names(out, &spec.names)?;
    out.push(b" / ")?;
    push_form(alloc, out, spec.assume.as_ref(), &spec.names)?;
    out.push(b" / ")?;
    push_form(alloc, out, Some(&spec.goal), &spec.names)?;
    out.push(b" / ")?;
    out.number(u64::from(spec.limit))?;
    out.push(if spec.empty {
        b" / yes / ".as_slice()
    } else {
        b" / no / ".as_slice()
    })?;
    push_form(alloc, out, spec.duty.as_ref(), &spec.names)
}

/// Appends a message with a line.
fn push_line(out: &mut Text, line: u64, message: &[u8]) -> Result<(), Memory> {
    out.push(b"line ")?;
    out.number(line)?;
    out.push(b": ")?;
    out.push(message)
}

/// Appends a message with a place.
fn push_place(out: &mut Text, line: u64, message: &[u8], at: u64) -> Result<(), Memory> {
    push_line(out, line, message)?;
    out.push(b" at ")?;
    out.number(at)
}

/// Appends a fault of a formula.
fn push_form_fault(out: &mut Text, line: u64, fault: FormFault) -> Result<(), Memory> {
    match fault {
        FormFault::BadByte { at } => push_place(out, line, b"bad byte", at),
        FormFault::Unexpected { at } => push_place(out, line, b"unexpected token", at),
        FormFault::Unfinished => push_line(out, line, b"unfinished"),
        FormFault::TooDeep { at } => push_place(out, line, b"too deep", at),
        FormFault::TooManyTokens { at } => push_place(out, line, b"too many tokens", at),
        FormFault::TooManyNames { at } => push_place(out, line, b"too many names", at),
        FormFault::Undeclared { at } => push_place(out, line, b"undeclared name", at),
        FormFault::Memory => Err(Memory),
    }
}

/// Appends the key that is missing.
fn push_missing(out: &mut Text, key: Key) -> Result<(), Memory> {
    out.push(b"missing ")?;
    out.push(match key {
        Key::Inputs => b"inputs".as_slice(),
        Key::Outputs => b"outputs".as_slice(),
        Key::First => b"first".as_slice(),
        Key::Goal => b"goal".as_slice(),
    })
}

/// Appends a fault.
fn push_fault(out: &mut Text, fault: SpecFault) -> Result<(), Memory> {
    match fault {
        SpecFault::TooLong => out.push(b"too long"),
        SpecFault::UnknownKey { line } => push_line(out, line, b"unknown key"),
        SpecFault::Repeated { line } => push_line(out, line, b"repeated key"),
        SpecFault::BadName { line } => push_line(out, line, b"bad name"),
        SpecFault::NameTwice { line } => push_line(out, line, b"name given twice"),
        SpecFault::TooManyNames { line } => push_line(out, line, b"too many names"),
        SpecFault::BadValue { line } => push_line(out, line, b"bad value"),
        SpecFault::Missing { key } => push_missing(out, key),
        SpecFault::Form { line, fault } => push_form_fault(out, line, fault),
        SpecFault::TooManyLines { line } => push_line(out, line, b"too many lines"),
        SpecFault::Memory => Err(Memory),
    }
}

/// What a reader makes of a file: its specification, or its first fault.
pub fn outcome_of(alloc: Global, file: &[u8]) -> Result<Text, Memory> {
    let mut out = Text::new(alloc);
    match read_spec(alloc, file) {
        Ok(spec) => push_spec(alloc, &mut out, &spec)?,
        Err(fault) => push_fault(&mut out, fault)?,
    }
    Ok(out)
}
