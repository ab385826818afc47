//! The text of a translated formula.
ghost use Rattle.std.specs.Prelude.{◌≡◌, ◌<◌, ◌≤◌, ◌+◌, ◌^◌, ◌++◌, ℕ, List, length, slice_index, OnOk, IfOk};
ghost use Rattle.forms.specs.Tree.{tree};
ghost use Rattle.forms.specs.Parts as listed;
ghost use Rattle.forms.specs.Proper.{IsProper};
ghost use Rattle.translate_command.specs.AutomatonText.{name_list, part_line, part_lines, bits_of, letter_text, letter_list, word_line, word_lines, automaton_text};

use bes_io::{Letters, Memory, Text};
use distinguish::Words;
use form_printer::print_part;
use form_tokens::Names;
use forms::Form;
use std::alloc::Global;
use translate::Counts;

/// Appends the names.
fn push_names(text: &mut Text, names: &Names) -> Result<(), Memory>
    ensures { OnOk result (text.new ≡ text.old ++ name_list names.now.names (length names.now.names)) }
{
    for i in 0..names.len() {
        text.push(b" ")?;
        text.push(names.name(i))?;
    }
    Ok(())
}

/// Appends the line of part k, counted from 0.
fn push_part(
    alloc: Global,
    text: &mut Text,
    form: &Form,
    names: &Names,
    k: usize,
    count: u32,
) -> Result<(), Memory>
    requires proper { IsProper (length names.now.names) (tree form.now) }
    requires part { k < length (listed.parts (tree form.now)) }
    requires few { k + 1 < 2 ^ 64 }
    ensures { (counts : List ℕ) → slice_index counts k ≡ count →
        OnOk result (text.new ≡ text.old ++ part_line names.now.names (tree form.now) counts k) }
{
    let number = k as u64 + 1;
    let part = print_part(alloc, form, number, names)?;
    text.push(b"part ")?;
    text.number(number)?;
    text.push(b" ")?;
    text.number(u64::from(count))?;
    text.push(b" ")?;
    text.push(part.bytes())?;
    text.push(b"\n")
}

/// Appends a line for each part.
fn push_parts(
    alloc: Global,
    text: &mut Text,
    form: &Form,
    names: &Names,
    counts: &Counts,
) -> Result<(), Memory>
    requires proper { IsProper (length names.now.names) (tree form.now) }
    requires counts { length counts.now ≡ length (listed.parts (tree form.now)) }
    ensures { OnOk result (text.new ≡ text.old ++ part_lines names.now.names (tree form.now) counts.now (length counts.now)) }
{
    for k in 0..counts.len() {
        push_part(alloc, text, form, names, k, *counts.item(k))?;
    }
    Ok(())
}

/// Appends the bits of a letter.
fn push_bits(text: &mut Text, props: u32, letter: u64) -> Result<(), Memory>
    requires { props ≤ 32 }
    ensures { OnOk result (text.new ≡ text.old ++ bits_of props letter props) }
{
    for i in 0..props {
        if (letter >> (props - 1 - i)) % 2 == 1 {
            text.push(b"1")?;
        } else {
            text.push(b"0")?;
        }
    }
    Ok(())
}

/// Appends a letter.
fn push_letter(text: &mut Text, props: u32, letter: u64) -> Result<(), Memory>
    requires { props ≤ 32 }
    ensures { OnOk result (text.new ≡ text.old ++ letter_text props letter) }
{
    if props == 0 {
        text.push(b".")
    } else {
        push_bits(text, props, letter)
    }
}

/// Appends the letters of a word.
fn push_letters(text: &mut Text, props: u32, word: &Letters) -> Result<(), Memory>
    requires { props ≤ 32 }
    ensures { OnOk result (text.new ≡ text.old ++ letter_list props word.now (length word.now)) }
{
    for i in 0..word.len() {
        text.push(b" ")?;
        push_letter(text, props, *word.item(i))?;
    }
    Ok(())
}

/// Appends the line of a word.
fn push_word(text: &mut Text, props: u32, word: &Letters) -> Result<(), Memory>
    requires { props ≤ 32 }
    ensures { OnOk result (text.new ≡ text.old ++ word_line props word.now) }
{
    if word.len() == 0 {
        return text.push(b"word empty\n");
    }
    text.push(b"word")?;
    push_letters(text, props, word)?;
    text.push(b"\n")
}

/// Appends a line for each word.
fn push_words(text: &mut Text, props: u32, words: &Words) -> Result<(), Memory>
    requires { props ≤ 32 }
    ensures { OnOk result (text.new ≡ text.old ++ word_lines props words.now (length words.now)) }
{
    for i in 0..words.len() {
        push_word(text, props, words.item(i))?;
    }
    Ok(())
}

/// The whole text, of these lines for the automaton's locations.
pub fn whole_text(
    alloc: Global,
    form: &Form,
    names: &Names,
    counts: &Counts,
    size: u32,
    table: &Text,
    words: &Words,
) -> Result<Text, Memory>
    requires proper { IsProper (length names.now.names) (tree form.now) }
    requires counts { length counts.now ≡ length (listed.parts (tree form.now)) }
    ensures { IfOk result (λ text. text ≡ automaton_text names.now.names (tree form.now) counts.now size table.now words.now) }
{
    let mut text = Text::new(alloc);
    text.push(b"automaton 1\nnames")?;
    push_names(&mut text, names)?;
    text.push(b"\n")?;
    push_parts(alloc, &mut text, form, names, counts)?;
    text.push(b"whole ")?;
    text.number(u64::from(size))?;
    text.push(b"\n")?;
    text.push(table.bytes())?;
    push_words(&mut text, names.len(), words)?;
    text.push(b"end\n")?;
    Ok(text)
}
