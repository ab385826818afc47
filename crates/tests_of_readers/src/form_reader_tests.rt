//! Texts that are read, refused and printed.
use bes_io::Text;
use form_printer::{print_form, print_part};
use form_reader::FormFault::{
    BadByte, TooDeep, TooManyNames, TooManyTokens, Unexpected, Unfinished,
};
use form_reader::{FormFault, read_form};
use form_tokens::{Dialect, NameFault, Names};
use forms::{Form, parts};
use std::alloc::Global;
use std::test::Fail;
use test_support::{NAMES, repeated};

// A text as a piece so many times and then a tail.
const READ: [(Dialect, &str, usize, &str); 5] = [
    (Dialect::Ltlf, "", 0, "!(a U X b) -> true & c"),
    (Dialect::Ltlf, "!", 300, "a"),
    (Dialect::Ltlf, "x", 64, ""),
    (Dialect::Ldlf, "", 0, "<(true;true)*> end"),
    (Dialect::Ldlf, "", 0, "[{a & !b}; (c? + d)*]last"),
];

// The same, with the fault of a text.
const REFUSED: [(Dialect, &str, usize, &str, FormFault); 15] = [
    (Dialect::Ltlf, "", 0, "a &", Unfinished),
    (Dialect::Ltlf, "", 0, "", Unfinished),
    (Dialect::Ltlf, "", 0, "a # b", BadByte { at: 3 }),
    (Dialect::Ltlf, "", 0, "a b", Unexpected { at: 3 }),
    (Dialect::Ltlf, "", 0, "a W b", Unexpected { at: 3 }),
    (Dialect::Ltlf, "", 0, "<a> b", BadByte { at: 1 }),
    (Dialect::Ltlf, "", 0, "a <- b", BadByte { at: 3 }),
    (Dialect::Ltlf, "!", 301, "a", TooDeep { at: 301 }),
    (
        Dialect::Ltlf,
        "!!!!!!!!a&",
        200,
        "a",
        TooManyTokens { at: 2001 },
    ),
    (Dialect::Ltlf, "x", 65, "", BadByte { at: 65 }),
    (Dialect::Ltlf, "", 0, NAMES, TooManyNames { at: 71 }),
    (Dialect::Ldlf, "", 0, "<{<a>tt}> b", Unexpected { at: 9 }),
    (Dialect::Ldlf, "", 0, "<last> b", Unexpected { at: 6 }),
    (Dialect::Ldlf, "", 0, "<a*?> b", Unexpected { at: 4 }),
    (Dialect::Ldlf, "", 0, "a <- b", Unexpected { at: 3 }),
];

/// Why a text is not read, if it is not.
fn fault_of(alloc: Global, dialect: Dialect, text: &str) -> Result<Option<FormFault>, Fail> {
    let mut names = Names::new(alloc)?;
    Ok(read_form(alloc, dialect, text.as_bytes(), &mut names).err())
}

#[test]
fn reads_texts_of_formulas(rt: HostRuntime) -> Result<(), Fail> {
    for (dialect, piece, times, tail) in READ {
        let text = repeated(rt.alloc(), "", piece, times, tail)?;
        let fault = fault_of(rt.alloc(), dialect, text.as_str())?;
        assert_eq!(rt; fault, None, "{text}");
    }
    Ok(())
}

#[test]
fn refuses_each_text_at_its_place(rt: HostRuntime) -> Result<(), Fail> {
    for (dialect, piece, times, tail, wanted) in REFUSED {
        let text = repeated(rt.alloc(), "", piece, times, tail)?;
        let fault = fault_of(rt.alloc(), dialect, text.as_str())?;
        assert_eq!(rt; fault, Some(wanted), "{text}");
    }
    Ok(())
}

#[test]
fn names_are_numbered_in_order(rt: HostRuntime) -> Result<(), Fail> {
    let alloc = rt.alloc();
    let mut names = Names::new(alloc)?;
    assert_eq!(rt; names.add(b"b".as_slice()), Ok(0));
    assert_eq!(rt; names.add(b"b".as_slice()), Err(NameFault::Twice));
    assert_eq!(rt; names.add(b"last".as_slice()), Err(NameFault::Bad));
    let form = read_form(alloc, Dialect::Ltlf, b"a".as_slice(), &mut names);
    assert!(rt; matches!(form, Ok(Form::Atom(1))));
    names.close();
    assert!(rt; names.is_closed());
    let refused = read_form(alloc, Dialect::Ltlf, b"F x".as_slice(), &mut names);
    assert!(rt; matches!(refused, Err(FormFault::Undeclared { at: 3 })));
    assert_eq!(rt; names.find(b"a".as_slice()), Some(1));
    assert_eq!(rt; names.len(), 2);
    assert!(rt; names.name(0) == b"b".as_slice());
    Ok(())
}

/// The text of the formula that is read from a text.
fn printed(alloc: Global, dialect: Dialect, text: &str) -> Result<Text, Fail> {
    let mut names = Names::new(alloc)?;
    let form = read_form(alloc, dialect, text.as_bytes(), &mut names)?;
    Ok(print_form(alloc, &form, &names)?)
}

#[test]
fn prints_what_it_reads(rt: HostRuntime) -> Result<(), Fail> {
    for (dialect, text, shown) in [
        (Dialect::Ltlf, "!(a U X b)", "!(a U X b)"),
        (Dialect::Ltlf, "~(a<->b)", "!(a <-> b)"),
        (
            Dialect::Ltlf,
            "last -> tt & ff R WX G a || F c",
            "(N false -> ((true & (false R N G a)) | F c))",
        ),
        (
            Dialect::Ldlf,
            "<({a & b} ; c?)* + {!a}?>[true*]b",
            "<(({(a & b)} ; c?)* + {!a}?)>[true*]b",
        ),
        (Dialect::Ldlf, "[(a*)*]end", "[(a*)*][true]false"),
        (Dialect::Ldlf, "<last?> tt", "<{<true>[true]false}?>true"),
    ] {
        let text = printed(rt.alloc(), dialect, text)?;
        assert!(rt; text.bytes() == shown.as_bytes(), "{shown}");
    }
    Ok(())
}

/// The text of one part of a formula of LDLf, if it has that many.
fn printed_part(alloc: Global, text: &str, part: u64) -> Result<Option<Text>, Fail> {
    let mut names = Names::new(alloc)?;
    let form = read_form(alloc, Dialect::Ldlf, text.as_bytes(), &mut names)?;
    if part == 0 || part > parts(&form) {
        return Ok(None);
    }
    Ok(Some(print_part(alloc, &form, part, &names)?))
}

#[test]
fn operands_and_tests_come_before_what_they_make(rt: HostRuntime) -> Result<(), Fail> {
    let text = "<(a? ; b + {!b}?)*>(c & a)";
    let whole = "<((a? ; b) + {!b}?)*>(c & a)";
    for (part, shown) in [
        (1, "a"),
        (2, "b"),
        (3, "!b"),
        (4, "c"),
        (5, "a"),
        (6, "(c & a)"),
        (7, whole),
    ] {
        let printed = printed_part(rt.alloc(), text, part)?;
        assert!(rt;
            printed.is_some_and(|found| found.bytes() == shown.as_bytes()),
            "part {part}"
        );
    }
    assert!(rt; printed_part(rt.alloc(), text, 8)?.is_none());
    Ok(())
}
