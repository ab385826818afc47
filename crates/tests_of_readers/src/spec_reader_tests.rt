//! Event lines.
use form_tokens::Names;
use spec_reader::{EventFault, Mode, read_event};
use std::test::Fail;

const EVERY: Mode = Mode::Only { from: 0, to: 3 };

const LAST: Mode = Mode::Only { from: 2, to: 3 };

const NONE: Mode = Mode::Only { from: 1, to: 1 };

#[test]
fn a_line_gives_its_letter_or_its_first_fault(rt: HostRuntime) -> Result<(), Fail> {
    let mut names = Names::new(rt.alloc())?;
    names.add(b"a")?;
    names.add(b"Bc")?;
    names.add(b"_1")?;
    let bad = |at| Err(EventFault::BadByte { at });
    let unknown = |at| Err(EventFault::UnknownName { at });
    for (line, mode, want) in [
        (b"".as_slice(), Mode::Ignore, Ok(0)),
        (b" \t ", NONE, Ok(0)),
        (b"a", Mode::Ignore, Ok(4)),
        (b"\t_1  Bc ", EVERY, Ok(3)),
        (b"a a a", EVERY, Ok(4)),
        (b"b true a", Mode::Ignore, Ok(4)),
        (b"_1 b #", EVERY, unknown(4)),
        (b"true", EVERY, unknown(1)),
        (b"_1 a", LAST, unknown(4)),
        (b"a", NONE, unknown(1)),
        (b"a #b", EVERY, bad(3)),
        (b"a#b", Mode::Ignore, bad(2)),
        (b"a 1a", Mode::Ignore, bad(3)),
        (b"a\r", EVERY, bad(2)),
    ] {
        assert_eq!(rt; read_event(line, &names, mode), want, "at {line:?}");
    }
    Ok(())
}

#[test]
fn names_have_64_bytes_and_letters_32_bits(rt: HostRuntime) -> Result<(), Fail> {
    let long = [b'x'; 66];
    let mut names = Names::new(rt.alloc())?;
    for n in 0..31 {
        names.add(format!(in rt.alloc(); "n{n}")?.as_bytes())?;
    }
    names.add(&long[..64])?;
    let mode = Mode::Only { from: 0, to: 32 };
    assert_eq!(rt; read_event(b"n0 n30", &names, mode), Ok(0x8000_0002));
    assert_eq!(rt; read_event(&long[..64], &names, mode), Ok(1));
    assert_eq!(rt;
        read_event(&long[..63], &names, mode),
        Err(EventFault::UnknownName { at: 1 })
    );
    assert_eq!(rt;
        read_event(&long[..65], &names, mode),
        Err(EventFault::BadByte { at: 65 })
    );
    Ok(())
}
