//! Files that are long: at the limits of bytes, of lines and of a formula.
use crate::outcome::outcome_of;
use std::alloc::Global;
use std::test::Fail;
use test_support::repeated;

const HEAD: &str = "version 2\ninputs r\noutputs g\nfirst agent\n";

// A head, a piece so many times, a tail, and what is to be made of it.
const LONG: [(&str, &str, usize, &str, &str); 9] = [
    (
        "inputs r\noutputs g\nfirst agent\ngoal g\n",
        "#",
        65498,
        "",
        "ltlf / agent / 1 / 1 / g,r / - / g / 1024 / no / -",
    ),
    (
        "inputs r\noutputs g\nfirst agent\ngoal g\n",
        "#",
        65499,
        "",
        "too long",
    ),
    ("", "x", 65537, "", "too long"),
    (HEAD, "goal r\n", 65, "", "line 69: too many lines"),
    (HEAD, "goal r\n", 64, "goal x\n", "line 69: too many lines"),
    (HEAD, "duty r\n", 65, "goal r\n", "line 69: too many lines"),
    (
        HEAD,
        "assume r\n",
        65,
        "goal r\n",
        "line 69: too many lines",
    ),
    (
        HEAD,
        "duty r\n",
        64,
        "goal x\n",
        "line 69: undeclared name at 6",
    ),
    (
        "version 2\ninputs r\noutputs g\nfirst agent\n goal  ",
        "!",
        301,
        "r",
        "line 5: too deep at 308",
    ),
];

#[test]
fn limits_of_bytes_of_lines_and_of_depth(rt: HostRuntime) -> Result<(), Fail> {
    for (head, piece, times, tail, wanted) in LONG {
        let file = repeated(rt.alloc(), head, piece, times, tail)?;
        let found = outcome_of(rt.alloc(), file.as_bytes())?;
        assert!(rt; found.bytes() == wanted.as_bytes(), "{wanted}");
    }
    Ok(())
}

#[test]
fn sixty_four_lines_are_nested_to_the_right(rt: HostRuntime) -> Result<(), Fail> {
    let alloc = rt.alloc();
    let file = repeated(alloc, HEAD, "goal r\n", 63, "goal g\n")?;
    let front = "ltlf / agent / 1 / 1 / g,r / - / ";
    let goal = repeated(alloc, front, "(r & ", 63, "g")?;
    let wanted = repeated(alloc, goal.as_str(), ")", 63, " / 1024 / no / -")?;
    let found = outcome_of(alloc, file.as_bytes())?;
    assert!(rt; found.bytes() == wanted.as_bytes());
    Ok(())
}

// 512 operands, and three tokens for each of their 511 conjunctions.
#[test]
fn a_formula_has_at_most_2000_tokens(rt: HostRuntime) -> Result<(), Fail> {
    let alloc = rt.alloc();
    let mut formula = "r".to_string(alloc)?;
    for _ in 0..9 {
        formula = format!(in alloc; "({formula}&{formula})")?;
    }
    let file = repeated(alloc, HEAD, " goal  ", 1, formula.as_str())?;
    let found = outcome_of(alloc, file.as_bytes())?;
    assert!(rt; found.bytes() == b"line 5: too many tokens at 2008".as_slice());
    Ok(())
}

// Four lines have 2,396 tokens together.
#[test]
fn each_formula_has_its_tokens_for_itself(rt: HostRuntime) -> Result<(), Fail> {
    let alloc = rt.alloc();
    let line = repeated(alloc, "goal ", "r & ", 299, "r\n")?;
    let file = repeated(alloc, HEAD, line.as_str(), 4, "")?;
    let found = outcome_of(alloc, file.as_bytes())?;

    let open = repeated(alloc, "", "(r & ", 299, "r")?;
    let goal = repeated(alloc, open.as_str(), ")", 299, "")?;
    let front = format!(in alloc; "({goal} & ")?;
    let goals = repeated(
        alloc,
        "ltlf / agent / 1 / 1 / g,r / - / ",
        front.as_str(),
        3,
        goal.as_str(),
    )?;
    let wanted = repeated(alloc, goals.as_str(), ")", 3, " / 1024 / no / -")?;
    assert!(rt; found.bytes() == wanted.as_bytes());
    Ok(())
}
