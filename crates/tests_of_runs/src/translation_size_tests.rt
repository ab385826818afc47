//! The sizes of translations.
use crate::runs::{NO_FAULTS, done};
use std::test::Fail;

// A dialect, a formula, and the front of its translation: its names, the class count of each part, and the number of locations.
const SIZES: [(&str, &str, &str); 27] = [
    (
        "ltlf",
        "true",
        "automaton 1\nnames\npart 1 1 true\nwhole 2\n",
    ),
    ("ltlf", "a", "automaton 1\nnames a\npart 1 3 a\nwhole 3\n"),
    (
        "ltlf",
        "!a",
        "automaton 1\nnames a\npart 1 3 a\npart 2 3 !a\nwhole 3\n",
    ),
    (
        "ltlf",
        "a & b",
        "automaton 1\nnames a b\npart 1 3 a\npart 2 3 b\npart 3 3 (a & b)\nwhole 3\n",
    ),
    (
        "ltlf",
        "a -> b",
        "automaton 1\nnames a b\npart 1 3 a\npart 2 3 b\npart 3 3 (a -> b)\nwhole 3\n",
    ),
    (
        "ltlf",
        "a <-> b",
        "automaton 1\nnames a b\npart 1 3 a\npart 2 3 b\npart 3 3 (a <-> b)\nwhole 3\n",
    ),
    (
        "ltlf",
        "X a",
        "automaton 1\nnames a\npart 1 3 a\npart 2 4 X a\nwhole 4\n",
    ),
    (
        "ltlf",
        "N a",
        "automaton 1\nnames a\npart 1 3 a\npart 2 4 N a\nwhole 4\n",
    ),
    (
        "ltlf",
        "X X a",
        "automaton 1\nnames a\npart 1 3 a\npart 2 4 X a\npart 3 5 X X a\nwhole 5\n",
    ),
    (
        "ltlf",
        "F a",
        "automaton 1\nnames a\npart 1 3 a\npart 2 2 F a\nwhole 2\n",
    ),
    (
        "ltlf",
        "G a",
        "automaton 1\nnames a\npart 1 3 a\npart 2 2 G a\nwhole 3\n",
    ),
    (
        "ltlf",
        "a U b",
        "automaton 1\nnames a b\npart 1 3 a\npart 2 3 b\npart 3 3 (a U b)\nwhole 3\n",
    ),
    (
        "ltlf",
        "a R b",
        "automaton 1\nnames a b\npart 1 3 a\npart 2 3 b\npart 3 3 (a R b)\nwhole 4\n",
    ),
    (
        "ltlf",
        "F(a & X b)",
        "automaton 1\nnames a b\npart 1 3 a\npart 2 3 b\npart 3 4 X b\npart 4 4 (a & X b)\npart 5 3 F (a & X b)\nwhole 3\n",
    ),
    (
        "ltlf",
        "G(a -> F b)",
        "automaton 1\nnames a b\npart 1 3 a\npart 2 3 b\npart 3 2 F b\npart 4 3 (a -> F b)\npart 5 2 G (a -> F b)\nwhole 3\n",
    ),
    (
        "ltlf",
        "G(a -> X b)",
        "automaton 1\nnames a b\npart 1 3 a\npart 2 3 b\npart 3 4 X b\npart 4 4 (a -> X b)\npart 5 3 G (a -> X b)\nwhole 4\n",
    ),
    (
        "ltlf",
        "F a & F b",
        "automaton 1\nnames a b\npart 1 3 a\npart 2 2 F a\npart 3 3 b\npart 4 2 F b\npart 5 4 (F a & F b)\nwhole 4\n",
    ),
    (
        "ltlf",
        "G a | G b",
        "automaton 1\nnames a b\npart 1 3 a\npart 2 2 G a\npart 3 3 b\npart 4 2 G b\npart 5 4 (G a | G b)\nwhole 5\n",
    ),
    (
        "ltlf",
        "(a U b) U c",
        "automaton 1\nnames a b c\npart 1 3 a\npart 2 3 b\npart 3 3 (a U b)\npart 4 3 c\npart 5 5 ((a U b) U c)\nwhole 5\n",
    ),
    (
        "ltlf",
        "last",
        "automaton 1\nnames\npart 1 1 false\npart 2 3 N false\nwhole 3\n",
    ),
    (
        "ltlf",
        "F(a & X last)",
        "automaton 1\nnames a\npart 1 3 a\npart 2 1 false\npart 3 3 N false\npart 4 4 X N false\npart 5 4 (a & X N false)\npart 6 4 F (a & X N false)\nwhole 4\n",
    ),
    (
        "ltlf",
        "G(a -> X(b | X b))",
        "automaton 1\nnames a b\npart 1 3 a\npart 2 3 b\npart 3 3 b\npart 4 4 X b\npart 5 4 (b | X b)\npart 6 5 X (b | X b)\npart 7 5 (a -> X (b | X b))\npart 8 4 G (a -> X (b | X b))\nwhole 5\n",
    ),
    (
        "ldlf",
        "<a>b",
        "automaton 1\nnames a b\npart 1 3 b\npart 2 4 <a>b\nwhole 4\n",
    ),
    (
        "ldlf",
        "[a]b",
        "automaton 1\nnames a b\npart 1 3 b\npart 2 4 [a]b\nwhole 4\n",
    ),
    (
        "ldlf",
        "<(a;b)*>end",
        "automaton 1\nnames a b\npart 1 1 false\npart 2 2 [true]false\npart 3 3 <(a ; b)*>[true]false\nwhole 4\n",
    ),
    (
        "ldlf",
        "[true*](a -> <true*>b)",
        "automaton 1\nnames a b\npart 1 3 a\npart 2 3 b\npart 3 2 <true*>b\npart 4 3 (a -> <true*>b)\npart 5 2 [true*](a -> <true*>b)\nwhole 3\n",
    ),
    (
        "ldlf",
        "<a? + b>true",
        "automaton 1\nnames a b\npart 1 3 a\npart 2 1 true\npart 3 3 <(a? + b)>true\nwhole 3\n",
    ),
];

#[test]
fn translations_have_these_sizes(rt: HostRuntime) -> Result<(), Fail> {
    for (dialect, formula, front) in SIZES {
        let words = ["translate", dialect, formula];
        let got = done(rt.alloc(), &words, b"", &NO_FAULTS)?;
        assert_eq!(rt; got.status, 0, "{formula}");
        assert!(rt; got.output.starts_with(front.as_bytes()), "{formula}");
    }
    Ok(())
}
