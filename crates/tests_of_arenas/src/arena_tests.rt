//! Arenas of small specifications. Which lines and numbers are wanted was computed by a program written from the
//! definitions alone: over explicit letters, it merges histories until no continuation tells two of one location apart.
use crate::specifications::{Specification, Wanted, is_built, with_goal};
use form_tokens::Dialect;
use forms::Mover;
use forms::Mover::{Agent, Environment};
use std::test::Fail;

// In these a cube has the first mover's proposition first: g and then r where the agent moves first, else r and then g.

// A goal, and the arena where nothing is assumed and there is no duty.
const GOALS: [(Mover, &str, &[&str]); 10] = [
    (Agent, "F g", &["running, 0- 0, 1- 1", "goal"]),
    (
        Agent,
        "G g",
        &["running, 0- 1, 1- 2", "running, -- 1", "goal"],
    ),
    (Environment, "false", &["running, -- 0"]),
    (
        Agent,
        "F(g <-> r)",
        &["running, 00 1, 01 0, 10 0, 11 1", "goal"],
    ),
    (
        Environment,
        "F(g <-> r)",
        &["running, 00 1, 01 0, 10 0, 11 1", "goal"],
    ),
    (
        Environment,
        "F(g & r)",
        &["running, 0- 0, 10 0, 11 1", "goal"],
    ),
    (
        Agent,
        "(r -> X g) & (!r -> X r)",
        &[
            "running, -0 1, -1 2",
            "running, -0 3, -1 4",
            "running, 0- 3, 1- 4",
            "running, -- 3",
            "goal",
        ],
    ),
    (
        Environment,
        "g & !g | X X g",
        &[
            "running, -- 1",
            "running, -- 2",
            "running, -0 3, -1 4",
            "running, -- 3",
            "goal",
        ],
    ),
    (
        Agent,
        "F g & F r",
        &[
            "running, 00 0, 01 1, 10 2, 11 3",
            "running, 0- 1, 1- 3",
            "running, -0 2, -1 3",
            "goal",
        ],
    ),
    (
        Environment,
        "G(r -> X g) & F r",
        &[
            "running, 0- 0, 1- 1",
            "running, 00 2, 01 3, 10 2, 11 1",
            "running, -- 2",
            "goal",
        ],
    ),
];

#[test]
fn arenas_of_goals(rt: HostRuntime) -> Result<(), Fail> {
    for (first, goal, lines) in GOALS {
        let specification = with_goal(first, goal);
        let built = is_built(rt.alloc(), &specification, Wanted::Arena(lines))?;
        assert!(rt; built, "{goal}");
    }
    Ok(())
}

// What is assumed, a goal, and the arena.
const ASSUMED: [(Mover, &str, &str, &[&str]); 12] = [
    (Agent, "r", "r", &["running, -0 illegal, -1 1", "goal"]),
    (
        Environment,
        "r",
        "g",
        &["running, 0- illegal, 10 1, 11 2", "running, -- 1", "goal"],
    ),
    // The round that would meet the goal is illegal.
    (Agent, "G r", "F !r", &["running, -0 illegal, -1 0"]),
    // An input is illegal with each output, also with one that keeps what is assumed.
    (
        Environment,
        "r | !g",
        "F g",
        &[
            "running, 0- illegal, 10 1, 11 2",
            "running, -0 1, -1 2",
            "goal",
        ],
    ),
    (
        Agent,
        "r | !g",
        "F g",
        &[
            "running, 0- 1, 10 illegal, 11 2",
            "running, 0- 1, 1- 2",
            "goal",
        ],
    ),
    // What is assumed of each prefix is violated where a next position is asked for.
    (Agent, "G(r -> X r)", "F r", &["running, -0 0, -1 illegal"]),
    // The agent could violate what is assumed one round later.
    (
        Agent,
        "G(r -> N g)",
        "F g",
        &["running, 00 0, 01 illegal, 10 1, 11 illegal", "goal"],
    ),
    (
        Environment,
        "G(r -> N !r)",
        "F(r & X r)",
        &["running, 0- 0, 1- 1", "running, 0- 0, 1- illegal"],
    ),
    (
        Agent,
        "G(g -> N !r)",
        "F(g & X !r)",
        &["running, 0- 0, 1- 1", "running, -0 2, -1 illegal", "goal"],
    ),
    (
        Environment,
        "G(g -> N r) & G(!g -> N !r)",
        "F(g & r)",
        &[
            "running, 00 1, 01 2, 10 1, 11 3",
            "running, 00 1, 01 2, 1- illegal",
            "running, 0- illegal, 10 1, 11 3",
            "goal",
        ],
    ),
    (
        Environment,
        "!r & N(r | N(r | g))",
        "F g",
        &[
            "running, 00 1, 01 2, 1- illegal",
            "running, 00 3, 01 2, 10 4, 11 2",
            "goal",
            "running, 0- illegal, 10 4, 11 2",
            "running, -0 4, -1 2",
        ],
    ),
    (
        Agent,
        "true",
        "X true",
        &["running, -- 1", "running, -- 2", "goal"],
    ),
];

#[test]
fn illegal_rounds_lead_nowhere(rt: HostRuntime) -> Result<(), Fail> {
    for (first, assumed, goal, lines) in ASSUMED {
        let specification = Specification {
            assumed: Some(assumed),
            ..with_goal(first, goal)
        };
        let built = is_built(rt.alloc(), &specification, Wanted::Arena(lines))?;
        assert!(rt; built, "{assumed}, {goal}");
    }
    Ok(())
}

// What is assumed, and the least number of rounds within which the agent can violate it.
const UNKEEPABLE: [(Mover, &str, u32); 10] = [
    (Agent, "g", 1),
    (Environment, "false", 1),
    (Environment, "X true", 1),
    (Environment, "N !g", 2),
    (Environment, "N(r <-> g)", 2),
    (Agent, "(g -> N g) & (!g -> N N g)", 2),
    (Agent, "N N !g", 3),
    (Environment, "N N (g & r)", 3),
    (Agent, "G(g -> N r & N N !g)", 3),
    (Agent, "g & N(r & N !g) | !g & N N N g", 3),
];

#[test]
fn the_least_number_of_rounds_to_a_violation(rt: HostRuntime) -> Result<(), Fail> {
    for (first, assumed, rounds) in UNKEEPABLE {
        let specification = Specification {
            assumed: Some(assumed),
            ..with_goal(first, "F g")
        };
        let built = is_built(rt.alloc(), &specification, Wanted::Unkeepable(rounds))?;
        assert!(rt; built, "{assumed}");
    }
    Ok(())
}

// What is assumed, if anything, a goal, a duty, and the arena.
type WithDuty = (
    Mover,
    Option<&'static str>,
    &'static str,
    &'static str,
    &'static [&'static str],
);

const DUTIES: [WithDuty; 9] = [
    (
        Agent,
        None,
        "false",
        "G g",
        &["running, 0- 1, 1- 0", "broken, -- 1"],
    ),
    (
        Agent,
        None,
        "F g",
        "G(g -> r)",
        &["running, 0- 0, 10 1, 11 2", "broken, -- 1", "goal"],
    ),
    // A round breaks the duty and satisfies the goal at once, and histories from two locations share one.
    (
        Environment,
        None,
        "r",
        "G !g",
        &[
            "running, 00 1, 01 2, 10 3, 11 2",
            "running, -0 1, -1 2",
            "broken, -- 2",
            "goal",
        ],
    ),
    (
        Agent,
        None,
        "false",
        "G(g | N !r)",
        &[
            "running, 0- 1, 1- 0",
            "running, 00 1, 01 2, 10 0, 11 2",
            "broken, -- 2",
        ],
    ),
    (
        Environment,
        Some("G(r -> N r)"),
        "false",
        "G(r -> N g) & G(g -> N !r)",
        &[
            "running, 00 0, 01 1, 10 2, 11 3",
            "running, 00 0, 01 1, 1- 4",
            "running, 0- illegal, 10 4, 11 3",
            "running, 0- illegal, 1- 4",
            "broken, 0- illegal, 1- 4",
        ],
    ),
    (
        Environment,
        Some("r | !g"),
        "X r",
        "N !g",
        &[
            "running, 0- illegal, 1- 1",
            "running, 00 2, 01 3, 10 4, 11 3",
            "running, -- 2",
            "broken, -- 3",
            "goal",
        ],
    ),
    (
        Agent,
        Some("G r"),
        "F g",
        "G(r & g)",
        &[
            "running, 00 illegal, 01 1, 10 illegal, 11 2",
            "broken, -0 illegal, -1 1",
            "goal",
        ],
    ),
    (
        Environment,
        None,
        "r",
        "true",
        &["running, 0- 1, 1- 2", "running, -- 1", "goal"],
    ),
    (
        Agent,
        None,
        "F r",
        "false",
        &["running, -- 1", "broken, -- 1"],
    ),
];

#[test]
fn a_broken_duty_stays_broken(rt: HostRuntime) -> Result<(), Fail> {
    for (first, assumed, goal, duty, lines) in DUTIES {
        let specification = Specification {
            assumed,
            duty: Some(duty),
            ..with_goal(first, goal)
        };
        let built = is_built(rt.alloc(), &specification, Wanted::Arena(lines))?;
        assert!(rt; built, "{goal}, {duty}");
    }
    Ok(())
}

// What is assumed, if anything, a goal, a duty, if there is one, and what is built where the empty word is admitted.
type Admitted = (
    Mover,
    Option<&'static str>,
    &'static str,
    Option<&'static str>,
    Wanted<'static>,
);

const ADMITTED: [Admitted; 6] = [
    (Agent, None, "G g", None, Wanted::Arena(&["goal"])),
    (
        Environment,
        Some("r"),
        "N g",
        None,
        Wanted::Arena(&["goal"]),
    ),
    (Agent, None, "G g", Some("false"), Wanted::Arena(&["goal"])),
    (
        Agent,
        None,
        "F g",
        None,
        Wanted::Arena(&["running, 0- 0, 1- 1", "goal"]),
    ),
    (
        Environment,
        None,
        "X false",
        None,
        Wanted::Arena(&["running, -- 0"]),
    ),
    (Agent, Some("g"), "G g", None, Wanted::Unkeepable(1)),
];

#[test]
fn the_empty_history_may_meet_the_goal(rt: HostRuntime) -> Result<(), Fail> {
    for (first, assumed, goal, duty, wanted) in ADMITTED {
        let specification = Specification {
            assumed,
            duty,
            admits_empty: true,
            ..with_goal(first, goal)
        };
        let built = is_built(rt.alloc(), &specification, wanted)?;
        assert!(rt; built, "{goal}");
    }
    Ok(())
}

// Inputs, outputs, what is assumed, if anything, a goal, and the arena.
type Partitioned = (
    Mover,
    &'static [&'static str],
    &'static [&'static str],
    Option<&'static str>,
    &'static str,
    &'static [&'static str],
);

const PARTITIONED: [Partitioned; 5] = [
    (
        Agent,
        &[],
        &["g"],
        None,
        "X g",
        &["running, - 1", "running, 0 2, 1 3", "running, - 2", "goal"],
    ),
    (
        Agent,
        &[],
        &[],
        None,
        "X true",
        &["running, . 1", "running, . 2", "goal"],
    ),
    (
        Environment,
        &["r"],
        &[],
        None,
        "r & X r",
        &[
            "running, 0 1, 1 2",
            "running, - 1",
            "running, 0 1, 1 3",
            "goal",
        ],
    ),
    (
        Agent,
        &["r"],
        &["g", "h"],
        Some("G(h -> N r)"),
        "F(g <-> r) & G !(g & h)",
        &[
            "running, 000 1, 001 0, 010 1, 011 2, 100 0, 101 1, 11- 3",
            "goal",
            "running, 000 illegal, 001 0, 010 illegal, 011 2, 100 illegal, 101 1, 110 illegal, 111 3",
            "running, -00 illegal, -01 4, -10 illegal, -11 3",
            "running, -0- 4, -1- 3",
        ],
    ),
    // An arbiter: a request stays until it is granted, and is made once.
    (
        Environment,
        &["r1", "r2"],
        &["g1", "g2"],
        Some(
            "G(r1 & !g1 -> N r1) & G(r1 & g1 -> N G !r1) & G(r2 & !g2 -> N r2) & G(r2 & g2 -> N G !r2)",
        ),
        "G !(g1 & g2) & G(r1 -> F g1) & G(r2 -> F g2)",
        &[
            "running, 000- 1, 0010 1, 0011 2, 0100 3, 0101 1, 0110 3, 0111 4, 100- 5, 1010 1, 1011 6, 1100 7, 1101 8, 1110 9, 1111 10",
            "goal",
            "running, 00-- 2, 01-0 11, 01-1 4, 100- 12, 101- 6, 1100 13, 1101 14, 1110 15, 1111 10",
            "running, 00-- illegal, 0100 3, 0101 1, 0110 3, 0111 4, 10-- illegal, 1100 7, 1101 8, 1110 9, 1111 10",
            "running, 00-- 4, 01-- illegal, 100- 14, 101- 10, 11-- illegal",
            "running, 0--- illegal, 100- 5, 1010 1, 1011 6, 1100 7, 1101 8, 1110 9, 1111 10",
            "running, 00-- 6, 01-0 15, 01-1 10, 1--- illegal",
            "running, 0--- illegal, 10-- illegal, 1100 7, 1101 8, 1110 9, 1111 10",
            "running, 0--- illegal, 100- 8, 1010 1, 1011 10, 11-- illegal",
            "running, 00-- illegal, 0100 9, 0101 1, 0110 9, 0111 10, 1--- illegal",
            "running, 00-- 10, 01-- illegal, 1--- illegal",
            "running, 00-- illegal, 01-0 11, 01-1 4, 10-- illegal, 1100 13, 1101 14, 1110 15, 1111 10",
            "running, 0--- illegal, 100- 12, 101- 6, 1100 13, 1101 14, 1110 15, 1111 10",
            "running, 0--- illegal, 10-- illegal, 1100 13, 1101 14, 1110 15, 1111 10",
            "running, 0--- illegal, 100- 14, 101- 10, 11-- illegal",
            "running, 00-- illegal, 01-0 15, 01-1 10, 1--- illegal",
        ],
    ),
];

#[test]
fn players_may_have_any_number_of_propositions(rt: HostRuntime) -> Result<(), Fail> {
    for (first, inputs, outputs, assumed, goal, lines) in PARTITIONED {
        let specification = Specification {
            inputs,
            outputs,
            assumed,
            ..with_goal(first, goal)
        };
        let built = is_built(rt.alloc(), &specification, Wanted::Arena(lines))?;
        assert!(rt; built, "{goal}");
    }
    Ok(())
}

// The same in LDLf over one input and one output.
const PATHS: [(Mover, &str, &str, &[&str]); 3] = [
    (
        Environment,
        "[true*](r -> <true?>true)",
        "<({r}; g)*>(g & [true]last)",
        &[
            "running, 00 1, 01 2, 10 3, 11 2",
            "running, -- 1",
            "running, -- 4",
            "running, -0 1, -1 0",
            "goal",
        ],
    ),
    (
        Agent,
        "<true*>r | end",
        "<(true; true)*> end & <true*> g",
        &[
            "running, 00 illegal, 01 1, 10 illegal, 11 2",
            "running, 0- 3, 1- 4",
            "running, -- 4",
            "running, 0- 1, 1- 2",
            "goal",
        ],
    ),
    (
        Agent,
        "[true*; g] (end | r)",
        "<(true; true)*> end & <true*> g",
        &[
            "running, 0- 1, 1- 2",
            "running, 0- 0, 1- 3",
            "running, -0 illegal, -1 3",
            "goal",
        ],
    ),
];

#[test]
fn formulas_may_be_of_paths(rt: HostRuntime) -> Result<(), Fail> {
    for (first, assumed, goal, lines) in PATHS {
        let specification = Specification {
            dialect: Dialect::Ldlf,
            assumed: Some(assumed),
            ..with_goal(first, goal)
        };
        let built = is_built(rt.alloc(), &specification, Wanted::Arena(lines))?;
        assert!(rt; built, "{assumed}, {goal}");
    }
    Ok(())
}
