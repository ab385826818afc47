//! Small specifications, and what is to be found at the locations of their arenas.

use forms::Mover;

/// A specification: who moves first, how many of the inputs `r`, `s` and of the outputs `g`, `h` there are, and the formulas.
pub(crate) struct Game {
    pub(crate) first: Mover,
    pub(crate) inputs: u32,
    pub(crate) outputs: u32,
    pub(crate) goal: &'static str,
    pub(crate) assume: Option<&'static str>,
    pub(crate) duty: Option<&'static str>,
}

/// A letter, and the environment's answer to what it is shown of it.
pub(crate) type Answer = (u64, u32);

/// What is to be found at a location: that the agent wins, that it can hope, or that the goal is out of reach, with a duty that
/// it can keep or that the environment can break. Where the agent doesn't win, the environment has answers.
#[derive(Clone, Copy)]
pub(crate) enum Found {
    Won {
        rank: u32,
        distance: u32,
    },
    Hoped {
        distance: u32,
        answers: &'static [Answer],
    },
    Held {
        answers: &'static [Answer],
    },
    Lost {
        rounds: u32,
        answers: &'static [Answer],
    },
}

/// A specification and what is to be found at each location of its arena.
pub(crate) struct Case {
    pub(crate) name: &'static str,
    pub(crate) game: Game,
    pub(crate) found: &'static [Found],
}

/// The case in which the hope of a decision is the number of locations.
pub(crate) const TWO_LOCATIONS: Case = Case {
    name: "two locations, and a decision with their number",
    game: Game {
        first: Mover::Environment,
        inputs: 1,
        outputs: 1,
        goal: "F (g & r)",
        assume: None,
        duty: None,
    },
    found: &[
        Found::Hoped {
            distance: 1,
            answers: &[(0, 0)],
        },
        Found::Won {
            rank: 0,
            distance: 0,
        },
    ],
};

pub(crate) const CASES: [Case; 10] = [
    TWO_LOCATIONS,
    Case {
        name: "a request that is promised",
        game: Game {
            first: Mover::Environment,
            inputs: 1,
            outputs: 1,
            goal: "F (g & r)",
            assume: Some("F r"),
            duty: None,
        },
        found: &[
            Found::Won {
                rank: 1,
                distance: 1,
            },
            Found::Hoped {
                distance: 1,
                answers: &[(0, 0)],
            },
            Found::Won {
                rank: 0,
                distance: 0,
            },
        ],
    },
    Case {
        name: "a request after the grant",
        game: Game {
            first: Mover::Agent,
            inputs: 1,
            outputs: 1,
            goal: "F (g & r)",
            assume: Some("F r"),
            duty: None,
        },
        found: &[
            Found::Won {
                rank: 1,
                distance: 1,
            },
            Found::Hoped {
                distance: 1,
                answers: &[(0, 0), (2, 0)],
            },
            Found::Won {
                rank: 0,
                distance: 0,
            },
        ],
    },
    Case {
        name: "three rounds first",
        game: Game {
            first: Mover::Environment,
            inputs: 1,
            outputs: 1,
            goal: "X X X g",
            assume: None,
            duty: None,
        },
        found: &[
            Found::Won {
                rank: 4,
                distance: 4,
            },
            Found::Won {
                rank: 3,
                distance: 3,
            },
            Found::Won {
                rank: 2,
                distance: 2,
            },
            Found::Won {
                rank: 1,
                distance: 1,
            },
            Found::Held { answers: &[(0, 0)] },
            Found::Won {
                rank: 0,
                distance: 0,
            },
        ],
    },
    Case {
        name: "an answer that is not the least input",
        game: Game {
            first: Mover::Environment,
            inputs: 1,
            outputs: 1,
            goal: "G !r & F g",
            assume: None,
            duty: None,
        },
        found: &[
            Found::Hoped {
                distance: 1,
                answers: &[(0, 1)],
            },
            Found::Won {
                rank: 0,
                distance: 0,
            },
            Found::Held { answers: &[(0, 0)] },
        ],
    },
    Case {
        name: "two requests",
        game: Game {
            first: Mover::Agent,
            inputs: 2,
            outputs: 1,
            goal: "(!s U (g & X r))",
            assume: Some("G !(r & s)"),
            duty: Some("G (s -> N g)"),
        },
        found: &[
            Found::Hoped {
                distance: 2,
                answers: &[(0, 0), (4, 0)],
            },
            Found::Held {
                answers: &[(0, 0), (4, 0)],
            },
            Found::Hoped {
                distance: 1,
                answers: &[(0, 0), (4, 0)],
            },
            Found::Hoped {
                distance: 1,
                answers: &[(0, 0), (4, 0)],
            },
            Found::Lost {
                rounds: 0,
                answers: &[(0, 0), (4, 0)],
            },
            Found::Held {
                answers: &[(0, 0), (4, 0)],
            },
            Found::Won {
                rank: 0,
                distance: 0,
            },
        ],
    },
    Case {
        name: "a duty that is lost in three rounds",
        game: Game {
            first: Mover::Agent,
            inputs: 1,
            outputs: 1,
            goal: "false",
            assume: None,
            duty: Some("N N !r"),
        },
        found: &[
            Found::Lost {
                rounds: 3,
                answers: &[(0, 0), (2, 0)],
            },
            Found::Lost {
                rounds: 2,
                answers: &[(0, 0), (2, 0)],
            },
            Found::Lost {
                rounds: 1,
                answers: &[(0, 0), (2, 0)],
            },
            Found::Held {
                answers: &[(0, 0), (2, 0)],
            },
            Found::Lost {
                rounds: 0,
                answers: &[(0, 0), (2, 0)],
            },
        ],
    },
    Case {
        name: "a duty that is lost by some decision",
        game: Game {
            first: Mover::Environment,
            inputs: 1,
            outputs: 1,
            goal: "r & X false",
            assume: None,
            duty: Some("N (g <-> N r)"),
        },
        found: &[
            Found::Lost {
                rounds: 3,
                answers: &[(0, 0)],
            },
            Found::Lost {
                rounds: 2,
                answers: &[(0, 0)],
            },
            Found::Lost {
                rounds: 0,
                answers: &[(0, 0)],
            },
            Found::Lost {
                rounds: 1,
                answers: &[(0, 0)],
            },
            Found::Held { answers: &[(0, 0)] },
        ],
    },
    Case {
        name: "a location with a broken duty",
        game: Game {
            first: Mover::Environment,
            inputs: 2,
            outputs: 2,
            goal: "G (r -> g) & F (s & h)",
            assume: Some("G !(r & s)"),
            duty: Some("G (g -> N h)"),
        },
        found: &[
            Found::Hoped {
                distance: 1,
                answers: &[(0, 0)],
            },
            Found::Hoped {
                distance: 1,
                answers: &[(0, 0)],
            },
            Found::Won {
                rank: 0,
                distance: 0,
            },
            Found::Held { answers: &[(0, 0)] },
            Found::Lost {
                rounds: 0,
                answers: &[(0, 0)],
            },
            Found::Held { answers: &[(0, 0)] },
        ],
    },
    Case {
        name: "answers to two outputs",
        game: Game {
            first: Mover::Agent,
            inputs: 1,
            outputs: 2,
            goal: "F (g & X (r & h))",
            assume: Some("F r"),
            duty: Some("G !(g & h)"),
        },
        found: &[
            Found::Hoped {
                distance: 2,
                answers: &[(0, 1), (2, 1), (4, 1), (6, 1)],
            },
            Found::Hoped {
                distance: 2,
                answers: &[(0, 0), (2, 0), (4, 0), (6, 0)],
            },
            Found::Hoped {
                distance: 1,
                answers: &[(0, 0), (2, 0), (4, 0), (6, 0)],
            },
            Found::Lost {
                rounds: 0,
                answers: &[(0, 0), (2, 0), (4, 0), (6, 0)],
            },
            Found::Won {
                rank: 0,
                distance: 0,
            },
        ],
    },
];
