//! Strategies of small specifications, against the texts of a reference solver.
use crate::specifications::{Specification, text_of};
use forms::Mover;
use std::test::Fail;
use synthesis::ArenaFault;

const ROWS: [(Specification, &str); 11] = [
    // The goal is forced.
    (
        Specification {
            first: Mover::Agent,
            names: &["g", "r"],
            inputs: 1,
            assume: None,
            goal: "F g",
            duty: None,
            empty: false,
        },
        "strategy 1\nverdict realisable 1\nfirst agent\ninputs r\noutputs g\nlocations 2\nlocation 0 win 1\nround 0- 0\nround 1- 1\nmove . win 1 1\nlocation 1 goal\nend\n",
    ),
    // The goal is left open.
    (
        Specification {
            first: Mover::Agent,
            names: &["g", "r"],
            inputs: 1,
            assume: None,
            goal: "F(g <-> r)",
            duty: None,
            empty: false,
        },
        "strategy 1\nverdict unrealisable\nfirst agent\ninputs r\noutputs g\nlocations 2\nlocation 0 open 1\nround 00 1\nround 01 0\nround 10 0\nround 11 1\nmove . open 1 0\nanswer 0 1\nanswer 1 0\nlocation 1 goal\nend\n",
    ),
    // The same where the environment moves first.
    (
        Specification {
            first: Mover::Environment,
            names: &["r", "g"],
            inputs: 1,
            assume: None,
            goal: "F(g <-> r)",
            duty: None,
            empty: false,
        },
        "strategy 1\nverdict realisable 1\nfirst environment\ninputs r\noutputs g\nlocations 2\nlocation 0 win 1\nround 00 1\nround 01 0\nround 10 0\nround 11 1\nmove 0 win 1 0\nmove 1 win 1 1\nlocation 1 goal\nend\n",
    ),
    // Locations of each kind.
    (
        Specification {
            first: Mover::Agent,
            names: &["g", "r"],
            inputs: 1,
            assume: None,
            goal: "(r -> X g) & (!r -> X r)",
            duty: None,
            empty: false,
        },
        "strategy 1\nverdict unrealisable\nfirst agent\ninputs r\noutputs g\nlocations 5\nlocation 0 open 2\nround -0 1\nround -1 2\nmove . open 2 0\nanswer - 0\nlocation 1 open 1\nround -0 3\nround -1 4\nmove . open 1 0\nanswer - 0\nlocation 2 win 1\nround 0- 3\nround 1- 4\nmove . win 1 1\nlocation 3 lost\nround -- 3\nmove . lost 0\nanswer - 0\nlocation 4 goal\nend\n",
    ),
    // Rounds that break what is assumed are illegal.
    (
        Specification {
            first: Mover::Agent,
            names: &["g", "r"],
            inputs: 1,
            assume: Some("r"),
            goal: "r",
            duty: None,
            empty: false,
        },
        "strategy 1\nverdict realisable 1\nfirst agent\ninputs r\noutputs g\nlocations 2\nlocation 0 win 1\nround -0 illegal\nround -1 1\nmove . win 1 0\nlocation 1 goal\nend\n",
    ),
    // There is no input.
    (
        Specification {
            first: Mover::Agent,
            names: &["g"],
            inputs: 0,
            assume: None,
            goal: "X g",
            duty: None,
            empty: false,
        },
        "strategy 1\nverdict realisable 2\nfirst agent\ninputs\noutputs g\nlocations 4\nlocation 0 win 2\nround - 1\nmove . win 2 0\nlocation 1 win 1\nround 0 2\nround 1 3\nmove . win 1 1\nlocation 2 lost\nround - 2\nmove . lost 0\nanswer - .\nlocation 3 goal\nend\n",
    ),
    // Inputs that break what is assumed are illegal.
    (
        Specification {
            first: Mover::Environment,
            names: &["r", "g"],
            inputs: 1,
            assume: Some("r"),
            goal: "g",
            duty: None,
            empty: false,
        },
        "strategy 1\nverdict realisable 1\nfirst environment\ninputs r\noutputs g\nlocations 3\nlocation 0 win 1\nround 0- illegal\nround 10 1\nround 11 2\nmove 0 illegal\nmove 1 win 1 1\nlocation 1 lost\nround -- 1\nmove - lost 0\nanswer . 0\nlocation 2 goal\nend\n",
    ),
    // The empty history meets the goal.
    (
        Specification {
            first: Mover::Agent,
            names: &["g", "r"],
            inputs: 1,
            assume: None,
            goal: "G g",
            duty: None,
            empty: true,
        },
        "strategy 1\nverdict realisable 0\nfirst agent\ninputs r\noutputs g\nlocations 1\nlocation 0 goal\nend\n",
    ),
    // Goals joined.
    (
        Specification {
            first: Mover::Agent,
            names: &["g", "r"],
            inputs: 1,
            assume: None,
            goal: "(F g) & (F r)",
            duty: None,
            empty: false,
        },
        "strategy 1\nverdict unrealisable\nfirst agent\ninputs r\noutputs g\nlocations 4\nlocation 0 open 1\nround 00 0\nround 01 1\nround 10 2\nround 11 3\nmove . open 1 1\nanswer - 0\nlocation 1 win 1\nround 0- 1\nround 1- 3\nmove . win 1 1\nlocation 2 open 1\nround -0 2\nround -1 3\nmove . open 1 0\nanswer - 0\nlocation 3 goal\nend\n",
    ),
    // The duty is kept.
    (
        Specification {
            first: Mover::Agent,
            names: &["g", "r"],
            inputs: 1,
            assume: None,
            goal: "false",
            duty: Some("G g"),
            empty: false,
        },
        "strategy 2\nverdict unrealisable\nfirst agent\ninputs r\noutputs g\nlocations 2\nlocation 0 held\nround 0- 1\nround 1- 0\nmove . held 1\nanswer - 0\nlocation 1 lost 0\nround -- 1\nmove . lost 1 0\nanswer - 0\nend\n",
    ),
    // The duty is broken on the way.
    (
        Specification {
            first: Mover::Agent,
            names: &["g", "r"],
            inputs: 1,
            assume: None,
            goal: "F g",
            duty: Some("G(g -> r)"),
            empty: false,
        },
        "strategy 2\nverdict unrealisable\nfirst agent\ninputs r\noutputs g\nlocations 3\nlocation 0 open 1\nround 0- 0\nround 10 1\nround 11 2\nmove . open 1 1\nanswer - 0\nlocation 1 lost 0\nround -- 1\nmove . lost 1 0\nanswer - 0\nlocation 2 goal\nend\n",
    ),
];

#[test]
fn each_specification_has_its_strategy(rt: HostRuntime) -> Result<(), Fail> {
    for (specification, text) in ROWS {
        match text_of(rt.alloc(), &specification) {
            Ok(made) => assert_eq!(rt; made.bytes(), text.as_bytes(), "{}", specification.goal),
            Err(_) => assert!(rt; false, "{}", specification.goal),
        }
    }
    Ok(())
}

// Whatever the environment does, the agent can play so that what is assumed fails in the first round.
const UNKEEPABLE: Specification = Specification {
    first: Mover::Agent,
    names: &["g", "r"],
    inputs: 1,
    assume: Some("g"),
    goal: "F g",
    duty: None,
    empty: false,
};

#[test]
fn what_cannot_be_kept_has_no_strategy(rt: HostRuntime) -> Result<(), Fail> {
    match text_of(rt.alloc(), &UNKEEPABLE) {
        Err(ArenaFault::Unkeepable { rounds }) => assert_eq!(rt; rounds, 1),
        _ => assert!(rt; false, "a strategy"),
    }
    Ok(())
}
