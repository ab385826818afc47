//! The command `synth` on small files, against a reference solver.
use crate::rows::{Row, agrees};
use std::test::Fail;

const ROWS: [Row; 32] = [
    Row {
        specification: "inputs\noutputs a\nfirst agent\ngoal a | !a\nlimit 2\n",
        output: "",
        message: "bes: goal part 1 has 3 locations, the limit is 2\n",
        status: 5,
    },
    Row {
        specification: "inputs r\noutputs g\nfirst agent\ngoal F g\n",
        output: "strategy 1\nverdict realisable 1\nfirst agent\ninputs r\noutputs g\nlocations 2\nlocation 0 win 1\nround 0- 0\nround 1- 1\nmove . win 1 1\nlocation 1 goal\nend\n",
        message: "",
        status: 0,
    },
    Row {
        specification: "inputs r\noutputs g\nfirst agent\ngoal F(g <-> r)\n",
        output: "strategy 1\nverdict unrealisable\nfirst agent\ninputs r\noutputs g\nlocations 2\nlocation 0 open 1\nround 00 1\nround 01 0\nround 10 0\nround 11 1\nmove . open 1 0\nanswer 0 1\nanswer 1 0\nlocation 1 goal\nend\n",
        message: "",
        status: 1,
    },
    Row {
        specification: "inputs r\noutputs g\nfirst environment\ngoal F(g <-> r)\n",
        output: "strategy 1\nverdict realisable 1\nfirst environment\ninputs r\noutputs g\nlocations 2\nlocation 0 win 1\nround 00 1\nround 01 0\nround 10 0\nround 11 1\nmove 0 win 1 0\nmove 1 win 1 1\nlocation 1 goal\nend\n",
        message: "",
        status: 0,
    },
    Row {
        specification: "inputs r\noutputs g\nfirst agent\ngoal (r -> X g) & (!r -> X r)\n",
        output: "strategy 1\nverdict unrealisable\nfirst agent\ninputs r\noutputs g\nlocations 5\nlocation 0 open 2\nround -0 1\nround -1 2\nmove . open 2 0\nanswer - 0\nlocation 1 open 1\nround -0 3\nround -1 4\nmove . open 1 0\nanswer - 0\nlocation 2 win 1\nround 0- 3\nround 1- 4\nmove . win 1 1\nlocation 3 lost\nround -- 3\nmove . lost 0\nanswer - 0\nlocation 4 goal\nend\n",
        message: "",
        status: 1,
    },
    Row {
        specification: "inputs r\noutputs g\nfirst agent\nassume g\ngoal F g\n",
        output: "",
        message: "bes: the assumption can be broken within 1 rounds\n",
        status: 6,
    },
    Row {
        specification: "inputs r\noutputs g\nfirst agent\nassume r\ngoal r\n",
        output: "strategy 1\nverdict realisable 1\nfirst agent\ninputs r\noutputs g\nlocations 2\nlocation 0 win 1\nround -0 illegal\nround -1 1\nmove . win 1 0\nlocation 1 goal\nend\n",
        message: "",
        status: 0,
    },
    Row {
        specification: "inputs\noutputs g\nfirst agent\ngoal X g\n",
        output: "strategy 1\nverdict realisable 2\nfirst agent\ninputs\noutputs g\nlocations 4\nlocation 0 win 2\nround - 1\nmove . win 2 0\nlocation 1 win 1\nround 0 2\nround 1 3\nmove . win 1 1\nlocation 2 lost\nround - 2\nmove . lost 0\nanswer - .\nlocation 3 goal\nend\n",
        message: "",
        status: 0,
    },
    Row {
        specification: "inputs r\noutputs g\nfirst environment\nassume r\ngoal g\n",
        output: "strategy 1\nverdict realisable 1\nfirst environment\ninputs r\noutputs g\nlocations 3\nlocation 0 win 1\nround 0- illegal\nround 10 1\nround 11 2\nmove 0 illegal\nmove 1 win 1 1\nlocation 1 lost\nround -- 1\nmove - lost 0\nanswer . 0\nlocation 2 goal\nend\n",
        message: "",
        status: 0,
    },
    Row {
        specification: "inputs r\noutputs r\nfirst agent\ngoal F g\n",
        output: "",
        message: "bes: specification line 2: name given twice\n",
        status: 3,
    },
    Row {
        specification: "inputs r\noutputs g\nfirst agent\n",
        output: "",
        message: "bes: specification: missing goal\n",
        status: 3,
    },
    Row {
        specification: "inputs r\noutputs g\nfirst agent\ngoal F x\n",
        output: "",
        message: "bes: specification line 4: undeclared name at 8\n",
        status: 3,
    },
    Row {
        specification: "inputs r\noutputs g\nfirst both\ngoal F g\n",
        output: "",
        message: "bes: specification line 3: bad value\n",
        status: 3,
    },
    Row {
        specification: "version 2\ninputs r\noutputs g\nfirst agent\ngoal G g\nempty yes\n",
        output: "strategy 1\nverdict realisable 0\nfirst agent\ninputs r\noutputs g\nlocations 1\nlocation 0 goal\nend\n",
        message: "",
        status: 0,
    },
    Row {
        specification: "version 2\ninputs r\noutputs g\nfirst agent\ngoal F g\ngoal F r\n",
        output: "strategy 1\nverdict unrealisable\nfirst agent\ninputs r\noutputs g\nlocations 4\nlocation 0 open 1\nround 00 0\nround 01 1\nround 10 2\nround 11 3\nmove . open 1 1\nanswer - 0\nlocation 1 win 1\nround 0- 1\nround 1- 3\nmove . win 1 1\nlocation 2 open 1\nround -0 2\nround -1 3\nmove . open 1 0\nanswer - 0\nlocation 3 goal\nend\n",
        message: "",
        status: 1,
    },
    Row {
        specification: "inputs r\noutputs g\nfirst agent\ngoal F g\nlimit 2000\n",
        output: "",
        message: "bes: specification line 5: bad value\n",
        status: 3,
    },
    Row {
        specification: "version 2\ninputs r\noutputs g\nfirst agent\ngoal F g\nlimit 2000\n",
        output: "strategy 1\nverdict realisable 1\nfirst agent\ninputs r\noutputs g\nlocations 2\nlocation 0 win 1\nround 0- 0\nround 1- 1\nmove . win 1 1\nlocation 1 goal\nend\n",
        message: "",
        status: 0,
    },
    Row {
        specification: "version 2\ninputs r\noutputs g\nfirst agent\ngoal false\nduty G g\n",
        output: "strategy 2\nverdict unrealisable\nfirst agent\ninputs r\noutputs g\nlocations 2\nlocation 0 held\nround 0- 1\nround 1- 0\nmove . held 1\nanswer - 0\nlocation 1 lost 0\nround -- 1\nmove . lost 1 0\nanswer - 0\nend\n",
        message: "",
        status: 1,
    },
    Row {
        specification: "version 2\ninputs r\noutputs g\nfirst agent\ngoal F g\nduty G(g -> r)\n",
        output: "strategy 2\nverdict unrealisable\nfirst agent\ninputs r\noutputs g\nlocations 3\nlocation 0 open 1\nround 0- 0\nround 10 1\nround 11 2\nmove . open 1 1\nanswer - 0\nlocation 1 lost 0\nround -- 1\nmove . lost 1 0\nanswer - 0\nlocation 2 goal\nend\n",
        message: "",
        status: 1,
    },
    Row {
        specification: "inputs\noutputs\nfirst agent\ngoal X true\n",
        output: "strategy 1\nverdict realisable 2\nfirst agent\ninputs\noutputs\nlocations 3\nlocation 0 win 2\nround . 1\nmove . win 2 .\nlocation 1 win 1\nround . 2\nmove . win 1 .\nlocation 2 goal\nend\n",
        message: "",
        status: 0,
    },
    Row {
        specification: "inputs\noutputs g\nfirst environment\ngoal X g & !X X true | false\n",
        output: "strategy 1\nverdict realisable 2\nfirst environment\ninputs\noutputs g\nlocations 4\nlocation 0 win 2\nround - 1\nmove . win 2 0\nlocation 1 win 1\nround 0 2\nround 1 3\nmove . win 1 1\nlocation 2 lost\nround - 2\nmove . lost 0\nanswer . .\nlocation 3 goal\nend\n",
        message: "",
        status: 0,
    },
    Row {
        specification: "inputs r\noutputs g\nfirst agent\ngoal g\r\n",
        output: "strategy 1\nverdict realisable 1\nfirst agent\ninputs r\noutputs g\nlocations 3\nlocation 0 win 1\nround 0- 1\nround 1- 2\nmove . win 1 1\nlocation 1 lost\nround -- 1\nmove . lost 0\nanswer - 0\nlocation 2 goal\nend\n",
        message: "",
        status: 0,
    },
    Row {
        specification: "inputs r\noutputs g\nfirst agent\ngoal g\r",
        output: "",
        message: "bes: specification line 4: bad byte at 7\n",
        status: 3,
    },
    Row {
        specification: "inputs r\noutputs\nfirst environment\ngoal r & X r\n",
        output: "strategy 1\nverdict unrealisable\nfirst environment\ninputs r\noutputs\nlocations 4\nlocation 0 open 2\nround 0 1\nround 1 2\nmove 0 lost .\nmove 1 open 2 .\nanswer . 0\nlocation 1 lost\nround - 1\nmove - lost .\nanswer . 0\nlocation 2 open 1\nround 0 1\nround 1 3\nmove 0 lost .\nmove 1 win 1 .\nanswer . 0\nlocation 3 goal\nend\n",
        message: "",
        status: 1,
    },
    Row {
        specification: "inputs r\noutputs g\nfirst environment\nassume N !g\ngoal false\n",
        output: "",
        message: "bes: the assumption can be broken within 2 rounds\n",
        status: 6,
    },
    Row {
        specification: "version 2\ninputs r\noutputs g\nfirst agent\nassume g\ngoal G g\nempty yes\n",
        output: "",
        message: "bes: the assumption can be broken within 1 rounds\n",
        status: 6,
    },
    Row {
        specification: "version 2\ninputs r\noutputs g\nfirst environment\nassume r\ngoal N g\nempty yes\n",
        output: "strategy 1\nverdict realisable 0\nfirst environment\ninputs r\noutputs g\nlocations 1\nlocation 0 goal\nend\n",
        message: "",
        status: 0,
    },
    Row {
        specification: "version 2\ninputs r\noutputs g\nfirst agent\ngoal g\ngoal F r\nlimit 2\n",
        output: "",
        message: "bes: goal part 1 has 3 locations, the limit is 2\n",
        status: 5,
    },
    Row {
        specification: "version 2\ninputs r\noutputs g\nfirst agent\ngoal true\nduty g\nlimit 2\n",
        output: "",
        message: "bes: duty part 1 has 3 locations, the limit is 2\n",
        status: 5,
    },
    Row {
        specification: "version 2\ninputs r\noutputs\nfirst environment\ngoal r & X r\nduty false\n",
        output: "strategy 2\nverdict unrealisable\nfirst environment\ninputs r\noutputs\nlocations 2\nlocation 0 lost 1\nround - 1\nmove - lost 1 .\nanswer . 0\nlocation 1 lost 0\nround - 1\nmove - lost 1 .\nanswer . 0\nend\n",
        message: "",
        status: 1,
    },
    Row {
        specification: "version 2\ninputs r\noutputs g\nfirst agent\ngoal false\nduty G(g | N !r)\n",
        output: "strategy 2\nverdict unrealisable\nfirst agent\ninputs r\noutputs g\nlocations 3\nlocation 0 held\nround 0- 1\nround 1- 0\nmove . held 1\nanswer - 0\nlocation 1 lost 1\nround 00 1\nround 01 2\nround 10 0\nround 11 2\nmove . lost 1 0\nanswer - 0\nlocation 2 lost 0\nround -- 2\nmove . lost 1 0\nanswer - 0\nend\n",
        message: "",
        status: 1,
    },
    Row {
        specification: "version 2\ninputs r\noutputs g\nfirst environment\ngoal false\nassume G(r -> N r)\nduty G(r -> N g) & G(g -> N !r)\n",
        output: "strategy 2\nverdict unrealisable\nfirst environment\ninputs r\noutputs g\nlocations 5\nlocation 0 lost 3\nround 00 0\nround 01 1\nround 10 2\nround 11 3\nmove 0 lost 4 0\nmove 1 lost 3 0\nanswer . 0\nlocation 1 lost 1\nround 00 0\nround 01 1\nround 1- 4\nmove 0 lost 4 0\nmove 1 lost 1 0\nanswer . 0\nlocation 2 lost 2\nround 0- illegal\nround 10 4\nround 11 3\nmove 0 illegal\nmove 1 lost 2 0\nanswer . 1\nlocation 3 lost 1\nround 0- illegal\nround 1- 4\nmove 0 illegal\nmove 1 lost 1 0\nanswer . 1\nlocation 4 lost 0\nround 0- illegal\nround 1- 4\nmove 0 illegal\nmove 1 lost 1 0\nanswer . 1\nend\n",
        message: "",
        status: 1,
    },
];

#[test]
fn each_file_is_answered(rt: HostRuntime) -> Result<(), Fail> {
    for row in ROWS {
        assert!(rt; agrees(rt.alloc(), b"spec", &row)?, "{}", row.specification);
    }
    Ok(())
}

const MISSING: Row = Row {
    specification: "",
    output: "",
    message: "bes: outside fault\n",
    status: 7,
};

#[test]
fn a_missing_file_is_a_fault(rt: HostRuntime) -> Result<(), Fail> {
    assert!(rt; agrees(rt.alloc(), b"nofile", &MISSING)?, "missing");
    Ok(())
}
