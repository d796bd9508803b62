//! Whole texts, and settings of an application.
use crate::tables::{APP, LINK, OK, RULE, SCENE, TEXT, Table};
use crate::texts::{SLOW, SPIKES, TWO_NETWORKS};

/// The stop, defaults, and what a section hides.
pub const WHOLE_TEXTS: Table<'static> = Table {
    text: "?",
    rows: &[
        (SPIKES, OK, "2|1"),
        (SLOW, OK, "2|1"),
        (TWO_NETWORKS, OK, "5|6"),
        // an empty text is right, and has no stop
        ("", SCENE, "StopMissing"),
        // no section is needed
        ("stoptime=0", OK, "0|0"),
        ("stoptime=soon", SCENE, "StopText"),
        // 10^15 ns, and one more
        ("stoptime=1000000", OK, "0|0"),
        ("stoptime=1000000.000000001", SCENE, "StopText"),
        // a stop in a section is none of the scene
        (
            "[a]\nstoptime=1\nbinary=script\ntimestep=1\n",
            SCENE,
            "StopMissing",
        ),
        // `binary` is absent
        ("stoptime=1\ntimestep=1\n[a]\n", APP, "a|Binary"),
        // `timestep` is absent
        ("stoptime=1\nbinary=script\n[a]\n", APP, "a|TickText"),
        // `a` hides the faulty default, `b` does not
        (
            "stoptime=1\nnp=0\nbinary=script\ntimestep=1\n[a]\nnp=2\n[b]\n",
            APP,
            "b|NpText",
        ),
        // the text before the stop
        ("stoptime=x\n[a\n", TEXT, "2|BadLine"),
        // the text before all
        ("[a]\nnp=0\na.b -> c.d [0]\n", TEXT, "3|BadWidth"),
        // the stop before applications and links
        ("stoptime=x\n[a]\nnp=0\na.b -> c.d\n", SCENE, "StopText"),
    ],
};

/// The rule of the source and its settings.
pub const SOURCES: Table<'static> = Table {
    text: "stoptime=?
[gen]
np=1
binary=?
timestep=?
ports=out event spikes 0+10
args=?
[sink]
np=1
binary=script
timestep=0.001
ports=in event in 0+10
gen.spikes -> sink.in [10]
",
    rows: &[
        (
            "0.003|script|0.001|emit spikes 10 at 0",
            APP,
            "gen|rule 1: RuleIndex",
        ),
        (
            "0.003|script|0.001|emit nope 3 at 0",
            APP,
            "gen|rule 1: RulePort",
        ),
        (
            "0.003|script|0.001|emit spikes 3 every 0 from 0",
            APP,
            "gen|rule 1: RuleRate",
        ),
        (
            "0.003|script|0.001|emit spikes",
            APP,
            "gen|rule 1: RuleText",
        ),
        (
            "0.003|./sim|0.001|emit spikes 3 every 0.001 from 0.0005",
            APP,
            "gen|Binary",
        ),
        (
            "0.003|script|0|emit spikes 3 every 0.001 from 0.0005",
            APP,
            "gen|TickText",
        ),
        // 10,000,000 steps
        (
            "1|script|0.0000001|emit spikes 3 every 0.001 from 0.0005",
            APP,
            "gen|TooManySteps",
        ),
        (
            "0.003|script|0.001\nstart=x|emit spikes 3 every 0.001 from 0.0005",
            APP,
            "gen|StartText",
        ),
        (
            "0.003|script|0.001\nstart=0.0005|emit spikes 3 every 0.001 from 0.0005",
            OK,
            "2|1",
        ),
    ],
};

/// The ports of the sink, and the connection to it.
pub const SINKS: Table<'static> = Table {
    text: "stoptime=0.003
[gen]
np=1
binary=script
timestep=0.001
ports=out event spikes 0+10
args=emit spikes 3 every 0.001 from 0.0005
[sink]
np=?
binary=script
timestep=0.001
ports=in ?
gen.spikes -> sink.?
",
    rows: &[
        // the kind before the width
        ("1|cont d 0+10|d [5]", LINK, "1|Kind"),
        ("1|event d 0+10|d [5]", LINK, "1|Width"),
        ("1|event in 3,1,3|in [10]", APP, "sink|port 1: MapRepeated"),
        ("2|event in 0+4/2+4|in [10]", OK, "2|1"),
        ("1\nstart=0.001|event in 0+10|in [10]", OK, "2|1"),
        ("1\nstart=0.01|event in 0+10|in [10]", OK, "2|1"),
    ],
};

/// A continuous input, and what it maps.
pub const VALUES: Table<'static> = Table {
    text: "stoptime=0.003
binary=script
[gen]
timestep=0.002
ports=out cont c 0+1
args=ramp c 0 from 0 by -0.000003
[sink]
timestep=0.001
ports=in cont d 0+?
gen.c -> sink.d
",
    rows: &[("1", OK, "2|1"), ("2", LINK, "1|Unmapped")],
};

/// Two faults, of which the first is named.
pub const ORDERS: Table<'static> = Table {
    text: "stoptime=0.003\nbinary=script\ntimestep=0.001\n?",
    rows: &[
        // the earlier application, though its kind is later
        ("[a]\ntimestep=0\n[b]\nnp=0\n", APP, "a|TickText"),
        // applications before links, wherever they stand
        ("x.y -> z.w\n[a]\nnp=0\n", APP, "a|NpText"),
        // from `np` to the rules
        ("[a]\nbinary=x\nnp=0\n", APP, "a|NpText"),
        ("[a]\ntimestep=0\nbinary=x\n", APP, "a|Binary"),
        ("[a]\nstart=x\ntimestep=0\n", APP, "a|TickText"),
        ("[a]\nstoptime=x\nstart=x\n", APP, "a|StartText"),
        ("[a]\ntimestep=1e-9\nstart=x\n", APP, "a|StartText"),
        ("[a]\ntimestep=1e-9\nstoptime=x\n", APP, "a|EndText"),
        ("[a]\nports=x\nstoptime=x\n", APP, "a|EndText"),
        ("[a]\nports=x\ntimestep=0\n", APP, "a|TickText"),
        ("[a]\nports=x\ntimestep=1e-9\n", APP, "a|TooManySteps"),
        (
            "[a]\nargs=x\nports=in event i 0+1; x\n",
            APP,
            "a|port 2: PortText",
        ),
    ],
};

/// The same, where an application has too many values.
pub const LAST_ORDERS: Table<'static> = Table {
    text: "stoptime=0.000500001\nbinary=script\ntimestep=1e-9\n[a]\nports=out cont c 0+2\n?\n",
    rows: &[
        // its very last kind before those of the next application
        ("[b]\nnp=0", APP, "a|TooManyValues"),
        // rules before values
        ("args=x", APP, "a|rule 1: RuleText"),
    ],
};

/// Settings of an application.
pub const SETTINGS: Table<'static> = Table {
    text: "stoptime=0.003\nbinary=script\ntimestep=0.001\n[a]\n?\n",
    rows: &[
        // the most, and one more
        ("np=64", OK, "1|0"),
        ("np=65", APP, "a|NpText"),
        ("np=0", APP, "a|NpText"),
        // an empty setting hides the default
        ("np=", APP, "a|NpText"),
        ("binary=", APP, "a|Binary"),
        ("binary=./sim", APP, "a|Binary"),
        // 10^12 ns, and one more
        ("timestep=1000", OK, "1|0"),
        ("timestep=1000.000000001", APP, "a|TickText"),
        // less than 1 ns
        ("timestep=0", APP, "a|TickText"),
        // 10^15 ns, and one more
        ("start=1000000", OK, "1|0"),
        ("start=1000000.000000001", APP, "a|StartText"),
        ("timestep=1000\nstoptime=1000000", OK, "1|0"),
        ("stoptime=1000000.000000001", APP, "a|EndText"),
        ("start=x", APP, "a|StartText"),
        ("start=", APP, "a|StartText"),
        ("stoptime=x", APP, "a|EndText"),
        ("stoptime=", APP, "a|EndText"),
    ],
};

/// Starts and stops among the defaults and in sections.
pub const STARTS: Table<'static> = Table {
    text: "?\nbinary=script\ntimestep=0.001\n[a]\n?\n[b]\n?\n",
    rows: &[
        // `a` hides the faulty default, `b` does not
        ("stoptime=0.003\nstart=x|start=0|", APP, "b|StartText"),
        ("stoptime=0.003\nstart=x|start=0|start=0.01", OK, "2|0"),
        // an empty one hides a lawful default
        ("stoptime=0.003\nstart=0.001||start=", APP, "b|StartText"),
        // the stop of the scene, though each section has its own
        ("stoptime=x|stoptime=1|stoptime=1", SCENE, "StopText"),
        ("start=0|stoptime=1|stoptime=1", SCENE, "StopMissing"),
        ("stoptime=0.003|stoptime=1|stoptime=soon", APP, "b|EndText"),
        ("stoptime=0.003|stoptime=0|stoptime=1", OK, "2|0"),
    ],
};

/// Steps and values at their limits.
pub const STEPS: Table<'static> = Table {
    text: "stoptime=?\nbinary=script\ntimestep=?\n[a]\n?\n",
    rows: &[
        // 1,000,000 steps, and one more
        ("0.001|1e-9|", OK, "1|0"),
        ("0.001000001|1e-9|", APP, "a|TooManySteps"),
        // 1,000,000 values
        ("0.001|1e-9|ports=out cont c 0+1", OK, "1|0"),
        // 500,000 steps of 2 values, and one more
        ("0.0005|1e-9|ports=out cont c 0+2", OK, "1|0"),
        (
            "0.000500001|1e-9|ports=out cont c 0+2",
            APP,
            "a|TooManyValues",
        ),
        // inputs count
        (
            "0.000500001|1e-9|ports=in cont d 0+2",
            APP,
            "a|TooManyValues",
        ),
        // an index counts once for each rank
        (
            "0.000500001|1e-9|np=2\nports=in cont d 0+1/0+1",
            APP,
            "a|TooManyValues",
        ),
        // no steps, no values
        ("0|1|ports=out cont c 0+65536", OK, "1|0"),
        // a start after the stop, and equal to it
        (
            "0.001|1e-9|start=0.002\nports=out cont c 0+65536",
            OK,
            "1|0",
        ),
        (
            "0.001|1e-9|start=0.001\nports=out cont c 0+65536",
            OK,
            "1|0",
        ),
        // steps from the start on, the last one begun before the stop
        ("0.001000001|1e-9|start=1e-9", OK, "1|0"),
        ("0.001000002|1e-9|start=1e-9", APP, "a|TooManySteps"),
        (
            "0.016|0.001|start=0.001\nports=out cont c 0+65536",
            OK,
            "1|0",
        ),
        (
            "0.016|0.001|start=0.0005\nports=out cont c 0+65536",
            APP,
            "a|TooManyValues",
        ),
        // a stop of its own, earlier and later
        ("1|1e-9|stoptime=0.001", OK, "1|0"),
        ("0.001|1e-9|stoptime=0.001000001", APP, "a|TooManySteps"),
        ("0|1e-9|stoptime=0.002\nstart=0.001", OK, "1|0"),
        (
            "0|1e-9|stoptime=0.002\nstart=0.000999999",
            APP,
            "a|TooManySteps",
        ),
    ],
};

/// Periods at their limits.
pub const PERIODS: Table<'static> = Table {
    text: "stoptime=?
binary=script
timestep=?
[a]
ports=out event e 0+1; out message m
args=emit e 0 every ? from 0?
",
    rows: &[
        // 1,000,000 ns: 1,000,000 periods
        ("0.001|0.001|1e-9|", OK, "1|0"),
        // 1,000,001 ns: one more
        ("0.001000001|0.001000001|1e-9|", RULE, "1|RuleRate"),
        // one step of 1,000,001 ns
        ("1e-9|0.001000001|1e-9|", RULE, "1|RuleRate"),
        // 0 is refused all the same
        ("0|0.001|0|", RULE, "1|RuleRate"),
        // no step from the start on, and one
        (
            "0.001000001|0.001000001\nstart=0.001000001|1e-9|",
            OK,
            "1|0",
        ),
        (
            "0.001000001|0.001000001\nstart=0.001|1e-9|",
            RULE,
            "1|RuleRate",
        ),
        // two steps until its own stop, and one
        ("0|0.001|1e-9|\nstoptime=0.001000001", RULE, "1|RuleRate"),
        ("1|0.001|1e-9|\nstoptime=0.001", OK, "1|0"),
    ],
};
