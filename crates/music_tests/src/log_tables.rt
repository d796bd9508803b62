//! Texts, and the logs and orders that they get.
use crate::tables::{APP, Answer, CYCLE, SCENE, Table};
use crate::texts::TWO_NETWORKS;

const LOG: Answer<'static> = Answer {
    status: 0,
    text: "clock,app,port,kind,rank,local,global,time,value\n?",
};

const ORDER: Answer<'static> = Answer {
    status: 0,
    text: "?",
};

/// Texts that have nothing to run.
pub const BARE_LOGS: Table<'static> = Table {
    text: "?",
    rows: &[
        ("", SCENE, "StopMissing"),
        ("stoptime=0", LOG, ""),
        ("stoptime=1\nbinary=script\ntimestep=1\n[a]\n", LOG, ""),
    ],
};

/// A source of spikes and a sink: the stop; the source's tick, start and rule; the sink's ranks, tick, start and input;
/// what stands behind the connection's width.
pub const SPIKE_LOGS: Table<'static> = Table {
    text: "stoptime=?
[gen]
np=1
binary=script
timestep=?
start=?
ports=out event spikes 0+10
args=emit spikes ?
[sink]
np=?
binary=script
timestep=?
start=?
ports=in event in ?
gen.spikes -> sink.in [10]?
",
    rows: &[
        (
            "0.003|0.001|0|3 every 0.001 from 0.0005|1|0.001|0|0+10|",
            LOG,
            "0,sink,in,event,0,3,3,500000,
1000000,sink,in,event,0,3,3,1500000,
2000000,sink,in,event,0,3,3,2500000,
",
        ),
        // a tick of the sink is ten of the source
        (
            "0.02|0.001|0|3 every 0.004 from 0.0005|1|0.01|0|0+10|",
            LOG,
            "0,sink,in,event,0,3,3,500000,
0,sink,in,event,0,3,3,4500000,
0,sink,in,event,0,3,3,8500000,
10000000,sink,in,event,0,3,3,12500000,
10000000,sink,in,event,0,3,3,16500000,
",
        ),
        // an index that two ranks map
        (
            "0.001|0.001|0|2 at 0.0005|2|0.001|0|0+4/2+4|",
            LOG,
            "0,sink,in,event,0,2,2,500000,
0,sink,in,event,1,0,2,500000,
",
        ),
        // an index that no rank maps
        (
            "0.003|0.001|0|3 every 0.001 from 0.0005|1|0.001|0|0+2|",
            LOG,
            "",
        ),
        // one ns before a step of the sink, with a latency of 1 ns, stated by the input or by the connection, and without
        (
            "0.002|0.001|0|3 at 0.000999999|1|0.001|0|0+10 latency 0.000000001|",
            LOG,
            "1000000,sink,in,event,0,3,3,999999,
",
        ),
        (
            "0.002|0.001|0|3 at 0.000999999|1|0.001|0|0+10| latency=0.000000001",
            LOG,
            "1000000,sink,in,event,0,3,3,999999,
",
        ),
        (
            "0.002|0.001|0|3 at 0.000999999|1|0.001|0|0+10|",
            LOG,
            "0,sink,in,event,0,3,3,999999,
",
        ),
        // due behind the sink's last step
        (
            "0.002|0.001|0|3 every 0.001 from 0.0005|1|0.001|0|0+10 latency 0.01|",
            LOG,
            "",
        ),
        // two events in one block
        (
            "0.002|0.002|0|3 every 0.001 from 0.0005|1|0.001|0|0+10|",
            LOG,
            "0,sink,in,event,0,3,3,500000,
1000000,sink,in,event,0,3,3,1500000,
",
        ),
        // the sink starts behind the first event, behind the last, or the source a part of a tick late
        (
            "0.003|0.001|0|3 every 0.001 from 0.0005|1|0.001|0.001|0+10|",
            LOG,
            "1000000,sink,in,event,0,3,3,1500000,
2000000,sink,in,event,0,3,3,2500000,
",
        ),
        (
            "0.003|0.001|0|3 every 0.001 from 0.0005|1|0.001|0.01|0+10|",
            LOG,
            "",
        ),
        (
            "0.003|0.001|0.0005|3 every 0.001 from 0.0005|1|0.001|0|0+10|",
            LOG,
            "0,sink,in,event,0,3,3,500000,
1000000,sink,in,event,0,3,3,1500000,
2000000,sink,in,event,0,3,3,2500000,
",
        ),
        ("0.003|0.001|x|3 at 0|1|0.001|0|0+10|", APP, "gen|StartText"),
    ],
};

/// A ramp that is read at half its tick: the stop, the ramp's slope, and the input's options.
pub const VALUE_LOGS: Table<'static> = Table {
    text: "stoptime=?
binary=script
[gen]
timestep=0.002
ports=out cont c 0+1
args=ramp c 0 from 0 by ?
[sink]
timestep=0.001
ports=in cont d 0+1?
gen.c -> sink.d
",
    rows: &[
        // between two samples on the line between them, rounded down
        (
            "0.003|-0.000003|",
            LOG,
            "0,sink,d,cont,0,0,0,,0
1000000,sink,d,cont,0,0,0,,-2
2000000,sink,d,cont,0,0,0,,-3
",
        ),
        // the last sample is held
        (
            "0.004|0.00001|",
            LOG,
            "0,sink,d,cont,0,0,0,,0
1000000,sink,d,cont,0,0,0,,5
2000000,sink,d,cont,0,0,0,,10
3000000,sink,d,cont,0,0,0,,10
",
        ),
        (
            "0.003|-0.000003| hold",
            LOG,
            "0,sink,d,cont,0,0,0,,0
1000000,sink,d,cont,0,0,0,,0
2000000,sink,d,cont,0,0,0,,-3
",
        ),
    ],
};

/// Five applications, with events, values and messages.
pub const NETWORK_LOG: Table<'static> = Table {
    text: "?",
    rows: &[(
        TWO_NETWORKS,
        LOG,
        "0,wave,cmd,message,0,0,0,500000,go
0,watch,level,cont,0,0,0,,0
0,watch,level,cont,0,1,1,,0
1000000,left,in,event,0,0,0,0,
1000000,watch,level,cont,0,0,0,,0
1000000,watch,level,cont,0,1,1,,0
2000000,left,in,event,0,0,0,1000000,
2000000,right,in,event,0,1,1,1200000,
2000000,wave,cmd,message,0,0,0,2500000,go
2000000,watch,level,cont,0,0,0,,0
2000000,watch,level,cont,0,1,1,,500000
2000000,watch,seen,event,0,2,2,2000000,
3000000,left,in,event,0,0,0,2000000,
3000000,left,in,event,1,0,2,2000000,
3000000,watch,level,cont,0,0,0,,500000
3000000,watch,level,cont,0,1,1,,500000
",
    )],
};

/// Two applications that send to each other: the latencies of their inputs.
pub const LOOP_LOGS: Table<'static> = Table {
    text: "stoptime=0.01
binary=script
timestep=0.001
[a]
ports=out event out 0+1; in event in 0+1 latency ?
args=pass in to out shift 0 after 0; emit out 0 at 0.0005
[b]
ports=out event out 0+1; in event in 0+1 latency ?
args=pass in to out shift 0 after 0
a.out -> b.in
b.out -> a.in
",
    rows: &[
        (
            "0|0",
            CYCLE,
            "a waits for b: connection 2, data, allowance 0, burden 0
b waits for a: connection 1, data, allowance 0, burden 0
allowances 0, burdens 0
",
        ),
        // an event goes round: from a at once to b, and a step later from b to a
        (
            "0.001|0",
            LOG,
            "0,b,in,event,0,0,0,500000,
1000000,a,in,event,0,0,0,0,
1000000,b,in,event,0,0,0,1000000,
2000000,a,in,event,0,0,0,1000000,
2000000,b,in,event,0,0,0,2000000,
3000000,a,in,event,0,0,0,2000000,
3000000,b,in,event,0,0,0,3000000,
4000000,a,in,event,0,0,0,3000000,
4000000,b,in,event,0,0,0,4000000,
5000000,a,in,event,0,0,0,4000000,
5000000,b,in,event,0,0,0,5000000,
6000000,a,in,event,0,0,0,5000000,
6000000,b,in,event,0,0,0,6000000,
7000000,a,in,event,0,0,0,6000000,
7000000,b,in,event,0,0,0,7000000,
8000000,a,in,event,0,0,0,7000000,
8000000,b,in,event,0,0,0,8000000,
9000000,a,in,event,0,0,0,8000000,
9000000,b,in,event,0,0,0,9000000,
",
        ),
    ],
};

/// A source of spikes and a sink, of which no more than one order is lawful.
pub const ORDERS: Table<'static> = Table {
    text: "stoptime=?
binary=script
[gen]
timestep=0.001
ports=out event spikes 0+10
args=emit spikes 3 every 0.001 from 0.0005
[sink]
timestep=0.001
ports=in event in 0+10
gen.spikes -> sink.in [10]
",
    rows: &[
        ("0", ORDER, ""),
        ("0.001", ORDER, "run gen\nput 1\ntake 1\nrun sink\n"),
        ("x", SCENE, "StopText"),
    ],
};
