//! Applications that can wait for each other. Where a cycle is told, it is the only one that is not covered, of those in which
//! no application waits twice.
use crate::tables::{Answer, CYCLE, LINK, OK, PLAN, SCENE, Table};
use crate::texts::{SLOW, SPIKES, TWO_NETWORKS};

/// The cycle of `a` and `b`, each of which waits for a block of the other.
const FOR_EACH_OTHER: Answer<'static> = Answer {
    status: 5,
    text: "uncovered cycle
a waits for b: connection 2, data, allowance ?, burden ?
b waits for a: connection 1, data, allowance ?, burden ?
allowances ?, burdens ?
",
};

/// The cycle of a wait for room on the second connection and a wait for a block on the first.
const FOR_ROOM: Answer<'static> = Answer {
    status: 5,
    text: "uncovered cycle
gen waits for sink: connection 2, room, allowance ?, burden 0
sink waits for gen: connection 1, data, allowance 0, burden ?
allowances ?, burdens ?
",
};

/// The least limits of two applications that send to each other.
const ONE_AND_ONE: Answer<'static> = Answer {
    status: 0,
    text: "link,from,to,limit,how\n1,a.out,b.in,1,?\n2,b.out,a.in,1,?\n",
};

/// The limit of the second connection, and whether it is chosen or stated.
const ONE_AND: Answer<'static> = Answer {
    status: 0,
    text: "link,from,to,limit,how\n1,gen.a,sink.p,1,chosen\n2,gen.b,sink.q,?,?\n",
};

/// Two applications that send events to each other: the stop, for each its tick and the latency of its input, and what the
/// second connection states.
const LOOP: &str = "stoptime=?
binary=script
[a]
timestep=?
ports=out event out 0+1; in event in 0+1?
[b]
timestep=?
ports=out event out 0+1; in event in 0+1?
a.out -> b.in
b.out -> a.in?
";

pub const LOOPS: Table<'static> = Table {
    text: LOOP,
    rows: &[
        // without latency
        ("0.01|0.001||0.001||", FOR_EACH_OTHER, "0|0|0|0|0|0"),
        (
            "0.01|0.001||0.002||",
            FOR_EACH_OTHER,
            "0|0|0|1000000|0|1000000",
        ),
        // 0.9 ms are no tick, and 1 ms is one
        (
            "0.01|0.001| latency 0.0009|0.001||",
            FOR_EACH_OTHER,
            "0|0|0|0|0|0",
        ),
        ("0.01|0.001| latency 0.001|0.001||", OK, "2|2"),
        ("0.01|0.001| latency 0.002|0.002||", OK, "2|2"),
        // each latency is rounded down by itself
        (
            "0.01|0.001| latency 0.0005|0.001| latency 0.0005|",
            FOR_EACH_OTHER,
            "0|0|0|0|0|0",
        ),
        // ticks of 2 and 3 ms: whole milliseconds count
        (
            "0.01|0.002| latency 0.003999999|0.003||",
            FOR_EACH_OTHER,
            "3000000|1000000|0|2000000|3000000|3000000",
        ),
        ("0.01|0.002| latency 0.004|0.003||", OK, "2|2"),
        // ticks that have 1 ns in common: each nanosecond counts
        (
            "0.01|0.001| latency 0.001999999|0.001000001||",
            FOR_EACH_OTHER,
            "1999999|999999|0|1000000|1999999|1999999",
        ),
        ("0.01|0.001| latency 0.002|0.001000001||", OK, "2|2"),
        // where no step is run too
        ("0|0.001||0.001||", FOR_EACH_OTHER, "0|0|0|0|0|0"),
    ],
};

/// Such applications, of which one starts later. The start of a connection's sender adds to its latency, and that of its receiver
/// takes off.
pub const LATE_LOOPS: Table<'static> = Table {
    text: LOOP,
    rows: &[
        // half a tick each and half a tick of the start: 0 and 1 ms
        (
            "0.01|0.001| latency 0.0005|0.001\nstart=0.0005| latency 0.0005|",
            OK,
            "2|2",
        ),
        // -0.5 ms are rounded down to -1 ms, and 0.5 ms to 0
        (
            "0.01|0.001||0.001\nstart=0.0005||",
            FOR_EACH_OTHER,
            "0|0|-1000000|0|-1000000|0",
        ),
        // a tick of latency, and half a tick less of it, as the receiver starts later: 0.5 ms each
        (
            "0.01|0.001\nstart=0.0005| latency 0.001|0.001||",
            FOR_EACH_OTHER,
            "0|0|0|0|0|0",
        ),
        // whole ticks go round: -3 ms and 3 ms, and a tick of latency more
        (
            "0.01|0.001||0.001\nstart=0.003||",
            FOR_EACH_OTHER,
            "3000000|0|-3000000|0|0|0",
        ),
        ("0.01|0.001| latency 0.001|0.001\nstart=0.003||", OK, "2|2"),
        // both start at once
        (
            "0.01\nstart=0.0005|0.001| latency 0.0005|0.001| latency 0.0005|",
            FOR_EACH_OTHER,
            "0|0|0|0|0|0",
        ),
        // ticks of 2 and 3 ms: 0.4 ms and 3.6 ms are 4 ms, of which 3 ms are no more than the burdens
        (
            "0.01|0.002| latency 0.0036|0.003\nstart=0.0004| latency 0.0004|",
            OK,
            "2|2",
        ),
        (
            "0.01|0.002| latency 0.003599999|0.003\nstart=0.0004| latency 0.0004|",
            FOR_EACH_OTHER,
            "3000000|1000000|0|2000000|3000000|3000000",
        ),
        // where the start lies after the stop too
        (
            "0.01|0.001\nstart=0.02||0.001||",
            FOR_EACH_OTHER,
            "-20000000|0|20000000|0|0|0",
        ),
    ],
};

/// Such applications, where the second connection states a latency: it alone counts.
pub const STATED_LATENCIES: Table<'static> = Table {
    text: LOOP,
    rows: &[
        ("0.01|0.001||0.001|| latency=0.001", OK, "2|2"),
        (
            "0.01|0.001||0.001|| latency=0.000999999",
            FOR_EACH_OTHER,
            "0|0|0|0|0|0",
        ),
        // it is not added to that of the input, and hides it
        (
            "0.01|0.001| latency 0.0005|0.001|| latency=0.0005",
            FOR_EACH_OTHER,
            "0|0|0|0|0|0",
        ),
        (
            "0.01|0.001| latency 0.001|0.001|| latency=0",
            FOR_EACH_OTHER,
            "0|0|0|0|0|0",
        ),
        // the first connection has that of its input
        ("0.01|0.001||0.001| latency 0.001| latency=0", OK, "2|2"),
        // with a start: -0.5 ms and 0.5 ms, and 0.5 ms more of what is stated
        (
            "0.01|0.001||0.001\nstart=0.0005| latency 0.0005| latency=0.0005",
            OK,
            "2|2",
        ),
    ],
};

/// The plans of such applications.
pub const LOOP_PLANS: Table<'static> = Table {
    text: LOOP,
    rows: &[
        (
            "0.01|0.001| latency 0.001|0.001||",
            ONE_AND_ONE,
            "chosen|chosen",
        ),
        (
            "0.01|0.002| latency 0.004|0.003||",
            ONE_AND_ONE,
            "chosen|chosen",
        ),
        (
            "0.01|0.001| latency 0|0.001| latency 0| latency=0.001",
            ONE_AND_ONE,
            "chosen|chosen",
        ),
        (
            "0.01|0.001| latency 0.0005|0.001\nstart=0.0005| latency 0.0005|",
            ONE_AND_ONE,
            "chosen|chosen",
        ),
        // refused as by `check`
        ("0.01|0.001||0.001||", FOR_EACH_OTHER, "0|0|0|0|0|0"),
    ],
};

/// A loop of an event and a message.
pub const MESSAGE_LOOPS: Table<'static> = Table {
    text: "stoptime=0.01
binary=script
timestep=0.001
[a]
ports=out event e 0+1; in message m?
[b]
ports=in event e 0+1; out message m
a.e -> b.e
b.m -> a.m?
",
    rows: &[
        ("|", FOR_EACH_OTHER, "0|0|0|0|0|0"),
        // the latency of a message
        (" latency 0.001|", OK, "2|2"),
        (" latency 0.001| latency=0", FOR_EACH_OTHER, "0|0|0|0|0|0"),
        ("| latency=0.001", OK, "2|2"),
    ],
};

/// The latency of an application that sends to itself: a tick, and 1 ns less.
pub const OWN_LOOPS: Table<'static> = Table {
    text: "stoptime=0.01
binary=script
timestep=0.001
[a]
ports=out event out 0+1; in event in 0+1 latency ?
a.out -> a.in
",
    rows: &[
        ("0.001", OK, "1|1"),
        (
            "0.000999999",
            CYCLE,
            "a waits for a: connection 1, data, allowance 0, burden 0\nallowances 0, burdens 0\n",
        ),
    ],
};

/// Loops with continuous data, whose allowance is made of a delay and the two ticks.
pub const VALUE_LOOPS: Table<'static> = Table {
    text: "stoptime=0.01
binary=script
timestep=0.001
[a]
ports=out cont out 0+1; in cont in 0+1?
[b]
ports=out cont out 0+1; in cont in 0+1?
a.out -> b.in
b.out -> a.in?
",
    rows: &[
        // a delay of less than a tick, and of a tick
        (" delay 0.000999999||", FOR_EACH_OTHER, "0|0|0|0|0|0"),
        (" delay 0.001||", OK, "2|2"),
        // held values without delay
        (" hold| hold|", FOR_EACH_OTHER, "0|0|0|0|0|0"),
        // a held value that is 1 ns late is the one of the step before
        (" hold delay 1e-9| hold|", OK, "2|2"),
        // the latency that a connection states is its delay, and hides that of the input
        ("|| latency=0.001", OK, "2|2"),
        (" delay 0.001|| latency=0", FOR_EACH_OTHER, "0|0|0|0|0|0"),
        (" hold| hold| latency=1e-9", OK, "2|2"),
        (
            " hold delay 1e-9| hold| latency=0",
            FOR_EACH_OTHER,
            "0|0|0|0|0|0",
        ),
    ],
};

/// A slow sender of interpolated values, and events that come back.
pub const SLOW_VALUES: Table<'static> = Table {
    text: "stoptime=0.01
binary=script
[a]
timestep=0.003
ports=out cont c 0+1; in event e 0+1 latency ?
[b]
timestep=?
ports=in cont c 0+1?; out event e 0+1
a.c -> b.c
b.e -> a.e
",
    rows: &[
        // a negative allowance, and a millisecond more
        (
            "0.004|0.001|",
            FOR_EACH_OTHER,
            "4000000|2000000|-2000000|0|2000000|2000000",
        ),
        ("0.005|0.001|", OK, "2|2"),
        // -0.5 ms are rounded down to -1 ms
        (
            "0.004|0.002| delay 0.0005",
            FOR_EACH_OTHER,
            "4000000|2000000|-1000000|1000000|3000000|3000000",
        ),
        ("0.005|0.002| delay 0.0005", OK, "2|2"),
    ],
};

/// The latency of the last of three applications in a ring.
pub const RINGS_OF_THREE: Table<'static> = Table {
    text: "stoptime=0.01
binary=script
timestep=0.001
ports=out event out 0+1; in event in 0+1
[a]
[b]
[c]
ports=out event out 0+1; in event in 0+1?
a.out -> b.in
b.out -> c.in
c.out -> a.in
",
    rows: &[
        (
            "",
            CYCLE,
            "a waits for c: connection 3, data, allowance 0, burden 0
c waits for b: connection 2, data, allowance 0, burden 0
b waits for a: connection 1, data, allowance 0, burden 0
allowances 0, burdens 0
",
        ),
        // the latency of any of them
        (" latency 0.001", OK, "3|3"),
    ],
};

/// `b` hears of `a` at once by way of `c`, and late from itself: how many blocks `a` keeps, and how late.
const BY_WAY_OF_C: &str = "stoptime=0.01
binary=script
timestep=0.001
[a]
ports=out event far 0+1?; out event near 0+1
[b]
ports=in event far 0+1 latency ?; in event near 0+1
[c]
ports=in event in 0+1; out event out 0+1
a.far -> b.far
a.near -> c.in
c.out -> b.near
";

pub const DETOURS: Table<'static> = Table {
    text: BY_WAY_OF_C,
    rows: &[
        // a waits for room to b, and b for what comes by way of c: (1 + 1) ms and 1 ms are 3 ms
        (
            " buffered 1|0.003",
            CYCLE,
            "a waits for b: connection 1, room, allowance 0, burden 0
b waits for c: connection 3, data, allowance 0, burden 0
c waits for a: connection 2, data, allowance 0, burden 0
allowances 0, burdens 0
",
        ),
        // a millisecond less
        (" buffered 1|0.002", OK, "3|3"),
    ],
};

pub const DETOUR_PLANS: Table<'static> = Table {
    text: BY_WAY_OF_C,
    // (M + 1) ms and 1 ms, less 3 ms, are above 0 from M = 2 on
    rows: &[(
        "|0.003",
        PLAN,
        "1,a.far,b.far,2,chosen\n2,a.near,c.in,1,chosen\n3,c.out,b.near,1,chosen\n",
    )],
};

/// Two loops, of which the first is covered: the latency in the second.
pub const TWO_LOOPS: Table<'static> = Table {
    text: "stoptime=0.01
binary=script
timestep=0.001
[a]
ports=out event out 0+1; in event in 0+1 latency 0.001
[b]
ports=out event out 0+1; in event in 0+1
[c]
ports=out event out 0+1; in event in 0+1?
a.out -> b.in
b.out -> a.in
b.out -> c.in
c.out -> b.in
",
    rows: &[
        (
            "",
            CYCLE,
            "b waits for c: connection 4, data, allowance 0, burden 0
c waits for b: connection 3, data, allowance 0, burden 0
allowances 0, burdens 0
",
        ),
        (" latency 0.001", OK, "3|4"),
    ],
};

/// Two connections of one application to another: the stop, the sender's tick and what its second output states, the
/// receiver's tick, the latency of its second input and what it states, and what the second connection states.
const TWO_CONNECTIONS: &str = "stoptime=?
binary=script
[gen]
timestep=?
ports=out event a 0+1; out event b 0+1?
[sink]
timestep=?
ports=in event p 0+1; in event q 0+1 latency ?
gen.a -> sink.p
gen.b -> sink.q?
";

pub const ROOM: Table<'static> = Table {
    text: TWO_CONNECTIONS,
    rows: &[
        // nothing is stated
        ("0.01|0.001||0.001|0.005|", OK, "2|2"),
        // three ticks of the sender: (3 + 1) ms and 1 ms are 5 ms
        ("0.01|0.001| buffered 3|0.001|0.005|", FOR_ROOM, "0|0|0|0"),
        ("0.01|0.001| buffered 4|0.001|0.005|", OK, "2|2"),
        // five ticks of 3 ms of the receiver are seven of 2 ms: (7 + 1) · 2 ms and 3 ms are 19 ms
        (
            "0.01|0.002||0.003|0.017 buffered 5|",
            FOR_ROOM,
            "2000000|2000000|2000000|2000000",
        ),
        ("0.01|0.002||0.003|0.016 buffered 5|", OK, "2|2"),
        // the lesser of eight and seven
        (
            "0.01|0.002| buffered 8|0.003|0.017 buffered 5|",
            FOR_ROOM,
            "2000000|2000000|2000000|2000000",
        ),
        ("0.01|0.002| buffered 8|0.003|0.016 buffered 5|", OK, "2|2"),
        // the lesser of three and seven: (3 + 1) · 2 ms and 3 ms are 11 ms
        (
            "0.01|0.002| buffered 3|0.003|0.009 buffered 5|",
            FOR_ROOM,
            "2000000|2000000|2000000|2000000",
        ),
        ("0.01|0.002| buffered 3|0.003|0.008 buffered 5|", OK, "2|2"),
        // a tick of 1 ms holds none of 10 ms and counts as one: (1 + 1) · 10 ms and 1 ms are 21 ms
        ("0.01|0.01||0.001|0.021 buffered 1|", FOR_ROOM, "0|0|0|0"),
        ("0.01|0.01||0.001|0.02 buffered 1|", OK, "2|2"),
        // 10^18 ticks, of which 10^17 count
        ("0.001|1e-9||1000|1000000 buffered 1000000|", OK, "2|2"),
        // stated by the connection
        ("0.01|0.001||0.001|0.005| buffered=3", FOR_ROOM, "0|0|0|0"),
        ("0.01|0.001||0.001|0.005| buffered=4", OK, "2|2"),
        // five blocks of the sender, whatever the ticks: (5 + 1) · 2 ms and 3 ms are 15 ms
        (
            "0.01|0.002||0.003|0.013| buffered=5",
            FOR_ROOM,
            "2000000|2000000|2000000|2000000",
        ),
        ("0.01|0.002||0.003|0.012| buffered=5", OK, "2|2"),
        // they alone count, and not the lesser one of what the ends state
        (
            "0.01|0.002| buffered 3|0.003|0.012 buffered 1| buffered=5",
            OK,
            "2|2",
        ),
        (
            "0.01|0.002| buffered 8|0.003|0.013 buffered 9| buffered=5",
            FOR_ROOM,
            "2000000|2000000|2000000|2000000",
        ),
    ],
};

/// Two applications, each of which keeps one block for the other: how late it may come.
pub const BOTH_ROOM: Table<'static> = Table {
    text: "stoptime=0.01
binary=script
timestep=0.001
ports=out event out 0+1 buffered 1; in event in 0+1 latency ?
[a]
[b]
a.out -> b.in
b.out -> a.in
",
    rows: &[
        // each waits for room: (1 + 1) ms and 1 ms, less 10 ms
        (
            "0.01",
            CYCLE,
            "a waits for b: connection 1, room, allowance -7000000, burden 0
b waits for a: connection 2, room, allowance -7000000, burden 0
allowances -14000000, burdens 0
",
        ),
        // less 2 ms
        ("0.002", OK, "2|2"),
    ],
};

/// The plans of two connections.
pub const ROOM_PLANS: Table<'static> = Table {
    text: TWO_CONNECTIONS,
    rows: &[
        // (M + 1) ms and 1 ms, less 5 ms, are above 0 from M = 4 on
        ("0.01|0.001||0.001|0.005|", ONE_AND, "4|chosen"),
        // the same number, stated
        ("0.01|0.001| buffered 4|0.001|0.005|", ONE_AND, "4|stated"),
        ("0.01|0.001||0.001|0.005| buffered=4", ONE_AND, "4|stated"),
        // (M + 1) · 2 ms and 3 ms, less 17 ms, are above 2 ms from M = 8 on
        ("0.01|0.002||0.003|0.017|", ONE_AND, "8|chosen"),
        // stated by the input: five ticks of 3 ms are seven of 2 ms
        ("0.01|0.002||0.003|0.016 buffered 5|", ONE_AND, "7|stated"),
        // stated by the connection
        (
            "0.01|0.002| buffered 8|0.003|0.012 buffered 9| buffered=5",
            ONE_AND,
            "5|stated",
        ),
        // the greatest limit
        (
            "0.001|1e-9||1000|1000000 buffered 1000000|",
            ONE_AND,
            "100000000000000000|stated",
        ),
        // 5.5 ms are five ticks, and still are where the start takes 0.5 ms: -0.5 ms of the first connection are -1 ms
        ("0.01|0.001||0.001|0.0055|", ONE_AND, "4|chosen"),
        (
            "0.01|0.001||0.001\nstart=0.0005|0.0055|",
            ONE_AND,
            "5|chosen",
        ),
        // 6 ms that the connection states
        (
            "0.01|0.001||0.001|0.005| latency=0.006",
            ONE_AND,
            "5|chosen",
        ),
    ],
};

/// The first section comes first, whatever its name, and faults of connections come before cycles of waits.
pub const FIRST_LOOPS: Table<'static> = Table {
    text: "stoptime=0.01\nbinary=script\n?",
    rows: &[
        (
            "[z]
timestep=0.001
ports=out event out 0+1; in event in 0+1
[a]
timestep=0.001
ports=out event out 0+1; in event in 0+1
z.out -> a.in
a.out -> z.in
",
            CYCLE,
            "z waits for a: connection 2, data, allowance 0, burden 0
a waits for z: connection 1, data, allowance 0, burden 0
allowances 0, burdens 0
",
        ),
        (
            "timestep=0.001
ports=out event out 0+1; in event in 0+1
[a]
[b]
a.out -> b.in
b.out -> a.in
a.out -> b.none
",
            LINK,
            "3|UnknownPort",
        ),
    ],
};

/// Whole texts, and their plans.
pub const WHOLE_PLANS: Table<'static> = Table {
    text: "?",
    rows: &[
        (SPIKES, PLAN, "1,gen.spikes,sink.in,1,chosen\n"),
        (SLOW, PLAN, "1,gen.spikes,sink.in,1,chosen\n"),
        (
            TWO_NETWORKS,
            PLAN,
            "1,clk.tick,left.in,1,chosen
2,left.out,right.in,1,chosen
3,right.out,left.in,1,chosen
4,right.out,watch.seen,1,chosen
5,clk.note,wave.cmd,1,chosen
6,wave.level,watch.level,1,chosen
",
        ),
        // no connections
        ("stoptime=0\n", PLAN, ""),
        ("stoptime=soon\n", SCENE, "StopText"),
    ],
};

/// What a connection of a slow sink states.
pub const SLOW_PLANS: Table<'static> = Table {
    text: "stoptime=0.02
[gen]
np=1
binary=script
timestep=0.001
ports=out event spikes 0+10
args=emit spikes 3 every 0.004 from 0.0005
[sink]
np=1
binary=script
timestep=0.01
ports=in event in 0+10
gen.spikes -> sink.in [10]?
",
    rows: &[
        (" buffered=2", PLAN, "1,gen.spikes,sink.in,2,stated\n"),
        (" latency=0.004", PLAN, "1,gen.spikes,sink.in,1,chosen\n"),
    ],
};
