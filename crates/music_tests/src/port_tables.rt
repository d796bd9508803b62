//! Ports and connections.
use crate::tables::{LINK, OK, PORT, TEXT, Table};

/// Ports of an application of one process.
pub const PORTS: Table<'static> = Table {
    text: "stoptime=0.003\nbinary=script\ntimestep=0.001\n[a]\nports=?\n",
    rows: &[
        // blank pieces
        (" ; ;", OK, "1|0"),
        // the greatest base
        ("out event p 65536+0", OK, "1|0"),
        // B + N of 65,536
        ("out event p 0+65536", OK, "1|0"),
        // the greatest index
        ("in event p 65535", OK, "1|0"),
        // a name of 64 bytes
        (
            "out event nxxxxxxxxxxxxxxxxxxxxxxxxxxxxxxxxxxxxxxxxxxxxxxxxxxxxxxxxxxxxxxx 0+1",
            OK,
            "1|0",
        ),
        // options in any order
        ("in event p 0+1 latency 1 buffered 5", OK, "1|0"),
        ("in event p 0+1 buffered 5 latency 1", OK, "1|0"),
        ("in cont p 0+1 hold buffered 3 delay 0.1", OK, "1|0"),
        // the most
        ("out event p 0+1 buffered 1000000", OK, "1|0"),
        ("x", PORT, "1|PortText"),
        // a name of 65 bytes
        (
            "out event nxxxxxxxxxxxxxxxxxxxxxxxxxxxxxxxxxxxxxxxxxxxxxxxxxxxxxxxxxxxxxxxx 0+1",
            PORT,
            "1|PortText",
        ),
        // a message port has no map
        ("out message p 0+1", PORT, "1|PortText"),
        // one more
        ("out event p 0+65537", PORT, "1|PortText"),
        // B + N of 65,537
        ("out event p 1+65536", PORT, "1|PortText"),
        // index 65,536
        ("out event p 65536", PORT, "1|PortText"),
        // an empty entry
        ("out event p 1,", PORT, "1|PortText"),
        // empty rank maps
        ("out event p /", PORT, "1|PortText"),
        // empty
        ("out event p split:", PORT, "1|PortText"),
        // a latency at an output
        ("out event p 0+1 latency 0", PORT, "1|PortText"),
        // a latency at a continuous input
        ("in cont p 0+1 latency 0", PORT, "1|PortText"),
        // a delay at an event input
        ("in event p 0+1 delay 0", PORT, "1|PortText"),
        // both
        ("in cont p 0+1 hold interpolate", PORT, "1|PortText"),
        // twice
        ("in event p 0+1 latency 0 latency 0", PORT, "1|PortText"),
        // 10^15 ns and one more
        (
            "in event p 0+1 latency 1000000.000000001",
            PORT,
            "1|PortText",
        ),
        // less than 1
        ("out event p 0+1 buffered 0", PORT, "1|PortText"),
        // one more
        ("out event p 0+1 buffered 1000001", PORT, "1|PortText"),
        ("in event p 3,1,3", PORT, "1|MapRepeated"),
        // the form before the repeat
        ("in event p 3,3,x", PORT, "1|PortText"),
        // the name before the repeat
        ("out event p 0+1; in event p 1,1", PORT, "2|PortText"),
        // the first faulty one
        ("in event p 1,1; x", PORT, "1|MapRepeated"),
        // blank pieces are not counted
        (" ; out event p 0+1; \t ;x", PORT, "2|PortText"),
    ],
};

/// Ports of an application of two processes.
pub const PORTS_OF_TWO: Table<'static> = Table {
    text: "stoptime=0.003\nbinary=script\ntimestep=0.001\n[a]\nnp=2\nports=?\n",
    rows: &[
        // both forms
        ("out event p 0+2/7,5", OK, "1|0"),
        // an input may
        ("in event p 0+4/2+4", OK, "1|0"),
        // one map for two ranks
        ("out event p 0+1", PORT, "1|PortText"),
        // an empty rank map
        ("out event p 0+1/", PORT, "1|PortText"),
        // 2 and 3
        ("out event p 0+4/2+4", PORT, "1|OutputTwice"),
        // the repeat before
        ("out event p 0+4/2,2", PORT, "1|MapRepeated"),
        // the form of each rank before
        ("out event p 2,2/x", PORT, "1|PortText"),
    ],
};

/// Connections between two applications that have ports of each kind. Inputs are late or delayed by a tick.
pub const CONNECTIONS: Table<'static> = Table {
    text: "stoptime=0.003\nbinary=script\ntimestep=0.001\n[a]\n\
        ports=out event e 0+4; in event i 0+4 latency 0.001; out cont c 0+4; in cont d 1+2 delay 0.001; \
        out message m; in message n latency 0.001\n[b]\n\
        ports=out event few 0+2; in event many 0+8 latency 0.001; in event none 9+0 latency 0.001; \
        out cont c 0+4; in cont d 0+4; in cont past 2+4; in cont list 3,0; in message n; \
        out event far 65535\n?\n",
    rows: &[
        // the least width
        ("a.e->b.many[8]", OK, "2|1"),
        // the greatest width, and one more
        ("a.e -> b.many [65536]", OK, "2|1"),
        ("a.e -> b.many [65537]", TEXT, "8|BadWidth"),
        // the input maps 7
        ("a.e -> b.many [7]", LINK, "1|Width"),
        // the output maps 65,535
        ("b.far -> b.none [65535]", LINK, "1|Width"),
        ("b.far -> b.none [65536]", OK, "2|1"),
        ("a.m -> b.n", OK, "2|1"),
        // 0 and 3
        ("a.c -> b.list", OK, "2|1"),
        // the sender, and the receiver
        ("x.e -> b.many", LINK, "1|UnknownApp"),
        ("a.e -> x.many", LINK, "1|UnknownApp"),
        ("a.x -> b.many", LINK, "1|UnknownPort"),
        ("a.e -> b.x", LINK, "1|UnknownPort"),
        // the sender is an input
        ("a.i -> b.many", LINK, "1|Direction"),
        // the receiver is an output
        ("a.e -> b.few", LINK, "1|Direction"),
        ("a.e -> b.d", LINK, "1|Kind"),
        // the input maps 4 and 5
        ("a.c -> b.past", LINK, "1|Unmapped"),
        // the width before
        ("a.c -> b.past [5]", LINK, "1|Width"),
        // two to one event input
        ("a.e -> b.many\nb.few -> b.many", OK, "2|2"),
        ("a.e -> b.many\na.e -> b.many", LINK, "2|PairTwice"),
        ("a.c -> b.d\nb.c -> b.d", LINK, "2|ContTwice"),
        // the pair before
        ("a.c -> b.d\na.c -> b.d", LINK, "2|PairTwice"),
        // the application before the port
        ("a.x -> x.many", LINK, "1|UnknownApp"),
        // the earlier connection, though its kind is later
        ("a.e -> b.many [7]\nx.e -> b.many", LINK, "1|Width"),
        // from the receiver
        ("b.many<-a.e[8]", OK, "2|1"),
        ("b.many <- x.e", LINK, "1|UnknownApp"),
        ("b.x <- a.e", LINK, "1|UnknownPort"),
        ("a.e <- b.many", LINK, "1|Direction"),
        ("b.d <- a.e", LINK, "1|Kind"),
        ("b.many <- a.e [7]", LINK, "1|Width"),
        ("b.past <- a.c latency=0", LINK, "1|Unmapped"),
        (
            "a.e -> b.many\nb.many <- a.e buffered=2",
            LINK,
            "2|PairTwice",
        ),
        // the greatest latency and the most blocks
        (
            "b.many <- a.e [8] latency=1000000 buffered=1000000",
            OK,
            "2|1",
        ),
        ("a.e -> b.many [8]buffered=0001 latency=0", OK, "2|1"),
        ("b.n<-a.m\tbuffered=1", OK, "2|1"),
        ("a.c -> b.d latency=.5", OK, "2|1"),
    ],
};

/// Lines with a connection, and the first fault of each.
pub const CONNECTION_LINES: Table<'static> = Table {
    text: "?",
    rows: &[
        // the arrow that begins first, behind which stands no NAME
        ("a.b<->c.d", TEXT, "1|BadName"),
        ("-> a.b", TEXT, "1|BadName"),
        // an equals sign before the arrow, and behind it
        ("a.b = c.d <- e.f", TEXT, "1|BadName"),
        ("a.b <- c.d = e", TEXT, "1|BadOption"),
        // options stand behind the width
        ("a.b -> c.d latency=1 [4]", TEXT, "1|BadName"),
        // the first bracket that closes ends the width
        ("a.b -> c.d [1]]", TEXT, "1|BadOption"),
        ("a.b -> c.d [1][2]", TEXT, "1|BadOption"),
        ("a.b -> c.d] [1", TEXT, "1|BadLine"),
        ("a.b -> c.d ]", TEXT, "1|BadOption"),
        // other words
        ("a.b -> c.d [1] x", TEXT, "1|BadOption"),
        ("a.b -> c.d x", TEXT, "1|BadOption"),
        ("a.b -> c.d Latency=0", TEXT, "1|BadOption"),
        // an option is one word
        ("a.b -> c.d latency = 1", TEXT, "1|BadOption"),
        ("a.b->c.d[1]latency=0buffered=1", TEXT, "1|BadOption"),
        // an option twice
        ("a.b -> c.d latency=0 latency=0", TEXT, "1|BadOption"),
        (
            "a.b -> c.d buffered=1 latency=0 buffered=1",
            TEXT,
            "1|BadOption",
        ),
        // no time, no whole nanoseconds, and one more than 10^15 ns
        ("a.b <- c.d latency=x", TEXT, "1|BadOption"),
        ("a.b <- c.d latency=", TEXT, "1|BadOption"),
        ("a.b <- c.d latency=1e-10", TEXT, "1|BadOption"),
        ("a.b <- c.d latency=1000000.000000001", TEXT, "1|BadOption"),
        // no count, less than 1, and one more than 1,000,000
        ("a.b -> c.d buffered=", TEXT, "1|BadOption"),
        ("a.b -> c.d buffered=+1", TEXT, "1|BadOption"),
        ("a.b -> c.d buffered=0", TEXT, "1|BadOption"),
        ("a.b -> c.d buffered=1000001", TEXT, "1|BadOption"),
        // the line, the names and the width before
        ("a.b <- \"c.d\" [0] x", TEXT, "1|BadLine"),
        ("a.b <- c.d [0 x", TEXT, "1|BadLine"),
        ("a <- c.d [0] x", TEXT, "1|BadName"),
        ("a.b <- c.d [0] x", TEXT, "1|BadWidth"),
    ],
};
