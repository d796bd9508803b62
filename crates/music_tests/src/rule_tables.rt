//! Rules.
use crate::tables::{OK, RULE, Table};

/// Rules at ports of each kind.
pub const RULES: Table<'static> = Table {
    text: "stoptime=0.003\nbinary=script\ntimestep=0.001\n[a]\n\
        ports=out event e 0+10; in event i 0+10; out cont c 0+4; in cont d 0+4; out message m; in message n\nargs=?\n",
    rows: &[
        ("emit e 3 at 0.0005", OK, "1|0"),
        ("emit e 3 every 0.001 from 0.0005", OK, "1|0"),
        ("pass i to e shift -2 after 0.0002", OK, "1|0"),
        ("set c 1 0.5", OK, "1|0"),
        ("ramp c 0 from -1 by 0.001", OK, "1|0"),
        ("copy d to c scale 1/2 add 0.25", OK, "1|0"),
        ("when d 0 over 0.25 emit e 9", OK, "1|0"),
        ("say m go every 0.002 from 0.0005", OK, "1|0"),
        ("reply n to m after 0", OK, "1|0"),
        ("pass i to e shift 65535 after 0", OK, "1|0"),
        // the same
        ("reply n to m after 0.000999999", OK, "1|0"),
        // a word of 64 bytes
        (
            "say m wwwwwwwwwwwwwwwwwwwwwwwwwwwwwwwwwwwwwwwwwwwwwwwwwwwwwwwwwwwwwwww every 1 from 0",
            OK,
            "1|0",
        ),
        ("emit e", RULE, "1|RuleText"),
        // index 65,536
        ("emit e 65536 at 0", RULE, "1|RuleText"),
        // a name of 65 bytes
        (
            "emit nxxxxxxxxxxxxxxxxxxxxxxxxxxxxxxxxxxxxxxxxxxxxxxxxxxxxxxxxxxxxxxxx 3 at 0",
            RULE,
            "1|RuleText",
        ),
        // a name of 64 bytes, of no port
        (
            "emit nxxxxxxxxxxxxxxxxxxxxxxxxxxxxxxxxxxxxxxxxxxxxxxxxxxxxxxxxxxxxxxx 3 at 0",
            RULE,
            "1|RulePort",
        ),
        // one more
        ("pass i to e shift 65536 after 0", RULE, "1|RuleText"),
        // 13 digits
        ("set c 0 1000000000000", RULE, "1|RuleText"),
        // 7 digits
        ("set c 0 0.0000001", RULE, "1|RuleText"),
        // one more
        ("copy d to c scale 1000001/1 add 0", RULE, "1|RuleText"),
        // m is at least 1
        ("copy d to c scale 1/0 add 0", RULE, "1|RuleText"),
        // a word of 65 bytes
        (
            "say m wwwwwwwwwwwwwwwwwwwwwwwwwwwwwwwwwwwwwwwwwwwwwwwwwwwwwwwwwwwwwwwww every 1 from 0",
            RULE,
            "1|RuleText",
        ),
        // absent
        ("emit nope 3 at 0", RULE, "1|RulePort"),
        // an input
        ("emit i 3 at 0", RULE, "1|RulePort"),
        // another kind
        ("emit c 3 at 0", RULE, "1|RulePort"),
        // one past the map
        ("emit e 10 at 0", RULE, "1|RuleIndex"),
        // x at Q
        ("when d 0 over 0 emit e 10", RULE, "1|RuleIndex"),
        // what a shift gives is not tested
        ("pass i to e shift 65535 after 0", OK, "1|0"),
        // equal to the tick
        ("pass i to e shift 0 after 0.001", RULE, "1|RuleAfter"),
        // equal to the tick
        ("reply n to m after 0.001", RULE, "1|RuleAfter"),
        // no period
        ("emit e 3 every 0 from 0", RULE, "1|RuleRate"),
        // no period
        ("say m go every 0 from 0", RULE, "1|RuleRate"),
        // the port before the index
        ("emit nope 10 at 0", RULE, "1|RulePort"),
        // the index before the rate
        ("emit e 10 every 0 from 0", RULE, "1|RuleIndex"),
        // the earlier rule
        ("emit e 3 every 0 from 0; x", RULE, "1|RuleRate"),
        // blank pieces are not counted
        (";set c 0 1;; ;emit e 10 at 0", RULE, "2|RuleIndex"),
    ],
};
