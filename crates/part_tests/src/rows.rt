//! Rows of the log: their lines, and the order in which they are released.
ghost use Rattle.std.specs.Prelude.{◌≡◌, true, IfOk};
ghost use Rattle.std.specs.List.{list_all};
ghost use Rattle.scene_model.specs.Logs.{is_writable};
ghost use Rattle.run_logs.specs.Merging.{AreRowsOf};

use crate::plans::scene_of;
use music_base::{AppId, Items, MemorySink, Nanos, NoMemory, PortId, Rank, Sample};
use run_logs::{Row, RowItem, RowMerger, row_bytes, row_order, write_rows};
use scene_model::Scene;
use std::alloc::Global;
use std::cmp::Ordering;

/// One application sends, and one of two processes receives by a port of each kind.
const ALL_KINDS: &[u8] = b"stoptime=0.01
binary=script
timestep=0.001
[gen]
ports=out event a 0+8; out cont b 0+8; out message c
[sink]
np=2
ports=in event p 0+4/4+4; in cont q 0+4/4+4; in message r
gen.a -> sink.p
gen.b -> sink.q
gen.c -> sink.r
";

/// What a row tells.
#[derive(Clone, Copy)]
enum Told {
    Event { local: u32, global: u32, time: u64 },
    Value { local: u32, global: u32, value: i64 },
}

/// A row of the second application, and its line.
struct Case<'a> {
    clock: u64,
    port: u32,
    rank: u32,
    told: Told,
    line: &'a [u8],
}

const CASES: &[Case<'static>] = &[
    Case {
        clock: 0,
        port: 0,
        rank: 0,
        told: Told::Event {
            local: 0,
            global: 3,
            time: 500_000,
        },
        line: b"0,sink,p,event,0,0,3,500000,\n",
    },
    Case {
        clock: 1_000_000,
        port: 0,
        rank: 1,
        told: Told::Event {
            local: 2,
            global: 6,
            time: 999_999,
        },
        line: b"1000000,sink,p,event,1,2,6,999999,\n",
    },
    // The greatest numbers, at a rank that the port does not have.
    Case {
        clock: u64::MAX,
        port: 0,
        rank: u32::MAX,
        told: Told::Event {
            local: u32::MAX,
            global: u32::MAX,
            time: u64::MAX,
        },
        line: b"18446744073709551615,sink,p,event,4294967295,4294967295,4294967295,18446744073709551615,\n",
    },
    Case {
        clock: 10,
        port: 1,
        rank: 1,
        told: Told::Value {
            local: 1,
            global: 5,
            value: -1,
        },
        line: b"10,sink,q,cont,1,1,5,,-1\n",
    },
    Case {
        clock: 9_000_000,
        port: 1,
        rank: 0,
        told: Told::Value {
            local: 0,
            global: 0,
            value: i64::MIN,
        },
        line: b"9000000,sink,q,cont,0,0,0,,-9223372036854775808\n",
    },
    // What a row tells counts, and not the kind of its port.
    Case {
        clock: 7,
        port: 0,
        rank: 0,
        told: Told::Value {
            local: 3,
            global: 3,
            value: 1_000_000,
        },
        line: b"7,sink,p,cont,0,3,3,,1000000\n",
    },
];

const HEADER: &[u8] = b"clock,app,port,kind,rank,local,global,time,value\n";

fn item_of(told: Told) -> RowItem {
    match told {
        Told::Event {
            local,
            global,
            time,
        } => RowItem::Event {
            local,
            global,
            time: Nanos(time),
        },
        Told::Value {
            local,
            global,
            value,
        } => RowItem::Value {
            local,
            global,
            value: Sample(value),
        },
    }
}

fn row_of(case: &Case<'_>) -> Row {
    Row {
        clock: Nanos(case.clock),
        app: AppId(1),
        port: PortId(case.port),
        rank: Rank(case.rank),
        item: item_of(case.told),
    }
}

// Whether the scene has the port of a row that tells no message.
#[tactic(auto, unfolding(scene_model::specs::Logs::is_writable))]
fn can_be_written(scene: &Scene, row: &Row) -> bool
    ensures { result ≡ true → is_writable scene.now row.now ≡ true }
{
    let Some(app) = scene.apps.as_slice().get(row.app.0 as usize) else {
        return false;
    };
    match row.item {
        RowItem::Message { .. } => false,
        _ => (row.port.0 as usize) < app.ports.len(),
    }
}

// Whether the log of these rows alone has this line behind the header.
fn is_log(alloc: Global, scene: &Scene, rows: &[Row], line: &[u8]) -> Result<bool, NoMemory>
    requires { list_all (is_writable scene.now) rows.now ≡ true }
{
    let mut sink = MemorySink::make(alloc, 7, 1000)?;
    let is_written = write_rows(alloc, scene, rows, &mut sink).is_ok();
    Ok(is_written && sink.taken().strip_prefix(HEADER) == Some(line))
}

// Whether this is the row's line, by itself and in a log.
fn has_line(alloc: Global, scene: &Scene, row: Row, line: &[u8]) -> Result<bool, NoMemory> {
    if !can_be_written(scene, &row) {
        return Ok(false);
    }
    let bytes = row_bytes(alloc, scene, &row)?;
    let mut rows = Vec::new(alloc);
    rows.push(row)?;
    Ok(bytes.as_slice() == line && is_log(alloc, scene, &rows, line)?)
}

#[test]
fn rows_have_their_lines(rt: HostRuntime) {
    let Ok(scene) = scene_of(rt.alloc(), ALL_KINDS) else {
        panic!(rt; "the text has a scene");
    };
    for case in CASES {
        let is_right = has_line(rt.alloc(), &scene, row_of(case), case.line);
        assert!(rt; is_right == Ok(true), "at {}", case.clock);
    }
}

fn row_at(clock: u64, app: u32, port: u32, rank: u32) -> Row
    ensures app { result.app ≡ app }
{
    Row {
        clock: Nanos(clock),
        app: AppId(app),
        port: PortId(port),
        rank: Rank(rank),
        item: RowItem::Event {
            local: 0,
            global: 0,
            time: Nanos(0),
        },
    }
}

/// Places of two rows (clock, application, port and rank), and how the first stands to the second.
const ORDERS: &[([u32; 4], [u32; 4], Ordering)] = &[
    ([1, 9, 9, 9], [2, 0, 0, 0], Ordering::Less),
    ([5, 1, 9, 9], [5, 2, 0, 0], Ordering::Less),
    ([5, 1, 1, 9], [5, 1, 0, 0], Ordering::Greater),
    ([5, 1, 1, 2], [5, 1, 1, 3], Ordering::Less),
    ([5, 1, 1, 2], [5, 1, 1, 2], Ordering::Equal),
];

// The clocks and applications of rows.
fn places_of(alloc: Global, rows: &[Row]) -> Result<Vec<(u64, u32)>, NoMemory> {
    let mut places = Vec::new(alloc);
    for row in rows {
        places.push((row.clock.0, row.app.0))?;
    }
    Ok(places)
}

fn one_row(alloc: Global, clock: u64, app: u32) -> Result<Items<Row>, NoMemory>
    ensures { IfOk result (AreRowsOf app) }
{
    let mut rows = Items::new(alloc);
    rows.push(row_at(clock, app, 0, 0))?;
    Ok(rows)
}

// A merger that holds a row of each of three applications: of clocks 5, 4 and 5.
fn three_held(alloc: Global) -> Result<RowMerger, NoMemory> {
    let mut merger = RowMerger::make(alloc, 3)?;
    merger.reserve()?;
    merger.admit(AppId(2), one_row(alloc, 5, 2)?);
    merger.reserve()?;
    merger.admit(AppId(0), one_row(alloc, 5, 0)?);
    merger.reserve()?;
    merger.admit(AppId(1), one_row(alloc, 4, 1)?);
    Ok(merger)
}

// Whether the rows of clocks below 5 are released first, and then the others.
fn are_released_in_order(alloc: Global) -> Result<bool, NoMemory> {
    let mut merger = three_held(alloc)?;
    let early = merger.release(alloc, Nanos(5))?;
    let none = merger.release(alloc, Nanos(5))?;
    let late = merger.release(alloc, Nanos(6))?;
    let is_early = places_of(alloc, early.as_slice())?.as_slice() == [(4, 1)].as_slice();
    let is_late = places_of(alloc, late.as_slice())?.as_slice() == [(5, 0), (5, 2)].as_slice();
    Ok(is_early && none.is_empty() && is_late)
}

#[test]
fn rows_are_released_in_order(rt: HostRuntime) {
    assert!(rt; are_released_in_order(rt.alloc()) == Ok(true));
}

#[test]
fn rows_are_ordered_by_clock_first(rt: HostRuntime) {
    for (first, second, order) in ORDERS {
        let [clock, app, port, rank] = *first;
        let [other_clock, other_app, other_port, other_rank] = *second;
        let found = row_order(
            &row_at(u64::from(clock), app, port, rank),
            &row_at(u64::from(other_clock), other_app, other_port, other_rank),
        );
        assert!(rt; found == *order, "{first:?} and {second:?}");
    }
}
