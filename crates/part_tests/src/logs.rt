//! The log of a scene with ports of each kind, from rows that were worked out by hand.
ghost use Rattle.std.specs.Prelude.{◌≡◌, true};
ghost use Rattle.std.specs.List.{list_all};
ghost use Rattle.music_base.specs.Names.{is_in_words, is_word};
ghost use Rattle.scene_model.specs.Logs.{has_word, is_writable};

use crate::plans::scene_of;
use music_base::{AppId, MemorySink, Nanos, NoMemory, PortId, Rank, Sample, Word};
use run_logs::{Row, RowItem, write_rows};
use scene_model::Scene;
use std::alloc::Global;

/// Spikes and notes go from a clock to two sides that pass spikes on to each other, and a ramp is watched.
pub const SCENE: &[u8] = b"stoptime=0.004
binary=script
[clk]
np=1
timestep=0.001
ports=out event tick 0+4; out message note
args=emit tick 0 every 0.001 from 0; say note go every 0.002 from 0.0005
[left]
np=2
timestep=0.001
ports=in event in split:0+4 latency 0.001; out event out split:0+4
args=pass in to out shift 1 after 0.0002
[right]
np=1
timestep=0.002
ports=in event in 0+4 latency 0.002; out event out 0+4
args=pass in to out shift 1 after 0
[wave]
np=1
timestep=0.002
ports=out cont level 0+2; in message cmd
args=ramp level 0 from 0 by 1; set level 1 0.5
[watch]
np=1
timestep=0.001
ports=in cont level 0+2 delay 0.002; in event seen 0+4; out event alarm 0+1
args=when level 0 over 0.25 emit alarm 0
clk.tick -> left.in [4]
left.out -> right.in [4]
right.out -> left.in [4]
right.out -> watch.seen [4]
clk.note -> wave.cmd
wave.level -> watch.level [2]
";

pub const LOG: &[u8] = b"clock,app,port,kind,rank,local,global,time,value
0,wave,cmd,message,0,0,0,500000,go
0,watch,level,cont,0,0,0,,0
0,watch,level,cont,0,1,1,,0
1000000,left,in,event,0,0,0,0,
1000000,watch,level,cont,0,0,0,,0
1000000,watch,level,cont,0,1,1,,0
2000000,left,in,event,0,0,0,1000000,
2000000,right,in,event,0,1,1,1200000,
2000000,wave,cmd,message,0,0,0,2500000,go
2000000,watch,level,cont,0,0,0,,0
2000000,watch,level,cont,0,1,1,,500000
2000000,watch,seen,event,0,2,2,2000000,
3000000,left,in,event,0,0,0,2000000,
3000000,left,in,event,1,0,2,2000000,
3000000,watch,level,cont,0,0,0,,500000
3000000,watch,level,cont,0,1,1,,500000
";

const LEFT: u32 = 1;

const RIGHT: u32 = 2;

const WAVE: u32 = 3;

const WATCH: u32 = 4;

/// What a row tells: local place, global index and time or value, or time and word.
#[derive(Clone, Copy)]
pub enum Told {
    Event(u32, u32, u64),
    Value(u32, i64),
    Message(u64, &'static [u8]),
}

use Told::{Event, Message, Value};

/// Clock, application, port, rank, and what is told. The indices of values are their local places.
pub type ToldRow = (u64, u32, u32, u32, Told);

pub const ROWS: &[ToldRow] = &[
    (0, WAVE, 1, 0, Message(500_000, b"go")),
    (0, WATCH, 0, 0, Value(0, 0)),
    (0, WATCH, 0, 0, Value(1, 0)),
    (1_000_000, LEFT, 0, 0, Event(0, 0, 0)),
    (1_000_000, WATCH, 0, 0, Value(0, 0)),
    (1_000_000, WATCH, 0, 0, Value(1, 0)),
    (2_000_000, LEFT, 0, 0, Event(0, 0, 1_000_000)),
    (2_000_000, RIGHT, 0, 0, Event(1, 1, 1_200_000)),
    (2_000_000, WAVE, 1, 0, Message(2_500_000, b"go")),
    (2_000_000, WATCH, 0, 0, Value(0, 0)),
    (2_000_000, WATCH, 0, 0, Value(1, 500_000)),
    (2_000_000, WATCH, 1, 0, Event(2, 2, 2_000_000)),
    (3_000_000, LEFT, 0, 0, Event(0, 0, 2_000_000)),
    (3_000_000, LEFT, 0, 1, Event(0, 2, 2_000_000)),
    (3_000_000, WATCH, 0, 0, Value(0, 500_000)),
    (3_000_000, WATCH, 0, 0, Value(1, 500_000)),
];

fn item_of(alloc: Global, told: Told) -> Result<RowItem, NoMemory> {
    match told {
        Event(local, global, time) => Ok(RowItem::Event {
            local,
            global,
            time: Nanos(time),
        }),
        Value(local, value) => Ok(RowItem::Value {
            local,
            global: local,
            value: Sample(value),
        }),
        Message(time, word) => Ok(RowItem::Message {
            time: Nanos(time),
            word: Word::from_slice(alloc, word)?,
        }),
    }
}

fn row_of(alloc: Global, case: &ToldRow) -> Result<Row, NoMemory> {
    let (clock, app, port, rank, told) = *case;
    Ok(Row {
        clock: Nanos(clock),
        app: AppId(app),
        port: PortId(port),
        rank: Rank(rank),
        item: item_of(alloc, told)?,
    })
}

fn is_in_words(byte: u8) -> bool
    ensures { result ≡ is_in_words byte }
{
    byte.is_ascii_alphanumeric() || byte == b'_' || byte == b'-' || byte == b'.'
}

fn are_in_words(bytes: &[u8]) -> bool
    ensures { result ≡ list_all is_in_words bytes.now }
{
    bytes.iter().all(|b| is_in_words(*b))
}

fn is_word(bytes: &[u8]) -> bool
    ensures { result ≡ is_word bytes.now }
{
    1 <= bytes.len() && bytes.len() <= 64 && are_in_words(bytes)
}

fn has_word(item: &RowItem) -> bool
    ensures { result ≡ has_word item.now }
{
    match item {
        RowItem::Message { word, .. } => is_word(word.as_slice()),
        _ => true,
    }
}

// Whether the row can be written in the scene's log.
#[tactic(auto, unfolding(scene_model::specs::Logs::is_writable))]
fn can_be_written(scene: &Scene, row: &Row) -> bool
    ensures { result ≡ true → is_writable scene.now row.now ≡ true }
{
    let Some(app) = scene.apps.as_slice().get(row.app.0 as usize) else {
        return false;
    };
    (row.port.0 as usize) < app.ports.len() && has_word(&row.item)
}

fn can_all_be_written(scene: &Scene, rows: &[Row]) -> bool
    ensures { result ≡ true → list_all (is_writable scene.now) rows.now ≡ true }
{
    for row in rows {
        if !can_be_written(scene, row) {
            return false;
        }
    }
    true
}

fn rows(alloc: Global) -> Result<Vec<Row>, NoMemory> {
    let mut rows = Vec::new(alloc);
    for case in ROWS {
        rows.push(row_of(alloc, case)?)?;
    }
    Ok(rows)
}

// Whether the rows are written as the log.
fn is_written(alloc: Global, scene: &Scene) -> Result<bool, NoMemory> {
    let rows = rows(alloc)?;
    if !can_all_be_written(scene, &rows) {
        return Ok(false);
    }
    let mut sink = MemorySink::make(alloc, 100, 2000)?;
    let is_whole = write_rows(alloc, scene, &rows, &mut sink).is_ok();
    Ok(is_whole && sink.taken() == LOG)
}

#[test]
fn rows_of_each_kind_make_the_log(rt: HostRuntime) {
    let Ok(scene) = scene_of(rt.alloc(), SCENE) else {
        panic!(rt; "the text has a scene");
    };
    assert!(rt; is_written(rt.alloc(), &scene) == Ok(true));
}
