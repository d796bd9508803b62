//! Two machines that pass blocks by a ring: what each wants before and after its calls, and the rows of each step.
ghost use Rattle.std.specs.Prelude.{◌≡◌, true, IfOk, length};
ghost use Rattle.scene_model.specs.Faults.{IsFaultless};

use crate::plans::scene_of;
use app_turn::{AppMachine, Turned};
use music_base::{AppId, Block, Items, LinkId, NoMemory};
use music_setup::SetupFault;
use port_buffers::{PutEnd, Ring};
use scene_model::{Row, RowItem, Scene};
use std::alloc::Global;

/// A sender with an output of each kind, and two ranks that read them half a tick late in time for values.
const SCENE: &[u8] = b"stoptime=0.003
binary=script
timestep=0.001
[gen]
ports=out event spikes 0+4; out cont level 0+2; out message note
args=emit spikes 2 every 0.001 from 0.0005; ramp level 0 from 0 by 1; set level 1 0.25; say note go every 0.002 from 0.0005
[sink]
np=2
ports=in event in split:0+4; in cont level split:0+2 delay 0.0005; in message heard
gen.spikes -> sink.in [4]
gen.level -> sink.level [2]
gen.note -> sink.heard
";

/// What a row tells: its port and rank, and a local place, a global index and a time, or with a value, or the time of a word.
#[derive(Clone, Copy)]
enum Told {
    Event(u32, u32, u32, u32, u64),
    Value(u32, u32, u32, u32, i64),
    Word(u32, u32, u64),
}

use Told::{Event, Value, Word};

/// The first sample is not there yet.
const FIRST: &[Told] = &[
    Event(0, 1, 0, 2, 500_000),
    Value(1, 0, 0, 0, 0),
    Value(1, 1, 0, 1, 0),
    Word(2, 0, 500_000),
    Word(2, 1, 500_000),
];

/// The ramp is half way from its first sample to its second.
const SECOND: &[Told] = &[
    Event(0, 1, 0, 2, 1_500_000),
    Value(1, 0, 0, 0, 500_000),
    Value(1, 1, 0, 1, 250_000),
];

const THIRD: &[Told] = &[
    Event(0, 1, 0, 2, 2_500_000),
    Value(1, 0, 0, 0, 1_500_000),
    Value(1, 1, 0, 1, 250_000),
    Word(2, 0, 2_500_000),
    Word(2, 1, 2_500_000),
];

fn is_at(row: &Row, port: u32, rank: u32) -> bool {
    row.app.0 == 1 && row.port.0 == port && row.rank.0 == rank
}

fn is_row(row: &Row, told: &Told) -> bool {
    match (&row.item, told) {
        (
            RowItem::Event {
                local,
                global,
                time,
            },
            Event(port, rank, place, index, at),
        ) => { is_at(row, *port, *rank) && *local == *place && *global == *index && time.0 == *at }
        (
            RowItem::Value {
                local,
                global,
                value,
            },
            Value(port, rank, place, index, given),
        ) => {
            is_at(row, *port, *rank) && *local == *place && *global == *index && value.0 == *given
        }
        (RowItem::Message { time, word }, Word(port, rank, at)) => {
            is_at(row, *port, *rank) && time.0 == *at && word.as_slice() == b"go".as_slice()
        }
        _ => false,
    }
}

fn are_rows(rows: &[Row], clock: u64, told: &[Told]) -> bool {
    rows.len() == told.len()
        && rows
            .iter()
            .zip(told)
            .all(|(row, told)| row.clock.0 == clock && is_row(row, told))
}

// Whether the machine wants a block and finds none on an empty ring.
fn finds_nothing(alloc: Global, to: &mut AppMachine, link: LinkId) -> Result<bool, NoMemory>
    ensures { IfOk result (λ found. found ≡ true → to.new ≡ to.old) }
{
    if !to.wants_take(link) {
        return Ok(false);
    }
    let mut ring = Ring::make(alloc, 1)?;
    match to.take(link, &mut ring)? {
        Turned::Acted => Ok(false),
        Turned::NotYet => Ok(to.wants_take(link)),
    }
}

// Whether the machine has a block and finds no room on a full ring.
fn finds_no_room(alloc: Global, from: &mut AppMachine, link: LinkId) -> Result<bool, NoMemory>
    ensures { IfOk result (λ found. found ≡ true → from.new ≡ from.old) }
{
    let mut ring = Ring::make(alloc, 1)?;
    let items = Items::new(alloc);
    drop(ring.put(Block { number: 7, items }));
    if !from.wants_put(link) {
        return Ok(false);
    }
    match from.put(link, &mut ring) {
        Turned::Acted => Ok(false),
        Turned::NotYet => Ok(from.wants_put(link)),
    }
}

// Whether a block goes from one machine to the other, and is then neither owed nor wanted.
fn pass(
    alloc: Global,
    from: &mut AppMachine,
    to: &mut AppMachine,
    link: LinkId,
) -> Result<bool, NoMemory>
    requires scene { from.old.scene ≡ to.old.scene }
    requires counts { from.old.put ≡ to.old.taken }
    ensures scene { IfOk result (λ passed. passed ≡ true → from.new.scene ≡ to.new.scene) }
    ensures counts { IfOk result (λ passed. passed ≡ true → from.new.put ≡ to.new.taken) }
{
    if !from.wants_put(link) || !to.wants_take(link) {
        return Ok(false);
    }
    let mut ring = Ring::make(alloc, 1)?;
    match from.put(link, &mut ring) {
        Turned::NotYet => Ok(false),
        Turned::Acted => match to.take(link, &mut ring)? {
            Turned::NotYet => Ok(false),
            Turned::Acted => Ok(!from.wants_put(link) && !to.wants_take(link)),
        },
    }
}

// Whether both run a step, and the receiver has these rows.
fn step(
    alloc: Global,
    from: &mut AppMachine,
    to: &mut AppMachine,
    clock: u64,
    told: &[Told],
) -> Result<bool, NoMemory>
    requires scene { from.old.scene ≡ to.old.scene }
    requires counts { from.old.put ≡ to.old.taken }
    ensures scene { IfOk result (λ ran. ran ≡ true → from.new.scene ≡ to.new.scene) }
    ensures counts { IfOk result (λ ran. ran ≡ true → from.new.put ≡ to.new.taken) }
{
    if !from.wants_run() || to.wants_run() || !finds_nothing(alloc, to, LinkId(1))? {
        return Ok(false);
    }
    if !from.run(alloc)?.is_empty() || from.wants_run() || from.finished() {
        return Ok(false);
    }
    if !finds_no_room(alloc, from, LinkId(1))? {
        return Ok(false);
    }
    if !pass(alloc, from, to, LinkId(0))? || !pass(alloc, from, to, LinkId(1))? {
        return Ok(false);
    }
    if to.wants_run() || !pass(alloc, from, to, LinkId(2))? {
        return Ok(false);
    }
    if !to.wants_run() || to.finished() || to.clock().0 != clock {
        return Ok(false);
    }
    let rows = to.run(alloc)?;
    Ok(are_rows(rows.as_slice(), clock, told))
}

// Whether the three steps of both run as worked, and nothing is left to do behind them.
fn run_all(alloc: Global, from: &mut AppMachine, to: &mut AppMachine) -> Result<bool, NoMemory>
    requires scene { from.old.scene ≡ to.old.scene }
    requires counts { from.old.put ≡ to.old.taken }
{
    if !step(alloc, from, to, 0, FIRST)? || !step(alloc, from, to, 1_000_000, SECOND)? {
        return Ok(false);
    }
    if !step(alloc, from, to, 2_000_000, THIRD)? {
        return Ok(false);
    }
    Ok(from.finished() && to.finished() && !from.has_step() && !to.has_step())
}

fn drive(alloc: Global, scene: &Scene) -> Result<bool, NoMemory>
    requires faultless { IsFaultless scene.now }
    requires two { length scene.now.apps ≡ 2 }
{
    let mut from = AppMachine::start(alloc, scene, AppId(0))?;
    let mut to = AppMachine::start(alloc, scene, AppId(1))?;
    run_all(alloc, &mut from, &mut to)
}

fn runs_as_worked(alloc: Global) -> Result<bool, SetupFault> {
    let scene = scene_of(alloc, SCENE)?;
    if scene.apps.len() != 2 {
        return Ok(false);
    }
    match drive(alloc, &scene) {
        Ok(as_worked) => Ok(as_worked),
        Err(NoMemory) => Err(SetupFault::Memory),
    }
}

#[test]
fn machines_run_as_worked_by_hand(rt: HostRuntime) {
    assert!(rt; matches!(runs_as_worked(rt.alloc()), Ok(true)));
}
