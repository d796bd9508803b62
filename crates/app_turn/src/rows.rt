//! The rows of one rank of a port, made of what the port read.
ghost use Rattle.std.specs.Prelude.{◌≡◌, ◌<◌, ◌≤◌, ◌++◌, map, IfOk, IfSome, OnOk};
ghost use Rattle.std.specs.List.{flat_map};
ghost use Rattle.std.specs.Option.{option_to_list};
ghost use Rattle.index_maps.specs.Maps.{globals_of, rank_count};
ghost use Rattle.scene_model.specs.Logs.{arrived_at, read_at};
ghost use Rattle.scene_model.specs.Tables.{value_in};
ghost use Rattle.rule_turns.specs.Turning.{AreAscending, IsInput};
ghost use Rattle.app_turn.specs.Rows.{IsSpanOf, rank_rows_of, row_of};

use crate::rank_indices::{global_by, local_by, size_by, span_at};
use index_maps::{PortMap, Span};
use music_base::{AppId, Item, Items, Nanos, NoMemory, PortId, Rank, Sample, TryCopy};
use rule_turns::value_at;
use scene_model::{Direction, PortDecl, PortKind, Row, RowItem};
use std::alloc::Global;

/// Where and when something is read: at the clock of a step, in ns, by a rank of an input.
#[derive(Clone, Copy, Debug)]
pub struct ReadAt {
    pub clock: Nanos,
    pub app: AppId,
    pub port: PortId,
    pub rank: Rank,
}

fn row_of(place: &ReadAt, item: RowItem) -> Row
    ensures { result ≡ row_of place.now item }
{
    Row {
        clock: place.clock,
        app: place.app,
        port: place.port,
        rank: place.rank,
        item,
    }
}

/// The value of an index among these items, and 0 where none has it.
fn value_in(items: &[Item], index: u32) -> Sample
    ensures { result ≡ value_in items.now index }
{
    for item in items {
        if let Item::Value { global, value } = item {
            if *global == index {
                return *value;
            }
        }
    }
    Sample(0)
}

/// The value at a place, where that is one of this index.
fn value_there(items: &[Item], place: usize, index: u32) -> Option<Sample>
    requires { AreAscending 0 items.now }
    ensures { IfSome result (λ value. value ≡ value_in items.now index) }
{
    value_at(items, place, index)
}

/// Where the index stands among values that ascend, found by halves. Whoever asks looks there and sees.
fn place_by_halves(items: &[Item], index: u32) -> usize {
    let mut low = 0;
    let mut high = items.len();
    while low < high {
        let middle = low + (high - low) / 2;
        match &items[middle] {
            Item::Value { global, .. } if *global < index => low = middle + 1,
            _ => high = middle,
        }
    }
    low
}

/// The value of an index, looked for at a place first, then by halves.
fn value_near(items: &[Item], near: usize, index: u32) -> Sample
    requires { AreAscending 0 items.now }
    ensures { result ≡ value_in items.now index }
{
    if let Some(value) = value_there(items, near, index) {
        return value;
    }
    match value_there(items, place_by_halves(items, index), index) {
        Some(value) => value,
        None => value_in(items, index),
    }
}

/// Where the first index of a rank stands among values that ascend.
fn first_place(items: &[Item], ports: &PortMap, rank: Rank, span: &Option<Span>) -> usize
    requires rank { rank < rank_count ports.now }
    requires span { IfSome span.now (IsSpanOf (globals_of ports.now rank)) }
{
    match global_by(ports, rank, span, 0) {
        Some(global) => place_by_halves(items, global),
        None => 0,
    }
}

/// Adds the values of a rank's indices. Where these are consecutive, so are the places of their values.
fn push_values(
    rows: &mut Items<Row>,
    place: &ReadAt,
    ports: &PortMap,
    items: &[Item],
) -> Result<(), NoMemory>
    requires rank { place.now.rank < rank_count ports.now }
    requires ascend { AreAscending 0 items.now }
    ensures { OnOk result (rows.new ≡ rows.old ++ map (row_of place.now) (read_at (globals_of ports.now place.now.rank) (value_in items.now))) }
{
    let span = span_at(ports, place.rank);
    let near = first_place(items, ports, place.rank, &span);
    for local in 0..size_by(ports, place.rank, &span) {
        if let Some(global) = global_by(ports, place.rank, &span, local) {
            let value = value_near(items, near.saturating_add(local as usize), global);
            rows.push(row_of(
                place,
                RowItem::Value {
                    local,
                    global,
                    value,
                },
            ))?;
        }
    }
    Ok(())
}

/// What a rank of a port gets of an arrival.
pub fn arrived(
    alloc: Global,
    ports: &PortMap,
    rank: Rank,
    span: &Option<Span>,
    item: &Item,
) -> Result<Option<RowItem>, NoMemory>
    requires rank { rank < rank_count ports.now }
    requires span { IfSome span.now (IsSpanOf (globals_of ports.now rank)) }
    ensures { IfOk result (λ got. option_to_list got ≡ arrived_at (globals_of ports.now rank) item.now) }
{
    match item {
        Item::Event(event) => match local_by(ports, rank, span, event.global) {
            Some(local) => Ok(Some(RowItem::Event {
                local,
                global: event.global,
                time: event.time,
            })),
            None => Ok(None),
        },
        Item::Message(message) => Ok(Some(RowItem::Message {
            time: message.time,
            word: message.word.copy(alloc)?,
        })),
        Item::Value { .. } => Ok(None),
    }
}

pub fn push_got(rows: &mut Items<Row>, place: &ReadAt, got: Option<RowItem>) -> Result<(), NoMemory>
    ensures { OnOk result (rows.new ≡ rows.old ++ map (row_of place.now) (option_to_list got)) }
{
    match got {
        Some(item) => rows.push(row_of(place, item)),
        None => Ok(()),
    }
}

/// Adds the arrivals that a rank of a port gets.
fn push_arrivals(
    alloc: Global,
    rows: &mut Items<Row>,
    place: &ReadAt,
    ports: &PortMap,
    items: &[Item],
) -> Result<(), NoMemory>
    requires { place.now.rank < rank_count ports.now }
    ensures { OnOk result (rows.new ≡ rows.old ++ map (row_of place.now) (flat_map (arrived_at (globals_of ports.now place.now.rank)) items.now)) }
{
    let span = span_at(ports, place.rank);
    for item in items {
        let got = arrived(alloc, ports, place.rank, &span, item)?;
        push_got(rows, place, got)?;
    }
    Ok(())
}

/// Adds what a rank of a port gets.
pub fn push_rank(
    alloc: Global,
    rows: &mut Items<Row>,
    place: &ReadAt,
    decl: &PortDecl,
    items: &[Item],
) -> Result<(), NoMemory>
    requires rank { place.now.rank < rank_count decl.now.map }
    requires shaped { IsInput decl.now.direction decl.now.kind decl.now items.now }
    ensures { OnOk result (rows.new ≡ rows.old ++ rank_rows_of decl.now place.now items.now) }
{
    match (decl.direction, decl.kind) {
        (Direction::Output, _) => Ok(()),
        (Direction::Input, PortKind::Values) => push_values(rows, place, &decl.map, items),
        (Direction::Input, PortKind::Events | PortKind::Messages) => {
            push_arrivals(alloc, rows, place, &decl.map, items)
        }
    }
}

pub fn rank_count(map: &PortMap) -> u32
    requires { rank_count map.now ≤ 64 }
    ensures { result ≡ rank_count map.now }
{
    match map {
        PortMap::Each(maps) => maps.len() as u32,
        PortMap::Split { span: _, ranks } => *ranks,
    }
}
