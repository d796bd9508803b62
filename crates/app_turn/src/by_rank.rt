//! The arrivals of a step at a port whose indices are split over its ranks, sorted by rank in one pass.
ghost use Rattle.std.specs.Prelude.{◌≡◌, ◌<◌, ◌≤◌, ◌++◌, ◌⊎◌, ℕ, [], ◌∷◌, map, length, slice_index_or, slice_set, IfOk, IfSome, OnOk};
ghost use Rattle.std.specs.List.{flat_map};
ghost use Rattle.index_maps.specs.Maps.{globals_of, rank_count};
ghost use Rattle.scene_model.specs.Logs.{arrived_at, places_of};
ghost use Rattle.scene_model.specs.declared.port.Direction.TheVariants.{Input};
ghost use Rattle.scene_model.specs.declared.port.PortKind.TheVariants.{Events};
ghost use Rattle.app_turn.specs.ByRank.{IsOnlyRank, got_at, no_item};
ghost use Rattle.app_turn.specs.Rows.{IsSpanOf, port_rows_of, row_of};

use crate::rank_indices::span_at;
use crate::rows::{ReadAt, arrived, push_got, rank_count};
use index_maps::{PortMap, Span};
use music_base::{AppId, Item, Items, Nanos, NoMemory, PortId, Rank};
use scene_model::{PortDecl, Row};
use std::alloc::Global;

/// Where an index lies in a split, if it does. The part of rank r begins at r * size / ranks, rounded down. Whoever asks looks
/// there and sees.
fn likely_rank(span: Span, ranks: u32, global: u32) -> Rank
    requires { 0 < ranks }
    ensures { result < ranks }
{
    let place = u64::from(global.saturating_sub(span.base()));
    let parts = (place + 1).saturating_mul(u64::from(ranks));
    let rank = (parts - 1).checked_div(u64::from(span.size())).unwrap_or(0);
    Rank(rank.min(u64::from(ranks - 1)) as u32)
}

/// The one rank that maps an index, where the map splits its indices and one of its ranks has it.
fn rank_in_split(map: &PortMap, global: u32) -> Option<Rank>
    ensures within { IfSome result (λ rank. rank < rank_count map.now) }
    ensures only { IfSome result (λ rank. (r : ℕ) → r < rank_count map.now → (r < rank) ⊎ (rank < r) → places_of (globals_of map.now r) global ≡ []) }
{
    match map {
        PortMap::Split { span, ranks } if 0 < *ranks => {
            let rank = likely_rank(*span, *ranks, global);
            map.local_at(rank, global)?;
            Some(rank)
        }
        _ => None,
    }
}

/// The one rank that gets something of an item, where it is known.
fn only_rank(map: &PortMap, item: &Item) -> Option<Rank>
    ensures within { IfSome result (λ rank. rank < rank_count map.now) }
    ensures only { IfSome result (IsOnlyRank map.now item.now) }
{
    match item {
        Item::Event(event) => rank_in_split(map, event.global),
        _ => None,
    }
}

/// So many empty lists.
fn empty_lists(alloc: Global, count: u32) -> Result<Vec<Items<usize>>, NoMemory>
    ensures count { IfOk result (λ lists. length lists.items ≡ count) }
    ensures empty { IfOk result (λ lists. (r : ℕ) → slice_index_or lists.items r [] ≡ []) }
{
    let mut lists = Vec::with_capacity(alloc, count as usize)?;
    for _ in 0..count {
        lists.push(Items::new(alloc))?;
    }
    Ok(lists)
}

fn push_place(lists: &mut Vec<Items<usize>>, rank: usize, place: usize) -> Result<(), NoMemory>
    requires { rank < length lists.old.items }
    ensures { OnOk result (lists.new.items ≡ slice_set lists.old.items rank (slice_index_or lists.old.items rank [] ++ place ∷ [])) }
{
    lists[rank].push(place)
}

fn push_to_all(lists: &mut Vec<Items<usize>>, place: usize) -> Result<(), NoMemory>
    ensures count { OnOk result (length lists.new.items ≡ length lists.old.items) }
    ensures pushed { OnOk result ((r : ℕ) → r < length lists.old.items → slice_index_or lists.new.items r [] ≡ slice_index_or lists.old.items r [] ++ place ∷ []) }
{
    for rank in 0..lists.len() {
        push_place(lists, rank, place)?;
    }
    Ok(())
}

/// Adds the place of an item to the list of each rank that gets something of it.
fn push_item(
    lists: &mut Vec<Items<usize>>,
    map: &PortMap,
    items: &[Item],
    place: usize,
) -> Result<(), NoMemory>
    requires place { place < length items.now }
    requires ranks { length lists.old.items ≡ rank_count map.now }
    ensures count { OnOk result (length lists.new.items ≡ length lists.old.items) }
    ensures got { OnOk result ((r : ℕ) → r < rank_count map.now → let globals = globals_of map.now r in
        got_at globals items.now (slice_index_or lists.new.items r []) ≡ got_at globals items.now (slice_index_or lists.old.items r []) ++ arrived_at globals (slice_index_or items.now place no_item)) }
{
    match only_rank(map, &items[place]) {
        Some(rank) => push_place(lists, rank.0 as usize, place),
        None => push_to_all(lists, place),
    }
}

/// For each rank of a port the places of the items that it gets something of.
fn places_by_rank(
    alloc: Global,
    map: &PortMap,
    items: &[Item],
) -> Result<Vec<Items<usize>>, NoMemory>
    requires { rank_count map.now ≤ 64 }
    ensures count { IfOk result (λ lists. length lists.items ≡ rank_count map.now) }
    ensures got { IfOk result (λ lists. (r : ℕ) → r < rank_count map.now →
        got_at (globals_of map.now r) items.now (slice_index_or lists.items r []) ≡ flat_map (arrived_at (globals_of map.now r)) items.now) }
{
    let mut lists = empty_lists(alloc, rank_count(map))?;
    for place in 0..items.len() {
        push_item(&mut lists, map, items, place)?;
    }
    Ok(lists)
}

/// Adds what a rank gets of the item at a place.
fn push_item_at(
    alloc: Global,
    rows: &mut Items<Row>,
    place: &ReadAt,
    ports: &PortMap,
    span: &Option<Span>,
    items: &[Item],
    at: usize,
) -> Result<(), NoMemory>
    requires rank { place.now.rank < rank_count ports.now }
    requires span { IfSome span.now (IsSpanOf (globals_of ports.now place.now.rank)) }
    ensures { OnOk result (rows.new ≡ rows.old ++ map (row_of place.now) (arrived_at (globals_of ports.now place.now.rank) (slice_index_or items.now at no_item))) }
{
    match items.get(at) {
        Some(item) => {
            let got = arrived(alloc, ports, place.rank, span, item)?;
            push_got(rows, place, got)
        }
        None => Ok(()),
    }
}

/// Adds what a rank gets of the items at these places.
fn push_places(
    alloc: Global,
    rows: &mut Items<Row>,
    place: &ReadAt,
    ports: &PortMap,
    items: &[Item],
    places: &[usize],
) -> Result<(), NoMemory>
    requires { place.now.rank < rank_count ports.now }
    ensures { OnOk result (rows.new ≡ rows.old ++ map (row_of place.now) (got_at (globals_of ports.now place.now.rank) items.now places.now)) }
{
    let span = span_at(ports, place.rank);
    for at in places {
        push_item_at(alloc, rows, place, ports, &span, items, *at)?;
    }
    Ok(())
}

/// Adds what the ranks of a port get of the items at their places, rank by rank.
fn push_lists(
    alloc: Global,
    rows: &mut Items<Row>,
    clock: Nanos,
    app: AppId,
    port: PortId,
    decl: &PortDecl,
    items: &[Item],
    lists: &[Items<usize>],
) -> Result<(), NoMemory>
    requires few { rank_count decl.now.map ≤ 64 }
    requires input { decl.now.direction ≡ Input }
    requires events { decl.now.kind ≡ Events }
    requires count { length lists.now ≡ rank_count decl.now.map }
    requires got { (r : ℕ) → r < rank_count decl.now.map →
        got_at (globals_of decl.now.map r) items.now (slice_index_or lists.now r []) ≡ flat_map (arrived_at (globals_of decl.now.map r)) items.now }
    ensures { OnOk result (rows.new ≡ rows.old ++ port_rows_of decl.now clock app port items.now) }
{
    for rank in 0..lists.len() {
        let place = ReadAt {
            clock,
            app,
            port,
            rank: Rank(rank as u32),
        };
        push_places(
            alloc,
            rows,
            &place,
            &decl.map,
            items,
            lists[rank].as_slice(),
        )?;
    }
    Ok(())
}

/// Adds the arrivals that the ranks of a port get, rank by rank, where each is looked at once to find its ranks.
pub fn push_sorted(
    alloc: Global,
    rows: &mut Items<Row>,
    clock: Nanos,
    app: AppId,
    port: PortId,
    decl: &PortDecl,
    items: &[Item],
) -> Result<(), NoMemory>
    requires few { rank_count decl.now.map ≤ 64 }
    requires input { decl.now.direction ≡ Input }
    requires events { decl.now.kind ≡ Events }
    ensures { OnOk result (rows.new ≡ rows.old ++ port_rows_of decl.now clock app port items.now) }
{
    let lists = places_by_rank(alloc, &decl.map, items)?;
    push_lists(alloc, rows, clock, app, port, decl, items, &lists)
}
