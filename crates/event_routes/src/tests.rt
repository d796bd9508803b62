//! Routes of small maps: worked rows, and the plain program that asks each rank for each of its indices.
ghost use Rattle.std.specs.Prelude.{◌≡◌, ◌≤◌, nat_lt, length, IfOk};
ghost use Rattle.std.specs.List.{list_all};
ghost use Rattle.index_maps.specs.Maps.{rank_count};
ghost use Rattle.index_maps.specs.declared.span.TheConstants.{INDEX_LIMIT};

use crate::{Routes, Target};
use index_maps::{INDEX_LIMIT, IndexMap, MapFault, PortMap, Span, permutation};
use music_base::{Items, NoMemory, Rank};
use std::alloc::Global;
use std::process::Abort;

/// What a rank maps: consecutive indices from a base, or a list.
#[derive(Clone, Copy)]
enum RankRow {
    Linear(u32, u32),
    List(&'static [u32]),
}

use RankRow::{Linear, List};

/// A sender, a receiver, an index, and the ranks and local places that it goes to.
const TARGETS: &[(&[RankRow], &[RankRow], u32, &[(u32, u32)])] = &[
    // an index at two ranks, at one, and past all
    (
        &[Linear(0, 10)],
        &[Linear(0, 4), Linear(2, 4)],
        2,
        &[(0, 2), (1, 0)],
    ),
    (
        &[Linear(0, 10)],
        &[Linear(0, 4), Linear(2, 4)],
        0,
        &[(0, 0)],
    ),
    (
        &[Linear(0, 10)],
        &[Linear(0, 4), Linear(2, 4)],
        5,
        &[(1, 3)],
    ),
    (&[Linear(0, 10)], &[Linear(0, 4), Linear(2, 4)], 6, &[]),
    // what the sender does not map goes nowhere
    (&[Linear(3, 2)], &[Linear(0, 10)], 2, &[]),
    (&[Linear(3, 2)], &[Linear(0, 10)], 3, &[(0, 3)]),
    (&[Linear(3, 2)], &[Linear(0, 10)], 5, &[]),
    (&[Linear(0, 2), List(&[7])], &[Linear(0, 10)], 7, &[(0, 7)]),
    // lists in any order, and ranks that map nothing
    (
        &[Linear(0, 10)],
        &[List(&[5, 1, 3]), Linear(0, 0), List(&[3, 5])],
        5,
        &[(0, 0), (2, 1)],
    ),
    (
        &[Linear(0, 10)],
        &[List(&[5, 1, 3]), Linear(0, 0), List(&[3, 5])],
        3,
        &[(0, 2), (2, 0)],
    ),
    (
        &[Linear(0, 10)],
        &[List(&[5, 1, 3]), Linear(0, 0), List(&[3, 5])],
        2,
        &[],
    ),
    // no rank, and no index
    (&[], &[Linear(0, 10)], 0, &[]),
    (&[Linear(0, 10)], &[], 0, &[]),
    // the last index
    (
        &[Linear(65_535, 1)],
        &[Linear(65_530, 6)],
        65_535,
        &[(0, 5)],
    ),
];

/// A sender, a receiver, and how many intervals of indices there are that the same ranks map.
const INTERVALS: &[(&[RankRow], &[RankRow], u32)] = &[
    (&[Linear(0, 6)], &[Linear(0, 4), Linear(2, 4)], 3),
    (&[Linear(0, 600)], &[Linear(0, 600)], 1),
    // other local places break no interval, and a hole of the sender does
    (&[Linear(0, 6)], &[List(&[3, 1, 2, 0])], 1),
    (&[Linear(0, 2), Linear(3, 2)], &[Linear(0, 6)], 2),
    // the same number of other ranks
    (&[Linear(0, 6)], &[Linear(0, 3), Linear(3, 3)], 2),
    (&[Linear(0, 6)], &[Linear(6, 3)], 0),
];

fn are_indices(list: &[u32]) -> bool
    ensures { result ≡ list_all (λ i. nat_lt i INDEX_LIMIT) list.now }
{
    list.iter().all(|index| *index < INDEX_LIMIT)
}

fn map_of_rank(alloc: Global, row: RankRow) -> Result<IndexMap, MapFault> {
    match row {
        Linear(base, size) => {
            if base > INDEX_LIMIT || size > INDEX_LIMIT - base {
                return Err(MapFault::Memory);
            }
            Ok(IndexMap::Linear(Span::new(base, size)))
        }
        List(list) => {
            if !are_indices(list) {
                return Err(MapFault::Memory);
            }
            let entries = Vec::from_slice(alloc, list).map_err(|_| MapFault::Memory)?;
            permutation(alloc, entries)
        }
    }
}

fn map_of(alloc: Global, rows: &[RankRow]) -> Result<PortMap, MapFault>
    ensures { IfOk result (λ map. rank_count map ≡ length rows.now) }
{
    let mut maps = Vec::new(alloc);
    for row in rows {
        maps.push(map_of_rank(alloc, *row)?)
            .map_err(|_| MapFault::Memory)?;
    }
    Ok(PortMap::Each(Items::from_vec(maps)))
}

fn routes_of(alloc: Global, sender: &[RankRow], receiver: &[RankRow]) -> Result<Routes, MapFault> {
    if receiver.len() > 64 {
        return Err(MapFault::Memory);
    }
    let sender = map_of(alloc, sender)?;
    let receiver = map_of(alloc, receiver)?;
    Ok(Routes::build(alloc, &sender, &receiver)?)
}

// The targets of an index by the definition alone: each place of each rank is asked.
fn plain_targets(
    alloc: Global,
    sender: &PortMap,
    receiver: &PortMap,
    ranks: u32,
    global: u32,
) -> Result<Vec<Target>, NoMemory>
    requires { ranks ≤ rank_count receiver.now }
{
    let mut targets = Vec::new(alloc);
    if !sender.maps(global) {
        return Ok(targets);
    }
    for rank in 0..ranks {
        let rank = Rank(rank);
        for local in 0..receiver.size_at(rank) {
            if receiver.global_at(rank, local) == Some(global) {
                targets.push(Target { rank, local })?;
            }
        }
    }
    Ok(targets)
}

// Whether the routes have the same targets as the plain program for each index below an end.
fn are_plain(
    alloc: Global,
    sender: &PortMap,
    receiver: &PortMap,
    ranks: u32,
    end: u32,
) -> Result<bool, NoMemory>
    requires few { rank_count receiver.now ≤ 64 }
    requires ranks { ranks ≤ rank_count receiver.now }
{
    let routes = Routes::build(alloc, sender, receiver)?;
    for global in 0..end {
        let plain = plain_targets(alloc, sender, receiver, ranks, global)?;
        if routes.targets(global) != plain.as_slice() {
            return Ok(false);
        }
    }
    Ok(true)
}

fn rows_are_plain(
    alloc: Global,
    sender: &[RankRow],
    receiver: &[RankRow],
) -> Result<bool, MapFault> {
    if receiver.len() > 64 {
        return Err(MapFault::Memory);
    }
    let ranks = receiver.len() as u32;
    let sender = map_of(alloc, sender)?;
    let receiver = map_of(alloc, receiver)?;
    Ok(are_plain(alloc, &sender, &receiver, ranks, 20)?)
}

fn are_targets(targets: &[Target], expected: &[(u32, u32)]) -> bool {
    if targets.len() != expected.len() {
        return false;
    }
    for (target, (rank, local)) in targets.iter().zip(expected) {
        if target.rank != Rank(*rank) || target.local != *local {
            return false;
        }
    }
    true
}

#[test]
fn an_index_goes_to_the_ranks_that_map_it(rt: HostRuntime) -> Result<(), MapFault> {
    for (sender, receiver, global, expected) in TARGETS {
        let routes = routes_of(rt.alloc(), sender, receiver)?;
        assert!(rt; are_targets(routes.targets(*global), expected));
    }
    Ok(())
}

#[test]
fn intervals_are_maximal(rt: HostRuntime) -> Result<(), MapFault> {
    for (sender, receiver, count) in INTERVALS {
        let routes = routes_of(rt.alloc(), sender, receiver)?;
        assert!(rt; routes.intervals() == *count);
    }
    Ok(())
}

#[test]
fn routes_are_those_of_the_plain_program(rt: HostRuntime) -> Result<(), MapFault> {
    for (sender, receiver, _, _) in TARGETS {
        assert!(rt; rows_are_plain(rt.alloc(), sender, receiver)?);
    }
    Ok(())
}

// Three indices over five ranks: ranks 0 and 2 map none.
#[test]
fn a_split_goes_to_one_rank(rt: HostRuntime) -> Result<(), NoMemory> {
    let alloc = rt.alloc();
    let span = Span::new(0, 3);
    let split = PortMap::Split { span, ranks: 5 };
    let routes = Routes::build(alloc, &split, &split)?;
    assert!(rt; are_targets(routes.targets(0), &[(1, 0)]));
    assert!(rt; are_targets(routes.targets(1), &[(3, 0)]));
    assert!(rt; are_targets(routes.targets(2), &[(4, 0)]));
    assert!(rt; routes.intervals() == 3);
    assert!(rt; are_plain(alloc, &split, &split, 5, 4)?);
    Ok(())
}
