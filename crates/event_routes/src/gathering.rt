ghost use Rattle.std.specs.Prelude.{◌≡◌, ◌<◌, ◌≤◌, ◌++◌, ℕ, true, [], ◌∷◌, length, nat_lt, slice_index, slice_index_or, slice_set, OnOk, IfOk};
ghost use Rattle.std.specs.List.{list_all};
ghost use Rattle.std.specs.Option.{option_to_list};
ghost use Rattle.index_maps.specs.Maps.{globals_of, rank_count};
ghost use Rattle.index_maps.specs.declared.span.TheConstants.{INDEX_LIMIT};
ghost use Rattle.event_routes.specs.Routing.{target_on, targets_of};

use crate::Target;
use index_maps::{INDEX_LIMIT, PortMap};
use music_base::{Items, NoMemory, Rank};
use std::alloc::Global;

/// So many empty lists.
fn empty_lists(alloc: Global, count: u32) -> Result<Vec<Items<Target>>, NoMemory>
    ensures count { IfOk result (λ lists. length lists.items ≡ count) }
    ensures empty { IfOk result (λ lists. (g : ℕ) → slice_index_or lists.items g [] ≡ []) }
{
    let mut lists = Vec::with_capacity(alloc, count as usize)?;
    for _ in 0..count {
        lists.push(Items::new(alloc))?;
    }
    Ok(lists)
}

/// Adds a target to the list of an index, where the index has one.
fn push_target(lists: &mut Vec<Items<Target>>, global: u32, target: Target) -> Result<(), NoMemory>
    ensures { OnOk result (lists.new.items ≡ slice_set lists.old.items global (slice_index_or lists.old.items global [] ++ target ∷ [])) }
{
    let place = global as usize;
    if place < lists.len() {
        lists[place].push(target)?;
    }
    Ok(())
}

/// Adds the target at a local place of a rank to the list of its index.
fn push_local(
    lists: &mut Vec<Items<Target>>,
    map: &PortMap,
    rank: Rank,
    local: u32,
) -> Result<(), NoMemory>
    requires rank { rank < rank_count map.now }
    requires local { local < length (globals_of map.now rank) }
    ensures { let global = slice_index (globals_of map.now rank) local in
        OnOk result (lists.new.items ≡ slice_set lists.old.items global (slice_index_or lists.old.items global [] ++ record { rank = rank; local = local } ∷ [])) }
{
    match map.global_at(rank, local) {
        Some(global) => push_target(lists, global, Target { rank, local }),
        None => Ok(()),
    }
}

/// Adds the targets of one rank to the lists of its indices.
fn push_rank(lists: &mut Vec<Items<Target>>, map: &PortMap, rank: Rank) -> Result<(), NoMemory>
    requires { rank < rank_count map.now }
    ensures count { OnOk result (length lists.new.items ≡ length lists.old.items) }
    ensures targets { OnOk result ((g : ℕ) → g < length lists.old.items → slice_index_or lists.new.items g [] ≡ slice_index_or lists.old.items g [] ++ option_to_list (target_on map.now g rank)) }
    ensures small { OnOk result (list_all (λ i. nat_lt i INDEX_LIMIT) (globals_of map.now rank) ≡ true) }
{
    for local in 0..map.size_at(rank) {
        push_local(lists, map, rank, local)?;
    }
    Ok(())
}

fn rank_count(map: &PortMap) -> u32
    requires { rank_count map.now ≤ 64 }
    ensures { result ≡ rank_count map.now }
{
    match map {
        PortMap::Each(maps) => maps.len() as u32,
        PortMap::Split { span: _, ranks } => *ranks,
    }
}

/// The targets of each index below an end, in a list for each index that there may be.
///
/// There are at most 64 ranks. Each index of each rank is looked at once.
pub fn gather(alloc: Global, map: &PortMap, end: u32) -> Result<Vec<Items<Target>>, NoMemory>
    requires { rank_count map.now ≤ 64 }
    ensures few { IfOk result (λ lists. length lists.items ≤ INDEX_LIMIT) }
    ensures targets { IfOk result (λ lists. (g : ℕ) → g < end → slice_index_or lists.items g [] ≡ targets_of map.now g) }
{
    let mut lists = empty_lists(alloc, end.min(INDEX_LIMIT))?;
    for rank in 0..rank_count(map) {
        push_rank(&mut lists, map, Rank(rank))?;
    }
    Ok(lists)
}
