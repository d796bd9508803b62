ghost use Rattle.std.specs.Prelude.{◌≡◌, ◌+◌, ◌<◌, ◌≤◌, ◌++◌, true, [], length, slice_index_or, OnOk, IfOk};
ghost use Rattle.std.specs.List.{flat_map};
ghost use Rattle.index_maps.specs.Intervals.{are_apart, interval_indices};
ghost use Rattle.index_maps.specs.declared.span.TheConstants.{INDEX_LIMIT};
ghost use Rattle.event_routes.specs.Blocks.{AreRuns, routes_in};
ghost use Rattle.event_routes.specs.Routing.{route_to, run_count};

use crate::Target;
use crate::block::TargetBlock;
use index_maps::Interval;
use music_base::{Items, NoMemory};
use std::alloc::Global;

/// The targets of an index, none where it has no list.
fn targets_at(lists: &[Items<Target>], global: u32) -> &[Target]
    ensures { result.now ≡ slice_index_or lists.now global [] }
{
    match lists.get(global as usize) {
        Some(targets) => targets.as_slice(),
        None => &[],
    }
}

/// Adds a block of one index.
fn begin(
    alloc: Global,
    blocks: &mut Vec<TargetBlock>,
    global: u32,
    targets: &[Target],
) -> Result<(), NoMemory>
    requires runs { AreRuns blocks.old.items global }
    requires breaks { run_count (routes_in blocks.old.items ++ route_to global targets.now) ≡ length blocks.old.items + 1 }
    requires limit { global < INDEX_LIMIT }
    requires some { 0 < length targets.now }
    ensures runs { OnOk result (AreRuns blocks.new.items (global + 1)) }
    ensures routes { OnOk result (routes_in blocks.new.items ≡ routes_in blocks.old.items ++ route_to global targets.now) }
{
    blocks.push(TargetBlock::of_index(alloc, global, targets)?)?;
    Ok(())
}

/// Adds an index with targets: to the last block where it goes on with that one's run, and else as a block of its own.
fn push_index(
    alloc: Global,
    blocks: &mut Vec<TargetBlock>,
    global: u32,
    targets: &[Target],
) -> Result<(), NoMemory>
    requires runs { AreRuns blocks.old.items global }
    requires limit { global < INDEX_LIMIT }
    requires some { 0 < length targets.now }
    ensures runs { OnOk result (AreRuns blocks.new.items (global + 1)) }
    ensures routes { OnOk result (routes_in blocks.new.items ≡ routes_in blocks.old.items ++ route_to global targets.now) }
{
    let Some(mut block) = blocks.pop() else {
        return begin(alloc, blocks, global, targets);
    };
    if !block.goes_on(global, targets) {
        blocks.push(block)?;
        return begin(alloc, blocks, global, targets);
    }
    block.push(targets)?;
    blocks.push(block)?;
    Ok(())
}

/// Adds an index where its list has targets.
fn push_listed(
    alloc: Global,
    blocks: &mut Vec<TargetBlock>,
    global: u32,
    lists: &[Items<Target>],
) -> Result<(), NoMemory>
    requires runs { AreRuns blocks.old.items global }
    requires few { length lists.now ≤ INDEX_LIMIT }
    ensures runs { OnOk result (AreRuns blocks.new.items (global + 1)) }
    ensures routes { OnOk result (routes_in blocks.new.items ≡ routes_in blocks.old.items ++ route_to global (slice_index_or lists.now global [])) }
{
    let targets = targets_at(lists, global);
    if targets.is_empty() {
        return Ok(());
    }
    push_index(alloc, blocks, global, targets)
}

/// Adds the indices of an interval that have targets.
fn push_interval(
    alloc: Global,
    blocks: &mut Vec<TargetBlock>,
    interval: Interval,
    lists: &[Items<Target>],
) -> Result<(), NoMemory>
    requires runs { AreRuns blocks.old.items interval.first }
    requires some { interval.first < interval.after }
    requires few { length lists.now ≤ INDEX_LIMIT }
    ensures runs { OnOk result (AreRuns blocks.new.items interval.after) }
    ensures routes { OnOk result (routes_in blocks.new.items ≡ routes_in blocks.old.items ++ flat_map (λ g. route_to g (slice_index_or lists.now g [])) (interval_indices interval)) }
{
    for global in interval.first..interval.after {
        push_listed(alloc, blocks, global, lists)?;
    }
    Ok(())
}

/// The blocks of the indices that stand in these intervals and have targets.
pub fn join(
    alloc: Global,
    intervals: &[Interval],
    lists: &[Items<Target>],
) -> Result<Vec<TargetBlock>, NoMemory>
    requires apart { are_apart intervals.now ≡ true }
    requires few { length lists.now ≤ INDEX_LIMIT }
    ensures runs { IfOk result (λ blocks. AreRuns blocks.items INDEX_LIMIT) }
    ensures routes { IfOk result (λ blocks. routes_in blocks.items ≡ flat_map (λ g. route_to g (slice_index_or lists.now g [])) (flat_map interval_indices intervals.now)) }
{
    let mut blocks = Vec::new(alloc);
    for interval in intervals {
        push_interval(alloc, &mut blocks, *interval, lists)?;
    }
    Ok(blocks)
}
