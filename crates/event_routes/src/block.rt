ghost use Rattle.std.specs.Prelude.{◌≡◌, ◌==◌, ◌&&◌, ◌+◌, ◌-◌, ◌*◌, ◌<◌, ◌≤◌, [], ◌∷◌, ◌++◌, true, length, drop, OnOk, IfOk};
ghost use Rattle.index_maps.specs.Intervals.{holds, single};
ghost use Rattle.index_maps.specs.declared.span.TheConstants.{INDEX_LIMIT};
ghost use Rattle.event_routes.specs.Blocks.{IsBlock, block_routes, targets_at, width};
ghost use Rattle.event_routes.specs.Routing.{same_ranks};

use crate::Target;
use index_maps::Interval;
use music_base::NoMemory;
use std::alloc::Global;

/// Consecutive indices that the same ranks map, and for each of them in order its targets, one for each rank.
#[derive(Debug, Drop)]
pub struct TargetBlock {
    pub interval: Interval,
    ranks: usize,
    targets: Vec<Target>,
}

fn same_ranks(targets: &[Target], others: &[Target]) -> bool
    ensures { result ≡ same_ranks targets.now others.now }
{
    if targets.len() != others.len() {
        return false;
    }
    for place in 0..targets.len() {
        if targets[place].rank != others[place].rank {
            return false;
        }
    }
    true
}

impl TargetBlock {
    /// The block of one index.
    pub fn of_index(alloc: Global, global: u32, targets: &[Target]) -> Result<TargetBlock, NoMemory>
        requires limit { global < INDEX_LIMIT }
        requires some { 0 < length targets.now }
        ensures block { IfOk result (λ block. IsBlock block) }
        ensures interval { IfOk result (λ block. block.interval ≡ single global) }
        ensures routes { IfOk result (λ block. block_routes block ≡ record { global = global; targets = targets.now } ∷ []) }
    {
        Ok(TargetBlock {
            interval: Interval {
                first: global,
                after: global + 1,
            },
            ranks: targets.len(),
            targets: Vec::from_slice(alloc, targets)?,
        })
    }

    /// The targets of an index of the block.
    pub fn targets_of(&self, global: u32) -> &[Target]
        requires block { IsBlock self.now }
        requires holds { holds global self.now.interval ≡ true }
        ensures { result.now ≡ targets_at self.now (global - self.now.interval.first) }
    {
        let from = (global - self.interval.first) as usize * self.ranks;
        &self.targets[from..from + self.ranks]
    }

    /// Whether an index follows the last one of the block, and goes to the same ranks.
    pub fn goes_on(&self, global: u32, targets: &[Target]) -> bool
        requires { IsBlock self.now }
        ensures { result ≡ ((self.now.interval.after == global) && same_ranks (targets_at self.now (width self.now - 1)) targets.now) }
    {
        self.interval.after == global
            && same_ranks(self.targets_of(self.interval.after - 1), targets)
    }

    /// The next index, whose targets are of the same ranks.
    pub fn push(&mut self, targets: &[Target]) -> Result<(), NoMemory>
        requires block { IsBlock self.old }
        requires ranks { length targets.now ≡ self.old.ranks }
        requires limit { self.old.interval.after < INDEX_LIMIT }
        ensures block { OnOk result (IsBlock self.new) }
        ensures first { OnOk result (self.new.interval.first ≡ self.old.interval.first) }
        ensures after { OnOk result (self.new.interval.after ≡ self.old.interval.after + 1) }
        ensures routes { OnOk result (block_routes self.new ≡ block_routes self.old ++ record { global = self.old.interval.after; targets = targets.now } ∷ []) }
    {
        self.targets.extend_from_slice(targets)?;
        self.interval.after += 1;
        Ok(())
    }
}
