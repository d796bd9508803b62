ghost use Rattle.std.specs.Prelude.{◌≡◌, ◌+◌, ◌-◌, ◌*◌, ◌^◌, ◌≤◌, [], length, IfOk};
ghost use Rattle.index_maps.specs.Cuts.{cuts_end};
ghost use Rattle.index_maps.specs.Maps.{rank_count};
ghost use Rattle.index_maps.specs.declared.span.TheConstants.{INDEX_LIMIT};
ghost use Rattle.event_routes.specs.Blocks.{AreRuns, cuts_of, routes_in};
ghost use Rattle.event_routes.specs.Routing.{AreRoutes, routed, routes_of, run_count};

use crate::Target;
use crate::block::TargetBlock;
use crate::gathering::gather;
use crate::joining::join;
use index_maps::{Cuts, Interval, PortMap, Steps};
use music_base::NoMemory;
use std::alloc::Global;
use std::marker::{Brand, Model};
use std::sync::ledger::{Blank, Ledger};

/// To which ranks of a receiver each index goes that its sender maps, and to which local places there. Contracts see the
/// index and its targets, for each index that has one, ascending.
///
/// A block of targets stands for each maximal interval of indices that the same ranks map. The intervals stand apart from
/// the blocks too, so that a look-up touches few bytes.
#[derive(Debug, Drop)]
pub struct Routes {
    cuts: Cuts,
    blocks: Vec<TargetBlock>,
}

impl Model for Routes {
    ghost use Rattle.std.specs.Prelude.{List, ◌≡◌};
    ghost use Rattle.event_routes.specs.Routing.{Route};

    ghost Value = { List Route };

    ghost use Rattle.event_routes.specs.Blocks.{AreRuns, cuts_of, routes_in};
    ghost use Rattle.index_maps.specs.declared.span.TheConstants.{INDEX_LIMIT};

    ghost view = { λ r. routes_in r.blocks.items };

    ghost invariant = { λ r. (r.cuts ≡ cuts_of r.blocks.items) × AreRuns r.blocks.items INDEX_LIMIT };
}

fn index_end(intervals: &[Interval]) -> u32
    ensures { result ≡ cuts_end 0 intervals.now }
{
    match intervals.last() {
        Some(last) => last.after,
        None => 0,
    }
}

fn intervals_of(alloc: Global, blocks: &[TargetBlock]) -> Result<Vec<Interval>, NoMemory>
    ensures { IfOk result (λ intervals. intervals.items ≡ cuts_of blocks.now) }
{
    let mut intervals = Vec::with_capacity(alloc, blocks.len())?;
    for block in blocks {
        intervals.push(block.interval)?;
    }
    Ok(intervals)
}

impl Routes {
    /// The routes from the sender's map to the receiver's. It takes memory for each target, and time for each index and
    /// each target.
    ///
    /// The receiver has at most 64 ranks.
    pub fn build(alloc: Global, sender: &PortMap, receiver: &PortMap) -> Result<Routes, NoMemory>
        requires { rank_count receiver.now ≤ 64 }
        ensures targets { IfOk result (λ routes. AreRoutes sender.now receiver.now routes) }
        ensures routes { IfOk result (λ routes. routes ≡ routes_of sender.now receiver.now) }
    {
        let intervals = sender.intervals(alloc)?;
        let lists = gather(alloc, receiver, index_end(intervals.as_slice()))?;
        let blocks = join(alloc, intervals.as_slice(), lists.as_slice())?;
        let cuts = Cuts::make(intervals_of(alloc, blocks.as_slice())?);
        Ok(Routes { cuts, blocks })
    }

    /// How many maximal intervals there are of indices that the sender maps, that some rank of the receiver maps, and that
    /// the same ranks of the receiver map. There are no more of them than of indices that both map.
    pub fn intervals(&self) -> u32
        ensures count { result ≡ run_count self.now }
        ensures few { run_count self.now ≤ length self.now }
    {
        self.cuts.count()
    }

    /// The ranks of the receiver that map the index, ascending, with its local places there, where the sender maps it; and
    /// else none. The interval of the index is found by halves.
    pub fn targets(&self, global: u32) -> &[Target]
        ensures { result.now ≡ routed self.now global }
    {
        self.targets_on::<Brand>(global, Blank::new(1))
    }

    fn targets_on<L: Ledger>(&self, global: u32, blank: Blank) -> &[Target]
        requires name { blank.name ≡ L.name }
        requires parts { blank.parts ≡ L.parts }
        requires some { blank.parts ≡ 1 }
        ensures { result.now ≡ routed self.now global }
    {
        let mut steps: Steps<L> = Steps::begin(blank);
        self.targets_counted(global, &mut steps)
    }

    /// The same, with a step counted for each interval that the index is compared with: at most t steps with
    /// `2^t <= 2n + 1` for n intervals.
    pub fn targets_counted<L: Ledger>(&self, global: u32, steps: &mut Steps<L>) -> &[Target]
        ensures targets { result.now ≡ routed self.now global }
        ensures counted { steps.old ≤ steps.new }
        ensures few { 2 ^ (steps.new - steps.old) ≤ 2 * run_count self.now + 1 }
    {
        match self.cuts.place_of(global, steps) {
            Some(place) => self.blocks[place as usize].targets_of(global),
            None => &[],
        }
    }
}
