//! The indices of a map as a list.
ghost use Rattle.std.specs.Prelude.{◌≡◌, ◌++◌, IfOk, OnOk};
ghost use Rattle.std.specs.List.{flat_map};
ghost use Rattle.index_maps.specs.Intervals.{interval_indices};
ghost use Rattle.index_maps.specs.Maps.{indices};

use crate::{Interval, PortMap};
use music_base::{Items, NoMemory};
use std::alloc::Global;

fn push_interval(list: &mut Vec<u32>, interval: Interval) -> Result<(), NoMemory>
    ensures { OnOk result (list.new.items ≡ list.old.items ++ interval_indices interval) }
{
    for index in interval.first..interval.after {
        list.push(index)?;
    }
    Ok(())
}

/// All indices of the intervals, in order.
fn listed(alloc: Global, intervals: &[Interval]) -> Result<Items<u32>, NoMemory>
    ensures { IfOk result (λ list. list ≡ flat_map interval_indices intervals.now) }
{
    let mut list = Vec::new(alloc);
    for interval in intervals {
        push_interval(&mut list, *interval)?;
    }
    Ok(Items::from_vec(list))
}

impl PortMap {
    /// The indices that some rank maps, ascending and each once.
    pub fn indices(&self, alloc: Global) -> Result<Items<u32>, NoMemory>
        ensures { IfOk result (λ list. list ≡ indices self.now) }
    {
        let intervals = self.intervals(alloc)?;
        listed(alloc, intervals.as_slice())
    }
}
