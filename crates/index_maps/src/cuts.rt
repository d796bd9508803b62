ghost use Rattle.std.specs.Prelude.{◌≡◌, ◌+◌, ◌-◌, ◌*◌, ◌^◌, ◌<◌, ◌≤◌, true, length, slice_index_or, vec_len};
ghost use Rattle.std.specs.List.{position};
ghost use Rattle.index_maps.specs.Cuts.{are_cuts, no_interval, side_of};
ghost use Rattle.index_maps.specs.Intervals.{holds};
ghost use Rattle.index_maps.specs.declared.span.TheConstants.{INDEX_LIMIT};

use crate::{Interval, Steps};
use std::cmp::Ordering;
use std::marker::Model;
use std::sync::ledger::Ledger;

/// Ascending intervals of which none is empty and no two share an index, at most 65,536. Contracts see the list.
///
/// Where an index lies is told by `side` alone, which counts each comparison.
#[derive(Debug, Drop)]
pub struct Cuts {
    intervals: Vec<Interval>,
}

impl Model for Cuts {
    ghost use Rattle.std.specs.Prelude.{List, length, true, ◌≡◌, ◌≤◌};
    ghost use Rattle.index_maps.specs.Cuts.{are_cuts};
    ghost use Rattle.index_maps.specs.declared.interval.Interval.{Interval};
    ghost use Rattle.index_maps.specs.declared.span.TheConstants.{INDEX_LIMIT};

    ghost Value = { List Interval };

    ghost view = { λ cuts. cuts.intervals.items };

    ghost invariant = { λ cuts. (are_cuts cuts.intervals.items ≡ true) × (length cuts.intervals.items ≤ INDEX_LIMIT) };
}

/// Whether the index is below the interval, in it, or past it.
fn side_of(interval: Interval, global: u32) -> Ordering
    ensures { result ≡ side_of global interval }
{
    if global < interval.first {
        Ordering::Less
    } else if global < interval.after {
        Ordering::Equal
    } else {
        Ordering::Greater
    }
}

impl Cuts {
    /// The cuts at these intervals. None is empty, each begins at or behind the end of the one before it, and there are at
    /// most 65,536. It takes no memory.
    pub fn make(list: Vec<Interval>) -> Cuts
        requires cuts { are_cuts list.items ≡ true }
        requires few { length list.items ≤ INDEX_LIMIT }
        ensures { result ≡ list.items }
    {
        Cuts { intervals: list }
    }

    /// How many intervals there are.
    pub fn count(&self) -> u32
        ensures count { result ≡ length self.now }
        ensures limit { length self.now ≤ INDEX_LIMIT }
        ensures cuts { are_cuts self.now ≡ true }
    {
        self.intervals.len() as u32
    }

    /// Whether the index is below the interval at a place, in it, or past it. It is one step.
    ///
    /// The place is below the count.
    pub fn side<L: Ledger>(&self, place: u32, global: u32, steps: &mut Steps<L>) -> Ordering
        requires { place < length self.now }
        ensures side { result ≡ side_of global (slice_index_or self.now place no_interval) }
        ensures step { steps.new ≡ steps.old + 1 }
    {
        steps.tick();
        side_of(self.intervals[place as usize], global)
    }

    /// The place of the interval that holds the index, by halves: at most t steps with `2^t <= 2n + 1` for n intervals.
    /// `None` exactly where no interval holds it.
    pub fn place_of<L: Ledger>(&self, global: u32, steps: &mut Steps<L>) -> Option<u32>
        ensures place { result ≡ position (holds global) self.now }
        ensures counted { steps.old ≤ steps.new }
        ensures few { 2 ^ (steps.new - steps.old) ≤ 2 * length self.now + 1 }
    {
        let mut low = 0;
        let mut high = self.count();
        while low < high {
            let middle = low + (high - low) / 2;
            match self.side(middle, global, steps) {
                Ordering::Less => high = middle,
                Ordering::Equal => return Some(middle),
                Ordering::Greater => low = middle + 1,
            }
        }
        None
    }
}
