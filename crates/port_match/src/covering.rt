//! Which indices two ports map, by their intervals.
ghost use Rattle.std.specs.Prelude.{◌≡◌, true, nat_le, nat_lt};
ghost use Rattle.std.specs.List.{list_all, list_any, flat_map};
ghost use Rattle.index_maps.specs.Intervals.{are_apart, holds, interval_indices};
ghost use Rattle.port_match.specs.Covering.{from_end_above, is_in_first};

use index_maps::Interval;

/// Whether no interval ends past the width.
fn all_end_within(width: u32, intervals: &[Interval]) -> bool
    ensures { result ≡ list_all (λ interval. nat_le interval.after width) intervals.now }
{
    intervals.iter().all(|interval| interval.after <= width)
}

/// Whether each index of the intervals is below the width.
pub fn all_below(width: u32, intervals: &[Interval]) -> bool
    requires { are_apart intervals.now ≡ true }
    ensures { result ≡ list_all (λ g. nat_lt g width) (flat_map interval_indices intervals.now) }
{
    all_end_within(width, intervals)
}

/// Whether each index of the inputs is one of the outputs. Both are gone through once.
pub fn covers(outputs: &[Interval], inputs: &[Interval]) -> bool
    requires outputs { are_apart outputs.now ≡ true }
    requires inputs { are_apart inputs.now ≡ true }
    ensures { result ≡ list_all (λ g. list_any (holds g) outputs.now) (flat_map interval_indices inputs.now) }
{
    let mut rest = outputs;
    let mut left = inputs;
    while let Some((input, others)) = left.split_first() {
        rest = from_end_above(rest, input.first);
        if !is_in_first(rest, *input) {
            return false;
        }
        left = others;
    }
    true
}

/// The intervals without those in front that end at or below an index.
fn from_end_above(intervals: &[Interval], index: u32) -> &[Interval]
    ensures { result.now ≡ from_end_above index intervals.now }
{
    let mut rest = intervals;
    while let Some((first, others)) = rest.split_first() {
        if first.after > index {
            return rest;
        }
        rest = others;
    }
    rest
}

/// Whether the first of the outputs holds the whole input.
fn is_in_first(outputs: &[Interval], input: Interval) -> bool
    ensures { result ≡ is_in_first outputs.now input }
{
    match outputs.first() {
        Some(output) => output.first <= input.first && input.after <= output.after,
        None => false,
    }
}
