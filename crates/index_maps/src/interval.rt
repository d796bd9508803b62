ghost use Rattle.std.specs.Prelude.{◌≡◌, ◌==◌, ◌<◌, ◌≤◌, ◌+◌, ℕ, true, false, [], ◌∷◌, ◌++◌, length, map, nat_lt, IfOk, OnOk, IfSome, MatchOption, Option, Some, None};
ghost use Rattle.std.specs.List.{count_by, flat_map, list_all, list_any};
ghost use Rattle.std.specs.List.Sorted.{IsNonDecreasingBy, IsPermutation};
ghost use Rattle.index_maps.specs.Maps.{indices, maps_index, globals};
ghost use Rattle.index_maps.specs.Intervals.{are_apart, first_shared, holds, interval_indices, is_some_interval, mapped_once, ranks_mapping, single, span_of};
ghost use Rattle.index_maps.specs.declared.span.TheConstants.{INDEX_LIMIT};
ghost use Rattle.index_maps.specs.declared.map.PortMap.TheVariants.{Split};

use crate::{IndexMap, PortMap, Span};
use music_base::{Items, NoMemory};
use std::alloc::Global;

/// Consecutive global indices: from the first up to the one after the last, which is excluded.
#[derive(Clone, Copy, Debug, PartialEq, Eq)]
pub struct Interval {
    pub first: u32,
    pub after: u32,
}

fn push_span(spans: &mut Vec<Interval>, span: Span) -> Result<(), NoMemory>
    ensures { OnOk result (spans.new.items ≡ spans.old.items ++ span_of span) }
{
    if span.size() > 0 {
        spans.push(Interval {
            first: span.base(),
            after: span.base() + span.size(),
        })?;
    }
    Ok(())
}

fn push_indices(spans: &mut Vec<Interval>, indices: &[u32]) -> Result<(), NoMemory>
    requires { list_all (λ i. nat_lt i INDEX_LIMIT) indices.now ≡ true }
    ensures { OnOk result (spans.new.items ≡ spans.old.items ++ map single indices.now) }
{
    for index in indices {
        spans.push(Interval {
            first: *index,
            after: *index + 1,
        })?;
    }
    Ok(())
}

/// The intervals of one rank, which share no index.
fn push_spans(spans: &mut Vec<Interval>, map: &IndexMap) -> Result<(), NoMemory>
    requires { list_all is_some_interval spans.old.items ≡ true }
    ensures some { OnOk result (list_all is_some_interval spans.new.items ≡ true) }
    ensures counts { OnOk result ((g : ℕ) → count_by (holds g) spans.new.items ≡ count_by (holds g) spans.old.items + mapped_once map.now g) }
{
    match map {
        IndexMap::Linear(span) => push_span(spans, *span),
        IndexMap::Permutation(list) => push_indices(spans, list.as_slice()),
    }
}

fn each_spans(alloc: Global, maps: &[IndexMap]) -> Result<Vec<Interval>, NoMemory>
    ensures some { IfOk result (λ spans. list_all is_some_interval spans.items ≡ true) }
    ensures counts { IfOk result (λ spans. (g : ℕ) → count_by (holds g) spans.items ≡ count_by (λ map. list_any (λ i. i == g) (globals map)) maps.now) }
{
    let mut spans = Vec::new(alloc);
    for map in maps {
        push_spans(&mut spans, map)?;
    }
    Ok(spans)
}

/// The whole span, where it is split over at least one rank.
fn split_spans(alloc: Global, span: Span, ranks: u32) -> Result<Vec<Interval>, NoMemory>
    ensures some { IfOk result (λ spans. list_all is_some_interval spans.items ≡ true) }
    ensures counts { IfOk result (λ spans. (g : ℕ) → count_by (holds g) spans.items ≡ ranks_mapping (Split span ranks) g) }
{
    let mut spans = Vec::new(alloc);
    if ranks == 0 {
        return Ok(spans);
    }
    push_span(&mut spans, span)?;
    Ok(spans)
}

/// The intervals of all ranks. As many of them hold an index as ranks map it.
fn all_spans(alloc: Global, map: &PortMap) -> Result<Vec<Interval>, NoMemory>
    ensures some { IfOk result (λ spans. list_all is_some_interval spans.items ≡ true) }
    ensures counts { IfOk result (λ spans. (g : ℕ) → count_by (holds g) spans.items ≡ ranks_mapping map.now g) }
{
    match map {
        PortMap::Each(maps) => each_spans(alloc, maps.as_slice()),
        PortMap::Split { span, ranks } => split_spans(alloc, *span, *ranks),
    }
}

/// The same, by their first indices.
fn in_order(spans: Vec<Interval>) -> Result<Vec<Interval>, NoMemory>
    ensures same { IfOk result (λ sorted. IsPermutation spans.items sorted.items) }
    ensures ascend { IfOk result (λ sorted. IsNonDecreasingBy (λ span. span.first) sorted.items) }
{
    let mut sorted = spans;
    sorted.sort_by_key(|span| span.first)?;
    Ok(sorted)
}

/// The intervals of all ranks, by their first indices.
fn sorted_spans(alloc: Global, map: &PortMap) -> Result<Vec<Interval>, NoMemory>
    ensures some { IfOk result (λ spans. list_all is_some_interval spans.items ≡ true) }
    ensures ascend { IfOk result (λ spans. IsNonDecreasingBy (λ span. span.first) spans.items) }
    ensures counts { IfOk result (λ spans. (g : ℕ) → count_by (holds g) spans.items ≡ ranks_mapping map.now g) }
{
    in_order(all_spans(alloc, map)?)
}

/// The intervals of the same indices, of which no two touch.
fn joined(alloc: Global, spans: &[Interval]) -> Result<Items<Interval>, NoMemory>
    requires some { list_all is_some_interval spans.now ≡ true }
    requires ascend { IsNonDecreasingBy (λ span. span.first) spans.now }
    ensures apart { IfOk result (λ joined. are_apart joined ≡ true) }
    ensures same { IfOk result (λ joined. (g : ℕ) → list_any (holds g) joined ≡ list_any (holds g) spans.now) }
{
    let mut done = Items::new(alloc);
    let Some((first, others)) = spans.split_first() else {
        return Ok(done);
    };
    let mut growing = *first;
    for span in others {
        if span.first <= growing.after {
            growing.after = growing.after.max(span.after);
        } else {
            done.push(growing)?;
            growing = *span;
        }
    }
    done.push(growing)?;
    Ok(done)
}

/// The least index that two of the intervals hold.
fn least_shared(spans: &[Interval]) -> Option<u32>
    requires some { list_all is_some_interval spans.now ≡ true }
    requires ascend { IsNonDecreasingBy (λ span. span.first) spans.now }
    ensures none { result ≡ None → (g : ℕ) → count_by (holds g) spans.now ≤ 1 }
    ensures shared { IfSome result (λ index. 1 < count_by (holds index) spans.now) }
    ensures least { IfSome result (λ index. (g : ℕ) → g < index → count_by (holds g) spans.now ≤ 1) }
{
    let mut reach = 0;
    for span in spans {
        if span.first < reach {
            return Some(span.first);
        }
        reach = span.after;
    }
    None
}

impl PortMap {
    /// The indices that some rank maps, as ascending intervals of which none is empty and no two touch.
    pub fn intervals(&self, alloc: Global) -> Result<Items<Interval>, NoMemory>
        ensures apart { IfOk result (λ intervals. are_apart intervals ≡ true) }
        ensures indices { IfOk result (λ intervals. flat_map interval_indices intervals ≡ indices self.now) }
    {
        let spans = sorted_spans(alloc, self)?;
        joined(alloc, spans.as_slice())
    }

    /// The least index that two ranks map.
    pub fn first_shared(&self, alloc: Global) -> Result<Option<u32>, NoMemory>
        ensures { IfOk result (λ index. index ≡ first_shared self.now) }
    {
        let spans = sorted_spans(alloc, self)?;
        Ok(least_shared(spans.as_slice()))
    }
}
