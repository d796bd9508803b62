//! A block of values that is kept, and the value of an index in it.
ghost use Rattle.std.specs.Prelude.{◌≡◌, ◌==◌, ◌<◌, true, IfSome, length, slice_index_or};
ghost use Rattle.std.specs.Bool.{OnTrue};
ghost use Rattle.std.specs.List.{position};
ghost use Rattle.music_base.specs.Items.{AreValues};
ghost use Rattle.music_base.specs.declared.item.Item.{Item};
ghost use Rattle.scene_model.specs.Tables.{value_in};
ghost use Rattle.port_inbox.specs.KeptSamples.{AreIndices, IsKept, is_value_of};
ghost use Rattle.port_inbox.specs.Samples.{IsPlaceOf, value_of};

use music_base::{Block, Item};

/// A block that is kept, and whether it is known to hold one value for each of the sender's indices, in their order.
#[derive(Debug, Drop)]
pub struct KeptSample {
    pub block: Block,
    is_regular: bool,
}

fn is_value_of(item: &Item, index: u32) -> bool
    ensures { result ≡ is_value_of item.now index }
{
    match item {
        Item::Value { global, .. } => *global == index,
        _ => false,
    }
}

fn value_at(items: &[Item], place: usize) -> i64
    requires { place < length items.now }
    ensures { (d : Item) → result ≡ value_of (slice_index_or items.now place d) }
{
    value_of(&items[place])
}

/// Whether there is one value for each of the indices, in their order.
fn are_values(indices: &[u32], items: &[Item]) -> bool
    ensures { result ≡ true → AreValues indices.now items.now }
{
    if items.len() != indices.len() {
        return false;
    }
    for place in 0..indices.len() {
        if !is_value_of(&items[place], indices[place]) {
            return false;
        }
    }
    true
}

/// The first value of an index, and 0 where there is none.
fn value_among(items: &[Item], global: u32) -> i64
    ensures { result ≡ value_in items.now global }
{
    for item in items {
        if is_value_of(item, global) {
            return value_of(item);
        }
    }
    0
}

pub fn value_of(item: &Item) -> i64
    ensures { result ≡ value_of item.now }
{
    match item {
        Item::Value { value, .. } => value.0,
        _ => 0,
    }
}

fn first_place(indices: &[u32], global: u32) -> Option<usize>
    ensures { result ≡ position (λ i. i == global) indices.now }
{
    indices.iter().position(|index| *index == global)
}

/// Whether an index stands at this place.
pub fn stands_at(indices: &[u32], place: usize, global: u32) -> bool
    ensures { OnTrue result (IsPlaceOf indices.now global (Some place)) }
{
    place < indices.len() && indices[place] == global
}

/// The place of an index, looked for from a place on.
#[cold]
pub fn search_place(indices: &[u32], from: usize, global: u32) -> Option<usize>
    ensures { IsPlaceOf indices.now global result }
{
    for place in from..indices.len() {
        if indices[place] == global {
            return Some(place);
        }
    }
    first_place(indices, global)
}

/// The place of an index, looked for from a place on, where it mostly stands.
pub fn place_of(indices: &[u32], from: usize, global: u32) -> Option<usize>
    ensures { IsPlaceOf indices.now global result }
{
    if stands_at(indices, from, global) {
        return Some(from);
    }
    search_place(indices, from, global)
}

/// From where on the next index is looked for: behind the place of this one, where it has one.
pub fn behind(place: Option<usize>, from: usize) -> usize {
    match place {
        Some(place) => place.wrapping_add(1),
        None => from,
    }
}

/// The value of an index that stands at a place of these indices, in a list that has one value for each of them, in their
/// order.
pub fn value_placed(items: &[Item], indices: &[u32], global: u32, place: Option<usize>) -> i64
    requires values { AreValues indices.now items.now }
    requires ascend { AreIndices indices.now }
    requires place { IsPlaceOf indices.now global place }
    ensures { result ≡ value_in items.now global }
{
    match place {
        Some(place) => value_at(items, place),
        None => 0,
    }
}

impl KeptSample {
    pub fn new(indices: &[u32], block: Block) -> KeptSample
        ensures block { result.block ≡ block }
        ensures kept { IsKept indices.now result }
    {
        let is_regular = are_values(indices, block.items.as_slice());
        KeptSample { block, is_regular }
    }

    /// The items of a block that is known to hold one value for each of the sender's indices, in their order.
    pub fn regular(&self, indices: &[u32]) -> Option<&[Item]>
        requires { IsKept indices.now self.now }
        ensures values { IfSome result (λ items. AreValues indices.now items.now) }
        ensures items { IfSome result (λ items. items.now ≡ self.now.block.items) }
    {
        if self.is_regular {
            Some(self.block.items.as_slice())
        } else {
            None
        }
    }

    /// The value of an index that stands at a place of the sender's indices.
    pub fn value(&self, indices: &[u32], global: u32, place: Option<usize>) -> i64
        requires kept { IsKept indices.now self.now }
        requires ascend { AreIndices indices.now }
        requires place { IsPlaceOf indices.now global place }
        ensures { result ≡ value_in self.now.block.items global }
    {
        match self.regular(indices) {
            Some(items) => value_placed(items, indices, global, place),
            None => value_among(self.block.items.as_slice(), global),
        }
    }
}
