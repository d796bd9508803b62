ghost use Rattle.std.specs.Prelude.{◌≡◌};
ghost use Rattle.std.specs.Bool.{OnTrue};
ghost use Rattle.std.specs.List.{filter, list_any};
ghost use Rattle.std.specs.List.Sorted.{IsNonDecreasingBy};
ghost use Rattle.music_base.specs.Items.{time_of};
ghost use Rattle.port_inbox.specs.Gathering.{comes_from, comes_in, later_of, latest_of, sent_at};

use crate::window::Window;
use music_base::{Block, Item};
use std::marker::Model;

/// A block that an inbox keeps, with the latest time of its events and messages, and whether their times never fall: both
/// were found once. Contracts see the block.
#[derive(Debug, Drop)]
pub struct Kept {
    block: Block,
    latest: Option<u64>,
    climbs: bool,
}

impl Model for Kept {
    ghost use Rattle.std.specs.Prelude.{◌≡◌};
    ghost use Rattle.std.specs.Bool.{OnTrue};
    ghost use Rattle.std.specs.List.Sorted.{IsNonDecreasingBy};
    ghost use Rattle.music_base.specs.Items.{time_of};
    ghost use Rattle.music_base.specs.declared.item.Block.{Block};
    ghost use Rattle.port_inbox.specs.Gathering.{latest_of};

    ghost Value = { Block };

    ghost view = { λ kept. kept.block };

    ghost invariant = { λ kept. (kept.latest ≡ latest_of kept.block.items) × OnTrue kept.climbs (IsNonDecreasingBy time_of kept.block.items) };
}

fn later(first: Option<u64>, second: Option<u64>) -> Option<u64>
    ensures { result ≡ later_of first second }
{
    match (first, second) {
        (Some(x), Some(y)) => Some(x.max(y)),
        (Some(x), None) => Some(x),
        (None, y) => y,
    }
}

fn time_sent(item: &Item) -> Option<u64>
    ensures { result ≡ sent_at item.now }
{
    match item {
        Item::Event(event) => Some(event.time.0),
        Item::Message(message) => Some(message.time.0),
        Item::Value { .. } => None,
    }
}

fn latest(items: &[Item]) -> Option<u64>
    ensures { result ≡ latest_of items.now }
{
    let mut found = None;
    for item in items {
        found = later(found, time_sent(item));
    }
    found
}

/// The time of an event or a message, and 0 of a value.
fn time_at(item: &Item) -> u64
    ensures { result ≡ time_of item.now }
{
    match item {
        Item::Event(event) => event.time.0,
        Item::Message(message) => message.time.0,
        Item::Value { .. } => 0,
    }
}

fn do_climb(items: &[Item]) -> bool
    ensures { OnTrue result (IsNonDecreasingBy time_of items.now) }
{
    items.is_sorted_by(|first, second| time_at(first) <= time_at(second))
}

/// Of items whose times never fall those from the first of the window on, up to the first behind it. Both are found by
/// halves.
fn part_in<'a>(items: &'a [Item], window: &Window) -> &'a [Item]
    requires { IsNonDecreasingBy time_of items.now }
    ensures { filter (comes_in window.now) result.now ≡ filter (comes_in window.now) items.now }
{
    let (from, to) = (window.from, window.to);
    let before = items.partition_point(|item| time_at(item) < from);
    let rest = &items[before..];
    let count = rest.partition_point(|item| time_at(item) < to);
    &rest[..count]
}

impl Kept {
    /// Finds the latest time and whether times fall, and takes no memory.
    pub fn new(block: Block) -> Kept
        ensures { result ≡ block }
    {
        let latest = latest(block.items.as_slice());
        let climbs = do_climb(block.items.as_slice());
        Kept {
            block,
            latest,
            climbs,
        }
    }

    /// Items of the block, in their order: all that were sent in the window, and few others where times never fall.
    pub fn sent_in(&self, window: &Window) -> &[Item]
        ensures { filter (comes_in window.now) result.now ≡ filter (comes_in window.now) self.now.items }
    {
        let items = self.block.items.as_slice();
        if self.climbs {
            part_in(items, window)
        } else {
            items
        }
    }

    /// Whether an event or a message of the block was sent at `from` or later. No item is read.
    pub fn comes_from(&self, from: u64) -> bool
        ensures { result ≡ list_any (comes_from from) self.now.items }
    {
        match self.latest {
            Some(time) => from <= time,
            None => false,
        }
    }
}
