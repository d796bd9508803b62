//! One step, and what a use finds in it by its places.
ghost use Rattle.std.specs.Prelude.{◌≡◌, false, [], slice_index_or};

use music_base::{Item, Items};
use scene_model::Rule;

/// One step of an application: its rules, the state before it, what its inputs read, its number, and the times from its
/// clock up to its end, in ns.
#[derive(Clone, Copy)]
pub struct StepView<'a> {
    pub rules: &'a [Rule],
    pub state: &'a [bool],
    pub inputs: &'a [Items<Item>],
    pub number: u64,
    pub from: u64,
    pub to: u64,
}

/// What the input at a place reads, and nothing where there is no input.
pub fn items_at<'a>(inputs: &'a [Items<Item>], place: usize) -> &'a [Item]
    ensures { result.now ≡ slice_index_or inputs.entry.now place [] }
{
    match inputs.get(place) {
        Some(items) => items.as_slice(),
        None => &[],
    }
}

/// The truth value at a place.
pub fn was_over(state: &[bool], place: usize) -> bool
    ensures { result ≡ slice_index_or state.now place false }
{
    match state.get(place) {
        Some(over) => *over,
        None => false,
    }
}
