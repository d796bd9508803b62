//! Lists of items that are kept from step to step, so that a step finds the memory of the one before.
ghost use Rattle.std.specs.Prelude.{◌≡◌, ◌+◌, ◌<◌, ◌≤◌, ◌++◌, ◌∷◌, [], OnOk, length, take};

use music_base::{Item, Items, NoMemory};
use std::alloc::Global;
use std::mem::replace;

/// Takes out the list that is kept at a place, with what it has, or else a new one. The lists before it stay.
pub fn list_at(alloc: Global, all: &mut Vec<Items<Item>>, place: usize) -> Vec<Item>
    ensures count { length all.new.items ≡ length all.old.items }
    ensures before { take place all.new.items ≡ take place all.old.items }
{
    match all.get_mut(place) {
        Some(items) => replace(items, Items::new(alloc)).into_vec(),
        None => Vec::new(alloc),
    }
}

/// Keeps the items at a place, behind the lists before it.
pub fn put_at(all: &mut Vec<Items<Item>>, place: usize, items: Items<Item>) -> Result<(), NoMemory>
    requires { place ≤ length all.old.items }
    ensures count { OnOk result (place < length all.new.items) }
    ensures put { OnOk result (take (place + 1) all.new.items ≡ take place all.old.items ++ items ∷ []) }
{
    if place < all.len() {
        all[place] = items;
        return Ok(());
    }
    all.push(items)?;
    Ok(())
}
