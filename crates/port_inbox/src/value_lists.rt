//! Lists of values that are kept from step to step: a step overwrites the values of the one before.
ghost use Rattle.std.specs.Prelude.{◌≡◌, ◌<◌, OnOk, IsOk, length, map, pos, slice_set};
ghost use Rattle.music_base.specs.declared.item.Item.TheVariants.{Value};

use music_base::{Item, NoMemory, Sample};

pub fn item_of(global: u32, value: i64) -> Item
    ensures { result ≡ Value global value }
{
    Item::Value {
        global,
        value: Sample(value),
    }
}

/// A value in place of an item. Where that is one, only its parts are written.
fn set_value(item: &mut Item, index: u32, number: i64)
    ensures { item.new ≡ Value index number }
{
    match item {
        Item::Value { global, value } => {
            *global = index;
            *value = Sample(number);
        }
        _ => *item = item_of(index, number),
    }
}

/// One value at its place.
pub fn write_value(items: &mut [Item], place: usize, global: u32, value: i64)
    requires { place < length items.old }
    ensures { items.new ≡ slice_set items.old place (Value global value) }
{
    set_value(&mut items[place], global, value);
}

/// Makes a list as long as this. Where it is, it takes no memory.
pub fn set_length(items: &mut Vec<Item>, count: usize) -> Result<(), NoMemory>
    ensures count { OnOk result (length items.new.items ≡ count) }
    ensures succeeds { length items.old.items ≡ count → IsOk result }
{
    if items.len() == count {
        return Ok(());
    }
    items.resize_with(count, || item_of(0, 0))?;
    Ok(())
}

/// 0 for each index.
pub fn fill_zeros(globals: &[u32], items: &mut [Item])
    requires { length items.old ≡ length globals.now }
    ensures { items.new ≡ map (λ g. Value g (pos 0)) globals.now }
{
    for i in 0..globals.len() {
        write_value(items, i, globals[i], 0);
    }
}

/// Puts 0 for each index into a list, in place of what it has. A list that is as long as the indices is overwritten where it
/// stands, and no memory is taken.
pub fn zeros(globals: &[u32], items: &mut Vec<Item>) -> Result<(), NoMemory>
    ensures values { OnOk result (items.new.items ≡ map (λ g. Value g (pos 0)) globals.now) }
    ensures succeeds { length items.old.items ≡ length globals.now → IsOk result }
{
    set_length(items, globals.len())?;
    fill_zeros(globals, items);
    Ok(())
}
