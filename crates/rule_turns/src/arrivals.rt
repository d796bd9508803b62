//! Rules that answer what arrives.
ghost use Rattle.std.specs.Prelude.{◌≡◌, ◌<◌, ◌++◌, ℕ, true, OnOk};
ghost use Rattle.std.specs.List.{flat_map};
ghost use Rattle.index_maps.specs.Maps.{maps_index};
ghost use Rattle.index_maps.specs.declared.span.TheConstants.{INDEX_LIMIT};
ghost use Rattle.scene_model.specs.Ports.{has_indices};
ghost use Rattle.scene_model.specs.Turns.{event_mapped, passed, replied};

use index_maps::PortMap;
use music_base::{Event, Item, Items, Message, Nanos, NoMemory, TryCopy};
use std::alloc::Global;

/// An event of this index, where the output maps it. The index may come out below 0 or past 32 bits, and is then mapped
/// by none.
fn emit_mapped(
    items: &mut Items<Item>,
    output: &PortMap,
    time: Nanos,
    index: i64,
) -> Result<(), NoMemory>
    requires { (g : ℕ) → maps_index output.now g ≡ true → g < INDEX_LIMIT }
    ensures { OnOk result (items.new ≡ items.old ++ event_mapped output.now time index) }
{
    if 0 <= index && index < 65_536 && output.maps(index as u32) {
        items.push(Item::Event(Event {
            time,
            global: index as u32,
        }))?;
    }
    Ok(())
}

/// Each event that arrives again, at this time and with its index shifted.
pub fn pass_on(
    items: &mut Items<Item>,
    arrivals: &[Item],
    output: &PortMap,
    time: Nanos,
    shift: i32,
) -> Result<(), NoMemory>
    requires { has_indices output.now ≡ true }
    ensures { OnOk result (items.new ≡ items.old ++ flat_map (passed output.now time shift) arrivals.now) }
{
    for item in arrivals {
        if let Item::Event(event) = item {
            let index = i64::from(event.global) + i64::from(shift);
            emit_mapped(items, output, time, index)?;
        }
    }
    Ok(())
}

/// The word of each message that arrives again, at this time.
pub fn reply(
    alloc: Global,
    items: &mut Items<Item>,
    arrivals: &[Item],
    time: Nanos,
) -> Result<(), NoMemory>
    ensures { OnOk result (items.new ≡ items.old ++ flat_map (replied time) arrivals.now) }
{
    for item in arrivals {
        if let Item::Message(message) = item {
            let word = message.word.copy(alloc)?;
            items.push(Item::Message(Message { time, word }))?;
        }
    }
    Ok(())
}
