//! Copies, which show the same as what was copied.
use crate::texts::EVERY_RULE;
use config_text::read_config;
use music_base::{
    AppId, Block, Event, Item, Items, Message, Nanos, NoMemory, PortId, Rank, Sample, TryCopy,
    Word, copy_all,
};
use music_setup::read_scene;
use scene_model::{Row, RowItem};
use std::alloc::{AllocError, Global};
use std::fmt::Debug;

fn shown<T: Debug>(alloc: Global, value: &T) -> Result<String, AllocError> {
    format!(in alloc; "{value:?}")
}

fn show_the_same<T: Debug>(alloc: Global, value: &T, other: &T) -> Result<bool, AllocError> {
    let text = shown(alloc, value)?;
    Ok(text == shown(alloc, other)?)
}

// Whether a copy shows the same as the value.
fn copies<T: TryCopy + Debug>(alloc: Global, value: &T) -> Result<bool, NoMemory> {
    let copy = value.copy(alloc)?;
    Ok(show_the_same(alloc, value, &copy)?)
}

fn items_of_every_kind(alloc: Global) -> Result<Items<Item>, NoMemory> {
    let event = Event {
        time: Nanos(7),
        global: 3,
    };
    let message = Message {
        time: Nanos(9),
        word: Word::from_slice(alloc, b"go")?,
    };
    let (global, value) = (2, Sample(-5));
    let items = vec![in alloc;
        Item::Event(event),
        Item::Value { global, value },
        Item::Message(message),
    ]?;
    Ok(Items::from_vec(items))
}

fn list_copies(alloc: Global, items: &[Item]) -> Result<bool, NoMemory> {
    let copy = copy_all(alloc, items)?;
    Ok(copy.as_slice() == items)
}

fn items_copy(alloc: Global) -> Result<bool, NoMemory> {
    let items = items_of_every_kind(alloc)?;
    Ok(copies(alloc, &items)? && list_copies(alloc, items.as_slice())?)
}

fn block_copies(alloc: Global) -> Result<bool, NoMemory> {
    let items = items_of_every_kind(alloc)?;
    copies(alloc, &Block { number: 4, items })
}

fn row_copies(alloc: Global, item: RowItem) -> Result<bool, NoMemory> {
    let row = Row {
        clock: Nanos(10),
        app: AppId(0),
        port: PortId(1),
        rank: Rank(2),
        item,
    };
    copies(alloc, &row)
}

fn message_row_copies(alloc: Global) -> Result<bool, NoMemory> {
    let word = Word::from_slice(alloc, b"go")?;
    let time = Nanos(3);
    row_copies(alloc, RowItem::Message { time, word })
}

fn scene_copies(alloc: Global) -> bool {
    let Ok(config) = read_config(alloc, EVERY_RULE) else {
        return false;
    };
    match read_scene(alloc, &config) {
        Ok(scene) => copies(alloc, &scene) == Ok(true),
        Err(_) => false,
    }
}

#[test]
fn items_and_blocks_are_copied(rt: HostRuntime) {
    assert!(rt; items_copy(rt.alloc()) == Ok(true));
    assert!(rt; block_copies(rt.alloc()) == Ok(true));
}

#[test]
fn scenes_are_copied(rt: HostRuntime) {
    assert!(rt; scene_copies(rt.alloc()));
}

#[test]
fn rows_are_copied(rt: HostRuntime) {
    let (local, global) = (1, 2);
    let (time, value) = (Nanos(3), Sample(-3));
    let event = RowItem::Event {
        local,
        global,
        time,
    };
    assert!(rt; row_copies(rt.alloc(), event) == Ok(true));
    let value = RowItem::Value {
        local,
        global,
        value,
    };
    assert!(rt; row_copies(rt.alloc(), value) == Ok(true));
    assert!(rt; message_row_copies(rt.alloc()) == Ok(true));
}
