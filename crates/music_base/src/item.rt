use crate::{Items, Nanos, NoMemory, Sample, TryCopy, Word};
use std::alloc::Global;

/// An event: something happened at this time at a global index.
#[derive(Clone, Copy, Debug, PartialEq, Eq)]
pub struct Event {
    pub time: Nanos,
    pub global: u32,
}

/// A message: a word that was said at this time.
#[derive(Debug, Drop, PartialEq, Eq)]
pub struct Message {
    pub time: Nanos,
    pub word: Word,
}

impl TryCopy for Message {
    fn copy(&self, alloc: Global) -> Result<Message, NoMemory> {
        let word = self.word.copy(alloc)?;
        Ok(Message {
            time: self.time,
            word,
        })
    }
}

/// What a port carries: an event, the value of a global index, or a message.
#[derive(Debug, Drop, PartialEq, Eq)]
pub enum Item {
    Event(Event),
    Value { global: u32, value: Sample },
    Message(Message),
}

impl TryCopy for Item {
    fn copy(&self, alloc: Global) -> Result<Item, NoMemory> {
        match self {
            Item::Event(event) => Ok(Item::Event(*event)),
            Item::Value { global, value } => Ok(Item::Value {
                global: *global,
                value: *value,
            }),
            Item::Message(message) => Ok(Item::Message(message.copy(alloc)?)),
        }
    }
}

/// What one step of the sender puts on a connection. The number is the step's, from 0.
#[derive(Debug, Drop)]
pub struct Block {
    pub number: u64,
    pub items: Items<Item>,
}

impl TryCopy for Block {
    fn copy(&self, alloc: Global) -> Result<Block, NoMemory> {
        let items = self.items.copy(alloc)?;
        Ok(Block {
            number: self.number,
            items,
        })
    }
}
