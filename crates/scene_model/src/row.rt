use music_base::{AppId, Nanos, NoMemory, PortId, Rank, Sample, TryCopy, Word};
use std::alloc::Global;

/// A row of the log: what one rank of an input port got in one step, at the step's clock, in ns.
#[derive(Debug, Drop)]
pub struct Row {
    pub clock: Nanos,
    pub app: AppId,
    pub port: PortId,
    pub rank: Rank,
    pub item: RowItem,
}

/// What a row tells: an event or a value with its local place at the rank and its global index, or a message.
#[derive(Debug, Drop)]
pub enum RowItem {
    Event {
        local: u32,
        global: u32,
        time: Nanos,
    },
    Value {
        local: u32,
        global: u32,
        value: Sample,
    },
    Message {
        time: Nanos,
        word: Word,
    },
}

impl TryCopy for RowItem {
    fn copy(&self, alloc: Global) -> Result<RowItem, NoMemory> {
        match self {
            RowItem::Event {
                local,
                global,
                time,
            } => Ok(RowItem::Event {
                local: *local,
                global: *global,
                time: *time,
            }),
            RowItem::Value {
                local,
                global,
                value,
            } => Ok(RowItem::Value {
                local: *local,
                global: *global,
                value: *value,
            }),
            RowItem::Message { time, word } => Ok(RowItem::Message {
                time: *time,
                word: word.copy(alloc)?,
            }),
        }
    }
}

impl TryCopy for Row {
    fn copy(&self, alloc: Global) -> Result<Row, NoMemory> {
        let item = self.item.copy(alloc)?;
        Ok(Row {
            clock: self.clock,
            app: self.app,
            port: self.port,
            rank: self.rank,
            item,
        })
    }
}
