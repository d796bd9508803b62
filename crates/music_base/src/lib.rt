//! What every crate of the coordinator stands on: numbers with names, names and words, what ports carry, decimal digits
//! and times as text, and the outside that bytes come from and go to.
#![tactic(auto)]

mod arithmetic;
mod bytes;
mod clocks;
mod copying;
mod counts;
mod errors;
mod gate;
mod item;
mod limits;
mod list;
mod memory_sink;
mod memory_source;
mod name;
mod numbers;
mod outside;
mod short_bytes;
mod standard;
mod streams;
mod time_laws;
mod time_parts;
mod time_scale;
mod time_writing;
mod times;
mod wants;
mod word;

pub use arithmetic::{floor_to, gcd};
pub use bytes::{byte_place, is_blank};
pub use clocks::{due, due_from, steps_of};
pub use copying::{TryCopy, copy_all};
pub use counts::{count_up_to, is_negative, is_short_count, number_of, without_sign};
pub use errors::{Failed, NoMemory};
pub use gate::{FreeGate, Gate};
pub use item::{Block, Event, Item, Message};
pub use limits::{GREATEST_TIME, MOST_APPS, MOST_BUFFERED, MOST_LINKS};
pub use list::Items;
pub use memory_sink::MemorySink;
pub use memory_source::MemorySource;
pub use name::{Name, is_name};
pub use numbers::{AppId, LinkId, Nanos, PortId, Rank, Sample};
pub use outside::{Sink, Source};
pub use standard::{StdSink, StdSource};
pub use streams::{MOST_READ, ReadFault, read_all, write_all};
pub use time_laws::{times_are_as_spelled, worked_times};
pub use time_writing::write_time;
pub use times::{TimeFault, read_time};
pub use wants::wanted;
pub use word::Word;
