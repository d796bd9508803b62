//! Rows of the log, and their bytes.
//!
//! A log is CSV: a header, and a line for each row, in the order in which the rows are given.
#![tactic(auto)]

mod batch;
mod clock_size;
mod clock_text;
mod counting;
mod field_table;
mod fields;
mod lines;
mod merging;
mod order;
mod page;
mod queue;
mod quick_lines;
mod ranks;
mod sizes;
mod writing;

pub use clock_text::ClockText;
pub use counting::{LogCounter, LogSize, header_size};
pub use lines::row_bytes;
pub use merging::RowMerger;
pub use order::row_order;
pub use page::Page;
pub use quick_lines::{push_event, push_ready, push_value};
pub use ranks::RankFields;
pub use scene_model::{Row, RowItem};
pub use writing::{LogWriter, WriteFault, write_rows};
