//! The configuration text, read and written.
//!
//! A text has settings (`name=value`), section lines (`[name]`), connections (`a.p -> b.q [7] latency=0.001 buffered=2`,
//! or from the receiver, `b.q <- a.p`), blank lines and comments (from `#`). Settings before the first section line are
//! defaults, later ones belong to the section whose line was last. [`read_config`] reads every spelling,
//! [`write_config`] writes the one canonical spelling.
#![tactic(auto)]

mod arrows;
mod config;
mod connection;
mod content;
mod laws;
mod lines;
mod link_options;
mod link_text;
mod links;
mod parts;
mod reading;
mod sections;
mod setting_line;
mod settings;
mod text_fault;
mod text_kind;
mod writing;

pub use config::{Config, lookup};
pub use laws::{
    bare_reading, canonical_reading, comment_reading, connection_rows, lawful_reading, one_reading,
};
pub use lines::{LONGEST_TEXT, split_line};
pub use link_text::LinkText;
pub use links::Links;
pub use reading::read_config;
pub use sections::Sections;
pub use settings::Settings;
pub use text_fault::TextFault;
pub use text_kind::TextKind;
pub use writing::write_config;
