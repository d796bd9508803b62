//! The program, from bytes to bytes: the words and the source's bytes decide the status and the text that is written.
#![tactic(auto)]

mod answering;
mod checking;
mod loading;
mod ordering;
mod plan_text;
mod planning;
mod running;
mod saying;
mod status;
mod top;

pub use status::Status;
pub use top::{music, music_alone};
