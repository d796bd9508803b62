//! The words behind the program's name, and the command that they give.
//!
//! `clap` says which words have one of the program's forms. The numbers in them are read here.
#![tactic(auto)]

mod command;
mod forms;
mod laws;
mod limits;
#[cfg(test)]
mod tests;
mod words;

pub use command::Command;
pub use laws::worked_words;
pub use limits::{GREATEST_NUMBER, LEAST_WORKERS, MOST_DIGITS, MOST_WORKERS};
pub use words::command_of;
