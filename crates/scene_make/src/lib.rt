//! The configuration that is made from a number.
//!
//! [`make`] answers a ring of 2 to 8 applications. Each sends events and values to the next one, and the last to the
//! first. The number gives how many there are, their ranks, their ticks and the stop.
#![tactic(auto)]

mod making;
mod ring;
mod settings;

pub use making::make;
