//! Potentials and limits: whether every cycle of a scene's waits is covered, and how many blocks each connection keeps.
#![tactic(auto)]

mod choosing;
mod covering;
mod fault;
mod fitting;
mod heights;
mod least;
mod plan;
mod potentials;
mod raising;
mod relaxing;
mod rising;
mod room;
mod search;
mod turning;

pub use covering::cover;
pub use fault::NegotiateFault;
pub use fitting::plan_fits;
pub use plan::{Plan, negotiate};
