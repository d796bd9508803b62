//! Laws of the configurations that are made from a number.
//!
//! They stand apart from the crate that makes them, since they are proved by computing many scenes.
#![tactic(auto)]

mod laws;

pub use laws::made_scenes_are_accepted;
