//! Matching the connections of a text with the ports of applications: the links that they make, or the first faulty
//! connection.
#![tactic(auto)]

mod covering;
mod ends;
mod fault;
mod indices;
mod laws;
mod matching;

pub use fault::{LinkKind, MatchFault};
pub use laws::{first_faults, made_links_stand, small_scenes};
pub use matching::match_links;
