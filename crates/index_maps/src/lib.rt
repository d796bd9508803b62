//! Index maps: which global indices the ranks of a port map, and at which local places.
//!
//! A global index is shared by all applications, a local place belongs to one rank. A map is linear, of consecutive
//! indices, or a permutation, a list of indices in any order.
#![tactic(auto)]

mod cuts;
mod interval;
mod laws;
mod list;
mod listing;
mod map;
mod mapping;
mod permuting;
mod rank;
mod span;
mod steps;

pub use cuts::Cuts;
pub use interval::Interval;
pub use laws::maps_compute;
pub use list::IndexList;
pub use map::{IndexMap, PortMap};
pub use permuting::{MapFault, permutation};
pub use rank::RankMap;
pub use span::{INDEX_LIMIT, Span};
pub use steps::Steps;
