//! The machine of one application: it takes blocks from the connections to its inputs, runs its steps, and puts the blocks of
//! its outputs on their connections.
//!
//! A machine stores no history. Its calls say what they keep of each table of blocks that the machine follows, that is, with
//! which all that it keeps and owes agrees.
#![tactic(auto)]

mod blocks;
mod by_rank;
mod inbox;
mod kept_lists;
mod machine;
mod needs;
mod opening;
mod own_links;
mod rank_indices;
mod reading;
mod rows;
mod shaping;
mod step;
mod step_rows;
mod taking;
mod turned;

pub use inbox::PortInbox;
pub use machine::AppMachine;
pub use shaping::shape_of;
pub use step::Step;
pub use turned::Turned;
