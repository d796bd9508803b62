//! The inboxes of inputs: they keep the blocks that came over the connections of an input, and answer what is due there
//! in each step.
//!
//! An inbox is made for the connections of one input, in the order of the scene. Blocks are admitted connection by connection,
//! each of a connection in the order of their numbers, and a delivery forgets those of which nothing is due any more. So
//! what an inbox keeps does not grow with the run.
#![tactic(auto)]

mod arrivals;
mod cont_inbox;
mod cont_laws;
#[cfg(test)]
mod cont_tests;
mod event_inbox;
#[cfg(test)]
mod event_tests;
mod finding;
mod kept;
mod kept_sample;
mod kept_samples;
mod laws;
mod line;
mod lines;
mod message_inbox;
#[cfg(test)]
mod message_tests;
mod parts;
mod points;
mod saying;
mod value_lists;
mod window;

pub use arrivals::{Arrival, Heard, InboxLink, inbox_link_of};
pub use cont_inbox::ContInbox;
pub use cont_laws::{samples_hold, worked_reads};
pub use event_inbox::EventInbox;
pub use laws::{
    blocks_left_by_number, inboxes_answer, inboxes_hold, inboxes_stay, made_inboxes_hold,
    message_inboxes_answer,
};
pub use message_inbox::MessageInbox;
pub use value_lists::zeros;
