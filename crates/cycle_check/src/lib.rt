//! Cycles of waits: whether one is not covered, and its text.
#![tactic(auto)]

mod cycle;
mod judging;
mod laws;
mod sums;
mod texts;

pub use cycle::Cycle;
pub use judging::is_uncovered;
pub use laws::worked_texts_hold;
pub use texts::write_cycle;
