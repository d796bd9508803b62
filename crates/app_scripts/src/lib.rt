//! Rules of an application: which rules a text spells, which is the first faulty one, and what they put out in a step.
//!
//! A text of rules is cut at each `;`. A piece of blanks alone is skipped and not counted.
#![tactic(auto)]

mod fault;
mod forms;
mod laws;
mod reading;
mod standing;
mod words;

pub use fault::RuleFault;
pub use laws::{spelled_rules_stand, worked_rules};
pub use reading::read_rules;
pub use rule_turns::{ScriptState, turn};
