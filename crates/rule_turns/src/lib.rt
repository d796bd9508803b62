//! The turn of one step: what the rules of an application put out, given what its inputs read.
//!
//! A plan says for each output which rules write it, and where each finds what it reads and writes. It is made once for
//! an application, and then no step looks up a name. A step is two calls: `outputs_by` or `fill_outputs` tells what the ports put out,
//! and `move_on` what each `when` rule has to remember for the next step.
#![tactic(auto)]

mod arrivals;
mod emission;
mod laws;
mod periods;
mod plan;
mod planning;
mod ports;
mod state;
mod step;
mod turns;
mod values;

pub use laws::{applications_can_turn, inputs_have_their_shape, plans_turn};
pub use plan::{PortUses, RuleUse, TurnPlan};
pub use state::ScriptState;
pub use turns::{fill_outputs, outputs_by, turn};
pub use values::value_at;
