//! All machines of a scene with a ring for each connection, driven by the acts of one worker.
#![tactic(auto)]

mod alone;
mod counted;
mod laws;
mod releasing;
mod rounds;
mod scene_core;
mod schedule;
mod starts;
mod to_sink;

pub use alone::run_alone;
pub use counted::run_counted;
pub use laws::{cores_begin_the_log, puts_find_room};
pub use scene_core::Core;
pub use to_sink::run_to_sink;
