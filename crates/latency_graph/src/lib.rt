//! Which application may have to wait for which in a scene, and for how long.
#![tactic(auto)]

mod laws;
mod rounded;
mod stated;
mod waiting;

pub use laws::{worked_stated_limits_hold, worked_waits_hold};
pub use scene_model::{Wait, WaitKind};
pub use stated::{GREATEST_LIMIT, stated_limits};
pub use waiting::{room_wait, waits};
