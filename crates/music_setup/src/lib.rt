//! From a text, or a configuration, to its scene: the stop, the applications and the links that it describes, with the
//! plan of the scene, or its first fault, and the text of each fault.
#![tactic(auto)]

mod apps;
mod fault;
mod laws;
mod scenes;
mod settings;
mod setups;
mod texts;
mod times;
mod values;

pub use fault::{AppKind, SceneFault, SetupFault};
pub use laws::{
    configurations_without_own_times, cycles_name_applications, first_faults, small_links,
    small_scenes, small_times,
};
pub use scenes::read_scene;
pub use setups::{Ready, setup, setup_config};
pub use texts::fault_text;
