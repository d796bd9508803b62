//! The ports that the value of `ports` declares.
#![tactic(auto)]

mod entries;
mod fault;
mod laws;
mod map_text;
mod maps;
mod options;
mod port_text;
mod reading;

pub use fault::PortFault;
pub use laws::{first_faults, read_ports_stand, small_texts};
pub use reading::read_ports;
