//! Lawful finished orders of the acts of a scene, on counts alone.
//!
//! An order is written while it is found. No block has items here, and nothing is kept that grows with the order.
#![tactic(auto)]

mod ledger;
mod opening;
mod order;
mod own_links;
mod text;
mod waiting;

pub use order::order_to_sink;
pub use run_logs::WriteFault;
