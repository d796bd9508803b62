//! What stands between an output and an input: the two ends of a connection as a machine sees them, a ring of blocks in
//! one thread, and what the blocks of a connection may hold.
#![tactic(auto)]

mod ends;
mod ring;
mod shapes;
#[cfg(test)]
mod tests;

pub use ends::{Full, PutEnd, TakeEnd};
pub use ring::{MOST_BLOCKS, Ring};
pub use shapes::BlockShape;
