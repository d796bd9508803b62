//! Routes: to which ranks of a receiver each index goes that its sender maps, and to which local places there.
#![tactic(auto)]

mod block;
mod gathering;
mod joining;
mod routes;
mod target;
#[cfg(test)]
mod tests;

pub use routes::Routes;
pub use target::Target;
