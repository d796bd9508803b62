//! Limits that the text of a set-up and its scene share. Each is itself accepted.

/// How many applications a set-up has at most, each a section of its text.
pub const MOST_APPS: usize = 32;

/// How many connections a set-up has at most.
pub const MOST_LINKS: usize = 64;

/// The greatest time, in ns.
pub const GREATEST_TIME: u128 = 1_000_000_000_000_000;

/// How many ticks a port, or a connection of its own, may state at most that it buffers.
pub const MOST_BUFFERED: u32 = 1_000_000;
