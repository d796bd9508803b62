use music_base::{Items, Nanos};

/// What the blocks of a connection may hold. Block k is of the sender's step k, which begins at its start and k ticks and
/// lasts a tick.
#[derive(Debug, Drop)]
pub enum BlockShape {
    /// Anything.
    Any,
    /// Events of these indices within the step.
    Events {
        start: Nanos,
        tick: Nanos,
        indices: Items<u32>,
    },
    /// One value for each of these indices, in their order.
    Values {
        indices: Items<u32>,
    },
    /// Messages within the step.
    Messages {
        start: Nanos,
        tick: Nanos,
    },
}
