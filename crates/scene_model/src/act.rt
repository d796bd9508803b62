use music_base::{AppId, LinkId};

/// What an application can do next.
#[derive(Clone, Copy, Debug)]
pub enum Act {
    /// The receiver takes the next block from a connection.
    Take(LinkId),
    /// The application runs its next step.
    Run(AppId),
    /// The sender puts the next block on a connection.
    Put(LinkId),
}
