use music_base::{AppId, LinkId};

/// What an application waits for at a connection.
#[derive(Clone, Copy, Debug, PartialEq, Eq)]
pub enum WaitKind {
    /// The receiver, for a block of the sender that its next step wants.
    ForBlock,
    /// The sender, for room in the connection's buffer.
    ForRoom,
}

/// That one application may have to wait for another, over a connection. It can be stuck so only where its clock is ahead
/// of the awaited one's by the allowance less the burden, or more.
#[derive(Clone, Copy, Debug, PartialEq, Eq)]
pub struct Wait {
    pub waiter: AppId,
    pub awaited: AppId,
    pub link: LinkId,
    pub kind: WaitKind,
    /// In ns.
    pub allowance: i128,
    /// In ns.
    pub burden: i128,
}
