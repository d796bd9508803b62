use scene_model::Wait;

/// A wait for room whose limit is still to be chosen.
#[derive(Clone, Copy)]
pub(crate) struct RoomWait {
    /// The wait under a limit of 0.
    pub(crate) without_room: Wait,
    /// How much its allowance grows with each block that the limit allows, in ns.
    pub(crate) step: u64,
}
