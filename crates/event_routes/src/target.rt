use music_base::Rank;

/// A rank that maps an index, and the local place of the index there.
#[derive(Clone, Copy, Debug, PartialEq, Eq)]
pub struct Target {
    pub rank: Rank,
    pub local: u32,
}
