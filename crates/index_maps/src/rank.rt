ghost use Rattle.std.specs.Prelude.{◌≡◌, ◌==◌, ◌+◌, ◌-◌, ◌<◌, true, length, slice_get};
ghost use Rattle.std.specs.List.{position};
ghost use Rattle.index_maps.specs.Indices.{are_indices};
ghost use Rattle.index_maps.specs.Maps.{globals_of, globals, rank_count, split_at};
ghost use Rattle.index_maps.specs.Ranks.{mapped};
ghost use Rattle.index_maps.specs.declared.map.PortMap.TheVariants.{Split};

use crate::{IndexList, IndexMap, PortMap, Span};
use music_base::Rank;

/// What one rank of a port maps, lent from the port's map: consecutive indices, or a list of indices by their local
/// places.
#[derive(Clone, Copy, Debug)]
pub enum RankMap<'a> {
    Linear(Span),
    Permutation(&'a IndexList),
}

fn lent(map: &IndexMap) -> RankMap<'_>
    ensures { mapped result ≡ globals map.now }
{
    match map {
        IndexMap::Linear(span) => RankMap::Linear(*span),
        IndexMap::Permutation(list) => RankMap::Permutation(list),
    }
}

/// The part of a rank, where the span is split over the ranks.
fn part_of(span: Span, ranks: u32, rank: u32) -> Span
    requires { rank < ranks }
    ensures base { result.base ≡ split_at span ranks rank }
    ensures size { result.size ≡ split_at span ranks (rank + 1) - split_at span ranks rank }
{
    let (size, rank, ranks) = (u64::from(span.size()), u64::from(rank), u64::from(ranks));
    let first = (rank * size / ranks) as u32;
    let after = ((rank + 1) * size / ranks) as u32;
    Span::new(span.base() + first, after - first)
}

impl PortMap {
    /// What a rank of the port maps. In a split it is the part of the span from `rank * size / ranks` up to
    /// `(rank + 1) * size / ranks`, each rounded down, the latter excluded.
    ///
    /// The rank is one of the port's.
    pub fn rank_map(&self, rank: Rank) -> RankMap<'_>
        requires { rank < rank_count self.now }
        ensures { mapped result ≡ globals_of self.now rank }
    {
        match self {
            PortMap::Each(maps) => lent(&maps.as_slice()[rank.0 as usize]),
            PortMap::Split { span, ranks } => RankMap::Linear(part_of(*span, *ranks, rank.0)),
        }
    }

    /// How many indices a rank of the port maps, none of them twice.
    pub fn size_at(&self, rank: Rank) -> u32
        requires { rank < rank_count self.now }
        ensures size { result ≡ length (globals_of self.now rank) }
        ensures indices { are_indices (globals_of self.now rank) ≡ true }
    {
        match self {
            PortMap::Each(maps) => lent(&maps.as_slice()[rank.0 as usize]).size(),
            PortMap::Split { span, ranks } => RankMap::Linear(part_of(
                *span, *ranks, rank.0,
            )).size(),
        }
    }

    /// The global index at a local place of a rank of the port. `None` exactly where the rank maps no index there.
    pub fn global_at(&self, rank: Rank, local: u32) -> Option<u32>
        requires { rank < rank_count self.now }
        ensures { result ≡ slice_get (globals_of self.now rank) local }
    {
        match self {
            PortMap::Each(maps) => lent(&maps.as_slice()[rank.0 as usize]).global_of(local),
            PortMap::Split { span, ranks } => part_of(*span, *ranks, rank.0).global_of(local),
        }
    }

    /// The local place of a global index at a rank of the port. `None` exactly where the rank does not map it. It is
    /// computed where the rank's indices are consecutive, and looked for in a list.
    ///
    /// The rank is one of the port's.
    pub fn local_at(&self, rank: Rank, global: u32) -> Option<u32>
        requires { rank < rank_count self.now }
        ensures place { result ≡ position (λ i. i == global) (globals_of self.now rank) }
        ensures indices { are_indices (globals_of self.now rank) ≡ true }
    {
        match self {
            PortMap::Each(maps) => lent(&maps.as_slice()[rank.0 as usize]).local_of(global),
            PortMap::Split { span, ranks } => RankMap::Linear(part_of(
                *span, *ranks, rank.0,
            )).local_of(global),
        }
    }
}

impl RankMap<'_> {
    /// How many indices the rank maps, none of them twice.
    #[tactic(auto, using(crate::proofs::Ranges::length_range))]
    pub fn size(&self) -> u32
        ensures size { result ≡ length (mapped self.now) }
        ensures indices { are_indices (mapped self.now) ≡ true }
    {
        match self {
            RankMap::Linear(span) => span.size(),
            RankMap::Permutation(list) => list.len(),
        }
    }

    /// The global index at a local place. `None` exactly where the place is not below the size.
    pub fn global_of(&self, local: u32) -> Option<u32>
        ensures { result ≡ slice_get (mapped self.now) local }
    {
        match self {
            RankMap::Linear(span) => span.global_of(local),
            RankMap::Permutation(list) => list.as_slice().get(local as usize).copied(),
        }
    }

    /// The local place of a global index. `None` exactly where the rank does not map it.
    pub fn local_of(&self, global: u32) -> Option<u32>
        ensures place { result ≡ position (λ i. i == global) (mapped self.now) }
        ensures indices { are_indices (mapped self.now) ≡ true }
    {
        match self {
            RankMap::Linear(span) => span.local_of(global),
            RankMap::Permutation(list) => list.local_of(global),
        }
    }
}
