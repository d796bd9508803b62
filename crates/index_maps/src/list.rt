ghost use Rattle.std.specs.Prelude.{◌≡◌, ◌==◌, ◌<◌, ◌≤◌, true, length, IfSome};
ghost use Rattle.std.specs.List.{list_any, position};
ghost use Rattle.index_maps.specs.Indices.{are_indices};
ghost use Rattle.index_maps.specs.declared.span.TheConstants.{INDEX_LIMIT};

use music_base::{NoMemory, TryCopy};
use std::alloc::Global;
use std::marker::Model;

/// Global indices by their local places, of which none comes twice. Contracts see the list.
#[derive(Debug, Drop)]
pub struct IndexList {
    indices: Vec<u32>,
}

impl Model for IndexList {
    ghost use Rattle.std.specs.Prelude.{List, ℕ, ◌≡◌, true};
    ghost use Rattle.index_maps.specs.Indices.{are_indices};

    ghost Value = { List ℕ };

    ghost view = { λ list. list.indices.items };

    ghost invariant = { λ list. are_indices list.indices.items ≡ true };
}

/// Whether the index is one of these.
pub fn has_index(indices: &[u32], index: u32) -> bool
    ensures { result ≡ list_any (λ i. i == index) indices.now }
{
    indices.iter().any(|i| *i == index)
}

fn index_place(indices: &[u32], global: u32) -> Option<usize>
    ensures place { result ≡ position (λ i. i == global) indices.now }
    ensures within { IfSome result (λ place. place < length indices.now) }
{
    indices.iter().position(|i| *i == global)
}

impl IndexList {
    /// The list of these indices, each below the limit and none twice. It takes no memory.
    pub fn from_vec(indices: Vec<u32>) -> IndexList
        requires { are_indices indices.items ≡ true }
        ensures { result ≡ indices.items }
    {
        IndexList { indices }
    }

    pub fn as_slice(&self) -> &[u32]
        ensures indices { result.now ≡ self.now }
        ensures differ { are_indices self.now ≡ true }
    {
        self.indices.as_slice()
    }

    /// How many indices there are.
    #[tactic(auto, using(crate::proofs::Pigeonholes::indices_are_few))]
    pub fn len(&self) -> u32
        ensures length { result ≡ length self.now }
        ensures limit { length self.now ≤ INDEX_LIMIT }
        ensures differ { are_indices self.now ≡ true }
    {
        self.as_slice().len() as u32
    }

    /// Whether the index is in the list.
    pub fn holds(&self, global: u32) -> bool
        ensures { result ≡ list_any (λ i. i == global) self.now }
    {
        has_index(self.as_slice(), global)
    }

    /// The local place of a global index, where it is in the list.
    #[tactic(auto, using(crate::proofs::Pigeonholes::indices_are_few))]
    pub fn local_of(&self, global: u32) -> Option<u32>
        ensures place { result ≡ position (λ i. i == global) self.now }
        ensures differ { are_indices self.now ≡ true }
    {
        let place = index_place(self.as_slice(), global)?;
        Some(place as u32)
    }
}

impl TryCopy for IndexList {
    fn copy(&self, alloc: Global) -> Result<IndexList, NoMemory> {
        let indices = Vec::from_slice(alloc, self.as_slice())?;
        Ok(IndexList { indices })
    }
}
