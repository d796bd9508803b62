use crate::{IndexList, Span};
use music_base::{Items, NoMemory, TryCopy};
use std::alloc::Global;

/// What one rank maps: consecutive indices, of which the first has local place 0, or a list of indices by their
/// local places.
#[derive(Debug, Drop)]
pub enum IndexMap {
    Linear(Span),
    Permutation(IndexList),
}

/// What the ranks of a port map: a map for each rank, or consecutive indices that are split over the ranks as evenly
/// as whole numbers allow.
#[derive(Debug, Drop)]
pub enum PortMap {
    Each(Items<IndexMap>),
    Split { span: Span, ranks: u32 },
}

impl TryCopy for IndexMap {
    fn copy(&self, alloc: Global) -> Result<IndexMap, NoMemory> {
        match self {
            IndexMap::Linear(span) => Ok(IndexMap::Linear(*span)),
            IndexMap::Permutation(list) => Ok(IndexMap::Permutation(list.copy(alloc)?)),
        }
    }
}

impl TryCopy for PortMap {
    fn copy(&self, alloc: Global) -> Result<PortMap, NoMemory> {
        match self {
            PortMap::Each(maps) => Ok(PortMap::Each(maps.copy(alloc)?)),
            PortMap::Split { span, ranks } => Ok(PortMap::Split {
                span: *span,
                ranks: *ranks,
            }),
        }
    }
}
