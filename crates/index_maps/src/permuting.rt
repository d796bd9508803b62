ghost use Rattle.std.specs.Prelude.{◌≡◌, ◌==◌, ◌<◌, ℕ, true, false, length, slice_index, slice_index_or, nat_lt, IfOk, IfErr, Some, None};
ghost use Rattle.std.specs.List.{list_all, list_any};
ghost use Rattle.index_maps.specs.Repeats.{first_repeat, IsRepeatOf};
ghost use Rattle.index_maps.specs.declared.map.IndexMap.TheVariants.{Permutation};
ghost use Rattle.index_maps.specs.declared.permuting.MapFault.TheVariants.{Memory};
ghost use Rattle.index_maps.specs.declared.span.TheConstants.{INDEX_LIMIT};

use crate::list::has_index;
use crate::{INDEX_LIMIT, IndexList, IndexMap};
use music_base::NoMemory;
use std::alloc::Global;

/// Why a list is no permutation.
#[derive(Clone, Copy, Debug, PartialEq, Eq)]
pub enum MapFault {
    /// An entry equals an earlier one: the index of the first such entry.
    Repeated { index: u32 },
    /// Memory was asked for and not found.
    Memory,
}

impl From<NoMemory> for MapFault {
    ghost from_gives = { λ _ e. e ≡ Memory };

    fn from(_: NoMemory) -> MapFault {
        MapFault::Memory
    }
}

/// A list of at most so many entries is searched by comparing each two of them.
const SHORT: usize = 64;

fn repeat_by_pairs(list: &[u32]) -> Option<u32>
    ensures { result ≡ first_repeat list.now }
{
    for (before, index) in list.iter().enumerate() {
        if has_index(&list[..before], *index) {
            return Some(*index);
        }
    }
    None
}

/// As many marks, none of them set.
fn no_marks(alloc: Global, count: usize) -> Result<Vec<bool>, NoMemory>
    ensures size { IfOk result (λ marks. length marks.items ≡ count) }
    ensures none { IfOk result (λ marks. (k : ℕ) → slice_index_or marks.items k false ≡ false) }
{
    Ok(vec![in alloc; false; count]?)
}

#[tactic(auto, using(crate::proofs::Repeats::none_seen, crate::proofs::Repeats::rest_at_end))]
fn repeat_by_marks(alloc: Global, list: &[u32]) -> Result<Option<u32>, NoMemory>
    requires { list_all (λ i. nat_lt i INDEX_LIMIT) list.now ≡ true }
    ensures { IfOk result (λ repeat. repeat ≡ first_repeat list.now) }
{
    let mut seen = no_marks(alloc, INDEX_LIMIT as usize)?;
    for (place, index) in list.iter().enumerate() {
        if seen[*index as usize] {
            return Ok(Some(list[place]));
        }
        seen[*index as usize] = true;
    }
    Ok(None)
}

fn first_repeat(alloc: Global, list: &[u32]) -> Result<Option<u32>, NoMemory>
    requires { list_all (λ i. nat_lt i INDEX_LIMIT) list.now ≡ true }
    ensures { IfOk result (λ repeat. repeat ≡ first_repeat list.now) }
{
    if list.len() <= SHORT {
        return Ok(repeat_by_pairs(list));
    }
    repeat_by_marks(alloc, list)
}

/// The map of a list of indices by their local places, each below the limit. `Repeated` where some entry equals an
/// earlier one, with the index of the first such entry.
#[tactic(auto, using(crate::proofs::Repeats::indices_differ))]
pub fn permutation(alloc: Global, list: Vec<u32>) -> Result<IndexMap, MapFault>
    requires { list_all (λ i. nat_lt i INDEX_LIMIT) list.items ≡ true }
    ensures map { IfOk result (λ map. map ≡ Permutation list.items) }
    ensures differ { IfOk result (λ map. first_repeat list.items ≡ None) }
    ensures fault { IfErr result (IsRepeatOf (first_repeat list.items)) }
{
    match first_repeat(alloc, list.as_slice())? {
        Some(index) => Err(MapFault::Repeated { index }),
        None => Ok(IndexMap::Permutation(IndexList::from_vec(list))),
    }
}
