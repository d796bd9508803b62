ghost use Rattle.std.specs.Prelude.{◌≡◌, ◌<◌, [], ◌∷◌, ◌++◌, OnOk, IfOk, IfErr, None};
ghost use Rattle.index_maps.specs.Repeats.{first_repeat, IsRepeatOf};
ghost use Rattle.index_maps.specs.declared.map.IndexMap.TheVariants.{Permutation};
ghost use Rattle.index_maps.specs.declared.span.TheConstants.{INDEX_LIMIT};

use index_maps::{IndexMap, MapFault, permutation};
use music_base::NoMemory;
use std::alloc::Global;
use std::marker::Model;

/// The indices of a list, in which one may come twice. Contracts see the list.
#[derive(Drop)]
pub struct Entries {
    indices: Vec<u32>,
}

impl Model for Entries {
    ghost use Rattle.std.specs.Prelude.{◌≡◌, List, ℕ, nat_lt, true};
    ghost use Rattle.std.specs.List.{list_all};
    ghost use Rattle.index_maps.specs.declared.span.TheConstants.{INDEX_LIMIT};

    ghost Value = { List ℕ };

    ghost view = { λ entries. entries.indices.items };

    ghost invariant = { λ entries. list_all (λ i. nat_lt i INDEX_LIMIT) entries.indices.items ≡ true };
}

impl Entries {
    pub fn new(alloc: Global) -> Entries
        ensures { result ≡ [] }
    {
        Entries {
            indices: Vec::new(alloc),
        }
    }

    pub fn push(&mut self, index: u32) -> Result<(), NoMemory>
        requires { index < INDEX_LIMIT }
        ensures { OnOk result (self.new ≡ self.old ++ index ∷ []) }
    {
        self.indices.push(index)?;
        Ok(())
    }

    /// The map of the list. `Repeated` where an entry equals an earlier one, with the index of the first such entry.
    pub fn permutation(self, alloc: Global) -> Result<IndexMap, MapFault>
        ensures map { IfOk result (λ map. map ≡ Permutation self) }
        ensures differ { IfOk result (λ map. first_repeat self ≡ None) }
        ensures fault { IfErr result (IsRepeatOf (first_repeat self)) }
    {
        let Entries { indices } = self;
        permutation(alloc, indices)
    }
}
