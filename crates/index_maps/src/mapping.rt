ghost use Rattle.std.specs.Prelude.{◌≡◌, ◌==◌};
ghost use Rattle.std.specs.List.{list_any};
ghost use Rattle.index_maps.specs.Maps.{globals, maps_index};

use crate::{IndexMap, PortMap};

fn holds(map: &IndexMap, global: u32) -> bool
    ensures { result ≡ list_any (λ i. i == global) (globals map.now) }
{
    match map {
        IndexMap::Linear(span) => span.holds(global),
        IndexMap::Permutation(list) => list.holds(global),
    }
}

fn some_holds(maps: &[IndexMap], global: u32) -> bool
    ensures { result ≡ list_any (λ map. list_any (λ i. i == global) (globals map)) maps.now }
{
    maps.iter().any(|map| holds(map, global))
}

impl PortMap {
    /// Whether some rank maps the index.
    pub fn maps(&self, global: u32) -> bool
        ensures { result ≡ maps_index self.now global }
    {
        match self {
            PortMap::Each(maps) => some_holds(maps.as_slice(), global),
            PortMap::Split { span, ranks } => 0 < *ranks && span.holds(global),
        }
    }
}
