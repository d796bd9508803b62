//! A map, from what its words state, with no index twice in a list.
ghost use Rattle.std.specs.Prelude.{◌≡◌, IfOk, IfErr, None, map};
ghost use Rattle.text_words.specs.Options.{first_some};
ghost use Rattle.index_maps.specs.Repeats.{IsRepeatOf};
ghost use Rattle.port_table.specs.MapWords.{map_repeat, rank_repeat};
ghost use Rattle.port_table.specs.Stated.{map_stated, rank_stated};

use crate::map_text::{MapText, RankText};
use index_maps::{IndexMap, MapFault, PortMap};
use music_base::Items;
use std::alloc::Global;

fn index_map(alloc: Global, rank: RankText) -> Result<IndexMap, MapFault>
    ensures map { IfOk result (λ map. map ≡ rank_stated rank) }
    ensures once { IfOk result (λ map. rank_repeat map ≡ None) }
    ensures fault { IfErr result (IsRepeatOf (rank_repeat (rank_stated rank))) }
{
    match rank {
        RankText::Span(span) => Ok(IndexMap::Linear(span)),
        RankText::List(list) => list.permutation(alloc),
    }
}

fn index_maps(alloc: Global, ranks: Vec<RankText>) -> Result<Items<IndexMap>, MapFault>
    ensures maps { IfOk result (λ maps. maps ≡ map rank_stated ranks.items) }
    ensures once { IfOk result (λ maps. first_some rank_repeat maps ≡ None) }
    ensures fault { IfErr result (IsRepeatOf (first_some rank_repeat (map rank_stated ranks.items))) }
{
    let mut maps = Items::new(alloc);
    for rank in ranks {
        let map = index_map(alloc, rank)?;
        maps.push(map)?;
    }
    Ok(maps)
}

/// The map that is stated. `Repeated` for the first rank whose list has an index twice.
pub fn port_map(alloc: Global, text: MapText) -> Result<PortMap, MapFault>
    ensures map { IfOk result (λ map. map ≡ map_stated text) }
    ensures once { IfOk result (λ map. map_repeat map ≡ None) }
    ensures fault { IfErr result (IsRepeatOf (map_repeat (map_stated text))) }
{
    match text {
        MapText::Each(ranks) => Ok(PortMap::Each(index_maps(alloc, ranks)?)),
        MapText::Split { span, ranks } => Ok(PortMap::Split { span, ranks }),
    }
}
