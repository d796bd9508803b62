//! A map as its words state it: a list may still have an index twice.
ghost use Rattle.std.specs.Prelude.{◌≡◌, ◌≤◌, ◌-◌, ◌∷◌, option_map, IfOk, map, replicate};
ghost use Rattle.std.specs.List.{list_any};
ghost use Rattle.text_words.specs.Options.{each};
ghost use Rattle.text_words.specs.Parts.{is_byte, parts};
ghost use Rattle.port_table.specs.MapWords.{index_list, map_in, message_map, rank_map, rank_maps, slash, span_in, split_span};
ghost use Rattle.port_table.specs.Stated.{map_stated, rank_stated};

use crate::entries::Entries;
use index_maps::{INDEX_LIMIT, Span};
use music_base::{NoMemory, byte_place, count_up_to};
use scene_model::{Direction, GREATEST_INDEX};
use std::alloc::Global;
use text_words::{around, behind, cut_at};

/// What is stated of one rank: consecutive indices, or a list.
#[derive(Drop)]
pub enum RankText {
    Span(Span),
    List(Entries),
}

/// What is stated of all ranks: of each in turn, or consecutive indices that are split over them.
#[derive(Drop)]
pub enum MapText {
    Each(Vec<RankText>),
    Split { span: Span, ranks: u32 },
}

#[tactic(auto, using(crate::proofs::Places::somewhere))]
fn has_byte(byte: u8, text: &[u8]) -> bool
    ensures { result ≡ list_any (is_byte byte) text.now }
{
    byte_place(byte, text).is_some()
}

/// B+N.
#[tactic(auto, unfolding(crate::specs::MapWords::span_in))]
fn span_in(text: &[u8]) -> Option<Span>
    ensures { result ≡ span_in text.now }
{
    let (base, size) = around(b'+', text);
    let base = count_up_to(INDEX_LIMIT, base)?;
    let size = count_up_to(INDEX_LIMIT, size)?;
    if base + size <= INDEX_LIMIT {
        Some(Span::new(base, size))
    } else {
        None
    }
}

/// Indices joined by commas.
#[tactic(auto, unfolding(crate::specs::MapWords::index_list))]
fn index_list(alloc: Global, text: &[u8]) -> Result<Option<Entries>, NoMemory>
    ensures { IfOk result (λ list. list ≡ index_list text.now) }
{
    let mut list = Entries::new(alloc);
    let mut rest = Some(text);
    while let Some(bytes) = rest {
        let (part, others) = cut_at(b',', bytes);
        match count_up_to(GREATEST_INDEX, part) {
            Some(index) => list.push(index)?,
            None => return Ok(None),
        }
        rest = others;
    }
    Ok(Some(list))
}

/// B+N, or a list.
#[tactic(auto, unfolding(crate::specs::MapWords::rank_map))]
fn rank_text(alloc: Global, text: &[u8]) -> Result<Option<RankText>, NoMemory>
    ensures { IfOk result (λ rank. option_map rank_stated rank ≡ rank_map text.now) }
{
    if has_byte(b'+', text) {
        Ok(span_in(text).map(RankText::Span))
    } else {
        Ok(index_list(alloc, text)?.map(RankText::List))
    }
}

fn rank_texts(alloc: Global, word: &[u8]) -> Result<Option<Vec<RankText>>, NoMemory>
    ensures { IfOk result (λ ranks. option_map (λ ranks. map rank_stated ranks.items) ranks ≡ each rank_map (parts slash word.now)) }
{
    let mut ranks = Vec::new(alloc);
    let mut rest = Some(word);
    while let Some(bytes) = rest {
        let (part, others) = cut_at(b'/', bytes);
        match rank_text(alloc, part)? {
            Some(rank) => ranks.push(rank)?,
            None => return Ok(None),
        }
        rest = others;
    }
    Ok(Some(ranks))
}

/// split:B+N.
#[tactic(auto, unfolding(crate::specs::MapWords::split_span))]
fn split_span(word: &[u8]) -> Option<Span>
    ensures { result ≡ split_span word.now }
{
    let text = behind(b"split:", word)?;
    span_in(text)
}

/// The map that the word states for so many ranks. `None` where it has not the form of one.
#[tactic(auto, unfolding(crate::specs::MapWords::map_in, crate::specs::MapWords::rank_maps))]
pub fn map_text(alloc: Global, np: u32, word: &[u8]) -> Result<Option<MapText>, NoMemory>
    ensures { IfOk result (λ map. option_map map_stated map ≡ map_in np word.now) }
{
    if let Some(span) = split_span(word) {
        return Ok(Some(MapText::Split { span, ranks: np }));
    }
    match rank_texts(alloc, word)? {
        Some(ranks) if ranks.len() == np as usize => Ok(Some(MapText::Each(ranks))),
        _ => Ok(None),
    }
}

/// A span for the first rank, and another for each rank after it.
fn first_and_others(
    alloc: Global,
    np: u32,
    first: Span,
    others: Span,
) -> Result<Vec<RankText>, NoMemory>
    requires { 1 ≤ np }
    ensures { IfOk result (λ ranks. ranks.items ≡ RankText.Span first ∷ replicate (np - 1) (RankText.Span others)) }
{
    let mut ranks = Vec::new(alloc);
    ranks.push(RankText::Span(first))?;
    for rank in 1..np {
        ranks.push(RankText::Span(others))?;
    }
    Ok(ranks)
}

/// The map of a message port, which no word states.
#[tactic(auto, using(crate::proofs::MessageMaps::stated))]
pub fn message_map(alloc: Global, np: u32, direction: Direction) -> Result<MapText, NoMemory>
    requires { 1 ≤ np }
    ensures { IfOk result (λ map. map_stated map ≡ message_map np direction) }
{
    let others = match direction {
        Direction::Output => Span::new(0, 0),
        Direction::Input => Span::new(0, 1),
    };
    Ok(MapText::Each(first_and_others(alloc, np, Span::new(0, 1), others)?))
}
