//! The form of one declaration.
ghost use Rattle.std.specs.Prelude.{◌≡◌, ◌≤◌, option_map, IfOk, IfSome, true};
ghost use Rattle.music_base.specs.Names.{is_name};
ghost use Rattle.text_words.specs.Words.{words};
ghost use Rattle.port_table.specs.Ports.{direction_in, heading_in, kind_in, map_part};
ghost use Rattle.port_table.specs.Stated.{map_stated};

use crate::map_text::{MapText, map_text, message_map};
use music_base::NoMemory;
use scene_model::{Direction, PortKind};
use std::alloc::Global;
use text_words::{is_key, name_in, split_word};

fn direction_in(word: &[u8]) -> Option<Direction>
    ensures { result ≡ direction_in word.now }
{
    match word {
        b"out" => Some(Direction::Output),
        b"in" => Some(Direction::Input),
        _ => None,
    }
}

fn kind_in(word: &[u8]) -> Option<PortKind>
    ensures { result ≡ kind_in word.now }
{
    if is_key(word, b"event") {
        Some(PortKind::Events)
    } else if is_key(word, b"cont") {
        Some(PortKind::Values)
    } else if is_key(word, b"message") {
        Some(PortKind::Messages)
    } else {
        None
    }
}

/// The direction, the kind and the name, and what stands after them.
pub fn heading_in(text: &[u8]) -> Option<(Direction, PortKind, &[u8], &[u8])>
    ensures heading { option_map (λ h. (h.0, h.1, h.2.now, words h.3.now)) result ≡ heading_in (words text.now) }
    ensures name { IfSome result (λ h. is_name h.2.now ≡ true) }
{
    let (direction, rest) = split_word(text)?;
    let (kind, rest) = split_word(rest)?;
    let (name, rest) = split_word(rest)?;
    let direction = direction_in(direction)?;
    let kind = kind_in(kind)?;
    let name = name_in(name)?;
    Some((direction, kind, name, rest))
}

/// The map, and what stands after its word. A message port has no map there.
pub fn map_part(
    alloc: Global,
    np: u32,
    direction: Direction,
    kind: PortKind,
    text: &[u8],
) -> Result<Option<(MapText, &[u8])>, NoMemory>
    requires { 1 ≤ np }
    ensures { IfOk result (λ part. option_map (λ p. (map_stated p.0, words p.1.now)) part ≡ map_part np direction kind (words text.now)) }
{
    if let PortKind::Messages = kind {
        return Ok(Some((message_map(alloc, np, direction)?, text)));
    }
    let Some((word, rest)) = split_word(text) else {
        return Ok(None);
    };
    match map_text(alloc, np, word)? {
        Some(map) => Ok(Some((map, rest))),
        None => Ok(None),
    }
}
