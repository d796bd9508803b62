//! The parts of a line. They are lent from the line, so that reading a line takes no memory.

ghost use Rattle.std.specs.Prelude.{◌≡◌, ◌==◌, ◌+◌, ◌<◌, ◌≤◌, ◌&&◌, ◌∷◌, ◌++◌, nat_lt, length, IfOk, IfSome, Some, is_some, true};
ghost use Rattle.std.specs.List.{position, position_or_len, list_all, list_any, before_first, after_first};
ghost use Rattle.music_base.specs.Blanks.{is_blank};
ghost use Rattle.config_text.specs.Bytes.{close_bracket, is_text_byte, is_quote};
ghost use Rattle.config_text.specs.Parts.{without_cr, before_comment, trimmed, without_leading_blanks, without_trailing_blanks, begins_with_blank, ends_with_blank, ends_in, between_ends, name_in, is_value};
ghost use Rattle.config_text.specs.Inner.{Gives};

use crate::TextKind;
use music_base::{byte_place, is_blank, is_name};

/// The line without one CR at its end.
pub fn without_cr(line: &[u8]) -> &[u8]
    ensures { result.now ≡ without_cr line.now }
{
    let len = line.len();
    if 0 < len && line[len - 1] == b'\r' {
        &line[..len - 1]
    } else {
        line
    }
}

/// What stands before the comment, which runs from the first `#` with an even number of quotation marks before it.
pub fn before_comment(line: &[u8]) -> &[u8]
    ensures { result.now ≡ before_comment line.now }
{
    let mut even = true;
    for (i, b) in line.iter().enumerate() {
        if even && *b == b'#' {
            return &line[..i];
        }
        if *b == b'"' {
            even = !even;
        }
    }
    line
}

/// Whether all of it may stand outside a comment.
pub fn is_text(bytes: &[u8]) -> bool
    ensures { result ≡ list_all is_text_byte bytes.now }
{
    bytes
        .iter()
        .all(|b| *b == b'\t' || (b' ' <= *b && *b <= b'~'))
}

/// The bytes without blanks at both ends.
pub fn trimmed(bytes: &[u8]) -> &[u8]
    ensures { result.now ≡ trimmed bytes.now }
{
    without_trailing_blanks(without_leading_blanks(bytes))
}

fn without_leading_blanks(bytes: &[u8]) -> &[u8]
    ensures { result.now ≡ without_leading_blanks bytes.now }
{
    let mut rest = bytes;
    while begins_with_blank(rest) {
        rest = &rest[1..];
    }
    rest
}

fn without_trailing_blanks(bytes: &[u8]) -> &[u8]
    ensures { result.now ≡ without_trailing_blanks bytes.now }
{
    let mut rest = bytes;
    while ends_with_blank(rest) {
        rest = &rest[..rest.len() - 1];
    }
    rest
}

pub fn begins_with_blank(bytes: &[u8]) -> bool
    ensures { result ≡ begins_with_blank bytes.now }
{
    0 < bytes.len() && is_blank(bytes[0])
}

pub fn ends_with_blank(bytes: &[u8]) -> bool
    ensures { result ≡ ends_with_blank bytes.now }
{
    0 < bytes.len() && is_blank(bytes[bytes.len() - 1])
}

pub fn ends_in_bracket(bytes: &[u8]) -> bool
    ensures { result ≡ (nat_lt 0 (length bytes.now) && ends_in close_bracket bytes.now) }
{
    0 < bytes.len() && bytes[bytes.len() - 1] == b']'
}

/// What stands between the first and the last byte.
pub fn between_ends(bytes: &[u8]) -> &[u8]
    requires { 2 ≤ length bytes.now }
    ensures { result.now ≡ between_ends bytes.now }
{
    &bytes[1..bytes.len() - 1]
}

/// Whether the byte stands anywhere.
pub fn has(bytes: &[u8], byte: u8) -> bool
    ensures { result ≡ list_any (λ b. b == byte) bytes.now }
{
    bytes.iter().any(|b| *b == byte)
}

#[tactic(auto, using(music_base::proofs::FirstPlaces::place_or_len))]
fn place_or_len(bytes: &[u8], byte: u8) -> usize
    ensures place { result ≡ position_or_len (λ b. b == byte) bytes.now }
    ensures within { result ≤ length bytes.now }
{
    byte_place(byte, bytes).unwrap_or(bytes.len())
}

/// What stands before the first such byte, or all of it.
pub fn before_first(bytes: &[u8], byte: u8) -> &[u8]
    ensures { result.now ≡ before_first (λ b. b == byte) bytes.now }
{
    &bytes[..place_or_len(bytes, byte)]
}

/// What stands after the first such byte, or nothing.
pub fn after_first(bytes: &[u8], byte: u8) -> &[u8]
    ensures { result.now ≡ after_first (λ b. b == byte) bytes.now }
{
    let place = place_or_len(bytes, byte);
    if place < bytes.len() {
        &bytes[place + 1..]
    } else {
        &bytes[bytes.len()..]
    }
}

fn blank_place(bytes: &[u8]) -> Option<usize>
    ensures { result ≡ position is_blank bytes.now }
{
    bytes.iter().position(|b| is_blank(*b))
}

#[tactic(auto, using(music_base::proofs::FirstPlaces::place_or_len))]
fn blank_or_end(bytes: &[u8]) -> usize
    ensures place { result ≡ position_or_len is_blank bytes.now }
    ensures within { result ≤ length bytes.now }
{
    blank_place(bytes).unwrap_or(bytes.len())
}

/// What stands before the first blank, all where there is none, and what stands after it.
pub fn around_blank(bytes: &[u8]) -> (&[u8], &[u8])
    ensures before { result.0.now ≡ before_first is_blank bytes.now }
    ensures after { result.1.now ≡ after_first is_blank bytes.now }
{
    let place = blank_or_end(bytes);
    if place < bytes.len() {
        (&bytes[..place], &bytes[place + 1..])
    } else {
        (bytes, &[])
    }
}

/// What stands before the first such byte, and what stands after it.
pub fn split_at(bytes: &[u8], byte: u8) -> Option<(&[u8], &[u8])>
    ensures parts { IfSome result (λ parts. bytes.now ≡ parts.0.now ++ byte ∷ parts.1.now) }
    ensures first { IfSome result (λ parts. position (λ b. b == byte) bytes.now ≡ Some (length parts.0.now)) }
    ensures splits { is_some result ≡ is_some (position (λ b. b == byte) bytes.now) }
{
    match byte_place(byte, bytes) {
        None => None,
        Some(place) => Some((&bytes[..place], &bytes[place + 1..])),
    }
}

/// The name that stands in the text, with blanks around it or none.
pub fn name_in(text: &[u8]) -> Result<&[u8], TextKind>
    ensures { Gives (λ name. name.now) result (name_in text.now) }
{
    let name = trimmed(text);
    if is_name(name) {
        Ok(name)
    } else {
        Err(TextKind::BadName)
    }
}
