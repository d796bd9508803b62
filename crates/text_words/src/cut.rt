//! Words cut at a byte. All parts are lent from the word.
ghost use Rattle.std.specs.Prelude.{◌≡◌, ◌<◌, ◌≤◌, ◌∷◌, length, IfSome, bytes_eq};
ghost use Rattle.std.specs.List.{position_or_len, before_first, after_first};
ghost use Rattle.std.specs.Option.{option_copied};
ghost use Rattle.text_words.specs.Parts.{is_byte, parts, parts_left};

use music_base::byte_place;

/// The part before the first such byte, and what stands behind that byte. Each may be empty.
#[tactic(auto, using(crate::proofs::Cutting::first_part, crate::proofs::Cutting::only_part))]
pub fn cut_at(byte: u8, bytes: &[u8]) -> (&[u8], Option<&[u8]>)
    ensures parts { parts byte bytes.now ≡ result.0.now ∷ parts_left byte (option_copied result.1) }
    ensures fewer { IfSome result.1 (λ rest. length rest.now < length bytes.now) }
{
    match byte_place(byte, bytes) {
        Some(place) => (&bytes[..place], Some(&bytes[place + 1..])),
        None => (bytes, None),
    }
}

/// Where the first such byte stands, or the length where there is none.
#[tactic(auto, using(music_base::proofs::FirstPlaces::place_or_len))]
fn place_or_end(byte: u8, bytes: &[u8]) -> usize
    ensures place { result ≡ position_or_len (is_byte byte) bytes.now }
    ensures within { result ≤ length bytes.now }
{
    byte_place(byte, bytes).unwrap_or(bytes.len())
}

/// What stands before the first such byte, all where there is none, and what stands behind it, nothing where there is
/// none.
pub fn around(byte: u8, bytes: &[u8]) -> (&[u8], &[u8])
    ensures before { result.0.now ≡ before_first (is_byte byte) bytes.now }
    ensures after { result.1.now ≡ after_first (is_byte byte) bytes.now }
{
    let place = place_or_end(byte, bytes);
    if place < bytes.len() {
        (&bytes[..place], &bytes[place + 1..])
    } else {
        (bytes, &[])
    }
}

/// Whether the word is this one.
pub fn is_key(word: &[u8], key: &[u8]) -> bool
    ensures { result ≡ bytes_eq word.now key.now }
{
    word == key
}
