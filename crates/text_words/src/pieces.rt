//! The words of a piece, and the pieces of a value that have words, each lent from the front of what is left.
ghost use Rattle.std.specs.Prelude.{◌≡◌, ◌<◌, ◌∷◌, [], length, IfSome, MatchOption};
ghost use Rattle.std.specs.List.{position};
ghost use Rattle.music_base.specs.Blanks.{is_blank};
ghost use Rattle.text_words.specs.Words.{is_some_list, words, declarations};
ghost use Rattle.text_words.specs.Parts.{with_some};

use music_base::{byte_place, is_blank};

fn blank_place(bytes: &[u8]) -> Option<usize>
    ensures { result ≡ position is_blank bytes.now }
{
    bytes.iter().position(|b| is_blank(*b))
}

/// What stands before the first blank, and what stands behind it.
#[tactic(auto, using(crate::proofs::Cutting::words_first, crate::proofs::Cutting::words_only))]
fn cut_at_blank(piece: &[u8]) -> (&[u8], &[u8])
    ensures words { words piece.now ≡ with_some result.0.now (words result.1.now) }
    ensures fewer { 0 < length piece.now → length result.1.now < length piece.now }
{
    match blank_place(piece) {
        Some(place) => (&piece[..place], &piece[place + 1..]),
        None => (piece, &[]),
    }
}

/// The first word of a piece, and what stands behind it. `None` where no word is left.
pub fn split_word(piece: &[u8]) -> Option<(&[u8], &[u8])>
    ensures word { MatchOption result (words piece.now ≡ []) (λ split. words piece.now ≡ split.0.now ∷ words split.1.now) }
    ensures fewer { IfSome result (λ split. length split.1.now < length piece.now) }
{
    let mut rest = piece;
    while !rest.is_empty() {
        let (word, others) = cut_at_blank(rest);
        rest = others;
        if !word.is_empty() {
            return Some((word, rest));
        }
    }
    None
}

/// What stands before the first `;`, and what stands behind it.
#[tactic(auto, using(crate::proofs::Cutting::declarations_first, crate::proofs::Cutting::declarations_only))]
fn cut_at_semicolon(text: &[u8]) -> (&[u8], &[u8])
    ensures pieces { declarations text.now ≡ with_some (words result.0.now) (declarations result.1.now) }
    ensures fewer { 0 < length text.now → length result.1.now < length text.now }
{
    match byte_place(b';', text) {
        Some(place) => (&text[..place], &text[place + 1..]),
        None => (text, &[]),
    }
}

fn has_word(piece: &[u8]) -> bool
    ensures { result ≡ is_some_list (words piece.now) }
{
    split_word(piece).is_some()
}

/// The first piece that has a word, and what stands behind it. Pieces of blanks alone are skipped. `None` where no piece
/// with a word is left.
pub fn split_declaration(text: &[u8]) -> Option<(&[u8], &[u8])>
    ensures piece { MatchOption result (declarations text.now ≡ []) (λ split. declarations text.now ≡ words split.0.now ∷ declarations split.1.now) }
    ensures fewer { IfSome result (λ split. length split.1.now < length text.now) }
{
    let mut rest = text;
    while !rest.is_empty() {
        let (piece, others) = cut_at_semicolon(rest);
        rest = others;
        if has_word(piece) {
            return Some((piece, rest));
        }
    }
    None
}
