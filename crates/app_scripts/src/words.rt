//! What the words of a rule spell, one after the other. Each function takes its words from the front, and lends what is
//! left behind them.
ghost use Rattle.std.specs.Prelude.{◌≡◌, true, option_copied, option_map, IfSome};
ghost use Rattle.std.specs.List.{list_all};
ghost use Rattle.music_base.specs.Names.{is_in_words, is_name, is_word};
ghost use Rattle.text_words.specs.Words.{words};
ghost use Rattle.text_words.specs.OneWord.{name_in};
ghost use Rattle.text_words.specs.Numbers.{fixed};
ghost use Rattle.app_scripts.specs.Forms.{
  after,
  first,
  fixed_after,
  index_word,
  last_fixed_after,
  last_time_after,
  message_word,
  name_after,
  only,
  scale_after,
  scale_word,
  shift_after,
  shift_word,
  time_after,
};

use music_base::{Nanos, Sample, count_up_to};
use scene_model::{GREATEST_DENOMINATOR, GREATEST_INDEX, GREATEST_NUMERATOR, GREATEST_SHIFT};
use text_words::{around, fixed, is_key, name_in, signed_within, split_word, time_in};

#[tactic(auto, unfolding(crate::specs::Forms::index_word))]
fn index_word(word: &[u8]) -> Option<u32>
    ensures { result ≡ index_word word.now }
{
    count_up_to(GREATEST_INDEX, word)
}

#[tactic(auto, unfolding(crate::specs::Forms::shift_word))]
fn shift_word(word: &[u8]) -> Option<i32>
    ensures { result ≡ shift_word word.now }
{
    let shift = signed_within(GREATEST_SHIFT, word)?;
    Some(shift as i32)
}

/// A numerator, a `/` and a denominator of at least 1.
#[tactic(auto, unfolding(crate::specs::Forms::scale_word))]
fn scale_word(word: &[u8]) -> Option<(i32, u32)>
    ensures { result ≡ scale_word word.now }
{
    let (before, behind) = around(b'/', word);
    let numerator = signed_within(GREATEST_NUMERATOR, before)?;
    let denominator = count_up_to(GREATEST_DENOMINATOR, behind)?;
    if 1 <= denominator {
        Some((numerator as i32, denominator))
    } else {
        None
    }
}

fn is_in_words(byte: u8) -> bool
    ensures { result ≡ is_in_words byte }
{
    byte.is_ascii_alphanumeric() || byte == b'_' || byte == b'-' || byte == b'.'
}

fn are_in_words(bytes: &[u8]) -> bool
    ensures { result ≡ list_all is_in_words bytes.now }
{
    bytes.iter().all(|b| is_in_words(*b))
}

/// Whether the bytes are the word of a message.
fn is_word(bytes: &[u8]) -> bool
    ensures { result ≡ is_word bytes.now }
{
    1 <= bytes.len() && bytes.len() <= 64 && are_in_words(bytes)
}

#[tactic(auto, unfolding(crate::specs::Forms::message_word))]
fn message_word(word: &[u8]) -> Option<&[u8]>
    ensures { option_copied result ≡ message_word word.now }
{
    if is_word(word) { Some(word) } else { None }
}

/// The words after this one.
fn after<'a>(key: &[u8], text: &'a [u8]) -> Option<&'a [u8]>
    ensures { option_map (λ rest. words rest.now) result ≡ after key.now (words text.now) }
{
    let (word, rest) = split_word(text)?;
    if is_key(word, key) { Some(rest) } else { None }
}

/// The one word that is left.
fn only(text: &[u8]) -> Option<&[u8]>
    ensures { option_copied result ≡ only Some (words text.now) }
{
    let (word, rest) = split_word(text)?;
    match split_word(rest) {
        None => Some(word),
        Some(_) => None,
    }
}

pub fn name_first(text: &[u8]) -> Option<(&[u8], &[u8])>
    ensures name { option_map (λ p. (p.0.now, words p.1.now)) result ≡ first name_in (words text.now) }
    ensures is { IfSome result (λ p. is_name p.0.now ≡ true) }
{
    let (word, rest) = split_word(text)?;
    let name = name_in(word)?;
    Some((name, rest))
}

#[tactic(auto, unfolding(crate::specs::Forms::name_after))]
pub fn name_after<'a>(key: &[u8], text: &'a [u8]) -> Option<(&'a [u8], &'a [u8])>
    ensures name { option_map (λ p. (p.0.now, words p.1.now)) result ≡ name_after key.now (words text.now) }
    ensures is { IfSome result (λ p. is_name p.0.now ≡ true) }
{
    name_first(after(key, text)?)
}

pub fn index_first(text: &[u8]) -> Option<(u32, &[u8])>
    ensures { option_map (λ p. (p.0, words p.1.now)) result ≡ first index_word (words text.now) }
{
    let (word, rest) = split_word(text)?;
    let index = index_word(word)?;
    Some((index, rest))
}

pub fn message_first(text: &[u8]) -> Option<(&[u8], &[u8])>
    ensures { option_map (λ p. (p.0.now, words p.1.now)) result ≡ first message_word (words text.now) }
{
    let (word, rest) = split_word(text)?;
    let message = message_word(word)?;
    Some((message, rest))
}

#[tactic(auto, unfolding(crate::specs::Forms::time_after))]
pub fn time_after<'a>(key: &[u8], text: &'a [u8]) -> Option<(u64, &'a [u8])>
    ensures { option_map (λ p. (p.0, words p.1.now)) result ≡ time_after key.now (words text.now) }
{
    let rest = after(key, text)?;
    let (word, rest) = split_word(rest)?;
    let time = time_in(word)?;
    Some((time.0, rest))
}

#[tactic(auto, unfolding(crate::specs::Forms::fixed_after))]
pub fn fixed_after<'a>(key: &[u8], text: &'a [u8]) -> Option<(i64, &'a [u8])>
    ensures { option_map (λ p. (p.0, words p.1.now)) result ≡ fixed_after key.now (words text.now) }
{
    let rest = after(key, text)?;
    let (word, rest) = split_word(rest)?;
    let value = fixed(word)?;
    Some((value, rest))
}

#[tactic(auto, unfolding(crate::specs::Forms::shift_after))]
pub fn shift_after<'a>(key: &[u8], text: &'a [u8]) -> Option<(i32, &'a [u8])>
    ensures { option_map (λ p. (p.0, words p.1.now)) result ≡ shift_after key.now (words text.now) }
{
    let rest = after(key, text)?;
    let (word, rest) = split_word(rest)?;
    let shift = shift_word(word)?;
    Some((shift, rest))
}

#[tactic(auto, unfolding(crate::specs::Forms::scale_after))]
pub fn scale_after<'a>(key: &[u8], text: &'a [u8]) -> Option<((i32, u32), &'a [u8])>
    ensures { option_map (λ p. (p.0, words p.1.now)) result ≡ scale_after key.now (words text.now) }
{
    let rest = after(key, text)?;
    let (word, rest) = split_word(rest)?;
    let scale = scale_word(word)?;
    Some((scale, rest))
}

pub fn last_fixed(text: &[u8]) -> Option<Sample>
    ensures { result ≡ only fixed (words text.now) }
{
    let value = fixed(only(text)?)?;
    Some(Sample(value))
}

pub fn last_index(text: &[u8]) -> Option<u32>
    ensures { result ≡ only index_word (words text.now) }
{
    index_word(only(text)?)
}

#[tactic(auto, unfolding(crate::specs::Forms::last_time_after))]
pub fn last_time_after(key: &[u8], text: &[u8]) -> Option<Nanos>
    ensures { result ≡ last_time_after key.now (words text.now) }
{
    time_in(only(after(key, text)?)?)
}

#[tactic(auto, unfolding(crate::specs::Forms::last_fixed_after))]
pub fn last_fixed_after(key: &[u8], text: &[u8]) -> Option<Sample>
    ensures { result ≡ last_fixed_after key.now (words text.now) }
{
    last_fixed(after(key, text)?)
}
