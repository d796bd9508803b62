//! A name and a time as words, and what stands behind the front of one.
ghost use Rattle.std.specs.Prelude.{◌≡◌, option_copied, option_map, IfSome, true};
ghost use Rattle.music_base.specs.Names.{is_name};
ghost use Rattle.text_words.specs.OneWord.{behind, name_in, time_in};

use music_base::{Nanos, is_name, read_time};

/// A NAME. `None` for any other word.
pub fn name_in(word: &[u8]) -> Option<&[u8]>
    ensures name { option_copied result ≡ name_in word.now }
    ensures is { IfSome result (λ name. is_name name.now ≡ true) }
{
    if is_name(word) { Some(word) } else { None }
}

/// A time. `None` for any other word.
pub fn time_in(word: &[u8]) -> Option<Nanos>
    ensures { result ≡ time_in word.now }
{
    read_time(word).ok()
}

/// What stands behind the front. `None` where the text has another one.
pub fn behind<'a>(front: &[u8], text: &'a [u8]) -> Option<&'a [u8]>
    ensures { option_map (λ rest. rest.now) result ≡ behind front.now text.now }
{
    text.strip_prefix(front)
}
