//! The options of a connection.

ghost use Rattle.std.specs.Prelude.{◌≡◌};
ghost use Rattle.config_text.specs.Options.{latency_in, buffered_in, option_named, option_in, options_in};

use crate::parts::has;
use music_base::{MOST_BUFFERED, count_up_to};
use text_words::{around, is_key, split_word, time_in};

/// What a connection states of its own. Each is stated or not, and the latency is in nanoseconds.
#[derive(Clone, Copy)]
pub struct LinkOptions {
    pub latency: Option<u64>,
    pub buffered: Option<u64>,
}

const NO_OPTIONS: LinkOptions = LinkOptions {
    latency: None,
    buffered: None,
};

fn latency_in(options: LinkOptions, text: &[u8]) -> Option<LinkOptions>
    ensures { result ≡ latency_in options text.now }
{
    let time = time_in(text)?;
    if options.latency.is_some() {
        return None;
    }
    Some(LinkOptions {
        latency: Some(time.0),
        ..options
    })
}

fn buffered_in(options: LinkOptions, text: &[u8]) -> Option<LinkOptions>
    ensures { result ≡ buffered_in options text.now }
{
    let count = count_up_to(MOST_BUFFERED, text)?;
    if 1 <= count && options.buffered.is_none() {
        Some(LinkOptions {
            buffered: Some(u64::from(count)),
            ..options
        })
    } else {
        None
    }
}

fn option_named(options: LinkOptions, name: &[u8], value: &[u8]) -> Option<LinkOptions>
    ensures { result ≡ option_named options name.now value.now }
{
    if is_key(name, b"latency") {
        latency_in(options, value)
    } else if is_key(name, b"buffered") {
        buffered_in(options, value)
    } else {
        None
    }
}

fn option_in(options: LinkOptions, word: &[u8]) -> Option<LinkOptions>
    ensures { result ≡ option_in options word.now }
{
    if !has(word, b'=') {
        return None;
    }
    let (name, value) = around(b'=', word);
    option_named(options, name, value)
}

/// The options that the words of the text state, in any order, each at most once.
#[tactic(auto, unfolding(crate::specs::Options::options_in))]
pub fn options_in(text: &[u8]) -> Option<LinkOptions>
    ensures { result ≡ options_in text.now }
{
    let mut options = NO_OPTIONS;
    let mut rest = text;
    while let Some((word, others)) = split_word(rest) {
        match option_in(options, word) {
            Some(more) => options = more,
            None => return None,
        }
        rest = others;
    }
    Some(options)
}
