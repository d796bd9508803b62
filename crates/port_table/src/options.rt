//! The options of a declaration.

ghost use Rattle.std.specs.Prelude.{◌≡◌, ◌≤◌, ◌∷◌, length, IfSome, MatchOption, None};
ghost use Rattle.text_words.specs.Words.{words};
ghost use Rattle.port_table.specs.Options.{latency_in, delay_in, buffered_in, interpolate_in, flag_in, valued_in, is_flag, options_in, no_options, takes_latency, takes_delay};

use music_base::{MOST_BUFFERED, Nanos, count_up_to};
use scene_model::{Direction, PortKind};
use text_words::{is_key, split_word, time_in};

/// The options that stand in a declaration.
#[derive(Clone, Copy)]
pub struct Options {
    pub latency: Option<Nanos>,
    pub delay: Option<Nanos>,
    pub interpolate: Option<bool>,
    pub buffered: Option<u64>,
}

const NO_OPTIONS: Options = Options {
    latency: None,
    delay: None,
    interpolate: None,
    buffered: None,
};

fn takes_latency(direction: Direction, kind: PortKind) -> bool
    ensures { result ≡ takes_latency direction kind }
{
    matches!(
        (direction, kind),
        (Direction::Input, PortKind::Events | PortKind::Messages)
    )
}

fn takes_delay(direction: Direction, kind: PortKind) -> bool
    ensures { result ≡ takes_delay direction kind }
{
    matches!((direction, kind), (Direction::Input, PortKind::Values))
}

fn latency_in(
    direction: Direction,
    kind: PortKind,
    options: Options,
    text: &[u8],
) -> Option<Options>
    ensures { result ≡ latency_in direction kind options text.now }
{
    if !takes_latency(direction, kind) || options.latency.is_some() {
        return None;
    }
    let latency = time_in(text)?;
    Some(Options {
        latency: Some(latency),
        ..options
    })
}

fn delay_in(direction: Direction, kind: PortKind, options: Options, text: &[u8]) -> Option<Options>
    ensures { result ≡ delay_in direction kind options text.now }
{
    if !takes_delay(direction, kind) || options.delay.is_some() {
        return None;
    }
    let delay = time_in(text)?;
    Some(Options {
        delay: Some(delay),
        ..options
    })
}

fn buffered_in(options: Options, text: &[u8]) -> Option<Options>
    ensures { result ≡ buffered_in options text.now }
{
    if options.buffered.is_some() {
        return None;
    }
    let count = count_up_to(MOST_BUFFERED, text)?;
    if 1 <= count {
        Some(Options {
            buffered: Some(u64::from(count)),
            ..options
        })
    } else {
        None
    }
}

fn interpolate_in(
    direction: Direction,
    kind: PortKind,
    options: Options,
    interpolate: bool,
) -> Option<Options>
    ensures { result ≡ interpolate_in direction kind options interpolate }
{
    if !takes_delay(direction, kind) || options.interpolate.is_some() {
        return None;
    }
    Some(Options {
        interpolate: Some(interpolate),
        ..options
    })
}

/// `interpolate` or `hold`.
#[tactic(auto, unfolding(crate::specs::Options::flag_in))]
fn flag_in(direction: Direction, kind: PortKind, options: Options, word: &[u8]) -> Option<Options>
    ensures { result ≡ flag_in direction kind options word.now }
{
    interpolate_in(direction, kind, options, is_key(word, b"interpolate"))
}

#[tactic(auto, unfolding(crate::specs::Options::valued_in))]
fn valued_in(
    direction: Direction,
    kind: PortKind,
    options: Options,
    word: &[u8],
    value: &[u8],
) -> Option<Options>
    ensures { result ≡ valued_in direction kind options word.now value.now }
{
    if is_key(word, b"latency") {
        latency_in(direction, kind, options, value)
    } else if is_key(word, b"delay") {
        delay_in(direction, kind, options, value)
    } else if is_key(word, b"buffered") {
        buffered_in(options, value)
    } else {
        None
    }
}

fn is_flag(word: &[u8]) -> bool
    ensures { result ≡ is_flag word.now }
{
    is_key(word, b"interpolate") || is_key(word, b"hold")
}

/// The options with the next one, and what stands after it.
fn next_option<'a>(
    direction: Direction,
    kind: PortKind,
    options: Options,
    word: &'a [u8],
    others: &'a [u8],
) -> Option<(Options, &'a [u8])>
    ensures next { MatchOption result (options_in direction kind options (word.now ∷ words others.now) ≡ None) (λ p. options_in direction kind options (word.now ∷ words others.now) ≡ options_in direction kind p.0 (words p.1.now)) }
    ensures fewer { IfSome result (λ p. length p.1.now ≤ length others.now) }
{
    if is_flag(word) {
        let options = flag_in(direction, kind, options, word)?;
        return Some((options, others));
    }
    let (value, others) = split_word(others)?;
    let options = valued_in(direction, kind, options, word, value)?;
    Some((options, others))
}

/// The options that the words spell.
pub fn options_in(direction: Direction, kind: PortKind, text: &[u8]) -> Option<Options>
    ensures { result ≡ options_in direction kind no_options (words text.now) }
{
    let mut options = NO_OPTIONS;
    let mut rest = text;
    while let Some((word, others)) = split_word(rest) {
        match next_option(direction, kind, options, word, others) {
            Some((more, left)) => {
                options = more;
                rest = left;
            }
            None => return None,
        }
    }
    Some(options)
}
