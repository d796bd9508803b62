//! The parts of a time text, where they stand in it.
ghost use Rattle.std.specs.Prelude.{◌≡◌, ◌+◌, ◌-◌, ◌^◌, ◌<◌, ◌≤◌, true, drop, length, min};
ghost use Rattle.std.specs.List.{list_all, position, position_or_len};
ghost use Rattle.std.specs.Char.{is_ascii_digit};
ghost use Rattle.std.specs.Str.Parse.{digits_value_after, starts_with_minus};
ghost use Rattle.music_base.specs.Times.{is_time_text, is_exponent_mark, is_point, is_exponent, has_good_exponent, exponent, fraction, exponent_size, digits_of, raised, lowered};
ghost use Rattle.music_base.specs.TimeCuts.{IsCut};

use crate::counts::{are_digits, is_negative, is_short_count, without_sign};

/// How many bytes a time text has at most.
const LONGEST: usize = 30;

/// How many digits an exponent has at most.
const MOST_EXPONENT_DIGITS: usize = 3;

fn is_exponent_mark(byte: u8) -> bool
    ensures { result ≡ is_exponent_mark byte }
{
    byte == b'e' || byte == b'E'
}

fn first_mark(text: &[u8]) -> Option<usize>
    ensures { result ≡ position is_exponent_mark text.now }
{
    text.iter().position(|b| is_exponent_mark(*b))
}

fn first_point(text: &[u8]) -> Option<usize>
    ensures { result ≡ position is_point text.now }
{
    text.iter().position(|b| *b == b'.')
}

/// Where the mark of the exponent stands, or the length where there is none.
#[tactic(auto, using(crate::proofs::FirstPlaces::place_or_len))]
fn mark_place(text: &[u8]) -> usize
    ensures place { result ≡ position_or_len is_exponent_mark text.now }
    ensures within { result ≤ length text.now }
{
    first_mark(text).unwrap_or(text.len())
}

/// Where the point stands, or the length where there is none.
#[tactic(auto, using(crate::proofs::FirstPlaces::place_or_len))]
fn point_place(text: &[u8]) -> usize
    ensures place { result ≡ position_or_len is_point text.now }
    ensures within { result ≤ length text.now }
{
    first_point(text).unwrap_or(text.len())
}

/// What stands behind the byte at a place.
fn behind(bytes: &[u8], place: usize) -> &[u8]
    ensures { result.now ≡ drop (place + 1) bytes.now }
{
    if place < bytes.len() {
        &bytes[place + 1..]
    } else {
        &bytes[bytes.len()..]
    }
}

/// A text, cut where the parts of a time stand in it.
#[derive(Clone, Copy)]
pub struct TimeCut<'a> {
    pub text: &'a [u8],
    /// What stands before the point.
    pub whole: &'a [u8],
    /// What stands after the point, and before the mark of the exponent.
    pub fraction: &'a [u8],
    pub has_mark: bool,
    /// What stands behind the mark of the exponent.
    pub exponent: &'a [u8],
}

/// Cuts a text at the mark of its exponent, and what stands before that at its point.
#[tactic(auto, using(crate::proofs::FirstPlaces::is_found))]
pub fn cut(text: &[u8]) -> TimeCut<'_>
    ensures text { result.text.now ≡ text.now }
    ensures cut { IsCut result }
{
    let mark = mark_place(text);
    let mantissa = &text[..mark];
    let point = point_place(mantissa);
    TimeCut {
        text,
        whole: &mantissa[..point],
        fraction: behind(mantissa, point),
        has_mark: mark < text.len(),
        exponent: behind(text, mark),
    }
}

/// An optional sign, and one to three digits.
fn is_exponent(bytes: &[u8]) -> bool
    ensures { result ≡ is_exponent bytes.now }
{
    is_short_count(MOST_EXPONENT_DIGITS, without_sign(bytes))
}

/// Where there is a mark, an exponent stands behind it.
fn has_good_exponent(cut: TimeCut<'_>) -> bool
    requires { IsCut cut }
    ensures { result ≡ has_good_exponent cut.entry.text.now }
{
    !cut.has_mark || is_exponent(cut.exponent)
}

/// Whether the text has the form of a time.
pub fn is_time_text(cut: TimeCut<'_>) -> bool
    requires { IsCut cut }
    ensures { result ≡ is_time_text cut.entry.text.now }
{
    cut.text.len() <= LONGEST
        && are_digits(cut.whole)
        && are_digits(cut.fraction)
        && 0 < cut.whole.len() + cut.fraction.len()
        && has_good_exponent(cut)
}

/// The number that the digits write behind those of `number`, or the greatest `u128` where it is above that.
fn number_behind(number: u128, digits: &[u8]) -> u128
    requires { list_all is_ascii_digit digits.now ≡ true }
    ensures { result ≡ min (digits_value_after 10 number digits.now) (2 ^ 128 - 1) }
{
    let mut value = number;
    for digit in digits {
        let worth = u128::from(*digit - b'0');
        value = value.saturating_mul(10).saturating_add(worth);
    }
    value
}

/// How far the exponent moves the point, to either side.
fn exponent_size(cut: TimeCut<'_>) -> u32
    requires cut { IsCut cut }
    requires form { is_time_text cut.text.now ≡ true }
    ensures value { result ≡ exponent_size cut.entry.text.now }
    ensures small { result < 1000 }
{
    number_behind(0, without_sign(cut.exponent)) as u32
}

/// The number of all digits before the exponent.
pub fn digits_of(cut: TimeCut<'_>) -> u128
    requires cut { IsCut cut }
    requires form { is_time_text cut.text.now ≡ true }
    ensures value { result ≡ digits_of cut.entry.text.now }
    ensures few { result < 10 ^ 30 }
{
    number_behind(number_behind(0, cut.whole), cut.fraction)
}

/// Whether a `-` stands in front of the exponent.
fn is_lowering(cut: TimeCut<'_>) -> bool
    requires { IsCut cut }
    ensures { result ≡ starts_with_minus (exponent cut.entry.text.now) }
{
    is_negative(cut.exponent)
}

/// How many tens the digits are multiplied by.
pub fn raised(cut: TimeCut<'_>) -> u32
    requires cut { IsCut cut }
    requires form { is_time_text cut.text.now ≡ true }
    ensures { result ≡ raised cut.entry.text.now }
{
    if is_lowering(cut) {
        9
    } else {
        9 + exponent_size(cut)
    }
}

/// How many digits stand after the point.
fn places(cut: TimeCut<'_>) -> u32
    requires cut { IsCut cut }
    requires form { is_time_text cut.text.now ≡ true }
    ensures count { result ≡ length (fraction cut.entry.text.now) }
    ensures few { result ≤ 30 }
{
    cut.fraction.len() as u32
}

/// How many tens the digits are divided by.
pub fn lowered(cut: TimeCut<'_>) -> u32
    requires cut { IsCut cut }
    requires form { is_time_text cut.text.now ≡ true }
    ensures { result ≡ lowered cut.entry.text.now }
{
    if is_lowering(cut) {
        places(cut) + exponent_size(cut)
    } else {
        places(cut)
    }
}
