//! FIXED.
ghost use Rattle.std.specs.Prelude.{◌≡◌, ◌<◌, ◌≤◌, ◌^◌, ◌*◌, ◌+◌, ◌-◌, true, length, IfSome, Some, option_map, ◌≤ℤ◌, pos, neg_ℤ};
ghost use Rattle.std.specs.List.{list_all, list_any};
ghost use Rattle.std.specs.Char.{is_ascii_digit};
ghost use Rattle.std.specs.Str.Parse.{digits_value};
ghost use Rattle.music_base.specs.Times.{is_point};
ghost use Rattle.text_words.specs.Numbers.{is_decimal, has_good_fraction, whole, fraction, worth, millionths, without_minus, fixed, most_whole_digits, most_fraction_digits};

use crate::cut::around;
use crate::signed::with_sign;
use music_base::{is_negative, is_short_count, number_of};

/// How many digits stand at most before the point.
const MOST_WHOLE_DIGITS: usize = 12;

/// How many digits stand at most after the point.
const MOST_FRACTION_DIGITS: usize = 6;

const MILLION: u64 = 1_000_000;

fn has_point(text: &[u8]) -> bool
    ensures { result ≡ list_any is_point text.now }
{
    text.iter().any(|b| *b == b'.')
}

/// What stands before the point.
fn whole(text: &[u8]) -> &[u8]
    ensures { result.now ≡ whole text.now }
{
    around(b'.', text).0
}

/// What stands after the point.
fn fraction(text: &[u8]) -> &[u8]
    ensures { result.now ≡ fraction text.now }
{
    around(b'.', text).1
}

/// Where there is a point, digits stand after it.
fn has_good_fraction(text: &[u8]) -> bool
    ensures { result ≡ has_good_fraction text.now }
{
    !has_point(text) || is_short_count(MOST_FRACTION_DIGITS, fraction(text))
}

fn is_decimal(text: &[u8]) -> bool
    ensures { result ≡ is_decimal text.now }
{
    is_short_count(MOST_WHOLE_DIGITS, whole(text)) && has_good_fraction(text)
}

/// The number that at most twelve digits write.
fn short_number(digits: &[u8]) -> u64
    requires digits { list_all is_ascii_digit digits.now ≡ true }
    requires few { length digits.now ≤ most_whole_digits }
    ensures value { result ≡ digits_value 10 digits.now }
    ensures small { result < 10 ^ most_whole_digits }
{
    number_of(digits)
}

/// What digits after a point are worth, in millionths.
#[tactic(auto, using(crate::proofs::Digits::worth_below))]
fn worth(digits: &[u8]) -> u64
    requires digits { list_all is_ascii_digit digits.now ≡ true }
    requires few { length digits.now ≤ most_fraction_digits }
    ensures value { result ≡ worth digits.now }
    ensures small { result < 10 ^ most_fraction_digits }
{
    short_number(digits) * 10u64.pow((MOST_FRACTION_DIGITS - digits.len()) as u32)
}

/// A decimal number without a sign, in millionths.
#[tactic(auto, unfolding(crate::specs::Numbers::millionths), using(crate::proofs::Digits::whole_is_few, crate::proofs::Digits::fraction_is_few))]
fn millionths(text: &[u8]) -> Option<u64>
    ensures value { result ≡ millionths text.now }
    ensures small { IfSome result (λ number. number < 10 ^ 18) }
{
    if !is_decimal(text) {
        return None;
    }
    Some(short_number(whole(text)) * MILLION + worth(fraction(text)))
}

fn without_minus(text: &[u8]) -> &[u8]
    ensures { result.now ≡ without_minus text.now }
{
    match text {
        [b'-', digits @ ..] => digits,
        _ => text,
    }
}

/// A FIXED, in millionths: an optional `-`, one to twelve digits, and optionally a point and one to six digits. `None`
/// for any other text.
#[tactic(auto, unfolding(crate::specs::Numbers::fixed))]
pub fn fixed(text: &[u8]) -> Option<i64>
    ensures number { result ≡ fixed text.now }
    ensures least { IfSome result (λ number. neg_ℤ (pos (10 ^ 18)) ≤ℤ number) }
    ensures most { IfSome result (λ number. number ≤ℤ pos (10 ^ 18)) }
{
    let number = millionths(without_minus(text))?;
    Some(with_sign(is_negative(text), number))
}
