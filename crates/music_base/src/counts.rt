//! Decimal digits and signs, and the numbers that digits write.
ghost use Rattle.std.specs.Prelude.{◌≡◌, ◌≤◌, ◌-◌, ◌^◌, true, min, IfSome};
ghost use Rattle.std.specs.List.{list_all};
ghost use Rattle.std.specs.Char.{is_ascii_digit};
ghost use Rattle.std.specs.Str.Parse.{digits_value, starts_with_minus, without_leading_sign};
ghost use Rattle.music_base.specs.Counts.{is_count, is_short_count, count_up_to};

/// Whether all bytes are decimal digits.
pub fn are_digits(bytes: &[u8]) -> bool
    ensures { result ≡ list_all is_ascii_digit bytes.now }
{
    bytes.iter().all(|b| b.is_ascii_digit())
}

/// Whether the text is a COUNT: one decimal digit or more. Leading zeros are accepted.
pub fn is_count(text: &[u8]) -> bool
    ensures { result ≡ is_count text.now }
{
    1 <= text.len() && are_digits(text)
}

/// Whether the text is a COUNT of at most so many digits.
pub fn is_short_count(most: usize, text: &[u8]) -> bool
    ensures { result ≡ is_short_count most text.now }
{
    is_count(text) && text.len() <= most
}

/// The number that the digits write, or the greatest `u64` where it is above that.
pub fn number_of(digits: &[u8]) -> u64
    requires { list_all is_ascii_digit digits.now ≡ true }
    ensures { result ≡ min (digits_value 10 digits.now) (2 ^ 64 - 1) }
{
    let mut value = 0u64;
    for digit in digits {
        let worth = u64::from(*digit - b'0');
        value = value.saturating_mul(10).saturating_add(worth);
    }
    value
}

/// The number of a COUNT that is at most `most`. `None` for any other text.
#[tactic(auto, unfolding(crate::specs::Counts::count_up_to))]
pub fn count_up_to(most: u32, text: &[u8]) -> Option<u32>
    ensures count { result ≡ count_up_to most text.now }
    ensures most { IfSome result (λ count. count ≤ most) }
{
    if !is_count(text) {
        return None;
    }
    let number = number_of(text);
    if number <= u64::from(most) {
        Some(number as u32)
    } else {
        None
    }
}

/// The text behind a sign, or all of it where none stands in front.
pub fn without_sign(text: &[u8]) -> &[u8]
    ensures { result.now ≡ without_leading_sign text.now }
{
    match text {
        [b'+' | b'-', digits @ ..] => digits,
        _ => text,
    }
}

/// Whether a `-` stands in front.
pub fn is_negative(text: &[u8]) -> bool
    ensures { result ≡ starts_with_minus text.now }
{
    matches!(text, [b'-', ..])
}
