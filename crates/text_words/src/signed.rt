//! SIGNED.
ghost use Rattle.std.specs.Prelude.{◌≡◌, ◌<◌, ◌^◌, ◌≤ℤ◌, pos, neg_ℤ, IfSome};
ghost use Rattle.text_words.specs.Numbers.{with_sign, signed_within};

use music_base::{count_up_to, is_negative, without_sign};

/// The number with its sign.
pub fn with_sign(negative: bool, number: u64) -> i64
    requires { number < 2 ^ 60 }
    ensures { result ≡ with_sign negative number }
{
    if negative {
        -(number as i64)
    } else {
        number as i64
    }
}

/// A SIGNED: an optional `+` or `-` and a COUNT of at most `most`. `None` for any other text.
#[tactic(auto, unfolding(crate::specs::Numbers::signed_within))]
pub fn signed_within(most: u32, text: &[u8]) -> Option<i64>
    ensures number { result ≡ signed_within most text.now }
    ensures least { IfSome result (λ number. neg_ℤ (pos most) ≤ℤ number) }
    ensures most { IfSome result (λ number. number ≤ℤ pos most) }
{
    let number = count_up_to(most, without_sign(text))?;
    Some(with_sign(is_negative(text), u64::from(number)))
}
