//! Times as text: a decimal number of seconds.
ghost use Rattle.std.specs.Prelude.{◌≡◌};
ghost use Rattle.music_base.specs.Times.{time_value};

use crate::Nanos;
use crate::time_parts::{cut, digits_of, is_time_text, lowered, raised};
use crate::time_scale::scaled;

/// Why a text is no time. The reasons are tested in this order.
#[derive(Clone, Copy, Debug, PartialEq, Eq)]
pub enum TimeFault {
    /// The text has not the form of a time.
    Spelling,
    /// The value is no whole number of nanoseconds.
    NotWhole,
    /// The value is above 10^15 nanoseconds.
    Range,
}

/// The time that the text spells, in seconds: digits, optionally a point and digits, and optionally `e` or `E`, a sign
/// and one to three digits. It has at most 30 bytes and at least one digit before the exponent. The value is taken
/// exactly, however great or small.
pub fn read_time(text: &[u8]) -> Result<Nanos, TimeFault>
    ensures value { result ≡ time_value text.now }
{
    let cut = cut(text);
    if !is_time_text(cut) {
        return Err(TimeFault::Spelling);
    }
    scaled(digits_of(cut), raised(cut), lowered(cut))
}
