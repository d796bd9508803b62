//! The digits of a clock, kept from row to row.
ghost use Rattle.std.specs.Prelude.{◌≡◌, ◌≤◌, length};
ghost use Rattle.std.specs.Fmt.{decimal};

use itoa::write_digits;
use std::marker::Model;

// A clock has no more digits.
const MOST_DIGITS: usize = 20;

/// A clock, in ns, with its decimal digits, so that the rows of a step make them once. Contracts see the clock.
#[derive(Drop)]
pub struct ClockText {
    clock: u64,
    bytes: [u8; MOST_DIGITS],
    start: usize,
}

impl Model for ClockText {
    ghost use Rattle.std.specs.Prelude.{◌≡◌, ◌≤◌, ℕ, drop, length};
    ghost use Rattle.std.specs.Fmt.{decimal};

    ghost Value = { ℕ };

    ghost view = { λ at. at.clock };

    ghost invariant = { λ at. (at.start ≤ 20) × (length at.bytes ≡ 20) × (drop at.start at.bytes ≡ decimal at.clock) };
}

impl ClockText {
    /// This clock.
    pub fn of(clock: u64) -> ClockText
        ensures { result ≡ clock }
    {
        let mut bytes = [0; MOST_DIGITS];
        let start = write_digits(clock, &mut bytes, MOST_DIGITS);
        ClockText {
            clock,
            bytes,
            start,
        }
    }

    /// Goes to this clock.
    #[inline]
    pub fn set(&mut self, clock: u64)
        ensures { self.new ≡ clock }
    {
        if self.clock != clock {
            *self = ClockText::of(clock);
        }
    }

    /// Its digits.
    #[inline]
    pub fn text(&self) -> &[u8]
        ensures text { result.now ≡ decimal self.now }
        ensures short { length result.now ≤ 20 }
    {
        &self.bytes[self.start..]
    }
}
