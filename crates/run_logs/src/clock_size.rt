//! How many digits a clock has, kept from row to row.
ghost use Rattle.std.specs.Prelude.{◌≡◌, ◌≤◌, length};
ghost use Rattle.std.specs.Fmt.{decimal};

use crate::sizes::size_of;

/// A clock, in ns, with the number of its decimal digits, so that the rows of a step count them once.
#[derive(Drop)]
pub struct ClockSize {
    clock: u64,
    digits: usize,
    ghost counted: { digits ≡ length (decimal clock) },
    ghost short: { digits ≤ 20 },
}

impl ClockSize {
    /// This clock.
    pub fn of(clock: u64) -> ClockSize
        ensures { result.clock ≡ clock }
    {
        let digits = size_of(clock);
        ClockSize { clock, digits }
    }

    /// Goes to this clock, and answers how many digits it has.
    #[inline]
    pub fn at(&mut self, clock: u64) -> usize
        ensures size { result ≡ length (decimal clock) }
        ensures short { result ≤ 20 }
    {
        if self.clock != clock {
            *self = ClockSize::of(clock);
        }
        self.digits
    }
}
