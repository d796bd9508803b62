//! Numbers times powers of ten.
ghost use Rattle.std.specs.Prelude.{◌≡◌, ◌*◌, ◌^◌, ◌<◌};
ghost use Rattle.music_base.specs.Times.{in_range, scaled};

use crate::{GREATEST_TIME, Nanos, TimeFault};

/// So many nanoseconds, where no time is greater.
fn in_range(nanos: u128) -> Result<Nanos, TimeFault>
    ensures { result ≡ in_range nanos }
{
    if nanos <= GREATEST_TIME {
        Ok(Nanos(nanos as u64))
    } else {
        Err(TimeFault::Range)
    }
}

/// `digits * 10 ^ by` nanoseconds. More than 15 tens are too many for any digits but zeros.
fn multiplied(digits: u128, by: u32) -> Result<Nanos, TimeFault>
    requires { 0 < digits }
    ensures { result ≡ in_range (digits * 10 ^ by) }
{
    if by > 15 || digits > GREATEST_TIME {
        return Err(TimeFault::Range);
    }
    in_range(digits * u128::from(10u64.pow(by)))
}

/// `digits / 10 ^ by` nanoseconds. Digits below 10^30 are no multiple of 30 tens or more.
fn divided(digits: u128, by: u32) -> Result<Nanos, TimeFault>
    requires some { 0 < digits }
    requires few { digits < 10 ^ 30 }
    ensures { result ≡ scaled digits 0 by }
{
    if by >= 30 {
        return Err(TimeFault::NotWhole);
    }
    let power = 10u128.pow(by);
    if digits % power != 0 {
        return Err(TimeFault::NotWhole);
    }
    in_range(digits / power)
}

/// `digits * 10 ^ up / 10 ^ down` nanoseconds, where that is a whole number and no time is greater.
pub fn scaled(digits: u128, up: u32, down: u32) -> Result<Nanos, TimeFault>
    requires { digits < 10 ^ 30 }
    ensures { result ≡ scaled digits up down }
{
    if digits == 0 {
        return Ok(Nanos(0));
    }
    if down <= up {
        multiplied(digits, up - down)
    } else {
        divided(digits, down - up)
    }
}
