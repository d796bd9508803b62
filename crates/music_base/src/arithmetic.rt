//! Common divisors, and rounding down to a multiple.
ghost use Rattle.std.specs.Prelude.{◌≡◌, ◌+◌, ◌≤◌, ◌^◌, ℤ, pos, ◌+ℤ◌, ◌*ℤ◌, ◌≤ℤ◌, ◌<ℤ◌};
ghost use Rattle.std.specs.Int.{IsGcd};
ghost use Rattle.std.specs.Int.RustNames.{unsigned_abs};
ghost use Rattle.music_base.specs.Numbers.{gcd, floor_to};

use crate::Nanos;

/// The greatest common divisor of the two numbers.
fn common_divisor(a: u64, b: u64) -> u64
    ensures { IsGcd a b result }
{
    if b == 0 { a } else { common_divisor(b, a % b) }
}

/// The greatest span of which both are whole multiples.
/// Both are at least 1 ns.
pub fn gcd(a: Nanos, b: Nanos) -> Nanos
    requires a { 1 ≤ a }
    requires b { 1 ≤ b }
    ensures value { result ≡ gcd a b }
    ensures greatest { IsGcd a b result }
    ensures some { 1 ≤ result }
{
    Nanos(common_divisor(a.0, b.0))
}

/// The greatest multiple of `g` that is at most `x`: below zero too it rounds down, and never toward zero.
/// `g` is at least 1, and `x` lies within 10^20 of zero.
pub fn floor_to(g: Nanos, x: i128) -> i128
    requires g { 1 ≤ g }
    requires x { unsigned_abs x ≤ 10 ^ 20 }
    ensures value { result ≡ floor_to g x }
    ensures multiple { (quotient : ℤ) × (result ≡ quotient *ℤ pos g) }
    ensures at_most { result ≤ℤ x }
    ensures near { x <ℤ (result +ℤ pos g) }
{
    let g = g.0 as i128;
    x.div_euclid(g) * g
}
