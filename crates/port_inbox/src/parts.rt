//! The point between two samples.
ghost use Rattle.std.specs.Prelude.{◌≡◌, ◌^◌, ◌<◌, ◌≤◌, ◌⊎◌, pos, negsuc, ◌+ℤ◌, ◌-ℤ◌, ◌*ℤ◌, ◌≤ℤ◌, IfSome};
ghost use Rattle.music_base.specs.Numbers.{floor_div};

/// How far it is from one sample to the next.
fn difference(first: i64, next: i64) -> i128
    ensures value { result ≡ next -ℤ first }
    ensures low { negsuc (2 ^ 65) ≤ℤ result }
    ensures high { result ≤ℤ pos (2 ^ 65) }
{
    next as i128 - first as i128
}

fn weighted(far: i128, weight: u64) -> i128
    requires low { negsuc (2 ^ 65) ≤ℤ far }
    requires high { far ≤ℤ pos (2 ^ 65) }
    requires weight { weight < 10 ^ 12 }
    ensures { result ≡ far *ℤ pos weight }
{
    far * weight as i128
}

/// Rounded down, also below 0.
fn floored(whole: i128, tick: u64) -> i128
    requires { 1 ≤ tick }
    ensures { result ≡ floor_div whole tick }
{
    whole.div_euclid(tick as i128)
}

/// What part of the way from one sample to the next is gone.
fn part(first: i64, next: i64, weight: u64, tick: u64) -> i128
    requires weight { weight < tick }
    requires tick { tick ≤ 10 ^ 12 }
    ensures value { result ≡ floor_div ((next -ℤ first) *ℤ pos weight) tick }
    ensures within { ((first ≤ℤ (first +ℤ result)) × ((first +ℤ result) ≤ℤ next)) ⊎ ((next ≤ℤ (first +ℤ result)) × ((first +ℤ result) ≤ℤ first)) }
{
    floored(weighted(difference(first, next), weight), tick)
}

fn sum(first: i64, more: i128, next: i64) -> i64
    requires { ((first ≤ℤ (first +ℤ more)) × ((first +ℤ more) ≤ℤ next)) ⊎ ((next ≤ℤ (first +ℤ more)) × ((first +ℤ more) ≤ℤ first)) }
    ensures { result ≡ first +ℤ more }
{
    (first as i128 + more) as i64
}

/// The point between two samples, in 128 bits, which hold whatever comes on the way.
#[cold]
fn between_wide(first: i64, next: i64, weight: u64, tick: u64) -> i64
    requires weight { weight < tick }
    requires tick { tick ≤ 10 ^ 12 }
    ensures { result ≡ first +ℤ floor_div ((next -ℤ first) *ℤ pos weight) tick }
{
    let more = part(first, next, weight, tick);
    sum(first, more, next)
}

/// The difference of two samples times the weight, where 64 bits hold both.
fn weighted_narrow(first: i64, next: i64, weight: u64) -> Option<i64>
    requires { weight < 10 ^ 12 }
    ensures { IfSome result (λ whole. whole ≡ (next -ℤ first) *ℤ pos weight) }
{
    next.checked_sub(first)?.checked_mul(weight as i64)
}

/// Rounded down, also below 0.
fn floored_narrow(whole: i64, tick: u64) -> i64
    requires some { 1 ≤ tick }
    requires tick { tick ≤ 10 ^ 12 }
    ensures { result ≡ floor_div whole tick }
{
    whole.div_euclid(tick as i64)
}

fn sum_narrow(first: i64, more: i64, next: i64) -> i64
    requires { ((first ≤ℤ (first +ℤ more)) × ((first +ℤ more) ≤ℤ next)) ⊎ ((next ≤ℤ (first +ℤ more)) × ((first +ℤ more) ≤ℤ first)) }
    ensures { result ≡ first +ℤ more }
{
    first + more
}

/// The same from the weighted difference, in 64 bits.
fn between_narrow(first: i64, next: i64, whole: i64, weight: u64, tick: u64) -> i64
    requires weight { weight < tick }
    requires tick { tick ≤ 10 ^ 12 }
    requires whole { whole ≡ (next -ℤ first) *ℤ pos weight }
    ensures { result ≡ first +ℤ floor_div ((next -ℤ first) *ℤ pos weight) tick }
{
    sum_narrow(first, floored_narrow(whole, tick), next)
}

/// The point between two samples that are a tick apart, where so much of the tick is gone, rounded down. Where 64 bits hold
/// what comes on the way, they are enough.
pub fn between(first: i64, next: i64, weight: u64, tick: u64) -> i64
    requires weight { weight < tick }
    requires tick { tick ≤ 10 ^ 12 }
    ensures { result ≡ first +ℤ floor_div ((next -ℤ first) *ℤ pos weight) tick }
{
    match weighted_narrow(first, next, weight) {
        Some(whole) => between_narrow(first, next, whole, weight, tick),
        None => between_wide(first, next, weight, tick),
    }
}
