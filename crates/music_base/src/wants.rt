//! How many blocks of a sender a step of the receiver wants.
ghost use Rattle.std.specs.Prelude.{◌≡◌, ◌≤◌, ◌<◌, ◌^◌, ◌+◌, ◌*◌, ◌↔◌, ℕ, pos, ◌-ℤ◌, nat_lt, IsTrue};
ghost use Rattle.std.specs.Int.RustNames.{unsigned_abs};
ghost use Rattle.music_base.specs.Wants.{is_wanted, wanted};

use crate::Nanos;

/// The end of the step without the allowance.
fn end_without(step: u64, tick: u64, allowance: i128) -> i128
    requires step { step ≤ 1000000 }
    requires tick { tick ≤ 10 ^ 12 }
    requires allowance { unsigned_abs allowance ≤ 10 ^ 16 }
    ensures { result ≡ pos ((step + 1) * tick) -ℤ allowance }
{
    i128::from((step + 1) * tick) - allowance
}

/// How many of the first `sent` multiples of the tick stand before the end.
fn multiples_before(end: u128, tick: u64, sent: u64) -> u64
    requires { 1 ≤ tick }
    ensures within { result ≤ sent }
    ensures first { (k : ℕ) → k < sent → (nat_lt (k * tick) end ≡ nat_lt k result) }
{
    let before = end.div_ceil(tick as u128);
    if before < sent as u128 {
        before as u64
    } else {
        sent
    }
}

/// How many of the sender's blocks below `sent` a step of the receiver wants: those whose begin, `k * send_tick`, lies
/// with the allowance added before the step's end, `(step + 1) * receive_tick`. They are the blocks below the answer.
///
/// Both ticks are 1 to 10^12 ns, the allowance lies within 10^16 ns of zero, and `sent` and `step` are at most 1,000,000.
pub fn wanted(send_tick: Nanos, allowance: i128, receive_tick: Nanos, sent: u64, step: u64) -> u64
    requires send_tick { (1 ≤ send_tick) × (send_tick ≤ 10 ^ 12) }
    requires allowance { unsigned_abs allowance ≤ 10 ^ 16 }
    requires receive_tick { (1 ≤ receive_tick) × (receive_tick ≤ 10 ^ 12) }
    requires sent { sent ≤ 1000000 }
    requires step { step ≤ 1000000 }
    ensures count { result ≡ wanted send_tick allowance receive_tick sent step }
    ensures within { result ≤ sent }
    ensures first { (k : ℕ) → k < sent → ((k < result) ↔ IsTrue (is_wanted send_tick allowance receive_tick step k)) }
{
    let end = end_without(step, receive_tick.0, allowance);
    multiples_before(end.max(0) as u128, send_tick.0, sent)
}
