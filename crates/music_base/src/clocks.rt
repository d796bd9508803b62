//! Steps of an application's clock.
ghost use Rattle.std.specs.Prelude.{◌≡◌, ◌≤◌, ◌<◌, ◌+◌, ◌*◌, ◌^◌, ◌↔◌, ℕ, IfSome, IsNone};
ghost use Rattle.music_base.specs.Clocks.{steps_until, due_step, due_step_from};

use crate::Nanos;

/// How many steps an application of this tick makes within a span of time, from its start until its stop: a step is made
/// where less than the span lies before it. Both are in ns, and the tick is at least 1 ns.
#[tactic(auto, unfolding(crate::specs::Clocks::steps_until))]
pub fn steps_of(span: Nanos, tick: Nanos) -> u64
    requires { 1 ≤ tick }
    ensures steps { result ≡ steps_until span tick }
    ensures made { (step : ℕ) → (step < result) ↔ (step * tick < span) }
{
    span.0.div_ceil(tick.0)
}

/// The step in which something of this time is due at an input of this latency whose application starts at 0: the last
/// whose clock is not after their sum.
///
/// Time and latency are at most 10^16 ns, and the tick is at least 1 ns.
pub fn due(time: Nanos, latency: Nanos, tick: Nanos) -> u64
    requires time { time ≤ 10 ^ 16 }
    requires latency { latency ≤ 10 ^ 16 }
    requires tick { 1 ≤ tick }
    ensures step { result ≡ due_step time latency tick }
    ensures last { (step : ℕ) → (step ≤ result) ↔ (step * tick ≤ time + latency) }
{
    (time.0 + latency.0) / tick.0
}

/// The step in which something of this time is due at an input of this latency whose application starts at `start`: the
/// last whose clock is not after the sum of time and latency. It is due in no step, and `None` is the answer, exactly
/// where that sum lies before the start.
///
/// Time and latency are at most 10^16 ns, the start is at most 10^15 ns, and the tick is at least 1 ns.
#[tactic(auto, unfolding(crate::specs::Clocks::due_step_from))]
pub fn due_from(time: Nanos, latency: Nanos, start: Nanos, tick: Nanos) -> Option<u64>
    requires time { time ≤ 10 ^ 16 }
    requires latency { latency ≤ 10 ^ 16 }
    requires start { start ≤ 10 ^ 15 }
    requires tick { 1 ≤ tick }
    ensures step { result ≡ due_step_from time latency start tick }
    ensures none { IsNone result ↔ (time + latency < start) }
    ensures last { IfSome result (λ last. (step : ℕ) → (step ≤ last) ↔ (start + step * tick ≤ time + latency)) }
{
    let since_start = (time.0 + latency.0).checked_sub(start.0)?;
    Some(since_start / tick.0)
}
