ghost use Rattle.std.specs.Prelude.{◌≡◌, ◌≤◌, ◌^◌, ℕ, nat_le};
ghost use Rattle.music_base.specs.Clocks.{due_step_from};
ghost use Rattle.scene_model.specs.Due.{is_step_from};
ghost use Rattle.port_inbox.specs.Due.{falls_in};
ghost use Rattle.port_inbox.specs.Gathering.{is_in};

/// The times, in ns, of what is due in one step over a connection: from `from` on, and before `to`.
#[derive(Clone, Copy, Debug)]
pub struct Window {
    pub from: u64,
    pub to: u64,
}

/// The window of a step of a receiver with this start and tick, over a connection of this latency: from the step's clock up
/// to the next one, less the latency. All are in ns.
///
/// The latency is at most 10^16 ns, and the tick is at least 1 ns. What comes later than 10^16 ns is not asked for.
pub fn window_of(latency: u64, start: u64, tick: u64, step: u64) -> Window
    requires latency { latency ≤ 10 ^ 16 }
    requires tick { 1 ≤ tick }
    ensures from { (time : ℕ) → time ≤ 10 ^ 16 → nat_le result.from time ≡ is_step_from step (due_step_from time latency start tick) }
    ensures within { (time : ℕ) → time ≤ 10 ^ 16 → is_in result time ≡ falls_in start tick step latency time }
{
    let clock = step.saturating_mul(tick).saturating_add(start);
    let next = clock.saturating_add(tick);
    Window {
        from: clock.saturating_sub(latency),
        to: next.saturating_sub(latency),
    }
}

impl Window {
    pub fn holds(&self, time: u64) -> bool
        ensures { result ≡ is_in self.now time }
    {
        self.from <= time && time < self.to
    }
}
