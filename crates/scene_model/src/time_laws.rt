ghost use Rattle.std.specs.Prelude.{ℕ, ◌↔◌, ◌≤◌, Contains};
ghost use Rattle.scene_model.specs.PeriodTimes.{IsTimeBetween};
ghost use Rattle.scene_model.specs.Turns.{times_between};

/// At which times a rule emits or says once in each period: at all that lie some periods after the first and in the
/// step, and at no other.
pub fn times_are_periods_apart()
    ensures { (every first from to time : ℕ) → 1 ≤ every → Contains (times_between every first from to) time ↔ IsTimeBetween every first from to time }
{}
