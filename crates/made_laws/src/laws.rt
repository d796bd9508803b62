//! What is said of every made configuration.
ghost use Rattle.std.specs.Prelude.{ℕ};
ghost use Rattle.made_laws.specs.Accepted.{MakesAccepted};

/// Each made configuration describes a scene without a fault of which every cycle of waits is covered. It is said of all
/// numbers, and not only of those that `make` takes.
pub fn made_scenes_are_accepted()
    ensures { (n : ℕ) → MakesAccepted n }
{}
