ghost use Rattle.std.specs.Prelude.{◌≡◌, ℕ, ℤ, List, All};
ghost use Rattle.scene_model.specs.Cover.{Passes, AllCovered};
ghost use Rattle.scene_model.specs.declared.wait.Wait.{Wait};

/// Where each wait passes the test of some potentials, every cycle of these waits is covered.
pub fn passed_waits_are_covered()
    ensures { (n : ℕ) (potentials : List ℤ) (all : List Wait) → All (Passes n potentials) all → AllCovered all }
{}
