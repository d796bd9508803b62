//! Laws over acts, orders and limits: which counts any lawful order reaches, and when some act is always left.
ghost use Rattle.std.specs.Prelude.{◌≡◌, ◌<◌, ◌⊎◌, ℕ, ℤ, List, ◌++◌, length, All};
ghost use Rattle.scene_model.specs.declared.act.Act.{Act};
ghost use Rattle.scene_model.specs.declared.scene.Scene.{Scene};
ghost use Rattle.scene_model.specs.declared.wait.Wait.{Wait};
ghost use Rattle.scene_model.specs.Cover.{AllCovered, Passes};
ghost use Rattle.scene_model.specs.Orders.{
  AllFinished,
  Counts,
  IsAllowed,
  IsFinished,
  IsLawful,
  IsLive,
  IsSound,
  SomeAllowed,
  actor,
  after,
  after_all,
  opening_counts,
};
ghost use Rattle.scene_model.specs.Waits.{AreLimits, Fits, IsAccepted};
ghost use Rattle.scene_model.specs.WellFormed.{IsWellFormed};

/// The opening counts are sound, each allowed act keeps counts sound, and so every lawful order leads to sound counts.
pub fn acts_keep_counts_sound()
    ensures opening { (scene : Scene) (limits : List ℕ) → IsSound scene limits (opening_counts scene) }
    ensures acts { (scene : Scene) (limits : List ℕ) (s : Counts) (act : Act) →
        IsSound scene limits s → IsAllowed scene limits s act → IsSound scene limits (after s act) }
    ensures orders { (scene : Scene) (limits : List ℕ) (acts : List Act) →
        IsLawful scene limits acts → IsSound scene limits (after_all (opening_counts scene) acts) }
{}

/// An act that is allowed is one of an application that is not finished.
pub fn acts_are_of_unfinished()
    ensures { (scene : Scene) (limits : List ℕ) (s : Counts) (act : Act) →
        IsAllowed scene limits s act → IsFinished scene s (actor scene act) → ⊥ }
{}

/// From sound counts, under a plan that fits, some act is allowed or every application is finished.
pub fn plans_that_fit_leave_an_act()
    ensures { (scene : Scene) (limits : List ℕ) (potentials : List ℤ) (s : Counts) →
        IsWellFormed scene → Fits scene limits potentials → IsSound scene limits s →
        SomeAllowed scene limits s ⊎ AllFinished scene s }
{}

/// A scene is live under the limits of a plan that fits: whatever lawful order was followed, it never gets stuck.
pub fn plans_that_fit_are_live()
    ensures { (scene : Scene) (limits : List ℕ) (potentials : List ℤ) →
        IsWellFormed scene → Fits scene limits potentials → IsLive scene limits }
{}

/// Where a scene is live, each lawful order can be continued until every application is finished.
pub fn live_scenes_can_finish()
    ensures { (scene : Scene) (limits : List ℕ) (acts : List Act) →
        IsLive scene limits → IsLawful scene limits acts →
        (more : List Act) × IsLawful scene limits (acts ++ more)
        × AllFinished scene (after_all (opening_counts scene) (acts ++ more)) }
{}

/// Where every cycle of waits between n applications is covered, there are potentials with which each wait passes.
pub fn covered_waits_have_potentials()
    ensures { (n : ℕ) (all : List Wait) →
        All (λ (w : Wait). (w.waiter < n) × (w.awaited < n)) all → AllCovered all →
        (potentials : List ℤ) × (length potentials ≡ n) × All (Passes n potentials) all }
{}

/// An accepted scene has limits.
pub fn accepted_scenes_have_limits()
    ensures { (scene : Scene) → IsWellFormed scene → IsAccepted scene → (limits : List ℕ) × AreLimits scene limits }
{}

/// No scene has two lists of limits.
pub fn limits_are_one()
    ensures { (scene : Scene) (limits others : List ℕ) →
        AreLimits scene limits → AreLimits scene others → limits ≡ others }
{}

/// An accepted scene is live under its limits: whatever lawful order was followed, it never gets stuck.
pub fn accepted_scenes_are_live()
    ensures { (scene : Scene) (limits : List ℕ) →
        IsWellFormed scene → IsAccepted scene → AreLimits scene limits → IsLive scene limits }
{}
