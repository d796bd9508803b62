//! Laws over which scenes are accepted, and which cycle of waits the others have.
ghost use Rattle.std.specs.Prelude.{◌⊎◌, ℕ, List};
ghost use Rattle.scene_model.specs.declared.scene.Scene.{Scene};
ghost use Rattle.scene_model.specs.declared.wait.Wait.{Wait};
ghost use Rattle.scene_model.specs.Cover.{IsReportable};
ghost use Rattle.scene_model.specs.Faults.{IsFaultless};
ghost use Rattle.scene_model.specs.Orders.{IsLive};
ghost use Rattle.scene_model.specs.Waits.{AreLimits, IsAccepted, stated_waits};

/// A scene without a fault is accepted, or some cycle of its waits under stated limits can be reported: one that is not
/// covered, in which no application waits twice, and whose first waiter has the least place.
pub fn scenes_are_accepted_or_refused()
    ensures { (scene : Scene) → IsFaultless scene →
        IsAccepted scene ⊎ ((cycle : List Wait) × IsReportable (stated_waits scene) cycle) }
{}

/// A scene without a fault that is accepted has limits under which it is live: whatever lawful order was followed, it
/// never gets stuck.
pub fn faultless_accepted_scenes_are_live()
    ensures { (scene : Scene) → IsFaultless scene → IsAccepted scene →
        (limits : List ℕ) × AreLimits scene limits × IsLive scene limits }
{}

/// No cycle can be reported of an accepted scene.
pub fn accepted_scenes_are_not_refused()
    ensures { (scene : Scene) (cycle : List Wait) →
        IsAccepted scene → IsReportable (stated_waits scene) cycle → ⊥ }
{}
