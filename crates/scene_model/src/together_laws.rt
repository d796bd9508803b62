//! Laws over scenes whose applications run together, and over connections that state nothing of their own.
ghost use Rattle.std.specs.Prelude.{◌≡◌, ◌<◌, ◌*◌, ℕ, length, Some};
ghost use Rattle.scene_model.specs.Clocks.{allowance, clock, delay, due, latency, run_time, steps, tick, wanted, wanted_blocks};
ghost use Rattle.scene_model.specs.Lives.{moment};
ghost use Rattle.scene_model.specs.Tables.{Table, arrivals, value};
ghost use Rattle.scene_model.specs.Together.{RunTogether};
ghost use Rattle.scene_model.specs.Together as together;
ghost use Rattle.scene_model.specs.Turns.{clock_of};
ghost use Rattle.scene_model.specs.Unstated.{StateNothing};
ghost use Rattle.scene_model.specs.Unstated as unstated;
ghost use Rattle.scene_model.specs.Waits.{block_wait, room_wait, stated};
ghost use Rattle.scene_model.specs.WellFormed.{IsWellFormed};
ghost use Rattle.scene_model.specs.declared.scene.Scene.{Scene};

/// Where all applications start at 0 and stop at the stop of the scene, each definition comes to the one without starts: a clock
/// is the time that the steps take, and no start stands in what is due, wanted, read or waited for.
pub fn scenes_that_run_together()
    ensures steps { (scene : Scene) (a : ℕ) → IsWellFormed scene → RunTogether scene → a < length scene.apps → steps scene a ≡ together.steps scene a }
    ensures clocks { (scene : Scene) (a s : ℕ) → IsWellFormed scene → RunTogether scene → a < length scene.apps → clock scene a s ≡ run_time scene a s }
    ensures moments { (scene : Scene) (table : Table) (a k : ℕ) → IsWellFormed scene → RunTogether scene → a < length scene.apps → clock_of (moment scene table a k) ≡ k * tick scene a }
    ensures due { (scene : Scene) (c time : ℕ) → IsWellFormed scene → RunTogether scene → c < length scene.links → due scene c time ≡ Some (together.due scene c time) }
    ensures allowances { (scene : Scene) (c : ℕ) → IsWellFormed scene → RunTogether scene → c < length scene.links → allowance scene c ≡ together.allowance scene c }
    ensures wanted { (scene : Scene) (c j : ℕ) → IsWellFormed scene → RunTogether scene → c < length scene.links → wanted scene c j ≡ together.wanted scene c j }
    ensures wanted_blocks { (scene : Scene) (c : ℕ) → IsWellFormed scene → RunTogether scene → c < length scene.links → wanted_blocks scene c ≡ together.wanted_blocks scene c }
    ensures arrivals { (scene : Scene) (table : Table) (b p j : ℕ) → IsWellFormed scene → RunTogether scene → arrivals scene table b p j ≡ together.arrivals scene table b p j }
    ensures values { (scene : Scene) (table : Table) (b p j g : ℕ) → IsWellFormed scene → RunTogether scene → value scene table b p j g ≡ together.value scene table b p j g }
    ensures block_waits { (scene : Scene) (c : ℕ) → IsWellFormed scene → RunTogether scene → c < length scene.links → block_wait scene c ≡ together.block_wait scene c }
    ensures room_waits { (scene : Scene) (c m : ℕ) → IsWellFormed scene → RunTogether scene → c < length scene.links → room_wait scene c m ≡ together.room_wait scene c m }
{}

/// Where no connection states a latency or how many blocks it keeps, the latency and the delay of its input count, and what its
/// ends state together.
pub fn connections_that_state_nothing()
    ensures latencies { (scene : Scene) (c : ℕ) → StateNothing scene → c < length scene.links → latency scene c ≡ unstated.latency scene c }
    ensures delays { (scene : Scene) (c : ℕ) → StateNothing scene → c < length scene.links → delay scene c ≡ unstated.delay scene c }
    ensures stated { (scene : Scene) (c : ℕ) → StateNothing scene → c < length scene.links → stated scene c ≡ unstated.stated scene c }
{}
