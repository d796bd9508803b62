//! Laws that the core rests on.
ghost use Rattle.std.specs.Prelude.{◌≡◌, ◌-◌, ◌<◌, ℕ, List, []};
ghost use Rattle.scene_model.specs.Orders.{CanPut, Counts, IsSound, put_on, taken_from};
ghost use Rattle.scene_model.specs.declared.act.Act.{Act};
ghost use Rattle.scene_model.specs.declared.scene.Scene.{Scene};
ghost use Rattle.step_core.specs.Cores.{BeginsLog, CoreView, did, opened, room_for, rows_out};

/// Where a block can be put, a ring that is made for the limit, or for the wanted blocks where these are fewer, has room.
pub fn puts_find_room()
    ensures { (scene : Scene) (limits : List ℕ) (s : Counts) (c : ℕ) → IsSound scene limits s → CanPut scene limits s c →
        put_on s c - taken_from s c < room_for scene limits c }
{}

/// Before any act nothing was handed out, which begins the log; and no act changes what was handed out.
pub fn cores_begin_the_log()
    ensures opened { (scene : Scene) (limits : List ℕ) → rows_out (opened scene limits) ≡ [] }
    ensures begins { (scene : Scene) (limits : List ℕ) → BeginsLog (opened scene limits) }
    ensures did { (core : CoreView) (act : Act) → rows_out (did core act) ≡ rows_out core }
    ensures begins_still { (core : CoreView) (act : Act) → BeginsLog core → BeginsLog (did core act) }
{}
