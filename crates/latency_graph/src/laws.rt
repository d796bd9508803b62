//! Laws over the definitions: what they say of small scenes.
ghost use Rattle.std.specs.Prelude.{◌≡◌, ◌^◌, [], ◌∷◌, None, Some, pos};
ghost use Rattle.scene_model.specs.Waits.{stated_limits, waits};
ghost use Rattle.scene_model.specs.WorkedScenes.{ms};
ghost use Rattle.scene_model.specs.WorkedTimes.{keeps_more_than_its_ends, keeps_two};
ghost use Rattle.scene_model.specs.WorkedWaits.{buffering, uneven_ticks};
ghost use Rattle.scene_model.specs.declared.wait.WaitKind.TheVariants.{ForBlock, ForRoom};

/// The limits that are stated for one connection, by how long both of its ends tick and how many ticks each buffers, or by how
/// many blocks it keeps itself.
pub fn worked_stated_limits_hold()
    ensures none { stated_limits (buffering (ms 1) (ms 1) None None) ≡ None ∷ [] }
    ensures of_output { stated_limits (buffering (ms 1) (ms 1) (Some 3) None) ≡ Some 3 ∷ [] }
    // Five ticks of 3 ms hold seven whole ones of 2 ms, and one of a millisecond holds none of 10 ms.
    ensures of_input { stated_limits (buffering (ms 2) (ms 3) None (Some 5)) ≡ Some 7 ∷ [] }
    ensures at_least_one { stated_limits (buffering (ms 10) (ms 1) None (Some 1)) ≡ Some 1 ∷ [] }
    ensures less_of_output { stated_limits (buffering (ms 2) (ms 3) (Some 3) (Some 5)) ≡ Some 3 ∷ [] }
    ensures less_of_input { stated_limits (buffering (ms 2) (ms 3) (Some 8) (Some 5)) ≡ Some 7 ∷ [] }
    // What the connection states counts before that, and as it stands.
    ensures of_connection { stated_limits keeps_two ≡ Some 2 ∷ [] }
    ensures before_the_ends { stated_limits keeps_more_than_its_ends ≡ Some 7 ∷ [] }
    ensures capped { stated_limits (buffering 1 (10 ^ 12) None (Some 1_000_000)) ≡ Some (10 ^ 17) ∷ [] }
{}

/// The waits of two applications that send to each other, where the first connection keeps two blocks at most.
pub fn worked_waits_hold()
    ensures { waits uneven_ticks (Some 2 ∷ None ∷ []) ≡
        record { waiter = 1; awaited = 0; link = 0; kind = ForBlock; allowance = pos 0; burden = pos (ms 2) }
        ∷ record { waiter = 0; awaited = 1; link = 0; kind = ForRoom; allowance = pos (ms 9); burden = pos 0 }
        ∷ record { waiter = 0; awaited = 1; link = 1; kind = ForBlock; allowance = pos (ms 3); burden = pos (ms 1) }
        ∷ [] }
{}
