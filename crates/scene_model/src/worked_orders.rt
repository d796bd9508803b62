//! Laws over limits and orders of scenes that can be followed by hand.
ghost use Rattle.std.specs.Prelude.{[], ◌∷◌, pos, None, Some};
ghost use Rattle.scene_model.specs.Cover.{IsReportable};
ghost use Rattle.scene_model.specs.Orders.{AllFinished, IsLawful, after_all, opening_counts};
ghost use Rattle.scene_model.specs.Waits.{AreLimits, Fits, IsAccepted, stated_waits};
ghost use Rattle.scene_model.specs.WellFormed.{IsWellFormed};
ghost use Rattle.scene_model.specs.WorkedOrders.{one_step, one_step_order};
ghost use Rattle.scene_model.specs.WorkedScenes.{slow_receiver};
ghost use Rattle.scene_model.specs.WorkedWaits.{
  for_each_other,
  for_itself,
  for_room_and_block,
  latency_of_a_tick,
  little_room,
  no_latency,
  short_latency,
  to_itself,
  to_itself_late,
  two_ways,
  uneven_but_late,
  uneven_ticks,
};

/// What connections have to keep. Of two between the same applications the second one keeps four blocks, since its events
/// come 5 ms late and the first one's at once. One whose receiver's tick is ten of the sender's keeps one.
pub fn worked_limits_hold()
    ensures slow_receiver { AreLimits slow_receiver (1 ∷ []) }
    ensures accepted { IsAccepted (two_ways None) }
    ensures chosen { AreLimits (two_ways None) (1 ∷ 4 ∷ []) }
    ensures fits { Fits (two_ways None) (1 ∷ 4 ∷ []) (pos 0 ∷ pos 1 ∷ []) }
    ensures well_formed { IsWellFormed (two_ways None) }
    ensures stated { AreLimits (two_ways (Some 4)) (1 ∷ 4 ∷ []) }
    ensures latency_of_a_tick { AreLimits latency_of_a_tick (1 ∷ 1 ∷ []) }
{}

/// Cycles that are not covered. The latencies of a loop of connections, rounded down to what both ticks are multiples of,
/// come to no more than its burdens, or a connection keeps one block too few.
pub fn worked_cycles_hold()
    ensures no_latency { IsReportable (stated_waits no_latency) (for_each_other no_latency) }
    ensures short_latency { IsReportable (stated_waits short_latency) (for_each_other short_latency) }
    ensures uneven_ticks { IsReportable (stated_waits uneven_ticks) (for_each_other uneven_ticks) }
    ensures to_itself { IsReportable (stated_waits to_itself) (for_itself to_itself) }
    // With room for three blocks, gen waits for room until sink has run, and sink for a block that gen has not made.
    ensures little_room { IsReportable (stated_waits little_room) (for_room_and_block little_room) }
{}

/// The same loops with a little more latency are accepted.
pub fn worked_scenes_are_accepted()
    ensures latency_of_a_tick { IsAccepted latency_of_a_tick }
    ensures uneven_but_late { IsAccepted uneven_but_late }
    ensures to_itself_late { IsAccepted to_itself_late }
{}

/// An order in which each of two applications runs its one step.
pub fn worked_order_holds()
    ensures lawful { IsLawful one_step (1 ∷ []) one_step_order }
    ensures finished { AllFinished one_step (after_all (opening_counts one_step) one_step_order) }
{}
