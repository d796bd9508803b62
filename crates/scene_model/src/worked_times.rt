//! Laws over scenes that can be followed by hand, whose applications start and stop at times of their own, or whose connections
//! state a latency or how many blocks they keep.
ghost use Rattle.std.specs.Prelude.{◌≡◌, [], ◌∷◌, Some, codes, false, negsuc, pos, true};
ghost use Rattle.music_base.specs.Clocks.{due_step_from};
ghost use Rattle.scene_model.specs.Clocks.{clock_at, delay, first_at, latency, steps};
ghost use Rattle.scene_model.specs.Cover.{IsReportable};
ghost use Rattle.scene_model.specs.Due.{is_due_from, is_step_from};
ghost use Rattle.scene_model.specs.Logs.{log_of, step_rows_in};
ghost use Rattle.scene_model.specs.Turns.{event};
ghost use Rattle.scene_model.specs.Waits.{AreLimits, IsAccepted, block_wait, stated, stated_waits};
ghost use Rattle.scene_model.specs.WorkedScenes.{log};
ghost use Rattle.scene_model.specs.WorkedTimes.{
  apart_and_a_tick,
  apart_and_late,
  apart_without_latency,
  at_once_in_place_of_the_input,
  delayed_by_connection,
  early_gen,
  early_sink,
  keeps_more_than_its_ends,
  keeps_two,
  late_back,
  late_by_connection,
  late_gen,
  late_in_place_of_the_input,
  late_ramp,
  late_ramp_held,
  late_reader,
  late_sink,
  sink_at_stop,
  sink_between_ticks,
  sink_past_stop,
  sink_runs_on,
  together_and_late,
};
ghost use Rattle.scene_model.specs.WorkedWaits.{for_each_other};
ghost use Rattle.scene_model.specs.declared.row.RowItem.TheVariants.{Event as EventRow};

/// The logs of small scenes in which events go from one application to another, and one of the two starts late, or stops
/// before the other.
pub fn worked_starts_and_stops_hold()
    ensures late_sink { log_of late_sink ≡ log (
        codes "1000000,sink,in,event,0,3,3,1500000,"
        ∷ codes "2000000,sink,in,event,0,3,3,2500000," ∷ []) }
    ensures sink_between_ticks { log_of sink_between_ticks ≡ log (
        codes "500000,sink,in,event,0,3,3,500000,"
        ∷ codes "1500000,sink,in,event,0,3,3,1500000,"
        ∷ codes "2500000,sink,in,event,0,3,3,2500000," ∷ []) }
    ensures late_gen { log_of late_gen ≡ log (
        codes "0,sink,in,event,0,3,3,500000,"
        ∷ codes "1000000,sink,in,event,0,3,3,1500000,"
        ∷ codes "2000000,sink,in,event,0,3,3,2500000," ∷ []) }
    ensures early_gen { log_of early_gen ≡ log (codes "0,sink,in,event,0,3,3,500000," ∷ []) }
    ensures early_sink { log_of early_sink ≡ log (
        codes "0,sink,in,event,0,3,3,500000,"
        ∷ codes "1000000,sink,in,event,0,3,3,1500000," ∷ []) }
    ensures sink_runs_on { log_of sink_runs_on ≡ log (
        codes "2000000,sink,in,event,0,3,3,500000,"
        ∷ codes "3000000,sink,in,event,0,3,3,1500000,"
        ∷ codes "4000000,sink,in,event,0,3,3,2500000," ∷ []) }

    // An application that does not start before its stop runs no step.
    ensures past_stop { steps sink_past_stop 1 ≡ 0 }
    ensures at_stop { steps sink_at_stop 1 ≡ 0 }
    ensures sink_past_stop { log_of sink_past_stop ≡ log [] }
    ensures sink_at_stop { log_of sink_at_stop ≡ log [] }
{}

/// The logs of small scenes in which a value is read, and the sender or the receiver starts late.
pub fn worked_late_values_hold()
    ensures late_ramp { log_of late_ramp ≡ log (
        codes "0,sink,d,cont,0,0,0,,0"
        ∷ codes "1000000,sink,d,cont,0,0,0,,5"
        ∷ codes "2000000,sink,d,cont,0,0,0,,10"
        ∷ codes "3000000,sink,d,cont,0,0,0,,15" ∷ []) }
    ensures late_ramp_held { log_of late_ramp_held ≡ log (
        codes "0,sink,d,cont,0,0,0,,0"
        ∷ codes "1000000,sink,d,cont,0,0,0,,5"
        ∷ codes "2000000,sink,d,cont,0,0,0,,5"
        ∷ codes "3000000,sink,d,cont,0,0,0,,15" ∷ []) }
    ensures late_reader { log_of late_reader ≡ log (
        codes "1000000,sink,d,cont,0,0,0,,10"
        ∷ codes "2000000,sink,d,cont,0,0,0,,15"
        ∷ codes "3000000,sink,d,cont,0,0,0,,15" ∷ []) }
{}

/// The logs of small scenes whose connection states a latency, which counts in place of what the input states.
pub fn worked_latencies_hold()
    ensures late_by_connection { log_of late_by_connection ≡ log (codes "1000000,sink,in,event,0,3,3,999999," ∷ []) }
    ensures late_in_place_of_the_input { log_of late_in_place_of_the_input ≡ log (codes "1000000,sink,in,event,0,3,3,999999," ∷ []) }
    ensures at_once_in_place_of_the_input { log_of at_once_in_place_of_the_input ≡ log (codes "0,sink,in,event,0,3,3,999999," ∷ []) }
    ensures delayed_by_connection { log_of delayed_by_connection ≡ log (
        codes "0,sink,d,cont,0,0,0,,0"
        ∷ codes "1000000,sink,d,cont,0,0,0,,5"
        ∷ codes "2000000,sink,d,cont,0,0,0,,5"
        ∷ codes "3000000,sink,d,cont,0,0,0,,15" ∷ []) }
{}

/// Two applications of one tick send to each other, and b starts half a tick after a. So the allowance of what a waits for is
/// half a tick more than its latency, that of what b waits for half a tick less, and each is rounded down to whole ticks.
pub fn worked_starts_in_cycles_hold()
    // The start covers a cycle: the sum comes to a tick, and without the start to nothing.
    ensures covered { IsAccepted apart_and_late }
    ensures covered_limits { AreLimits apart_and_late (1 ∷ 1 ∷ []) }
    ensures covered_for_b { (block_wait apart_and_late 0).allowance ≡ pos 0 }
    ensures covered_for_a { (block_wait apart_and_late 1).allowance ≡ pos 1_000_000 }
    ensures uncovered_together { IsReportable (stated_waits together_and_late) (for_each_other together_and_late) }
    ensures together_for_b { (block_wait together_and_late 0).allowance ≡ pos 0 }
    ensures together_for_a { (block_wait together_and_late 1).allowance ≡ pos 0 }

    // The start uncovers a cycle: the sum comes to nothing. Without the start the scene is `latency_of_a_tick`, which is accepted.
    ensures uncovered { IsReportable (stated_waits apart_and_a_tick) (for_each_other apart_and_a_tick) }
    ensures uncovered_for_b { (block_wait apart_and_a_tick 0).allowance ≡ negsuc 999_999 }
    ensures uncovered_for_a { (block_wait apart_and_a_tick 1).allowance ≡ pos 1_000_000 }

    // Without a latency the sum comes to a tick below nothing.
    ensures without_latency { IsReportable (stated_waits apart_without_latency) (for_each_other apart_without_latency) }
    ensures without_latency_for_b { (block_wait apart_without_latency 0).allowance ≡ negsuc 999_999 }
    ensures without_latency_for_a { (block_wait apart_without_latency 1).allowance ≡ pos 0 }
{}

/// What a connection states counts in cycles and limits. The blocks that it keeps are counted as they stand, also where the
/// receiver's tick is ten of the sender's.
pub fn worked_connections_hold()
    ensures late_back { IsAccepted late_back }
    ensures late_back_limits { AreLimits late_back (1 ∷ 1 ∷ []) }
    ensures keeps_two { IsAccepted keeps_two }
    ensures keeps_two_limits { AreLimits keeps_two (2 ∷ []) }
    ensures states_two { stated keeps_two 0 ≡ Some 2 }
    ensures states_more_than_its_ends { stated keeps_more_than_its_ends 0 ≡ Some 7 }
{}

/// What lies before the receiver's start is past from step 0 on, and what its latency puts at the start is due in step 0
/// alone. A row of a step is made of what its port read.
pub fn worked_dues_hold()
    ensures before { is_step_from 0 (due_step_from 999_999 0 1_000_000 1_000_000) ≡ false }
    ensures at { is_step_from 0 (due_step_from 500_000 500_000 1_000_000 1_000_000) ≡ true }
    ensures after { is_step_from 1 (due_step_from 500_000 500_000 1_000_000 1_000_000) ≡ false }
    ensures dropped { is_due_from late_sink 0 0 (event 3 500_000) ≡ false }
    ensures first { is_due_from late_sink 0 0 (event 3 1_500_000) ≡ true }
    ensures past { is_due_from late_sink 0 1 (event 3 1_500_000) ≡ false }
    ensures own_latency { latency late_in_place_of_the_input 0 ≡ 1 }
    ensures own_delay { delay delayed_by_connection 0 ≡ 1_000_000 }
    ensures first_sample { first_at late_ramp 0 ≡ 1_000_000 }
    ensures first_clock { clock_at late_reader 0 0 ≡ 1_000_000 }
    ensures row { step_rows_in late_sink 1 0 ((event 3 1_500_000 ∷ []) ∷ []) ≡
        record { clock = 1_000_000; app = 1; port = 0; rank = 0; item = EventRow 3 3 1_500_000 } ∷ [] }
{}
