//! Laws over the definitions: what they say of scenes that can be followed by hand.
ghost use Rattle.std.specs.Prelude.{◌≡◌, true, false, [], ◌∷◌, pos, negsuc, codes};
ghost use Rattle.music_base.specs.declared.item.Item.TheVariants.{Value};
ghost use Rattle.scene_model.specs.Logs.{log_of};
ghost use Rattle.scene_model.specs.Turns.{event, message, turn, opening, next_state};
ghost use Rattle.scene_model.specs.WorkedTurns.{
  answer,
  give_twice,
  pass_and_watch,
  pass_down,
  scale_down,
  step_four,
};
ghost use Rattle.scene_model.specs.WorkedRealistic.{realistic, realistic_log};
ghost use Rattle.scene_model.specs.WorkedScenes.{
  event_each_tick,
  just_in_time,
  late_by_latency,
  log,
  past_the_stop,
  ramp_down,
  ramp_held,
  ramp_up,
  shared_index,
  slow_receiver,
  slow_sender,
};

/// The logs of small scenes in which events go from one application to another.
pub fn worked_events_hold()
    ensures event_each_tick { log_of event_each_tick ≡ log (
        codes "0,sink,in,event,0,3,3,500000,"
        ∷ codes "1000000,sink,in,event,0,3,3,1500000,"
        ∷ codes "2000000,sink,in,event,0,3,3,2500000," ∷ []) }
    ensures slow_receiver { log_of slow_receiver ≡ log (
        codes "0,sink,in,event,0,3,3,500000,"
        ∷ codes "0,sink,in,event,0,3,3,4500000,"
        ∷ codes "0,sink,in,event,0,3,3,8500000,"
        ∷ codes "10000000,sink,in,event,0,3,3,12500000,"
        ∷ codes "10000000,sink,in,event,0,3,3,16500000," ∷ []) }
    ensures slow_sender { log_of slow_sender ≡ log (
        codes "0,sink,in,event,0,3,3,500000,"
        ∷ codes "1000000,sink,in,event,0,3,3,1500000," ∷ []) }
    ensures shared_index { log_of shared_index ≡ log (
        codes "0,sink,in,event,0,2,2,500000,"
        ∷ codes "0,sink,in,event,1,0,2,500000," ∷ []) }
    ensures just_in_time { log_of just_in_time ≡ log (codes "0,sink,in,event,0,3,3,999999," ∷ []) }
    ensures late_by_latency { log_of late_by_latency ≡ log (codes "1000000,sink,in,event,0,3,3,999999," ∷ []) }
    ensures past_the_stop { log_of past_the_stop ≡ log [] }
{}

/// The logs of small scenes in which a value is read at its samples and between them.
pub fn worked_values_hold()
    ensures ramp_down { log_of ramp_down ≡ log (
        codes "0,sink,d,cont,0,0,0,,0"
        ∷ codes "1000000,sink,d,cont,0,0,0,,-2"
        ∷ codes "2000000,sink,d,cont,0,0,0,,-3" ∷ []) }
    ensures ramp_up { log_of ramp_up ≡ log (
        codes "0,sink,d,cont,0,0,0,,0"
        ∷ codes "1000000,sink,d,cont,0,0,0,,5"
        ∷ codes "2000000,sink,d,cont,0,0,0,,10"
        ∷ codes "3000000,sink,d,cont,0,0,0,,10" ∷ []) }
    ensures ramp_held { log_of ramp_held ≡ log (
        codes "0,sink,d,cont,0,0,0,,0"
        ∷ codes "1000000,sink,d,cont,0,0,0,,0"
        ∷ codes "2000000,sink,d,cont,0,0,0,,10"
        ∷ codes "3000000,sink,d,cont,0,0,0,,10" ∷ []) }
{}

/// What rules put out in one step, port by port: three inputs, and then an event, a continuous and a message output.
pub fn worked_turns_hold()
    // An index that comes out below 0 is mapped by no rank.
    ensures pass_down { turn pass_down [] step_four ≡
        [] ∷ [] ∷ [] ∷ (event 1 45 ∷ []) ∷ (Value 0 (pos 0) ∷ Value 1 (pos 0) ∷ []) ∷ [] ∷ [] }
    // `when` emits where the value has come to be above its bound, after the rule before it, and not while it stays so.
    ensures comes_over { turn pass_and_watch (false ∷ []) step_four ≡
        [] ∷ [] ∷ [] ∷ (event 3 40 ∷ event 0 40 ∷ []) ∷ (Value 0 (pos 0) ∷ Value 1 (pos 0) ∷ []) ∷ [] ∷ [] }
    ensures stays_over { turn pass_and_watch (true ∷ []) step_four ≡
        [] ∷ [] ∷ [] ∷ (event 3 40 ∷ []) ∷ (Value 0 (pos 0) ∷ Value 1 (pos 0) ∷ []) ∷ [] ∷ [] }
    ensures is_over { next_state pass_and_watch step_four ≡ true ∷ [] }
    ensures not_over_at_first { opening pass_and_watch ≡ false ∷ [] }
    // Minus three and a half is rounded down to -4 before three is added. Index 1 is not mapped by the input.
    ensures scale_down { turn scale_down [] step_four ≡
        [] ∷ [] ∷ [] ∷ [] ∷ (Value 0 (negsuc 0) ∷ Value 1 (pos 0) ∷ []) ∷ [] ∷ [] }
    // The later rule counts, and what is above 64 bits is the greatest that they hold.
    ensures give_twice { turn give_twice [] step_four ≡
        [] ∷ [] ∷ [] ∷ [] ∷ (Value 0 (pos 2) ∷ Value 1 (pos 9_223_372_036_854_775_807) ∷ []) ∷ [] ∷ [] }
    ensures answer { turn answer [] step_four ≡
        [] ∷ [] ∷ [] ∷ [] ∷ (Value 0 (pos 0) ∷ Value 1 (pos 0) ∷ []) ∷ (message (codes "go") 42 ∷ []) ∷ [] }
    // The same step of an application that starts at 7 ns lasts from 47 to 57 ns.
    ensures pass_down_late { turn pass_down [] (record step_four { start = 7 }) ≡
        [] ∷ [] ∷ [] ∷ (event 1 52 ∷ []) ∷ (Value 0 (pos 0) ∷ Value 1 (pos 0) ∷ []) ∷ [] ∷ [] }
    ensures answer_late { turn answer [] (record step_four { start = 7 }) ≡
        [] ∷ [] ∷ [] ∷ [] ∷ (Value 0 (pos 0) ∷ Value 1 (pos 0) ∷ []) ∷ (message (codes "go") 49 ∷ []) ∷ [] }
{}

/// The whole log of a scene with loops of connections, two ranks, messages and a watched value.
pub fn worked_log_holds()
    ensures { log_of realistic ≡ realistic_log }
{}
