//! Laws over the definitions: what they say of small scenes.
ghost use Rattle.std.specs.Prelude.{◌≡◌, [], ◌∷◌, codes};
ghost use Rattle.scene_model.specs.WorkedScenes.{lines};
ghost use Rattle.scene_model.specs.WorkedWaits.{
  for_each_other,
  for_itself,
  for_room_and_block,
  little_room,
  no_latency,
  short_latency,
  to_itself,
  uneven_ticks,
};
ghost use Rattle.scene_model.specs.WorkedTimes.{apart_without_latency};
ghost use Rattle.cycle_check.specs.CycleTexts.{cycle_text, names_of};

/// The texts of cycles of small scenes that are not covered.
pub fn worked_texts_hold()
    ensures no_latency { cycle_text (names_of no_latency) (for_each_other no_latency) ≡ lines (
        codes "uncovered cycle"
        ∷ codes "a waits for b: connection 2, data, allowance 0, burden 0"
        ∷ codes "b waits for a: connection 1, data, allowance 0, burden 0"
        ∷ codes "allowances 0, burdens 0" ∷ []) }
    ensures short_latency { cycle_text (names_of short_latency) (for_each_other short_latency)
        ≡ cycle_text (names_of no_latency) (for_each_other no_latency) }
    ensures uneven_ticks { cycle_text (names_of uneven_ticks) (for_each_other uneven_ticks) ≡ lines (
        codes "uncovered cycle"
        ∷ codes "a waits for b: connection 2, data, allowance 3000000, burden 1000000"
        ∷ codes "b waits for a: connection 1, data, allowance 0, burden 2000000"
        ∷ codes "allowances 3000000, burdens 3000000" ∷ []) }
    ensures to_itself { cycle_text (names_of to_itself) (for_itself to_itself) ≡ lines (
        codes "uncovered cycle"
        ∷ codes "a waits for a: connection 1, data, allowance 0, burden 0"
        ∷ codes "allowances 0, burdens 0" ∷ []) }
    ensures little_room { cycle_text (names_of little_room) (for_room_and_block little_room) ≡ lines (
        codes "uncovered cycle"
        ∷ codes "gen waits for sink: connection 2, room, allowance 0, burden 0"
        ∷ codes "sink waits for gen: connection 1, data, allowance 0, burden 0"
        ∷ codes "allowances 0, burdens 0" ∷ []) }
    ensures apart_without_latency { cycle_text (names_of apart_without_latency) (for_each_other apart_without_latency) ≡ lines (
        codes "uncovered cycle"
        ∷ codes "a waits for b: connection 2, data, allowance 0, burden 0"
        ∷ codes "b waits for a: connection 1, data, allowance -1000000, burden 0"
        ∷ codes "allowances -1000000, burdens 0" ∷ []) }
{}
