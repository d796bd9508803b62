//! Laws over the definition of a scene without a fault.
ghost use Rattle.std.specs.Prelude.{ℕ, ◌≡◌, ◌<◌, ◌≤◌, false, length};
ghost use Rattle.std.specs.Int.{IsInRange};
ghost use Rattle.index_maps.specs.Intervals.{ranks_mapping};
ghost use Rattle.scene_model.specs.Clocks.{tick};
ghost use Rattle.scene_model.specs.Connections.{IsConnection};
ghost use Rattle.scene_model.specs.Faults.{IsApp, IsFaultless};
ghost use Rattle.scene_model.specs.Limits.{longest_tick};
ghost use Rattle.scene_model.specs.Links.{same_ends};
ghost use Rattle.scene_model.specs.Ports.{IsPort};
ghost use Rattle.scene_model.specs.Scenes.{app_at, link_at, links_to, port_at};
ghost use Rattle.scene_model.specs.WellFormed.{IsWellFormed};
ghost use Rattle.scene_model.specs.WorkedFaults.{
  joined_twice,
  late_stop,
  much_buffered,
  no_period,
  no_tick,
  one_name,
  other_kind,
  other_message_map,
  overlapping,
  unmapped,
};
ghost use Rattle.scene_model.specs.WorkedRealistic.{realistic};
ghost use Rattle.scene_model.specs.WorkedScenes.{event_each_tick, ramp_held, shared_index};
ghost use Rattle.scene_model.specs.declared.port.Direction.TheVariants.{Output};
ghost use Rattle.scene_model.specs.declared.port.PortKind.TheVariants.{Values};
ghost use Rattle.scene_model.specs.declared.scene.Scene.{Scene};

/// What holds of a scene without a fault, place by place: each application and each port is lawful, time goes on in each,
/// no two ranks of an output map one index, each connection leads from an output to an input of its kind, no two join the
/// same ports, and at most one leads to a continuous input. So the laws on waits and orders hold of it.
pub fn faultless_by_place()
    ensures applications { (scene : Scene) (a : ℕ) → IsFaultless scene → a < length scene.apps → IsApp (app_at scene a) }
    ensures ports { (scene : Scene) (a p : ℕ) → IsFaultless scene → a < length scene.apps → p < length (app_at scene a).ports → IsPort (app_at scene a).np (port_at scene a p) }
    ensures ticks { (scene : Scene) (a : ℕ) → IsFaultless scene → IsInRange 1 longest_tick (tick scene a) }
    ensures outputs_map_once { (scene : Scene) (a p g : ℕ) → IsFaultless scene → a < length scene.apps → p < length (app_at scene a).ports → (port_at scene a p).direction ≡ Output → ranks_mapping (port_at scene a p).map g ≤ 1 }
    ensures connections { (scene : Scene) (c : ℕ) → IsFaultless scene → c < length scene.links → IsConnection scene c }
    ensures joined_once { (scene : Scene) (c d : ℕ) → IsFaultless scene → c < d → d < length scene.links → same_ends (link_at scene c) (link_at scene d) ≡ false }
    ensures fed_once { (scene : Scene) (b p : ℕ) → IsFaultless scene → (port_at scene b p).kind ≡ Values → length (links_to scene b p) ≤ 1 }
    ensures well_formed { (scene : Scene) → IsFaultless scene → IsWellFormed scene }
{}

/// Scenes whose logs can be followed by hand have no fault: events, an index that two ranks share, values, and a scene
/// with loops of connections, two ranks, messages and a watched value.
pub fn worked_scenes_have_no_fault()
    ensures event_each_tick { IsFaultless event_each_tick }
    ensures shared_index { IsFaultless shared_index }
    ensures ramp_held { IsFaultless ramp_held }
    ensures realistic { IsFaultless realistic }
{}

/// A scene with one fault is not faultless: of its numbers, its names, its maps, its rules, or its links.
pub fn worked_faults_show()
    ensures late_stop { IsFaultless late_stop → ⊥ }
    ensures no_tick { IsFaultless no_tick → ⊥ }
    ensures much_buffered { IsFaultless much_buffered → ⊥ }
    ensures one_name { IsFaultless one_name → ⊥ }
    ensures overlapping { IsFaultless overlapping → ⊥ }
    ensures other_message_map { IsFaultless other_message_map → ⊥ }
    ensures unmapped { IsFaultless unmapped → ⊥ }
    ensures no_period { IsFaultless no_period → ⊥ }
    ensures other_kind { IsFaultless other_kind → ⊥ }
    ensures joined_twice { IsFaultless joined_twice → ⊥ }
{}
