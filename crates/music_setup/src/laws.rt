//! What the definitions say of all configurations, and of small ones.
ghost use Rattle.std.specs.Prelude.{◌≡◌, ℕ, [], ◌∷◌, List, Ok, Some, codes, true, IsOk, IfOk};
ghost use Rattle.std.specs.List.{list_all};
ghost use Rattle.text_words.specs.InTurn.{IsFirst};
ghost use Rattle.config_text.specs.BareTexts.{states_no_option};
ghost use Rattle.config_text.specs.declared.config.Config.{Config};
ghost use Rattle.scene_model.specs.Together.{RunTogether};
ghost use Rattle.scene_model.specs.Unstated.{StateNothing};
ghost use Rattle.scene_model.specs.WorkedScenes.{link};
ghost use Rattle.scene_model.specs.declared.scene.AppDecl.{AppDecl};
ghost use Rattle.scene_model.specs.declared.scene.Scene.{Scene as AScene};
ghost use Rattle.cycle_check.specs.CycleTexts.{cycle_text, names_of};
ghost use Rattle.cycle_check.specs.declared.cycle.Cycle.{Cycle};
ghost use Rattle.music_setup.specs.Texts.{names_in, text_of_fault};
ghost use Rattle.port_match.specs.declared.fault.LinkKind.TheVariants.{UnknownApp, Direction};
ghost use Rattle.port_table.specs.declared.fault.PortFault.TheVariants.{PortText};
ghost use Rattle.app_scripts.specs.declared.fault.RuleFault.TheVariants.{RuleRate, RuleText};
ghost use Rattle.music_setup.specs.Apps.{app_beside, apps_of, apps_until};
ghost use Rattle.music_setup.specs.OwnTimes.{HasNoOwnTimes};
ghost use Rattle.music_setup.specs.Scenes.{scene_of};
ghost use Rattle.music_setup.specs.SmallScenes.{
  alone,
  args,
  back,
  binary,
  both,
  both_from,
  defaults,
  joined,
  nothing,
  np,
  plain_app,
  ports,
  right_one,
  right_one_late,
  start,
  stoptime,
  timestep,
  to_none,
  until,
};
ghost use Rattle.music_setup.specs.declared.fault.AppKind.TheVariants.{
  NpText,
  Binary,
  TickText,
  StartText,
  EndText,
  TooManySteps,
  Ports,
  Rules,
  TooManyValues,
};
ghost use Rattle.music_setup.specs.declared.fault.SceneFault.{SceneFault};
ghost use Rattle.music_setup.specs.declared.fault.SetupFault.TheVariants.{Scene, Link, Uncovered};
ghost use Rattle.music_setup.specs.declared.fault.SceneFault.TheVariants.{
  StopMissing,
  StopText,
  App,
};

/// Where the applications of a configuration have a fault, some section is the first faulty one: those before it give
/// applications, and behind these it has the fault. There is no other first one. Of the connections `port_match` says
/// the same.
pub fn first_faults()
    ensures one_is_first { (config : Config) (stop : ℕ) (fault : SceneFault) → apps_until config stop ≡ Err fault → (i : ℕ) × (before : List AppDecl) × IsFirst (app_beside config stop) config.sections i before fault }
    ensures first_is_the_fault { (config : Config) (stop : ℕ) (i : ℕ) (before : List AppDecl) (fault : SceneFault) → IsFirst (app_beside config stop) config.sections i before fault → apps_until config stop ≡ Err fault }
{}

/// The applications of a scene have the names of the sections, in their order, so that a cycle of its waits has the text
/// of `cycle_check`.
pub fn cycles_name_applications()
    ensures names { (config : Config) (scene : AScene) → scene_of config ≡ Ok scene → names_of scene ≡ names_in config.sections }
    ensures text { (config : Config) (scene : AScene) (cycle : Cycle) → scene_of config ≡ Ok scene
        → text_of_fault (Some config) (Uncovered cycle) ≡ cycle_text (names_of scene) cycle.0.items }
{}

/// Where no `start` stands and `stoptime` stands at most among the defaults, the applications of a configuration start at 0
/// and stop together. Where no connection has an option, its links state nothing of their own. So of such a scene the laws
/// of `scene_model` say what each definition comes to.
pub fn configurations_without_own_times()
    ensures run_together { (config : Config) (scene : AScene) → HasNoOwnTimes config → scene_of config ≡ Ok scene → RunTogether scene }
    ensures state_nothing { (config : Config) (scene : AScene) → list_all states_no_option config.links ≡ true → scene_of config ≡ Ok scene → StateNothing scene }
{}

/// What the connections of small configurations give: links, or a fault where the applications have none.
pub fn small_links()
    ensures no_connection { IsOk (scene_of (joined [])) }
    ensures linked { IfOk (scene_of (joined (right_one ∷ []))) (λ scene. scene.links ≡ link 0 0 1 0 ∷ []) }
    ensures made { IsOk (scene_of (joined (right_one ∷ []))) }
    ensures stated { IfOk (scene_of (joined (right_one_late ∷ []))) (λ scene. scene.links ≡ record (link 0 0 1 0) { latency = Some 1; buffered = Some 3 } ∷ []) }
    ensures made_stated { IsOk (scene_of (joined (right_one_late ∷ []))) }
    ensures first_link_fault { scene_of (joined (right_one ∷ to_none ∷ back ∷ [])) ≡ Err (Link 1 UnknownApp) }
    ensures link_fault_kind { scene_of (joined (back ∷ [])) ≡ Err (Link 0 Direction) }
    ensures application_before_link { scene_of (record (joined (back ∷ [])) { sections = (codes "a", np [] ∷ []) ∷ [] }) ≡ Err (Scene (App 0 NpText)) }
    ensures stop_before_all { scene_of (record (joined (back ∷ [])) { defaults = np [] ∷ [] }) ≡ Err (Scene StopMissing) }
{}

/// The stop and the applications of small configurations, or their first fault.
pub fn small_scenes()
    ensures no_stop { apps_of nothing ≡ Err StopMissing }
    ensures empty_stop { apps_of (record nothing { defaults = (codes "stoptime", []) ∷ [] }) ≡ Err StopText }
    ensures stop_of_a_section { apps_of (record nothing { sections = (codes "a", defaults) ∷ [] }) ≡ Err StopMissing }
    ensures no_section { apps_of (record nothing { defaults = defaults }) ≡ Ok (3, []) }

    // A default counts where the section has no setting of the name.
    ensures defaults_alone { apps_of (alone []) ≡ Ok (3, plain_app (codes "a") ∷ []) }
    ensures own_before_default { apps_of (alone (timestep (codes "2e-9") ∷ [])) ≡ Ok (3, record (plain_app (codes "a")) { tick = 2 } ∷ []) }
    ensures in_order { apps_of (both [] (np (codes "2") ∷ [])) ≡ Ok (3, plain_app (codes "a") ∷ record (plain_app (codes "b")) { np = 2 } ∷ []) }
    ensures empty_texts { apps_of (alone (ports [] ∷ args [] ∷ [])) ≡ Ok (3, plain_app (codes "a") ∷ []) }

    // Each kind, and the limits beside it.
    ensures no_process { apps_of (alone (np (codes "0") ∷ [])) ≡ Err (App 0 NpText) }
    ensures most_processes { apps_of (alone (np (codes "64") ∷ [])) ≡ Ok (3, record (plain_app (codes "a")) { np = 64 } ∷ []) }
    ensures too_many_processes { apps_of (alone (np (codes "65") ∷ [])) ≡ Err (App 0 NpText) }
    ensures other_binary { apps_of (alone (binary (codes "./sim") ∷ [])) ≡ Err (App 0 Binary) }
    ensures no_time { apps_of (alone (timestep (codes "0") ∷ [])) ≡ Err (App 0 TickText) }
    ensures longest_tick { apps_of (alone (timestep (codes "1000") ∷ [])) ≡ Ok (3, record (plain_app (codes "a")) { tick = 1_000_000_000_000 } ∷ []) }
    ensures too_long_a_tick { apps_of (alone (timestep (codes "1000.000000001") ∷ [])) ≡ Err (App 0 TickText) }
    ensures most_steps { apps_of (until (codes "0.001") []) ≡ Ok (1_000_000, record (plain_app (codes "a")) { stop = 1_000_000 } ∷ []) }
    ensures too_many_steps { apps_of (until (codes "0.001000001") []) ≡ Err (App 0 TooManySteps) }
    ensures faulty_ports { apps_of (alone (ports (codes "nope") ∷ [])) ≡ Err (App 0 (Ports (PortText 1))) }
    ensures faulty_rules { apps_of (alone (args (codes "nope") ∷ [])) ≡ Err (App 0 (Rules (RuleText 1))) }
    ensures values_of_an_output { apps_of (until (codes "0.000500001") (ports (codes "out cont c 0+2") ∷ [])) ≡ Err (App 0 TooManyValues) }
    ensures values_of_an_input { apps_of (until (codes "0.000500001") (ports (codes "in cont c 0+2") ∷ [])) ≡ Err (App 0 TooManyValues) }
    ensures values_of_both_ranks { apps_of (until (codes "0.000500001") (np (codes "2") ∷ ports (codes "in cont c 0+1/0+1") ∷ [])) ≡ Err (App 0 TooManyValues) }

    // The first application that has a fault, and its first one.
    ensures earlier_application { apps_of (both (timestep [] ∷ []) (np [] ∷ [])) ≡ Err (App 0 TickText) }
    ensures later_application { apps_of (both [] (np [] ∷ [])) ≡ Err (App 1 NpText) }
    ensures np_before_binary { apps_of (alone (binary [] ∷ np [] ∷ [])) ≡ Err (App 0 NpText) }
    ensures binary_before_tick { apps_of (alone (timestep [] ∷ binary [] ∷ [])) ≡ Err (App 0 Binary) }
    ensures ports_before_rules { apps_of (alone (args (codes "nope") ∷ ports (codes "nope") ∷ [])) ≡ Err (App 0 (Ports (PortText 1))) }
    ensures rules_before_values { apps_of (until (codes "0.000500001") (ports (codes "out cont c 0+2") ∷ args (codes "nope") ∷ [])) ≡ Err (App 0 (Rules (RuleText 1))) }
{}

/// The starts and stops of the applications of small configurations, or their first fault.
pub fn small_times()
    // A setting of the section counts before the default.
    ensures own_start { apps_of (alone (start (codes "2e-9") ∷ [])) ≡ Ok (3, record (plain_app (codes "a")) { start = 2 } ∷ []) }
    ensures default_start { apps_of (both_from (codes "2e-9") [] (start (codes "1e-9") ∷ [])) ≡
        Ok (3, record (plain_app (codes "a")) { start = 2 } ∷ record (plain_app (codes "b")) { start = 1 } ∷ []) }
    ensures later_stop { apps_of (alone (stoptime (codes "5e-9") ∷ [])) ≡ Ok (3, record (plain_app (codes "a")) { stop = 5 } ∷ []) }
    ensures earlier_stop { apps_of (both (stoptime (codes "2e-9") ∷ []) []) ≡
        Ok (3, record (plain_app (codes "a")) { stop = 2 } ∷ plain_app (codes "b") ∷ []) }

    // A start at the stop or after it is no fault.
    ensures start_at_the_stop { apps_of (alone (start (codes "3e-9") ∷ [])) ≡ Ok (3, record (plain_app (codes "a")) { start = 3 } ∷ []) }
    ensures start_past_the_stop { apps_of (alone (start (codes "5e-9") ∷ [])) ≡ Ok (3, record (plain_app (codes "a")) { start = 5 } ∷ []) }

    // What is no time.
    ensures no_start { apps_of (alone (start (codes "x") ∷ [])) ≡ Err (App 0 StartText) }
    ensures empty_start { apps_of (alone (start [] ∷ [])) ≡ Err (App 0 StartText) }
    ensures no_default_start { apps_of (both_from (codes "x") (start (codes "1e-9") ∷ []) []) ≡ Err (App 1 StartText) }
    ensures late_start { apps_of (alone (start (codes "1000000.000000001") ∷ [])) ≡ Err (App 0 StartText) }
    ensures no_end { apps_of (alone (stoptime (codes "x") ∷ [])) ≡ Err (App 0 EndText) }
    ensures late_end { apps_of (alone (stoptime (codes "1000000.000000001") ∷ [])) ≡ Err (App 0 EndText) }

    // The default stop is judged first, also where every section has its own.
    ensures own_stops_alone { apps_of (record (both (stoptime (codes "2e-9") ∷ []) (stoptime (codes "2e-9") ∷ [])) { defaults = [] }) ≡ Err StopMissing }
    ensures default_stop_first { apps_of (until (codes "x") (stoptime (codes "2e-9") ∷ [])) ≡ Err StopText }
    ensures default_stop_before_own { apps_of (until (codes "x") (stoptime (codes "x") ∷ [])) ≡ Err StopText }
    ensures faulty_own_stop { apps_of (both (stoptime (codes "2e-9") ∷ []) (stoptime (codes "x") ∷ [])) ≡ Err (App 1 EndText) }

    // The first of two.
    ensures tick_before_start { apps_of (alone (start [] ∷ timestep [] ∷ [])) ≡ Err (App 0 TickText) }
    ensures start_before_end { apps_of (alone (stoptime [] ∷ start [] ∷ [])) ≡ Err (App 0 StartText) }
    ensures end_before_steps { apps_of (until (codes "0.001000001") (stoptime [] ∷ [])) ≡ Err (App 0 EndText) }
    ensures start_before_steps { apps_of (until (codes "0.001000001") (start [] ∷ [])) ≡ Err (App 0 StartText) }
    ensures steps_before_ports { apps_of (until (codes "0.001000001") (ports (codes "nope") ∷ [])) ≡ Err (App 0 TooManySteps) }

    // The steps that an application makes itself are judged.
    ensures few_from_the_start { apps_of (until (codes "0.001000001") (start (codes "1e-9") ∷ [])) ≡ Ok (1_000_001, record (plain_app (codes "a")) { start = 1; stop = 1_000_001 } ∷ []) }
    ensures few_until_the_stop { apps_of (until (codes "0.001000001") (stoptime (codes "1e-9") ∷ [])) ≡ Ok (1_000_001, record (plain_app (codes "a")) { stop = 1 } ∷ []) }
    ensures many_until_the_stop { apps_of (alone (stoptime (codes "0.001000001") ∷ [])) ≡ Err (App 0 TooManySteps) }
    ensures few_values { IsOk (apps_of (until (codes "0.000500001") (ports (codes "out cont c 0+2") ∷ start (codes "1e-9") ∷ []))) }
    ensures many_values { apps_of (alone (ports (codes "out cont c 0+2") ∷ stoptime (codes "0.000500001") ∷ [])) ≡ Err (App 0 TooManyValues) }
    ensures few_periods { IsOk (apps_of (until (codes "0.002") (timestep (codes "0.001") ∷ ports (codes "out event o 0+1") ∷ args (codes "emit o 0 every 1e-9 from 0") ∷ start (codes "0.001") ∷ []))) }
    ensures many_periods { apps_of (until (codes "0.002") (timestep (codes "0.001") ∷ ports (codes "out event o 0+1") ∷ args (codes "emit o 0 every 1e-9 from 0") ∷ [])) ≡ Err (App 0 (Rules (RuleRate 1))) }
{}
