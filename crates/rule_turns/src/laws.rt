//! Laws over the definitions.
ghost use Rattle.std.specs.Prelude.{◌≡◌, ℕ, List, Bool, map, length};
ghost use Rattle.scene_model.specs.Faults.{IsApp};
ghost use Rattle.scene_model.specs.Lives.{inputs};
ghost use Rattle.scene_model.specs.Scenes.{app_at};
ghost use Rattle.scene_model.specs.Tables.{Table};
ghost use Rattle.scene_model.specs.Turns.{Moment, next_state, opening, turn};
ghost use Rattle.scene_model.specs.declared.port.PortDecl.{PortDecl};
ghost use Rattle.scene_model.specs.declared.rule.Rule.{Rule};
ghost use Rattle.scene_model.specs.declared.scene.AppDecl.{AppDecl};
ghost use Rattle.scene_model.specs.declared.scene.Scene.{Scene};
ghost use Rattle.rule_turns.specs.Plans.{turn_plan};
ghost use Rattle.rule_turns.specs.Turning.{AreInputs, CanTurn, by_plan, step_in, use_over_now};

/// The turn by a plan is the turn: what the uses of the plan put out in a step, and the truth values that its `when` rules
/// have after it. Of these there are always as many as the opening state has.
pub fn plans_turn()
    ensures outputs { (rules : List Rule) (state : List Bool) (m : Moment) → CanTurn m.ports m.tick rules → AreInputs m.ports m.inputs →
        by_plan (step_in rules state m) m.ports (turn_plan m.ports rules).ports ≡ turn rules state m }
    ensures states { (rules : List Rule) (m : Moment) → length m.inputs ≡ length m.ports →
        map (use_over_now rules m.inputs) (turn_plan m.ports rules).whens ≡ next_state rules m }
    ensures whens { (ports : List PortDecl) (rules : List Rule) → length (turn_plan ports rules).whens ≡ length (opening rules) }
    ensures counted { (rules : List Rule) (m : Moment) → length (next_state rules m) ≡ length (opening rules) }
{}

/// An application without a fault can turn.
pub fn applications_can_turn()
    ensures { (app : AppDecl) → IsApp app → CanTurn app.ports app.tick app.rules }
{}

/// What the inputs of an application read in a step has the shape that its turn asks for.
pub fn inputs_have_their_shape()
    ensures { (scene : Scene) (table : Table) (a j : ℕ) → AreInputs (app_at scene a).ports (inputs scene table a j) }
{}
