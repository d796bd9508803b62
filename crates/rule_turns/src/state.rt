ghost use Rattle.std.specs.Prelude.{◌≡◌, length, map, IfOk};
ghost use Rattle.scene_model.specs.Turns.{Moment, next_state, opening};
ghost use Rattle.rule_turns.specs.Plans.{turn_plan};
ghost use Rattle.rule_turns.specs.Turning.{AreInputs, CanTurn, use_over_at};

use crate::emission::is_over_at;
use crate::step::items_at;
use crate::{RuleUse, TurnPlan};
use music_base::{Item, Items, NoMemory};
use scene_model::Rule;
use std::alloc::Global;
use std::marker::Model;

/// For each `when` rule, in order, whether its value was over its bound in the step before. Contracts see the list.
#[derive(Debug, Drop)]
pub struct ScriptState {
    over: Vec<bool>,
}

impl Model for ScriptState {
    ghost use Rattle.std.specs.Prelude.{List, Bool};

    ghost Value = { List Bool };

    ghost view = { λ state. state.over.items };
}

fn is_over_now(rules: &[Rule], inputs: &[Items<Item>], part: RuleUse) -> bool
    ensures { result ≡ use_over_at rules.now inputs.now part }
{
    match rules.get(part.rule) {
        Some(rule) => is_over_at(rule, items_at(inputs, part.input), part.place),
        None => false,
    }
}

impl ScriptState {
    /// The state before the first step, in which no value was over its bound.
    pub fn start(alloc: Global, rules: &[Rule]) -> Result<ScriptState, NoMemory>
        ensures { IfOk result (λ state. state ≡ opening rules.now) }
    {
        let mut over = Vec::new(alloc);
        for rule in rules {
            if let Rule::When { .. } = rule {
                over.push(false)?;
            }
        }
        Ok(ScriptState { over })
    }

    /// One truth value for each `when` rule, in order.
    pub fn as_slice(&self) -> &[bool]
        ensures { result.now ≡ self.now }
    {
        self.over.as_slice()
    }

    /// The state after a step in which the inputs read this, by the plan of the ports and these rules. It takes no memory,
    /// and needs what the step put out no longer.
    pub fn move_on(&mut self, plan: &TurnPlan, rules: &[Rule], inputs: &[Items<Item>])
        requires { length self.old ≡ length plan.now.whens }
        ensures placed { self.new ≡ map (use_over_at rules.now inputs.now) plan.now.whens }
        ensures moved { (m : Moment) → CanTurn m.ports m.tick rules.now → AreInputs m.ports m.inputs →
            plan.now ≡ turn_plan m.ports rules.now → m.inputs ≡ inputs.now → self.new ≡ next_state rules.now m }
    {
        self.move_by(plan.whens.as_slice(), rules, inputs);
    }

    fn move_by(&mut self, whens: &[RuleUse], rules: &[Rule], inputs: &[Items<Item>])
        requires { length self.old ≡ length whens.now }
        ensures { self.new ≡ map (use_over_at rules.now inputs.now) whens.now }
    {
        for i in 0..whens.len() {
            self.over[i] = is_over_now(rules, inputs, whens[i]);
        }
    }
}
