//! The turn of one step.
ghost use Rattle.std.specs.Prelude.{◌≡◌, ◌^◌, ◌<◌, ◌≤◌, OnOk, OnErr, IfOk, length};
ghost use Rattle.scene_model.specs.Turns.{next_state, opening, turn};
ghost use Rattle.rule_turns.specs.Plans.{turn_plan};
ghost use Rattle.rule_turns.specs.Turning.{AreInputs, CanTurn};

use crate::ports::step_outputs;
use crate::step::StepView;
use crate::{ScriptState, TurnPlan};
use music_base::{Item, Items, Nanos, NoMemory};
use scene_model::{PortDecl, Rule};
use std::alloc::Global;

/// What the ports of an application put out in a step, by its plan: for each port its items, and none for an input.
///
/// The application starts at `start` and ticks each `tick`, in ns. The state is the one before the step. `inputs` has for
/// each port what it reads: an event or message input its arrivals, a continuous input a value for each mapped index,
/// ascending. Only want of memory is refused.
pub fn outputs_by(
    alloc: Global,
    plan: &TurnPlan,
    rules: &[Rule],
    ports: &[PortDecl],
    start: Nanos,
    tick: Nanos,
    state: &ScriptState,
    step: u64,
    inputs: &[Items<Item>],
) -> Result<Items<Items<Item>>, NoMemory>
    requires can { CanTurn ports.now tick rules.now }
    requires planned { plan.now ≡ turn_plan ports.now rules.now }
    requires inputs { AreInputs ports.now inputs.now }
    requires start { start ≤ 10 ^ 15 }
    requires tick { tick ≤ 10 ^ 12 }
    requires step { step < 10 ^ 6 }
    requires state { length state.now ≡ length (opening rules.now) }
    ensures { IfOk result (λ outputs. outputs ≡ turn rules.now state.now (record { ports = ports.now; start = start; tick = tick; step = step; inputs = inputs.now })) }
{
    let mut outputs = Vec::new(alloc);
    fill_outputs(
        alloc,
        plan,
        rules,
        ports,
        start,
        tick,
        state,
        step,
        inputs,
        &mut outputs,
    )?;
    Ok(Items::from_vec(outputs))
}

/// Fills a list with what `outputs_by` answers. What the list had goes, and its memory stays.
pub fn fill_outputs(
    alloc: Global,
    plan: &TurnPlan,
    rules: &[Rule],
    ports: &[PortDecl],
    start: Nanos,
    tick: Nanos,
    state: &ScriptState,
    step: u64,
    inputs: &[Items<Item>],
    outputs: &mut Vec<Items<Item>>,
) -> Result<(), NoMemory>
    requires can { CanTurn ports.now tick rules.now }
    requires planned { plan.now ≡ turn_plan ports.now rules.now }
    requires inputs { AreInputs ports.now inputs.now }
    requires start { start ≤ 10 ^ 15 }
    requires tick { tick ≤ 10 ^ 12 }
    requires step { step < 10 ^ 6 }
    requires state { length state.now ≡ length (opening rules.now) }
    ensures { OnOk result (outputs.new.items ≡ turn rules.now state.now (record { ports = ports.now; start = start; tick = tick; step = step; inputs = inputs.now })) }
{
    let from = start.0 + step * tick.0;
    let view = StepView {
        rules,
        state: state.as_slice(),
        inputs,
        number: step,
        from,
        to: from + tick.0,
    };
    step_outputs(alloc, &view, ports, plan.ports.as_slice(), outputs)
}

/// What the rules of an application put out in a step, as `outputs_by` answers it, and the state after the step. Where
/// memory is wanting the state stays as it was.
///
/// It makes the plan anew. Whoever runs many steps keeps the plan, and calls `outputs_by` and `move_on`.
pub fn turn(
    alloc: Global,
    rules: &[Rule],
    ports: &[PortDecl],
    start: Nanos,
    tick: Nanos,
    state: &mut ScriptState,
    step: u64,
    inputs: &[Items<Item>],
) -> Result<Items<Items<Item>>, NoMemory>
    requires can { CanTurn ports.now tick rules.now }
    requires inputs { AreInputs ports.now inputs.now }
    requires start { start ≤ 10 ^ 15 }
    requires tick { tick ≤ 10 ^ 12 }
    requires step { step < 10 ^ 6 }
    requires state { length state.old ≡ length (opening rules.now) }
    ensures outputs { IfOk result (λ outputs. outputs ≡ turn rules.now state.old (record { ports = ports.now; start = start; tick = tick; step = step; inputs = inputs.now })) }
    ensures state { OnOk result (state.new ≡ next_state rules.now (record { ports = ports.now; start = start; tick = tick; step = step; inputs = inputs.now })) }
    ensures err { OnErr result (state.new ≡ state.old) }
{
    let plan = TurnPlan::of(alloc, ports, rules)?;
    let outputs = outputs_by(alloc, &plan, rules, ports, start, tick, state, step, inputs)?;
    state.move_on(&plan, rules, inputs);
    Ok(outputs)
}
