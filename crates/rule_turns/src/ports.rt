//! What a port puts out, by the uses of a plan.
ghost use Rattle.std.specs.Prelude.{◌≡◌, ◌<◌, ◌++◌, true, ℕ, List, [], OnOk, IfOk, length, slice_index_or};
ghost use Rattle.std.specs.List.{flat_map, AllByRecursion};
ghost use Rattle.index_maps.specs.Maps.{indices};
ghost use Rattle.scene_model.specs.Ports.{has_indices};
ghost use Rattle.scene_model.specs.Scenes.{no_port};
ghost use Rattle.music_base.specs.Items.{AreValues};
ghost use Rattle.rule_turns.specs.Turning.{
  AreAscending,
  IsPlaced,
  IsPlanned,
  IsStep,
  by_plan,
  no_uses,
  overlaid,
  overlay,
  port_gives,
  seen,
  use_emits,
  use_gives,
  zeros,
};

use crate::emission::emit;
use crate::step::{StepView, items_at, was_over};
use crate::values::give;
use crate::{PortUses, RuleUse};
use index_maps::PortMap;
use music_base::{Item, Items, NoMemory, Sample};
use scene_model::{Direction, PortDecl, PortKind};
use std::alloc::Global;

fn emit_use(
    alloc: Global,
    items: &mut Items<Item>,
    step: &StepView<'_>,
    output: &PortMap,
    part: RuleUse,
) -> Result<(), NoMemory>
    requires step { IsStep (seen step.now) }
    requires mapped { has_indices output.now ≡ true }
    requires placed { IsPlaced step.now.rules.now step.now.inputs.now [] part }
    ensures { OnOk result (items.new ≡ items.old ++ use_emits (seen step.now) output.now part) }
{
    match step.rules.get(part.rule) {
        Some(rule) => {
            let was_over = was_over(step.state, part.state);
            let read = items_at(step.inputs, part.input);
            emit(
                alloc, items, rule, was_over, read, part.place, output, step.from, step.to,
            )
        }
        None => Ok(()),
    }
}

/// How many events or messages came to the input at a place.
fn arrivals_at(inputs: &[Items<Item>], place: usize) -> usize {
    let items = items_at(inputs, place);
    match items.first() {
        Some(Item::Event(_) | Item::Message(_)) => items.len(),
        _ => 0,
    }
}

/// How many items uses are likely to emit: one for each arrival that they read, and one more. So room is asked for once, and
/// none where nothing came. Nothing rests on it.
fn likely_count(inputs: &[Items<Item>], uses: &[RuleUse]) -> usize {
    let mut count = 0usize;
    for part in uses {
        count = count.saturating_add(arrivals_at(inputs, part.input));
    }
    if count == 0 {
        0
    } else {
        count.saturating_add(1)
    }
}

/// The items of an event or message output.
fn emitted_items(
    alloc: Global,
    step: &StepView<'_>,
    output: &PortMap,
    uses: &[RuleUse],
) -> Result<Items<Item>, NoMemory>
    requires step { IsStep (seen step.now) }
    requires mapped { has_indices output.now ≡ true }
    requires placed { AllByRecursion (IsPlaced step.now.rules.now step.now.inputs.now []) uses.now }
    ensures { IfOk result (λ items. items ≡ flat_map (use_emits (seen step.now) output.now) uses.now) }
{
    let room = Vec::with_capacity(alloc, likely_count(step.inputs, uses))?;
    let mut items = Items::from_vec(room);
    for part in uses {
        emit_use(alloc, &mut items, step, output, *part)?;
    }
    Ok(items)
}

fn give_use(items: &mut [Item], step: &StepView<'_>, part: RuleUse)
    requires step { IsStep (seen step.now) }
    requires ascend { AreAscending 0 items.old }
    requires placed { (gs : List ℕ) × AreValues gs items.old × IsPlaced step.now.rules.now step.now.inputs.now gs part }
    ensures { items.new ≡ overlay (use_gives (seen step.now) part) items.old }
{
    if let Some(rule) = step.rules.get(part.rule) {
        let block = items_at(step.inputs, part.input);
        give(items, rule, part.place, block, step.number);
    }
}

/// What the uses give, one after another.
fn give_uses(items: &mut [Item], step: &StepView<'_>, uses: &[RuleUse])
    requires step { IsStep (seen step.now) }
    requires ascend { AreAscending 0 items.old }
    requires placed { (gs : List ℕ) × AreValues gs items.old × AllByRecursion (IsPlaced step.now.rules.now step.now.inputs.now gs) uses.now }
    ensures { items.new ≡ overlaid (seen step.now) uses.now items.old }
{
    for part in uses {
        give_use(items, step, *part);
    }
}

fn zeros(alloc: Global, indices: &[u32]) -> Result<Vec<Item>, NoMemory>
    ensures { IfOk result (λ items. items.items ≡ zeros indices.now) }
{
    let mut items = Vec::with_capacity(alloc, indices.len())?;
    for global in indices {
        items.push(Item::Value {
            global: *global,
            value: Sample(0),
        })?;
    }
    Ok(items)
}

/// The items of a continuous output: a value for each index.
fn given_values(
    alloc: Global,
    step: &StepView<'_>,
    output: &PortMap,
    written: &[u32],
    uses: &[RuleUse],
) -> Result<Items<Item>, NoMemory>
    requires step { IsStep (seen step.now) }
    requires indices { written.now ≡ indices output.now }
    requires placed { AllByRecursion (IsPlaced step.now.rules.now step.now.inputs.now written.now) uses.now }
    ensures { IfOk result (λ items. items ≡ overlaid (seen step.now) uses.now (zeros written.now)) }
{
    let mut items = zeros(alloc, written)?;
    give_uses(&mut items, step, uses);
    Ok(Items::from_vec(items))
}

fn port_items(
    alloc: Global,
    step: &StepView<'_>,
    port: &PortDecl,
    uses: &PortUses,
) -> Result<Items<Item>, NoMemory>
    requires step { IsStep (seen step.now) }
    requires planned { IsPlanned step.now.rules.now step.now.inputs.now port.now uses.now }
    ensures { IfOk result (λ items. items ≡ port_gives (seen step.now) port.now.direction port.now.kind port.now.map uses.now) }
{
    let indices = uses.indices.as_slice();
    let uses = uses.uses.as_slice();
    match (port.direction, port.kind) {
        (Direction::Input, _) => Ok(Items::new(alloc)),
        (Direction::Output, PortKind::Values) => {
            given_values(alloc, step, &port.map, indices, uses)
        }
        (Direction::Output, PortKind::Events | PortKind::Messages) => {
            emitted_items(alloc, step, &port.map, uses)
        }
    }
}

/// Fills a list with the items of all ports.
pub fn step_outputs(
    alloc: Global,
    step: &StepView<'_>,
    ports: &[PortDecl],
    plans: &[PortUses],
    outputs: &mut Vec<Items<Item>>,
) -> Result<(), NoMemory>
    requires step { IsStep (seen step.now) }
    requires each { length plans.now ≡ length ports.now }
    requires planned { (p : ℕ) → p < length ports.now → IsPlanned step.now.rules.now step.now.inputs.now (slice_index_or ports.now p no_port) (slice_index_or plans.now p no_uses) }
    ensures { OnOk result (outputs.new.items ≡ by_plan (seen step.now) ports.now plans.now) }
{
    outputs.clear();
    for p in 0..ports.len() {
        outputs.push(port_items(alloc, step, &ports[p], &plans[p])?)?;
    }
    Ok(())
}
