//! One step: what it reads, its rows and its blocks.
ghost use Rattle.std.specs.Prelude.{◌≡◌, ◌<◌, ◌≤◌, ◌^◌, ℕ, [], OnOk, length, slice_index};
ghost use Rattle.scene_model.specs.Faults.{IsFaultless};
ghost use Rattle.scene_model.specs.Scenes.{app_at};
ghost use Rattle.scene_model.specs.Turns.{opening};
ghost use Rattle.rule_turns.specs.Plans.{turn_plan};
ghost use Rattle.app_turn.specs.PortInboxes.{IsPortInbox, IsSettled, WantedAt, inbox_at};
ghost use Rattle.app_turn.specs.Steps.{IsStep};

use crate::PortInbox;
use crate::blocks::fill_blocks;
use crate::reading::read_inputs;
use crate::step_rows::rows_of;
use music_base::{AppId, Block, Item, Items, LinkId, NoMemory};
use rule_turns::{ScriptState, TurnPlan, fill_outputs};
use scene_model::{Row, Scene};
use std::alloc::Global;

/// What a step makes: what its inputs read, its rows, what its outputs put out, and the blocks for the connections from the
/// application. A machine keeps it, so that the next step finds the memory of its lists.
#[derive(Debug, Drop)]
pub struct Step {
    pub inputs: Vec<Items<Item>>,
    pub rows: Items<Row>,
    pub outputs: Vec<Items<Item>>,
    pub blocks: Vec<Option<Block>>,
}

impl Step {
    /// A step that made nothing. It takes no memory.
    pub fn new(alloc: Global) -> Step
        ensures inputs { result.inputs.items ≡ [] }
        ensures rows { result.rows ≡ [] }
        ensures blocks { result.blocks.items ≡ [] }
    {
        Step {
            inputs: Vec::new(alloc),
            rows: Items::new(alloc),
            outputs: Vec::new(alloc),
            blocks: Vec::new(alloc),
        }
    }
}

/// All of a step that memory may be wanting for, made in the lists of an earlier step.
pub fn make_step(
    alloc: Global,
    scene: &Scene,
    app: AppId,
    step: u64,
    plan: &TurnPlan,
    most: &[u64],
    out: &[LinkId],
    state: &ScriptState,
    inboxes: &mut Vec<PortInbox>,
    made: &mut Step,
) -> Result<(), NoMemory>
    requires faultless { IsFaultless scene.now }
    requires app { app < length scene.now.apps }
    requires step { step < 1_000_000 }
    requires counted { length inboxes.old.items ≡ length (app_at scene.now app).ports }
    requires planned { plan.now ≡ turn_plan (app_at scene.now app).ports (app_at scene.now app).rules }
    requires truths { length state.now ≡ length (opening (app_at scene.now app).rules) }
    requires most { length most.now ≡ length scene.now.links }
    requires links { (i : ℕ) → i < length out.now → slice_index out.now i < length scene.now.links }
    requires here { (p : ℕ) → p < length inboxes.old.items → IsPortInbox scene.now app p step (inbox_at inboxes.old.items p) }
    requires wanted { (p : ℕ) → p < length inboxes.old.items → WantedAt scene.now app p step (inbox_at inboxes.old.items p) }
    ensures counted { length inboxes.new.items ≡ length inboxes.old.items }
    ensures settled { (p : ℕ) → p < length inboxes.old.items → IsSettled step (inbox_at inboxes.old.items p) (inbox_at inboxes.new.items p) }
    ensures made { OnOk result (IsStep scene.now app step most.now out.now state.now inboxes.old.items made.new) }
{
    read_inputs(alloc, scene, app, step, plan, inboxes, &mut made.inputs)?;
    made.rows = rows_of(alloc, scene, app, step, &made.inputs)?;
    let decl = scene.app(app);
    let (rules, ports) = (decl.rules.as_slice(), decl.ports.as_slice());
    fill_outputs(
        alloc,
        plan,
        rules,
        ports,
        decl.start,
        decl.tick,
        state,
        step,
        &made.inputs,
        &mut made.outputs,
    )?;
    fill_blocks(
        alloc,
        scene,
        step,
        most,
        &mut made.outputs,
        out,
        &mut made.blocks,
    )?;
    Ok(())
}
