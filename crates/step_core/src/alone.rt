//! A run by one worker that answers its acts.
ghost use Rattle.std.specs.Prelude.{◌≡◌, ◌++◌, ◌∷◌, [], IfOk, OnOk};
ghost use Rattle.scene_model.specs.Faults.{IsFaultless};
ghost use Rattle.scene_model.specs.Lives.{history};
ghost use Rattle.scene_model.specs.Logs.{rows};
ghost use Rattle.tick_plan.specs.Plans.{PlanFits};
ghost use Rattle.step_core.specs.Cores.{IsAfter, IsDone, rows_so_far};

use crate::scene_core::Core;
use music_base::{Items, NoMemory};
use scene_model::{Act, Scene};
use std::alloc::Global;
use tick_plan::Plan;

fn push_act(acts: &mut Items<Act>, act: &Act) -> Result<(), NoMemory>
    ensures { OnOk result (acts.new ≡ acts.old ++ act.now ∷ []) }
{
    acts.push(*act)
}

/// Does acts until none is left, and appends each.
fn drive(
    alloc: Global,
    scene: &Scene,
    core: &mut Core,
    acts: &mut Items<Act>,
) -> Result<(), NoMemory>
    requires { IsAfter scene.now core.old.limits acts.old core.old }
    ensures done { OnOk result (IsDone scene.now core.old.limits acts.new core.new) }
    ensures kept { OnOk result (core.new.released ≡ core.old.released) }
{
    while let Some(act) = core.some_act() {
        push_act(acts, &act)?;
        core.act(alloc, act)?;
    }
    Ok(())
}

/// Drives all applications of a scene to their ends, under the limits of a plan, and answers the core and its acts in the
/// order in which they were done.
///
/// The scene has no fault, and the plan fits it. The acts are a lawful order that finishes every application; which of
/// these orders it is, is not fixed. The core holds all rows of the log, so this is for scenes of moderate size.
pub fn run_alone(alloc: Global, scene: &Scene, plan: &Plan) -> Result<(Core, Items<Act>), NoMemory>
    requires faultless { IsFaultless scene.now }
    requires fits { PlanFits scene.now plan.now }
    ensures done { IfOk result (λ run. IsDone scene.now plan.now.limits.items run.1 run.0) }
    ensures rows { IfOk result (λ run. rows_so_far run.0 ≡ rows scene.now (history scene.now)) }
{
    let mut core = Core::start(alloc, scene, plan)?;
    let mut acts = Items::new(alloc);
    drive(alloc, scene, &mut core, &mut acts)?;
    Ok((core, acts))
}
