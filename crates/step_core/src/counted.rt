//! A run by one worker whose log is counted and not written.
ghost use Rattle.std.specs.Prelude.{◌≡◌, List, IfOk, OnOk, length};
ghost use Rattle.scene_model.specs.Faults.{IsFaultless};
ghost use Rattle.scene_model.specs.Lives.{history};
ghost use Rattle.scene_model.specs.Logs.{log_of, rows};
ghost use Rattle.scene_model.specs.declared.row.Row.{Row};
ghost use Rattle.run_logs.specs.QuickLines.{AreOfScene};
ghost use Rattle.tick_plan.specs.Plans.{PlanFits};
ghost use Rattle.step_core.specs.Cores.{BeginsLog, Released};
ghost use Rattle.step_core.specs.Running.{IsRunning, IsSizeOut};

use crate::scene_core::Core;
use crate::schedule::Schedule;
use crate::to_sink::is_due;
use music_base::NoMemory;
use run_logs::{LogCounter, LogSize, header_size};
use scene_model::Scene;
use std::alloc::Global;
use tick_plan::Plan;

/// Releases the rows that none can come before any more, and counts them.
fn count_released(
    alloc: Global,
    scene: &Scene,
    core: &mut Core,
    log: &mut LogCounter,
    size: LogSize,
) -> Result<LogSize, NoMemory>
    requires faultless { IsFaultless scene.now }
    requires same { core.old.scene ≡ scene.now }
    requires begins { BeginsLog core.old }
    requires started { AreOfScene scene.now log.old }
    requires counted { IsSizeOut core.old size }
    ensures log { log.new ≡ log.old }
    ensures released { OnOk result ((handed : List Row) × Released core.old handed core.new) }
    ensures counted { IfOk result (λ more. IsSizeOut core.new more) }
{
    let rows = core.release(alloc)?;
    log.count(alloc, scene, rows.as_slice(), size)
}

/// Has applications act in turn until none can, and counts rows whenever many are held.
fn drive(
    alloc: Global,
    scene: &Scene,
    core: &mut Core,
    schedule: &mut Schedule,
    log: &mut LogCounter,
    begun: LogSize,
) -> Result<LogSize, NoMemory>
    requires faultless { IsFaultless scene.now }
    requires running { IsRunning scene.now core.old.limits core.old }
    requires started { AreOfScene scene.now log.old }
    requires counted { IsSizeOut core.old begun }
    ensures rows { IfOk result (λ size. size.rows ≡ length (rows scene.now (history scene.now))) }
    ensures bytes { IfOk result (λ size. size.bytes ≡ length (log_of scene.now)) }
{
    let mut size = begun;
    while schedule.take_turn(alloc, core)? {
        if is_due(core) {
            size = count_released(alloc, scene, core, log, size)?;
        }
    }
    count_released(alloc, scene, core, log, size)
}

/// Drives all applications of a scene to their ends, under the limits of a plan, and counts the rows and the bytes of its
/// log. The memory that it takes does not grow with the log.
///
/// The scene has no fault, and the plan fits it. A log whose rows or bytes 64 bits can't count is want of memory.
pub fn run_counted(alloc: Global, scene: &Scene, plan: &Plan) -> Result<LogSize, NoMemory>
    requires faultless { IsFaultless scene.now }
    requires fits { PlanFits scene.now plan.now }
    ensures rows { IfOk result (λ size. size.rows ≡ length (rows scene.now (history scene.now))) }
    ensures bytes { IfOk result (λ size. size.bytes ≡ length (log_of scene.now)) }
{
    let mut core = Core::start(alloc, scene, plan)?;
    let mut schedule = Schedule::make(alloc, scene)?;
    let mut log = LogCounter::make(alloc, scene)?;
    drive(
        alloc,
        scene,
        &mut core,
        &mut schedule,
        &mut log,
        header_size(),
    )
}
