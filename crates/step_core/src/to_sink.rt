//! A run by one worker that writes the log as it goes.
ghost use Rattle.std.specs.Prelude.{◌≡◌, ◌≤◌, ℕ, List, Option, IfOk, OnOk, IsErrOf};
ghost use Rattle.music_base.specs.Causes.{Rose};
ghost use Rattle.music_base.specs.Outside.{Took, TookPrefix};
ghost use Rattle.scene_model.specs.Faults.{IsFaultless};
ghost use Rattle.scene_model.specs.Logs.{log_of};
ghost use Rattle.scene_model.specs.declared.row.Row.{Row};
ghost use Rattle.run_logs.specs.QuickLines.{AreOfScene};
ghost use Rattle.tick_plan.specs.Plans.{PlanFits};
ghost use Rattle.step_core.specs.Cores.{BeginsLog, Released};
ghost use Rattle.step_core.specs.Running.{HasRun, IsRunning, TookTurn, text_out};

use crate::scene_core::Core;
use crate::schedule::Schedule;
use music_base::Sink;
use run_logs::{LogWriter, WriteFault};
use scene_model::Scene;
use std::alloc::Global;
use tick_plan::Plan;

/// Rows are written once so many are held.
const ROWS_AT_ONCE: usize = 4096;

/// Whether rows are to be written.
pub(crate) fn is_due(core: &Core) -> bool {
    core.rows.row_count() >= ROWS_AT_ONCE
}

/// Releases the rows that none can come before any more, and writes their lines.
fn write_released<K: Sink>(
    alloc: Global,
    scene: &Scene,
    core: &mut Core,
    log: &mut LogWriter,
    sink: &mut K,
) -> Result<(), WriteFault>
    requires faultless { IsFaultless scene.now }
    requires same { core.old.scene ≡ scene.now }
    requires begins { BeginsLog core.old }
    requires started { AreOfScene scene.now log.old }
    ensures log { log.new ≡ log.old }
    ensures released { OnOk result ((handed : List Row) × Released core.old handed core.new) }
    ensures all { OnOk result ((before : Option (List ℕ)) → Took before (text_out core.old) (K.taken sink.old) → Took before (text_out core.new) (K.taken sink.new)) }
    ensures prefix { (before : Option (List ℕ)) → Took before (text_out core.old) (K.taken sink.old) → TookPrefix before (log_of scene.now) (K.taken sink.new) }
    ensures cause { IsErrOf result WriteFault.Sink → Rose (K.faults sink.old) (K.faults sink.new) }
    ensures memory { IsErrOf result WriteFault.Memory → K.faults sink.new ≡ K.faults sink.old }
    ensures stays { OnOk result (K.faults sink.new ≡ K.faults sink.old) }
    ensures never_falls { K.faults sink.old ≤ K.faults sink.new }
{
    let Ok(rows) = core.release(alloc) else {
        return Err(WriteFault::Memory);
    };
    log.write(alloc, scene, rows.as_slice(), sink)
}

/// A turn, where want of memory ends the writing of the log.
fn take_turn(alloc: Global, core: &mut Core, schedule: &mut Schedule) -> Result<bool, WriteFault>
    ensures turn { IfOk result (λ acted. TookTurn core.old acted core.new) }
    ensures memory { IsErrOf result WriteFault.Sink → ⊥ }
{
    match schedule.take_turn(alloc, core) {
        Ok(acted) => Ok(acted),
        Err(_) => Err(WriteFault::Memory),
    }
}

/// Has applications act in turn until none can, and writes rows whenever many are held.
fn drive<K: Sink>(
    alloc: Global,
    scene: &Scene,
    core: &mut Core,
    schedule: &mut Schedule,
    log: &mut LogWriter,
    sink: &mut K,
) -> Result<(), WriteFault>
    requires faultless { IsFaultless scene.now }
    requires running { IsRunning scene.now core.old.limits core.old }
    requires started { AreOfScene scene.now log.old }
    ensures run { OnOk result (HasRun scene.now core.old.limits core.new) }
    ensures all { (before : Option (List ℕ)) → Took before (text_out core.old) (K.taken sink.old) → OnOk result (Took before (log_of scene.now) (K.taken sink.new)) }
    ensures prefix { (before : Option (List ℕ)) → Took before (text_out core.old) (K.taken sink.old) → TookPrefix before (log_of scene.now) (K.taken sink.new) }
    ensures cause { IsErrOf result WriteFault.Sink → Rose (K.faults sink.old) (K.faults sink.new) }
    ensures memory { IsErrOf result WriteFault.Memory → K.faults sink.new ≡ K.faults sink.old }
    ensures stays { OnOk result (K.faults sink.new ≡ K.faults sink.old) }
    ensures never_falls { K.faults sink.old ≤ K.faults sink.new }
{
    while take_turn(alloc, core, schedule)? {
        if is_due(core) {
            write_released(alloc, scene, core, log, sink)?;
        }
    }
    write_released(alloc, scene, core, log, sink)
}

/// Drives all applications of a scene to their ends, under the limits of a plan, and writes the log of the scene as it
/// goes: as soon as many rows are held, those that none can come before. So the memory that it takes does not grow with the
/// log, though no clause says how much it is.
///
/// The scene has no fault, and the plan fits it. The sink takes exactly the log of the scene's history. Where the sink
/// fails, or memory gives out, it took a prefix of that, and nothing more is tried.
pub fn run_to_sink<K: Sink>(
    alloc: Global,
    scene: &Scene,
    plan: &Plan,
    sink: &mut K,
) -> Result<Core, WriteFault>
    requires faultless { IsFaultless scene.now }
    requires fits { PlanFits scene.now plan.now }
    ensures run { IfOk result (λ core. HasRun scene.now plan.now.limits.items core) }
    ensures all { OnOk result (Took (K.taken sink.old) (log_of scene.now) (K.taken sink.new)) }
    ensures prefix { TookPrefix (K.taken sink.old) (log_of scene.now) (K.taken sink.new) }
    ensures cause { IsErrOf result WriteFault.Sink → Rose (K.faults sink.old) (K.faults sink.new) }
    ensures memory { IsErrOf result WriteFault.Memory → K.faults sink.new ≡ K.faults sink.old }
    ensures stays { OnOk result (K.faults sink.new ≡ K.faults sink.old) }
    ensures never_falls { K.faults sink.old ≤ K.faults sink.new }
{
    let Ok(mut core) = Core::start(alloc, scene, plan) else {
        return Err(WriteFault::Memory);
    };
    let Ok(mut schedule) = Schedule::make(alloc, scene) else {
        return Err(WriteFault::Memory);
    };
    let mut log = LogWriter::start(alloc, scene, sink)?;
    drive(alloc, scene, &mut core, &mut schedule, &mut log, sink)?;
    Ok(core)
}
