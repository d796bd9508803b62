//! Handing out the rows of the steps that are past.
ghost use Rattle.std.specs.Prelude.{◌≡◌, ◌<◌, ◌^◌, ◌-◌, ℕ, IfOk, MatchResult, length, slice_index};
ghost use Rattle.scene_model.specs.Faults.{IsFaultless};
ghost use Rattle.step_core.specs.Cores.{Released, rows_so_far};
ghost use Rattle.step_core.specs.Releasing.{IsLeast, IsNextClock, steps_before};

use crate::scene_core::Core;
use app_turn::AppMachine;
use music_base::{AppId, Items, Nanos, NoMemory, steps_of};
use scene_model::{Row, Scene};
use std::alloc::Global;

// A clock above all clocks.
const NEVER: Nanos = Nanos(u64::MAX);

/// The least clock of a step that is left, in ns, or `NEVER` where none is.
fn next_clock(machines: &[AppMachine]) -> Nanos
    ensures { IsNextClock machines.now (2 ^ 64 - 1) result }
{
    let mut least = NEVER;
    for machine in machines {
        if machine.has_step() {
            least = Nanos(least.0.min(machine.clock().0));
        }
    }
    least
}

/// How many steps of the application have a clock below this one.
fn steps_before(scene: &Scene, app: AppId, least: Nanos) -> u64
    requires faultless { IsFaultless scene.now }
    requires app { app < length scene.now.apps }
    ensures { result ≡ steps_before scene.now least app }
{
    let decl = scene.app(app);
    let end = decl.stop.0.min(least.0);
    steps_of(Nanos(end.saturating_sub(decl.start.0)), decl.tick)
}

/// Writes down for each application how many of its steps have a clock below this one.
fn count_before(scene: &Scene, least: Nanos, counts: &mut [u64])
    requires faultless { IsFaultless scene.now }
    requires counted { length counts.old ≡ length scene.now.apps }
    ensures counted { length counts.new ≡ length counts.old }
    ensures each { (a : ℕ) → a < length counts.old → slice_index counts.new a ≡ steps_before scene.now least a }
{
    for app in 0..counts.len() {
        counts[app] = steps_before(scene, AppId(app as u32), least);
    }
}

impl Core {
    /// The rows of all steps that are past and were not handed out, in the order of the log. A step is past where its clock
    /// is below that of each step that is left, so that no row is still to come before its rows: at the end all are.
    ///
    /// What one call answers stands in the log just behind what the calls before it did. Where memory is wanting the core
    /// is as it was.
    pub fn release(&mut self, alloc: Global) -> Result<Items<Row>, NoMemory>
        ensures { MatchResult result (λ rows. Released self.old rows self.new) (λ _. self.new ≡ self.old) }
    {
        let least = next_clock(&self.machines);
        let rows = self.rows.release(alloc, least)?;
        count_before(&self.scene, least, &mut self.released);
        Ok(rows)
    }

    /// The rows of all steps that were run and were not handed out, in the order of the log.
    pub fn into_rows(self, alloc: Global) -> Result<Items<Row>, NoMemory>
        ensures { IfOk result (λ rows. rows ≡ rows_so_far self) }
    {
        let mut rows = self.rows;
        rows.release(alloc, NEVER)
    }
}
