ghost use Rattle.std.specs.Prelude.{◌≡◌, ◌≤◌, ◌↔◌, length, All, IfOk, IsTrue};
ghost use Rattle.std.specs.Int.{IsInRange};
ghost use Rattle.scene_model.specs.Cover.{IsWithin, Passes};
ghost use Rattle.scene_model.specs.Faults.{IsFaultless};
ghost use Rattle.scene_model.specs.Limits.{most_apps};
ghost use Rattle.scene_model.specs.Waits.{greatest_limit};
ghost use Rattle.tick_plan.specs.Plans.{HasRanges, PlanFits, IsPotential};

use crate::covering::given;
use crate::plan::Plan;
use crate::rising::rise;
use latency_graph::{GREATEST_LIMIT, waits};
use music_base::NoMemory;
use scene_model::{Scene, Wait};
use std::alloc::Global;

/// How far a potential lies from zero at most.
const GREATEST_POTENTIAL: u128 = 1_000_000_000_000_000_000_000_000;

/// Whether each limit is from 1 to the greatest.
fn are_limits(limits: &[u64]) -> bool
    ensures { IsTrue result ↔ All (IsInRange 1 greatest_limit) limits.now }
{
    limits.iter().all(|&m| 1 <= m && m <= GREATEST_LIMIT)
}

/// Whether each number is at most the greatest potential away from zero.
fn are_potentials(numbers: &[i128]) -> bool
    ensures { IsTrue result ↔ All IsPotential numbers.now }
{
    numbers
        .iter()
        .all(|p| p.unsigned_abs() <= GREATEST_POTENTIAL)
}

/// Whether the plan has a limit of each connection and a potential of each application, in their ranges.
fn has_ranges(scene: &Scene, plan: &Plan) -> bool
    ensures { IsTrue result ↔ HasRanges scene.now plan.now }
{
    if plan.stated.len() != scene.links.len() {
        return false;
    }
    if plan.limits.len() != scene.links.len() {
        return false;
    }
    if plan.potentials.len() != scene.apps.len() {
        return false;
    }
    if !are_limits(&plan.limits) {
        return false;
    }
    are_potentials(&plan.potentials)
}

/// Whether the wait passes the test of these potentials.
fn passes(potentials: &[i128], wait: &Wait) -> bool
    requires few { length potentials.now ≤ most_apps }
    requires within { IsWithin (length potentials.now) wait.now }
    requires potentials { All IsPotential potentials.now }
    ensures { IsTrue result ↔ Passes (length potentials.now) potentials.now wait.now }
{
    let higher = potentials[wait.waiter.0 as usize] - potentials[wait.awaited.0 as usize];
    rise(potentials.len() as u32, wait) <= higher
}

/// Whether each wait passes it.
fn all_pass(potentials: &[i128], waits: &[Wait]) -> bool
    requires few { length potentials.now ≤ most_apps }
    requires within { All (IsWithin (length potentials.now)) waits.now }
    requires potentials { All IsPotential potentials.now }
    ensures { IsTrue result ↔ All (Passes (length potentials.now) potentials.now) waits.now }
{
    for wait in waits {
        if !passes(potentials, wait) {
            return false;
        }
    }
    true
}

/// Whether the plan has one limit and one mark for each connection of the scene and one potential for each application,
/// each limit from 1 to 10^17 and each potential within 10^24 of zero, and every wait under these limits passes the test of
/// potentials. The scene has no fault.
pub fn plan_fits(alloc: Global, scene: &Scene, plan: &Plan) -> Result<bool, NoMemory>
    requires { IsFaultless scene.now }
    ensures { IfOk result (λ fits. IsTrue fits ↔ PlanFits scene.now plan.now) }
{
    if !has_ranges(scene, plan) {
        return Ok(false);
    }
    let given = given(alloc, &plan.limits)?;
    let waits = waits(alloc, scene, &given)?;
    Ok(all_pass(&plan.potentials, &waits))
}
