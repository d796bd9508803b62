ghost use Rattle.std.specs.Prelude.{◌≡◌, length, map, All, IfOk, IfErr};
ghost use Rattle.std.specs.Option.{is_some};
ghost use Rattle.scene_model.specs.Cover.{AllCovered, IsWithin};
ghost use Rattle.scene_model.specs.Faults.{IsFaultless};
ghost use Rattle.scene_model.specs.Waits.{AreLimits, IsAccepted, IsLawfulLimit, stated_limits, waits};
ghost use Rattle.tick_plan.specs.Choices.{HasChosenBelow};
ghost use Rattle.tick_plan.specs.Faults.{ReportsUncovered};
ghost use Rattle.tick_plan.specs.Plans.{PlanFits};

use crate::choosing::limits_in_turn;
use crate::fault::NegotiateFault;
use crate::potentials::{cover_waits, potentials};
use latency_graph::{stated_limits, waits};
use music_base::NoMemory;
use scene_model::{Scene, Wait};
use std::alloc::Global;

/// How many blocks the connections of a scene keep, and numbers that show that its applications never all wait.
#[derive(Debug, Drop)]
pub struct Plan {
    /// For each connection how many blocks it keeps at most.
    pub limits: Vec<u64>,
    /// For each connection whether one of its ends states its limit.
    pub stated: Vec<bool>,
    /// A number for each application with which every wait under these limits passes the test of potentials.
    pub potentials: Vec<i128>,
}

/// Of each of these limits, whether there is one.
fn which_stated(alloc: Global, stated: &[Option<u64>]) -> Result<Vec<bool>, NoMemory>
    ensures { IfOk result (λ which. which.items ≡ map is_some stated.now) }
{
    Ok(stated.iter().map(|limit| limit.is_some()).collect(alloc)?)
}

/// The plan of a scene of which every cycle of waits under stated limits is covered. The waits that count are those at
/// first, and then also the waits for room under the limits that are chosen.
fn plan_in_turn(
    alloc: Global,
    scene: &Scene,
    stated: &[Option<u64>],
    counting: &mut Vec<Wait>,
) -> Result<Plan, NoMemory>
    requires scene { IsFaultless scene.now }
    requires stated { stated.now ≡ stated_limits scene.now }
    requires lawful { All IsLawfulLimit stated.now }
    requires counting { counting.old.items ≡ waits scene.now (stated_limits scene.now) }
    requires within { All (IsWithin (length scene.now.apps)) counting.old.items }
    requires covered { AllCovered counting.old.items }
    ensures limits { IfOk result (λ plan. AreLimits scene.now plan.limits.items) }
    ensures below { IfOk result (λ plan. HasChosenBelow scene.now plan.limits.items) }
    ensures stated { IfOk result (λ plan. plan.stated.items ≡ map is_some (stated_limits scene.now)) }
    ensures fits { IfOk result (PlanFits scene.now) }
{
    let limits = limits_in_turn(alloc, scene, stated, counting)?;
    let potentials = potentials(alloc, scene.apps.len() as u32, counting)?;
    let stated = which_stated(alloc, stated)?;
    Ok(Plan {
        limits,
        stated,
        potentials,
    })
}

/// The limits of a scene and potentials for them. A connection has its stated limit. The others get theirs in turn, each
/// the least of 1 or more with which every cycle is covered, of waits for a block, of waits for room under the limits that
/// are stated or already chosen, and of its own wait for room.
///
/// The scene has no fault. It is refused exactly where some cycle of its waits under stated limits is not covered, with
/// such a cycle, in which no application waits twice and the first waiter has the least place.
pub fn negotiate(alloc: Global, scene: &Scene) -> Result<Plan, NegotiateFault>
    requires { IsFaultless scene.now }
    ensures limits { IfOk result (λ plan. AreLimits scene.now plan.limits.items) }
    ensures below { IfOk result (λ plan. HasChosenBelow scene.now plan.limits.items) }
    ensures stated { IfOk result (λ plan. plan.stated.items ≡ map is_some (stated_limits scene.now)) }
    ensures fits { IfOk result (PlanFits scene.now) }
    ensures accepted { IfOk result (λ _. IsAccepted scene.now) }
    ensures uncovered { IfErr result (ReportsUncovered (waits scene.now (stated_limits scene.now))) }
{
    let stated = stated_limits(alloc, scene)?;
    let mut waits = waits(alloc, scene, &stated)?;
    cover_waits(alloc, scene.apps.len() as u32, &waits)?;
    Ok(plan_in_turn(alloc, scene, &stated, &mut waits)?)
}
