ghost use Rattle.std.specs.Prelude.{◌≡◌, length, map, Some, All, IfOk, IfErr};
ghost use Rattle.scene_model.specs.Cover.{AllCovered, Passes};
ghost use Rattle.scene_model.specs.Faults.{IsFaultless};
ghost use Rattle.scene_model.specs.Waits.{IsLawfulLimit, waits};
ghost use Rattle.tick_plan.specs.Faults.{ReportsUncovered};
ghost use Rattle.tick_plan.specs.Plans.{IsPotential};

use crate::fault::NegotiateFault;
use crate::potentials::cover_waits;
use latency_graph::waits;
use music_base::NoMemory;
use scene_model::Scene;
use std::alloc::Global;

/// Potentials with which every wait of the scene under these limits passes its test, one for each application and each
/// within 10^24 of zero, or a cycle of these waits that is not covered.
///
/// The scene has no fault. There is one limit for each connection, from 1 to 10^17, or none.
pub fn cover(
    alloc: Global,
    scene: &Scene,
    limits: &[Option<u64>],
) -> Result<Vec<i128>, NegotiateFault>
    requires scene { IsFaultless scene.now }
    requires counted { length limits.now ≡ length scene.now.links }
    requires lawful { All IsLawfulLimit limits.now }
    ensures counted { IfOk result (λ p. length p.items ≡ length scene.now.apps) }
    ensures near { IfOk result (λ p. All IsPotential p.items) }
    ensures passed { IfOk result (λ p. All (Passes (length scene.now.apps) p.items) (waits scene.now limits.now)) }
    ensures covered { IfOk result (λ _. AllCovered (waits scene.now limits.now)) }
    ensures uncovered { IfErr result (ReportsUncovered (waits scene.now limits.now)) }
{
    let waits = waits(alloc, scene, limits)?;
    cover_waits(alloc, scene.apps.len() as u32, &waits)
}

/// Each of the limits as that of a connection that has one.
pub(crate) fn given(alloc: Global, limits: &[u64]) -> Result<Vec<Option<u64>>, NoMemory>
    ensures { IfOk result (λ given. given.items ≡ map (λ m. Some m) limits.now) }
{
    let mut given = Vec::new(alloc);
    for limit in limits {
        given.push(Some(*limit))?;
    }
    Ok(given)
}
