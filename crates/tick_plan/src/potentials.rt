ghost use Rattle.std.specs.Prelude.{◌≡◌, ◌≤◌, length, All, IfOk, IfErr};
ghost use Rattle.scene_model.specs.Cover.{IsWithin, Passes, AllCovered};
ghost use Rattle.scene_model.specs.Limits.{most_apps};
ghost use Rattle.tick_plan.specs.Faults.{ReportsUncovered};
ghost use Rattle.tick_plan.specs.Plans.{IsPotential};

use crate::fault::NegotiateFault;
use crate::heights::{no_heights, signed};
use crate::raising::raise_all;
use crate::relaxing::relax_all;
use crate::search::start;
use music_base::NoMemory;
use scene_model::Wait;
use std::alloc::Global;

/// One potential per application with which each wait passes its test, or a cycle of the waits that is not covered.
pub(crate) fn cover_waits(
    alloc: Global,
    applications: u32,
    waits: &[Wait],
) -> Result<Vec<i128>, NegotiateFault>
    requires few { applications ≤ most_apps }
    requires within { All (IsWithin applications) waits.now }
    ensures counted { IfOk result (λ p. length p.items ≡ applications) }
    ensures near { IfOk result (λ p. All IsPotential p.items) }
    ensures passed { IfOk result (λ p. All (Passes applications p.items) waits.now) }
    ensures covered { IfOk result (λ _. AllCovered waits.now) }
    ensures uncovered { IfErr result (ReportsUncovered waits.now) }
{
    let mut search = start(alloc, applications)?;
    relax_all(alloc, applications, waits, &mut search)?;
    Ok(signed(alloc, &search.heights)?)
}

/// One potential per application with which each wait passes its test, where every cycle of the waits is covered.
pub(crate) fn potentials(
    alloc: Global,
    applications: u32,
    waits: &[Wait],
) -> Result<Vec<i128>, NoMemory>
    requires few { applications ≤ most_apps }
    requires within { All (IsWithin applications) waits.now }
    requires covered { AllCovered waits.now }
    ensures counted { IfOk result (λ p. length p.items ≡ applications) }
    ensures near { IfOk result (λ p. All IsPotential p.items) }
    ensures passed { IfOk result (λ p. All (Passes applications p.items) waits.now) }
{
    let mut heights = no_heights(alloc, applications)?;
    raise_all(applications, waits, &mut heights);
    signed(alloc, &heights)
}
