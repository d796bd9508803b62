ghost use Rattle.std.specs.Prelude.{◌≡◌, ◌<◌, ◌≤◌, length, All, IfOk, IfErr, slice_index_or};
ghost use Rattle.std.specs.Bool.{OnTrue, OnFalse};
ghost use Rattle.scene_model.specs.Cover.{IsWithin};
ghost use Rattle.scene_model.specs.Limits.{most_apps};
ghost use Rattle.scene_model.specs.declared.wait.Wait.{Wait};
ghost use Rattle.tick_plan.specs.Faults.{ReportsUncovered};
ghost use Rattle.tick_plan.specs.Heights.{IsSearch, IsRelaxed, gap_of};

use crate::fault::NegotiateFault;
use crate::rising::raised_height;
use crate::search::Search;
use crate::turning::{from_least, joined, place_awaited};
use cycle_check::Cycle;
use scene_model::Wait;
use std::alloc::Global;

/// Relaxes a wait: where it raises its waiter, this gets the new height, by the wait and then the awaited one's walk.
/// Says whether it did. Where that walk comes to the waiter, what leads back to it is a cycle that is not covered.
fn relax(
    alloc: Global,
    applications: u32,
    waits: &[Wait],
    at: usize,
    search: &mut Search,
) -> Result<bool, NegotiateFault>
    requires few { applications ≤ most_apps }
    requires within { All (IsWithin applications) waits.now }
    requires at { at < length waits.now }
    requires search { IsSearch applications waits.now search.old }
    ensures search { IfOk result (λ _. IsSearch applications waits.now search.new) }
    ensures relaxed { IfOk result (λ raised. OnFalse raised ((d : Wait) → IsRelaxed applications search.old.heights.items (slice_index_or waits.now at d))) }
    ensures same { IfOk result (λ raised. OnFalse raised (search.new.heights.items ≡ search.old.heights.items)) }
    ensures raised { IfOk result (λ raised. OnTrue raised (gap_of search.new.heights.items < gap_of search.old.heights.items)) }
    ensures uncovered { IfErr result (ReportsUncovered waits.now) }
{
    let wait = waits[at];
    let waiter = wait.waiter.0 as usize;
    let awaited = wait.awaited.0 as usize;
    let Some(height) = raised_height(applications, &wait, &search.heights) else {
        return Ok(false);
    };
    let mut walk = joined(alloc, wait, &search.walks[awaited])?;
    if let Some(last) = place_awaited(&walk, wait.waiter) {
        walk.truncate(last + 1);
        return Err(NegotiateFault::Uncovered(Cycle(from_least(walk))));
    }
    search.heights[waiter] = height;
    search.walks[waiter] = walk;
    Ok(true)
}

/// Relaxes each wait once, and says whether any height was raised.
fn relax_each(
    alloc: Global,
    applications: u32,
    waits: &[Wait],
    search: &mut Search,
) -> Result<bool, NegotiateFault>
    requires few { applications ≤ most_apps }
    requires within { All (IsWithin applications) waits.now }
    requires search { IsSearch applications waits.now search.old }
    ensures search { IfOk result (λ _. IsSearch applications waits.now search.new) }
    ensures relaxed { IfOk result (λ raised. OnFalse raised (All (IsRelaxed applications search.new.heights.items) waits.now)) }
    ensures raised { IfOk result (λ raised. OnTrue raised (gap_of search.new.heights.items < gap_of search.old.heights.items)) }
    ensures uncovered { IfErr result (ReportsUncovered waits.now) }
{
    let mut raised = false;
    for at in 0..waits.len() {
        let more = relax(alloc, applications, waits, at, search)?;
        raised |= more;
    }
    Ok(raised)
}

/// Relaxes the waits, round after round, until none raises its waiter. A walk that is kept comes to no application twice,
/// so there are at most as many rounds as applications.
pub(crate) fn relax_all(
    alloc: Global,
    applications: u32,
    waits: &[Wait],
    search: &mut Search,
) -> Result<(), NegotiateFault>
    requires few { applications ≤ most_apps }
    requires within { All (IsWithin applications) waits.now }
    requires search { IsSearch applications waits.now search.old }
    ensures search { IfOk result (λ _. IsSearch applications waits.now search.new) }
    ensures relaxed { IfOk result (λ _. All (IsRelaxed applications search.new.heights.items) waits.now) }
    ensures uncovered { IfErr result (ReportsUncovered waits.now) }
{
    while relax_each(alloc, applications, waits, search)? {}
    Ok(())
}
