//! Heights where every cycle is covered, so that no walk has to be kept for a cycle.
ghost use Rattle.std.specs.Prelude.{◌≡◌, ◌<◌, List, ℕ, length, All, slice_index, slice_index_or};
ghost use Rattle.std.specs.Bool.{OnTrue, OnFalse};
ghost use Rattle.scene_model.specs.declared.wait.Wait.{Wait};
ghost use Rattle.tick_plan.specs.Heights.{HaveWalks, IsRelaxed, IsRising, gap_of};

use crate::rising::raised_height;
use scene_model::Wait;

/// Raises the waiter of the wait at this place as high as the wait does, and says whether it lay lower.
fn raise(applications: u32, waits: &[Wait], at: usize, heights: &mut [u128]) -> bool
    ghost starts: { List ℕ }
    requires at { at < length waits.now }
    requires rising { IsRising applications waits.now (slice_index starts) heights.old }
    ensures walks { HaveWalks applications waits.now (slice_index starts) heights.new }
    ensures relaxed { OnFalse result ((d : Wait) → IsRelaxed applications heights.old (slice_index_or waits.now at d)) }
    ensures same { OnFalse result (heights.new ≡ heights.old) }
    ensures raised { OnTrue result (gap_of heights.new < gap_of heights.old) }
{
    let wait = waits[at];
    match raised_height(applications, &wait, heights) {
        None => false,
        Some(height) => {
            heights[wait.waiter.0 as usize] = height;
            true
        }
    }
}

/// Raises the waiter of each wait once, and says whether any lay lower.
fn raise_each(applications: u32, waits: &[Wait], heights: &mut [u128]) -> bool
    ghost starts: { List ℕ }
    requires { IsRising applications waits.now (slice_index starts) heights.old }
    ensures walks { HaveWalks applications waits.now (slice_index starts) heights.new }
    ensures relaxed { OnFalse result (All (IsRelaxed applications heights.new) waits.now) }
    ensures raised { OnTrue result (gap_of heights.new < gap_of heights.old) }
{
    let mut raised = false;
    for at in 0..waits.len() {
        let more = raise(applications, waits, at, heights);
        raised |= more;
    }
    raised
}

/// Raises applications until no wait raises its waiter.
pub(crate) fn raise_all(applications: u32, waits: &[Wait], heights: &mut [u128])
    ghost starts: { List ℕ }
    requires { IsRising applications waits.now (slice_index starts) heights.old }
    ensures walks { HaveWalks applications waits.now (slice_index starts) heights.new }
    ensures relaxed { All (IsRelaxed applications heights.new) waits.now }
{
    while raise_each(applications, waits, heights) {}
}
