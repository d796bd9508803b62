ghost use Rattle.std.specs.Prelude.{◌≡◌, ◌≢◌, ℕ, ◌<◌, ◌≤◌, ◌∷◌, ◌++◌, drop, take, length, All, IfOk, IfSome, IfNone, slice_index_or};
ghost use Rattle.scene_model.specs.Cover.{IsCycle};
ghost use Rattle.scene_model.specs.declared.wait.Wait.{Wait};

use music_base::{AppId, NoMemory};
use scene_model::Wait;
use std::alloc::Global;

/// The wait, and then the walk.
pub(crate) fn joined(alloc: Global, first: Wait, walk: &[Wait]) -> Result<Vec<Wait>, NoMemory>
    ensures { IfOk result (λ whole. whole.items ≡ first ∷ walk.now) }
{
    let mut whole = Vec::new(alloc);
    whole.push(first)?;
    whole.extend_from_slice(walk)?;
    Ok(whole)
}

/// The first place of a wait that awaits the application.
pub(crate) fn place_awaited(walk: &[Wait], app: AppId) -> Option<usize>
    ensures within { IfSome result (λ k. k < length walk.now) }
    ensures found { IfSome result (λ k. (d : Wait) → (slice_index_or walk.now k d).awaited ≡ app) }
    ensures first { IfSome result (λ k. All (λ w. w.awaited ≢ app) (take k walk.now)) }
    ensures none { IfNone result (All (λ w. w.awaited ≢ app) walk.now) }
{
    walk.iter().position(|w| w.awaited == app)
}

/// A place of the waiter that has the least place in the scene.
fn least_place(cycle: &[Wait]) -> usize
    requires { 0 < length cycle.now }
    ensures within { result < length cycle.now }
    ensures least { (d : Wait) → All (λ w. (slice_index_or cycle.now result d).waiter ≤ w.waiter) cycle.now }
{
    let mut best = 0;
    for i in 1..cycle.len() {
        let waiter = cycle[i].waiter;
        let least = cycle[best].waiter;
        if waiter.0 < least.0 {
            best = i;
        }
    }
    best
}

/// The cycle from its least waiter on.
pub(crate) fn from_least(mut cycle: Vec<Wait>) -> Vec<Wait>
    requires { IsCycle cycle.items }
    ensures { (k : ℕ) × (k < length cycle.items) × ((d : Wait) → All (λ w. (slice_index_or cycle.items k d).waiter ≤ w.waiter) cycle.items) × (result.items ≡ drop k cycle.items ++ take k cycle.items) }
{
    let place = least_place(&cycle);
    cycle.rotate_left(place);
    cycle
}
