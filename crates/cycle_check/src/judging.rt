//! Whether a cycle of waits is not covered.
ghost use Rattle.std.specs.Prelude.{◌≡◌, ◌≤◌, ◌↔◌, ℕ, length, All, Contains, IfNone, IfSome, IsTrue};
ghost use Rattle.scene_model.specs.Cover.{AreAmong, IsBounded, IsCycle, IsUncovered, IsWalk, most_waits};

use crate::Cycle;
use crate::sums::{allowances, burdens};
use music_base::AppId;
use scene_model::Wait;

/// Where waits lead from an application, or none where one of them does not go on from where the one before it ended.
fn end_of_walk(walk: &[Wait], from: AppId) -> Option<AppId>
    ensures some { IfSome result (λ end. IsWalk from walk.now end) }
    ensures none { IfNone result ((end : ℕ) → IsWalk from walk.now end → ⊥) }
{
    let mut at = from;
    for wait in walk {
        if wait.waiter != at {
            return None;
        }
        at = wait.awaited;
    }
    Some(at)
}

/// Whether there is a first wait, and the waits lead from its waiter back to it.
fn is_cycle(waits: &[Wait]) -> bool
    ensures { IsTrue result ↔ IsCycle waits.now }
{
    match waits {
        [] => false,
        [first, ..] => match end_of_walk(waits, first.waiter) {
            Some(end) => end == first.waiter,
            None => false,
        },
    }
}

fn is_among(all: &[Wait], wait: &Wait) -> bool
    ensures { IsTrue result ↔ Contains all.now wait.now }
{
    all.contains(wait)
}

fn are_among(all: &[Wait], waits: &[Wait]) -> bool
    ensures { IsTrue result ↔ AreAmong all.now waits.now }
{
    for wait in waits {
        if !is_among(all, wait) {
            return false;
        }
    }
    true
}

/// Whether a cycle of these waits is not covered: it is a cycle, each of its waits is one of these, and the sum of its
/// allowances is not above the sum of its burdens.
///
/// The cycle has at most 64 waits, and their allowances and burdens lie within 10^30 ns of zero. The waits that are given
/// may be any.
pub fn is_uncovered(waits: &[Wait], cycle: &Cycle) -> bool
    requires bounded { All IsBounded cycle.now.0.items }
    requires short { length cycle.now.0.items ≤ most_waits }
    ensures { IsTrue result ↔ IsUncovered waits.now cycle.now.0.items }
{
    let cycle = cycle.0.as_slice();
    if !is_cycle(cycle) {
        return false;
    }
    if !are_among(waits, cycle) {
        return false;
    }
    allowances(cycle) <= burdens(cycle)
}
