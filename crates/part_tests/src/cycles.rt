//! Which cycles of waits are not covered. The cycles are those of small scenes, with the numbers that their ticks and
//! latencies give. Times are in ns.
ghost use Rattle.std.specs.Prelude.{◌≤◌, length, All};
ghost use Rattle.scene_model.specs.Cover.{IsBounded, most_waits};

use cycle_check::{Cycle, is_uncovered};
use music_base::{AppId, LinkId};
use scene_model::{Wait, WaitKind};
use std::alloc::{AllocError, Global};

fn wait(waiter: u32, awaited: u32, link: u32, kind: WaitKind, allowance: u64, burden: u64) -> Wait
    ensures { IsBounded result }
{
    Wait {
        waiter: AppId(waiter),
        awaited: AppId(awaited),
        link: LinkId(link),
        kind,
        allowance: i128::from(allowance),
        burden: i128::from(burden),
    }
}

/// Application 0 waits for a block of application 1, and application 1 for one of application 0, over a connection whose
/// input alone has a latency.
fn each_other(allowance: u64, burdens: (u64, u64)) -> [Wait; 2]
    ensures { All IsBounded result }
{
    [
        wait(0, 1, 1, WaitKind::ForBlock, allowance, burdens.0),
        wait(1, 0, 0, WaitKind::ForBlock, 0, burdens.1),
    ]
}

fn judged(alloc: Global, waits: &[Wait], cycle: &[Wait]) -> Result<bool, AllocError>
    requires bounded { All IsBounded cycle.now }
    requires short { length cycle.now ≤ most_waits }
{
    let cycle = Cycle(Vec::from_slice(alloc, cycle)?);
    Ok(is_uncovered(waits, &cycle))
}

#[test]
fn two_that_wait_at_once_are_not_covered(rt: HostRuntime) {
    let cycle = each_other(0, (0, 0));
    assert!(rt; judged(rt.alloc(), &cycle, &cycle) == Ok(true));
}

#[test]
fn a_latency_of_a_tick_covers(rt: HostRuntime) {
    let cycle = each_other(1_000_000, (0, 0));
    assert!(rt; judged(rt.alloc(), &cycle, &cycle) == Ok(false));
}

#[test]
fn an_allowance_has_to_be_more_than_the_burdens(rt: HostRuntime) {
    let cycle = each_other(3_000_000, (1_000_000, 2_000_000));
    assert!(rt; judged(rt.alloc(), &cycle, &cycle) == Ok(true));
    let covered = each_other(4_000_000, (1_000_000, 2_000_000));
    assert!(rt; judged(rt.alloc(), &covered, &covered) == Ok(false));
}

#[test]
fn an_application_can_wait_for_itself(rt: HostRuntime) {
    let own = [wait(0, 0, 0, WaitKind::ForBlock, 0, 0)];
    assert!(rt; judged(rt.alloc(), &own, &own) == Ok(true));
    let later = [wait(0, 0, 0, WaitKind::ForBlock, 1_000_000, 0)];
    assert!(rt; judged(rt.alloc(), &later, &later) == Ok(false));
}

#[test]
fn room_and_a_block_can_be_waited_for_at_once(rt: HostRuntime) {
    let cycle = [
        wait(0, 1, 1, WaitKind::ForRoom, 0, 0),
        wait(1, 0, 0, WaitKind::ForBlock, 0, 0),
    ];
    assert!(rt; judged(rt.alloc(), &cycle, &cycle) == Ok(true));
}

#[test]
fn other_waits_are_no_cycle_of_these(rt: HostRuntime) {
    let cycle = each_other(0, (0, 0));
    assert!(rt; judged(rt.alloc(), &cycle[..1], &cycle) == Ok(false));
    assert!(rt; judged(rt.alloc(), &cycle, &cycle[..1]) == Ok(false));
    assert!(rt; judged(rt.alloc(), &cycle, &cycle[..0]) == Ok(false));
}
