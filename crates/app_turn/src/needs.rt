//! How many blocks the next step needs.
ghost use Rattle.std.specs.Prelude.{◌≡◌, ◌<◌, ◌≤◌, ◌+◌, ◌*◌, ℕ, List, IfOk, length, map, nat_lt, pos, ◌-ℤ◌, slice_index};
ghost use Rattle.std.specs.List.{AllByRecursion};
ghost use Rattle.scene_model.specs.Clocks.{wanted};
ghost use Rattle.scene_model.specs.Faults.{IsFaultless};
ghost use Rattle.scene_model.specs.declared.scene.Scene.{Scene};
ghost use Rattle.app_turn.specs.Paces.{IsPace, pace_of, wanted_at};

use music_base::{LinkId, Nanos, NoMemory};
use scene_model::{Scene, allowance_of};
use std::alloc::Global;

/// What the blocks that a connection's receiver wants depend on, beside its step.
#[derive(Clone, Copy, Debug)]
pub struct Pace {
    pub link: LinkId,
    pub send_tick: Nanos,
    /// How much later than its sender's clock a block may come, in ns.
    pub allowance: i64,
    pub receive_tick: Nanos,
    /// How many steps the sender makes.
    pub sent: u64,
}

/// The pace of a connection.
fn pace_of(scene: &Scene, link: LinkId) -> Pace
    requires scene { IsFaultless scene.now }
    requires link { link < length scene.now.links }
    ensures { result ≡ pace_of scene.now link }
{
    let (sender, receiver) = (scene.sender_of(link), scene.receiver_of(link));
    let allowance = allowance_of(scene, link);
    Pace {
        link,
        send_tick: sender.tick,
        allowance: allowance as i64,
        receive_tick: receiver.tick,
        sent: sender.steps(),
    }
}

/// The paces of these connections.
pub fn paces_of(alloc: Global, scene: &Scene, links: &[LinkId]) -> Result<Vec<Pace>, NoMemory>
    requires scene { IsFaultless scene.now }
    requires links { (i : ℕ) → i < length links.now → slice_index links.now i < length scene.now.links }
    ensures { IfOk result (λ paces. paces.items ≡ map (pace_of scene.now) links.now) }
{
    let mut paces = Vec::with_capacity(alloc, links.len())?;
    for place in 0..links.len() {
        let link = links[place];
        paces.push(pace_of(scene, link))?;
    }
    Ok(paces)
}

/// The end of a step of the receiver without the allowance. The numbers of a pace are small enough that it fits 64 bits.
fn end_without(pace: &Pace, step: u64) -> i64
    requires pace { IsPace pace.now }
    requires step { step ≤ 1_000_000 }
    ensures { result ≡ pos ((step + 1) * pace.now.receive_tick) -ℤ pace.now.allowance }
{
    ((step + 1) * pace.receive_tick.0) as i64 - pace.allowance
}

/// How many of the first `sent` multiples of the tick stand before the end.
fn multiples_before(end: u64, tick: u64, sent: u64) -> u64
    requires { 1 ≤ tick }
    ensures within { result ≤ sent }
    ensures first { (k : ℕ) → k < sent → (nat_lt (k * tick) end ≡ nat_lt k result) }
{
    let before = end.div_ceil(tick);
    if before < sent { before } else { sent }
}

/// How many of a connection's blocks this step of the receiver wants.
fn wanted_at(pace: &Pace, step: u64) -> u64
    requires pace { IsPace pace.now }
    requires step { step ≤ 1_000_000 }
    ensures { result ≡ wanted_at pace.now step }
{
    let end = end_without(pace, step);
    let (tick, sent) = (pace.send_tick, pace.sent);
    multiples_before(end.max(0) as u64, tick.0, sent)
}

/// Writes down for each connection of these paces how many blocks the step wants.
pub fn need(paces: &[Pace], step: u64, needs: &mut Vec<u64>)
    requires paces { AllByRecursion IsPace paces.now }
    requires links { AllByRecursion (λ (pace : Pace). pace.link < length needs.old.items) paces.now }
    requires step { step ≤ 1_000_000 }
    ensures count { length needs.new.items ≡ length needs.old.items }
    ensures each { (scene : Scene) (into : List ℕ) → paces.now ≡ map (pace_of scene) into → (i : ℕ) → i < length into →
        slice_index needs.new.items (slice_index into i) ≡ wanted scene (slice_index into i) step }
{
    for pace in paces {
        let link = pace.link;
        needs[link.0 as usize] = wanted_at(pace, step);
    }
}
