//! What a ledger has before the first act, and how many blocks the next steps need.
ghost use Rattle.std.specs.Prelude.{◌≡◌, ◌<◌, ◌≤◌, ℕ, IfOk, length, map, replicate, slice_index};
ghost use Rattle.music_base.specs.Numbers.{below};
ghost use Rattle.scene_model.specs.Clocks.{steps, wanted, wanted_blocks};
ghost use Rattle.scene_model.specs.Faults.{IsFaultless};

use music_base::{AppId, LinkId, NoMemory, wanted};
use scene_model::{Scene, allowance_of, wanted_blocks};
use std::alloc::Global;

/// How many of the connection's blocks this step of the receiver wants.
fn wanted_by(scene: &Scene, link: LinkId, step: u64) -> u64
    requires scene { IsFaultless scene.now }
    requires link { link < length scene.now.links }
    requires step { step ≤ 1_000_000 }
    ensures { result ≡ wanted scene.now link step }
{
    let (sender, receiver) = (scene.sender_of(link), scene.receiver_of(link));
    let sent = sender.steps();
    let allowance = allowance_of(scene, link);
    wanted(sender.tick, allowance, receiver.tick, sent, step)
}

/// Writes down for each of these connections how many blocks the step wants.
pub fn need(scene: &Scene, into: &[LinkId], step: u64, needs: &mut Vec<u64>)
    requires scene { IsFaultless scene.now }
    requires links { (i : ℕ) → i < length into.now → slice_index into.now i < length scene.now.links }
    requires step { step ≤ 1_000_000 }
    requires count { length needs.old.items ≡ length scene.now.links }
    ensures count { length needs.new.items ≡ length needs.old.items }
    ensures each { (i : ℕ) → i < length into.now → slice_index needs.new.items (slice_index into.now i) ≡ wanted scene.now (slice_index into.now i) step }
    ensures others { (c : ℕ) → ((i : ℕ) → i < length into.now → slice_index into.now i ≡ c → ⊥) → slice_index needs.new.items c ≡ slice_index needs.old.items c }
{
    for place in 0..into.len() {
        let link = into[place];
        needs[link.0 as usize] = wanted_by(scene, link, step);
    }
}

/// How many blocks of each connection the first step of its receiver wants.
pub fn first_needs(alloc: Global, scene: &Scene) -> Result<Vec<u64>, NoMemory>
    requires { IsFaultless scene.now }
    ensures { IfOk result (λ needs. needs.items ≡ map (λ c. wanted scene.now c 0) (below (length scene.now.links))) }
{
    let mut needs = Vec::new(alloc);
    for link in 0..scene.links.len() as u32 {
        needs.push(wanted_by(scene, LinkId(link), 0))?;
    }
    Ok(needs)
}

/// How many blocks of each connection are wanted.
pub fn most_wanted(alloc: Global, scene: &Scene) -> Result<Vec<u64>, NoMemory>
    requires { IsFaultless scene.now }
    ensures { IfOk result (λ most. most.items ≡ map (wanted_blocks scene.now) (below (length scene.now.links))) }
{
    let mut most = Vec::new(alloc);
    for link in 0..scene.links.len() as u32 {
        most.push(wanted_blocks(scene, LinkId(link)))?;
    }
    Ok(most)
}

/// How many steps each application runs.
#[tactic(auto, unfolding(scene_model::specs::Clocks::steps, scene_model::specs::Clocks::tick))]
pub fn step_counts(alloc: Global, scene: &Scene) -> Result<Vec<u64>, NoMemory>
    requires { IsFaultless scene.now }
    ensures { IfOk result (λ counts. counts.items ≡ map (steps scene.now) (below (length scene.now.apps))) }
{
    let mut counts = Vec::new(alloc);
    for app in 0..scene.apps.len() as u32 {
        counts.push(scene.app(AppId(app)).steps())?;
    }
    Ok(counts)
}

/// So many zeros.
pub fn zeros(alloc: Global, count: usize) -> Result<Vec<u64>, NoMemory>
    ensures { IfOk result (λ all. all.items ≡ replicate count 0) }
{
    let mut all = Vec::new(alloc);
    all.resize(count, 0)?;
    Ok(all)
}
