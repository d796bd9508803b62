//! The parts of a core before any act.
ghost use Rattle.std.specs.Prelude.{◌≡◌, ◌≤◌, ◌<◌, ℕ, List, IfOk, length, replicate, slice_index};
ghost use Rattle.std.specs.Arc.{arc_value};
ghost use Rattle.scene_model.specs.Faults.{IsFaultless};
ghost use Rattle.step_core.specs.Cores.{AreStarted, empty_rings, room_for};

use app_turn::AppMachine;
use music_base::{AppId, LinkId, NoMemory};
use port_buffers::Ring;
use scene_model::{Scene, wanted_blocks};
use std::alloc::Global;
use std::sync::Arc;

/// A machine for each application, all over one scene.
pub fn start_machines(alloc: Global, scene: &Arc<Scene>) -> Result<Vec<AppMachine>, NoMemory>
    requires faultless { IsFaultless (arc_value scene.now) }
    requires few { length (arc_value scene.now).apps ≤ 32 }
    ensures { IfOk result (λ machines. AreStarted (arc_value scene.now) machines.items) }
{
    let mut machines = Vec::new(alloc);
    for app in 0..scene.apps.len() {
        let machine = AppMachine::start_shared(alloc, scene.clone()?, AppId(app as u32))?;
        machines.push(machine)?;
    }
    Ok(machines)
}

/// For how many blocks the ring of a connection of this limit is made.
fn room_of(scene: &Scene, link: LinkId, limit: u64) -> u64
    requires faultless { IsFaultless scene.now }
    requires link { link < length scene.now.links }
    ensures { (limits : List ℕ) → limit ≡ slice_index limits link → result ≡ room_for scene.now limits link }
{
    limit.min(wanted_blocks(scene, link).max(1))
}

/// A ring for each connection, which takes no more memory than the blocks that can lie in it.
pub fn make_rings(alloc: Global, scene: &Scene, limits: &[u64]) -> Result<Vec<Ring>, NoMemory>
    requires faultless { IsFaultless scene.now }
    requires counted { length limits.now ≡ length scene.now.links }
    requires from { (c : ℕ) → c < length limits.now → 1 ≤ slice_index limits.now c }
    ensures { IfOk result (λ rings. rings.items ≡ empty_rings scene.now limits.now) }
{
    let mut rings = Vec::new(alloc);
    for link in 0..limits.len() {
        let room = room_of(scene, LinkId(link as u32), limits[link]);
        rings.push(Ring::make(alloc, room)?)?;
    }
    Ok(rings)
}

/// Of so many applications no step has handed out its rows.
pub fn none_released(alloc: Global, apps: usize) -> Result<Vec<u64>, NoMemory>
    ensures { IfOk result (λ released. released.items ≡ replicate apps 0) }
{
    let mut released = Vec::new(alloc);
    released.resize(apps, 0)?;
    Ok(released)
}

/// The same limits.
pub fn limits_copy(alloc: Global, limits: &[u64]) -> Result<Vec<u64>, NoMemory>
    ensures { IfOk result (λ copy. copy.items ≡ limits.now) }
{
    Ok(limits.iter().copied().collect(alloc)?)
}
