//! The limits of scenes, where there is enough memory.
ghost use Rattle.std.specs.Prelude.{All, IfOk};
ghost use Rattle.scene_model.specs.Faults.{IsFaultless};
ghost use Rattle.scene_model.specs.Waits.{IsLawfulLimit};

use config_text::read_config;
use music_base::NoMemory;
use music_setup::{SetupFault, read_scene};
use scene_model::Scene;
use std::alloc::Global;
use tick_plan::{NegotiateFault, Plan, cover, negotiate, plan_fits};

/// Events may come five ticks late over the second connection.
pub const TWO_LATENCIES: &[u8] = b"stoptime=0.01
binary=script
timestep=0.001
[gen]
ports=out event a 0+1; out event b 0+1
[sink]
ports=in event p 0+1; in event q 0+1 latency 0.005
gen.a -> sink.p
gen.b -> sink.q
";

/// The same, where the output states how many ticks are buffered.
const MUCH_ROOM: &[u8] = b"stoptime=0.01
binary=script
timestep=0.001
[gen]
ports=out event a 0+1; out event b 0+1 buffered 9
[sink]
ports=in event p 0+1; in event q 0+1 latency 0.005
gen.a -> sink.p
gen.b -> sink.q
";

/// The same, where it states too few.
pub const LITTLE_ROOM: &[u8] = b"stoptime=0.01
binary=script
timestep=0.001
[gen]
ports=out event a 0+1; out event b 0+1 buffered 3
[sink]
ports=in event p 0+1; in event q 0+1 latency 0.005
gen.a -> sink.p
gen.b -> sink.q
";

pub fn scene_of(alloc: Global, text: &[u8]) -> Result<Scene, SetupFault>
    ensures { IfOk result (λ scene. IsFaultless scene) }
{
    let Ok(config) = read_config(alloc, text) else {
        return Err(SetupFault::Memory);
    };
    read_scene(alloc, &config)
}

fn is_plan(
    alloc: Global,
    scene: &Scene,
    plan: &Plan,
    limits: &[u64],
    stated: &[bool],
) -> Result<bool, NoMemory>
    requires { IsFaultless scene.now }
{
    let is_right = plan.limits.as_slice() == limits && plan.stated.as_slice() == stated;
    Ok(is_right && plan_fits(alloc, scene, plan)?)
}

/// Whether the scene of the text has these limits, of which these are stated, and a plan that fits.
fn has_limits(alloc: Global, text: &[u8], limits: &[u64], stated: &[bool]) -> bool {
    let Ok(scene) = scene_of(alloc, text) else {
        return false;
    };
    match negotiate(alloc, &scene) {
        Ok(plan) => is_plan(alloc, &scene, &plan, limits, stated) == Ok(true),
        Err(_) => false,
    }
}

/// How many waits the cycle has with which the scene of the text is refused.
fn waits_told(alloc: Global, text: &[u8]) -> Option<usize> {
    let Ok(scene) = scene_of(alloc, text) else {
        return None;
    };
    match negotiate(alloc, &scene) {
        Err(NegotiateFault::Uncovered(cycle)) => Some(cycle.0.len()),
        _ => None,
    }
}

/// How many potentials cover the waits of the scene of the text under these limits.
fn potentials_found(alloc: Global, text: &[u8], limits: &[Option<u64>]) -> Option<usize>
    requires { All IsLawfulLimit limits.now }
{
    let Ok(scene) = scene_of(alloc, text) else {
        return None;
    };
    if limits.len() != scene.links.len() {
        return None;
    }
    match cover(alloc, &scene, limits) {
        Ok(potentials) => Some(potentials.len()),
        Err(_) => None,
    }
}

#[test]
fn there_is_a_potential_for_each_application(rt: HostRuntime) {
    assert!(rt; potentials_found(rt.alloc(), TWO_LATENCIES, &[None, Some(4)]) == Some(2));
    assert!(rt; potentials_found(rt.alloc(), TWO_LATENCIES, &[None, Some(3)]) == None);
}

#[test]
fn limits_are_the_least(rt: HostRuntime) {
    assert!(rt; has_limits(rt.alloc(), TWO_LATENCIES, &[1, 4], &[false, false]));
}

#[test]
fn stated_limits_are_kept(rt: HostRuntime) {
    assert!(rt; has_limits(rt.alloc(), MUCH_ROOM, &[1, 9], &[false, true]));
}

#[test]
fn too_little_room_is_told(rt: HostRuntime) {
    assert!(rt; waits_told(rt.alloc(), LITTLE_ROOM) == Some(2));
}
