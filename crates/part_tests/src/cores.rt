//! The acts of a core over a scene of two applications: which are allowed, and how many blocks lie on the connection after each.
ghost use Rattle.std.specs.Prelude.{◌≡◌, ◌<◌, IfSome, length};
ghost use Rattle.scene_model.specs.Faults.{IsFaultless};

use crate::plans::scene_of;
use crate::texts::SPIKES;
use music_base::{AppId, LinkId};
use scene_model::{Act, Scene};
use std::alloc::Global;
use step_core::Core;
use tick_plan::negotiate;

/// Three steps of a sender and three of a receiver, of which each takes the block of the sender's step of its number. The
/// connection keeps one block.
const THREE_STEPS: &[u8] = b"stoptime=0.003
binary=script
timestep=0.001
[gen]
ports=out event spikes 0+10
args=emit spikes 3 every 0.001 from 0.0005
[sink]
ports=in event in 0+10
gen.spikes -> sink.in [10]
";

/// An act, by the place of its application or its connection.
#[derive(Clone, Copy)]
enum Does {
    Run(u32),
    Put(u32),
    Take(u32),
}

const RUN_GEN: Does = Does::Run(0);

const RUN_SINK: Does = Does::Run(1);

const PUT: Does = Does::Put(0);

const TAKE: Does = Does::Take(0);

/// An order of all acts, in which the sender is ahead where it can be, and how many blocks lie on the connection after each.
const ORDER: &[(Does, u64)] = &[
    (RUN_GEN, 0),
    (PUT, 1),
    (RUN_GEN, 1),
    (TAKE, 0),
    (PUT, 1),
    (RUN_GEN, 1),
    (RUN_SINK, 1),
    (TAKE, 0),
    (PUT, 1),
    (RUN_SINK, 1),
    (TAKE, 0),
    (RUN_SINK, 0),
];

/// Acts of the order that are refused after so many of it.
const REFUSED: &[(usize, Does)] = &[
    // Nothing was run, put or taken, and there is no such application or connection.
    (0, PUT),
    (0, TAKE),
    (0, RUN_SINK),
    (0, Does::Run(2)),
    (0, Does::Put(1)),
    (0, Does::Take(1)),
    // The block of the last step was not put.
    (1, RUN_GEN),
    // It was put already.
    (2, PUT),
    // There is no room.
    (3, PUT),
    (3, RUN_GEN),
    // The receiver's next step wants no more.
    (5, TAKE),
    // All steps were run, and all blocks put and taken.
    (12, RUN_GEN),
    (12, PUT),
    (12, TAKE),
    (12, RUN_SINK),
];

fn act_of(does: Does) -> Act {
    match does {
        Does::Run(app) => Act::Run(AppId(app)),
        Does::Put(link) => Act::Put(LinkId(link)),
        Does::Take(link) => Act::Take(LinkId(link)),
    }
}

/// A core of a scene without a fault that has done nothing, where the scene can be run.
fn core_of(alloc: Global, scene: &Scene) -> Option<Core>
    requires { IsFaultless scene.now }
    ensures { IfSome result (λ core. core.scene ≡ scene.now) }
{
    let plan = negotiate(alloc, scene).ok()?;
    Core::start(alloc, scene, &plan).ok()
}

/// Does an act, if it is allowed. Whether it was done.
fn is_done(alloc: Global, core: &mut Core, act: &Act) -> bool
    ensures { core.new.scene ≡ core.old.scene }
{
    core.can(*act) && core.act(alloc, *act).is_ok()
}

/// Whether each of these acts is allowed in its turn, and so many blocks lie on the first connection after it.
fn does_all(alloc: Global, scene: &Scene, core: &mut Core, order: &[(Does, u64)]) -> bool
    requires { core.old.scene ≡ scene.now }
    ensures { core.new.scene ≡ scene.now }
{
    if scene.links.len() == 0 {
        return false;
    }
    for (act, held) in order {
        if !is_done(alloc, core, &act_of(*act)) || core.held(LinkId(0)) != *held {
            return false;
        }
    }
    true
}

/// Whether the order can be done, and leaves nothing to do.
fn does_order(alloc: Global) -> bool {
    let Ok(scene) = scene_of(alloc, THREE_STEPS) else {
        return false;
    };
    let Some(mut core) = core_of(alloc, &scene) else {
        return false;
    };
    does_all(alloc, &scene, &mut core, ORDER) && core.some_act().is_none()
}

/// Whether the act is refused after so many acts of the order.
fn is_refused(alloc: Global, count: usize, does: Does) -> bool {
    let Ok(scene) = scene_of(alloc, THREE_STEPS) else {
        return false;
    };
    let Some(mut core) = core_of(alloc, &scene) else {
        return false;
    };
    let Some(order) = ORDER.get(..count) else {
        return false;
    };
    does_all(alloc, &scene, &mut core, order) && !core.can(act_of(does))
}

/// How many acts are found and done until none is found, where these are fewer than a hundred.
fn acts_found(alloc: Global) -> Option<usize> {
    let scene = scene_of(alloc, THREE_STEPS).ok()?;
    let mut core = core_of(alloc, &scene)?;
    for count in 0..100 {
        let Some(act) = core.some_act() else {
            return Some(count);
        };
        core.act(alloc, act).ok()?;
    }
    None
}

/// How many steps were run of the sender and of the receiver, and how many blocks were put and taken.
#[derive(Clone, Copy, Debug, PartialEq, Eq)]
struct Counts {
    sent: u64,
    received: u64,
    put: u64,
    taken: u64,
}

const NONE: Counts = Counts {
    sent: 0,
    received: 0,
    put: 0,
    taken: 0,
};

/// Twenty steps of the sender and two of the receiver, of which each wants ten blocks.
const ALL: Counts = Counts {
    sent: 20,
    received: 2,
    put: 20,
    taken: 20,
};

/// The counts with one act more.
fn with_act(counts: Counts, act: &Act) -> Counts {
    match act {
        Act::Run(app) if app.0 == 0 => Counts {
            sent: counts.sent.saturating_add(1),
            ..counts
        },
        Act::Run(_) => Counts {
            received: counts.received.saturating_add(1),
            ..counts
        },
        Act::Put(_) => Counts {
            put: counts.put.saturating_add(1),
            ..counts
        },
        Act::Take(_) => Counts {
            taken: counts.taken.saturating_add(1),
            ..counts
        },
    }
}

/// Whether as many blocks lie on the first connection as were put and not taken.
fn holds(core: &Core, counts: Counts) -> bool
    requires { 0 < length core.now.scene.links }
{
    counts.taken.saturating_add(core.held(LinkId(0))) == counts.put
}

/// What was done once no act is found any more, where these are fewer than a hundred acts and what lies on the first connection
/// is right after each.
fn counts_found(alloc: Global, scene: &Scene, core: &mut Core) -> Option<Counts>
    requires { core.old.scene ≡ scene.now }
{
    if scene.links.len() == 0 {
        return None;
    }
    let mut counts = NONE;
    for _ in 0..100 {
        let Some(act) = core.some_act() else {
            return Some(counts);
        };
        counts = with_act(counts, &act);
        if !is_done(alloc, core, &act) || !holds(core, counts) {
            return None;
        }
    }
    None
}

/// What is done of a scene in which a step of the receiver lasts as long as ten of the sender.
fn counts_of_spikes(alloc: Global) -> Option<Counts> {
    let scene = scene_of(alloc, SPIKES).ok()?;
    let mut core = core_of(alloc, &scene)?;
    counts_found(alloc, &scene, &mut core)
}

#[test]
fn an_order_of_all_acts_is_allowed(rt: HostRuntime) {
    assert!(rt; does_order(rt.alloc()));
}

#[test]
fn other_acts_are_refused(rt: HostRuntime) {
    for (count, does) in REFUSED {
        assert!(rt; is_refused(rt.alloc(), *count, *does));
    }
}

#[test]
fn acts_are_found_until_all_is_done(rt: HostRuntime) {
    assert!(rt; acts_found(rt.alloc()) == Some(12));
}

#[test]
fn blocks_that_were_not_taken_are_held(rt: HostRuntime) {
    assert!(rt; counts_of_spikes(rt.alloc()) == Some(ALL));
}
