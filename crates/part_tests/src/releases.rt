//! Rows that a core hands out behind each act, worked out by hand.
use crate::logs::{ROWS, SCENE, ToldRow};
use crate::plans::scene_of;
use music_base::{AppId, LinkId, NoMemory};
use scene_model::{Act, Row};
use std::alloc::Global;
use step_core::Core;
use tick_plan::negotiate;

/// One application sends an event in each of its two steps, and two others hear it in the same step.
const TWO_HEAR: &[u8] = b"stoptime=0.002
binary=script
timestep=0.001
[gen]
ports=out event spikes 0+1
args=emit spikes 0 every 0.001 from 0.0005
[first]
ports=in event seen 0+1
[second]
ports=in event seen 0+1
gen.spikes -> first.seen [1]
gen.spikes -> second.seen [1]
";

#[derive(Clone, Copy)]
enum Did {
    Take(u32),
    Run(u32),
    Put(u32),
}

use Did::{Put, Run, Take};

/// An act, and the clocks and applications of the rows that can be handed out behind it.
type Case<'a> = (Did, &'a [(u64, u32)]);

// The second application to hear runs before the first, so that its rows have to wait. What was run by both is past once the
// sender has no step left before it.
const CASES: &[Case<'static>] = &[
    (Run(0), &[]),
    (Put(1), &[]),
    (Take(1), &[]),
    (Run(2), &[]),
    (Put(0), &[]),
    (Take(0), &[]),
    (Run(1), &[(0, 1), (0, 2)]),
    (Run(0), &[]),
    (Put(1), &[]),
    (Take(1), &[]),
    (Run(2), &[]),
    (Put(0), &[]),
    (Take(0), &[]),
    (Run(1), &[(1_000_000, 1), (1_000_000, 2)]),
];

const ALL: &[(u64, u32)] = &[(0, 1), (0, 2), (1_000_000, 1), (1_000_000, 2)];

fn act_of(did: Did) -> Act {
    match did {
        Take(link) => Act::Take(LinkId(link)),
        Run(app) => Act::Run(AppId(app)),
        Put(link) => Act::Put(LinkId(link)),
    }
}

fn core_of(alloc: Global, text: &[u8]) -> Option<Core> {
    let scene = scene_of(alloc, text).ok()?;
    let plan = negotiate(alloc, &scene).ok()?;
    Core::start(alloc, &scene, &plan).ok()
}

/// Whether the act is allowed. It is then done.
fn does(alloc: Global, core: &mut Core, act: &Act) -> Result<bool, NoMemory> {
    if !core.can(*act) {
        return Ok(false);
    }
    core.act(alloc, *act)?;
    Ok(true)
}

fn are_at(rows: &[Row], places: &[(u64, u32)]) -> bool {
    if rows.len() != places.len() {
        return false;
    }
    for index in 0..rows.len() {
        let row = &rows[index];
        let (clock, app) = places[index];
        if row.clock.0 != clock || row.app.0 != app {
            return false;
        }
    }
    true
}

/// Whether each act is allowed and just its rows are handed out behind it.
fn are_handed_out(alloc: Global, core: &mut Core) -> Result<bool, NoMemory> {
    for (did, places) in CASES {
        if !does(alloc, core, &act_of(*did))? {
            return Ok(false);
        }
        let rows = core.release(alloc)?;
        if !are_at(rows.as_slice(), places) {
            return Ok(false);
        }
    }
    Ok(true)
}

#[test]
fn rows_are_handed_out_once_they_are_past(rt: HostRuntime) {
    let Some(mut core) = core_of(rt.alloc(), TWO_HEAR) else {
        panic!(rt; "the text has a scene with a plan");
    };
    assert!(rt; are_handed_out(rt.alloc(), &mut core) == Ok(true));
    let Ok(rest) = core.into_rows(rt.alloc()) else {
        panic!(rt; "there is enough memory");
    };
    assert!(rt; rest.is_empty());
}

/// Whether all acts are allowed.
fn are_done(alloc: Global, core: &mut Core) -> Result<bool, NoMemory> {
    for (did, _) in CASES {
        if !does(alloc, core, &act_of(*did))? {
            return Ok(false);
        }
    }
    Ok(true)
}

#[test]
fn rows_that_were_not_handed_out_are_answered_in_order(rt: HostRuntime) {
    let Some(mut core) = core_of(rt.alloc(), TWO_HEAR) else {
        panic!(rt; "the text has a scene with a plan");
    };
    assert!(rt; are_done(rt.alloc(), &mut core) == Ok(true));
    let Ok(rows) = core.into_rows(rt.alloc()) else {
        panic!(rt; "there is enough memory");
    };
    assert!(rt; are_at(rows.as_slice(), ALL));
}

/// Whether the rows have the clocks, applications, ports and ranks of these.
fn are_of(rows: &[Row], cases: &[ToldRow]) -> bool {
    if rows.len() != cases.len() {
        return false;
    }
    for index in 0..rows.len() {
        let row = &rows[index];
        let (clock, app, port, rank, _) = cases[index];
        if row.clock.0 != clock || row.app.0 != app || row.port.0 != port || row.rank.0 != rank {
            return false;
        }
    }
    true
}

/// What is left of the cases behind those of the rows, where they begin with these.
fn behind<'a>(rows: &[Row], cases: &'a [ToldRow]) -> Option<&'a [ToldRow]> {
    let first = cases.get(..rows.len())?;
    if !are_of(rows, first) {
        return None;
    }
    cases.get(rows.len()..)
}

/// Whether acts are found until all rows of the log were handed out in their order, and these are fewer than a hundred.
fn are_all_handed_out(alloc: Global, core: &mut Core) -> Result<bool, NoMemory> {
    let mut left = ROWS;
    for _ in 0..100 {
        let Some(act) = core.some_act() else {
            return Ok(left.is_empty());
        };
        core.act(alloc, act)?;
        let rows = core.release(alloc)?;
        let Some(rest) = behind(rows.as_slice(), left) else {
            return Ok(false);
        };
        left = rest;
    }
    Ok(false)
}

#[test]
fn the_rows_of_five_applications_are_handed_out(rt: HostRuntime) {
    let Some(mut core) = core_of(rt.alloc(), SCENE) else {
        panic!(rt; "the text has a scene with a plan");
    };
    assert!(rt; are_all_handed_out(rt.alloc(), &mut core) == Ok(true));
}

/// How many steps of each application have a clock of at most 1 ms.
const EARLY_STEPS: &[u64] = &[2, 2, 1, 1, 2];

const APPS: u32 = 5;

const LINKS: u32 = 6;

/// An act of a connection that is allowed.
fn link_act(core: &Core) -> Option<Act> {
    for place in 0..LINKS {
        let link = LinkId(place);
        if core.can(Act::Take(link)) {
            return Some(Act::Take(link));
        }
        if core.can(Act::Put(link)) {
            return Some(Act::Put(link));
        }
    }
    None
}

/// A step that is allowed, of an application that has one left here. It is counted.
fn step_act(core: &Core, left: &mut [u64]) -> Option<Act> {
    for app in 0..APPS {
        let place = app as usize;
        if place < left.len() && left[place] > 0 && core.can(Act::Run(AppId(app))) {
            left[place] -= 1;
            return Some(Act::Run(AppId(app)));
        }
    }
    None
}

fn next_act(core: &Core, left: &mut [u64]) -> Option<Act> {
    match link_act(core) {
        Some(act) => Some(act),
        None => step_act(core, left),
    }
}

/// Does acts of connections and so many steps of each application, until none of them is allowed. Whether all these steps were
/// run, in fewer than a hundred acts.
fn are_run(alloc: Global, core: &mut Core, left: &mut [u64]) -> Result<bool, NoMemory> {
    for _ in 0..100 {
        let Some(act) = next_act(core, left) else {
            return Ok(left.iter().all(|count| *count == 0));
        };
        if !does(alloc, core, &act)? {
            return Ok(false);
        }
    }
    Ok(false)
}

/// Whether the steps up to 1 ms can be run, and their rows are then handed out at once.
fn are_early_handed_out(alloc: Global, core: &mut Core) -> Result<bool, NoMemory> {
    let mut left = EARLY_STEPS.to_vec(alloc)?;
    if !are_run(alloc, core, &mut left)? {
        return Ok(false);
    }
    let rows = core.release(alloc)?;
    let Some(early) = ROWS.get(..6) else {
        return Ok(false);
    };
    Ok(are_of(rows.as_slice(), early))
}

// The first six rows of the log are those of the clocks 0 and 1000000.
#[test]
fn rows_of_early_clocks_are_handed_out_at_once(rt: HostRuntime) {
    let Some(mut core) = core_of(rt.alloc(), SCENE) else {
        panic!(rt; "the text has a scene with a plan");
    };
    assert!(rt; are_early_handed_out(rt.alloc(), &mut core) == Ok(true));
}
