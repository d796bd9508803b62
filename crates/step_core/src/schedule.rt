//! Whose turn it is.
//!
//! A schedule is a hint: it gives turns where an act is likely, and where it finds none the core looks everywhere. So no
//! contract speaks of what it has. It serves a whole run and asks the core what it can do; an order of counts alone keeps a
//! stack of its own, which has nothing to ask.
ghost use Rattle.std.specs.Prelude.{◌≤◌, IfOk};
ghost use Rattle.step_core.specs.Running.{TookTurn, Went};

use crate::rounds::OwnLink;
use crate::scene_core::Core;
use music_base::{AppId, LinkId, Nanos, NoMemory};
use scene_model::Scene;
use std::alloc::Global;

/// An application, the connections that lead to it, and those that begin at it.
#[derive(Drop)]
struct OwnLinks {
    app: AppId,
    into: Vec<OwnLink>,
    out: Vec<OwnLink>,
}

/// As many places as a number of 32 bits can name.
fn places(count: usize) -> u32
    ensures { result ≤ count }
{
    count.min(u32::MAX as usize) as u32
}

/// The connections that lead to an application.
fn links_into(alloc: Global, scene: &Scene, app: AppId) -> Result<Vec<OwnLink>, NoMemory> {
    let mut into = Vec::new(alloc);
    for place in 0..places(scene.links.len()) {
        let link = &scene.links.as_slice()[place as usize];
        if link.to_app == app {
            into.push(OwnLink {
                link: LinkId(place),
                other: link.from_app,
            })?;
        }
    }
    Ok(into)
}

/// The connections that begin at an application.
fn links_out_of(alloc: Global, scene: &Scene, app: AppId) -> Result<Vec<OwnLink>, NoMemory> {
    let mut out = Vec::new(alloc);
    for place in 0..places(scene.links.len()) {
        let link = &scene.links.as_slice()[place as usize];
        if link.from_app == app {
            out.push(OwnLink {
                link: LinkId(place),
                other: link.to_app,
            })?;
        }
    }
    Ok(out)
}

/// The application of those that may be able to act whose next step has the least clock.
fn first_due(due: &[Option<Nanos>]) -> Option<usize> {
    let mut first = None;
    let mut least = u64::MAX;
    for (place, clock) in due.iter().enumerate() {
        if let Some(clock) = clock {
            if first.is_none() || clock.0 < least {
                first = Some(place);
                least = clock.0;
            }
        }
    }
    first
}

/// Does some act that is allowed, wherever it is found.
fn act_anywhere(alloc: Global, core: &mut Core) -> Result<bool, NoMemory>
    ensures { IfOk result (λ acted. TookTurn core.old acted core.new) }
{
    let Some(act) = core.some_act() else {
        return Ok(false);
    };
    core.act(alloc, act)?;
    Ok(true)
}

/// The connections of each application, and the clock of the next step of each that may be able to act.
///
/// Of these it is the turn of the one with the least clock. So none runs far ahead of the others.
#[derive(Drop)]
pub struct Schedule {
    links: Vec<OwnLinks>,
    due: Vec<Option<Nanos>>,
}

impl Schedule {
    /// A schedule of a scene of which nothing was done.
    pub fn make(alloc: Global, scene: &Scene) -> Result<Schedule, NoMemory> {
        let mut links = Vec::new(alloc);
        let mut due = Vec::new(alloc);
        for place in 0..places(scene.apps.len()) {
            let app = AppId(place);
            let into = links_into(alloc, scene, app)?;
            let out = links_out_of(alloc, scene, app)?;
            links.push(OwnLinks { app, into, out })?;
            due.push(Some(scene.apps.as_slice()[place as usize].start))?;
        }
        Ok(Schedule { links, due })
    }

    /// Gives the application its turn whose turn it is, and answers whether it did anything.
    fn give_turn(&mut self, alloc: Global, core: &mut Core) -> Result<bool, NoMemory>
        ensures { IfOk result (λ acted. Went core.old acted core.new) }
    {
        let Some(place) = first_due(&self.due) else {
            return Ok(false);
        };
        let Some(own) = self.links.get(place) else {
            return Ok(false);
        };
        core.turn(alloc, own.app, &own.into, &own.out, &mut self.due)
    }

    /// Has applications take turns until one of them did something, and answers true; or answers false exactly where all are
    /// finished. Each act is allowed.
    ///
    /// The schedule is made of the scene of the core.
    pub fn take_turn(&mut self, alloc: Global, core: &mut Core) -> Result<bool, NoMemory>
        ensures { IfOk result (λ acted. TookTurn core.old acted core.new) }
    {
        for _ in 0..self.due.len() {
            if self.give_turn(alloc, core)? {
                return Ok(true);
            }
        }
        act_anywhere(alloc, core)
    }
}
