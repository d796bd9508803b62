//! What one application does in its turn: rounds of puts, takes and a step.
ghost use Rattle.std.specs.Prelude.{IfOk};
ghost use Rattle.step_core.specs.Running.{Went};

use crate::scene_core::Core;
use music_base::{AppId, LinkId, Nanos, NoMemory};
use std::alloc::Global;

/// How many rounds an application goes on before it is another's turn, so that none runs far ahead and few rows are held.
const ROUNDS: usize = 16;

/// A connection of an application, and the application at its other end.
#[derive(Clone, Copy)]
pub struct OwnLink {
    pub link: LinkId,
    pub other: AppId,
}

impl Core {
    /// Writes down that an application may be able to act, with the clock of its next step.
    fn list(&self, app: AppId, due: &mut [Option<Nanos>]) {
        if let Some(place) = due.get_mut(app.0 as usize) {
            *place = Some(self.clock(app));
        }
    }

    /// The same, where the application may have waited.
    fn wake(&self, waited: bool, app: AppId, due: &mut [Option<Nanos>]) {
        if waited {
            self.list(app, due);
        }
    }

    /// How many blocks lie on a connection. A schedule asks it, and nothing rests on it.
    fn lying(&self, link: LinkId) -> u64 {
        match self.rings.get(link.0 as usize) {
            Some(ring) => ring.held(),
            None => 0,
        }
    }

    /// Whether as many blocks lie on a connection as its limit allows. A schedule asks it, and nothing rests on it.
    fn is_full(&self, link: LinkId) -> bool {
        match self.limits.get(link.0 as usize) {
            Some(limit) => *limit <= self.lying(link),
            None => true,
        }
    }

    /// Puts a block on the connection where that is allowed, and answers whether it did. Where none lay there its receiver may
    /// have waited for it.
    fn put_one(&mut self, own: OwnLink, due: &mut [Option<Nanos>]) -> bool
        ensures { Went self.old result self.new }
    {
        if !self.can_put(own.link) {
            return false;
        }
        let was_empty = self.lying(own.link) == 0;
        self.put(own.link);
        self.wake(was_empty, own.other, due);
        true
    }

    /// Takes a block from the connection where that is allowed, and answers whether it did. Where no room was left there its
    /// sender may have waited for it.
    fn take_one(&mut self, own: OwnLink, due: &mut [Option<Nanos>]) -> Result<bool, NoMemory>
        ensures { IfOk result (λ acted. Went self.old acted self.new) }
    {
        if !self.can_take(own.link) {
            return Ok(false);
        }
        let was_full = self.is_full(own.link);
        self.take(own.link)?;
        self.wake(was_full, own.other, due);
        Ok(true)
    }

    /// Runs a step of the application where that is allowed, and answers whether it did.
    fn run_one(&mut self, alloc: Global, app: AppId) -> Result<bool, NoMemory>
        ensures { IfOk result (λ acted. Went self.old acted self.new) }
    {
        if !self.can_run(app) {
            return Ok(false);
        }
        self.run(alloc, app)?;
        Ok(true)
    }

    /// Puts a block on each of these connections where that is allowed, and answers whether it put one.
    fn put_each(&mut self, out: &[OwnLink], due: &mut [Option<Nanos>]) -> bool
        ensures { Went self.old result self.new }
    {
        let mut acted = false;
        for own in out {
            acted |= self.put_one(*own, due);
        }
        acted
    }

    /// Takes blocks from the connection as long as that is allowed, and answers whether it took one.
    fn take_all(&mut self, own: OwnLink, due: &mut [Option<Nanos>]) -> Result<bool, NoMemory>
        ensures { IfOk result (λ acted. Went self.old acted self.new) }
    {
        let mut acted = false;
        for _ in 0..self.lying(own.link) {
            if !self.take_one(own, due)? {
                return Ok(acted);
            }
            acted = true;
        }
        Ok(acted)
    }

    /// Takes blocks from each of these connections as long as that is allowed, and answers whether it took one.
    fn take_each(&mut self, into: &[OwnLink], due: &mut [Option<Nanos>]) -> Result<bool, NoMemory>
        ensures { IfOk result (λ acted. Went self.old acted self.new) }
    {
        let mut acted = false;
        for own in into {
            acted |= self.take_all(*own, due)?;
        }
        Ok(acted)
    }

    /// Puts the blocks that an application has for these connections from it, and takes those that it wants of these to it, as
    /// far as that is allowed. Answers whether there was one.
    fn exchange(
        &mut self,
        into: &[OwnLink],
        out: &[OwnLink],
        due: &mut [Option<Nanos>],
    ) -> Result<bool, NoMemory>
        ensures { IfOk result (λ acted. Went self.old acted self.new) }
    {
        let put = self.put_each(out, due);
        let took = self.take_each(into, due)?;
        Ok(put | took)
    }

    /// The turn of an application with these connections to it and from it: rounds of an exchange and a step, until it lacks a
    /// block or room. Answers whether anything was done.
    ///
    /// `due` has for each application that may be able to act the clock of its next step. Where the turn ended for want of a
    /// step, this application is not one of them any more.
    pub(crate) fn turn(
        &mut self,
        alloc: Global,
        app: AppId,
        into: &[OwnLink],
        out: &[OwnLink],
        due: &mut [Option<Nanos>],
    ) -> Result<bool, NoMemory>
        ensures { IfOk result (λ acted. Went self.old acted self.new) }
    {
        let mut acted = false;
        for _ in 0..ROUNDS {
            acted |= self.exchange(into, out, due)?;
            if !self.run_one(alloc, app)? {
                unlist(app, due);
                return Ok(acted);
            }
            acted = true;
        }
        self.list(app, due);
        Ok(acted)
    }
}

/// Writes down that an application can't act.
fn unlist(app: AppId, due: &mut [Option<Nanos>]) {
    if let Some(place) = due.get_mut(app.0 as usize) {
        *place = None;
    }
}
