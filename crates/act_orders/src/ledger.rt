//! The counts of the acts that were done, and what tells fast which acts are allowed.
ghost use Rattle.std.specs.Prelude.{◌≡◌, ◌↔◌, ◌<◌, ◌≤◌, ◌+◌, [], IfOk, IfSome, MatchOption, IsTrue, length, min};
ghost use Rattle.scene_model.specs.Clocks.{steps, wanted, wanted_blocks};
ghost use Rattle.scene_model.specs.Faults.{IsFaultless};
ghost use Rattle.scene_model.specs.Orders.{CanPut, CanRun, CanTake, EachFrom, EachTo, after, put_on, run_by, taken_from};
ghost use Rattle.scene_model.specs.Scenes.{receiver, sender};
ghost use Rattle.scene_model.specs.declared.act.Act.{Act};
ghost use Rattle.scene_model.specs.declared.act.Act.TheVariants.{Put, Run, Take};
ghost use Rattle.act_orders.specs.Ledgers.{Allows, IsAfter, IsLedger, counts_in};

use crate::opening::{first_needs, most_wanted, need, step_counts, zeros};
use crate::own_links::{all_put, all_taken, into_each, out_of_each};
use music_base::{AppId, Items, LinkId, NoMemory};
use scene_model::{Act, Scene};
use std::alloc::Global;

/// How far the applications of a scene have come, by the acts that were entered.
#[derive(Debug, Drop)]
pub struct Ledger {
    /// For each connection how many blocks it keeps at most.
    pub limits: Vec<u64>,
    /// For each application the steps run, and how many it runs in all.
    pub run: Vec<u64>,
    pub lasts: Vec<u64>,
    /// For each connection the blocks put and taken.
    pub put: Vec<u64>,
    pub taken: Vec<u64>,
    /// For each connection how many blocks its receiver's next step wants, and how many some step does.
    pub needs: Vec<u64>,
    pub most: Vec<u64>,
    /// For each application the connections that lead to it, and those that begin there.
    pub into: Vec<Items<LinkId>>,
    pub out: Vec<Items<LinkId>>,
}

/// The place of the application that takes from a connection.
#[tactic(auto, unfolding(scene_model::specs::Scenes::receiver))]
fn receiver_of(scene: &Scene, link: LinkId) -> usize
    requires { link < length scene.now.links }
    ensures { result ≡ receiver scene.now link }
{
    scene.link(link).to_app.0 as usize
}

/// The place of the application that puts on a connection.
#[tactic(auto, unfolding(scene_model::specs::Scenes::sender))]
fn sender_of(scene: &Scene, link: LinkId) -> usize
    requires { link < length scene.now.links }
    ensures { result ≡ sender scene.now link }
{
    scene.link(link).from_app.0 as usize
}

/// Whether a block is there, and the receiver has a step left, which needs it.
fn is_takeable(taken: u64, put: u64, need: u64, ran: u64, last: u64) -> bool
    ensures { IsTrue result ↔ ((taken < put) × (ran < last) × (taken < need)) }
{
    taken < put && ran < last && taken < need
}

/// Whether a block was made and is wanted, and there is room for it.
fn is_puttable(put: u64, taken: u64, most: u64, limit: u64, ran: u64) -> bool
    requires { taken ≤ put }
    ensures { IsTrue result ↔ ((put < ran) × (put < most) × (put < taken + limit)) }
{
    put < ran && put < most && put - taken < limit
}

impl Ledger {
    /// A ledger of a scene under these limits, in which no act was entered.
    pub fn open(alloc: Global, scene: &Scene, limits: &[u64]) -> Result<Ledger, NoMemory>
        requires faultless { IsFaultless scene.now }
        requires limits { length limits.now ≡ length scene.now.links }
        ensures { IfOk result (IsAfter scene.now limits.now []) }
    {
        let (apps, links) = (scene.apps.len(), scene.links.len());
        Ok(Ledger {
            limits: Vec::from_slice(alloc, limits)?,
            run: zeros(alloc, apps)?,
            lasts: step_counts(alloc, scene)?,
            put: zeros(alloc, links)?,
            taken: zeros(alloc, links)?,
            needs: first_needs(alloc, scene)?,
            most: most_wanted(alloc, scene)?,
            into: into_each(alloc, scene)?,
            out: out_of_each(alloc, scene)?,
        })
    }

    /// Whether a block can be taken from the connection.
    fn can_take(&self, scene: &Scene, link: LinkId) -> bool
        requires { IsLedger scene.now self.now }
        ensures { IsTrue result ↔ CanTake scene.now (counts_in self.now) link }
    {
        let index = link.0 as usize;
        if index >= self.taken.len() {
            return false;
        }
        let receiver = receiver_of(scene, link);
        let taken = self.taken[index];
        let put = self.put[index];
        let need = self.needs[index];
        let ran = self.run[receiver];
        let last = self.lasts[receiver];
        is_takeable(taken, put, need, ran, last)
    }

    /// Whether a block can be put on the connection.
    fn can_put(&self, scene: &Scene, link: LinkId) -> bool
        requires { IsLedger scene.now self.now }
        ensures { IsTrue result ↔ CanPut scene.now self.now.limits.items (counts_in self.now) link }
    {
        let index = link.0 as usize;
        if index >= self.put.len() {
            return false;
        }
        let sender = sender_of(scene, link);
        let put = self.put[index];
        let taken = self.taken[index];
        let most = self.most[index];
        let limit = self.limits[index];
        let ran = self.run[sender];
        is_puttable(put, taken, most, limit, ran)
    }

    /// Whether all blocks were taken that the application's next step wants.
    fn took_all(&self, scene: &Scene, app: AppId) -> bool
        requires kept { IsLedger scene.now self.now }
        requires app { app < length scene.now.apps }
        ensures { IsTrue result ↔ EachTo scene.now app (λ c. taken_from (counts_in self.now) c ≡ wanted scene.now c (run_by (counts_in self.now) app)) }
    {
        let into = &self.into[app.0 as usize];
        all_taken(into.as_slice(), &self.taken, &self.needs)
    }

    /// Whether all wanted blocks of the steps that the application ran were put.
    fn put_all(&self, scene: &Scene, app: AppId) -> bool
        requires kept { IsLedger scene.now self.now }
        requires app { app < length scene.now.apps }
        ensures { IsTrue result ↔ EachFrom scene.now app (λ c. put_on (counts_in self.now) c ≡ min (run_by (counts_in self.now) app) (wanted_blocks scene.now c)) }
    {
        let ran = self.run[app.0 as usize];
        let out = &self.out[app.0 as usize];
        all_put(out.as_slice(), &self.put, &self.most, ran)
    }

    /// Whether the application has a step left.
    fn has_step(&self, scene: &Scene, app: AppId) -> bool
        requires kept { IsLedger scene.now self.now }
        requires app { app < length scene.now.apps }
        ensures { IsTrue result ↔ (run_by (counts_in self.now) app < steps scene.now app) }
    {
        let ran = self.run[app.0 as usize];
        let last = self.lasts[app.0 as usize];
        ran < last
    }

    /// Whether the application can run its next step.
    fn can_run(&self, scene: &Scene, app: AppId) -> bool
        requires { IsLedger scene.now self.now }
        ensures { IsTrue result ↔ CanRun scene.now (counts_in self.now) app }
    {
        if app.0 as usize >= self.run.len() || !self.has_step(scene, app) {
            return false;
        }
        if !self.took_all(scene, app) {
            return false;
        }
        self.put_all(scene, app)
    }

    /// An act of the application, where one is found that is allowed.
    pub fn act_of(&self, scene: &Scene, app: AppId) -> Option<Act>
        requires { IsLedger scene.now self.now }
        ensures { IfSome result (Allows scene.now self.now) }
    {
        let place = app.0 as usize;
        if place >= self.run.len() {
            return None;
        }
        for link in self.out[place].as_slice() {
            if self.can_put(scene, *link) {
                return Some(Act::Put(*link));
            }
        }
        for link in self.into[place].as_slice() {
            if self.can_take(scene, *link) {
                return Some(Act::Take(*link));
            }
        }
        if self.can_run(scene, app) {
            return Some(Act::Run(app));
        }
        None
    }

    /// An act that is allowed, or none where no act is.
    pub fn some_act(&self, scene: &Scene) -> Option<Act>
        requires { IsLedger scene.now self.now }
        ensures { MatchOption result ((act : Act) → Allows scene.now self.now act → ⊥) (Allows scene.now self.now) }
    {
        for link in 0..scene.links.len() as u32 {
            if self.can_take(scene, LinkId(link)) {
                return Some(Act::Take(LinkId(link)));
            }
            if self.can_put(scene, LinkId(link)) {
                return Some(Act::Put(LinkId(link)));
            }
        }
        for app in 0..scene.apps.len() as u32 {
            if self.can_run(scene, AppId(app)) {
                return Some(Act::Run(AppId(app)));
            }
        }
        None
    }

    /// Enters that a block was taken.
    fn take(&mut self, scene: &Scene, link: LinkId)
        requires kept { IsLedger scene.now self.old }
        requires allowed { CanTake scene.now (counts_in self.old) link }
        ensures kept { IsLedger scene.now self.new }
        ensures limits { self.new.limits ≡ self.old.limits }
        ensures counts { counts_in self.new ≡ after (counts_in self.old) (Take link) }
    {
        self.taken[link.0 as usize] += 1;
    }

    /// Enters that a block was put.
    fn put(&mut self, scene: &Scene, link: LinkId)
        requires kept { IsLedger scene.now self.old }
        requires allowed { CanPut scene.now self.old.limits.items (counts_in self.old) link }
        ensures kept { IsLedger scene.now self.new }
        ensures limits { self.new.limits ≡ self.old.limits }
        ensures counts { counts_in self.new ≡ after (counts_in self.old) (Put link) }
    {
        self.put[link.0 as usize] += 1;
    }

    /// Enters that a step was run, and finds how many blocks the next one needs.
    fn run(&mut self, scene: &Scene, app: AppId)
        requires kept { IsLedger scene.now self.old }
        requires allowed { CanRun scene.now (counts_in self.old) app }
        ensures kept { IsLedger scene.now self.new }
        ensures limits { self.new.limits ≡ self.old.limits }
        ensures counts { counts_in self.new ≡ after (counts_in self.old) (Run app) }
    {
        let place = app.0 as usize;
        let next = self.run[place] + 1;
        let into = &self.into[place];
        need(scene, into.as_slice(), next, &mut self.needs);
        self.run[place] = next;
    }

    /// Enters an act that is allowed.
    pub fn enter(&mut self, scene: &Scene, act: Act)
        requires kept { IsLedger scene.now self.old }
        requires allowed { Allows scene.now self.old act }
        ensures kept { IsLedger scene.now self.new }
        ensures limits { self.new.limits ≡ self.old.limits }
        ensures counts { counts_in self.new ≡ after (counts_in self.old) act }
    {
        match act {
            Act::Take(link) => self.take(scene, link),
            Act::Run(app) => self.run(scene, app),
            Act::Put(link) => self.put(scene, link),
        }
    }
}
