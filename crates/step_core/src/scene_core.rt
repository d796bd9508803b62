//! The core.
ghost use Rattle.std.specs.Prelude.{◌≡◌, ◌↔◌, ◌<◌, ◌≤◌, ◌-◌, ℕ, IsTrue, OnOk, OnErr, IfOk, IfSome, MatchOption, None, length, slice_index};
ghost use Rattle.scene_model.specs.Faults.{IsFaultless};
ghost use Rattle.scene_model.specs.Orders.{AllFinished, CanPut, CanRun, CanTake, put_on, taken_from};
ghost use Rattle.scene_model.specs.Scenes.{receiver, sender};
ghost use Rattle.scene_model.specs.declared.act.Act.TheVariants.{Put, Run, Take};
ghost use Rattle.tick_plan.specs.Plans.{PlanFits};
ghost use Rattle.step_core.specs.Cores.{Can, IsStill, did, opened};

use crate::starts::{limits_copy, make_rings, none_released, start_machines};
use app_turn::AppMachine;
use music_base::{AppId, LinkId, Nanos, NoMemory, TryCopy};
use port_buffers::Ring;
use run_logs::RowMerger;
use scene_model::{Act, Scene};
use std::alloc::Global;
use std::marker::Model;
use std::sync::Arc;
use tick_plan::Plan;

/// All machines of a scene, with a ring for each connection and the rows of the steps that were run.
///
/// Contracts see the scene, the limits of its connections, the counts of what was done, and for each application how many of
/// the steps run have handed out their rows. What the rings and the machines hold follows from these: it is the history's.
#[derive(Drop)]
pub struct Core {
    pub(crate) scene: Arc<Scene>,
    pub(crate) limits: Vec<u64>,
    pub(crate) machines: Vec<AppMachine>,
    pub(crate) rings: Vec<Ring>,
    pub(crate) rows: RowMerger,
    pub(crate) released: Vec<u64>,
}

impl Model for Core {
    ghost use Rattle.std.specs.Arc.{arc_value};
    ghost use Rattle.step_core.specs.Cores.{CoreView, IsCore, counts_of};

    ghost Value = { CoreView };

    ghost view = { λ a. record { scene = arc_value a.scene; limits = a.limits.items; counts = counts_of (arc_value a.scene) a.machines.items; released = a.released.items } };

    ghost invariant = { λ a. IsCore (arc_value a.scene) a.limits.items (counts_of (arc_value a.scene) a.machines.items) a.released.items a.machines.items a.rings.items a.rows.held };
}

/// The place of the application that takes from a connection.
#[tactic(auto, unfolding(scene_model::specs::Scenes::receiver))]
fn receiver_of(scene: &Scene, link: LinkId) -> usize
    requires { link < length scene.now.links }
    ensures { result ≡ receiver scene.now link }
{
    scene.link(link).to_app.0 as usize
}

/// The place of the application that puts on a connection.
#[tactic(auto, unfolding(scene_model::specs::Scenes::sender))]
fn sender_of(scene: &Scene, link: LinkId) -> usize
    requires { link < length scene.now.links }
    ensures { result ≡ sender scene.now link }
{
    scene.link(link).from_app.0 as usize
}

impl Core {
    /// A core of this scene under the limits of this plan, which has done nothing.
    ///
    /// The scene has no fault, and the plan fits it.
    pub fn start(alloc: Global, scene: &Scene, plan: &Plan) -> Result<Core, NoMemory>
        requires faultless { IsFaultless scene.now }
        requires fits { PlanFits scene.now plan.now }
        ensures { IfOk result (λ core. core ≡ opened scene.now plan.now.limits.items) }
    {
        let scene = Arc::new(alloc, scene.copy(alloc)?)?;
        let machines = start_machines(alloc, &scene)?;
        let rings = make_rings(alloc, &scene, &plan.limits)?;
        let apps = scene.apps.len();
        let rows = RowMerger::make(alloc, apps as u32)?;
        let released = none_released(alloc, apps)?;
        let limits = limits_copy(alloc, &plan.limits)?;
        Ok(Core {
            scene,
            limits,
            machines,
            rings,
            rows,
            released,
        })
    }

    /// How many blocks were put on a connection and not taken, which is at most its limit.
    ///
    /// The connection is one of the scene's.
    pub fn held(&self, link: LinkId) -> u64
        requires { link < length self.now.scene.links }
        ensures number { result ≡ put_on self.now.counts link - taken_from self.now.counts link }
        ensures within { result ≤ slice_index self.now.limits link }
    {
        let ring = &self.rings[link.0 as usize];
        ring.held()
    }

    /// A block lies there that the receiver's next step wants.
    pub(crate) fn can_take(&self, link: LinkId) -> bool
        ensures { IsTrue result ↔ CanTake self.now.scene self.now.counts link }
    {
        let place = link.0 as usize;
        if place >= self.rings.len() {
            return false;
        }
        let machine = &self.machines[receiver_of(&self.scene, link)];
        let ring = &self.rings[place];
        machine.wants_take(link) && ring.held() > 0
    }

    /// The sender has a block for it, and there is room.
    pub(crate) fn can_put(&self, link: LinkId) -> bool
        ensures { IsTrue result ↔ CanPut self.now.scene self.now.limits self.now.counts link }
    {
        let place = link.0 as usize;
        if place >= self.rings.len() {
            return false;
        }
        let machine = &self.machines[sender_of(&self.scene, link)];
        let ring = &self.rings[place];
        machine.wants_put(link) && ring.held() < self.limits[place]
    }

    /// The application's next step waits for nothing.
    pub(crate) fn can_run(&self, app: AppId) -> bool
        ensures { IsTrue result ↔ CanRun self.now.scene self.now.counts app }
    {
        let place = app.0 as usize;
        if place >= self.machines.len() {
            return false;
        }
        let machine = &self.machines[place];
        machine.wants_run()
    }

    /// The clock of the application's next step, in ns, or after its last step that of one more; 0 where there is no such
    /// application. A schedule asks it, and nothing rests on it.
    pub(crate) fn clock(&self, app: AppId) -> Nanos {
        match self.machines.get(app.0 as usize) {
            Some(machine) => machine.clock(),
            None => Nanos(0),
        }
    }

    /// Whether the act is allowed. An act of a connection or an application that the scene has not is not.
    pub fn can(&self, act: Act) -> bool
        ensures { IsTrue result ↔ Can self.now act }
    {
        match act {
            Act::Take(link) => self.can_take(link),
            Act::Run(app) => self.can_run(app),
            Act::Put(link) => self.can_put(link),
        }
    }

    /// An allowed act of a connection, if there is one.
    fn link_act(&self) -> Option<Act>
        ensures some { IfSome result (λ act. Can self.now act) }
        ensures none { result ≡ None → (c : ℕ) → c < length self.now.scene.links → IsStill self.now c }
    {
        for place in 0..self.rings.len() {
            let link = LinkId(place as u32);
            if self.can_take(link) {
                return Some(Act::Take(link));
            }
            if self.can_put(link) {
                return Some(Act::Put(link));
            }
        }
        None
    }

    /// An application's step that can be run, if there is one.
    fn app_act(&self) -> Option<Act>
        ensures some { IfSome result (λ act. Can self.now act) }
        ensures none { result ≡ None → (a : ℕ) → a < length self.now.scene.apps → CanRun self.now.scene self.now.counts a → ⊥ }
    {
        for place in 0..self.machines.len() {
            let app = AppId(place as u32);
            if self.can_run(app) {
                return Some(Act::Run(app));
            }
        }
        None
    }

    /// An act that is allowed. There is none exactly where all applications are finished.
    pub fn some_act(&self) -> Option<Act>
        ensures found { MatchOption result (AllFinished self.now.scene self.now.counts) (λ act. Can self.now act) }
        ensures none { AllFinished self.now.scene self.now.counts → result ≡ None }
    {
        // What a core keeps true of itself is known where one of its fields is used.
        let _ = &self.scene;
        match self.link_act() {
            Some(act) => Some(act),
            None => self.app_act(),
        }
    }

    /// Takes a block from a connection.
    pub(crate) fn take(&mut self, link: LinkId) -> Result<(), NoMemory>
        requires { CanTake self.old.scene self.old.counts link }
        ensures ok { OnOk result (self.new ≡ did self.old (Take link)) }
        ensures err { OnErr result (self.new ≡ self.old) }
    {
        let receiver = receiver_of(&self.scene, link);
        let machine = &mut self.machines[receiver];
        let ring = &mut self.rings[link.0 as usize];
        machine.take(link, ring)?;
        Ok(())
    }

    /// Puts a block on a connection.
    pub(crate) fn put(&mut self, link: LinkId)
        requires { CanPut self.old.scene self.old.limits self.old.counts link }
        ensures { self.new ≡ did self.old (Put link) }
    {
        let sender = sender_of(&self.scene, link);
        let machine = &mut self.machines[sender];
        let ring = &mut self.rings[link.0 as usize];
        machine.put(link, ring);
    }

    /// Runs a step of an application, and holds its rows.
    pub(crate) fn run(&mut self, alloc: Global, app: AppId) -> Result<(), NoMemory>
        requires { CanRun self.old.scene self.old.counts app }
        ensures ok { OnOk result (self.new ≡ did self.old (Run app)) }
        ensures err { OnErr result (self.new ≡ self.old) }
    {
        self.rows.reserve()?;
        let machine = &mut self.machines[app.0 as usize];
        let rows = machine.run(alloc)?;
        self.rows.admit(app, rows);
        Ok(())
    }

    /// Does an act that is allowed. Where memory is wanting the core is as it was.
    pub fn act(&mut self, alloc: Global, act: Act) -> Result<(), NoMemory>
        requires { Can self.old act }
        ensures ok { OnOk result (self.new ≡ did self.old act) }
        ensures err { OnErr result (self.new ≡ self.old) }
    {
        match act {
            Act::Take(link) => self.take(link),
            Act::Run(app) => self.run(alloc, app),
            Act::Put(link) => {
                self.put(link);
                Ok(())
            }
        }
    }
}
