//! The machine.
ghost use Rattle.std.specs.Prelude.{◌≡◌, ◌<◌, ◌↔◌, ℕ, IfOk, IsTrue, MatchResult, length};
ghost use Rattle.std.specs.Arc.{arc_value};
ghost use Rattle.music_base.specs.declared.item.Block.{Block};
ghost use Rattle.scene_model.specs.Clocks.{clock, steps};
ghost use Rattle.scene_model.specs.Faults.{IsFaultless};
ghost use Rattle.scene_model.specs.Scenes.{app_at};
ghost use Rattle.scene_model.specs.Turns.{opening};
ghost use Rattle.rule_turns.specs.Plans.{turn_plan};
ghost use Rattle.app_turn.specs.PortInboxes.{IsFresh, IsPortInbox, inbox_at};
ghost use Rattle.app_turn.specs.Machines.{HasFinished, IsNext, IsPending, WantsPut, WantsRun, WantsTake};
ghost use Rattle.app_turn.specs.Moves.{DidPut, DidTake, IsStarted, Ran};

use crate::blocks::owe;
use crate::needs::{Pace, need, paces_of};
use crate::opening::{inboxes_of, most_wanted, no_blocks, places_of, zeros};
use crate::own_links::{all_put, all_taken, links_into, links_out_of, receives, sends};
use crate::step::{Step, make_step};
use crate::step_rows::clock_of;
use crate::taking::{admit, make_room};
use crate::{PortInbox, Turned};
use music_base::{AppId, Block, Items, LinkId, Nanos, NoMemory, TryCopy};
use port_buffers::{PutEnd, TakeEnd};
use rule_turns::{ScriptState, TurnPlan};
use scene_model::{Row, Scene};
use std::alloc::Global;
use std::marker::Model;
use std::mem::replace;
use std::sync::Arc;

/// One application of a scene, which runs its steps and keeps what it took and has to put.
///
/// Contracts see the scene, the application, the steps run, by connection of the scene the blocks put and taken, the state of
/// the rules, what is kept of the blocks of each connection (of events and messages what is due in the next step or later, of
/// values the last two blocks), and by connection the block of the last step that was not put.
#[derive(Debug, Drop)]
pub struct AppMachine {
    scene: Arc<Scene>,
    app: AppId,
    ran: u64,
    last: u64,
    into: Vec<LinkId>,
    paces: Vec<Pace>,
    out: Vec<LinkId>,
    needs: Vec<u64>,
    most: Vec<u64>,
    places: Vec<u32>,
    plan: TurnPlan,
    put: Vec<u64>,
    taken: Vec<u64>,
    state: ScriptState,
    inboxes: Vec<PortInbox>,
    pending: Vec<Option<Block>>,
    made: Step,
}

impl Model for AppMachine {
    ghost use Rattle.std.specs.Arc.{arc_value};
    ghost use Rattle.app_turn.specs.Machines.{Machine};
    ghost use Rattle.app_turn.specs.PortInboxes.{waiting_in};
    ghost use Rattle.app_turn.specs.Steps.{IsMachine};

    ghost Value = { Machine };

    ghost view = { λ a. record { scene = arc_value a.scene; app = a.app; ran = a.ran; put = a.put.items; taken = a.taken.items; state = a.state; waiting = waiting_in (arc_value a.scene) a.app a.ran a.inboxes.items a.places.items; pending = a.pending.items } };

    ghost invariant = { λ a. IsMachine (record { scene = arc_value a.scene; app = a.app; ran = a.ran; put = a.put.items; taken = a.taken.items; state = a.state; waiting = waiting_in (arc_value a.scene) a.app a.ran a.inboxes.items a.places.items; pending = a.pending.items }) (record { last = a.last; into = a.into.items; paces = a.paces.items; out = a.out.items; needs = a.needs.items; most = a.most.items; places = a.places.items; plan = a.plan; inboxes = a.inboxes.items }) };
}

impl AppMachine {
    /// The machine of an application of a scene, which has run no step, and to and from which no block moved. It has a copy of
    /// the scene.
    ///
    /// The scene has no fault, and the application is one of its own.
    pub fn start(alloc: Global, scene: &Scene, app: AppId) -> Result<AppMachine, NoMemory>
        requires faultless { IsFaultless scene.now }
        requires app { app < length scene.now.apps }
        ensures { IfOk result (λ m. IsStarted scene.now app m) }
    {
        let scene = Arc::new(alloc, scene.copy(alloc)?)?;
        AppMachine::start_shared(alloc, scene, app)
    }

    /// The same over a scene that is shared with other machines.
    pub fn start_shared(
        alloc: Global,
        scene: Arc<Scene>,
        app: AppId,
    ) -> Result<AppMachine, NoMemory>
        requires faultless { IsFaultless (arc_value scene) }
        requires app { app < length (arc_value scene).apps }
        ensures { IfOk result (λ m. IsStarted (arc_value scene) app m) }
    {
        let inboxes = inboxes_of(alloc, &scene, app)?;
        let decl = scene.app(app);
        let (ports, rules) = (decl.ports.as_slice(), decl.rules.as_slice());
        let plan = TurnPlan::of(alloc, ports, rules)?;
        let state = ScriptState::start(alloc, rules)?;
        AppMachine::opened(alloc, scene, app, plan, state, inboxes)
    }

    /// The machine of these parts.
    fn opened(
        alloc: Global,
        scene: Arc<Scene>,
        app: AppId,
        plan: TurnPlan,
        state: ScriptState,
        inboxes: Vec<PortInbox>,
    ) -> Result<AppMachine, NoMemory>
        requires faultless { IsFaultless (arc_value scene) }
        requires app { app < length (arc_value scene).apps }
        requires planned { plan ≡ turn_plan (app_at (arc_value scene) app).ports (app_at (arc_value scene) app).rules }
        requires state { state ≡ opening (app_at (arc_value scene) app).rules }
        requires counted { length inboxes.items ≡ length (app_at (arc_value scene) app).ports }
        requires fresh { (p : ℕ) → p < length inboxes.items → IsPortInbox (arc_value scene) app p 0 (inbox_at inboxes.items p) × IsFresh (inbox_at inboxes.items p) }
        ensures { IfOk result (λ m. IsStarted (arc_value scene) app m) }
    {
        let count = scene.links.len();
        let last = scene.app(app).steps();
        let into = links_into(alloc, &scene, app)?;
        let paces = paces_of(alloc, &scene, &into)?;
        let out = links_out_of(alloc, &scene, app)?;
        let mut needs = zeros(alloc, count)?;
        need(&paces, 0, &mut needs);
        let most = most_wanted(alloc, &scene)?;
        let places = places_of(alloc, &scene)?;
        let put = zeros(alloc, count)?;
        let taken = zeros(alloc, count)?;
        let pending = no_blocks(alloc, count)?;
        Ok(AppMachine {
            scene,
            app,
            ran: 0,
            last,
            into,
            paces,
            out,
            needs,
            most,
            places,
            plan,
            put,
            taken,
            state,
            inboxes,
            pending,
            made: Step::new(alloc),
        })
    }
}

impl AppMachine {
    /// Whether the connection leads here and the next step wants a block of it that was not taken.
    pub fn wants_take(&self, link: LinkId) -> bool
        ensures { IsTrue result ↔ WantsTake self.now link }
    {
        let index = link.0 as usize;
        index < self.taken.len()
            && self.taken[index] < self.needs[index]
            && self.ran < self.last
            && receives(&self.scene, self.app, link)
    }

    /// Whether a step is left, all blocks were taken that it wants, and all wanted blocks of the step before were put.
    pub fn wants_run(&self) -> bool
        ensures { IsTrue result ↔ WantsRun self.now }
    {
        self.ran < self.last
            && all_taken(&self.into, &self.taken, &self.needs)
            && all_put(&self.out, &self.pending)
    }

    /// Whether the connection begins here and the last step's block for it is wanted and was not put.
    pub fn wants_put(&self, link: LinkId) -> bool
        ensures { IsTrue result ↔ WantsPut self.now link }
    {
        let index = link.0 as usize;
        index < self.put.len()
            && self.pending[index].is_some()
            && sends(&self.scene, self.app, link)
    }

    /// Whether all steps were run and their wanted blocks put.
    pub fn finished(&self) -> bool
        ensures { IsTrue result ↔ HasFinished self.now }
    {
        self.ran == self.last && all_put(&self.out, &self.pending)
    }

    /// Whether a step is left to run.
    pub fn has_step(&self) -> bool
        ensures { IsTrue result ↔ (self.now.ran < steps self.now.scene self.now.app) }
    {
        self.ran < self.last
    }

    /// The clock of the next step, in ns, and after the last step the clock at which one more would run.
    pub fn clock(&self) -> Nanos
        ensures { result ≡ clock self.now.scene self.now.app self.now.ran }
    {
        clock_of(&self.scene, self.app, self.ran)
    }

    /// Takes the next block of a connection, or finds none there.
    ///
    /// The machine wants a block of it, and what the end may give has the number of the next block and fits the connection's
    /// shape. Room is made first, so where memory is wanting the end and the machine are as they were.
    pub fn take<C: TakeEnd>(&mut self, link: LinkId, end: &mut C) -> Result<Turned, NoMemory>
        requires wants { WantsTake self.old link }
        requires gives { (block : Block) (after : C) → C.was_taken end.old block after → IsNext self.old link block }
        ensures { MatchResult result (λ turned. DidTake C.TakeEnd end.old self.old link turned end.new self.new) (λ _. (end.new ≡ end.old) × (self.new ≡ self.old)) }
    {
        let index = link.0 as usize;
        let port = self.scene.link(link).to_port;
        let place = self.places[index];
        make_room(&mut self.inboxes, port, place)?;
        match end.take() {
            Some(block) => {
                admit(&mut self.inboxes, port, place, block);
                self.taken[index] += 1;
                Ok(Turned::Acted)
            }
            None => Ok(Turned::NotYet),
        }
    }

    /// Puts the block of the last step on a connection, or finds no room there and keeps it.
    ///
    /// The machine has a block for the connection, and the end accepts it: its number is the count of those put before, and it
    /// fits the connection's shape.
    pub fn put<C: PutEnd>(&mut self, link: LinkId, end: &mut C) -> Turned
        requires wants { WantsPut self.old link }
        requires accepts { (block : Block) → IsPending self.old link block → C.accepts end.old block }
        ensures { DidPut C.PutEnd end.old self.old link result end.new self.new }
    {
        let index = link.0 as usize;
        match self.pending[index].take() {
            Some(block) => match end.put(block) {
                Ok(()) => {
                    self.put[index] += 1;
                    Turned::Acted
                }
                Err(full) => {
                    self.pending[index] = Some(full.0);
                    Turned::NotYet
                }
            },
            None => Turned::NotYet,
        }
    }

    /// Runs the next step and answers its rows: port by port, and rank by rank.
    ///
    /// The machine wants to run. Where memory is wanting contracts see the machine as it was; some inboxes may have delivered
    /// the step, which they do again.
    pub fn run(&mut self, alloc: Global) -> Result<Items<Row>, NoMemory>
        requires { WantsRun self.old }
        ensures { MatchResult result (λ rows. Ran self.old self.new rows) (λ _. self.new ≡ self.old) }
    {
        make_step(
            alloc,
            &*self.scene,
            self.app,
            self.ran,
            &self.plan,
            &self.most,
            &self.out,
            &self.state,
            &mut self.inboxes,
            &mut self.made,
        )?;
        let rules = self.scene.app(self.app).rules.as_slice();
        self.state.move_on(&self.plan, rules, &self.made.inputs);
        need(&self.paces, self.ran + 1, &mut self.needs);
        owe(&self.out, &mut self.made.blocks, &mut self.pending);
        self.ran += 1;
        Ok(replace(&mut self.made.rows, Items::new(alloc)))
    }
}
