ghost use Rattle.std.specs.Prelude.{◌≡◌, ℕ, ◌-◌, ◌^◌, ◌<◌, ◌≤◌, IfOk, OnOk, OnErr, length, map};
ghost use Rattle.std.specs.List.{AllByRecursion};
ghost use Rattle.scene_model.specs.Tables.{Table};
ghost use Rattle.scene_model.specs.declared.scene.Scene.{Scene};
ghost use Rattle.port_inbox.specs.Arrivals.{delivered, event_of};
ghost use Rattle.port_inbox.specs.Due.{AreShort};
ghost use Rattle.port_inbox.specs.Holding.{IsFed, heard};
ghost use Rattle.port_inbox.specs.Inboxes.{fresh_inbox, line_at, moved_to, with_block, with_line};
ghost use Rattle.port_inbox.specs.declared.arrivals.InboxLink.{InboxLink};

use crate::finding::Found;
use crate::lines::Lines;
use crate::{Arrival, InboxLink, finding};
use event_routes::Routes;
use music_base::{Block, Item, Nanos, NoMemory};
use std::alloc::Global;
use std::marker::Model;

/// The inbox of an input for events. It keeps a list for what a delivery finds, which contracts don't see.
#[derive(Debug, Drop)]
pub struct EventInbox {
    lines: Lines,
    routes: Vec<Routes>,
    found: Vec<Found>,
}

impl Model for EventInbox {
    ghost use Rattle.std.specs.Prelude.{◌≡◌, length};
    ghost use Rattle.port_inbox.specs.Inboxes.{Inbox};

    ghost Value = { Inbox };

    ghost view = { λ a. record { lines = a.lines.lines; routes = a.routes.items; start = a.lines.start; tick = a.lines.tick; delivered = a.lines.delivered } };

    ghost invariant = { λ a. length a.lines.lines ≡ length a.routes.items };
}

impl EventInbox {
    /// An inbox for these connections, with the routes from the map of each one's output to that of the input, and with the
    /// start and the tick of the input's application. No block was admitted to it, and it delivered no step.
    ///
    /// There are at most 64 connections, each with its routes, and each latency is at most 10^16 ns. The start is at most
    /// 10^15 ns, and the tick is 1 to 10^12 ns.
    pub fn make(
        alloc: Global,
        links: Vec<InboxLink>,
        routes: Vec<Routes>,
        start: Nanos,
        tick: Nanos,
    ) -> Result<EventInbox, NoMemory>
        requires few { length links.items ≤ 64 }
        requires same { length links.items ≡ length routes.items }
        requires late { AllByRecursion (λ (link : InboxLink). link.latency ≤ 10 ^ 16) links.items }
        requires start { start ≤ 10 ^ 15 }
        requires tick { (1 ≤ tick) × (tick ≤ 10 ^ 12) }
        ensures { IfOk result (λ inbox. inbox ≡ fresh_inbox links.items routes.items start tick) }
    {
        let lines = Lines::make(alloc, &links, start, tick)?;
        let found = Vec::new(alloc);
        Ok(EventInbox {
            lines,
            routes,
            found,
        })
    }

    /// How many connections the inbox has.
    pub fn connections(&self) -> usize
        ensures { result ≡ length self.now.lines }
    {
        self.lines.len()
    }

    /// The step last delivered, and 0 before the first delivery.
    pub fn delivered(&self) -> u64
        ensures { result ≡ self.now.delivered }
    {
        self.lines.delivered()
    }

    /// How many blocks of a connection were admitted.
    pub fn admitted(&self, link: u32) -> u64
        requires { link < length self.now.lines }
        ensures { result ≡ (line_at self.now link).admitted }
    {
        self.lines.admitted(link)
    }

    /// How many blocks of a connection the inbox keeps.
    pub fn kept(&self, link: u32) -> usize
        requires { link < length self.now.lines }
        ensures { result ≡ length (line_at self.now link).kept }
    {
        self.lines.kept(link)
    }

    /// Makes room for one block of a connection, named by its place among those of the inbox. Where memory is wanting the inbox
    /// stays as it was.
    pub fn reserve(&mut self, link: u32) -> Result<(), NoMemory>
        requires { link < length self.old.lines }
        ensures room { OnOk result (1 ≤ (line_at self.new link).spare) }
        ensures same { self.new ≡ with_line self.old link (record (line_at self.old link) { spare = (line_at self.new link).spare }) }
        ensures grows { (line_at self.old link).spare ≤ (line_at self.new link).spare }
        ensures err { OnErr result (self.new ≡ self.old) }
    {
        self.lines.reserve(link, 1)
    }

    /// Makes room for so many blocks of a connection, at most 1,000,001. Where memory is wanting the inbox stays as it was.
    pub fn reserve_many(&mut self, link: u32, blocks: u64) -> Result<(), NoMemory>
        requires link { link < length self.old.lines }
        requires blocks { blocks ≤ 1_000_001 }
        ensures room { OnOk result (blocks ≤ (line_at self.new link).spare) }
        ensures same { self.new ≡ with_line self.old link (record (line_at self.old link) { spare = (line_at self.new link).spare }) }
        ensures grows { (line_at self.old link).spare ≤ (line_at self.new link).spare }
        ensures err { OnErr result (self.new ≡ self.old) }
    {
        self.lines.reserve(link, blocks as usize)
    }

    /// Appends a block of a connection, which takes the room of one. It takes no memory.
    ///
    /// There is room for a block, its times are at most 10^16 ns, and its number is the count of those that were admitted there
    /// before.
    pub fn admit(&mut self, link: u32, block: Block)
        requires link { link < length self.old.lines }
        requires spare { 1 ≤ (line_at self.old link).spare }
        requires short { AreShort block.items }
        requires number { block.number ≡ (line_at self.old link).admitted }
        requires count { block.number < 2 ^ 64 - 1 }
        ensures { self.new ≡ with_line self.old link (with_block (line_at self.old link) block) }
    {
        self.lines.admit(link, block);
    }

    /// The admitted events that are due in the step and whose index has targets in the routes of their connection, each with
    /// these targets: by time, global index, sender's place, sender's port place and place in the sender's list.
    ///
    /// No earlier call had a later step. The call forgets the blocks of which nothing is due in the step or later, and their
    /// room is free again. So a second call with the same step gives the same answer. Where memory is wanting the inbox stays
    /// as it was.
    pub fn deliver(&mut self, alloc: Global, step: u64) -> Result<Vec<Arrival>, NoMemory>
        requires { self.old.delivered ≤ step }
        ensures answer { IfOk result (λ arrivals. arrivals.items ≡ delivered step self.old) }
        ensures heard { (scene : Scene) (b p : ℕ) (table : Table) →
            IsFed scene b p self.old table step → IfOk result (λ arrivals. arrivals.items ≡ heard scene table b p step) }
        ensures ok { OnOk result (self.new ≡ moved_to step self.old) }
        ensures err { OnErr result (self.new ≡ self.old) }
    {
        let arrivals = finding::deliver(alloc, &self.lines, &self.routes, step, &mut self.found)?;
        self.lines.move_to(step);
        Ok(arrivals)
    }

    /// Fills a list with what `deliver` answers, as items: the time and the index of each event, and no targets. What the list
    /// had goes, and its memory stays. The inbox moves on as by `deliver`.
    pub fn deliver_events(&mut self, step: u64, events: &mut Vec<Item>) -> Result<(), NoMemory>
        requires { self.old.delivered ≤ step }
        ensures answer { OnOk result (events.new.items ≡ map event_of (delivered step self.old)) }
        ensures heard { (scene : Scene) (b p : ℕ) (table : Table) →
            IsFed scene b p self.old table step → OnOk result (events.new.items ≡ map event_of (heard scene table b p step)) }
        ensures ok { OnOk result (self.new ≡ moved_to step self.old) }
        ensures err { OnErr result (self.new ≡ self.old) }
    {
        finding::deliver_events(&self.lines, &self.routes, step, &mut self.found, events)?;
        self.lines.move_to(step);
        Ok(())
    }
}
