ghost use Rattle.std.specs.Prelude.{◌≡◌, ◌-◌, ◌^◌, ◌<◌, ◌≤◌, [], IfOk, OnOk, OnErr, length, map};
ghost use Rattle.std.specs.List.{AllByRecursion};
ghost use Rattle.port_inbox.specs.Due.{AreShort};
ghost use Rattle.port_inbox.specs.Inboxes.{forgotten, fresh_inbox, fresh_line, line_at, moved_to, with_block, with_line};
ghost use Rattle.port_inbox.specs.declared.arrivals.InboxLink.{InboxLink};

use crate::InboxLink;
use crate::line::Line;
use music_base::{Block, Nanos, NoMemory};
use std::alloc::Global;
use std::marker::Model;

/// The connections of an input, the start and the tick of its application in ns, and the step last delivered: what inboxes for
/// events and for messages have in common. Contracts see an inbox without routes.
#[derive(Debug, Drop)]
pub struct Lines {
    lines: Vec<Line>,
    start: u64,
    tick: u64,
    delivered: u64,
}

impl Model for Lines {
    ghost use Rattle.std.specs.Prelude.{◌≤◌, []};
    ghost use Rattle.port_inbox.specs.Inboxes.{Inbox};

    ghost Value = { Inbox };

    ghost view = { λ a. record { lines = a.lines.items; routes = []; start = a.start; tick = a.tick; delivered = a.delivered } };

    ghost invariant = { λ a. 1 ≤ a.tick };
}

/// A connection for each of these, of which nothing was admitted.
fn fresh_lines(alloc: Global, links: &[InboxLink]) -> Result<Vec<Line>, NoMemory>
    requires { AllByRecursion (λ (link : InboxLink). link.latency ≤ 10 ^ 16) links.now }
    ensures { IfOk result (λ lines. lines.items ≡ map fresh_line links.now) }
{
    let mut lines = Vec::with_capacity(alloc, links.len())?;
    for link in links {
        lines.push(Line::new(alloc, *link))?;
    }
    Ok(lines)
}

/// Drops on each connection the blocks of which nothing is due in the step or later.
fn forget_past(lines: &mut [Line], start: u64, tick: u64, step: u64)
    requires { 1 ≤ tick }
    ensures { lines.new ≡ map (forgotten start tick step) lines.old }
{
    for line in lines.iter_mut() {
        line.forget(start, tick, step);
    }
}

impl Lines {
    pub fn make(
        alloc: Global,
        links: &[InboxLink],
        start: Nanos,
        tick: Nanos,
    ) -> Result<Lines, NoMemory>
        requires late { AllByRecursion (λ (link : InboxLink). link.latency ≤ 10 ^ 16) links.now }
        requires tick { 1 ≤ tick }
        ensures { IfOk result (λ lines. lines ≡ fresh_inbox links.now [] start tick) }
    {
        let lines = fresh_lines(alloc, links)?;
        Ok(Lines {
            lines,
            start: start.0,
            tick: tick.0,
            delivered: 0,
        })
    }

    pub fn as_slice(&self) -> &[Line]
        ensures { result.now ≡ self.now.lines }
    {
        self.lines.as_slice()
    }

    pub fn start(&self) -> u64
        ensures { result ≡ self.now.start }
    {
        self.start
    }

    pub fn tick(&self) -> u64
        ensures tick { result ≡ self.now.tick }
        ensures some { 1 ≤ result }
    {
        self.tick
    }

    /// How many connections there are.
    pub fn len(&self) -> usize
        ensures { result ≡ length self.now.lines }
    {
        self.lines.len()
    }

    /// The step last delivered.
    pub fn delivered(&self) -> u64
        ensures { result ≡ self.now.delivered }
    {
        self.delivered
    }

    /// How many blocks of a connection were admitted.
    pub fn admitted(&self, link: u32) -> u64
        requires { link < length self.now.lines }
        ensures { result ≡ (line_at self.now link).admitted }
    {
        self.lines[link as usize].admitted()
    }

    /// How many blocks of a connection are kept.
    pub fn kept(&self, link: u32) -> usize
        requires { link < length self.now.lines }
        ensures { result ≡ length (line_at self.now link).kept }
    {
        self.lines[link as usize].kept().len()
    }

    pub fn reserve(&mut self, link: u32, blocks: usize) -> Result<(), NoMemory>
        requires { link < length self.old.lines }
        ensures room { OnOk result (blocks ≤ (line_at self.new link).spare) }
        ensures same { self.new ≡ with_line self.old link (record (line_at self.old link) { spare = (line_at self.new link).spare }) }
        ensures grows { (line_at self.old link).spare ≤ (line_at self.new link).spare }
        ensures err { OnErr result (self.new ≡ self.old) }
    {
        let line = &mut self.lines[link as usize];
        line.reserve(blocks)
    }

    pub fn admit(&mut self, link: u32, block: Block)
        requires link { link < length self.old.lines }
        requires spare { 1 ≤ (line_at self.old link).spare }
        requires short { AreShort block.items }
        requires count { (line_at self.old link).admitted < 2 ^ 64 - 1 }
        ensures { self.new ≡ with_line self.old link (with_block (line_at self.old link) block) }
    {
        self.lines[link as usize].admit(block);
    }

    /// Forgets what is past, once a step was delivered. It takes no memory.
    pub fn move_to(&mut self, step: u64)
        ensures { self.new ≡ moved_to step self.old }
    {
        forget_past(&mut self.lines, self.start, self.tick, step);
        self.delivered = step;
    }
}
