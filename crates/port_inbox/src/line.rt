ghost use Rattle.std.specs.Prelude.{◌≡◌, ◌-◌, ◌^◌, ◌<◌, ◌≤◌, OnOk, OnErr, vec_capacity, vec_len};
ghost use Rattle.std.specs.List.{filter, list_any};
ghost use Rattle.music_base.specs.declared.item.Block.{Block};
ghost use Rattle.port_inbox.specs.Due.{AreShort};
ghost use Rattle.port_inbox.specs.Gathering.{AreAllShort, comes_from};
ghost use Rattle.port_inbox.specs.Inboxes.{forgotten, fresh_line, with_block};

use crate::InboxLink;
use crate::kept::Kept;
use crate::window::window_of;
use music_base::{Block, NoMemory};
use std::alloc::Global;
use std::marker::Model;

/// A connection of an inbox, how many blocks were admitted there, and those that are kept, in their order.
#[derive(Debug, Drop)]
pub struct Line {
    link: InboxLink,
    admitted: u64,
    kept: Vec<Kept>,
}

impl Model for Line {
    ghost use Rattle.std.specs.Prelude.{◌-◌, ◌^◌, ◌≤◌, vec_capacity, vec_len};
    ghost use Rattle.port_inbox.specs.Gathering.{AreAllShort};
    ghost use Rattle.port_inbox.specs.Inboxes.{Line};

    ghost Value = { Line };

    ghost view = { λ line. record { link = line.link; admitted = line.admitted; kept = line.kept.items; spare = vec_capacity line.kept - vec_len line.kept } };

    ghost invariant = { λ line. (line.link.latency ≤ 10 ^ 16) × AreAllShort line.kept.items };
}

/// The latency of a connection, in ns.
pub fn latency_of(link: &InboxLink) -> u64
    ensures { result ≡ link.now.latency }
{
    link.latency.0
}

/// Drops the blocks of which nothing was sent at `from` or later. The room for them stays.
fn retain_from(kept: &mut Vec<Kept>, from: u64)
    ensures items { kept.new.items ≡ filter (λ (block : Block). list_any (comes_from from) block.items) kept.old.items }
    ensures capacity { vec_capacity kept.new ≡ vec_capacity kept.old }
    ensures bound { vec_len kept.new ≤ vec_len kept.old }
{
    kept.retain(|kept| kept.comes_from(from));
}

impl Line {
    /// A connection of which nothing was admitted. It takes no memory.
    pub fn new(alloc: Global, link: InboxLink) -> Line
        requires { link.latency ≤ 10 ^ 16 }
        ensures { result ≡ fresh_line link }
    {
        Line {
            link,
            admitted: 0,
            kept: Vec::new(alloc),
        }
    }

    pub fn link(&self) -> InboxLink
        ensures link { result ≡ self.now.link }
        ensures latency { result.latency ≤ 10 ^ 16 }
    {
        self.link
    }

    pub fn kept(&self) -> &[Kept]
        ensures kept { result.now ≡ self.now.kept }
        ensures short { AreAllShort self.now.kept }
    {
        self.kept.as_slice()
    }

    /// How many blocks were admitted.
    pub fn admitted(&self) -> u64
        ensures { result ≡ self.now.admitted }
    {
        self.admitted
    }

    /// Makes room for so many blocks. Where memory is wanting nothing changes.
    pub fn reserve(&mut self, blocks: usize) -> Result<(), NoMemory>
        ensures same { self.new ≡ record self.old { spare = self.new.spare } }
        ensures room { OnOk result (blocks ≤ self.new.spare) }
        ensures grows { self.old.spare ≤ self.new.spare }
        ensures err { OnErr result (self.new ≡ self.old) }
    {
        self.kept.reserve(blocks)?;
        Ok(())
    }

    /// Appends a block, and takes no memory.
    pub fn admit(&mut self, block: Block)
        requires spare { 1 ≤ self.old.spare }
        requires short { AreShort block.items }
        requires count { self.old.admitted < 2 ^ 64 - 1 }
        ensures { self.new ≡ with_block self.old block }
    {
        self.admitted += 1;
        self.kept.push_reserved(Kept::new(block));
    }

    /// Drops the blocks of which nothing is due in the step or later, and takes no memory.
    pub fn forget(&mut self, start: u64, tick: u64, step: u64)
        requires { 1 ≤ tick }
        ensures { self.new ≡ forgotten start tick step self.old }
    {
        let window = window_of(latency_of(&self.link), start, tick, step);
        retain_from(&mut self.kept, window.from);
    }
}
