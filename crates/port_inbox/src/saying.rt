//! The messages that are due in a step: found, copied, and put in order.
ghost use Rattle.std.specs.Prelude.{◌≡◌, ◌++◌, ◌≤◌, IfOk, OnOk, map};
ghost use Rattle.std.specs.Bool.{OnTrue};
ghost use Rattle.std.specs.List.{filter_map, flat_map};
ghost use Rattle.music_base.specs.Numbers.{in_order};
ghost use Rattle.port_inbox.specs.Due.{falls_in};
ghost use Rattle.port_inbox.specs.Gathering.{blocks_told, is_in, said_cmp, sent_said, told};
ghost use Rattle.port_inbox.specs.Words.{line_said, words_delivered};

use crate::line::{Line, latency_of};
use crate::lines::Lines;
use crate::window::{Window, window_of};
use crate::{Heard, InboxLink};
use music_base::{AppId, Item, NoMemory, PortId, TryCopy};
use std::alloc::{AllocError, Global};
use std::cmp::Ordering;

/// A message that is due, with the places of the application and the port that sent it.
#[derive(Debug, Drop)]
pub struct Said {
    pub heard: Heard,
    pub app: AppId,
    pub port: PortId,
}

/// What an item gives: a copy of its word, where it is a message of the window.
fn said_of(
    alloc: Global,
    item: &Item,
    window: &Window,
    link: &InboxLink,
) -> Result<Option<Said>, NoMemory>
    ensures { IfOk result (λ said. said ≡ told (is_in window.now) link.now item.now) }
{
    match item {
        Item::Message(message) => {
            if !window.holds(message.time.0) {
                return Ok(None);
            }
            let word = message.word.copy(alloc)?;
            Ok(Some(Said {
                heard: Heard {
                    time: message.time,
                    word,
                },
                app: link.from_app,
                port: link.from_port,
            }))
        }
        _ => Ok(None),
    }
}

fn gather_items(
    alloc: Global,
    items: &[Item],
    window: &Window,
    link: &InboxLink,
    out: &mut Vec<Said>,
) -> Result<(), NoMemory>
    ensures { OnOk result (out.new.items ≡ out.old.items ++ filter_map (told (is_in window.now) link.now) items.now) }
{
    for item in items {
        if let Some(said) = said_of(alloc, item, window, link)? {
            out.push(said)?;
        }
    }
    Ok(())
}

/// Appends what was said over one connection.
fn gather_line(
    alloc: Global,
    line: &Line,
    start: u64,
    tick: u64,
    step: u64,
    out: &mut Vec<Said>,
) -> Result<(), NoMemory>
    requires { 1 ≤ tick }
    ensures { OnOk result (out.new.items ≡ out.old.items ++ blocks_told (falls_in start tick step line.now.link.latency) line.now.link line.now.kept) }
{
    let link = line.link();
    let window = window_of(latency_of(&link), start, tick, step);
    for kept in line.kept() {
        gather_items(alloc, kept.sent_in(&window), &window, &link, out)?;
    }
    Ok(())
}

/// Appends what was said over all connections, one after another.
fn gather(
    alloc: Global,
    lines: &[Line],
    start: u64,
    tick: u64,
    step: u64,
    out: &mut Vec<Said>,
) -> Result<(), NoMemory>
    requires { 1 ≤ tick }
    ensures { OnOk result (map sent_said out.new.items ≡ map sent_said out.old.items ++ flat_map (line_said start tick step) lines.now) }
{
    for line in lines {
        gather_line(alloc, line, start, tick, step, out)?;
    }
    Ok(())
}

/// The order of messages: by time, sender's place and sender's port place.
fn compare(first: &Said, second: &Said) -> Ordering
    ensures { result ≡ said_cmp first.now second.now }
{
    let by_time = first.heard.time.0.cmp(&second.heard.time.0);
    let by_app = first.app.0.cmp(&second.app.0);
    let by_port = first.port.0.cmp(&second.port.0);
    by_time.then(by_app.then(by_port))
}

fn are_in_order(said: &[Said]) -> bool
    ensures { OnTrue result (in_order said_cmp said.now ≡ said.now) }
{
    said.is_sorted_by(|first, second| compare(first, second).is_le())
}

fn sort(said: &mut Vec<Said>) -> Result<(), AllocError>
    ensures { OnOk result (said.new.items ≡ in_order said_cmp said.old.items) }
{
    said.sort_by(|first, second| compare(first, second))
}

/// Puts them in order, where those that tie keep their places. Mostly they are in order.
fn put_in_order(said: &mut Vec<Said>) -> Result<(), NoMemory>
    ensures { OnOk result (said.new.items ≡ in_order said_cmp said.old.items) }
{
    if are_in_order(said) {
        return Ok(());
    }
    sort(said)?;
    Ok(())
}

/// What was heard, without its senders.
fn words(alloc: Global, said: Vec<Said>) -> Result<Vec<Heard>, NoMemory>
    ensures { IfOk result (λ words. words.items ≡ map (λ said. said.heard) said.items) }
{
    let words = said.into_iter().map(|said| said.heard).collect(alloc)?;
    Ok(words)
}

/// What is due in a step over these connections, in order.
#[tactic(auto, unfolding(crate::specs::Words::words_delivered))]
pub fn deliver(alloc: Global, lines: &Lines, step: u64) -> Result<Vec<Heard>, NoMemory>
    ensures { IfOk result (λ words. words.items ≡ words_delivered step lines.now) }
{
    let mut said = Vec::new(alloc);
    gather(
        alloc,
        lines.as_slice(),
        lines.start(),
        lines.tick(),
        step,
        &mut said,
    )?;
    put_in_order(&mut said)?;
    words(alloc, said)
}
