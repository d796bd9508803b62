//! What inboxes for messages deliver, in tables: times and words were worked out by hand.
ghost use Rattle.std.specs.Prelude.{◌≡◌, ◌≤◌, ◌<◌, IfOk};
ghost use Rattle.std.specs.List.{AllByRecursion};
ghost use Rattle.port_inbox.specs.Due.{AreShort};
ghost use Rattle.port_inbox.specs.declared.arrivals.InboxLink.{InboxLink};

use crate::{Heard, InboxLink, MessageInbox};
use music_base::{AppId, Block, Item, Items, Message, Nanos, NoMemory, PortId, Word};
use std::alloc::Global;

const SHORT: u64 = 10_000_000_000_000_000;

/// A connection: the place of its sender, its latency, and the messages of its first block by time and word.
struct Came {
    app: u32,
    latency: u64,
    messages: &'static [(u64, &'static [u8])],
}

/// An input whose application has a start and a tick, what came to it, and what it hears in the steps from 0 on.
struct Case {
    start: u64,
    tick: u64,
    came: &'static [Came],
    heard: &'static [&'static [(u64, &'static [u8])]],
}

const CASES: &[Case] = &[
    // Before the start with its latency, at a step's begin and 1 ns before it.
    Case {
        start: 10,
        tick: 10,
        came: &[Came {
            app: 0,
            latency: 2,
            messages: &[(7, b"early"), (8, b"first"), (17, b"last"), (18, b"next")],
        }],
        heard: &[&[(8, b"first"), (17, b"last")], &[(18, b"next")], &[]],
    },
    // Equal times: by the sender's place first, and then as they stand in its list, whatever the words are.
    Case {
        start: 0,
        tick: 10,
        came: &[
            Came {
                app: 1,
                latency: 0,
                messages: &[(4, b"d"), (5, b"c")],
            },
            Came {
                app: 0,
                latency: 0,
                messages: &[(5, b"b"), (5, b"a")],
            },
        ],
        heard: &[&[(4, b"d"), (5, b"b"), (5, b"a"), (5, b"c")]],
    },
    // Times that fall in one list.
    Case {
        start: 0,
        tick: 10,
        came: &[Came {
            app: 0,
            latency: 0,
            messages: &[(12, b"b"), (3, b"a"), (11, b"c")],
        }],
        heard: &[&[(3, b"a")], &[(11, b"c"), (12, b"b")]],
    },
];

fn messages(alloc: Global, of: &[(u64, &[u8])]) -> Result<Items<Item>, NoMemory>
    ensures { IfOk result (λ items. AreShort items) }
{
    let mut items = Vec::new(alloc);
    for (time, word) in of {
        let time = Nanos((*time).min(SHORT));
        let word = Word::from_slice(alloc, word)?;
        items.push(Item::Message(Message { time, word }))?;
    }
    Ok(Items::from_vec(items))
}

fn links(alloc: Global, came: &[Came]) -> Result<Vec<InboxLink>, NoMemory>
    ensures { IfOk result (λ links. AllByRecursion (λ (link : InboxLink). link.latency ≤ 10_000_000_000_000_000) links.items) }
{
    let mut links = Vec::new(alloc);
    for one in came {
        links.push(InboxLink {
            from_app: AppId(one.app),
            from_port: PortId(0),
            latency: Nanos(one.latency.min(SHORT)),
        })?;
    }
    Ok(links)
}

/// Admits the next block of a connection, where there is such a connection.
fn feed(inbox: &mut MessageInbox, link: u32, items: Items<Item>) -> Result<(), NoMemory>
    requires { AreShort items }
{
    if (link as usize) < inbox.connections() {
        inbox.reserve(link)?;
        let number = inbox.admitted(link);
        if number < u64::MAX {
            inbox.admit(link, Block { number, items });
        }
    }
    Ok(())
}

fn fed(alloc: Global, case: &Case) -> Result<Option<MessageInbox>, NoMemory> {
    let links = links(alloc, case.came)?;
    if links.len() > 64 {
        return Ok(None);
    }
    let start = Nanos(case.start.min(1_000_000_000_000_000));
    let tick = Nanos(case.tick.max(1).min(1_000_000_000_000));
    let mut inbox = MessageInbox::make(alloc, links, start, tick)?;
    for (link, one) in case.came.iter().enumerate() {
        feed(
            &mut inbox,
            link.min(64) as u32,
            messages(alloc, one.messages)?,
        )?;
    }
    Ok(Some(inbox))
}

fn are(words: &[Heard], expected: &[(u64, &[u8])]) -> bool {
    let mut same = words.len() == expected.len();
    for (heard, (time, word)) in words.iter().zip(expected) {
        same = same && heard.time.0 == *time && heard.word.as_slice() == *word;
    }
    same
}

/// Whether these are what the step delivers.
fn delivers(
    alloc: Global,
    inbox: &mut MessageInbox,
    step: u64,
    expected: &[(u64, &[u8])],
) -> Result<bool, NoMemory> {
    if step < inbox.delivered() {
        return Ok(false);
    }
    let words = inbox.deliver(alloc, step)?;
    Ok(are(&words, expected))
}

/// Whether each step of a case delivers what stands there, and a second time the same.
fn is_right(alloc: Global, case: &Case) -> Result<bool, NoMemory> {
    let Some(mut inbox) = fed(alloc, case)? else {
        return Ok(false);
    };
    let mut right = true;
    for (step, expected) in case.heard.iter().enumerate() {
        right = delivers(alloc, &mut inbox, step as u64, expected)? && right;
        right = delivers(alloc, &mut inbox, step as u64, expected)? && right;
    }
    Ok(right)
}

#[test]
fn what_is_said_is_heard_in_order(rt: HostRuntime) {
    for (at, case) in CASES.iter().enumerate() {
        assert!(rt; is_right(rt.alloc(), case) == Ok(true), "at case {at}");
    }
}
