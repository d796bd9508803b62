//! What inboxes for events deliver, in tables: times and indices were worked out by hand.
ghost use Rattle.std.specs.Prelude.{◌≡◌, ◌≤◌, ◌<◌, IfOk, length};
ghost use Rattle.std.specs.List.{AllByRecursion};
ghost use Rattle.index_maps.specs.Maps.{rank_count};
ghost use Rattle.port_inbox.specs.Due.{AreShort};
ghost use Rattle.port_inbox.specs.declared.arrivals.InboxLink.{InboxLink};

use crate::{Arrival, EventInbox, InboxLink};
use event_routes::Routes;
use index_maps::{IndexMap, PortMap, Span};
use music_base::{AppId, Block, Event, Item, Items, Nanos, NoMemory, PortId};
use std::alloc::Global;

const SHORT: u64 = 10_000_000_000_000_000;

/// A connection: the places of its sender, its latency, and the events of its first block by time and index.
#[derive(Clone, Copy)]
struct Came {
    app: u32,
    port: u32,
    latency: u64,
    events: &'static [(u64, u32)],
}

/// An input whose application has a start and a tick, what came to it, and what it gets in the steps from 0 on. The senders
/// map the indices 0 to 9, and the input the indices 0 to 3.
struct Case {
    start: u64,
    tick: u64,
    came: &'static [Came],
    delivered: &'static [&'static [(u64, u32)]],
}

const ONE: Came = Came {
    app: 0,
    port: 0,
    latency: 0,
    events: &[(5, 1), (15, 2)],
};

const CASES: &[Case] = &[
    // What comes before the start with its latency is due in no step.
    Case {
        start: 10,
        tick: 10,
        came: &[Came {
            app: 0,
            port: 0,
            latency: 0,
            events: &[(9, 0), (10, 1), (19, 2), (20, 3)],
        }],
        delivered: &[&[(10, 1), (19, 2)], &[(20, 3)], &[]],
    },
    // At a step's begin, and 1 ns before it.
    Case {
        start: 0,
        tick: 10,
        came: &[Came {
            app: 0,
            port: 0,
            latency: 3,
            events: &[(6, 0), (7, 0)],
        }],
        delivered: &[&[(6, 0)], &[(7, 0)]],
    },
    // A latency longer than a tick, and what is due after the steps that are asked for.
    Case {
        start: 0,
        tick: 10,
        came: &[Came {
            app: 0,
            port: 0,
            latency: 25,
            events: &[(0, 0), (4, 1), (5, 2), (15, 3)],
        }],
        delivered: &[&[], &[], &[(0, 0), (4, 1)], &[(5, 2)]],
    },
    // Times that fall, and equal times in one list.
    Case {
        start: 0,
        tick: 10,
        came: &[Came {
            app: 0,
            port: 0,
            latency: 0,
            events: &[(15, 0), (5, 3), (12, 1), (5, 1), (5, 3)],
        }],
        delivered: &[&[(5, 1), (5, 3), (5, 3)], &[(12, 1), (15, 0)]],
    },
    // Equal times from two connections, of which the first has the later sender: by time first, then by index.
    Case {
        start: 0,
        tick: 10,
        came: &[
            Came {
                app: 1,
                port: 0,
                latency: 0,
                events: &[(5, 2), (6, 0)],
            },
            Came {
                app: 0,
                port: 1,
                latency: 0,
                events: &[(4, 3), (5, 1), (5, 2)],
            },
        ],
        delivered: &[&[(4, 3), (5, 1), (5, 2), (5, 2), (6, 0)]],
    },
    // An index that no rank of the input maps.
    Case {
        start: 0,
        tick: 10,
        came: &[Came {
            app: 0,
            port: 0,
            latency: 0,
            events: &[(1, 4), (2, 3), (3, 9)],
        }],
        delivered: &[&[(2, 3)]],
    },
    // As many connections as an input may have.
    Case {
        start: 0,
        tick: 10,
        came: &[ONE; 64],
        delivered: &[&[(5, 1); 64], &[(15, 2); 64]],
    },
    // The greatest start and tick.
    Case {
        start: 1_000_000_000_000_000,
        tick: 1_000_000_000_000,
        came: &[Came {
            app: 0,
            port: 0,
            latency: 0,
            events: &[(1_000_000_000_000_000, 0), (1_000_999_999_999_999, 1)],
        }],
        delivered: &[&[(1_000_000_000_000_000, 0), (1_000_999_999_999_999, 1)]],
    },
];

/// Steps that are delivered of the first case, and how many of its blocks are kept then. Its last event is due in step 1.
const KEPT: &[(&[u64], usize)] = &[
    (&[], 1),
    (&[0], 1),
    (&[0, 1], 1),
    (&[1], 1),
    (&[0, 2], 0),
    (&[7], 0),
];

fn events(alloc: Global, of: &[(u64, u32)]) -> Result<Items<Item>, NoMemory>
    ensures { IfOk result (λ items. AreShort items) }
{
    let mut items = Vec::new(alloc);
    for (time, global) in of {
        let time = Nanos((*time).min(SHORT));
        items.push(Item::Event(Event {
            time,
            global: *global,
        }))?;
    }
    Ok(Items::from_vec(items))
}

fn linear(alloc: Global, size: u32) -> Result<PortMap, NoMemory>
    ensures { IfOk result (λ map. rank_count map ≡ 1) }
{
    let span = Span::new(0, size.min(10));
    Ok(PortMap::Each(Items::from_vec(vec![in alloc; IndexMap::Linear(span)]?)))
}

fn routes(alloc: Global) -> Result<Routes, NoMemory> {
    Routes::build(alloc, &linear(alloc, 10)?, &linear(alloc, 4)?)
}

/// Admits the next block of a connection, where there is such a connection.
fn feed(inbox: &mut EventInbox, link: u32, items: Items<Item>) -> Result<(), NoMemory>
    requires { AreShort items }
{
    if (link as usize) < inbox.connections() {
        inbox.reserve(link)?;
        let number = inbox.admitted(link);
        if number < u64::MAX {
            inbox.admit(link, Block { number, items });
        }
    }
    Ok(())
}

fn links(alloc: Global, came: &[Came]) -> Result<Vec<InboxLink>, NoMemory>
    ensures { IfOk result (λ links. AllByRecursion (λ (link : InboxLink). link.latency ≤ 10_000_000_000_000_000) links.items) }
{
    let mut links = Vec::new(alloc);
    for one in came {
        links.push(InboxLink {
            from_app: AppId(one.app),
            from_port: PortId(one.port),
            latency: Nanos(one.latency.min(SHORT)),
        })?;
    }
    Ok(links)
}

fn routes_of_each(alloc: Global, count: usize) -> Result<Vec<Routes>, NoMemory>
    ensures { IfOk result (λ routes. length routes.items ≡ count) }
{
    let mut all = Vec::new(alloc);
    'each: while all.len() < count {
        all.push(routes(alloc)?)?;
    }
    Ok(all)
}

/// The inbox of a case, to which the first block of each connection was admitted.
fn fed(
    alloc: Global,
    start: u64,
    tick: u64,
    came: &[Came],
) -> Result<Option<EventInbox>, NoMemory> {
    let links = links(alloc, came)?;
    let routes = routes_of_each(alloc, links.len())?;
    if links.len() > 64 {
        return Ok(None);
    }
    let start = Nanos(start.min(1_000_000_000_000_000));
    let tick = Nanos(tick.max(1).min(1_000_000_000_000));
    let mut inbox = EventInbox::make(alloc, links, routes, start, tick)?;
    for (link, one) in came.iter().enumerate() {
        feed(&mut inbox, link.min(64) as u32, events(alloc, one.events)?)?;
    }
    Ok(Some(inbox))
}

fn are(arrivals: &[Arrival], expected: &[(u64, u32)]) -> bool {
    let mut same = arrivals.len() == expected.len();
    for (arrival, (time, global)) in arrivals.iter().zip(expected) {
        same = same && arrival.time.0 == *time && arrival.global == *global;
    }
    same
}

/// Whether these are what the step delivers.
fn delivers(
    alloc: Global,
    inbox: &mut EventInbox,
    step: u64,
    expected: &[(u64, u32)],
) -> Result<bool, NoMemory> {
    if step < inbox.delivered() {
        return Ok(false);
    }
    let arrivals = inbox.deliver(alloc, step)?;
    Ok(are(&arrivals, expected))
}

fn are_events(items: &[Item], expected: &[(u64, u32)]) -> bool {
    let mut same = items.len() == expected.len();
    for (item, (time, global)) in items.iter().zip(expected) {
        let here =
            matches!(item, Item::Event(event) if event.time.0 == *time && event.global == *global);
        same = same && here;
    }
    same
}

/// Whether these are what the step delivers as items, also into a list that has them already.
fn delivers_events(
    alloc: Global,
    inbox: &mut EventInbox,
    step: u64,
    expected: &[(u64, u32)],
) -> Result<bool, NoMemory> {
    if step < inbox.delivered() {
        return Ok(false);
    }
    let mut items = Vec::new(alloc);
    inbox.deliver_events(step, &mut items)?;
    let first = are_events(&items, expected);
    inbox.deliver_events(step, &mut items)?;
    Ok(first && are_events(&items, expected))
}

/// Whether each step of a case delivers what stands there, and a second time the same, as items too.
fn is_right(alloc: Global, case: &Case) -> Result<bool, NoMemory> {
    let Some(mut inbox) = fed(alloc, case.start, case.tick, case.came)? else {
        return Ok(false);
    };
    let mut right = true;
    for (step, expected) in case.delivered.iter().enumerate() {
        right = delivers(alloc, &mut inbox, step as u64, expected)? && right;
        right = delivers(alloc, &mut inbox, step as u64, expected)? && right;
        right = delivers_events(alloc, &mut inbox, step as u64, expected)? && right;
    }
    Ok(right)
}

/// How many blocks of the first connection are kept after these steps.
fn kept_after(alloc: Global, case: &Case, steps: &[u64]) -> Result<Option<usize>, NoMemory> {
    let Some(mut inbox) = fed(alloc, case.start, case.tick, case.came)? else {
        return Ok(None);
    };
    for step in steps {
        delivers(alloc, &mut inbox, *step, &[])?;
    }
    if inbox.connections() == 0 {
        return Ok(None);
    }
    Ok(Some(inbox.kept(0)))
}

#[test]
fn what_is_due_is_delivered_in_order(rt: HostRuntime) {
    for (at, case) in CASES.iter().enumerate() {
        assert!(rt; is_right(rt.alloc(), case) == Ok(true), "at case {at}");
    }
}

/// Whether room for so many blocks of the first connection is made, and nothing else changes.
fn makes_room(alloc: Global, blocks: u64) -> Result<bool, NoMemory> {
    let Some(mut inbox) = fed(alloc, 0, 10, &[ONE])? else {
        return Ok(false);
    };
    if inbox.connections() == 0 || blocks > 1_000_001 {
        return Ok(false);
    }
    inbox.reserve_many(0, blocks)?;
    let same = inbox.kept(0) == 1 && inbox.admitted(0) == 1;
    Ok(delivers(alloc, &mut inbox, 0, &[(5, 1)])? && same)
}

#[test]
fn room_is_made(rt: HostRuntime) {
    for blocks in [0, 1, 1_000, 1_000_001] {
        assert!(rt; makes_room(rt.alloc(), blocks) == Ok(true), "for {blocks}");
    }
}

#[test]
fn past_blocks_are_forgotten(rt: HostRuntime) {
    let case = &CASES[0];
    for (steps, kept) in KEPT {
        assert!(rt;
            kept_after(rt.alloc(), case, steps) == Ok(Some(*kept)),
            "after {steps:?}"
        );
    }
}
