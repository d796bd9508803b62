//! The events that are due in a step: found, put in order, and given their targets.
ghost use Rattle.std.specs.Prelude.{◌≡◌, ◌++◌, [], ◌≤◌, List, IfOk, OnOk, length, map, option_map, slice_index_or};
ghost use Rattle.std.specs.Bool.{OnTrue};
ghost use Rattle.std.specs.List.{filter_map, flat_map};
ghost use Rattle.music_base.specs.Numbers.{in_order};
ghost use Rattle.event_routes.specs.Routing.{Route, routed};
ghost use Rattle.port_inbox.specs.Arrivals.{delivered, event_of, line_waiting, paired};
ghost use Rattle.port_inbox.specs.Due.{falls_in};
ghost use Rattle.port_inbox.specs.Gathering.{arrival_found, at_once_cmp, blocks_found, found, found_cmp, is_in, sender_cmp, waiting_found};

use crate::line::{Line, latency_of};
use crate::lines::Lines;
use crate::window::{Window, window_of};
use crate::{Arrival, InboxLink};
use event_routes::{Routes, Target};
use music_base::{AppId, Event, Item, Items, Nanos, NoMemory, PortId};
use std::alloc::{AllocError, Global};
use std::cmp::Ordering;

/// An event that is due: its time and index, the places of the application and the port that sent it, and that of its
/// connection in the inbox.
#[derive(Clone, Copy, Debug)]
pub struct Found {
    pub time: Nanos,
    pub global: u32,
    pub app: AppId,
    pub port: PortId,
    pub line: usize,
}

/// What an item gives: itself, where it is an event of the window.
fn found_of(item: &Item, window: &Window, line: usize, link: &InboxLink) -> Option<Found>
    ensures { result ≡ found (is_in window.now) line link.now item.now }
{
    match item {
        Item::Event(event) => {
            if !window.holds(event.time.0) {
                return None;
            }
            Some(Found {
                time: event.time,
                global: event.global,
                app: link.from_app,
                port: link.from_port,
                line,
            })
        }
        _ => None,
    }
}

fn gather_items(
    items: &[Item],
    window: &Window,
    line: usize,
    link: &InboxLink,
    out: &mut Vec<Found>,
) -> Result<(), NoMemory>
    ensures { OnOk result (out.new.items ≡ out.old.items ++ filter_map (found (is_in window.now) line link.now) items.now) }
{
    for item in items {
        if let Some(found) = found_of(item, window, line, link) {
            out.push(found)?;
        }
    }
    Ok(())
}

/// Appends what is due over one connection, which has the place `place` in the inbox.
fn gather_line(
    line: &Line,
    place: usize,
    start: u64,
    tick: u64,
    step: u64,
    out: &mut Vec<Found>,
) -> Result<(), NoMemory>
    requires { 1 ≤ tick }
    ensures { OnOk result (out.new.items ≡ out.old.items ++ blocks_found (falls_in start tick step line.now.link.latency) place line.now.link line.now.kept) }
{
    let link = line.link();
    let window = window_of(latency_of(&link), start, tick, step);
    for kept in line.kept() {
        gather_items(kept.sent_in(&window), &window, place, &link, out)?;
    }
    Ok(())
}

/// Appends what is due over all connections, one after another. No targets are looked up.
fn gather(
    lines: &[Line],
    start: u64,
    tick: u64,
    step: u64,
    out: &mut Vec<Found>,
) -> Result<(), NoMemory>
    requires { 1 ≤ tick }
    ensures { (routes : List (List Route)) → length lines.now ≡ length routes →
        OnOk result (filter_map (waiting_found routes) out.new.items ≡ filter_map (waiting_found routes) out.old.items ++ flat_map (line_waiting start tick step) (paired lines.now routes)) }
{
    for place in 0..lines.len() {
        gather_line(&lines[place], place, start, tick, step, out)?;
    }
    Ok(())
}

/// The order of arrivals of one time and index: by sender's place and sender's port place.
fn compare_senders(first: &Found, second: &Found) -> Ordering
    ensures { result ≡ sender_cmp first.now second.now }
{
    match first.app.0.cmp(&second.app.0) {
        Ordering::Equal => first.port.0.cmp(&second.port.0),
        by_app => by_app,
    }
}

/// The order of arrivals of one time: by global index and sender.
fn compare_at_once(first: &Found, second: &Found) -> Ordering
    ensures { result ≡ at_once_cmp first.now second.now }
{
    match first.global.cmp(&second.global) {
        Ordering::Equal => compare_senders(first, second),
        by_index => by_index,
    }
}

/// The order of arrivals: by time, global index, sender's place and sender's port place. What comes later in it is
/// compared only where all before it ties.
fn compare(first: &Found, second: &Found) -> Ordering
    ensures { result ≡ found_cmp first.now second.now }
{
    match first.time.0.cmp(&second.time.0) {
        Ordering::Equal => compare_at_once(first, second),
        by_time => by_time,
    }
}

fn are_in_order(found: &[Found]) -> bool
    ensures { OnTrue result (in_order found_cmp found.now ≡ found.now) }
{
    found.is_sorted_by(|first, second| compare(first, second).is_le())
}

fn sort(found: &mut Vec<Found>) -> Result<(), AllocError>
    ensures { OnOk result (found.new.items ≡ in_order found_cmp found.old.items) }
{
    found.sort_by(|first, second| compare(first, second))
}

/// Puts them in order, where those that tie keep their places. Connections stand in the order of their senders, so what was
/// gathered of one step mostly is in order.
fn put_in_order(found: &mut Vec<Found>) -> Result<(), NoMemory>
    ensures { OnOk result (found.new.items ≡ in_order found_cmp found.old.items) }
{
    if are_in_order(found) {
        return Ok(());
    }
    sort(found)?;
    Ok(())
}

/// The targets of an index in the routes of a connection.
fn targets_at(routes: &[Routes], line: usize, global: u32) -> &[Target]
    ensures { result.now ≡ routed (slice_index_or routes.now line []) global }
{
    match routes.get(line) {
        Some(routes) => routes.targets(global),
        None => &[],
    }
}

/// The arrival that an event makes, where its index has targets.
fn arrival(alloc: Global, found: &Found, routes: &[Routes]) -> Result<Option<Arrival>, NoMemory>
    ensures { IfOk result (λ arrival. arrival ≡ arrival_found routes.now found.now) }
{
    let targets = targets_at(routes, found.line, found.global);
    if targets.is_empty() {
        return Ok(None);
    }
    let targets = Vec::from_slice(alloc, targets)?;
    Ok(Some(Arrival {
        time: found.time,
        global: found.global,
        targets: Items::from_vec(targets),
    }))
}

fn arrivals(alloc: Global, found: &[Found], routes: &[Routes]) -> Result<Vec<Arrival>, NoMemory>
    ensures { IfOk result (λ arrivals. arrivals.items ≡ filter_map (arrival_found routes.now) found.now) }
{
    let mut arrivals = Vec::with_capacity(alloc, found.len())?;
    for event in found {
        if let Some(arrival) = arrival(alloc, event, routes)? {
            arrivals.push(arrival)?;
        }
    }
    Ok(arrivals)
}

/// The event that was found, where its index has targets.
fn event_found(found: &Found, routes: &[Routes]) -> Option<Item>
    ensures { result ≡ option_map event_of (arrival_found routes.now found.now) }
{
    if targets_at(routes, found.line, found.global).is_empty() {
        return None;
    }
    Some(Item::Event(Event {
        time: found.time,
        global: found.global,
    }))
}

/// Appends the events that have targets.
fn push_events(found: &[Found], routes: &[Routes], events: &mut Vec<Item>) -> Result<(), NoMemory>
    ensures { OnOk result (events.new.items ≡ events.old.items ++ map event_of (filter_map (arrival_found routes.now) found.now)) }
{
    for event in found {
        if let Some(item) = event_found(event, routes) {
            events.push(item)?;
        }
    }
    Ok(())
}

/// Fills the list with the events that are due in a step over these connections, in order. No targets are looked up.
fn find(lines: &Lines, step: u64, found: &mut Vec<Found>) -> Result<(), NoMemory>
    ensures { (routes : List (List Route)) → length lines.now.lines ≡ length routes →
        OnOk result (filter_map (arrival_found routes) found.new.items ≡ delivered step (record lines.now { routes = routes })) }
{
    found.clear();
    gather(lines.as_slice(), lines.start(), lines.tick(), step, found)?;
    put_in_order(found)?;
    Ok(())
}

/// What is due in a step over these connections, in order. The list `found` is filled on the way.
pub fn deliver(
    alloc: Global,
    lines: &Lines,
    routes: &[Routes],
    step: u64,
    found: &mut Vec<Found>,
) -> Result<Vec<Arrival>, NoMemory>
    requires { length lines.now.lines ≡ length routes.now }
    ensures { IfOk result (λ arrivals. arrivals.items ≡ delivered step (record lines.now { routes = routes.now })) }
{
    find(lines, step, found)?;
    arrivals(alloc, found, routes)
}

/// Fills a list with the same as items, which have no targets.
pub fn deliver_events(
    lines: &Lines,
    routes: &[Routes],
    step: u64,
    found: &mut Vec<Found>,
    events: &mut Vec<Item>,
) -> Result<(), NoMemory>
    requires { length lines.now.lines ≡ length routes.now }
    ensures { OnOk result (events.new.items ≡ map event_of (delivered step (record lines.now { routes = routes.now }))) }
{
    find(lines, step, found)?;
    events.clear();
    push_events(found, routes, events)?;
    Ok(())
}
