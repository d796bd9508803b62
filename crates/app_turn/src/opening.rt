//! A machine before its first step.
ghost use Rattle.std.specs.Prelude.{◌≡◌, ◌==◌, ◌<◌, ◌≤◌, ◌^◌, ◌&&◌, ℕ, None, IfOk, length, map, replicate, slice_index};
ghost use Rattle.std.specs.List.{AllByRecursion};
ghost use Rattle.music_base.specs.Numbers.{below};
ghost use Rattle.music_base.specs.Pairs.{AllPaired};
ghost use Rattle.scene_model.specs.Clocks.{wanted_blocks};
ghost use Rattle.scene_model.specs.Faults.{IsFaultless};
ghost use Rattle.scene_model.specs.declared.port.Direction.TheVariants.{Input};
ghost use Rattle.scene_model.specs.declared.port.PortKind.TheVariants.{Events, Messages, Values};
ghost use Rattle.scene_model.specs.Scenes.{app_at, link_at, links_to, port_at, receiver};
ghost use Rattle.port_inbox.specs.Holding.{IsLinkOf, IsRoutesOf};
ghost use Rattle.port_inbox.specs.declared.arrivals.InboxLink.{InboxLink};
ghost use Rattle.app_turn.specs.OwnLinks.{place_on, same_end};
ghost use Rattle.app_turn.specs.PortInboxes.{IsFresh, IsPortInbox, inbox_at};

use crate::PortInbox;
use event_routes::Routes;
use music_base::{AppId, Block, LinkId, NoMemory, PortId};
use port_inbox::{ContInbox, EventInbox, InboxLink, MessageInbox, inbox_link_of};
use scene_model::{Direction, PortKind, Scene, delay_of, wanted_blocks};
use std::alloc::Global;

/// Whether two connections lead to one port.
#[tactic(auto, unfolding(scene_model::specs::Scenes::receiver))]
fn same_end(scene: &Scene, link: LinkId, other: LinkId) -> bool
    requires link { link < length scene.now.links }
    requires other { other < length scene.now.links }
    ensures { result ≡ same_end scene.now link other }
{
    let here = scene.link(link);
    let there = scene.link(other);
    there.to_app == here.to_app && there.to_port == here.to_port
}

/// The place of a connection among those of its port.
#[tactic(auto, unfolding(crate::specs::OwnLinks::place_on))]
fn place_of(scene: &Scene, link: u32) -> u32
    requires { link < length scene.now.links }
    ensures { result ≡ place_on scene.now link }
{
    let mut place = 0;
    for other in 0..link {
        if same_end(scene, LinkId(link), LinkId(other)) {
            place += 1;
        }
    }
    place
}

/// The place of each connection of the scene.
pub fn places_of(alloc: Global, scene: &Scene) -> Result<Vec<u32>, NoMemory>
    requires { length scene.now.links ≤ 64 }
    ensures { IfOk result (λ places. places.items ≡ map (place_on scene.now) (below (length scene.now.links))) }
{
    let mut places = Vec::new(alloc);
    for link in 0..scene.links.len() {
        places.push(place_of(scene, link as u32))?;
    }
    Ok(places)
}

/// So many zeros.
pub fn zeros(alloc: Global, count: usize) -> Result<Vec<u64>, NoMemory>
    ensures { IfOk result (λ all. all.items ≡ replicate count 0) }
{
    let mut all = Vec::new(alloc);
    all.resize(count, 0)?;
    Ok(all)
}

/// So many times no block.
pub fn no_blocks(alloc: Global, count: usize) -> Result<Vec<Option<Block>>, NoMemory>
    ensures { IfOk result (λ all. all.items ≡ replicate count None) }
{
    let mut all = Vec::new(alloc);
    for _ in 0..count {
        all.push(None)?;
    }
    Ok(all)
}

/// How many blocks of each connection of the scene are wanted.
pub fn most_wanted(alloc: Global, scene: &Scene) -> Result<Vec<u64>, NoMemory>
    requires { IsFaultless scene.now }
    ensures { IfOk result (λ most. most.items ≡ map (wanted_blocks scene.now) (below (length scene.now.links))) }
{
    let mut most = Vec::new(alloc);
    for link in 0..scene.links.len() {
        most.push(wanted_blocks(scene, LinkId(link as u32)))?;
    }
    Ok(most)
}

/// Whether a connection leads to a port of an application.
#[tactic(auto, unfolding(scene_model::specs::Scenes::receiver))]
fn leads_to(scene: &Scene, app: AppId, port: PortId, link: LinkId) -> bool
    requires { link < length scene.now.links }
    ensures { result ≡ (receiver scene.now link == app && (link_at scene.now link).to_port == port) }
{
    let ends = scene.link(link);
    ends.to_app == app && ends.to_port == port
}

/// The connections to a port of an application.
fn links_of(alloc: Global, scene: &Scene, app: AppId, port: PortId) -> Result<Vec<LinkId>, NoMemory>
    requires { length scene.now.links ≤ 64 }
    ensures { IfOk result (λ links. links.items ≡ links_to scene.now app port) }
{
    let mut links = Vec::new(alloc);
    for link in 0..scene.links.len() {
        if leads_to(scene, app, port, LinkId(link as u32)) {
            links.push(LinkId(link as u32))?;
        }
    }
    Ok(links)
}

/// What an inbox has to know of each of these connections.
fn inbox_links_of(
    alloc: Global,
    scene: &Scene,
    links: &[LinkId],
) -> Result<Vec<InboxLink>, NoMemory>
    requires scene { IsFaultless scene.now }
    requires links { (i : ℕ) → i < length links.now → slice_index links.now i < length scene.now.links }
    ensures each { IfOk result (λ all. AllPaired (IsLinkOf scene.now) links.now all.items) }
    ensures late { IfOk result (λ all. AllByRecursion (λ (link : InboxLink). link.latency ≤ 10 ^ 16) all.items) }
{
    let mut all = Vec::new(alloc);
    for place in 0..links.len() {
        let link = links[place];
        all.push(inbox_link_of(scene, link))?;
    }
    Ok(all)
}

/// The routes of each of these connections.
fn routes_of(alloc: Global, scene: &Scene, links: &[LinkId]) -> Result<Vec<Routes>, NoMemory>
    requires scene { IsFaultless scene.now }
    requires links { (i : ℕ) → i < length links.now → slice_index links.now i < length scene.now.links }
    ensures { IfOk result (λ all. AllPaired (IsRoutesOf scene.now) links.now all.items) }
{
    let mut all = Vec::new(alloc);
    for place in 0..links.len() {
        let link = links[place];
        let (output, input) = (scene.output_of(link), scene.input_of(link));
        let routes = Routes::build(alloc, &output.map, &input.map)?;
        all.push(routes)?;
    }
    Ok(all)
}

/// The inbox of a continuous input before the first step, where a connection feeds it.
fn samples_of(
    alloc: Global,
    scene: &Scene,
    app: AppId,
    port: PortId,
    links: &[LinkId],
) -> Result<PortInbox, NoMemory>
    requires scene { IsFaultless scene.now }
    requires input { (port_at scene.now app port).direction ≡ Input }
    requires carries { (port_at scene.now app port).kind ≡ Values }
    requires links { links.now ≡ links_to scene.now app port }
    ensures stands { IfOk result (λ x. IsPortInbox scene.now app port 0 x) }
    ensures fresh { IfOk result (λ x. IsFresh x) }
{
    if links.is_empty() {
        return Ok(PortInbox::Unfed);
    }
    let link = links[0];
    let (sender, receiver) = (scene.sender_of(link), scene.receiver_of(link));
    let inbox = ContInbox::make(
        alloc,
        delay_of(scene, link),
        scene.input_of(link).interpolate,
        sender.tick,
        receiver.tick,
        sender.start,
        receiver.start,
        &scene.output_of(link).map,
    )?;
    Ok(PortInbox::Follows(inbox))
}

/// The inbox of an input for events before the first step.
fn events_of(
    alloc: Global,
    scene: &Scene,
    app: AppId,
    port: PortId,
    links: &[LinkId],
) -> Result<PortInbox, NoMemory>
    requires scene { IsFaultless scene.now }
    requires app { app < length scene.now.apps }
    requires input { (port_at scene.now app port).direction ≡ Input }
    requires carries { (port_at scene.now app port).kind ≡ Events }
    requires links { links.now ≡ links_to scene.now app port }
    ensures stands { IfOk result (λ x. IsPortInbox scene.now app port 0 x) }
    ensures fresh { IfOk result (λ x. IsFresh x) }
{
    let receiver = scene.app(app);
    let inbox_links = inbox_links_of(alloc, scene, links)?;
    let routes = routes_of(alloc, scene, links)?;
    let inbox = EventInbox::make(alloc, inbox_links, routes, receiver.start, receiver.tick)?;
    Ok(PortInbox::Hears(inbox))
}

/// The inbox of an input for messages before the first step.
fn messages_of(
    alloc: Global,
    scene: &Scene,
    app: AppId,
    port: PortId,
    links: &[LinkId],
) -> Result<PortInbox, NoMemory>
    requires scene { IsFaultless scene.now }
    requires app { app < length scene.now.apps }
    requires input { (port_at scene.now app port).direction ≡ Input }
    requires carries { (port_at scene.now app port).kind ≡ Messages }
    requires links { links.now ≡ links_to scene.now app port }
    ensures stands { IfOk result (λ x. IsPortInbox scene.now app port 0 x) }
    ensures fresh { IfOk result (λ x. IsFresh x) }
{
    let receiver = scene.app(app);
    let inbox_links = inbox_links_of(alloc, scene, links)?;
    let inbox = MessageInbox::make(alloc, inbox_links, receiver.start, receiver.tick)?;
    Ok(PortInbox::Listens(inbox))
}

/// What stands at a port before the first step.
fn inbox_of(alloc: Global, scene: &Scene, app: AppId, port: PortId) -> Result<PortInbox, NoMemory>
    requires scene { IsFaultless scene.now }
    requires app { app < length scene.now.apps }
    requires port { port < length (app_at scene.now app).ports }
    ensures stands { IfOk result (λ x. IsPortInbox scene.now app port 0 x) }
    ensures fresh { IfOk result (λ x. IsFresh x) }
{
    let decl = scene.app(app).port(port);
    let links = links_of(alloc, scene, app, port)?;
    match (decl.direction, decl.kind) {
        (Direction::Output, _) => Ok(PortInbox::Silent),
        (Direction::Input, PortKind::Values) => samples_of(alloc, scene, app, port, &links),
        (Direction::Input, PortKind::Events) => events_of(alloc, scene, app, port, &links),
        (Direction::Input, PortKind::Messages) => messages_of(alloc, scene, app, port, &links),
    }
}

/// What stands at each port of an application before the first step.
pub fn inboxes_of(alloc: Global, scene: &Scene, app: AppId) -> Result<Vec<PortInbox>, NoMemory>
    requires scene { IsFaultless scene.now }
    requires app { app < length scene.now.apps }
    ensures count { IfOk result (λ all. length all.items ≡ length (app_at scene.now app).ports) }
    ensures each { IfOk result (λ all. (p : ℕ) → p < length all.items → IsPortInbox scene.now app p 0 (inbox_at all.items p) × IsFresh (inbox_at all.items p)) }
{
    let mut all = Vec::new(alloc);
    let ports = scene.app(app).ports.len();
    for port in 0..ports {
        let inbox = inbox_of(alloc, scene, app, PortId(port as u32))?;
        all.push(inbox)?;
    }
    Ok(all)
}
