//! The links that connections make, one after the other.
ghost use Rattle.std.specs.Prelude.{◌≡◌, ◌≤◌, ◌<◌, ℕ, length, IfOk, IfErr};
ghost use Rattle.scene_model.specs.Limits.{most_apps, most_links, most_ports};
ghost use Rattle.scene_model.specs.Links.{app_of};
ghost use Rattle.port_match.specs.Links.{IsFaultOf, fault_between, link_at_place, links_of};

use crate::ends::{ends_of, input_of, is_fed_by, is_joined, output_of};
use crate::indices::index_fault;
use crate::{LinkKind, MatchFault};
use config_text::LinkText;
use music_base::{Items, LinkId, NoMemory};
use scene_model::{AppDecl, Direction, Link, PortDecl};
use std::alloc::Global;

/// The first fault of a link between the two ports, after the links before it.
#[tactic(auto, unfolding(crate::specs::Links::fault_between))]
fn fault_between(
    alloc: Global,
    output: &PortDecl,
    input: &PortDecl,
    before: &[Link],
    link: &Link,
) -> Result<Option<LinkKind>, NoMemory>
    ensures { IfOk result (λ kind. kind ≡ fault_between output.now input.now before.now link.now) }
{
    if output.direction != Direction::Output || input.direction != Direction::Input {
        return Ok(Some(LinkKind::Direction));
    }
    if output.kind != input.kind {
        return Ok(Some(LinkKind::Kind));
    }
    if let Some(kind) = index_fault(alloc, link.width, output, input)? {
        return Ok(Some(kind));
    }
    if is_joined(before, link) {
        return Ok(Some(LinkKind::PairTwice));
    }
    if is_fed_by(input.kind, before, link) {
        return Ok(Some(LinkKind::ContTwice));
    }
    Ok(None)
}

/// The link that the connection makes after the links before it.
#[tactic(auto, unfolding(crate::specs::Links::link_after))]
fn read_link(
    alloc: Global,
    apps: &[AppDecl],
    before: &[Link],
    text: &LinkText,
) -> Result<Link, MatchFault>
    requires apps { length apps.now ≤ most_apps }
    requires ports { (a : ℕ) → a < length apps.now → length (app_of apps.now a).ports ≤ most_ports }
    requires few { length before.now < most_links }
    ensures link { IfOk result (λ link. link_at_place apps.now before.now text.now ≡ Ok link) }
    ensures fault { IfErr result (IsFaultOf (link_at_place apps.now before.now text.now)) }
{
    let place = LinkId(before.len() as u32);
    let link = match ends_of(apps, text) {
        Ok(link) => link,
        Err(kind) => return Err(MatchFault::Link { link: place, kind }),
    };
    let (output, input) = (output_of(apps, &link), input_of(apps, &link));
    match fault_between(alloc, output, input, before, &link)? {
        Some(kind) => Err(MatchFault::Link { link: place, kind }),
        None => Ok(link),
    }
}

/// The links that the connections make between ports of the applications, one for each connection, in their order. A link has
/// the width, the latency and the number of blocks that its connection states.
///
/// The first faulty connection is the fault, by its place from 0, with the first of its kinds in the order of
/// `LinkKind`: an end names no application, then no port of it; the sender's port is no output or the receiver's no input;
/// the ports differ in kind; a port maps an index that is not below the stated width; a continuous input maps an index
/// that the output does not; an earlier connection joins the same two ports, or goes to the same continuous input. An
/// output may feed many inputs, many outputs may feed an event or a message input, and a port may have no connection.
///
/// There are at most 32 applications, each of at most 64 ports, and at most 64 connections.
pub fn match_links(
    alloc: Global,
    apps: &[AppDecl],
    texts: &[LinkText],
) -> Result<Items<Link>, MatchFault>
    requires apps { length apps.now ≤ most_apps }
    requires ports { (a : ℕ) → a < length apps.now → length (app_of apps.now a).ports ≤ most_ports }
    requires texts { length texts.now ≤ most_links }
    ensures links { IfOk result (λ links. links_of apps.now texts.now ≡ Ok links) }
    ensures fault { IfErr result (IsFaultOf (links_of apps.now texts.now)) }
{
    let mut links = Items::new(alloc);
    for text in texts {
        let link = read_link(alloc, apps, links.as_slice(), text)?;
        links.push(link)?;
    }
    Ok(links)
}
