ghost use Rattle.std.specs.Prelude.{◌≡◌, ◌<◌, ◌≤◌, true, length, bytes_eq, IfOk, IfErr, OnOk, None, Ok};
ghost use Rattle.std.specs.List.{list_any};
ghost use Rattle.text_words.specs.InTurn.{unless};
ghost use Rattle.text_words.specs.Words.{words};
ghost use Rattle.scene_model.specs.Limits.{most_ports, most_ranks};
ghost use Rattle.scene_model.specs.Ports.{names_differ, output_twice};
ghost use Rattle.port_table.specs.Ports.{IsFaultOf, fault_of_map, is_beyond, port_beside, port_with, ports_of};
ghost use Rattle.port_table.specs.Stated.{map_stated};

use crate::PortFault;
use crate::map_text::MapText;
use crate::maps::port_map;
use crate::options::{Options, options_in};
use crate::port_text::{heading_in, map_part};
use index_maps::{MapFault, PortMap};
use music_base::{Items, Name, Nanos, NoMemory, Word};
use scene_model::{Direction, MOST_PORTS, PortDecl, PortKind};
use std::alloc::Global;
use text_words::split_declaration;

fn has_name(before: &[PortDecl], name: &[u8]) -> bool
    ensures { result ≡ list_any (λ (port : PortDecl). bytes_eq port.name name.now) before.now }
{
    before.iter().any(|port| port.name.as_slice() == name)
}

fn is_beyond(before: &[PortDecl], name: &[u8]) -> bool
    ensures { result ≡ is_beyond before.now name.now }
{
    before.len() >= MOST_PORTS || has_name(before, name)
}

/// The least index that two ranks of an output map.
fn output_twice(alloc: Global, direction: Direction, map: &PortMap) -> Result<Option<u32>, NoMemory>
    ensures { IfOk result (λ index. index ≡ output_twice direction map.now) }
{
    match direction {
        Direction::Output => map.first_shared(alloc),
        Direction::Input => Ok(None),
    }
}

/// The map that is stated, which has no fault.
fn faultless_map(
    alloc: Global,
    place: u32,
    direction: Direction,
    text: MapText,
) -> Result<PortMap, PortFault>
    ensures map { IfOk result (λ map. map ≡ map_stated text) }
    ensures faultless { IfOk result (λ map. fault_of_map place direction map ≡ None) }
    ensures fault { IfErr result (IsFaultOf (unless (fault_of_map place direction (map_stated text)) text)) }
{
    let map = match port_map(alloc, text) {
        Ok(map) => map,
        Err(MapFault::Repeated { index }) => return Err(PortFault::MapRepeated { place, index }),
        Err(MapFault::Memory) => return Err(PortFault::Memory),
    };
    match output_twice(alloc, direction, &map)? {
        Some(index) => Err(PortFault::OutputTwice { place, index }),
        None => Ok(map),
    }
}

fn port_with(
    name: Name,
    direction: Direction,
    kind: PortKind,
    map: PortMap,
    options: Options,
) -> PortDecl
    ensures { result ≡ port_with name direction kind map options }
{
    PortDecl {
        name,
        direction,
        kind,
        map,
        latency: options.latency.unwrap_or(Nanos(0)),
        delay: options.delay.unwrap_or(Nanos(0)),
        interpolate: options.interpolate.unwrap_or(true),
        buffered: options.buffered,
    }
}

/// The port that a declaration gives beside the ports before it.
#[tactic(auto, unfolding(crate::specs::Ports::port_beside, crate::specs::Ports::fault_beside, crate::specs::Ports::port_in))]
fn read_port(
    alloc: Global,
    np: u32,
    before: &[PortDecl],
    piece: &[u8],
) -> Result<PortDecl, PortFault>
    requires ranks { 1 ≤ np }
    requires few { length before.now ≤ most_ports }
    ensures few { OnOk result (length before.now < most_ports) }
    ensures port { IfOk result (λ port. port_beside np before.now (words piece.now) ≡ Ok port) }
    ensures fault { IfErr result (IsFaultOf (port_beside np before.now (words piece.now))) }
{
    let place = before.len() as u32 + 1;
    let faulty = PortFault::PortText { place };
    let Some((direction, kind, name, rest)) = heading_in(piece) else {
        return Err(faulty);
    };
    let Some((map, rest)) = map_part(alloc, np, direction, kind, rest)? else {
        return Err(faulty);
    };
    let Some(options) = options_in(direction, kind, rest) else {
        return Err(faulty);
    };
    if is_beyond(before, name) {
        return Err(faulty);
    }
    let map = faultless_map(alloc, place, direction, map)?;
    let name = Name::from_slice(alloc, name)?;
    Ok(port_with(name, direction, kind, map, options))
}

/// The ports that the text declares, for an application of `np` processes.
///
/// The text is cut at `;`, and pieces of blanks alone are skipped. A declaration is a direction (`out` or `in`), a kind
/// (`event`, `cont` or `message`), a name, for `event` and `cont` a map, and then options, each at most once. A map is
/// `split:B+N`, or for each rank `B+N` or a list of indices joined by commas, the ranks joined by `/`. The first
/// declaration that is faulty is the fault, by its place from 1: `PortText` where it has not this form, has the name of
/// an earlier one or is the 65th, then `MapRepeated`, then `OutputTwice`.
///
/// There are 1 to 64 processes.
#[tactic(auto, using(crate::proofs::LawfulPorts::ports_differ))]
pub fn read_ports(alloc: Global, text: &Word, np: u32) -> Result<Items<PortDecl>, PortFault>
    requires least { 1 ≤ np }
    requires most { np ≤ most_ranks }
    ensures ports { IfOk result (λ ports. ports_of np text.now ≡ Ok ports) }
    ensures fault { IfErr result (IsFaultOf (ports_of np text.now)) }
    ensures few { IfOk result (λ ports. length ports ≤ most_ports) }
    ensures differ { IfOk result (λ ports. names_differ ports ≡ true) }
{
    let mut ports = Items::new(alloc);
    let mut rest = text.as_slice();
    while let Some((piece, others)) = split_declaration(rest) {
        rest = others;
        let port = read_port(alloc, np, ports.as_slice(), piece)?;
        ports.push(port)?;
    }
    Ok(ports)
}
