//! Declarations of ports, and index maps, where there is enough memory.
ghost use Rattle.std.specs.Prelude.{◌≤◌};
ghost use Rattle.scene_model.specs.Limits.{most_ranks};

use index_maps::{IndexMap, Interval, MapFault, permutation};
use music_base::{Items, Nanos, NoMemory, Word};
use port_table::{PortFault, read_ports};
use scene_model::PortDecl;
use std::alloc::{AllocError, Global};

// The ports of an application of so many processes.
fn ports(alloc: Global, np: u32, text: &[u8]) -> Result<Items<PortDecl>, PortFault>
    requires least { 1 ≤ np }
    requires most { np ≤ most_ranks }
{
    read_ports(alloc, &Word::from_slice(alloc, text)?, np)
}

fn has_interval(alloc: Global, port: &PortDecl, first: u32, after: u32) -> Result<bool, NoMemory> {
    let intervals = port.map.intervals(alloc)?;
    Ok(intervals.as_slice() == [Interval { first, after }].as_slice())
}

// Whether the ports are the output `p` of 2 to 4 and an input of 1 to 3 that may be 1 ms late.
fn are_read(alloc: Global, output: &PortDecl, input: &PortDecl) -> Result<bool, NoMemory> {
    let is_named = output.name.as_slice() == b"p".as_slice();
    let is_late = input.latency == Nanos(1_000_000);
    let are_mapped = has_interval(alloc, output, 2, 5)? && has_interval(alloc, input, 1, 4)?;
    Ok(is_named && is_late && are_mapped)
}

fn are_two(alloc: Global, ports: &[PortDecl]) -> Result<bool, NoMemory> {
    match ports {
        [output, input] => are_read(alloc, output, input),
        _ => Ok(false),
    }
}

fn shared_of_first(alloc: Global, ports: &[PortDecl]) -> Result<Option<u32>, NoMemory> {
    match ports {
        [port] => port.map.first_shared(alloc),
        _ => Err(NoMemory),
    }
}

// The least index that two ranks of the port map.
fn first_shared(alloc: Global, np: u32, text: &[u8]) -> Result<Option<u32>, PortFault>
    requires least { 1 ≤ np }
    requires most { np ≤ most_ranks }
{
    let ports = ports(alloc, np, text)?;
    Ok(shared_of_first(alloc, ports.as_slice())?)
}

fn is_permutation_of(map: Result<IndexMap, MapFault>, indices: &[u32]) -> bool {
    match map {
        Ok(IndexMap::Permutation(list)) => list.as_slice() == indices,
        _ => false,
    }
}

#[test]
fn declarations_are_read(rt: HostRuntime) -> Result<(), PortFault> {
    let read = ports(
        rt.alloc(),
        1,
        b"out event p 2+3; in event in 3,1,2 latency 0.001",
    )?;
    assert!(rt; are_two(rt.alloc(), read.as_slice()) == Ok(true));
    Ok(())
}

#[test]
fn the_least_shared_index_is_found(rt: HostRuntime) {
    let alloc = rt.alloc();
    assert!(rt; first_shared(alloc, 2, b"in event e 0+4/4+4") == Ok(None));
    assert!(rt; first_shared(alloc, 3, b"in event e 8,3/9+3/7,8,3") == Ok(Some(3)));
}

#[test]
fn a_list_without_a_repeat_is_a_permutation(rt: HostRuntime) -> Result<(), AllocError> {
    let list = vec![in rt.alloc(); 3, 1, 2]?;
    assert!(rt; is_permutation_of(permutation(rt.alloc(), list), &[3, 1, 2]));
    Ok(())
}

#[test]
fn the_first_repeat_of_a_list_is_its_fault(rt: HostRuntime) -> Result<(), AllocError> {
    let list = vec![in rt.alloc(); 5, 7, 7, 5]?;
    let fault = permutation(rt.alloc(), list).err();
    assert!(rt; fault == Some(MapFault::Repeated { index: 7 }));
    Ok(())
}
