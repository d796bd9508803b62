//! Scenes that are set up from a text, or why they are not, where there is enough memory.
use crate::plans::{LITTLE_ROOM, TWO_LATENCIES, scene_of};
use crate::texts::SPIKES;
use config_text::TextKind;
use music_base::{AppId, LinkId};
use music_setup::{AppKind, SceneFault, SetupFault, setup};
use port_match::LinkKind;
use port_table::PortFault;
use scene_model::wanted_blocks;
use std::alloc::{AllocError, Global};

/// A source and a sink of events: the stop, the times of each, what the input and the connection state, and how many blocks
/// are wanted.
type Wanted<'a> = (&'a str, &'a str, &'a str, &'a str, &'a str, u64);

const WANTED: &[Wanted<'static>] = &[
    ("0.003", "timestep=0.001", "timestep=0.001", "", "", 3),
    // the first event comes 10 ms late, and the receiver makes two steps of 1 ms
    (
        "0.002",
        "timestep=0.001",
        "timestep=0.001",
        " latency 0.01",
        "",
        0,
    ),
    (
        "0.002",
        "timestep=0.001",
        "timestep=0.001",
        "",
        " latency=0.01",
        0,
    ),
    // one step of the sender lasts as long as two of the receiver
    ("0.002", "timestep=0.002", "timestep=0.001", "", "", 1),
    // one step of the receiver lasts as long as ten of the sender, which makes twenty
    ("0.02", "timestep=0.001", "timestep=0.01", "", "", 20),
    // the sender starts within the receiver's second step, and by half a tick of latency its second block is late
    (
        "0.003",
        "timestep=0.001\nstart=0.0015",
        "timestep=0.001",
        "",
        "",
        2,
    ),
    (
        "0.003",
        "timestep=0.001\nstart=0.0015",
        "timestep=0.001",
        " latency 0.0005",
        "",
        1,
    ),
    // the receiver starts in the middle of the sender's first step, and at the stop
    (
        "0.003",
        "timestep=0.001",
        "timestep=0.001\nstart=0.0005",
        "",
        "",
        3,
    ),
    (
        "0.003",
        "timestep=0.001",
        "timestep=0.001\nstart=0.003",
        "",
        "",
        0,
    ),
    // either stops after its first step
    (
        "0.003",
        "timestep=0.001",
        "timestep=0.001\nstoptime=0.001",
        "",
        "",
        1,
    ),
    (
        "0.003",
        "timestep=0.001\nstoptime=0.001",
        "timestep=0.001",
        "",
        "",
        1,
    ),
];

/// A connection from events to values.
const OTHER_KIND: &[u8] = b"stoptime=0.003
binary=script
timestep=0.001
[gen]
ports=out event spikes 0+10
[sink]
ports=in cont d 0+10
gen.spikes -> sink.d [5]
";

/// An input that lists an index twice.
const REPEATED: &[u8] = b"stoptime=0.003
binary=script
timestep=0.001
[gen]
ports=out event spikes 0+10
[sink]
ports=in event in 3,1,3
gen.spikes -> sink.in [10]
";

fn spikes_of(alloc: Global, row: Wanted<'_>) -> Result<String, AllocError> {
    let (stop, sender, receiver, input, link, _) = row;
    let mut text = String::new(alloc);
    writeln!(text, "stoptime={stop}\nbinary=script")?;
    writeln!(text, "[gen]\n{sender}\nports=out event spikes 0+10")?;
    writeln!(text, "[sink]\n{receiver}\nports=in event in 0+10{input}")?;
    writeln!(text, "gen.spikes -> sink.in [10]{link}")?;
    Ok(text)
}

/// How many blocks of the first connection of the text are wanted.
fn first_wanted(alloc: Global, text: &[u8]) -> Option<u64> {
    let Ok(scene) = scene_of(alloc, text) else {
        return None;
    };
    if scene.links.as_slice().is_empty() {
        return None;
    }
    Some(wanted_blocks(&scene, LinkId(0)))
}

fn is_wanted(alloc: Global, row: Wanted<'_>) -> bool {
    match spikes_of(alloc, row) {
        Ok(text) => first_wanted(alloc, text.as_bytes()) == Some(row.5),
        Err(_) => false,
    }
}

/// Whether the text is set up to a scene of so many applications with these limits, none of which is stated.
fn has_plan(alloc: Global, text: &[u8], apps: usize, limits: &[u64]) -> bool {
    match setup(alloc, text) {
        Ok(ready) => {
            let plan = ready.plan();
            let stated = plan.stated.as_slice().iter().any(|stated| *stated);
            ready.scene().apps.len() == apps && plan.limits.as_slice() == limits && !stated
        }
        Err(_) => false,
    }
}

/// How many waits the cycle has with which the text is refused.
fn refused_with(alloc: Global, text: &[u8]) -> Option<usize> {
    match setup(alloc, text) {
        Err(SetupFault::Uncovered(cycle)) => Some(cycle.0.len()),
        _ => None,
    }
}

/// Whether this is the first fault of the scene of the text.
fn has_scene_fault(alloc: Global, text: &[u8], expected: SceneFault) -> bool {
    match &setup(alloc, text) {
        Err(SetupFault::Scene(fault)) => *fault == expected,
        _ => false,
    }
}

/// Whether the first connection of the text is faulty, with this fault.
fn has_link_fault(alloc: Global, text: &[u8], expected: LinkKind) -> bool {
    match &setup(alloc, text) {
        Err(SetupFault::Link { link, kind }) => link.0 == 0 && *kind == expected,
        _ => false,
    }
}

/// The first faulty line of the text.
fn text_fault(alloc: Global, text: &[u8]) -> Option<(u64, TextKind)> {
    match setup(alloc, text) {
        Err(SetupFault::Text { line, kind }) => Some((line, kind)),
        _ => None,
    }
}

#[test]
fn blocks_are_wanted(rt: HostRuntime) {
    for row in WANTED {
        assert!(rt; is_wanted(rt.alloc(), *row), "{row:?}");
    }
}

#[test]
fn texts_are_set_up(rt: HostRuntime) {
    assert!(rt; has_plan(rt.alloc(), b"stoptime=0", 0, &[]));
    assert!(rt; has_plan(rt.alloc(), SPIKES, 2, &[1]));
    assert!(rt; has_plan(rt.alloc(), TWO_LATENCIES, 2, &[1, 4]));
}

#[test]
fn a_cycle_that_is_not_covered_is_refused(rt: HostRuntime) {
    assert!(rt; refused_with(rt.alloc(), LITTLE_ROOM) == Some(2));
}

#[test]
fn first_faults_are_told(rt: HostRuntime) {
    let alloc = rt.alloc();
    assert!(rt; text_fault(alloc, b"stoptime=1\n[gen") == Some((2, TextKind::BadLine)));
    assert!(rt; has_scene_fault(alloc, b"", SceneFault::StopMissing));
    assert!(rt; has_link_fault(alloc, OTHER_KIND, LinkKind::Kind));
}

#[test]
fn a_fault_of_a_port_is_told_with_its_place(rt: HostRuntime) {
    let port = PortFault::MapRepeated { place: 1, index: 3 };
    let app = AppId(1);
    let kind = AppKind::Ports(port);
    assert!(rt; has_scene_fault(rt.alloc(), REPEATED, SceneFault::App { app, kind }));
}
