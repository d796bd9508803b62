//! Orders of acts, read line by line.
use crate::logs::SCENE;
use act_orders::{WriteFault, order_to_sink};
use music_base::{MemorySink, NoMemory};
use music_setup::setup;
use std::alloc::Global;

/// Three steps of each application.
const THREE_STEPS: &[u8] = b"stoptime=0.003
binary=script
timestep=0.001
[gen]
ports=out event a 0+1
[sink]
ports=in event p 0+1
gen.a -> sink.p
";

/// An application: the line of its acts, and how many steps it has.
struct App {
    run: &'static [u8],
    steps: u64,
}

/// A connection, which keeps one block: the lines of its acts, the places of its sender and its receiver, and how many blocks
/// each step of the receiver wants.
struct Link {
    take: &'static [u8],
    put: &'static [u8],
    from: usize,
    to: usize,
    wanted: &'static [u64],
}

/// What a reader of orders knows of a scene.
struct Known {
    apps: &'static [App],
    links: &'static [Link],
}

const THREE_STEPS_KNOWN: &Known = &Known {
    apps: &[
        App {
            run: b"run gen",
            steps: 3,
        },
        App {
            run: b"run sink",
            steps: 3,
        },
    ],
    links: &[Link {
        take: b"take 1",
        put: b"put 1",
        from: 0,
        to: 1,
        wanted: &[1, 2, 3],
    }],
};

/// Five applications and six connections. With ticks t of the sender and u of the receiver, and an allowance d, step j wants the
/// blocks k with `k * t + d < (j + 1) * u`. In ms, (t, u, d) are (1, 1, 1), (1, 2, 2), (2, 1, 1), (2, 1, 0), (1, 2, 0) and
/// (2, 1, 1): the last one is an interpolated input, with a delay of 2 and the ticks' difference.
const NETWORKS_KNOWN: &Known = &Known {
    apps: &[
        App {
            run: b"run clk",
            steps: 4,
        },
        App {
            run: b"run left",
            steps: 4,
        },
        App {
            run: b"run right",
            steps: 2,
        },
        App {
            run: b"run wave",
            steps: 2,
        },
        App {
            run: b"run watch",
            steps: 4,
        },
    ],
    links: &[
        Link {
            take: b"take 1",
            put: b"put 1",
            from: 0,
            to: 1,
            wanted: &[0, 1, 2, 3],
        },
        Link {
            take: b"take 2",
            put: b"put 2",
            from: 1,
            to: 2,
            wanted: &[0, 2],
        },
        Link {
            take: b"take 3",
            put: b"put 3",
            from: 2,
            to: 1,
            wanted: &[0, 1, 1, 2],
        },
        Link {
            take: b"take 4",
            put: b"put 4",
            from: 2,
            to: 4,
            wanted: &[1, 1, 2, 2],
        },
        Link {
            take: b"take 5",
            put: b"put 5",
            from: 0,
            to: 3,
            wanted: &[2, 4],
        },
        Link {
            take: b"take 6",
            put: b"put 6",
            from: 3,
            to: 4,
            wanted: &[0, 1, 1, 2],
        },
    ],
};

/// The steps run of each application, and the blocks put and taken on each connection.
#[derive(Drop)]
struct Counts {
    run: Vec<u64>,
    put: Vec<u64>,
    taken: Vec<u64>,
}

fn at(counts: &[u64], place: usize) -> u64 {
    counts.get(place).copied().unwrap_or(0)
}

fn count_one(counts: &mut [u64], place: usize) {
    if place < counts.len() {
        counts[place] = counts[place].saturating_add(1);
    }
}

/// How many blocks the step of the receiver with this number wants, if there is one.
fn wanted_by(link: &Link, step: u64) -> Option<u64> {
    link.wanted.get(step as usize).copied()
}

/// How many blocks some step of the receiver wants.
fn wanted_blocks(link: &Link) -> u64 {
    link.wanted.last().copied().unwrap_or(0)
}

fn can_take(link: &Link, place: usize, counts: &Counts) -> bool {
    let taken = at(&counts.taken, place);
    match wanted_by(link, at(&counts.run, link.to)) {
        Some(wanted) => taken < at(&counts.put, place) && taken < wanted,
        None => false,
    }
}

fn can_put(link: &Link, place: usize, counts: &Counts) -> bool {
    let put = at(&counts.put, place);
    put < at(&counts.run, link.from) && put < wanted_blocks(link) && put <= at(&counts.taken, place)
}

/// Whether a connection lets this application run its next step: what the step wants was taken, and what the steps before made
/// was put.
fn lets_run(link: &Link, place: usize, app: usize, counts: &Counts) -> bool {
    let run = at(&counts.run, app);
    if link.to == app && wanted_by(link, run) != Some(at(&counts.taken, place)) {
        return false;
    }
    link.from != app || at(&counts.put, place) == run.min(wanted_blocks(link))
}

fn can_run(known: &Known, place: usize, counts: &Counts) -> bool {
    let Some(app) = known.apps.get(place) else {
        return false;
    };
    if at(&counts.run, place) >= app.steps {
        return false;
    }
    for (number, link) in known.links.iter().enumerate() {
        if !lets_run(link, number, place, counts) {
            return false;
        }
    }
    true
}

/// Does the act of a line, if it is one of a connection and is allowed.
fn does_of_links(known: &Known, line: &[u8], counts: &mut Counts) -> bool {
    for (place, link) in known.links.iter().enumerate() {
        if line == link.take && can_take(link, place, counts) {
            count_one(&mut counts.taken, place);
            return true;
        }
        if line == link.put && can_put(link, place, counts) {
            count_one(&mut counts.put, place);
            return true;
        }
    }
    false
}

/// Does the act of a line, if it is one of an application and is allowed.
fn does_of_apps(known: &Known, line: &[u8], counts: &mut Counts) -> bool {
    for (place, app) in known.apps.iter().enumerate() {
        if line == app.run && can_run(known, place, counts) {
            count_one(&mut counts.run, place);
            return true;
        }
    }
    false
}

/// Does the acts of all lines, if each is allowed, and each line has its end.
fn does_all(known: &Known, text: &[u8], counts: &mut Counts) -> bool {
    let mut begin = 0;
    for end in 0..text.len() {
        if text[end] == b'\n' {
            if begin > end {
                return false;
            }
            let line = &text[begin..end];
            if !does_of_links(known, line, counts) && !does_of_apps(known, line, counts) {
                return false;
            }
            begin = end + 1;
        }
    }
    begin == text.len()
}

/// Whether all steps were run, and all wanted blocks put.
fn are_finished(known: &Known, counts: &Counts) -> bool {
    for (place, app) in known.apps.iter().enumerate() {
        if at(&counts.run, place) != app.steps {
            return false;
        }
    }
    for (place, link) in known.links.iter().enumerate() {
        if at(&counts.put, place) != wanted_blocks(link) {
            return false;
        }
    }
    true
}

fn opening_counts(alloc: Global, known: &Known) -> Result<Counts, NoMemory> {
    Ok(Counts {
        run: vec![in alloc; 0; known.apps.len()]?,
        put: vec![in alloc; 0; known.links.len()]?,
        taken: vec![in alloc; 0; known.links.len()]?,
    })
}

/// Whether the text is an order of allowed acts after which all is finished.
fn is_order(alloc: Global, known: &Known, text: &[u8]) -> Result<bool, NoMemory> {
    let mut counts = opening_counts(alloc, known)?;
    Ok(does_all(known, text, &mut counts) && are_finished(known, &counts))
}

/// What a sink with so much room gets of the order of this scene, and how the call ends.
fn order_of(alloc: Global, text: &[u8], room: u64) -> Option<(MemorySink, Result<(), WriteFault>)> {
    let Ok(ready) = setup(alloc, text) else {
        return None;
    };
    if room > 1_000_000 {
        return None;
    }
    let Ok(mut sink) = MemorySink::make(alloc, 7, room) else {
        return None;
    };
    let result = order_to_sink(alloc, ready.scene(), ready.plan(), &mut sink);
    Some((sink, result))
}

/// Whether all of an order is written.
fn is_written(alloc: Global, text: &[u8], known: &Known) -> bool {
    let Some((sink, result)) = order_of(alloc, text, 1_000) else {
        return false;
    };
    result == Ok(()) && is_order(alloc, known, sink.taken()) == Ok(true)
}

/// What a full sink gets of an order, and how the call ends.
fn into_full_sink(alloc: Global) -> Option<(bool, Result<(), WriteFault>)> {
    let (sink, result) = order_of(alloc, THREE_STEPS, 0)?;
    Some((sink.taken().is_empty(), result))
}

#[test]
fn an_order_finishes_all(rt: HostRuntime) {
    assert!(rt; is_written(rt.alloc(), THREE_STEPS, THREE_STEPS_KNOWN));
}

#[test]
fn an_order_of_five_applications_finishes_all(rt: HostRuntime) {
    assert!(rt; is_written(rt.alloc(), SCENE, NETWORKS_KNOWN));
}

#[test]
fn a_full_sink_ends_an_order(rt: HostRuntime) {
    assert!(rt; into_full_sink(rt.alloc()) == Some((true, Err(WriteFault::Sink))));
}
