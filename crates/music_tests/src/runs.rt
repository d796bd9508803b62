//! Words and bytes, and the status and the text that they get, by both top calls.
use crate::tables::gets;
use crate::texts::{HEADER, SLOW, SLOW_LOG, SPIKES, SPIKES_LOG, UNHEARD, USAGE, blanks, words_of};
use music_base::{FreeGate, MemorySink, MemorySource, NoMemory};
use music_cli::{music, music_alone};
use std::alloc::Global;
use std::process::Abort;
use std::sync::Wait;
use std::thread::Threads;

#[derive(Clone, Copy)]
pub struct Case<'a> {
    words: &'a [&'a str],
    text: &'a str,
    fails: &'a [u64],
    room: u16,
    status: u8,
    taken: &'a str,
}

/// The run of the spikes.
pub const RUN: Case<'static> = Case {
    words: &["run"],
    text: SPIKES,
    fails: &[],
    room: 1000,
    status: 0,
    taken: SPIKES_LOG,
};

const REFUSED: Case<'static> = Case {
    status: 2,
    taken: USAGE,
    ..RUN
};

const FAULTY: Case<'static> = Case { status: 3, ..RUN };

const CASES: &[Case<'static>] = &[
    RUN,
    Case {
        text: SLOW,
        taken: SLOW_LOG,
        ..RUN
    },
    Case {
        text: UNHEARD,
        taken: HEADER,
        ..RUN
    },
    Case {
        text: "",
        status: 4,
        taken: "scene fault: StopMissing\n",
        ..RUN
    },
    Case {
        text: "stoptime=1\n[gen",
        taken: "text fault: line 2: BadLine\n",
        ..FAULTY
    },
    Case {
        text: "[a]\n[a]\n",
        taken: "text fault: line 2: RepeatedSection\n",
        ..FAULTY
    },
    Case {
        text: "[a]\nnp=1\nnp=1\n",
        taken: "text fault: line 3: RepeatedSetting\n",
        ..FAULTY
    },
    Case {
        text: "a.b -> c.d [0]",
        taken: "text fault: line 1: BadWidth\n",
        ..FAULTY
    },
    Case {
        text: "[a b]",
        taken: "text fault: line 1: BadName\n",
        ..FAULTY
    },
    Case {
        text: "\n\n\0",
        taken: "text fault: line 3: BadByte\n",
        ..FAULTY
    },
    Case {
        words: &["run", "--workers", "1"],
        ..RUN
    },
    Case {
        words: &["run", "--workers=01"],
        ..RUN
    },
    Case {
        words: &["run", "x"],
        ..REFUSED
    },
    Case {
        words: &["check", "x"],
        ..REFUSED
    },
    Case {
        words: &[],
        ..REFUSED
    },
    // a sink whose room is used up takes no more
    Case {
        room: 40,
        status: 7,
        taken: "clock,app,port,kind,rank,local,global,ti",
        ..RUN
    },
    // a source that fails its second call
    Case {
        fails: &[2],
        status: 6,
        taken: "read fault\n",
        ..RUN
    },
];

/// The words, the source and the sink of a case.
#[derive(Drop)]
pub struct Ends {
    pub words: Vec<String>,
    pub source: MemorySource,
    pub sink: MemorySink,
}

/// What a run of the case is made of.
pub fn ends_of(alloc: Global, case: &Case<'_>) -> Result<Ends, NoMemory> {
    let words = words_of(alloc, case.words)?;
    let (text, fails) = (
        case.text.as_bytes().to_vec(alloc)?,
        case.fails.to_vec(alloc)?,
    );
    let source = MemorySource::make(text, 10, fails);
    let sink = MemorySink::make(alloc, 40, u64::from(case.room))?;
    Ok(Ends {
        words,
        source,
        sink,
    })
}

fn is_answered(rt: &impl Abort, case: &Case<'_>, status: u8, taken: &[u8]) {
    let is_right = status == case.status && taken == case.taken.as_bytes();
    assert!(rt; is_right, "status {status}, {taken:?}");
}

fn is_run_alone(rt: &impl Abort, alloc: Global, case: &Case<'_>) -> Result<(), NoMemory> {
    let mut ends = ends_of(alloc, case)?;
    let status = music_alone(alloc, &ends.words, &mut ends.source, &mut ends.sink);
    is_answered(rt, case, status, ends.sink.taken());
    Ok(())
}

fn is_run<R: Abort + Threads + Wait + Sync>(
    rt: &R,
    alloc: Global,
    case: &Case<'_>,
) -> Result<(), NoMemory> {
    let mut ends = ends_of(alloc, case)?;
    let (source, sink) = (&mut ends.source, &mut ends.sink);
    let status = music(rt, alloc, &ends.words, source, sink, &FreeGate);
    is_answered(rt, case, status, ends.sink.taken());
    Ok(())
}

fn are_too_many(alloc: Global, count: usize) -> Result<bool, NoMemory> {
    let answer = b"text fault: line 0: TooLong\n";
    gets(alloc, "run", blanks(alloc, count)?, 3, answer)
}

#[test]
fn one_worker_gives_the_answers(rt: HostRuntime) {
    for case in CASES {
        assert!(rt; is_run_alone(&rt, rt.alloc(), case).is_ok());
    }
}

#[test]
fn the_program_gives_the_answers(rt: HostRuntime) {
    for case in CASES {
        assert!(rt; is_run(&rt, rt.alloc(), case).is_ok());
    }
}

#[test]
fn a_text_that_is_too_long_is_refused(rt: HostRuntime) {
    assert!(rt; are_too_many(rt.alloc(), 1_048_577) == Ok(true));
}
