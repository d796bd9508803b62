//! The standard ends, over a reader and a writer that fail when they are told to.
use music_base::{Failed, Sink, Source, StdSink, StdSource};
use std::io::{self, ErrorKind, Read, Write};

// What a reader or a writer does at a call.
#[derive(Clone, Copy)]
enum Turn {
    Count(usize),
    Fails,
}

#[derive(Drop)]
struct Given(Turn);

impl Read for Given {
    fn read(&mut self, into: &mut [u8]) -> io::Result<usize> {
        match self.0 {
            Turn::Count(count) => {
                let count = count.min(into.len());
                for byte in &mut into[..count] {
                    *byte = b'x';
                }
                Ok(count)
            }
            Turn::Fails => Err(io::Error::from(ErrorKind::Other)),
        }
    }
}

#[derive(Drop)]
struct Taking {
    writes: Turn,
    flushes: Turn,
}

impl Write for Taking {
    fn write(&mut self, from: &[u8]) -> io::Result<usize> {
        match self.writes {
            Turn::Count(count) => Ok(count.min(from.len())),
            Turn::Fails => Err(io::Error::from(ErrorKind::Other)),
        }
    }

    fn flush(&mut self) -> io::Result<()> {
        match self.flushes {
            Turn::Count(_) => Ok(()),
            Turn::Fails => Err(io::Error::from(ErrorKind::Other)),
        }
    }
}

/// What a reader does, and what the source over it answers.
const READS: &[(Turn, Result<usize, Failed>)] = &[
    (Turn::Count(3), Ok(3)),
    (Turn::Count(0), Ok(0)),
    (Turn::Fails, Err(Failed)),
];

/// What a writer does at a write and at a flush, and what the sink over it answers to three bytes.
const WRITES: &[(Turn, Turn, Result<usize, Failed>)] = &[
    (Turn::Count(2), Turn::Count(0), Ok(2)),
    (Turn::Count(9), Turn::Count(0), Ok(3)),
    (Turn::Count(0), Turn::Count(0), Err(Failed)),
    (Turn::Fails, Turn::Count(0), Err(Failed)),
    (Turn::Count(2), Turn::Fails, Err(Failed)),
];

fn read_from(turn: Turn, into: &mut [u8]) -> Result<usize, Failed> {
    StdSource::new(Given(turn)).read(into)
}

fn written_to(writes: Turn, flushes: Turn) -> Result<usize, Failed> {
    StdSink::new(Taking { writes, flushes }).write(b"abc")
}

#[test]
fn a_source_hands_on_what_its_reader_does(rt: HostRuntime) {
    let mut into = [0u8; 4];
    for (turn, answer) in READS {
        assert_eq!(rt; read_from(*turn, &mut into), *answer);
    }
    assert!(rt; into == *b"xxx\0");
}

#[test]
fn a_sink_hands_on_what_its_writer_does(rt: HostRuntime) {
    for (writes, flushes, answer) in WRITES {
        assert_eq!(rt; written_to(*writes, *flushes), *answer);
    }
}
