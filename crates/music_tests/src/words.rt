//! Words that are refused, and `load`. Neither asks anything of the source, which would fail.
use crate::texts::{USAGE, words_of};
use music_base::{MemorySink, MemorySource, NoMemory};
use music_cli::music_alone;
use std::alloc::Global;
use std::process::Abort;

const REFUSED: &[&[&str]] = &[
    // no command
    &[],
    &[""],
    &["Check"],
    &["help"],
    &["--help"],
    &["--version"],
    // words behind the last
    &["check", "plan"],
    &["order", "--workers=1"],
    &["run", "spikes.music"],
    &["run", "--workers", "1", "1"],
    &["load", "--number=1", "x"],
    // more or less than one worker
    &["run", "--workers", "2"],
    &["run", "--workers=0"],
    &["load", "--number=1", "--workers=8"],
    // numbers that are none, or too great
    &["run", "--workers=+1"],
    &["run", "--workers=00001"],
    &["run", "--workers="],
    &["run", "--workers", ""],
    &["run", "--workers=１"],
    &["load", "--number=²"],
    &["load", "--number=-1"],
    &["load", "--number=+1"],
    &["load", "--number=10000"],
    &["load", "--number=00000"],
    &["load", "--number="],
    // an option twice, unknown, in part, short, without its number, or without its command
    &["run", "--workers=1", "--workers=1"],
    &["load", "--number", "1", "--number=1"],
    &["run", "--threads=1"],
    &["run", "--work=1"],
    &["run", "-w", "1"],
    &["load", "--num", "1"],
    &["run", "--workers"],
    &["run", "--number=1"],
    &["check", "--number=1"],
    &["load"],
    &["load", "1"],
    &["--number=1"],
    // `--` at any place
    &["--"],
    &["--", "check"],
    &["check", "--"],
    &["run", "--", "--workers=1"],
    &["load", "--number", "--", "1"],
    &["load", "--number=1", "--"],
];

/// Words, and the line that they get. Scene 0 has two applications, which step 1,000 and 500 times, each with four values;
/// and of its two sources 500 events each are delivered up to ten times, but for those that come after the stop.
const LOADED: &[(&[&str], &str)] = &[
    (
        &["load", "--number", "0"],
        "load 0: 2 applications, 4 connections, 15450 rows, 586747 bytes\n",
    ),
    (
        &["load", "--workers=1", "--number=0000"],
        "load 0: 2 applications, 4 connections, 15450 rows, 586747 bytes\n",
    ),
    (
        &["load", "--number=34"],
        "load 34: 8 applications, 16 connections, 287916 rows, 11519857 bytes\n",
    ),
];

/// Whether the words get this status and this text, with a source that fails where it is asked.
fn get(alloc: Global, words: &[&str], status: u8, text: &str) -> Result<bool, NoMemory> {
    let words = words_of(alloc, words)?;
    let fails = [1u64].to_vec(alloc)?;
    let mut source = MemorySource::make(Vec::new(alloc), 100, fails);
    let mut sink = MemorySink::make(alloc, 1000, 1000)?;
    let given = music_alone(alloc, &words, &mut source, &mut sink);
    Ok(given == status && sink.taken() == text.as_bytes())
}

#[test]
fn other_words_get_the_usage_line(rt: HostRuntime) {
    for words in REFUSED {
        assert!(rt;
            get(rt.alloc(), words, 2, USAGE) == Ok(true),
            "at {words:?}"
        );
    }
}

#[test]
fn scenes_of_a_number_are_counted(rt: HostRuntime) {
    for (words, line) in LOADED {
        assert!(rt; get(rt.alloc(), words, 0, line) == Ok(true), "at {words:?}");
    }
}
