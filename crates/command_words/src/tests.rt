//! Words in their forms, and words that are refused.
use crate::{Command, command_of};
use music_base::NoMemory;
use std::alloc::Global;
use std::process::Abort;

/// A run with one worker.
const RUN: Command = Command::Run { workers: 1 };

/// Words, and the command that they give.
const ACCEPTED: &[(&[&str], Command)] = &[
    (&["check"], Command::Check),
    (&["plan"], Command::Plan),
    (&["order"], Command::Order),
    (&["run"], RUN),
    (&["run", "--workers", "1"], RUN),
    (&["run", "--workers=1"], RUN),
    (&["run", "--workers=01"], RUN),
    (&["run", "--workers", "0001"], RUN),
];

/// The words of `load`, and the number that they give.
const LOADED: &[(&[&str], u32)] = &[
    (&["load", "--number", "0"], 0),
    (&["load", "--number=0"], 0),
    (&["load", "--number=7"], 7),
    (&["load", "--number", "0034"], 34),
    // zeros in front change nothing: the digits are decimal
    (&["load", "--number=010"], 10),
    (&["load", "--number=9999"], 9_999),
    (&["load", "--number", "42", "--workers", "1"], 42),
    (&["load", "--number", "42", "--workers=1"], 42),
    (&["load", "--workers", "1", "--number=42"], 42),
    (&["load", "--workers=0001", "--number", "42"], 42),
];

const REFUSED: &[&[&str]] = &[
    &[],
    // no command, or none that is spelled so
    &[""],
    &["Check"],
    &["checks"],
    &["chec"],
    &[" check"],
    &["1"],
    &["--workers", "1"],
    &["--workers=1", "run"],
    &["--number=1", "load"],
    // words behind the last
    &["check", "check"],
    &["check", ""],
    &["plan", "order"],
    &["order", "--workers=1"],
    &["check", "--number=1"],
    &["run", "check"],
    &["run", "1"],
    &["run", ""],
    &["run", "--workers", "1", "1"],
    &["load", "--number", "1", "--workers", "1", "x"],
    // help, version and parts of a name
    &["help"],
    &["--help"],
    &["-h"],
    &["--version"],
    &["-V"],
    &["help", "run"],
    &["run", "--help"],
    &["run", "-h"],
    &["run", "help"],
    &["load", "--number=1", "--help"],
    &["run", "--work", "1"],
    &["run", "--w=1"],
    &["load", "--num", "1"],
    &["run", "-w", "1"],
    &["run", "-workers", "1"],
    &["run", "--Workers", "1"],
    &["run", "--workers1"],
    // what else begins with a hyphen
    &["-"],
    &["-check"],
    &["run", "-"],
    &["run", "-1"],
    &["run", "--threads=1"],
    &["load", "--number", "1", "-"],
    &["run", "---workers", "1"],
    // `--` at any place
    &["--"],
    &["--", "check"],
    &["check", "--"],
    &["run", "--"],
    &["run", "--", "--workers=1"],
    &["run", "--workers", "--"],
    &["run", "--workers", "--", "1"],
    &["run", "--workers", "1", "--"],
    &["load", "--number=1", "--"],
    // an option without its text, or twice
    &["run", "--workers"],
    &["run", "--workers="],
    &["run", "--workers", ""],
    &["load", "--number="],
    &["load", "--number"],
    &["load", "--number", "--workers=1"],
    &["load", "--number", "--workers", "1"],
    &["run", "--workers", "1", "--workers", "1"],
    &["run", "--workers=1", "--workers=1"],
    &["run", "--workers", "1", "--workers=1"],
    &["load", "--number=1", "--number=1"],
    &["load", "--number", "1", "--workers=1", "--number=1"],
    // `--number` belongs to `load`, and has to stand there
    &["run", "--number", "1"],
    &["run", "--workers=1", "--number=1"],
    &["load"],
    &["load", "--workers=1"],
    &["load", "1"],
    // numbers beyond a limit
    &["run", "--workers=0"],
    &["run", "--workers", "0000"],
    &["run", "--workers", "9"],
    // more workers than one, as long as one is the most
    &["run", "--workers", "2"],
    &["run", "--workers=8"],
    &["load", "--number=1", "--workers=2"],
    // numbers beyond the limits of `load`, and more than four digits
    &["load", "--number=10000"],
    &["load", "--number=00001"],
    &["run", "--workers=00001"],
    &["run", "--workers=18446744073709551617"],
    // texts that are no number
    &["run", "--workers=+1"],
    &["run", "--workers", "+1"],
    &["run", "--workers=-1"],
    &["run", "--workers", "-1"],
    &["run", "--workers= 1"],
    &["run", "--workers=1 "],
    &["run", "--workers==1"],
    &["run", "--workers=1,1"],
    &["run", "--workers=1.0"],
    &["run", "--workers=0x1"],
    &["run", "--workers=one"],
    &["load", "--number=1_0"],
    &["load", "--number=1e1"],
    // digits of other scripts: Arabic-Indic, full-width and superscript
    &["run", "--workers=١"],
    &["run", "--workers=１"],
    &["load", "--number", "٣"],
    &["load", "--number=²"],
];

fn found(alloc: Global, words: &[&str]) -> Result<Option<Command>, NoMemory> {
    let mut texts = Vec::new(alloc);
    for word in words {
        texts.push(String::from_str(alloc, word)?)?;
    }
    command_of(alloc, &texts)
}

#[test]
fn words_in_a_form_give_its_command(rt: HostRuntime) -> Result<(), NoMemory> {
    for (words, command) in ACCEPTED {
        let expected = Some(*command);
        assert_eq!(rt; found(rt.alloc(), words)?, expected, "at {words:?}");
    }
    for (words, number) in LOADED {
        let expected = Some(Command::Load {
            number: *number,
            workers: 1,
        });
        assert_eq!(rt; found(rt.alloc(), words)?, expected, "at {words:?}");
    }
    Ok(())
}

#[test]
fn other_words_are_refused(rt: HostRuntime) -> Result<(), NoMemory> {
    for words in REFUSED {
        assert_eq!(rt; found(rt.alloc(), words)?, None, "at {words:?}");
    }
    Ok(())
}
