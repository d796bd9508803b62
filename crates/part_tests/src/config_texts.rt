//! Configuration texts: what they spell, told by its canonical spelling, and the faults of those that spell nothing.
use crate::texts::blanks;
use config_text::TextKind::{
    BadByte, BadLine, BadName, BadOption, BadWidth, RepeatedSection, RepeatedSetting, TooLong,
    TooManyLinks, TooManySections,
};
use config_text::{Config, TextFault, TextKind, lookup, read_config, write_config};
use music_base::{Name, NoMemory, Word, is_name};
use std::alloc::{AllocError, Global};
use std::process::Abort;

/// A text and the canonical spelling of what it spells.
const SPELLED: &[(&[u8], &[u8])] = &[
    (b"", b""),
    (
        b"# x\r\n stoptime = \"0.003\" # s\r\n[ a ]\r\n note = \"p # q\"\r\na.o->b.i[007]\r\n",
        b"stoptime=0.003\n[a]\nnote=\"p # q\"\na.o -> b.i [7]\n",
    ),
    // a last line without LF, and one whose CR is dropped
    (b"a=b", b"a=b\n"),
    (b"a=b\r", b"a=b\n"),
    // tabs are blanks
    (b"\ta\t=\tb\t", b"a=b\n"),
    // quotation marks keep blanks, and a comment begins only after an even number of them
    (b"a=\" b \"", b"a=\" b \"\n"),
    (b"a=\"x\"# y", b"a=x\n"),
    (b"a=\"\"", b"a=\n"),
    (b"a=", b"a=\n"),
    // an arrow behind an equals sign belongs to a value
    (b"a=b->c", b"a=b->c\n"),
    (b"a.b -> c.d [ 7 ]", b"a.b -> c.d [7]\n"),
    (b"a.b -> c.d [65536]", b"a.b -> c.d [65536]\n"),
    // from the receiver, and with what a connection states, in any order
    (b"a.b <- c.d", b"c.d -> a.b\n"),
    (
        b"c.d<-a.b[007]buffered=2 latency=1e-3",
        b"a.b -> c.d [7] latency=0.001 buffered=2\n",
    ),
    (
        b"a.b -> c.d\tbuffered=1000000  latency=1000000",
        b"a.b -> c.d latency=1000000 buffered=1000000\n",
    ),
    (b"a.b->c.d latency=0", b"a.b -> c.d latency=0\n"),
    (b"a=b<-c", b"a=b<-c\n"),
    // any byte may stand in a comment
    (b"a=b # \x7f\x80\xff\x00\n", b"a=b\n"),
    // each section has settings of its own, and connections stand last
    (
        b"np=1\n[a]\nnp=2\na.b -> c.d\n[b]\nnp=3\n",
        b"np=1\n[a]\nnp=2\n[b]\nnp=3\na.b -> c.d\n",
    ),
];

/// A text, its first faulty line, and that line's first fault.
const FAULTY: &[(&[u8], u64, TextKind)] = &[
    (b"stoptime=1\n[gen", 2, BadLine),
    (b"[a]\n[a]\n", 2, RepeatedSection),
    (b"[a]\nnp=1\nnp=1\n", 3, RepeatedSetting),
    (b"np=1\nnp=2\n", 2, RepeatedSetting),
    (b"a.b -> c.d [0]", 1, BadWidth),
    (b"a.b -> c.d [65537]", 1, BadWidth),
    (b"[a b]", 1, BadName),
    (b"a=b\n\n\x00\n", 3, BadByte),
    (b"a=b\rc\n", 1, BadByte),
    (b"a=b\r\r\n", 1, BadByte),
    (b"a=\x7f", 1, BadByte),
    (b"a=\x80", 1, BadByte),
    (b"a=\xff", 1, BadByte),
    // a byte fault comes before every other of its line
    (b"[\x80", 1, BadByte),
    // after an odd number of quotation marks no comment begins
    (b"a=\" # x", 1, BadLine),
    (b"a=\"x\" \"# y", 1, BadLine),
    (b"a=\"", 1, BadLine),
    (b"a=b\"c\"", 1, BadLine),
    (b"a->b=c", 1, BadName),
    (b"a.b -> c.d [7", 1, BadLine),
    (b"a.b\" -> c.d", 1, BadLine),
    (b"a . b -> c.d", 1, BadName),
    (b"a.b<->c.d", 1, BadName),
    (b"a.b -> c.d [7]]", 1, BadOption),
    (b"a.b <- c.d latency=x", 1, BadOption),
    (b"a.b -> c.d latency=0 latency=0", 1, BadOption),
    (b"a.b -> c.d buffered=1000001", 1, BadOption),
    (b"a.b -> c.d latency=1000000.000000001", 1, BadOption),
    (b"[a]]", 1, BadName),
    (b"[a] b=c", 1, BadLine),
    (b"hello", 1, BadLine),
    // the name of a setting is judged before its value
    (b"9k=\"a", 1, BadName),
    // the first of two faulty lines
    (b"hello\n[a b]\n", 1, BadLine),
];

/// Lines that differ in a number, from 0 on, which stands between two texts.
#[derive(Clone, Copy)]
struct Lines {
    count: u32,
    before: &'static str,
    behind: &'static str,
}

const SECTIONS: Lines = Lines {
    count: 32,
    before: "[s",
    behind: "]",
};

const LINKS: Lines = Lines {
    count: 64,
    before: "a.b -> c.d",
    behind: "",
};

/// Lines, one more behind them, and the fault that the text has there.
const COUNTED: &[(Lines, &str, Option<TextKind>)] = &[
    (SECTIONS, "# s32", None),
    (SECTIONS, "[s32]", Some(TooManySections)),
    // the faults of a line by itself come before its count
    (SECTIONS, "[s 32]", Some(BadName)),
    (SECTIONS, "[s31]", Some(RepeatedSection)),
    (LINKS, "", None),
    (LINKS, "a.b -> c.d", Some(TooManyLinks)),
    (LINKS, "a.b -> c.d [0]", Some(BadWidth)),
    (LINKS, "a.b -> c.d x", Some(BadOption)),
];

const TWO_SECTIONS: &[u8] = b"np=1\n[a]\nnp=2\nx=3\n[b]\n";

/// Sections of that text, by their places, names of settings, and the value of each.
const VALUES: &[(u32, &[u8], Option<&[u8]>)] = &[
    (0, b"np", Some(b"2")),
    (1, b"np", Some(b"1")),
    (0, b"x", Some(b"3")),
    (1, b"x", None),
];

fn spelled(alloc: Global, config: &Config) -> Result<Vec<u8>, TextFault> {
    match write_config(alloc, config) {
        Ok(bytes) => Ok(bytes),
        Err(NoMemory) => Err(TextFault::Memory),
    }
}

// The canonical spelling of what the text spells.
fn respelled(alloc: Global, text: &[u8]) -> Result<Vec<u8>, TextFault> {
    let config = read_config(alloc, text)?;
    spelled(alloc, &config)
}

fn is_respelled_as(alloc: Global, text: &[u8], canonical: &[u8]) -> Result<bool, TextFault> {
    let bytes = respelled(alloc, text)?;
    Ok(bytes.as_slice() == canonical)
}

// The canonical spelling is written as itself.
fn is_spelled_as(alloc: Global, text: &[u8], canonical: &[u8]) -> Result<bool, TextFault> {
    Ok(is_respelled_as(alloc, text, canonical)? && is_respelled_as(alloc, canonical, canonical)?)
}

// The fault of the text, where it is not read and written.
fn fault_of(alloc: Global, text: &[u8]) -> Option<TextFault> {
    respelled(alloc, text).err()
}

fn has_fault_at(fault: Option<TextFault>, line: u64, kind: Option<TextKind>) -> bool {
    fault == kind.map(|kind| TextFault::At { line, kind })
}

fn numbered(alloc: Global, lines: Lines) -> Result<String, AllocError> {
    let mut text = String::new(alloc);
    for number in 0..lines.count {
        writeln!(text, "{}{number}{}", lines.before, lines.behind)?;
    }
    Ok(text)
}

fn fault_behind(alloc: Global, lines: Lines, last: &str) -> Result<Option<TextFault>, AllocError> {
    let mut text = numbered(alloc, lines)?;
    text.push_str(last)?;
    Ok(fault_of(alloc, text.as_bytes()))
}

fn is_counted(alloc: Global, lines: Lines, last: &str, kind: Option<TextKind>) -> bool {
    match fault_behind(alloc, lines, last) {
        Ok(fault) => has_fault_at(fault, u64::from(lines.count) + 1, kind),
        Err(_) => false,
    }
}

// Whether blanks are a text of no lines, or have this fault.
fn are_blanks_refused(alloc: Global, count: usize, kind: Option<TextKind>) -> bool {
    match blanks(alloc, count) {
        Ok(text) => has_fault_at(fault_of(alloc, &text), 0, kind),
        Err(_) => false,
    }
}

fn are_blanks_empty(alloc: Global, count: usize) -> bool {
    match blanks(alloc, count) {
        Ok(text) => is_respelled_as(alloc, &text, b"") == Ok(true),
        Err(_) => false,
    }
}

fn name(alloc: Global, bytes: &[u8]) -> Result<Name, NoMemory> {
    if is_name(bytes) {
        Name::from_slice(alloc, bytes)
    } else {
        Err(NoMemory)
    }
}

fn has_value(
    alloc: Global,
    config: &Config,
    section: u32,
    setting: &[u8],
    value: Option<&[u8]>,
) -> Result<bool, NoMemory> {
    let setting = name(alloc, setting)?;
    Ok(
        (section as usize) < config.sections.len()
            && lookup(config, section, &setting).map(Word::as_slice) == value,
    )
}

fn values_hold(rt: &impl Abort, alloc: Global, config: &Config) {
    assert!(rt; config.sections.len() == 2);
    for (section, setting, value) in VALUES {
        let holds = has_value(alloc, config, *section, setting, *value) == Ok(true);
        assert!(rt; holds, "{setting:?}, section {section}");
    }
}

#[test]
fn texts_are_read_and_written(rt: HostRuntime) {
    for (text, canonical) in SPELLED {
        assert!(rt;
            is_spelled_as(rt.alloc(), text, canonical) == Ok(true),
            "{text:?}"
        );
    }
}

#[test]
fn faults_have_their_line_and_kind(rt: HostRuntime) {
    for (text, line, kind) in FAULTY {
        let fault = fault_of(rt.alloc(), text);
        assert!(rt;
            has_fault_at(fault, *line, Some(*kind)),
            "{text:?}: {fault:?}"
        );
    }
}

#[test]
fn sections_and_connections_are_counted(rt: HostRuntime) {
    for (lines, last, kind) in COUNTED {
        assert!(rt; is_counted(rt.alloc(), *lines, last, *kind), "{last}");
    }
}

#[test]
fn the_longest_text_is_read(rt: HostRuntime) {
    assert!(rt; are_blanks_empty(rt.alloc(), 1_048_576));
    assert!(rt; are_blanks_refused(rt.alloc(), 1_048_577, Some(TooLong)));
}

#[test]
fn a_setting_of_a_section_hides_the_default(rt: HostRuntime) -> Result<(), TextFault> {
    let config = read_config(rt.alloc(), TWO_SECTIONS)?;
    values_hold(&rt, rt.alloc(), &config);
    Ok(())
}
