//! Texts at the limits of how many may stand in them, by the command `check`.
use crate::tables::{Answer, OK, PORT, RULE, TEXT, filled, gets};
use crate::texts::blanks;
use music_base::NoMemory;
use std::alloc::{AllocError, Global};

/// A head, so many pieces with a number from 0 on in the hole of each, a tail, and what the text gets.
type Counted<'a> = (&'a str, u32, &'a str, &'a str, Answer<'a>, &'a str);

const COUNTED: &[Counted<'static>] = &[
    ("", 32, "[s?]\n", "", OK, "32|0"),
    ("", 33, "[s?]\n", "", TEXT, "36|TooManySections"),
    ("[a]\nports=", 64, "in event p? 0+1; ", "\n", OK, "1|0"),
    (
        "[a]\nports=",
        65,
        "in event p? 0+1; ",
        "\n",
        PORT,
        "65|PortText",
    ),
    // the 65th before its repeat
    (
        "[a]\nports=",
        64,
        "in event p? 0+1; ",
        "in event q 1,1\n",
        PORT,
        "65|PortText",
    ),
    (
        "[a]\nnp=64\nports=out event p ",
        63,
        "?+1/",
        "63+1\n",
        OK,
        "1|0",
    ),
    (
        "[a]\nnp=64\nports=out event p ",
        64,
        "?+1/",
        "64+1\n",
        PORT,
        "1|PortText",
    ),
    (
        "[a]\nports=out cont c 0+1\nargs=",
        1024,
        "set c 0 ?;",
        "\n",
        OK,
        "1|0",
    ),
    (
        "[a]\nports=out cont c 0+1\nargs=",
        1025,
        "set c 0 ?;",
        "\n",
        RULE,
        "1025|RuleText",
    ),
    // too many before the port that is none
    (
        "[a]\nports=out cont c 0+1\nargs=",
        1024,
        "set c 0 ?;",
        "set nope 0 1\n",
        RULE,
        "1025|RuleText",
    ),
];

/// What stands behind 64 connections, and what the text gets.
const BEHIND_THE_MOST: &[(&str, Answer<'static>, &str)] = &[
    ("", OK, "2|64"),
    ("a.o0 -> b.i0", TEXT, "72|TooManyLinks"),
    // what the line says comes before its count
    ("a.o0 <- b.i0 x", TEXT, "72|BadOption"),
];

fn defaults(alloc: Global) -> Result<String, AllocError> {
    String::from_str(alloc, "stoptime=0.003\nbinary=script\ntimestep=0.001\n")
}

fn add_numbered(text: &mut String, count: u32, piece: &str) -> Result<(), AllocError> {
    let (before, behind) = piece.split_once('?').unwrap_or((piece, ""));
    for number in 0..count {
        write!(text, "{before}{number}{behind}")?;
    }
    Ok(())
}

/// Whether the text gets this answer, with these parts in its holes.
fn is_checked(
    alloc: Global,
    text: String,
    answer: Answer<'_>,
    said: &str,
) -> Result<bool, NoMemory> {
    match filled(alloc, answer.text, said)? {
        Some(wanted) => gets(alloc, "check", text.into_bytes(), answer.status, &wanted),
        None => Ok(false),
    }
}

fn is_counted(alloc: Global, row: Counted<'_>) -> Result<bool, NoMemory> {
    let (head, count, piece, tail, answer, said) = row;
    let mut text = defaults(alloc)?;
    text.push_str(head)?;
    add_numbered(&mut text, count, piece)?;
    text.push_str(tail)?;
    is_checked(alloc, text, answer, said)
}

/// Eight outputs of `a` and eight inputs of `b`, and the 64 connections of each with each.
fn each_with_each(alloc: Global) -> Result<String, AllocError> {
    let mut text = defaults(alloc)?;
    text.push_str("[a]\nports=")?;
    add_numbered(&mut text, 8, "out event o? 0+1; ")?;
    text.push_str("\n[b]\nports=")?;
    add_numbered(&mut text, 8, "in event i? 0+1; ")?;
    text.push_str("\n")?;
    for link in 0..64u32 {
        writeln!(text, "a.o{} -> b.i{}", link / 8, link % 8)?;
    }
    Ok(text)
}

fn is_behind_the_most(
    alloc: Global,
    last: &str,
    answer: Answer<'_>,
    said: &str,
) -> Result<bool, NoMemory> {
    let mut text = each_with_each(alloc)?;
    text.push_str(last)?;
    is_checked(alloc, text, answer, said)
}

/// A ring of 32 applications, of which every second one ticks 1 ns more slowly, and the latency of the first.
fn ring(alloc: Global, latency: &str) -> Result<String, AllocError> {
    let mut text = defaults(alloc)?;
    writeln!(text, "ports=out event out 0+1; in event in 0+1\n[s0]")?;
    writeln!(
        text,
        "ports=out event out 0+1; in event in 0+1 latency {latency}"
    )?;
    for number in 1..32u32 {
        let tick = if number % 2 == 1 {
            "timestep=0.001000001\n"
        } else {
            ""
        };
        write!(text, "[s{number}]\n{tick}")?;
    }
    for number in 0..31u32 {
        writeln!(text, "s{number}.out -> s{}.in", number + 1)?;
    }
    writeln!(text, "s31.out -> s0.in")?;
    Ok(text)
}

/// The cycle of the ring: each waits for the one before it. Sixteen burdens of 999,999 ns and sixteen of 1,000,000 ns are
/// 31,999,984 ns.
fn ring_cycle(alloc: Global) -> Result<String, AllocError> {
    let mut text = String::from_str(alloc, "uncovered cycle\n")?;
    writeln!(
        text,
        "s0 waits for s31: connection 32, data, allowance 31999984, burden 999999"
    )?;
    for back in 0..31u32 {
        let (waiter, awaited) = (31 - back, 30 - back);
        let burden = if waiter % 2 == 1 { 1_000_000 } else { 999_999 };
        writeln!(
            text,
            "s{waiter} waits for s{awaited}: connection {waiter}, data, allowance 0, burden {burden}"
        )?;
    }
    writeln!(text, "allowances 31999984, burdens 31999984")?;
    Ok(text)
}

fn is_ring_refused(alloc: Global, latency: &str) -> Result<bool, NoMemory> {
    let (text, cycle) = (ring(alloc, latency)?, ring_cycle(alloc)?);
    gets(alloc, "check", text.into_bytes(), 5, cycle.as_bytes())
}

fn is_ring_accepted(alloc: Global, latency: &str) -> Result<bool, NoMemory> {
    is_checked(alloc, ring(alloc, latency)?, OK, "32|32")
}

/// Whether a text of so many blanks gets this status and this text.
fn are_blanks(alloc: Global, count: usize, status: u8, answer: &[u8]) -> Result<bool, NoMemory> {
    gets(alloc, "check", blanks(alloc, count)?, status, answer)
}

#[test]
fn what_stands_in_a_text_is_counted(rt: HostRuntime) {
    for row in COUNTED {
        assert!(rt; is_counted(rt.alloc(), *row) == Ok(true), "{row:?}");
    }
}

#[test]
fn connections_are_counted(rt: HostRuntime) {
    for (last, answer, said) in BEHIND_THE_MOST {
        let is_right = is_behind_the_most(rt.alloc(), last, *answer, said) == Ok(true);
        assert!(rt; is_right, "{last}");
    }
}

#[test]
fn the_longest_cycle_is_checked(rt: HostRuntime) {
    assert!(rt; is_ring_refused(rt.alloc(), "0.031999984") == Ok(true));
    assert!(rt; is_ring_accepted(rt.alloc(), "0.031999985") == Ok(true));
}

#[test]
fn the_longest_text_is_read(rt: HostRuntime) {
    let (empty, past) = (
        b"scene fault: StopMissing\n",
        b"text fault: line 0: TooLong\n",
    );
    assert!(rt; are_blanks(rt.alloc(), 1_048_576, 4, empty) == Ok(true));
    assert!(rt; are_blanks(rt.alloc(), 1_048_577, 3, past) == Ok(true));
}
