//! Tables: a text with holes, what stands in them in each row, and what a command answers.
use crate::texts::words_of;
use music_base::{MemorySink, MemorySource, NoMemory};
use music_cli::music_alone;
use std::alloc::Global;
use std::process::Abort;

/// A status and a text with holes.
#[derive(Clone, Copy, Debug)]
pub struct Answer<'a> {
    pub status: u8,
    pub text: &'a str,
}

/// What stands in the holes of a text, the answer that it gets, and what stands in the answer's holes.
pub type Row<'a> = (&'a str, Answer<'a>, &'a str);

/// Texts that differ in what stands in the holes of one. A hole is a `?`, and what stands in two holes is parted by `|`.
#[derive(Clone, Copy)]
pub struct Table<'a> {
    pub text: &'a str,
    pub rows: &'a [Row<'a>],
}

pub const OK: Answer<'static> = Answer {
    status: 0,
    text: "ok: ? applications, ? connections\n",
};

pub const TEXT: Answer<'static> = Answer {
    status: 3,
    text: "text fault: line ?: ?\n",
};

pub const SCENE: Answer<'static> = Answer {
    status: 4,
    text: "scene fault: ?\n",
};

pub const APP: Answer<'static> = Answer {
    status: 4,
    text: "scene fault: application ?: ?\n",
};

pub const PORT: Answer<'static> = Answer {
    status: 4,
    text: "scene fault: application a: port ?: ?\n",
};

pub const RULE: Answer<'static> = Answer {
    status: 4,
    text: "scene fault: application a: rule ?: ?\n",
};

pub const LINK: Answer<'static> = Answer {
    status: 4,
    text: "link fault: connection ?: ?\n",
};

pub const CYCLE: Answer<'static> = Answer {
    status: 5,
    text: "uncovered cycle\n?",
};

pub const PLAN: Answer<'static> = Answer {
    status: 0,
    text: "link,from,to,limit,how\n?",
};

/// What an answer may have at most, in bytes.
const LONGEST_ANSWER: u64 = 3000;

/// The first part, and the others where there are more.
fn first_part(parts: &str) -> (&str, Option<&str>) {
    match parts.split_once('|') {
        Some((part, others)) => (part, Some(others)),
        None => (parts, None),
    }
}

/// The text with these parts in its holes, where there is a part for each hole and no more.
pub fn filled(alloc: Global, text: &str, parts: &str) -> Result<Option<Vec<u8>>, NoMemory> {
    let mut whole = Vec::new(alloc);
    let mut left = Some(parts);
    for byte in text.as_bytes() {
        if *byte == b'?' {
            let Some(parts) = left else {
                return Ok(None);
            };
            let (part, others) = first_part(parts);
            whole.extend_from_slice(part.as_bytes())?;
            left = others;
        } else {
            whole.push(*byte)?;
        }
    }
    Ok(left.is_none().then_some(whole))
}

/// Whether the word and the text get this status and this answer.
pub fn gets(
    alloc: Global,
    word: &str,
    text: Vec<u8>,
    status: u8,
    answer: &[u8],
) -> Result<bool, NoMemory> {
    let words = words_of(alloc, &[word])?;
    let mut source = MemorySource::make(text, 65_536, Vec::new(alloc));
    let mut sink = MemorySink::make(alloc, 1000, LONGEST_ANSWER)?;
    let given = music_alone(alloc, &words, &mut source, &mut sink);
    Ok(given == status && sink.taken() == answer)
}

/// Whether the row's text gets what the row says.
fn gets_its_answer(alloc: Global, word: &str, text: &str, row: Row<'_>) -> Result<bool, NoMemory> {
    let (parts, answer, said) = row;
    let Some(wanted) = filled(alloc, answer.text, said)? else {
        return Ok(false);
    };
    match filled(alloc, text, parts)? {
        Some(text) => gets(alloc, word, text, answer.status, &wanted),
        None => Ok(false),
    }
}

/// Each row of the table gets from the command of that word what it says; else the first one that does not is shown.
pub fn is_answered(rt: &impl Abort, alloc: Global, word: &str, table: &Table<'_>) {
    for row in table.rows {
        let is_right = gets_its_answer(alloc, word, table.text, *row) == Ok(true);
        assert!(rt; is_right, "{word}: {row:?}");
    }
}
