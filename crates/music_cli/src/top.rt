//! The two top calls.
ghost use Rattle.std.specs.Prelude.{◌≡◌, ℕ, List, Some, true};
ghost use Rattle.command_words.specs.Commands.{IsWithinLimits};
ghost use Rattle.command_words.specs.Words.{command_of, texts};
ghost use Rattle.music_cli.specs.Words.{take_input};
ghost use Rattle.music_cli.specs.Clauses.{ends, Ended, ReadsNoMore, TopClauses};

use crate::Status;
use crate::answering::{answer_made, answer_text};
use crate::saying::{read_fault_text, say, usage_text};
use command_words::{Command, command_of};
use music_base::{Gate, MOST_READ, ReadFault, Sink, Source, read_all};
use std::alloc::Global;
use std::sync::Wait;
use std::thread::Threads;

// Reads the source, and answers to what was read.
fn follow<S: Source, K: Sink>(
    alloc: Global,
    command: Command,
    source: &mut S,
    sink: &mut K,
) -> Status
    ensures ended { (words : List (List ℕ)) → command_of words ≡ Some command →
        take_input words ≡ true →
        Ended words (ends S.left S.faults source.old source.new) (ends K.taken K.faults sink.old sink.new) result }
    ensures no_more { ReadsNoMore (ends S.left S.faults source.old source.new) }
{
    match read_all(alloc, source, MOST_READ) {
        Ok(bytes) => answer_text(alloc, command, bytes, sink),
        Err(ReadFault::Source) => say(sink, Status::ReadFault, read_fault_text()),
        Err(ReadFault::Memory) => Status::NoMemory,
    }
}

// Does what a command asks: with the scene that it makes itself, or with the text of the source.
fn obey<S: Source, K: Sink>(alloc: Global, command: Command, source: &mut S, sink: &mut K) -> Status
    requires { IsWithinLimits command }
    ensures ended { (words : List (List ℕ)) → command_of words ≡ Some command →
        Ended words (ends S.left S.faults source.old source.new) (ends K.taken K.faults sink.old sink.new) result }
    ensures no_more { ReadsNoMore (ends S.left S.faults source.old source.new) }
{
    match command {
        Command::Load { number, workers } => answer_made(alloc, number, workers, sink),
        _ => follow(alloc, command, source, sink),
    }
}

// Does all that the words ask.
fn answer<S: Source, K: Sink>(
    alloc: Global,
    words: &[String],
    source: &mut S,
    sink: &mut K,
) -> Status
    ensures ended { Ended (texts words.now) (ends S.left S.faults source.old source.new) (ends K.taken K.faults sink.old sink.new) result }
    ensures no_more { ReadsNoMore (ends S.left S.faults source.old source.new) }
{
    let Ok(asked) = command_of(alloc, words) else {
        return Status::NoMemory;
    };
    match asked {
        Some(command) => obey(alloc, command, source, sink),
        None => say(sink, Status::Usage, usage_text()),
    }
}

/// Does all that the program does for one worker, and starts no thread.
///
/// The words are those behind the program's name, of which `command_words::command_of` says which are accepted. For `check`,
/// `plan`, `order` and `run` the source is then read to its end, or one byte further than a text may be long. Written to the
/// sink is what the command asks of the scene that the text describes: by `check` how many applications and connections it
/// has, by `plan` how many blocks each connection keeps at most, by `order` a lawful order of acts after which every
/// application is finished, by `run` its log. In its place each of these writes the line of the first fault of the text, of
/// the scene or of a connection, or where some cycle of the scene's waits is not covered, such a cycle.
///
/// `load` leaves the source alone. It runs the scene that `scene_make::make` makes from its number, and writes how many
/// applications and connections that has, and how many rows and bytes its log.
///
/// The answer is the program's exit status: 0 done, 2 wrong words, 3 a fault of the text, 4 a fault of the scene or of a
/// connection, 5 a cycle of waits that is not covered, 6 the source failed, 7 the sink failed, 8 memory was not found. An
/// order and a log are written as they are found, so that with status 7 or 8 a part of them may have been written.
pub fn music_alone<S: Source, K: Sink>(
    alloc: Global,
    words: &Vec<String>,
    source: &mut S,
    sink: &mut K,
) -> u8
    ensures { TopClauses (texts words.now.items) (ends S.left S.faults source.old source.new) (ends K.taken K.faults sink.old sink.new) result }
{
    let status = answer(alloc, words, source, sink);
    status.number()
}

/// Does all that the program does, over any source, sink, gate and runtime. Its clauses are those of `music_alone`, which
/// says what the words, the source, the sink and the answer are. Until more than one worker can be asked for, it starts no
/// thread and calls no gate.
pub fn music<R: Threads + Wait + Sync, S: Source, K: Sink, G: Gate>(
    rt: &R,
    alloc: Global,
    words: &Vec<String>,
    source: &mut S,
    sink: &mut K,
    gate: &G,
) -> u8
    ensures { TopClauses (texts words.now.items) (ends S.left S.faults source.old source.new) (ends K.taken K.faults sink.old sink.new) result }
{
    let _ = rt;
    let _ = gate;
    music_alone(alloc, words, source, sink)
}
