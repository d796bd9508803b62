//! The command `plan`.
ghost use Rattle.music_cli.specs.Answers.{AnswersDone};
ghost use Rattle.music_cli.specs.Clauses.{ends, IsGiven};
ghost use Rattle.command_words.specs.declared.command.Command.TheVariants.{Plan};

use crate::Status;
use crate::plan_text::plan_text;
use crate::saying::say;
use music_base::{NoMemory, Sink};
use music_setup::Ready;
use std::alloc::Global;

/// Says how many blocks each connection of an accepted scene keeps at most.
pub fn plan<K: Sink>(alloc: Global, ready: &Ready, sink: &mut K) -> Status
    ensures { IsGiven (AnswersDone Plan ready.now.scene) (ends K.taken K.faults sink.old sink.new) result }
{
    match plan_text(alloc, ready.scene(), ready.plan()) {
        Ok(text) => say(sink, Status::Done, &text),
        Err(NoMemory) => Status::NoMemory,
    }
}
