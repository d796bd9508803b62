//! The command `order`.
ghost use Rattle.music_cli.specs.Answers.{AnswersDone};
ghost use Rattle.music_cli.specs.Clauses.{ends, IsGiven};
ghost use Rattle.command_words.specs.declared.command.Command.TheVariants.{Order};

use crate::Status;
use act_orders::order_to_sink;
use music_base::Sink;
use music_setup::Ready;
use run_logs::WriteFault;
use std::alloc::Global;

/// Writes an order in which the applications of an accepted scene can act, each of them to its end, act by act as it is found.
pub fn order<K: Sink>(alloc: Global, ready: &Ready, sink: &mut K) -> Status
    ensures { IsGiven (AnswersDone Order ready.now.scene) (ends K.taken K.faults sink.old sink.new) result }
{
    match order_to_sink(alloc, ready.scene(), ready.plan(), sink) {
        Ok(()) => Status::Done,
        Err(WriteFault::Sink) => Status::WriteFault,
        Err(WriteFault::Memory) => Status::NoMemory,
    }
}
