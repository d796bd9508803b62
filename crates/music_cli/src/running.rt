//! The command `run`.
ghost use Rattle.music_cli.specs.Answers.{AnswersDone};
ghost use Rattle.music_cli.specs.Clauses.{ends, IsGiven};
ghost use Rattle.command_words.specs.declared.command.Command.TheVariants.{Run};

use crate::Status;
use music_base::Sink;
use music_setup::Ready;
use run_logs::WriteFault;
use std::alloc::Global;
use step_core::run_to_sink;

/// Runs an accepted scene, and writes its log as it goes. One worker runs it: as many as can be asked for.
pub fn run<K: Sink>(alloc: Global, workers: u32, ready: &Ready, sink: &mut K) -> Status
    ensures { IsGiven (AnswersDone (Run workers) ready.now.scene)
        (ends K.taken K.faults sink.old sink.new) result }
{
    let _ = workers;
    match run_to_sink(alloc, ready.scene(), ready.plan(), sink) {
        Ok(core) => {
            drop(core);
            Status::Done
        }
        Err(WriteFault::Sink) => Status::WriteFault,
        Err(WriteFault::Memory) => Status::NoMemory,
    }
}
