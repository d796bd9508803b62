//! Texts that are written with a status.
ghost use Rattle.std.specs.Prelude.{◌≡◌};
ghost use Rattle.std.specs.Option.{option_copied};
ghost use Rattle.music_setup.specs.Texts.{HasText};
ghost use Rattle.music_cli.specs.Answers.{usage_text, read_fault_text, AnswersFault};
ghost use Rattle.music_cli.specs.Clauses.{ends, IsGiven, IsSaid};

use crate::Status;
use config_text::Config;
use music_base::{NoMemory, Sink, write_all};
use music_setup::{SetupFault, fault_text};
use std::alloc::Global;

/// The line that refused words get.
#[tactic(auto, unfolding(crate::specs::Answers::usage_text))]
pub fn usage_text() -> &'static [u8]
    ensures { result.now ≡ usage_text }
{
    b"usage: music check | plan | order | run [--workers N] | load --number N [--workers N]\n"
}

/// The line that is written where the source failed.
#[tactic(auto, unfolding(crate::specs::Answers::read_fault_text))]
pub fn read_fault_text() -> &'static [u8]
    ensures { result.now ≡ read_fault_text }
{
    b"read fault\n"
}

/// Writes the text. The answer is the status, or that of a write fault.
pub fn say<K: Sink>(sink: &mut K, status: Status, text: &[u8]) -> Status
    ensures { IsSaid status text.now (ends K.taken K.faults sink.old sink.new) result }
{
    match write_all(sink, text) {
        Ok(()) => status,
        Err(_) => Status::WriteFault,
    }
}

/// Writes the text of a fault. The answer is the status of the fault, or that of a write fault or of want of memory.
///
/// A fault of a text has no configuration beside it. The applications that another one names have to stand in the
/// configuration, and want of memory has no text.
pub fn refuse<K: Sink>(
    alloc: Global,
    config: Option<&Config>,
    fault: SetupFault,
    sink: &mut K,
) -> Status
    requires { HasText (option_copied config) fault }
    ensures { IsGiven (AnswersFault (option_copied config.entry) fault) (ends K.taken K.faults sink.old sink.new) result }
{
    match fault_text(alloc, config, &fault) {
        Ok(text) => say(sink, Status::of_fault(&fault), &text),
        Err(NoMemory) => Status::NoMemory,
    }
}
