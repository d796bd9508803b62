//! The command `check`.
ghost use Rattle.std.specs.Prelude.{◌≡◌, IfOk};
ghost use Rattle.music_cli.specs.Answers.{ok_text, AnswersDone};
ghost use Rattle.music_cli.specs.Clauses.{ends, IsGiven};
ghost use Rattle.command_words.specs.declared.command.Command.TheVariants.{Check};

use crate::Status;
use crate::saying::say;
use itoa::Buffer;
use music_base::{NoMemory, Sink};
use music_setup::Ready;
use scene_model::Scene;
use std::alloc::Global;

/// The line that says how many applications and connections a scene has.
#[tactic(auto, unfolding(crate::specs::Answers::ok_text))]
fn ok_text(alloc: Global, scene: &Scene) -> Result<Vec<u8>, NoMemory>
    ensures { IfOk result (λ text. text.items ≡ ok_text scene.now) }
{
    let mut text = Vec::from_slice(alloc, b"ok: ")?;
    text.extend_from_slice(Buffer::new().format(scene.apps.len()).as_bytes())?;
    text.extend_from_slice(b" applications, ")?;
    text.extend_from_slice(Buffer::new().format(scene.links.len()).as_bytes())?;
    text.extend_from_slice(b" connections\n")?;
    Ok(text)
}

/// Says how large an accepted scene is.
pub fn check<K: Sink>(alloc: Global, ready: &Ready, sink: &mut K) -> Status
    ensures { IsGiven (AnswersDone Check ready.now.scene) (ends K.taken K.faults sink.old sink.new) result }
{
    match ok_text(alloc, ready.scene()) {
        Ok(text) => say(sink, Status::Done, &text),
        Err(NoMemory) => Status::NoMemory,
    }
}
