//! The command `load`.
ghost use Rattle.std.specs.Prelude.{◌≡◌, ◌++◌, IfOk, OnOk};
ghost use Rattle.std.specs.Fmt.{decimal};
ghost use Rattle.scene_model.specs.Faults.{IsFaultless};
ghost use Rattle.tick_plan.specs.Plans.{PlanFits};
ghost use Rattle.command_words.specs.declared.command.Command.TheVariants.{Load};
ghost use Rattle.music_cli.specs.Answers.{load_text, AnswersDone};
ghost use Rattle.music_cli.specs.Clauses.{ends, IsGiven};

use crate::Status;
use crate::saying::say;
use itoa::Buffer;
use music_base::{NoMemory, Sink};
use music_setup::Ready;
use scene_model::Scene;
use std::alloc::Global;
use step_core::run_counted;
use tick_plan::Plan;

/// Appends a number and the text behind it.
fn push_count(text: &mut Vec<u8>, count: u64, behind: &[u8]) -> Result<(), NoMemory>
    ensures { OnOk result (text.new.items ≡ text.old.items ++ decimal count ++ behind.now) }
{
    text.extend_from_slice(Buffer::new().format(count).as_bytes())?;
    text.extend_from_slice(behind)?;
    Ok(())
}

/// Runs the scene of a number, and makes the line that says how large it and its log are.
///
/// The scene has no fault, and the plan fits it.
#[tactic(auto, unfolding(crate::specs::Answers::load_text))]
fn load_text(alloc: Global, number: u32, scene: &Scene, plan: &Plan) -> Result<Vec<u8>, NoMemory>
    requires faultless { IsFaultless scene.now }
    requires fits { PlanFits scene.now plan.now }
    ensures { IfOk result (λ text. text.items ≡ load_text number scene.now) }
{
    let size = run_counted(alloc, scene, plan)?;
    let mut text = Vec::from_slice(alloc, b"load ")?;
    push_count(&mut text, u64::from(number), b": ")?;
    push_count(&mut text, scene.apps.len() as u64, b" applications, ")?;
    push_count(&mut text, scene.links.len() as u64, b" connections, ")?;
    push_count(&mut text, size.rows, b" rows, ")?;
    push_count(&mut text, size.bytes, b" bytes\n")?;
    Ok(text)
}

/// Runs the scene that was made from a number, and says how large it and its log are. One worker runs it: as many as can be
/// asked for.
pub fn load<K: Sink>(
    alloc: Global,
    number: u32,
    workers: u32,
    ready: &Ready,
    sink: &mut K,
) -> Status
    ensures { IsGiven (AnswersDone (Load number workers) ready.now.scene)
        (ends K.taken K.faults sink.old sink.new) result }
{
    let _ = workers;
    match load_text(alloc, number, ready.scene(), ready.plan()) {
        Ok(text) => say(sink, Status::Done, &text),
        Err(NoMemory) => Status::NoMemory,
    }
}
