//! What the commands answer to the bytes that were read.
ghost use Rattle.std.specs.Prelude.{◌≡◌, ◌≤◌, IfOk, Ok, true};
ghost use Rattle.config_text.specs.Canon.{is_lawful_config};
ghost use Rattle.scene_make.specs.Made.{made};
ghost use Rattle.music_setup.specs.Scenes.{scene_of};
ghost use Rattle.music_setup.specs.Setups.{IsSound};
ghost use Rattle.music_cli.specs.Answers.{
  AnswersConfig,
  AnswersDone,
  AnswersMade,
  AnswersText,
  MakesLive,
};
ghost use Rattle.music_cli.specs.Clauses.{ends, IsGiven};
ghost use Rattle.music_cli.specs.declared.status.Status.TheVariants.{Done};

use crate::Status;
use crate::checking::check;
use crate::loading::load;
use crate::ordering::order;
use crate::planning::plan;
use crate::running::run;
use crate::saying::refuse;
use command_words::Command;
use config_text::{Config, TextFault, read_config};
use music_base::{NoMemory, Sink};
use music_setup::{Ready, SetupFault, setup_config};
use scene_make::make;
use std::alloc::Global;

/// Does what the command asks with an accepted scene.
fn answer_scene<K: Sink>(alloc: Global, command: Command, ready: &Ready, sink: &mut K) -> Status
    ensures { IsGiven (AnswersDone command ready.now.scene) (ends K.taken K.faults sink.old sink.new) result }
{
    match command {
        Command::Check => check(alloc, ready, sink),
        Command::Plan => plan(alloc, ready, sink),
        Command::Order => order(alloc, ready, sink),
        Command::Run { workers } => run(alloc, workers, ready, sink),
        Command::Load { number, workers } => load(alloc, number, workers, ready, sink),
    }
}

/// Does what the command asks with the scene that the configuration describes, or says what its first fault is, or which of
/// its waits make up a cycle that is not covered. The configuration is one that a text spells.
fn answer_config<K: Sink>(alloc: Global, command: Command, config: &Config, sink: &mut K) -> Status
    requires { is_lawful_config config.now ≡ true }
    ensures { IsGiven (AnswersConfig command config.now) (ends K.taken K.faults sink.old sink.new) result }
{
    match setup_config(alloc, config) {
        Ok(ready) => answer_scene(alloc, command, &ready, sink),
        Err(fault) => match fault {
            SetupFault::Memory => Status::NoMemory,
            _ => refuse(alloc, Some(config), fault, sink),
        },
    }
}

/// Does what the command asks with the configuration that the bytes spell, or says which line of the text is faulty. The
/// bytes' memory is given back before the scene is made.
pub fn answer_text<K: Sink>(alloc: Global, command: Command, bytes: Vec<u8>, sink: &mut K) -> Status
    ensures { IsGiven (AnswersText command bytes.items) (ends K.taken K.faults sink.old sink.new) result }
{
    match read_config(alloc, &bytes) {
        Ok(config) => {
            drop(bytes);
            answer_config(alloc, command, &config, sink)
        }
        Err(TextFault::At { line, kind }) => {
            refuse(alloc, None, SetupFault::Text { line, kind }, sink)
        }
        Err(TextFault::Memory) => Status::NoMemory,
    }
}

/// The scene that is made from a number, with its plan.
fn made_scene(alloc: Global, number: u32) -> Result<Ready, NoMemory>
    requires { number ≤ 9_999 }
    ensures scene { IfOk result (λ ready. scene_of (made number) ≡ Ok ready.scene) }
    ensures sound { IfOk result IsSound }
{
    let config = make(alloc, number)?;
    match setup_config(alloc, &config) {
        Ok(ready) => Ok(ready),
        // What is made is accepted, so that this is want of memory alone.
        Err(_) => Err(NoMemory),
    }
}

/// Does what `load` asks with the scene that is made from the number.
pub fn answer_made<K: Sink>(alloc: Global, number: u32, workers: u32, sink: &mut K) -> Status
    requires { number ≤ 9_999 }
    ensures given { IsGiven (AnswersMade number workers)
        (ends K.taken K.faults sink.old sink.new) result }
    ensures live { result ≡ Done → MakesLive number }
{
    match made_scene(alloc, number) {
        Ok(ready) => answer_scene(alloc, Command::Load { number, workers }, &ready, sink),
        Err(NoMemory) => Status::NoMemory,
    }
}
