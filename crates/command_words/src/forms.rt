//! The forms of the words, as `clap` takes them: a command with subcommands, whose options have a text each.
ghost use Rattle.std.specs.Prelude.{◌≡◌, IfOk, false};
ghost use Rattle.clap.specs.Words.{app_of, rule_of};
ghost use Rattle.command_words.specs.Forms.{
  IsForm,
  forms,
  load_form,
  option_named,
  run_form,
  top_form,
};

use clap::{Arg, Command};
use music_base::NoMemory;
use std::alloc::Global;

/// An option `--NAME TEXT`.
fn option_named<'a>(alloc: Global, name: &'a str) -> Arg<'a>
    ensures rule { rule_of result ≡ option_named name.now }
    ensures local { result.global ≡ false }
{
    Arg::new(alloc, name).long(name)
}

/// `run` with its option.
fn run_form<'a>(alloc: Global) -> Result<Command<'a>, NoMemory>
    ensures { IfOk result (λ command. IsForm run_form command) }
{
    Ok(Command::new(alloc, "run").arg(option_named(alloc, "workers"))?)
}

/// `load` with its options.
fn load_form<'a>(alloc: Global) -> Result<Command<'a>, NoMemory>
    ensures { IfOk result (λ command. IsForm load_form command) }
{
    Ok(
        Command::new(alloc, "load")
            .arg(option_named(alloc, "number"))?
            .arg(option_named(alloc, "workers"))?,
    )
}

/// The program before it has subcommands. The words begin behind its name, and there is no help.
fn top_form<'a>(alloc: Global) -> Command<'a>
    ensures { IsForm top_form result }
{
    Command::new(alloc, "music")
        .no_binary_name(true)
        .disable_help_flag(true)
        .disable_help_subcommand(true)
}

/// All forms that the words may have.
pub fn forms<'a>(alloc: Global) -> Result<Command<'a>, NoMemory>
    ensures { IfOk result (λ command. app_of command ≡ forms) }
{
    Ok(
        top_form(alloc)
            .subcommand(Command::new(alloc, "check"))?
            .subcommand(Command::new(alloc, "plan"))?
            .subcommand(Command::new(alloc, "order"))?
            .subcommand(run_form(alloc)?)?
            .subcommand(load_form(alloc)?)?,
    )
}
