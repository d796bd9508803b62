//! The command that words give.
ghost use Rattle.std.specs.Prelude.{◌≡◌, IfOk, IfSome, bytes_eq, codes, string_bytes};
ghost use Rattle.std.specs.List.{list_any};
ghost use Rattle.clap.specs.Words.{found_of, rows_of, subcommand_rows_of};
ghost use Rattle.command_words.specs.Commands.{IsWithinLimits};
ghost use Rattle.command_words.specs.Forms.{command_in, options_in};
ghost use Rattle.command_words.specs.Words.{
  command_of,
  load_command,
  number_in,
  number_within,
  texts,
  workers_in,
};

use crate::command::Command;
use crate::forms::forms;
use crate::limits::{GREATEST_NUMBER, LEAST_WORKERS, MOST_DIGITS, MOST_WORKERS};
use clap::ArgMatches;
use clap::error::ErrorKind;
use music_base::{NoMemory, is_short_count, number_of};
use std::alloc::Global;

/// The number that a few decimal digits write, where it is neither below `least` nor above `most`.
fn number_within(least: u32, most: u32, text: &str) -> Option<u32>
    ensures { result ≡ number_within least most text.now }
{
    let digits = text.as_bytes();
    if !is_short_count(MOST_DIGITS, digits) {
        return None;
    }
    let number = number_of(digits);
    if u64::from(least) <= number && number <= u64::from(most) {
        Some(number as u32)
    } else {
        None
    }
}

/// How many workers the options ask for. Without the option there is one.
fn workers_in(options: &ArgMatches) -> Option<u32>
    ensures { result ≡ workers_in (options_in (rows_of (found_of options.now))) }
{
    match options.get_str("workers") {
        Some(text) => number_within(LEAST_WORKERS, MOST_WORKERS, text),
        None => Some(1),
    }
}

/// The number that the options give.
fn number_in(options: &ArgMatches) -> Option<u32>
    ensures { result ≡ number_in (options_in (rows_of (found_of options.now))) }
{
    number_within(0, GREATEST_NUMBER, options.get_str("number")?)
}

/// `load` with its options.
fn load_in(options: &ArgMatches) -> Option<Command>
    ensures { result ≡ load_command (options_in (rows_of (found_of options.now))) }
{
    let number = number_in(options)?;
    let workers = workers_in(options)?;
    Some(Command::Load { number, workers })
}

/// The command that `clap` found in words of one of the forms.
fn command_in(matches: &ArgMatches) -> Option<Command>
    ensures { result ≡ command_in (subcommand_rows_of matches.now) }
{
    let (name, options) = matches.subcommand()?;
    match name {
        "check" => Some(Command::Check),
        "plan" => Some(Command::Plan),
        "order" => Some(Command::Order),
        "run" => Some(Command::Run {
            workers: workers_in(options)?,
        }),
        "load" => load_in(options),
        _ => None,
    }
}

/// Whether a word is `--`. To `clap` it would be the end of the options.
fn has_dashes(words: &[String]) -> bool
    ensures { result ≡ list_any (λ word. bytes_eq (string_bytes word) (codes "--")) words.now }
{
    words.iter().any(|word| word.as_str() == "--")
}

/// The command that the words behind the program's name give, or none where they are refused.
///
/// `docs/format.md` has the forms under "The words". The only error is want of memory, of which `clap` asks some for every
/// list of words in which none is `--`.
pub fn command_of(alloc: Global, words: &[String]) -> Result<Option<Command>, NoMemory>
    ensures command { IfOk result (λ command. command ≡ command_of (texts words.now)) }
    ensures limits { IfOk result (λ command. IfSome command IsWithinLimits) }
{
    if has_dashes(words) {
        return Ok(None);
    }
    match forms(alloc)?.try_get_matches_from(words) {
        Ok(matches) => Ok(command_in(&matches)),
        Err(error) => match error.kind() {
            ErrorKind::OutOfMemory => Err(NoMemory),
            _ => Ok(None),
        },
    }
}
