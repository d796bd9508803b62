//! The program `music`: a coordinator and port runtime after MUSIC.
//!
//! It makes the words behind the program's name and the two ends, standard input and standard output, hands them to
//! `music_cli::music`, and exits with the status that it answers.
#![tactic(auto)]

ghost use Rattle.std.specs.Prelude.{◌≡◌, IfOk, drop};
ghost use Rattle.std.specs.Vec.Iter.{into_iter_items};

use music_base::{FreeGate, NoMemory, StdSink, StdSource};
use music_cli::{Status, music};
use std::alloc::{AllocError, Global};
use std::env;
use std::env::Args;
use std::io::ErrorKind;
use std::process::ExitCode;
use std::rt::Env;

/// All arguments but the first, which is the program's name.
fn behind_name(alloc: Global, args: Args) -> Result<Vec<String>, AllocError>
    ensures { IfOk result (λ words. words.items ≡ drop 1 (into_iter_items args)) }
{
    args.skip(1).collect(alloc)
}

/// The words behind the program's name. Where the arguments can't be read as text there are none, which are wrong words.
fn words(rt: &(impl Env + AllocGlobal), alloc: Global) -> Result<Vec<String>, NoMemory> {
    match env::args(rt) {
        Ok(args) => Ok(behind_name(alloc, args)?),
        Err(error) if error.kind() == ErrorKind::OutOfMemory => Err(NoMemory),
        Err(_) => Ok(Vec::new(alloc)),
    }
}

fn main(rt: HostRuntime) -> ExitCode {
    let alloc = rt.alloc();
    let Ok(words) = words(&rt, alloc) else {
        return ExitCode::from(Status::NoMemory.number());
    };
    let mut source = StdSource::new(rt.stdin());
    let mut sink = StdSink::new(rt.stdout());
    ExitCode::from(music(&rt, alloc, &words, &mut source, &mut sink, &FreeGate))
}
