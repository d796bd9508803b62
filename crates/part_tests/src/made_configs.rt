//! Configurations that are made from a number: their texts, that these are read again, and that they can be set up.
ghost use Rattle.std.specs.Prelude.{◌≤◌};

use config_text::{TextFault, read_config, write_config};
use music_base::NoMemory;
use music_setup::setup;
use scene_make::make;
use std::alloc::{AllocError, Global};

/// Number 0: two applications that stop at 1 second. The first has one process and a tick of 1 ms, the second two and one
/// of 2 ms.
const NUMBER_0: &[u8] = b"stoptime=1
binary=script
[a0]
np=1
timestep=0.001
ports=out event out split:0+100; in event in split:0+100 latency 0.01; out cont c split:0+4; in cont d split:0+4 delay 0.01
args=emit out 0 every 0.002 from 0.0005; pass in to out shift 10 after 0; copy d to c scale 1/2 add 0.25; ramp c 0 from 0 by 0.001
[a1]
np=2
timestep=0.002
ports=out event out split:0+100; in event in split:0+100 latency 0.01; out cont c split:0+4; in cont d split:0+4 delay 0.01
args=emit out 1 every 0.002 from 0.0005; pass in to out shift 10 after 0; copy d to c scale 1/2 add 0.25; ramp c 0 from 0 by 0.001
a0.out -> a1.in [100]
a0.c -> a1.d [4]
a1.out -> a0.in [100]
a1.c -> a0.d [4]
";

/// How many applications a number gives, their stop, and of the first one how many processes it has and its tick.
type Given<'a> = (usize, &'a str, &'a str, &'a str);

/// What the numbers from 0 on give.
const NUMBERS: &[Given<'static>] = &[
    (2, "1", "1", "0.001"),
    (3, "2", "2", "0.002"),
    (4, "3", "1", "0.003"),
    (5, "4", "2", "0.001"),
    (6, "5", "1", "0.002"),
    (7, "1", "2", "0.003"),
    (8, "2", "1", "0.001"),
    (2, "3", "2", "0.002"),
    (3, "4", "1", "0.003"),
    (4, "5", "2", "0.001"),
    (5, "1", "1", "0.002"),
    (6, "2", "2", "0.003"),
    (7, "3", "1", "0.001"),
    (8, "4", "2", "0.002"),
    (2, "5", "1", "0.003"),
    (3, "1", "2", "0.001"),
    (4, "2", "1", "0.002"),
    (5, "3", "2", "0.003"),
    (6, "4", "1", "0.001"),
    (7, "5", "2", "0.002"),
    (8, "1", "1", "0.003"),
];

// The text of the configuration that is made from the number.
fn made_text(alloc: Global, number: u32) -> Result<Vec<u8>, NoMemory>
    requires { number ≤ 9_999 }
{
    let config = make(alloc, number)?;
    write_config(alloc, &config)
}

// How many sections the text has, where it is spelled as what it spells is written.
fn sections_of(alloc: Global, text: &[u8]) -> Result<Option<usize>, TextFault> {
    let config = read_config(alloc, text)?;
    match write_config(alloc, &config) {
        Ok(again) if again.as_slice() == text => Ok(Some(config.sections.len())),
        Ok(_) => Ok(None),
        Err(NoMemory) => Err(TextFault::Memory),
    }
}

// How the text of what is given begins.
fn beginning(alloc: Global, given: Given) -> Result<String, AllocError> {
    let (_, stop, np, tick) = given;
    format!(in alloc; "stoptime={stop}\nbinary=script\n[a0]\nnp={np}\ntimestep={tick}\n")
}

// Whether the text begins as it should, and is read again.
fn is_text_of(alloc: Global, text: &[u8], given: Given) -> bool {
    match beginning(alloc, given) {
        Ok(beginning) => {
            text.starts_with(beginning.as_bytes()) && sections_of(alloc, text) == Ok(Some(given.0))
        }
        Err(_) => false,
    }
}

// Whether the text is set up to a scene of so many applications, each with two connections to the next one.
fn is_ring(alloc: Global, text: &[u8], apps: usize) -> bool {
    match setup(alloc, text) {
        Ok(ready) => ready.scene().apps.len() == apps && ready.scene().links.len() == 2 * apps,
        Err(_) => false,
    }
}

fn is_made(alloc: Global, number: u32, given: Given) -> bool
    requires { number ≤ 9_999 }
{
    match made_text(alloc, number) {
        Ok(text) => is_text_of(alloc, &text, given) && is_ring(alloc, &text, given.0),
        Err(NoMemory) => false,
    }
}

#[test]
fn number_0_is_written(rt: HostRuntime) -> Result<(), NoMemory> {
    let text = made_text(rt.alloc(), 0)?;
    assert!(rt; text.as_slice() == NUMBER_0);
    Ok(())
}

#[test]
fn numbers_make_rings_that_are_read_again(rt: HostRuntime) {
    for (number, given) in NUMBERS.iter().enumerate() {
        assert!(rt; is_made(rt.alloc(), number as u32, *given), "{number}");
    }
}
