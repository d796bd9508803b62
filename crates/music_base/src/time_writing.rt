//! The canonical spelling of times.
ghost use Rattle.std.specs.Prelude.{◌≡◌, ◌++◌, ◌^◌, ◌<◌, ◌≤◌, IfOk, OnOk};
ghost use Rattle.music_base.specs.Times.{canonical_time, greatest_time, lowest_digits, nanos_text, time_value, without_trailing_zeros};

use crate::{Nanos, NoMemory, Word};
use std::alloc::Global;

const NANOS_A_SECOND: u64 = 1_000_000_000;

/// Appends the lowest `count` digits of the number.
fn push_digits(out: &mut Vec<u8>, count: u32, number: u64) -> Result<(), NoMemory>
    ensures { OnOk result (out.new.items ≡ out.old.items ++ lowest_digits count number) }
{
    if count == 0 {
        return Ok(());
    }
    push_digits(out, count - 1, number / 10)?;
    out.push(b'0' + (number % 10) as u8)?;
    Ok(())
}

/// Appends nine digits of the nanoseconds, without trailing zeros.
fn push_fraction(out: &mut Vec<u8>, nanos: u64) -> Result<(), NoMemory>
    requires some { 0 < nanos }
    requires below { nanos < 10 ^ 9 }
    ensures { OnOk result (out.new.items ≡ out.old.items ++ without_trailing_zeros (lowest_digits 9 nanos)) }
{
    let mut count = 9u32;
    let mut number = nanos;
    while number % 10 == 0 {
        number /= 10;
        count -= 1;
    }
    push_digits(out, count, number)
}

/// Appends a point and the nanoseconds, where there are any.
fn push_nanos(out: &mut Vec<u8>, nanos: u64) -> Result<(), NoMemory>
    requires { nanos < 10 ^ 9 }
    ensures { OnOk result (out.new.items ≡ out.old.items ++ nanos_text nanos) }
{
    if nanos == 0 {
        return Ok(());
    }
    out.push(b'.')?;
    push_fraction(out, nanos)
}

/// The canonical spelling of the time, in seconds: the whole seconds without leading zeros and, where nanoseconds
/// remain, a point and nine digits without trailing zeros. Reading it gives the same time back where the time is at
/// most 10^15 nanoseconds.
pub fn write_time(alloc: Global, time: Nanos) -> Result<Word, NoMemory>
    ensures text { IfOk result (λ word. word ≡ canonical_time time) }
    ensures again { IfOk result (λ word. time ≤ greatest_time → time_value word ≡ Ok time) }
{
    spelled(alloc, time)
}

#[tactic(auto, unfolding(crate::specs::Times::canonical_time))]
fn spelled(alloc: Global, time: Nanos) -> Result<Word, NoMemory>
    ensures { IfOk result (λ word. word ≡ canonical_time time) }
{
    let seconds = time.0 / NANOS_A_SECOND;
    let mut out = format!(in alloc; "{seconds}")?.into_bytes();
    push_nanos(&mut out, time.0 % NANOS_A_SECOND)?;
    Word::from_slice(alloc, &out)
}
