//! Whole texts, read from a source and written to a sink.
ghost use Rattle.std.specs.Prelude.{◌≡◌, ◌≤◌, ◌<◌, length, IfOk, OnOk, IsErrOf};
ghost use Rattle.music_base.specs.Causes.{Rose, HasCause};
ghost use Rattle.music_base.specs.Outside.{Gave, GaveAtMost, IsAtEnd, Took, TookPrefix};

use crate::{Failed, Sink, Source};
use std::alloc::Global;

/// How many bytes may be asked of `read_all`: one more than the longest configuration text has, so that a longer text
/// is seen to be one.
pub const MOST_READ: u64 = 1_048_577;

// How many bytes are asked of a source in one call.
const PIECE: usize = 16384;

/// Why a source was not read to its end.
#[derive(Clone, Copy, Debug, PartialEq, Eq)]
pub enum ReadFault {
    /// The source failed in this call.
    Source,
    /// Memory was wanting.
    Memory,
}

/// Answers all the bytes that the source had left, or the first `most` where it had more. Fewer than `most` bytes were
/// thus all of them. Each read takes at least one byte or is the last.
/// At most `MOST_READ` bytes may be asked for.
pub fn read_all<S: Source>(alloc: Global, source: &mut S, most: u64) -> Result<Vec<u8>, ReadFault>
    requires { most ≤ MOST_READ }
    ensures read { IfOk result (λ bytes. Gave (S.left source.old) bytes.items (S.left source.new)) }
    ensures size { IfOk result (λ bytes. length bytes.items ≤ most) }
    ensures whole { IfOk result (λ bytes. length bytes.items < most → IsAtEnd (S.left source.new)) }
    ensures no_more { GaveAtMost most (S.left source.old) (S.left source.new) }
    ensures cause { IsErrOf result ReadFault.Source → Rose (S.faults source.old) (S.faults source.new) }
    ensures memory { IsErrOf result ReadFault.Memory → S.faults source.new ≡ S.faults source.old }
    ensures stays { OnOk result (S.faults source.new ≡ S.faults source.old) }
    ensures never_falls { S.faults source.old ≤ S.faults source.new }
{
    let mut bytes = Vec::new(alloc);
    let mut piece = [0u8; PIECE];
    while (bytes.len() as u64) < most {
        let room = (most - bytes.len() as u64).min(PIECE as u64) as usize;
        let Ok(count) = source.read(&mut piece[..room]) else {
            return Err(ReadFault::Source);
        };
        if count == 0 {
            break;
        }
        let Ok(()) = bytes.extend_from_slice(&piece[..count]) else {
            return Err(ReadFault::Memory);
        };
    }
    Ok(bytes)
}

/// Writes all the bytes. Where the sink fails it took a prefix of them.
pub fn write_all<K: Sink>(sink: &mut K, bytes: &[u8]) -> Result<(), Failed>
    ensures all { OnOk result (Took (K.taken sink.old) bytes.now (K.taken sink.new)) }
    ensures prefix { TookPrefix (K.taken sink.old) bytes.now (K.taken sink.new) }
    ensures cause { HasCause (K.faults sink.old) (K.faults sink.new) result }
{
    let mut done = 0;
    while done < bytes.len() {
        done += sink.write(&bytes[done..])?;
    }
    Ok(())
}
