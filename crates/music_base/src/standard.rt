//! Readers and writers of the standard library as a source and as a sink.
ghost use Rattle.std.specs.Prelude.{◌≡◌, ◌≤◌, ◌<◌, IfOk, OnErr, OnOk, None, length, take};
ghost use Rattle.std.specs.Io.KnownBytes.{Appends, ReadConsumes};
ghost use Rattle.music_base.specs.Causes.{HasCause, counted};
ghost use Rattle.music_base.specs.Standard.{or_failed, written};

use crate::{Failed, Sink, Source};
use std::io::{self, Read, Write};
use std::marker::Model;

/// A reader, such as standard input, as a source. The source tells none of its bytes: nothing is claimed of what
/// standard input gave. Only of a reader that tells its bytes itself, as a slice does, is it known that they are handed
/// on. Contracts see the reader and how often it failed.
#[derive(Drop)]
pub struct StdSource<R> {
    reader: R,
    faults: u64,
}

impl<R> Model for StdSource<R> {
    ghost use Rattle.music_base.specs.Standard.{Counting, counting_code};

    ghost Value = { Counting R };

    ghost coded = { counting_code R.code };

    ghost view = { λ s. record { inner = s.reader; faults = s.faults } };
}

impl<R> StdSource<R> {
    /// The source of this reader, which did not fail yet.
    pub fn new(reader: R) -> StdSource<R>
        ensures { result ≡ record { inner = reader; faults = 0 } }
    {
        StdSource { reader, faults: 0 }
    }
}

// What a reader or a writer answers, with each error of it as a failure. The end of a reader is none.
fn or_failed<T>(answer: io::Result<T>) -> Result<T, Failed>
    ensures { result ≡ or_failed answer }
{
    match answer {
        Ok(given) => Ok(given),
        Err(_) => Err(Failed),
    }
}

impl<R: Read> Source for StdSource<R> {
    ghost left = { λ _. None };

    ghost faults = { λ s. s.faults };

    /// Reads once. Each error of the reader is counted.
    fn read(&mut self, into: &mut [u8]) -> Result<usize, Failed>
        ensures within { IfOk result (λ n. n ≤ length into.old) }
        ensures bytes { ReadConsumes (R.remaining self.old.inner) (R.remaining self.new.inner) result into.new }
        ensures ok { OnOk result (self.new.faults ≡ self.old.faults) }
        ensures failed { OnErr result (self.new.faults ≡ counted self.old.faults) }
        ensures cause { HasCause self.old.faults self.new.faults result }
    {
        let result = or_failed(self.reader.read(into));
        if result.is_err() {
            self.faults = self.faults.saturating_add(1);
        }
        result
    }
}

/// A writer, such as standard output, as a sink. It flushes after each write. The sink tells none of its bytes: nothing
/// is claimed of what standard output took. Only of a writer that tells its bytes itself, as a `Vec` does, is it known
/// that they were handed on. Contracts see the writer and how often it failed.
#[derive(Drop)]
pub struct StdSink<W> {
    writer: W,
    faults: u64,
}

impl<W> Model for StdSink<W> {
    ghost use Rattle.music_base.specs.Standard.{Counting, counting_code};

    ghost Value = { Counting W };

    ghost coded = { counting_code W.code };

    ghost view = { λ s. record { inner = s.writer; faults = s.faults } };
}

impl<W> StdSink<W> {
    /// The sink of this writer, which did not fail yet.
    pub fn new(writer: W) -> StdSink<W>
        ensures { result ≡ record { inner = writer; faults = 0 } }
    {
        StdSink { writer, faults: 0 }
    }
}

// What a writer took of so many bytes. A write that takes nothing of a piece that is not empty is a failure too.
fn written(offered: usize, answer: io::Result<usize>) -> Result<usize, Failed>
    ensures { result ≡ written offered answer }
{
    match answer {
        Ok(0) if offered > 0 => Err(Failed),
        Ok(count) => Ok(count),
        Err(_) => Err(Failed),
    }
}

// Writes once and flushes.
fn write_through<W: Write>(writer: &mut W, from: &[u8]) -> Result<usize, Failed>
    ensures within { IfOk result (λ n. n ≤ length from.now) }
    ensures some { IfOk result (λ n. 0 < length from.now → 0 < n) }
    ensures bytes { IfOk result (λ n. Appends (W.contents writer.old) (W.contents writer.new) (take n from.now)) }
{
    let count = written(from.len(), writer.write(from))?;
    or_failed(writer.flush())?;
    Ok(count)
}

impl<W: Write> Sink for StdSink<W> {
    ghost taken = { λ _. None };

    ghost faults = { λ s. s.faults };

    /// Writes once and flushes. Each error of the writer is counted, and so is a write that takes nothing.
    fn write(&mut self, from: &[u8]) -> Result<usize, Failed>
        ensures within { IfOk result (λ n. n ≤ length from.now) }
        ensures some { IfOk result (λ n. 0 < length from.now → 0 < n) }
        ensures bytes { IfOk result (λ n. Appends (W.contents self.old.inner) (W.contents self.new.inner) (take n from.now)) }
        ensures ok { OnOk result (self.new.faults ≡ self.old.faults) }
        ensures failed { OnErr result (self.new.faults ≡ counted self.old.faults) }
        ensures cause { HasCause self.old.faults self.new.faults result }
    {
        let result = write_through(&mut self.writer, from);
        if result.is_err() {
            self.faults = self.faults.saturating_add(1);
        }
        result
    }
}
