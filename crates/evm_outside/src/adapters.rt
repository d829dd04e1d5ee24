//! A source over any reader of std and a sink over any writer.

ghost use Rattle.std.specs.Prelude.{◌≡◌, ◌≢◌, IfErr};
ghost use Rattle.std.specs.Io.{ReadsAtMost, WritesAtMost};
ghost use Rattle.std.specs.Io.KnownBytes.{Keeps, ReadConsumes, WriteAppends};
ghost use Rattle.std.specs.IoError.{error_kind};
ghost use Rattle.std.specs.declared.option.Option.TheVariants.{None};
ghost use Rattle.evm_outside.specs.Adapters.{reader_of, read_faults, writer_of, write_faults};
ghost use Rattle.evm_outside.specs.Causes.{HasCause, TakesSome, PassesOn};

use super::{Failed, Sink, Source};
use std::io;
use std::io::{ErrorKind, Read, Write};

/// Reads once, and again each time that a signal interrupts the call. It gives up after as many tries as a `u64` counts.
pub(crate) fn read_again<R: Read>(reader: &mut R, into: &mut [u8]) -> io::Result<usize>
    ensures bound { ReadsAtMost result into.new }
    ensures bytes { ReadConsumes (R.remaining reader.old) (R.remaining reader.new) result into.new }
    ensures again { IfErr result (λ e. error_kind e ≢ ErrorKind.Interrupted) }
{
    for _ in 0..u64::MAX {
        match reader.read(into) {
            Err(error) if error.kind() == ErrorKind::Interrupted => {}
            answer => return answer,
        }
    }
    Err(ErrorKind::TimedOut.into())
}

/// Writes once, and again each time that a signal interrupts the call, as often as [`read_again`] reads.
pub(crate) fn write_again<W: Write>(writer: &mut W, piece: &[u8]) -> io::Result<usize>
    ensures bound { WritesAtMost result piece.now }
    ensures bytes { WriteAppends (W.contents writer.old) (W.contents writer.new) result piece.now }
    ensures again { IfErr result (λ e. error_kind e ≢ ErrorKind.Interrupted) }
{
    for _ in 0..u64::MAX {
        match writer.write(piece) {
            Err(error) if error.kind() == ErrorKind::Interrupted => {}
            answer => return answer,
        }
    }
    Err(ErrorKind::TimedOut.into())
}

/// Flushes, and again each time that a signal interrupts the call, as often as [`read_again`] reads.
pub(crate) fn flush_again<W: Write>(writer: &mut W) -> io::Result<()>
    ensures bytes { Keeps (W.contents writer.old) (W.contents writer.new) }
    ensures again { IfErr result (λ e. error_kind e ≢ ErrorKind.Interrupted) }
{
    for _ in 0..u64::MAX {
        match writer.flush() {
            Err(error) if error.kind() == ErrorKind::Interrupted => {}
            answer => return answer,
        }
    }
    Err(ErrorKind::TimedOut.into())
}

/// Reads from a reader of std. What the reader tells of its bytes to come, the source tells. A call that a signal
/// interrupts is tried again, and is no fault.
#[derive(Drop)]
pub struct StdSource<R> {
    reader: R,
    faults: u64,
}

impl<R: Read + Drop> StdSource<R> {
    /// A source over this reader, of which no call has failed. Takes no memory.
    pub fn new(reader: R) -> StdSource<R>
        ensures { (reader_of result ≡ reader) × (read_faults result ≡ 0) }
    {
        StdSource { reader, faults: 0 }
    }
}

impl<R: Read + Drop> Source for StdSource<R> {
    ghost left = { λ s. R.remaining (reader_of s) };

    ghost faults = { read_faults };

    fn read(&mut self, into: &mut [u8]) -> Result<usize, Failed> {
        match read_again(&mut self.reader, into) {
            Ok(count) => Ok(count),
            Err(_) => {
                self.faults = self.faults.saturating_add(1);
                Err(Failed)
            }
        }
    }
}

/// Writes to a writer of std, and flushes it each time, so that what was taken is on its way. A call that a signal
/// interrupts is tried again, and is no fault.
///
/// The sink does not tell its bytes: where a flush fails, nobody knows what has arrived. What a call does to
/// the bytes of a writer that tells them, a clause of `write` says.
#[derive(Drop)]
pub struct StdSink<W> {
    writer: W,
    faults: u64,
}

impl<W: Write + Drop> StdSink<W> {
    /// A sink over this writer, of which no call has failed. Takes no memory.
    pub fn new(writer: W) -> StdSink<W>
        ensures { (writer_of result ≡ writer) × (write_faults result ≡ 0) }
    {
        StdSink { writer, faults: 0 }
    }

    /// The writer, which holds what was written.
    pub fn writer(&self) -> &W
        ensures { result.now ≡ writer_of self.now }
    {
        &self.writer
    }
}

/// Writes some of the piece and flushes. A writer that takes nothing of a piece that is not empty has failed.
fn write_some<W: Write>(writer: &mut W, piece: &[u8]) -> Result<usize, Failed>
    ensures some { TakesSome result piece.now }
    ensures bytes { PassesOn (W.contents writer.old) (W.contents writer.new) result piece.now }
{
    let Ok(taken) = write_again(writer, piece) else {
        return Err(Failed);
    };
    if taken == 0 && !piece.is_empty() {
        return Err(Failed);
    }
    match flush_again(writer) {
        Ok(()) => Ok(taken),
        Err(_) => Err(Failed),
    }
}

impl<W: Write + Drop> Sink for StdSink<W> {
    ghost written = { λ _. None };

    ghost faults = { write_faults };

    fn write(&mut self, piece: &[u8]) -> Result<usize, Failed>
        ensures some { TakesSome result piece.now }
        ensures cause { HasCause (write_faults self.old) (write_faults self.new) result }
        // The writer's bytes grow by those that were taken; where the call fails, by a front of the piece.
        ensures writer { PassesOn (W.contents (writer_of self.old)) (W.contents (writer_of self.new)) result piece.now }
    {
        match write_some(&mut self.writer, piece) {
            Ok(taken) => Ok(taken),
            Err(failed) => {
                self.faults = self.faults.saturating_add(1);
                Err(failed)
            }
        }
    }
}
