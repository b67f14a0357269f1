ghost use Rattle.std.specs.Prelude.{true, ◌≡◌, ◌<◌, ◌≤◌, None, length, take, IfOk, OnOk, OnErr, IsErrOf};
ghost use Rattle.std.specs.Io.KnownBytes.{Consumes, IsAtEnd, Appends, Keeps};
ghost use Rattle.av1_rec.specs.Told.{Rose};

use crate::program::sink::{Sink, SinkError};
use crate::program::source::{Failed, Source};
use std::io::{ErrorKind, Read, Write};

/// A source over std's reader, which tells the bytes that the reader tells. A read that a signal
/// interrupts is tried again.
#[derive(Drop)]
pub struct ReadSource<R> {
    reader: R,
    faults: u64,
}

impl<R: Read> ReadSource<R> {
    /// Reads from `reader`.
    pub fn new(reader: R) -> Self {
        ReadSource { reader, faults: 0 }
    }
}

// One read, tried again where a signal interrupts it.
#[tactic(auto, using(crate::proofs::Pieces::pieces))]
fn read_retrying<R: Read>(reader: &mut R, buf: &mut [u8]) -> Result<usize, Failed>
    ensures fits { IfOk result (λ n. n ≤ length buf.old) }
    ensures taken { IfOk result
        (λ n. Consumes (R.remaining reader.old) (R.remaining reader.new) (take n buf.new)) }
    ensures end { IfOk result (λ n. 0 < length buf.old → n ≡ 0 → IsAtEnd (R.remaining reader.new)) }
{
    for _ in 0..u64::MAX {
        match reader.read(buf) {
            Ok(n) => return Ok(n),
            Err(error) => {
                if error.kind() != ErrorKind::Interrupted {
                    return Err(Failed);
                }
            }
        }
    }
    Err(Failed)
}

impl<R: Read> Source for ReadSource<R> {
    ghost left = { λ s. R.remaining s.reader };

    ghost faults = { λ s. s.faults };

    ghost is_quiet = { true };

    fn read(&mut self, buf: &mut [u8]) -> Result<usize, Failed> {
        match read_retrying(&mut self.reader, buf) {
            Ok(n) => Ok(n),
            Err(Failed) => {
                self.faults = self.faults.saturating_add(1);
                Err(Failed)
            }
        }
    }
}

/// A sink over std's writer, which is flushed after each write. A write of nothing is a fault, and so is
/// a flush that fails; then the writer may have taken bytes that the sink has not. A write or a flush
/// that a signal interrupts is tried again. The sink tells no bytes.
#[derive(Drop)]
pub struct WriteSink<W> {
    writer: W,
    faults: u64,
}

impl<W: Write> WriteSink<W> {
    /// Writes to `writer`.
    pub fn new(writer: W) -> Self {
        WriteSink { writer, faults: 0 }
    }
}

// One write, tried again where a signal interrupts it.
#[tactic(auto, using(crate::proofs::Pieces::pieces))]
fn write_retrying<W: Write>(writer: &mut W, bytes: &[u8]) -> Result<usize, SinkError>
    ensures fits { IfOk result (λ n. n ≤ length bytes.now) }
    ensures written { IfOk result
        (λ n. Appends (W.contents writer.old) (W.contents writer.new) (take n bytes.now)) }
    ensures failed { OnErr result (IsErrOf result SinkError.Failed) }
{
    for _ in 0..u64::MAX {
        match writer.write(bytes) {
            Ok(n) => return Ok(n),
            Err(error) => {
                if error.kind() != ErrorKind::Interrupted {
                    return Err(SinkError::Failed);
                }
            }
        }
    }
    Err(SinkError::Failed)
}

// Flushes, and tries again where a signal interrupts it.
#[tactic(auto, using(crate::proofs::Pieces::pieces))]
fn flush_retrying<W: Write>(writer: &mut W) -> Result<(), SinkError>
    ensures same { Keeps (W.contents writer.old) (W.contents writer.new) }
    ensures failed { OnErr result (IsErrOf result SinkError.Failed) }
{
    for _ in 0..u64::MAX {
        match writer.flush() {
            Ok(()) => return Ok(()),
            Err(error) => {
                if error.kind() != ErrorKind::Interrupted {
                    return Err(SinkError::Failed);
                }
            }
        }
    }
    Err(SinkError::Failed)
}

// Writes a front of the bytes, at least one where there are some, and flushes it.
#[tactic(auto, using(crate::proofs::Pieces::pieces))]
fn write_flushed<W: Write>(writer: &mut W, bytes: &[u8]) -> Result<usize, SinkError>
    ensures fits { IfOk result (λ n. n ≤ length bytes.now) }
    ensures some { IfOk result (λ n. 0 < length bytes.now → 0 < n) }
    ensures written { IfOk result
        (λ n. Appends (W.contents writer.old) (W.contents writer.new) (take n bytes.now)) }
    ensures failed { OnErr result (IsErrOf result SinkError.Failed) }
{
    let taken = write_retrying(writer, bytes)?;
    if taken == 0 && !bytes.is_empty() {
        return Err(SinkError::Failed);
    }
    flush_retrying(writer)?;
    Ok(taken)
}

impl<W: Write> Sink for WriteSink<W> {
    ghost use Rattle.av1_rec.specs.Stored.{writer_bytes, write_faults};

    ghost written = { λ s. None };

    ghost faults = { λ s. s.faults };

    ghost is_quiet = { true };

    fn write(&mut self, buf: &[u8]) -> Result<usize, SinkError>
        ensures fits { IfOk result (λ n. n ≤ length buf.now) }
        ensures some { IfOk result (λ n. 0 < length buf.now → 0 < n) }
        ensures told { IfOk result (λ n. Appends (writer_bytes W.contents self.old)
            (writer_bytes W.contents self.new) (take n buf.now)) }
        ensures quiet { OnOk result (write_faults self.new ≡ write_faults self.old) }
        ensures kept { write_faults self.old ≤ write_faults self.new }
        ensures failed { OnErr result (Rose (write_faults self.old) (write_faults self.new)) }
    {
        match write_flushed(&mut self.writer, buf) {
            Ok(taken) => Ok(taken),
            Err(error) => {
                self.faults = self.faults.saturating_add(1);
                Err(error)
            }
        }
    }
}
