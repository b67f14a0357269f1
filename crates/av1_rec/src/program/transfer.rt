ghost use Rattle.std.specs.Prelude.{◌≡◌, ◌<◌, ◌≤◌, ◌^◌, ◌⊎◌, ◌+◌, ◌++◌, List, [], ℕ, Some, true, length, vec_len, IfOk, OnOk, OnErr, IfSome, IsErrOf};
ghost use Rattle.std.specs.Io.KnownBytes.{Consumes, IsAtEnd, Appends};
ghost use Rattle.av1_rec.specs.Told.{Rose, LosesCount, Prefixed};
ghost use Rattle.av1_rec.specs.declared.program.transfer.ReadError.TheVariants.{OutOfMemory, Fault};

use crate::program::sink::{Sink, SinkError};
use crate::program::source::{Failed, Source};
use std::alloc::{AllocError, Global};

// The longest text, in bytes.
pub const LONGEST: usize = 1 << 28;

/// Why a text couldn't be read.
#[derive(Clone, Copy, Debug, PartialEq, Eq)]
pub enum ReadError {
    OutOfMemory,
    Fault,
    TooLong,
}

impl From<AllocError> for ReadError {
    ghost from_gives = { λ _ e. e ≡ OutOfMemory };

    fn from(_e: AllocError) -> ReadError {
        ReadError::OutOfMemory
    }
}

impl From<Failed> for ReadError {
    ghost from_gives = { λ _ e. e ≡ Fault };

    fn from(_e: Failed) -> ReadError {
        ReadError::Fault
    }
}

// Reads to the end, by pieces as long as the buffer.
fn read_by<S: Source>(alloc: Global, source: &mut S, piece: &mut [u8]) -> Result<Vec<u8>, ReadError>
    requires { 0 < length piece.old }
    ensures text { IfOk result
        (λ text. Consumes (S.left source.old) (S.left source.new) text.items) }
    ensures end { OnOk result (IsAtEnd (S.left source.new)) }
    ensures long { IfOk result (λ text. vec_len text ≤ 2 ^ 28) }
    ensures too_long { IsErrOf result ReadError.TooLong
        → LosesCount (S.left source.old) (S.left source.new) (2 ^ 28 + 1) }
    ensures quiet { S.is_quiet ≡ true → OnOk result (S.faults source.new ≡ S.faults source.old) }
    ensures quiet_too_long { S.is_quiet ≡ true → IsErrOf result ReadError.TooLong
        → S.faults source.new ≡ S.faults source.old }
    ensures kept { S.faults source.old ≤ S.faults source.new }
    ensures fault { IsErrOf result ReadError.Fault
        → Rose (S.faults source.old) (S.faults source.new) }
{
    let mut text = Vec::new(alloc);
    while text.len() <= LONGEST {
        let room = piece.len().min(LONGEST + 1 - text.len());
        let part = &mut piece[..room];
        let n = source.read(part)?;
        if n == 0 {
            return Ok(text);
        }
        text.extend_from_slice(&part[..n])?;
    }
    Err(ReadError::TooLong)
}

/// Reads to the end, at most one byte past the longest text.
pub fn read_text<S: Source>(alloc: Global, source: &mut S) -> Result<Vec<u8>, ReadError>
    ensures text { IfOk result (λ text. IfSome (S.left source.old)
        (λ left. (text.items ≡ left) × (S.left source.new ≡ Some []))) }
    ensures long { IfOk result (λ text. vec_len text ≤ 2 ^ 28) }
    ensures too_long { IsErrOf result ReadError.TooLong
        → LosesCount (S.left source.old) (S.left source.new) (2 ^ 28 + 1) }
    ensures longer { IsErrOf result ReadError.TooLong
        → IfSome (S.left source.old) (λ left. 2 ^ 28 < length left) }
    ensures quiet { S.is_quiet ≡ true → OnOk result (S.faults source.new ≡ S.faults source.old) }
    ensures quiet_too_long { S.is_quiet ≡ true → IsErrOf result ReadError.TooLong
        → S.faults source.new ≡ S.faults source.old }
    ensures kept { S.faults source.old ≤ S.faults source.new }
    ensures fault { IsErrOf result ReadError.Fault
        → Rose (S.faults source.old) (S.faults source.new) }
{
    let mut piece = zeros(alloc, 65536)?;
    read_by(alloc, source, piece.as_mut_slice())
}

fn zeros(alloc: Global, size: usize) -> Result<Vec<u8>, AllocError>
    ensures { IfOk result (λ v. vec_len v ≡ size) }
{
    vec![in alloc; 0u8; size]
}

/// Writes all of the bytes, or, at an error, a prefix of them.
pub fn write_all<K: Sink>(sink: &mut K, bytes: &[u8]) -> Result<(), SinkError>
    ensures written { OnOk result (Appends (K.written sink.old) (K.written sink.new) bytes.now) }
    ensures prefix { OnErr result (Prefixed (K.written sink.old) (K.written sink.new) bytes.now) }
    ensures quiet { K.is_quiet ≡ true → OnOk result (K.faults sink.new ≡ K.faults sink.old) }
    ensures kept { K.faults sink.old ≤ K.faults sink.new }
    ensures failed { IsErrOf result SinkError.Failed
        → Rose (K.faults sink.old) (K.faults sink.new) }
{
    let mut rest = bytes;
    while !rest.is_empty() {
        let n = sink.write(rest)?;
        let (_, after) = rest.split_at(n);
        rest = after;
    }
    Ok(())
}
