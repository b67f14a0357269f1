ghost use Rattle.std.specs.Prelude.{true, ◌≡◌, ◌<◌, ◌≤◌, ◌++◌, length, take, min, Some, [], Contains, IfOk, IfErr, OnOk, OnErr, IsErrOf};
ghost use Rattle.av1_rec.specs.Told.{Rose};

use crate::program::sink::{Sink, SinkError};
use std::alloc::Global;

/// A sink that keeps what is written in memory, in pieces, and of which some writes fail.
#[derive(Drop)]
pub struct MemorySink {
    bytes: Vec<u8>,
    most: usize,
    failing: Vec<u64>,
    calls: u64,
    faults: u64,
    ghost some: { 0 < most },
}

impl MemorySink {
    ghost use Rattle.av1_rec.specs.Stored.{sink_bytes, calls_written, most_written, failing_writes, faults_written};

    /// Takes at most `most` bytes a call, and fails the calls whose numbers, from 0, are in `failing`.
    pub fn new(alloc: Global, most: usize, failing: Vec<u64>) -> Self
        requires { 0 < most }
        ensures bytes { sink_bytes result ≡ [] }
        ensures most { most_written result ≡ most }
        ensures failing { failing_writes result ≡ failing.items }
        ensures calls { calls_written result ≡ 0 }
        ensures faults { faults_written result ≡ 0 }
    {
        MemorySink {
            bytes: Vec::new(alloc),
            most,
            failing,
            calls: 0,
            faults: 0,
        }
    }

    /// The bytes that were written.
    pub fn bytes(&self) -> &[u8]
        ensures { result.now ≡ sink_bytes self.now }
    {
        &self.bytes
    }
}

impl Sink for MemorySink {
    ghost use Rattle.av1_rec.specs.Stored.{sink_bytes, calls_written, most_written, failing_writes, faults_written, one_more};

    ghost written = { λ s. Some (sink_bytes s) };

    ghost faults = { λ s. s.faults };

    ghost is_quiet = { true };

    fn write(&mut self, buf: &[u8]) -> Result<usize, SinkError>
        ensures fits { IfOk result (λ n. n ≤ length buf.now) }
        ensures some { IfOk result (λ n. 0 < length buf.now → 0 < n) }
        ensures written { IfOk result
            (λ n. sink_bytes self.new ≡ sink_bytes self.old ++ take n buf.now) }
        ensures same { OnErr result (sink_bytes self.new ≡ sink_bytes self.old) }
        ensures quiet { OnOk result (faults_written self.new ≡ faults_written self.old) }
        ensures counted { IsErrOf result SinkError.Failed
            → faults_written self.new ≡ one_more (faults_written self.old) }
        ensures memory { IsErrOf result SinkError.OutOfMemory
            → faults_written self.new ≡ faults_written self.old }
        ensures kept { faults_written self.old ≤ faults_written self.new }
        ensures failed { IsErrOf result SinkError.Failed
            → Rose (faults_written self.old) (faults_written self.new) }
        ensures count { IfOk result (λ n. n ≡ min (most_written self.old) (length buf.now)) }
        ensures fails { IsErrOf result SinkError.Failed
            → Contains (failing_writes self.old) (calls_written self.old) }
        ensures works { OnOk result
            (¬ Contains (failing_writes self.old) (calls_written self.old)) }
        ensures calls { calls_written self.new ≡ one_more (calls_written self.old) }
        ensures most { most_written self.new ≡ most_written self.old }
        ensures failing { failing_writes self.new ≡ failing_writes self.old }
    {
        let call = self.calls;
        self.calls = self.calls.saturating_add(1);
        if self.failing.contains(&call) {
            self.faults = self.faults.saturating_add(1);
            return Err(SinkError::Failed);
        }
        let n = self.most.min(buf.len());
        match self.bytes.extend_from_slice(&buf[..n]) {
            Ok(()) => Ok(n),
            Err(_) => Err(SinkError::OutOfMemory),
        }
    }
}

/// A sink that keeps what is written in memory and never answers `Failed`.
#[derive(Drop)]
pub struct PlainSink {
    bytes: Vec<u8>,
}

impl PlainSink {
    ghost use Rattle.av1_rec.specs.Stored.{plain_bytes};

    /// Has taken nothing yet.
    pub fn new(alloc: Global) -> Self
        ensures { plain_bytes result ≡ [] }
    {
        PlainSink {
            bytes: Vec::new(alloc),
        }
    }

    /// The bytes that were written.
    pub fn bytes(&self) -> &[u8]
        ensures { result.now ≡ plain_bytes self.now }
    {
        &self.bytes
    }
}

impl Sink for PlainSink {
    ghost use Rattle.av1_rec.specs.Stored.{plain_bytes};

    ghost written = { λ s. Some (plain_bytes s) };

    ghost faults = { λ s. 0 };

    ghost is_quiet = { true };

    fn write(&mut self, buf: &[u8]) -> Result<usize, SinkError>
        ensures whole { IfOk result (λ n. n ≡ length buf.now) }
        ensures written { OnOk result (plain_bytes self.new ≡ plain_bytes self.old ++ buf.now) }
        ensures same { OnErr result (plain_bytes self.new ≡ plain_bytes self.old) }
        ensures memory { IfErr result (λ e. e ≡ SinkError.OutOfMemory) }
    {
        match self.bytes.extend_from_slice(buf) {
            Ok(()) => Ok(buf.len()),
            Err(_) => Err(SinkError::OutOfMemory),
        }
    }
}
