ghost use Rattle.std.specs.Prelude.{true, ◌≡◌, ◌<◌, ◌≤◌, ◌++◌, length, take, drop, min, vec_len, Some, [], Contains, IsOk, IfOk, OnOk, OnErr, MatchResult};
ghost use Rattle.av1_rec.specs.Told.{Rose};

use crate::program::source::{Failed, Source};

/// A source of bytes in memory, in pieces, of which some reads fail.
#[derive(Drop)]
pub struct MemorySource {
    bytes: Vec<u8>,
    at: usize,
    most: usize,
    failing: Vec<u64>,
    calls: u64,
    faults: u64,
    ghost inside: { at ≤ vec_len bytes },
    ghost some: { 0 < most },
}

impl MemorySource {
    ghost use Rattle.av1_rec.specs.Stored.{source_left, calls_read, most_read, failing_reads, faults_read};

    /// Gives at most `most` bytes a call, and fails the calls whose numbers, from 0, are in `failing`.
    pub fn new(bytes: Vec<u8>, most: usize, failing: Vec<u64>) -> Self
        requires { 0 < most }
        ensures left { source_left result ≡ bytes.items }
        ensures most { most_read result ≡ most }
        ensures failing { failing_reads result ≡ failing.items }
        ensures calls { calls_read result ≡ 0 }
        ensures faults { faults_read result ≡ 0 }
    {
        MemorySource {
            bytes,
            at: 0,
            most,
            failing,
            calls: 0,
            faults: 0,
        }
    }
}

// Gives from the front of the bytes left.
fn serve(left: &[u8], most: usize, buf: &mut [u8]) -> usize
    requires { 0 < most }
    ensures fits { result ≤ length buf.old }
    ensures inside { result ≤ length left.now }
    ensures taken { left.now ≡ take result buf.new ++ drop result left.now }
    ensures end { 0 < length buf.old → result ≡ 0 → left.now ≡ [] }
    ensures count { result ≡ min (min most (length buf.old)) (length left.now) }
{
    let n = most.min(buf.len()).min(left.len());
    let (front, _) = left.split_at(n);
    buf[..n].copy_from_slice(front);
    n
}

impl Source for MemorySource {
    ghost use Rattle.av1_rec.specs.Stored.{source_left, calls_read, most_read, failing_reads, faults_read, one_more};

    ghost left = { λ s. Some (source_left s) };

    ghost faults = { λ s. s.faults };

    ghost is_quiet = { true };

    fn read(&mut self, buf: &mut [u8]) -> Result<usize, Failed>
        ensures fits { IfOk result (λ n. n ≤ length buf.old) }
        ensures taken { IfOk result
            (λ n. source_left self.old ≡ take n buf.new ++ source_left self.new) }
        ensures end { IfOk result (λ n. 0 < length buf.old → n ≡ 0 → source_left self.new ≡ []) }
        ensures quiet { OnOk result (faults_read self.new ≡ faults_read self.old) }
        ensures counted { OnErr result (faults_read self.new ≡ one_more (faults_read self.old)) }
        ensures kept { faults_read self.old ≤ faults_read self.new }
        ensures failed { OnErr result (Rose (faults_read self.old) (faults_read self.new)) }
        ensures count { IfOk result (λ n.
            n ≡ min (min (most_read self.old) (length buf.old)) (length (source_left self.old))) }
        ensures fails { MatchResult result
            (λ _. ¬ Contains (failing_reads self.old) (calls_read self.old))
            (λ _. Contains (failing_reads self.old) (calls_read self.old)) }
        ensures calls { calls_read self.new ≡ one_more (calls_read self.old) }
        ensures most { most_read self.new ≡ most_read self.old }
        ensures failing { failing_reads self.new ≡ failing_reads self.old }
    {
        let call = self.calls;
        self.calls = self.calls.saturating_add(1);
        if self.failing.contains(&call) {
            self.faults = self.faults.saturating_add(1);
            return Err(Failed);
        }
        let n = serve(&self.bytes[self.at..], self.most, buf);
        self.at += n;
        Ok(n)
    }
}

/// A source of bytes in memory that never fails.
#[derive(Drop)]
pub struct PlainSource {
    bytes: Vec<u8>,
    at: usize,
    ghost inside: { at ≤ vec_len bytes },
}

impl PlainSource {
    ghost use Rattle.av1_rec.specs.Stored.{plain_left};

    /// Gives these bytes, as many a call as the buffer holds.
    pub fn new(bytes: Vec<u8>) -> Self
        ensures { plain_left result ≡ bytes.items }
    {
        PlainSource { bytes, at: 0 }
    }
}

impl Source for PlainSource {
    ghost use Rattle.av1_rec.specs.Stored.{plain_left};

    ghost left = { λ s. Some (plain_left s) };

    ghost faults = { λ s. 0 };

    ghost is_quiet = { true };

    fn read(&mut self, buf: &mut [u8]) -> Result<usize, Failed>
        ensures works { IsOk result }
        ensures count { IfOk result
            (λ n. n ≡ min (length buf.old) (length (plain_left self.old))) }
        ensures taken { IfOk result
            (λ n. plain_left self.old ≡ take n buf.new ++ plain_left self.new) }
    {
        let n = serve(&self.bytes[self.at..], usize::MAX, buf);
        self.at += n;
        Ok(n)
    }
}
