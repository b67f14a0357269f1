ghost use Rattle.std.specs.Prelude.{◌≡◌, ◌<◌, ◌≤◌, ℕ, List, Option, length, take, Bool, false, true, IfOk, OnOk, OnErr, IsErrOf};
ghost use Rattle.std.specs.Io.KnownBytes.{Appends, Keeps};
ghost use Rattle.av1_rec.specs.Told.{Rose};

/// Why a write failed.
#[derive(Clone, Copy, Debug, PartialEq, Eq)]
pub enum SinkError {
    Failed,
    /// A sink in memory couldn't grow.
    OutOfMemory,
}

/// Where bytes go.
pub trait Sink {
    /// The bytes written, where the sink tells them.
    ghost written: { Self → Option (List ℕ) };

    /// How often a write failed. The count never falls, and stands still at 2^64 - 1.
    ghost faults: { Self → ℕ };

    /// Whether it is known that a write that works leaves the count.
    ghost is_quiet: { Bool } = { false };

    /// Takes bytes from the front of `buf` and gives their number, at least 1 unless `buf` is empty.
    fn write(&mut self, buf: &[u8]) -> Result<usize, SinkError>
        ensures fits { IfOk result (λ n. n ≤ length buf.now) }
        ensures some { IfOk result (λ n. 0 < length buf.now → 0 < n) }
        ensures written { IfOk result
            (λ n. Appends (written self.old) (written self.new) (take n buf.now)) }
        ensures same { OnErr result (Keeps (written self.old) (written self.new)) }
        ensures quiet { is_quiet ≡ true → OnOk result (faults self.new ≡ faults self.old) }
        ensures kept { faults self.old ≤ faults self.new }
        ensures failed { IsErrOf result SinkError.Failed
            → Rose (faults self.old) (faults self.new) };
}
