ghost use Rattle.std.specs.Prelude.{◌≡◌, ◌<◌, ◌≤◌, ℕ, List, Option, length, take, Bool, false, true, IfOk, OnOk, OnErr};
ghost use Rattle.std.specs.Io.KnownBytes.{Consumes, IsAtEnd};
ghost use Rattle.av1_rec.specs.Told.{Rose};

/// A read failed.
#[derive(Clone, Copy, Debug, PartialEq, Eq)]
pub struct Failed;

/// Where bytes come from.
pub trait Source {
    /// The bytes left, where the source tells them.
    ghost left: { Self → Option (List ℕ) };

    /// How often a read failed. The count never falls, and stands still at 2^64 - 1.
    ghost faults: { Self → ℕ };

    /// Whether it is known that a read that works leaves the count.
    ghost is_quiet: { Bool } = { false };

    /// Puts bytes at the front of `buf` and gives their number. For a buffer that isn't empty, 0 is the
    /// end.
    fn read(&mut self, buf: &mut [u8]) -> Result<usize, Failed>
        ensures fits { IfOk result (λ n. n ≤ length buf.old) }
        ensures taken { IfOk result
            (λ n. Consumes (left self.old) (left self.new) (take n buf.new)) }
        ensures end { IfOk result (λ n. 0 < length buf.old → n ≡ 0 → IsAtEnd (left self.new)) }
        ensures quiet { is_quiet ≡ true → OnOk result (faults self.new ≡ faults self.old) }
        ensures kept { faults self.old ≤ faults self.new }
        ensures failed { OnErr result (Rose (faults self.old) (faults self.new)) };
}
