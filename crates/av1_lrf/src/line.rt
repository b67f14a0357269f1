ghost use Rattle.std.specs.Prelude.{◌≡◌, ◌+◌, ◌-◌, ◌*◌, ◌/◌, ◌^◌, ◌<◌, ◌≤◌, ℕ, ℤ, pos, ◌≤ℤ◌, ◌<ℤ◌, length, map, slice_set};
ghost use Rattle.av1_plane.specs.Numbers.{InDepth, Below};
ghost use Rattle.av1_lrf.specs.Rows.{sample, nearest_in_stripe};
ghost use Rattle.av1_lrf.specs.Runs.{HasSampleRun};
ghost use Rattle.av1_lrf.specs.Wiener.{reduced, tapped};
ghost use Rattle.av1_lrf.specs.Taps.{seven, rounding_of, IsWithinBound, AreTaps, AreLimits};

use crate::taps::{Limits, Taps, reduce, tapped_at};
use av1_plane::Pixel;

// Sample i of a row of samples that 15 bits hold.
#[inline(always)]
fn number<T: Pixel>(row: &[T], i: usize) -> i16
    requires i { i < length row.now }
    requires range { Below 32768 (map T.number row.now) }
    ensures { result ≡ sample (map T.number row.now) i }
{
    row[i].to_i32() as i16
}

// Repeats sample `at` of a row.
#[inline(always)]
#[tactic(auto, using(crate::proofs::RunFacts::runs))]
fn repeat<T: Pixel>(line: &mut [i16], from: usize, to: usize, row: &[T], at: usize)
    requires order { from ≤ to }
    requires inside { to ≤ length line.old }
    requires row { at < length row.now }
    requires range { Below 32768 (map T.number row.now) }
    ensures { HasSampleRun from (to - from) (λ i. sample (map T.number row.now) at) line.old
        line.new }
{
    for i in 0..to - from {
        line[from + i] = number(row, at);
    }
}

// Copies the samples of a row, `first` and those that follow.
#[inline(always)]
#[tactic(auto, using(crate::proofs::RunFacts::runs))]
fn copy<T: Pixel>(line: &mut [i16], from: usize, to: usize, row: &[T], first: usize)
    requires order { from ≤ to }
    requires inside { to ≤ length line.old }
    requires row { first + (to - from) ≤ length row.now }
    requires range { Below 32768 (map T.number row.now) }
    ensures { HasSampleRun from (to - from) (λ i. sample (map T.number row.now) (first + i))
        line.old line.new }
{
    for i in 0..to - from {
        line[from + i] = number(row, first + i);
    }
}

/// The samples of a row, from a place on that counts from 3 before it; past the ends the row's
/// first and last sample.
#[inline(always)]
pub fn fill_line<T: Pixel>(line: &mut [i16], row: &[T], at: usize)
    requires some { 0 < length row.now }
    requires near { at < length row.now }
    requires small { length row.now ≤ 65536 }
    requires long { 6 < length line.old }
    requires range { Below 32768 (map T.number row.now) }
    ensures { (i : ℕ) → i < length line.new → sample line.new i ≡ sample (map T.number row.now)
        (nearest_in_stripe (length row.now) (at + i)) }
{
    let n = line.len();
    let width = row.len();
    let left = 3 - at.min(3);
    let right = n.min(width + 3 - at);
    repeat(line, 0, left, row, 0);
    copy(line, left, right, row, at + left - 3);
    repeat(line, right, n, row, width - 1);
}

/// Filters a line across, into `n` cells from `at` on.
#[inline(always)]
#[tactic(auto, using(crate::proofs::RunFacts::runs))]
pub fn filter_across(cells: &mut [i16], at: usize, n: usize, line: &[i16], t: Taps, l: Limits)
    requires cells { at + n ≤ length cells.old }
    requires line { n + 6 ≤ length line.now }
    requires taps { AreTaps t }
    requires limits { AreLimits l }
    ensures { HasSampleRun at n (λ i. reduced (rounding_of l) (tapped (seven t) (λ k. sample
        line.now (i + k * 1)))) cells.old cells.new }
{
    for i in 0..n {
        let sum = tapped_at(t, line, i, 1);
        cells[at + i] = reduce(sum, l);
    }
}
