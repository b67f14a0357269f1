ghost use Rattle.std.specs.Prelude.{◌≡◌, ◌+◌, ◌-◌, ◌*◌, ◌%◌, ◌<◌, ◌≤◌, ◌^◌, ℕ, length, map, unsigned_abs, if◌then◌else◌};
ghost use Rattle.av1_lrf.specs.Sums.{total_of_first};
ghost use Rattle.av1_lrf.specs.Guided.{Table};
ghost use Rattle.av1_lrf.specs.Rows.{sample, nearest_in_stripe};
ghost use Rattle.av1_lrf.specs.Integral.{cell, row_entry, HasSumRun, HasCornerSums, source_from, squared_if};
ghost use Rattle.av1_lrf.specs.Taps.{scene_by, CanLook};

use crate::rows::{Extent, source_row};
use av1_plane::{Pixel, Plane};

// The number of a row's sample, or its square.
#[inline(always)]
#[tactic(auto, using(crate::proofs::IntegralFacts::sums))]
fn entry<T: Pixel>(row: &[T], i: usize, squared: bool) -> u32
    requires i { i < length row.now }
    ensures { result ≡ (let v = unsigned_abs (sample (map T.number row.now) i) in if squared then
        v * v else v) }
{
    let v = row[i].to_i32().unsigned_abs();
    if squared { v * v } else { v }
}

// Adds a row to the sums of the rows above it: `n` cells behind cell `to`, from those behind cell
// `from`.
#[tactic(auto, using(crate::proofs::IntegralFacts::sums))]
fn sum_row<T: Pixel>(
    cells: &mut [u32],
    from: usize,
    to: usize,
    n: usize,
    row: &[T],
    at: usize,
    squared: bool,
)
    requires some { 0 < length row.now }
    requires apart { from + n < to + 1 }
    requires cells { to + n < length cells.old }
    requires near { at + n ≤ 2 ^ 33 }
    ensures { HasSumRun (to + 1) n (λ i. (cell cells.old (from + 1 + i) + total_of_first (i + 1)
        (row_entry squared (map T.number row.now) at)) % 2 ^ 32) cells.old cells.new }
{
    let width = row.len();
    let mut sum = 0u32;
    for i in 0..n {
        let x = ((at + i).max(3) - 3).min(width - 1);
        sum = sum.wrapping_add(entry(row, x, squared));
        cells[to + 1 + i] = cells[from + 1 + i].wrapping_add(sum);
    }
}

#[tactic(auto, using(crate::proofs::IntegralFacts::sums))]
fn clear_row(cells: &mut [u32], n: usize)
    requires { n ≤ length cells.old }
    ensures { HasSumRun 0 n (λ i. 0) cells.old cells.new }
{
    for i in 0..n {
        cells[i] = 0;
    }
}

// One row of sums more.
fn next_row<T: Pixel>(
    cells: &mut [u32],
    step: usize,
    cols: usize,
    j: usize,
    row: &[T],
    x: usize,
    squared: bool,
)
    requires some { 0 < length row.now }
    requires wide { cols < step }
    requires cells { (j + 1) * step + cols < length cells.old }
    requires near { x + cols ≤ 2 ^ 33 }
    ensures { (f : Table) → HasCornerSums f step cols j cells.old → ((i : ℕ) → i < cols →
        row_entry squared (map T.number row.now) x i ≡ f i j) → HasCornerSums f step cols (j +
        1) cells.new }
{
    let _length = cells.len();
    let to = (j + 1) * step;
    cells[to] = 0;
    sum_row(cells, j * step, to, cols, row, x, squared);
}

/// Fills the cells with the prefix sums of what a stripe reads, or of its squares: `cols` columns
/// from `x` on and `rows` rows from `y` on, which count from 3 before the picture.
#[tactic(auto, using(crate::proofs::IntegralFacts::sums))]
pub fn fill_sums<T: Pixel>(
    cells: &mut [u32],
    step: usize,
    cols: usize,
    rows: usize,
    x: usize,
    y: usize,
    cdeffed: &Plane<T>,
    deblocked: &Plane<T>,
    e: Extent,
    squared: bool,
)
    requires scene { CanLook e cdeffed.now deblocked.now }
    requires wide { cols < step }
    requires cells { rows * step + cols < length cells.old }
    requires x { x + cols ≤ 2 ^ 33 }
    requires y { y + rows ≤ 2 ^ 33 }
    ensures { HasCornerSums (squared_if squared (source_from (scene_by T.number e cdeffed.now
        deblocked.now) x y)) step cols rows cells.new }
{
    clear_row(cells, cols + 1);
    for j in 0..rows {
        let row = source_row(cdeffed, deblocked, e, y + j);
        next_row(cells, step, cols, j, row, x, squared);
    }
}
