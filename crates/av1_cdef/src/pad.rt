ghost use Rattle.std.specs.Prelude.{◌≡◌, ◌+◌, ◌-◌, ◌*◌, ◌^◌, ◌<◌, ◌≤◌, length, map, true, false};
ghost use Rattle.av1_cdef.specs.Pad.{missing, HasCellRun, plain_cells, none_cells, side_cells, row_cells, window_cells, HoldsWindow, HasPaddedCells};

use crate::tally::CDEF_VERY_LARGE;
use av1_plane::Pixel;

/// On which sides of a block its plane goes on.
#[derive(Clone, Copy)]
pub struct Sides {
    pub left: bool,
    pub right: bool,
    pub top: bool,
    pub bottom: bool,
}

// Whether the plane goes on at both ends of a row.
#[inline(always)]
fn goes_on(left: bool, right: bool) -> bool
    ensures both { result ≡ true → (left ≡ true) × (right ≡ true) }
{
    left && right
}

// Copies `n` samples.
#[inline(always)]
#[tactic(auto, using(crate::proofs::Pads::runs))]
fn put_cells<T: Pixel>(dst: &mut [u16], at: usize, samples: &[T], from: usize, n: usize)
    requires at { at + n ≤ length dst.old }
    requires from { from + n ≤ length samples.now }
    ensures { HasCellRun at n (plain_cells (map T.number samples.now) from) dst.old dst.new }
{
    for k in 0..n {
        dst[at + k] = samples[from + k].to_i32() as u16;
    }
}

#[inline(always)]
#[tactic(auto, using(crate::proofs::Pads::runs))]
fn fill_cells(dst: &mut [u16], at: usize, n: usize)
    requires { at + n ≤ length dst.old }
    ensures { HasCellRun at n none_cells dst.old dst.new }
{
    for k in 0..n {
        dst[at + k] = CDEF_VERY_LARGE;
    }
}

// The two cells beside a row, if the plane goes on there.
#[inline(always)]
#[tactic(auto, using(crate::proofs::Pads::sides))]
fn pad_side<T: Pixel>(dst: &mut [u16], at: usize, samples: &[T], from: usize, side: bool)
    requires at { at + 2 ≤ length dst.old }
    requires from { side ≡ true → from + 2 ≤ length samples.now }
    ensures { HasCellRun at 2 (side_cells (map T.number samples.now) from side) dst.old dst.new }
{
    if side {
        put_cells(dst, at, samples, from, 2);
    } else {
        fill_cells(dst, at, 2);
    }
}

// A row of `w` samples, the first of which has that place, with two cells more on each side, side by
// side.
#[inline(always)]
#[tactic(auto, using(crate::proofs::Pads::rows))]
fn pad_ends<T: Pixel>(
    dst: &mut [u16],
    at: usize,
    samples: &[T],
    place: usize,
    w: usize,
    left: bool,
    right: bool,
)
    requires at { at + w + 4 ≤ length dst.old }
    requires before { left ≡ true → 2 ≤ place }
    requires row { place + w ≤ length samples.now }
    requires after { right ≡ true → place + w + 2 ≤ length samples.now }
    ensures { HasCellRun at (w + 4) (row_cells (map T.number samples.now) place w left right)
        dst.old dst.new }
{
    pad_side(dst, at, samples, place.saturating_sub(2), left);
    put_cells(dst, at + 2, samples, place, w);
    pad_side(dst, at + 2 + w, samples, place + w, right);
}

// A row of `w` samples from `place` on, with two cells more on each side. Where the
// plane goes on both ways the row is one run.
#[inline(always)]
fn pad_row<T: Pixel>(
    dst: &mut [u16],
    at: usize,
    samples: &[T],
    place: usize,
    w: usize,
    left: bool,
    right: bool,
)
    requires at { at + w + 4 ≤ length dst.old }
    requires before { left ≡ true → 2 ≤ place }
    requires row { place + w ≤ length samples.now }
    requires after { right ≡ true → place + w + 2 ≤ length samples.now }
    ensures { HasCellRun at (w + 4) (row_cells (map T.number samples.now) place w left right)
        dst.old dst.new }
{
    if goes_on(left, right) {
        put_cells(dst, at, samples, place - 2, w + 4);
    } else {
        pad_ends(dst, at, samples, place, w, left, right);
    }
}

// Whether a cell beside `n` samples goes past a side where the plane ends.
#[inline(always)]
fn is_missing(k: usize, n: usize, before: bool, after: bool) -> bool
    requires { n < 2 ^ 63 }
    ensures { result ≡ missing k n before after }
{
    k < 2 && !before || n + 2 <= k && !after
}

// Where row `y` of a block's cells begins, the block's first row being row 2.
#[inline(always)]
#[tactic(auto, using(crate::proofs::Pads::places))]
fn row_place(place: usize, step: usize, y: usize) -> usize
    requires low { 2 * step ≤ place + y * step }
    requires high { place + y * step < 2 ^ 64 + 2 * step }
    ensures { result ≡ place + y * step - 2 * step }
{
    if y < 2 {
        place - (2 - y) * step
    } else {
        place + (y - 2) * step
    }
}

// Row `y` of a block's cells.
#[inline(always)]
#[tactic(auto, using(crate::proofs::Pads::lines))]
fn pad_line<T: Pixel>(
    dst: &mut [u16],
    at: usize,
    samples: &[T],
    place: usize,
    step: usize,
    w: usize,
    h: usize,
    sides: Sides,
    y: usize,
)
    requires at { at + w + 4 ≤ length dst.old }
    requires h { h < 2 ^ 62 }
    requires y { y < h + 4 }
    requires window { HoldsWindow (length samples.now) place step w h sides }
    ensures { HasCellRun at (w + 4) (window_cells (map T.number samples.now) place step w h sides y)
        dst.old dst.new }
{
    let _length = samples.len();
    if is_missing(y, h, sides.top, sides.bottom) {
        fill_cells(dst, at, w + 4);
    } else {
        let from = row_place(place, step, y);
        pad_row(dst, at, samples, from, w, sides.left, sides.right);
    }
}

/// The cells of a block of `w` by `h` samples and of two more on each side, in rows of `stride`. The
/// block's first sample has that place, and rows of samples lie `step` apart.
#[inline(always)]
#[tactic(auto, using(crate::proofs::Pads::blocks))]
pub fn pad_block<T: Pixel>(
    dst: &mut [u16],
    stride: usize,
    samples: &[T],
    place: usize,
    step: usize,
    w: usize,
    h: usize,
    sides: Sides,
)
    requires wide { w + 4 ≤ stride }
    requires room { (h + 3) * stride + w + 4 ≤ length dst.old }
    requires window { HoldsWindow (length samples.now) place step w h sides }
    ensures { HasPaddedCells stride w (h + 4)
        (window_cells (map T.number samples.now) place step w h sides) dst.old dst.new }
{
    for y in 0..h + 4 {
        pad_line(dst, y * stride, samples, place, step, w, h, sides, y);
    }
}
