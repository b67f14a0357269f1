ghost use Rattle.std.specs.Prelude.{◌≡◌, ◌+◌, ◌-◌, ◌*◌, ◌<◌, ◌≤◌, ◌≤ℤ◌, ◌<ℤ◌, ℕ, ℤ, pos, length, map, slice_set};
ghost use Rattle.av1_lrf.specs.Rows.{sample};
ghost use Rattle.av1_lrf.specs.Runs.{HasSampleRun, HasArea, HasRowRoom};
ghost use Rattle.av1_lrf.specs.Wiener.{reduced, tapped, wiener_across, down};
ghost use Rattle.av1_lrf.specs.Taps.{seven, rounding_of, AreTaps, AreLimits, HasStripeCells, scene_by, CanReadStripe, down_by, IsTapFilter};

use crate::line::{fill_line, filter_across};
use crate::rows::{Extent, source_row};
use crate::taps::{Limits, Taps, reduce, tapped_at};
use av1_plane::{Pixel, Plane};

/// A filter: its taps and limits across and down.
#[derive(Clone, Copy)]
pub struct Filter {
    pub across: Taps,
    pub across_limits: Limits,
    pub down: Taps,
    pub down_limits: Limits,
}

// Fills the cells with the rows of a part of a stripe, filtered across: `n` columns from `x` on,
// and `rows` rows from `y` on, which count from 3 before the picture.
#[tactic(auto, using(crate::proofs::CellFacts::cells))]
fn fill_cells<T: Pixel>(
    cells: &mut [i16],
    line: &mut [i16],
    n: usize,
    rows: usize,
    x: usize,
    y: usize,
    cdeffed: &Plane<T>,
    deblocked: &Plane<T>,
    e: Extent,
    t: Taps,
    l: Limits,
)
    requires scene { CanReadStripe T.number e cdeffed.now deblocked.now }
    requires n { n ≤ 64 }
    requires some { 0 < n }
    requires inside { x + n ≤ e.width }
    requires rows { rows ≤ 70 }
    requires y { y ≤ 65536 }
    requires cells { length cells.old ≡ 4480 }
    requires line { length line.old ≡ n + 6 }
    requires taps { AreTaps t }
    requires limits { AreLimits l }
    ensures { HasStripeCells n rows (λ i j. wiener_across (rounding_of l) (seven t) (scene_by
        T.number e cdeffed.now deblocked.now) (x + i) (y + j)) cells.new }
{
    for j in 0..rows {
        let row = source_row(cdeffed, deblocked, e, y + j);
        fill_line(line, row, x);
        filter_across(cells, j * 64, n, line, t, l);
    }
}

#[inline(always)]
#[tactic(auto, using(crate::proofs::RunFacts::writes))]
pub fn write<T: Pixel>(out: &mut [T], at: usize, v: i16)
    requires at { at < length out.old }
    requires low { pos 0 ≤ℤ v }
    requires high { v <ℤ pos T.limit }
    ensures { map T.number out.new ≡ slice_set (map T.number out.old) at v }
{
    out[at] = T::from_i32(i32::from(v));
}

// Filters `n` columns of cells down, from cell `first` on, into the samples from `at` on.
#[inline(always)]
#[tactic(auto, using(crate::proofs::RunFacts::runs))]
fn filter_down<T: Pixel>(
    out: &mut [T],
    at: usize,
    n: usize,
    cells: &[i16],
    first: usize,
    t: Taps,
    l: Limits,
)
    requires out { at + n ≤ length out.old }
    requires cells { first + 6 * 64 + n ≤ length cells.now }
    requires taps { AreTaps t }
    requires limits { AreLimits l }
    requires low { pos 0 ≤ℤ l.low }
    requires order { l.low ≤ℤ l.high }
    requires high { l.high <ℤ pos T.limit }
    ensures { HasSampleRun at n (λ i. reduced (rounding_of l) (tapped (seven t) (λ k. sample
        cells.now (first + i + k * 64)))) (map T.number out.old) (map T.number out.new) }
{
    for i in 0..n {
        let sum = tapped_at(t, cells, first + i, 64);
        let v = reduce(sum, l);
        write(out, at + i, v);
    }
}

// Filters all rows of cells down.
#[tactic(auto, using(crate::proofs::AreaFacts::rooms))]
fn filter_rows<T: Pixel>(
    out: &mut [T],
    origin: usize,
    step: usize,
    n: usize,
    rows: usize,
    x: usize,
    y: usize,
    width: usize,
    height: usize,
    cells: &[i16],
    t: Taps,
    l: Limits,
)
    requires room { HasRowRoom origin step width height (length out.old) }
    requires x { x + n ≤ width }
    requires y { y + rows ≤ height }
    requires n { n ≤ 64 }
    requires rows { rows ≤ 64 }
    requires cells { length cells.now ≡ 4480 }
    requires taps { AreTaps t }
    requires limits { AreLimits l }
    requires low { pos 0 ≤ℤ l.low }
    requires order { l.low ≤ℤ l.high }
    requires high { l.high <ℤ pos T.limit }
    ensures { HasArea origin step x (x + n) y (y + rows) (λ a b. reduced (rounding_of l) (tapped
        (seven t) (λ k. sample cells.now ((b - y) * 64 + (a - x) + k * 64)))) (map T.number
        out.old) (map T.number out.new) }
{
    let _length = out.len();
    for j in 0..rows {
        let at = origin + (y + j) * step + x;
        filter_down(out, at, n, cells, j * 64, t, l);
    }
}

// Filters the part of a stripe that has `n` columns from `x` on and `rows` rows from `y` on.
fn filter_part<T: Pixel>(
    out: &mut [T],
    origin: usize,
    step: usize,
    n: usize,
    rows: usize,
    x: usize,
    y: usize,
    cdeffed: &Plane<T>,
    deblocked: &Plane<T>,
    e: Extent,
    f: Filter,
    cells: &mut [i16],
    line: &mut [i16],
)
    requires room { HasRowRoom origin step e.width e.height (length out.old) }
    requires scene { CanReadStripe T.number e cdeffed.now deblocked.now }
    requires filter { IsTapFilter T.limit f }
    requires some { 0 < n }
    requires n { n ≤ 64 }
    requires rows { rows ≤ 64 }
    requires x { x + n ≤ e.width }
    requires y { y + rows ≤ e.height }
    requires cells { length cells.old ≡ 4480 }
    requires line { length line.old ≡ n + 6 }
    ensures { HasArea origin step x (x + n) y (y + rows) (down_by f (scene_by T.number e
        cdeffed.now deblocked.now)) (map T.number out.old) (map T.number out.new) }
{
    fill_cells(
        cells,
        line,
        n,
        rows + 6,
        x,
        y,
        cdeffed,
        deblocked,
        e,
        f.across,
        f.across_limits,
    );
    filter_rows(
        out,
        origin,
        step,
        n,
        rows,
        x,
        y,
        e.width,
        e.height,
        cells,
        f.down,
        f.down_limits,
    );
}

// Filters the columns from `left` up to `right` of some rows, 64 at once.
#[tactic(auto, using(crate::proofs::AreaFacts::areas))]
fn filter_columns<T: Pixel>(
    out: &mut [T],
    origin: usize,
    step: usize,
    left: usize,
    right: usize,
    rows: usize,
    y: usize,
    cdeffed: &Plane<T>,
    deblocked: &Plane<T>,
    e: Extent,
    f: Filter,
    cells: &mut [i16],
    line: &mut [i16],
)
    requires room { HasRowRoom origin step e.width e.height (length out.old) }
    requires scene { CanReadStripe T.number e cdeffed.now deblocked.now }
    requires filter { IsTapFilter T.limit f }
    requires left { left ≤ right }
    requires right { right ≤ e.width }
    requires rows { rows ≤ 64 }
    requires y { y + rows ≤ e.height }
    requires cells { length cells.old ≡ 4480 }
    requires line { length line.old ≡ 70 }
    ensures { HasArea origin step left right y (y + rows) (down_by f (scene_by T.number e
        cdeffed.now deblocked.now)) (map T.number out.old) (map T.number out.new) }
{
    for b in 0..(right - left + 63) / 64 {
        let x = left + b * 64;
        let n = (right - x).min(64);
        filter_part(
            out,
            origin,
            step,
            n,
            rows,
            x,
            y,
            cdeffed,
            deblocked,
            e,
            f,
            cells,
            &mut line[..n + 6],
        );
    }
}

// Filters the rows from `top` up to `bottom` of a stripe, 64 at once.
#[tactic(auto, using(crate::proofs::AreaFacts::areas))]
fn filter_area<T: Pixel>(
    out: &mut [T],
    origin: usize,
    step: usize,
    left: usize,
    right: usize,
    top: usize,
    bottom: usize,
    cdeffed: &Plane<T>,
    deblocked: &Plane<T>,
    e: Extent,
    f: Filter,
    cells: &mut [i16],
    line: &mut [i16],
)
    requires room { HasRowRoom origin step e.width e.height (length out.old) }
    requires scene { CanReadStripe T.number e cdeffed.now deblocked.now }
    requires filter { IsTapFilter T.limit f }
    requires left { left ≤ right }
    requires right { right ≤ e.width }
    requires top { top ≤ bottom }
    requires bottom { bottom ≤ e.height }
    requires cells { length cells.old ≡ 4480 }
    requires line { length line.old ≡ 70 }
    ensures { HasArea origin step left right top bottom (down_by f (scene_by T.number e
        cdeffed.now deblocked.now)) (map T.number out.old) (map T.number out.new) }
{
    for b in 0..(bottom - top + 63) / 64 {
        let y = top + b * 64;
        let rows = (bottom - y).min(64);
        filter_columns(
            out, origin, step, left, right, rows, y, cdeffed, deblocked, e, f, cells, line,
        );
    }
}

/// Filters an area of a stripe by way of `CELLS` cells and a line of `LINE` numbers.
pub fn filter_stripe<T: Pixel, const CELLS: usize, const LINE: usize>(
    out: &mut [T],
    origin: usize,
    step: usize,
    left: usize,
    right: usize,
    top: usize,
    bottom: usize,
    cdeffed: &Plane<T>,
    deblocked: &Plane<T>,
    e: Extent,
    f: Filter,
)
    requires room { HasRowRoom origin step e.width e.height (length out.old) }
    requires scene { CanReadStripe T.number e cdeffed.now deblocked.now }
    requires filter { IsTapFilter T.limit f }
    requires left { left ≤ right }
    requires right { right ≤ e.width }
    requires top { top ≤ bottom }
    requires bottom { bottom ≤ e.height }
    requires cells { CELLS ≡ 4480 }
    requires line { LINE ≡ 70 }
    ensures { HasArea origin step left right top bottom (down_by f (scene_by T.number e
        cdeffed.now deblocked.now)) (map T.number out.old) (map T.number out.new) }
{
    let mut cells = [0; CELLS];
    let mut line = [0; LINE];
    filter_area(
        out, origin, step, left, right, top, bottom, cdeffed, deblocked, e, f, &mut cells,
        &mut line,
    );
}
