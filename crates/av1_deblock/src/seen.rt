ghost use Rattle.std.specs.Prelude.{◌≡◌, ◌+◌, ◌*◌, ◌<◌, ◌≤◌, ◌^◌, pos, length, true, false};
ghost use Rattle.av1_plane.specs.Numbers.{Below};
ghost use Rattle.av1_plane.specs.Region.{spot};
ghost use Rattle.av1_plane.specs.Reading.{area_seen, step_seen, numbers_seen};
ghost use Rattle.av1_plane.specs.Runs.{placed};
ghost use Rattle.av1_deblock.specs.Columns.{HoldsLines};
ghost use Rattle.av1_deblock.specs.Passes.{EdgeBelow, ShowsEdge};

use crate::columns::put_column;
use crate::edge::Edge;
use crate::sample::put_four;
use av1_plane::{Pixel, PlaneRegion};

// Reads `n` numbers of row `y` from column `x` on, into the entries from `at` on.
#[inline(always)]
#[tactic(auto, using(av1_plane::proofs::Runs::runs))]
fn read_run<T: Pixel>(
    p: &PlaneRegion<'_, T>,
    x: usize,
    y: usize,
    to: &mut [i32],
    at: usize,
    n: usize,
)
    requires x { x + n ≤ (area_seen p.now).width }
    requires y { y < (area_seen p.now).height }
    requires at { at + n ≤ length to.old }
    ensures { to.new
        ≡ placed to.old at (numbers_seen T.number p.now) (spot 0 (step_seen p.now) x y) n }
{
    let row = p.row(y);
    for j in 0..n {
        to[at + j] = row[x + j].to_i32();
    }
}

// Reads four numbers at once.
#[inline(always)]
fn read_four<T: Pixel>(p: &PlaneRegion<'_, T>, x: usize, y: usize, to: &mut [i32], at: usize)
    requires x { x + 4 ≤ (area_seen p.now).width }
    requires y { y < (area_seen p.now).height }
    requires at { at + 4 ≤ length to.old }
    ensures { to.new
        ≡ placed to.old at (numbers_seen T.number p.now) (spot 0 (step_seen p.now) x y) 4 }
{
    let mut four = [0; 4];
    read_run(p, x, y, &mut four, 0, 4);
    put_four(to, at, &four);
}

// Reads the four lines of a horizontal edge, row by row.
#[inline(always)]
#[tactic(auto, using(crate::proofs::SideBySide::gathers))]
fn gather_columns<T: Pixel>(p: &PlaneRegion<'_, T>, edge: Edge, cells: &mut [i32])
    requires edge { ShowsEdge p.now edge }
    requires direction { edge.vertical ≡ false }
    requires cells { length cells.old ≡ 4 * edge.size }
    ensures { HoldsLines 0 (step_seen p.now) (numbers_seen T.number p.now) edge edge.size 4
        cells.new }
{
    // A row lies in the region, so it has a number.
    let _rows = p.rect().height;
    for j in 0..edge.size {
        read_four(p, edge.x, edge.y + j, cells, 4 * j);
    }
}

// Reads the four lines of a vertical edge, by way of `line`.
#[inline(always)]
#[tactic(auto, using(crate::proofs::SideBySide::gathers))]
fn gather_rows<T: Pixel>(p: &PlaneRegion<'_, T>, edge: Edge, line: &mut [i32], cells: &mut [i32])
    requires edge { ShowsEdge p.now edge }
    requires direction { edge.vertical ≡ true }
    requires size { length line.old ≡ edge.size }
    requires cells { length cells.old ≡ 4 * edge.size }
    ensures { HoldsLines 0 (step_seen p.now) (numbers_seen T.number p.now) edge edge.size 4
        cells.new }
{
    let _rows = p.rect().height;
    let size = line.len();
    for k in 0..4 {
        read_run(p, edge.x, edge.y + k, line, 0, size);
        put_column(cells, k, line);
    }
}

/// Reads the four lines of an edge, by way of `line`.
#[inline(always)]
pub fn gather<T: Pixel>(
    p: &PlaneRegion<'_, T>,
    edge: Edge,
    bd: usize,
    line: &mut [i32],
    cells: &mut [i32],
)
    requires edge { ShowsEdge p.now edge }
    requires size { length line.old ≡ edge.size }
    requires cells { length cells.old ≡ 4 * edge.size }
    requires range { EdgeBelow (2 ^ bd) 0 (step_seen p.now) edge (numbers_seen T.number p.now) }
    ensures value { HoldsLines 0 (step_seen p.now) (numbers_seen T.number p.now) edge edge.size 4
        cells.new }
    ensures range { Below (2 ^ bd) cells.new }
    ensures line { length line.new ≡ length line.old }
    ensures cells { length cells.new ≡ length cells.old }
{
    if edge.vertical {
        gather_rows(p, edge, line, cells);
    } else {
        gather_columns(p, edge, cells);
    }
}
