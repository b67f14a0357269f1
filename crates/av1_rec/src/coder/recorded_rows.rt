//! Recorded rows of samples: testing that they have the sides of a view's parts, and writing them there.
ghost use Rattle.std.specs.Prelude.{◌≡◌, ◌<◌, ◌≤◌, ◌+◌, ◌==◌, length, map, true};
ghost use Rattle.std.specs.List.{list_all};
ghost use Rattle.av1_block.specs.Cut.{LiesIn, overwritten, with_cut};
ghost use Rattle.av1_rec.specs.Lines.{numbers_of, said_planes};
ghost use Rattle.av1_rec.specs.Recorded.{length_inside, sides_inside, are_long, have_sides, joined, with_rows, planes_fit, with_planes};

use av1_plane::{Pixel, Plane, Three, TileRect};
use av1_tiling::TileStateMut;

// How much of a line of samples from `start` on is before the end of the plane, which is within the
// `stored` ones.
fn length_inside(origin: usize, inside: usize, stored: usize, start: usize, length: usize) -> usize
    requires { origin + inside ≤ stored }
    ensures { result ≡ length_inside origin inside start length }
{
    (origin + inside).saturating_sub(start).min(length)
}

// The columns and rows of a rectangle that are inside the plane.
fn plane_sides_inside<T: Pixel>(plane: &Plane<T>, rect: TileRect) -> (usize, usize)
    ensures columns { let cfg = plane.now.cfg in
        result.0 ≡ length_inside cfg.xorigin cfg.width rect.x rect.width }
    ensures rows { let cfg = plane.now.cfg in
        result.1 ≡ length_inside cfg.yorigin cfg.height rect.y rect.height }
{
    let cfg = plane.cfg;
    (
        length_inside(cfg.xorigin, cfg.width, cfg.stride, rect.x, rect.width),
        length_inside(
            cfg.yorigin,
            cfg.height,
            cfg.alloc_height,
            rect.y,
            rect.height,
        ),
    )
}

// The columns and rows of the view's part that are inside plane `pli`.
fn sides_inside<T: Pixel>(ts: &TileStateMut<T>, pli: usize) -> (usize, usize)
    requires { pli < 3 }
    ensures { result ≡ sides_inside ts.now pli }
{
    plane_sides_inside(&ts.input.planes[pli], ts.samples_rect(pli))
}

// Whether each row is `width` samples long.
#[tactic(auto, using(crate::proofs::RecordedRows::row_tests))]
fn are_long<T: Pixel>(rows: &[Vec<T>], width: usize) -> bool
    ensures { result ≡ are_long width (numbers_of T.number rows.now) }
{
    let mut rest = rows;
    while let Some((row, others)) = rest.split_first() {
        if row.len() != width {
            return false;
        }
        rest = others;
    }
    true
}

// Whether there are as many rows as asked for, each as long as asked for.
#[tactic(auto, using(crate::proofs::RecordedRows::row_tests))]
fn have_sides<T: Pixel>(sides: (usize, usize), rows: &[Vec<T>]) -> bool
    ensures { result ≡ have_sides sides (numbers_of T.number rows.now) }
{
    rows.len() == sides.1 && are_long(rows, sides.0)
}

/// Whether the rows of all planes have the sides of the view's parts inside the planes.
pub(crate) fn planes_fit<T: Pixel>(ts: &TileStateMut<T>, rows: &Three<Vec<Vec<T>>>) -> bool
    ensures { result ≡ planes_fit ts.now (said_planes T.number rows.now) }
{
    have_sides(sides_inside(ts, 0), &rows.y)
        && have_sides(sides_inside(ts, 1), &rows.u)
        && have_sides(sides_inside(ts, 2), &rows.v)
}

// Writes the run over as many entries from place `from` on.
pub(crate) fn write_run<T: Copy>(table: &mut [T], from: usize, run: &[T])
    requires { from + length run.now ≤ length table.old }
    ensures { table.new ≡ overwritten table.old from run.now }
{
    table[from..from + run.len()].copy_from_slice(run);
}

// Writes the rows, each `width` long, into the first columns of a table with `cols` columns.
fn write_rows<T: Pixel>(table: &mut [T], cols: usize, width: usize, rows: &[Vec<T>])
    requires inside { LiesIn (length table.old) cols 0 0 width (length rows.now) }
    requires long { are_long width (numbers_of T.number rows.now) ≡ true }
    ensures { map T.number table.new ≡ with_cut (map T.number table.old) cols 0 0
        width (length rows.now) (joined (numbers_of T.number rows.now)) }
{
    for y in 0..rows.len() {
        write_run(table, y * cols, &rows[y]);
    }
}

/// Writes the rows into the columns and rows of plane `pli` of the view that are inside the plane.
fn write_plane<T: Pixel>(ts: &mut TileStateMut<T>, pli: usize, rows: &[Vec<T>])
    requires plane { pli < 3 }
    requires fits { have_sides (sides_inside ts.old pli) (numbers_of T.number rows.now)
        ≡ true }
    ensures { ts.new ≡ with_rows ts.old pli (numbers_of T.number rows.now) }
{
    let cols = ts.samples_rect(pli).width;
    let width = sides_inside(ts, pli).0;
    write_rows(ts.samples_mut(pli), cols, width, rows);
}

/// Writes the rows of all planes.
pub(crate) fn write_planes<T: Pixel>(ts: &mut TileStateMut<T>, rows: &Three<Vec<Vec<T>>>)
    requires { planes_fit ts.old (said_planes T.number rows.now) ≡ true }
    ensures { ts.new ≡ with_planes ts.old (said_planes T.number rows.now) }
{
    write_plane(ts, 0, &rows.y);
    write_plane(ts, 1, &rows.u);
    write_plane(ts, 2, &rows.v);
}
