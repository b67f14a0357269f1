ghost use Rattle.std.specs.Prelude.{◌≡◌, ◌+◌, ◌*◌, ◌<◌, ◌≤◌, ◌^◌, ℕ, pos, length, true, false};
ghost use Rattle.std.specs.Option.{option_to_list};
ghost use Rattle.av1_plane.specs.Reading.{step_seen, numbers_seen};
ghost use Rattle.av1_plane.specs.Numbers.{IsDepth};
ghost use Rattle.av1_deblock.specs.Line.{IsSize, sample};
ghost use Rattle.av1_deblock.specs.Levels.{fixed};
ghost use Rattle.av1_deblock.specs.Edges.{blocks_in, edge_in_rows, edge_at, row_edges, edges_above, GridFits, HasBlocks, HasRows, IsSound};
ghost use Rattle.av1_deblock.specs.Passes.{EdgeBelow, GridBelow, ShowsEdge, ShowsGrid, is_empty};
ghost use Rattle.av1_deblock.specs.Conditions.{AreCropSides, CoversBlocks};
ghost use Rattle.av1_deblock.specs.Frames.{frame_shape};
ghost use Rattle.av1_deblock.specs.Choice.{error_at, measured_plane, CanTally};
ghost use Rattle.av1_deblock.specs.Errors.{compared, edge_error, edges_error, at_level, IsBoundedBy, HasAdded, IsTally};

use crate::edge::Edge;
use crate::grid::{BlockRows, Grid, block_rows, is_edge, standing_edge};
use crate::plane::{grid_in, has_no_sample};
use crate::seen::gather;
use crate::tally::add_cells;
use av1_block::TileBlocks;
use av1_plane::{Pixel, PlaneRegion};

#[inline(always)]
fn add_edge_by<T: Pixel, const SIZE: usize>(
    entries: &mut [i64],
    rec: &PlaneRegion<'_, T>,
    src: &PlaneRegion<'_, T>,
    edge: Edge,
    bd: usize,
    line: &mut [i32],
    cells: &mut [i32],
    source: &mut [i32],
)
    requires rec { ShowsEdge rec.now edge }
    requires src { ShowsEdge src.now edge }
    requires kind { IsSize SIZE }
    requires size { edge.size ≡ SIZE }
    requires line { length line.old ≡ edge.size }
    requires cells { length cells.old ≡ 4 * edge.size }
    requires source { length source.old ≡ 4 * edge.size }
    requires depth { IsDepth bd }
    requires rec_range { EdgeBelow (2 ^ bd) 0 (step_seen rec.now) edge
        (numbers_seen T.number rec.now) }
    requires src_range { EdgeBelow (2 ^ bd) 0 (step_seen src.now) edge
        (numbers_seen T.number src.now) }
    requires long { length entries.old ≡ 65 }
    requires near { IsBoundedBy 2305843009213693952 entries.old }
    ensures { HasAdded 4294967296
        (λ level. edge_error (compared bd T.number rec.now src.now) (at_level edge level))
        entries.old entries.new }
{
    gather(rec, edge, bd, line, cells);
    gather(src, edge, bd, line, source);
    add_cells::<SIZE>(entries, cells, source, bd);
}

#[inline(never)]
fn add_sized<T: Pixel, const SIZE: usize, const CELLS: usize>(
    entries: &mut [i64],
    rec: &PlaneRegion<'_, T>,
    src: &PlaneRegion<'_, T>,
    edge: Edge,
    bd: usize,
)
    requires rec { ShowsEdge rec.now edge }
    requires src { ShowsEdge src.now edge }
    requires kind { IsSize SIZE }
    requires size { edge.size ≡ SIZE }
    requires cells { CELLS ≡ 4 * SIZE }
    requires depth { IsDepth bd }
    requires rec_range { EdgeBelow (2 ^ bd) 0 (step_seen rec.now) edge
        (numbers_seen T.number rec.now) }
    requires src_range { EdgeBelow (2 ^ bd) 0 (step_seen src.now) edge
        (numbers_seen T.number src.now) }
    requires long { length entries.old ≡ 65 }
    requires near { IsBoundedBy 2305843009213693952 entries.old }
    ensures { HasAdded 4294967296
        (λ level. edge_error (compared bd T.number rec.now src.now) (at_level edge level))
        entries.old entries.new }
{
    let mut line = [0; SIZE];
    let mut cells = [0; CELLS];
    let mut source = [0; CELLS];
    add_edge_by::<T, SIZE>(
        entries,
        rec,
        src,
        edge,
        bd,
        &mut line,
        &mut cells,
        &mut source,
    );
}

// Adds the error of an edge, filtered alone, at every level.
fn add_edge<T: Pixel>(
    entries: &mut [i64],
    rec: &PlaneRegion<'_, T>,
    src: &PlaneRegion<'_, T>,
    edge: Edge,
    bd: usize,
)
    requires rec { ShowsEdge rec.now edge }
    requires src { ShowsEdge src.now edge }
    requires sound { IsSound edge }
    requires depth { IsDepth bd }
    requires rec_range { EdgeBelow (2 ^ bd) 0 (step_seen rec.now) edge
        (numbers_seen T.number rec.now) }
    requires src_range { EdgeBelow (2 ^ bd) 0 (step_seen src.now) edge
        (numbers_seen T.number src.now) }
    requires long { length entries.old ≡ 65 }
    requires near { IsBoundedBy 2305843009213693952 entries.old }
    ensures { HasAdded 4294967296
        (λ level. edge_error (compared bd T.number rec.now src.now) (at_level edge level))
        entries.old entries.new }
{
    match edge.size {
        4 => add_sized::<T, 4, 16>(entries, rec, src, edge, bd),
        6 => add_sized::<T, 6, 24>(entries, rec, src, edge, bd),
        8 => add_sized::<T, 8, 32>(entries, rec, src, edge, bd),
        _ => add_sized::<T, 14, 56>(entries, rec, src, edge, bd),
    }
}

// Adds the error of the edge at one place, if there is one.
#[inline(always)]
#[tactic(auto, using(crate::proofs::Walks::places))]
fn add_place<T: Pixel>(
    entries: &mut [i64],
    rec: &PlaneRegion<'_, T>,
    src: &PlaneRegion<'_, T>,
    g: Grid,
    rows: &BlockRows<'_>,
    bd: usize,
    u: usize,
    v: usize,
)
    requires grid { GridFits g }
    requires rec { ShowsGrid rec.now g }
    requires src { ShowsGrid src.now g }
    requires rows { HasRows g rows.now }
    requires depth { IsDepth bd }
    requires rec_range { GridBelow (2 ^ bd) 0 (step_seen rec.now) g
        (numbers_seen T.number rec.now) }
    requires src_range { GridBelow (2 ^ bd) 0 (step_seen src.now) g
        (numbers_seen T.number src.now) }
    requires u { u < g.cols }
    requires v { v < g.rows }
    requires long { length entries.old ≡ 65 }
    requires near { IsBoundedBy 2305843009213693952 entries.old }
    ensures { HasAdded 4294967296 (λ level. edges_error (compared bd T.number rec.now src.now)
        (option_to_list (edge_in_rows g (fixed level) rows.now u v))) entries.old entries.new }
{
    if is_edge(g, rows, u, v) {
        add_edge(entries, rec, src, standing_edge(g, rows, u, v, 0), bd);
    }
}

// Adds the errors of the edges between two rows of blocks, from the left.
#[inline(always)]
fn add_between<T: Pixel>(
    entries: &mut [i64],
    rec: &PlaneRegion<'_, T>,
    src: &PlaneRegion<'_, T>,
    g: Grid,
    rows: &BlockRows<'_>,
    bd: usize,
    v: usize,
)
    requires grid { GridFits g }
    requires rec { ShowsGrid rec.now g }
    requires src { ShowsGrid src.now g }
    requires rows { HasRows g rows.now }
    requires depth { IsDepth bd }
    requires rec_range { GridBelow (2 ^ bd) 0 (step_seen rec.now) g
        (numbers_seen T.number rec.now) }
    requires src_range { GridBelow (2 ^ bd) 0 (step_seen src.now) g
        (numbers_seen T.number src.now) }
    requires v { v < g.rows }
    requires long { length entries.old ≡ 65 }
    requires near { IsBoundedBy 1729382256910270464 entries.old }
    ensures { HasAdded 70368744177664 (λ level. edges_error (compared bd T.number rec.now src.now)
        (row_edges (edge_in_rows g (fixed level) rows.now) v g.cols)) entries.old entries.new }
{
    for u in 0..g.cols {
        add_place(entries, rec, src, g, rows, bd, u, v);
    }
}

// Adds the errors of one row's edges, from the left.
#[inline(always)]
fn add_row<T: Pixel>(
    entries: &mut [i64],
    rec: &PlaneRegion<'_, T>,
    src: &PlaneRegion<'_, T>,
    g: Grid,
    blocks: &TileBlocks<'_>,
    bd: usize,
    v: usize,
)
    requires grid { GridFits g }
    requires rec { ShowsGrid rec.now g }
    requires src { ShowsGrid src.now g }
    requires blocks { HasBlocks g blocks.now }
    requires depth { IsDepth bd }
    requires rec_range { GridBelow (2 ^ bd) 0 (step_seen rec.now) g
        (numbers_seen T.number rec.now) }
    requires src_range { GridBelow (2 ^ bd) 0 (step_seen src.now) g
        (numbers_seen T.number src.now) }
    requires v { v < g.rows }
    requires long { length entries.old ≡ 65 }
    requires near { IsBoundedBy 1729382256910270464 entries.old }
    ensures { HasAdded 70368744177664 (λ level. edges_error (compared bd T.number rec.now src.now)
        (row_edges (edge_at g (fixed level) (blocks_in blocks.now)) v g.cols)) entries.old
        entries.new }
{
    let rows = block_rows(g, blocks, v);
    add_between(entries, rec, src, g, &rows, bd, v);
}

// Those of all edges of one direction.
#[inline(always)]
fn add_edges<T: Pixel>(
    entries: &mut [i64],
    rec: &PlaneRegion<'_, T>,
    src: &PlaneRegion<'_, T>,
    g: Grid,
    blocks: &TileBlocks<'_>,
    bd: usize,
)
    requires grid { GridFits g }
    requires rec { ShowsGrid rec.now g }
    requires src { ShowsGrid src.now g }
    requires blocks { HasBlocks g blocks.now }
    requires depth { IsDepth bd }
    requires rec_range { GridBelow (2 ^ bd) 0 (step_seen rec.now) g
        (numbers_seen T.number rec.now) }
    requires src_range { GridBelow (2 ^ bd) 0 (step_seen src.now) g
        (numbers_seen T.number src.now) }
    requires long { length entries.old ≡ 65 }
    requires near { IsBoundedBy 0 entries.old }
    ensures { HasAdded 1152921504606846976
        (λ level. edges_error (compared bd T.number rec.now src.now)
        (edges_above (edge_at g (fixed level) (blocks_in blocks.now)) g.cols g.rows)) entries.old
        entries.new }
{
    for v in 0..g.rows {
        add_row(entries, rec, src, g, blocks, bd, v);
    }
}

// No error at any level.
pub fn clear(entries: &mut [i64])
    requires long { length entries.old ≡ 65 }
    ensures long { length entries.new ≡ 65 }
    ensures zeros { (i : ℕ) → i < 65 → sample entries.new i ≡ pos 0 }
{
    for i in 0..entries.len() {
        entries[i] = 0;
    }
}

// The tally of one direction. Inlined, so that the walk is compiled for each direction by itself.
#[inline(always)]
#[tactic(auto, using(crate::proofs::Walks::planes))]
fn tally_direction<T: Pixel>(
    entries: &mut [i64],
    rec: &PlaneRegion<'_, T>,
    src: &PlaneRegion<'_, T>,
    pli: usize,
    vertical: bool,
    blocks: &TileBlocks<'_>,
    crop_w: usize,
    crop_h: usize,
    bd: usize,
)
    requires plane { CanTally T.number (frame_shape crop_w crop_h bd) pli rec.now src.now }
    requires blocks { CoversBlocks crop_w crop_h blocks.now }
    requires sides { AreCropSides crop_w crop_h }
    requires depth { IsDepth bd }
    requires long { length entries.old ≡ 65 }
    ensures { IsTally
        (error_at (blocks_in blocks.now)
        (measured_plane T.number (frame_shape crop_w crop_h bd) pli rec.now src.now) vertical)
        entries.new }
{
    clear(entries);
    if !has_no_sample(rec.plane_cfg) {
        let g = grid_in(pli, rec.plane_cfg, vertical, crop_w, crop_h);
        add_edges(entries, rec, src, g, blocks, bd);
    }
}

/// Tallies of a coded plane against its source, for vertical and for horizontal edges: entries 0 to L
/// sum to the error at level L, the squared distance to the source where each edge is filtered alone
/// at that level (0 to 63). The last entry, for level 64, keeps what no level reaches.
pub fn tally_plane<T: Pixel>(
    rec: &PlaneRegion<'_, T>,
    src: &PlaneRegion<'_, T>,
    pli: usize,
    blocks: &TileBlocks<'_>,
    crop_w: usize,
    crop_h: usize,
    bd: usize,
) -> ([i64; 65], [i64; 65])
    requires plane { CanTally T.number (frame_shape crop_w crop_h bd) pli rec.now src.now }
    requires blocks { CoversBlocks crop_w crop_h blocks.now }
    requires sides { AreCropSides crop_w crop_h }
    requires depth { IsDepth bd }
    ensures vertical { IsTally
        (error_at (blocks_in blocks.now)
        (measured_plane T.number (frame_shape crop_w crop_h bd) pli rec.now src.now) true)
        result.0 }
    ensures horizontal { IsTally
        (error_at (blocks_in blocks.now)
        (measured_plane T.number (frame_shape crop_w crop_h bd) pli rec.now src.now) false)
        result.1 }
{
    let mut vertical = [0; 65];
    let mut horizontal = [0; 65];
    tally_direction(
        &mut vertical,
        rec,
        src,
        pli,
        true,
        blocks,
        crop_w,
        crop_h,
        bd,
    );
    tally_direction(
        &mut horizontal,
        rec,
        src,
        pli,
        false,
        blocks,
        crop_w,
        crop_h,
        bd,
    );
    (vertical, horizontal)
}
