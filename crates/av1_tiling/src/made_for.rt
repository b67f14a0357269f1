//! Whether what changes while a frame is coded is made for the frame.
ghost use Rattle.std.specs.Prelude.{◌≡◌, ◌*◌, ◌^◌, ◌<◌, ◌≤◌, ◌↔◌, ◌+◌, IsTrue, All, length, map, take, drop};
ghost use Rattle.av1_plane.specs.Layout.{frame_layout};
ghost use Rattle.av1_plane.specs.Numbers.{InDepth};
ghost use Rattle.av1_tiling.specs.Views.{view_plane, view_frame};
ghost use Rattle.av1_tiling.specs.Restoration.{units_of, units_in, HasLayout};
ghost use Rattle.av1_tiling.specs.UnitSizes.{AreUnitsFor};
ghost use Rattle.av1_tiling.specs.Frames.{layouts, AreMotionTables, IsFrame, IsInputFor, IsInRange};

use crate::frame_invariants::FrameInvariants;
use crate::frame_state::FrameState;
use crate::plane_layouts::frame_layout;
use crate::restoration_plane::{RestorationPlane, RestorationPlaneConfig};
use crate::restoration_state::RestorationState;
use crate::unit_sizes::{unit_layout, unit_sizes};
use av1_block::{FrameBlocks, FrameMEStats, Table};
use av1_plane::{Frame, Pixel, Plane, PlaneConfig, Three};

impl<T: Pixel> FrameState<T> {
    ghost use Rattle.av1_tiling.specs.Frames.{IsStateFor};

    /// Whether the state is made for a frame: the input and the reconstruction have its planes, in
    /// which the input's samples are below 2^(bit depth); the restoration units lie as those of
    /// `RestorationState::new`; there are eight tables of motion, with the sides of the block table;
    /// and block deltas are shifted by at most 3.
    pub fn made_for(&self, fi: &FrameInvariants<T>) -> bool
        requires { IsFrame T.limit fi.now }
        ensures { IsTrue result ↔ IsStateFor fi.now self.now }
    {
        has_planes_for(fi, self) && has_tables_for(fi, self)
    }
}

impl<T: Pixel> FrameInvariants<T> {
    ghost use Rattle.av1_tiling.specs.Frames.{AreBlocksFor};

    /// Whether a block table is made for the frame: it has `w_in_b` columns and `h_in_b` rows.
    pub fn blocks_made_for(&self, blocks: &FrameBlocks) -> bool
        ensures { IsTrue result ↔ AreBlocksFor self.now blocks.now }
    {
        blocks.cols == self.w_in_b && blocks.rows == self.h_in_b
    }
}

// Whether a state's input can be that of the frame, and its reconstruction has the frame's planes.
fn has_planes_for<T: Pixel>(fi: &FrameInvariants<T>, state: &FrameState<T>) -> bool
    requires { IsFrame T.limit fi.now }
    ensures { IsTrue result ↔ (IsInputFor fi.now state.now.input × (layouts state.now.rec
        ≡ frame_layout fi.now.width fi.now.height fi.now.sequence.chroma_sampling)) }
{
    is_input_for(fi, &state.input) && has_frame_layout(fi, &state.rec)
}

// Whether planes can be the input of the frame.
fn is_input_for<T: Pixel>(fi: &FrameInvariants<T>, frame: &Frame<T>) -> bool
    requires { IsFrame T.limit fi.now }
    ensures { IsTrue result ↔ IsInputFor fi.now (view_frame T.number frame.now) }
{
    has_frame_layout(fi, frame) && is_frame_in_range(frame, fi.sequence.bit_depth)
}

// Whether planes are laid out as those of the frame.
fn has_frame_layout<T: Pixel>(fi: &FrameInvariants<T>, frame: &Frame<T>) -> bool
    requires width { fi.now.width ≤ 65536 }
    requires height { fi.now.height ≤ 65536 }
    ensures { IsTrue result ↔ (layouts (view_frame T.number frame.now)
        ≡ frame_layout fi.now.width fi.now.height fi.now.sequence.chroma_sampling) }
{
    has_layout(frame, &frame_layout(fi))
}

// Whether the tables of a state are those of the frame, and its shift is one that a frame has.
fn has_tables_for<T: Pixel>(fi: &FrameInvariants<T>, state: &FrameState<T>) -> bool
    requires width { fi.now.width ≤ 65536 }
    requires height { fi.now.height ≤ 65536 }
    ensures { IsTrue result ↔ (AreUnitsFor fi.now state.now.restoration
        × AreMotionTables fi.now.w_in_b fi.now.h_in_b state.now.frame_me_stats
        × (state.now.deblock.block_delta_shift ≤ 3)) }
{
    are_units_for(fi, &state.restoration)
        && are_motion_tables(&state.frame_me_stats, fi.w_in_b, fi.h_in_b)
        && state.deblock.block_delta_shift <= 3
}

fn has_layout<T: Pixel>(frame: &Frame<T>, layout: &Three<PlaneConfig>) -> bool
    ensures { IsTrue result ↔ (layouts (view_frame T.number frame.now) ≡ layout.now) }
{
    is_same_layout(&frame.planes.y.cfg, &layout.y)
        && is_same_layout(&frame.planes.u.cfg, &layout.u)
        && is_same_layout(&frame.planes.v.cfg, &layout.v)
}

fn is_same_layout(a: &PlaneConfig, b: &PlaneConfig) -> bool
    ensures { IsTrue result ↔ (a.now ≡ b.now) }
{
    a == b
}

// Whether the samples inside the planes of a frame are below 2^depth.
fn is_frame_in_range<T: Pixel>(frame: &Frame<T>, depth: usize) -> bool
    requires { depth ≤ 12 }
    ensures { IsTrue result ↔ (IsInRange (2 ^ depth) (view_plane T.number frame.now.planes.y)
        × IsInRange (2 ^ depth) (view_plane T.number frame.now.planes.u)
        × IsInRange (2 ^ depth) (view_plane T.number frame.now.planes.v)) }
{
    let bound = 1 << depth;
    is_in_range(&frame.planes.y, bound)
        && is_in_range(&frame.planes.u, bound)
        && is_in_range(&frame.planes.v, bound)
}

// Whether the samples inside a plane are below `bound`.
fn is_in_range<T: Pixel>(plane: &Plane<T>, bound: u32) -> bool
    ensures { IsTrue result ↔ IsInRange bound (view_plane T.number plane.now) }
{
    let cfg = plane.cfg;
    for y in 0..cfg.height {
        let first = (cfg.yorigin + y) * cfg.stride + cfg.xorigin;
        if !are_below(run(&plane.samples, first, cfg.width), bound) {
            return false;
        }
    }
    true
}

// `count` samples from place `first` on.
fn run<T: Pixel>(samples: &[T], first: usize, count: usize) -> &[T]
    requires { first + count ≤ length samples.now }
    ensures { result.now ≡ take count (drop first samples.now) }
{
    &samples[first..first + count]
}

fn are_below<T: Pixel>(samples: &[T], bound: u32) -> bool
    ensures { IsTrue result ↔ All (InDepth bound) (map T.number samples.now) }
{
    for sample in samples {
        if !is_below(*sample, bound) {
            return false;
        }
    }
    true
}

fn is_below<T: Pixel>(sample: T, bound: u32) -> bool
    ensures { IsTrue result ↔ InDepth bound (T.number sample) }
{
    sample.to_i32().unsigned_abs() < bound
}

// Whether units lie as those of `RestorationState::new`, whatever their filters.
fn are_units_for<T: Pixel>(fi: &FrameInvariants<T>, state: &RestorationState) -> bool
    requires width { fi.now.width ≤ 65536 }
    requires height { fi.now.height ≤ 65536 }
    ensures { IsTrue result ↔ AreUnitsFor fi.now (units_in state.now) }
{
    let (xdec, ydec) = fi
        .sequence
        .chroma_sampling
        .get_decimation()
        .unwrap_or((0, 0));
    let sizes = unit_sizes(fi, xdec, ydec);
    let luma = unit_layout(fi, sizes.luma, 0, 0);
    let chroma = unit_layout(fi, sizes.chroma, xdec, ydec);
    have_unit_layouts(state, &luma, &chroma)
}

fn have_unit_layouts(
    state: &RestorationState,
    luma: &RestorationPlaneConfig,
    chroma: &RestorationPlaneConfig,
) -> bool
    ensures { IsTrue result ↔ (HasLayout luma.now (units_of state.now.planes.y)
        × HasLayout chroma.now (units_of state.now.planes.u)
        × HasLayout chroma.now (units_of state.now.planes.v)) }
{
    has_unit_layout(&state.planes.y, luma)
        && has_unit_layout(&state.planes.u, chroma)
        && has_unit_layout(&state.planes.v, chroma)
}

fn has_unit_layout(plane: &RestorationPlane, layout: &RestorationPlaneConfig) -> bool
    ensures { IsTrue result ↔ HasLayout layout.now (units_of plane.now) }
{
    is_same_unit_layout(&plane.cfg, layout) && has_sides(&plane.units, layout.cols, layout.rows)
}

fn is_same_unit_layout(a: &RestorationPlaneConfig, b: &RestorationPlaneConfig) -> bool
    ensures { IsTrue result ↔ (a.now ≡ b.now) }
{
    a.lrf_type == b.lrf_type
        && a.unit_size == b.unit_size
        && a.sb_h_shift == b.sb_h_shift
        && a.sb_v_shift == b.sb_v_shift
        && a.sb_cols == b.sb_cols
        && a.sb_rows == b.sb_rows
        && a.stripe_height == b.stripe_height
        && a.cols == b.cols
        && a.rows == b.rows
}

// Whether there are eight tables of these sides.
fn are_motion_tables(tables: &[FrameMEStats], cols: usize, rows: usize) -> bool
    ensures { IsTrue result ↔ AreMotionTables cols rows tables.now }
{
    for table in tables {
        if !has_sides(table, cols, rows) {
            return false;
        }
    }
    tables.len() == 8
}

// Whether a table has these sides, and an entry for each of its places.
fn has_sides<E: Copy>(table: &Table<E>, cols: usize, rows: usize) -> bool
    ensures { IsTrue result ↔ ((table.now.cols ≡ cols) × (table.now.rows ≡ rows)
        × (length table.now.entries ≡ cols * rows)) }
{
    let count = table.entries().len();
    table.cols == cols && table.rows == rows && count == cols * rows
}
