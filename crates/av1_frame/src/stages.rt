//! The in-loop filters of a coded frame, one after another.
ghost use Rattle.std.specs.Prelude.{◌≡◌, ◌⊎◌, ◌≤◌, All, OnOk};
ghost use Rattle.av1_plane.specs.Planes.{SameFrame, SamePlane};
ghost use Rattle.av1_block.specs.Rule.{IsBlock};
ghost use Rattle.av1_deblock.specs.Levels.{IsLevelled};
ghost use Rattle.av1_cdef.specs.Whole.{cdef_frame};
ghost use Rattle.av1_tiling.specs.Views.{view_frame, view_plane};
ghost use Rattle.av1_tiling.specs.Frames.{IsFrame, IsInputFor, AreBlocksFor};
ghost use Rattle.av1_tiling.specs.Restoration.{units_in, AreFrameUnits};
ghost use Rattle.av1_tiling.specs.UnitSizes.{AreUnitsFor};
ghost use Rattle.av1_frame.specs.Coding.{decimations_of};
ghost use Rattle.av1_frame.specs.Planes.{IsPlaneFor};
ghost use Rattle.av1_frame.specs.Reference.{plane_count, deblocked_in, deblocked, enhanced, finished};

use av1_block::{FrameBlocks, TileBlocks};
use av1_cdef::cdef_filter_tile;
use av1_deblock::deblock_filter_frame;
use av1_lrf::lrf_filter_frame;
use av1_plane::{AsRegion, ChromaSampling, Frame, OutOfMemory, Pixel, Plane, Three, TileMut};
use av1_tiling::{DeblockState, FrameInvariants, RestorationState};
use std::alloc::Global;
use std::thread::Threads;

/// Filters a coded frame: it is deblocked, and then goes through the stages that the sequence has.
pub(crate) fn filter_frame<T: Pixel + Send + Sync, R: Threads + Sync>(
    rt: &R,
    alloc: Global,
    fi: &FrameInvariants<T>,
    deblock: &DeblockState,
    blocks: &FrameBlocks,
    units: &RestorationState,
    frame: &mut Frame<T>,
) -> Result<(), OutOfMemory>
    requires frame { IsFrame T.limit fi.now }
    requires coded { IsInputFor fi.now (view_frame T.number frame.old) }
    requires blocks_for { AreBlocksFor fi.now blocks.now }
    requires blocks { All (IsBlock (decimations_of fi.now.sequence.chroma_sampling).0
        (decimations_of fi.now.sequence.chroma_sampling).1) blocks.now.entries }
    requires levels { IsLevelled deblock.now }
    requires units_for { AreUnitsFor fi.now (units_in units.now) }
    requires units { AreFrameUnits (units_in units.now) }
    ensures { OnOk result (view_frame T.number frame.new
        ≡ finished fi.now (units_in units.now) blocks.now.entries
        (deblocked fi.now deblock.now blocks.now.entries (view_frame T.number frame.old))) }
{
    deblock_frame(rt, fi, deblock, blocks, frame);
    if fi.sequence.enable_cdef || fi.sequence.enable_restoration {
        finish(alloc, fi, blocks, units, frame)?;
    }
    Ok(())
}

// Filters a deblocked frame further, from one copy of it.
fn finish<T: Pixel>(
    alloc: Global,
    fi: &FrameInvariants<T>,
    blocks: &FrameBlocks,
    units: &RestorationState,
    frame: &mut Frame<T>,
) -> Result<(), OutOfMemory>
    requires frame { IsFrame T.limit fi.now }
    requires deblocked { IsInputFor fi.now (view_frame T.number frame.old) }
    requires blocks_for { AreBlocksFor fi.now blocks.now }
    requires blocks { All (IsBlock (decimations_of fi.now.sequence.chroma_sampling).0
        (decimations_of fi.now.sequence.chroma_sampling).1) blocks.now.entries }
    requires units_for { AreUnitsFor fi.now (units_in units.now) }
    requires units { AreFrameUnits (units_in units.now) }
    ensures { OnOk result (view_frame T.number frame.new
        ≡ finished fi.now (units_in units.now) blocks.now.entries (view_frame T.number frame.old)) }
{
    let deblocked = frame.try_clone(alloc)?;
    enhance(fi, &deblocked, blocks, frame);
    if fi.sequence.enable_restoration {
        lrf_filter_frame(alloc, units, frame, &deblocked, fi)?;
    }
    Ok(())
}

// Filters a copy of a deblocked frame by CDEF where the sequence has it.
fn enhance<T: Pixel>(
    fi: &FrameInvariants<T>,
    deblocked: &Frame<T>,
    blocks: &FrameBlocks,
    frame: &mut Frame<T>,
)
    requires frame { IsFrame T.limit fi.now }
    requires deblocked { IsInputFor fi.now (view_frame T.number deblocked.now) }
    requires same { SameFrame deblocked.now frame.old }
    requires blocks_for { AreBlocksFor fi.now blocks.now }
    requires blocks { All (IsBlock (decimations_of fi.now.sequence.chroma_sampling).0
        (decimations_of fi.now.sequence.chroma_sampling).1) blocks.now.entries }
    ensures value { view_frame T.number frame.new
        ≡ enhanced fi.now blocks.now.entries (view_frame T.number deblocked.now) }
    ensures range { IsInputFor fi.now (view_frame T.number frame.new) }
{
    if fi.sequence.enable_cdef {
        let Three { y, u, v } = &mut frame.planes;
        cdef_planes(fi, deblocked, blocks, y, u, v);
    }
}

// CDEF of a frame, from the deblocked one into the planes of its copy.
fn cdef_planes<T: Pixel>(
    fi: &FrameInvariants<T>,
    deblocked: &Frame<T>,
    blocks: &FrameBlocks,
    y: &mut Plane<T>,
    u: &mut Plane<T>,
    v: &mut Plane<T>,
)
    requires frame { IsFrame T.limit fi.now }
    requires deblocked { IsInputFor fi.now (view_frame T.number deblocked.now) }
    requires same_y { SamePlane deblocked.now.planes.y y.old }
    requires same_u { SamePlane deblocked.now.planes.u u.old }
    requires same_v { SamePlane deblocked.now.planes.v v.old }
    requires blocks_for { AreBlocksFor fi.now blocks.now }
    requires blocks { All (IsBlock (decimations_of fi.now.sequence.chroma_sampling).0
        (decimations_of fi.now.sequence.chroma_sampling).1) blocks.now.entries }
    ensures y { view_plane T.number y.new
        ≡ (cdef_frame fi.now blocks.now.entries (view_frame T.number deblocked.now)).y }
    ensures u { view_plane T.number u.new
        ≡ (cdef_frame fi.now blocks.now.entries (view_frame T.number deblocked.now)).u }
    ensures v { view_plane T.number v.new
        ≡ (cdef_frame fi.now blocks.now.entries (view_frame T.number deblocked.now)).v }
{
    let y = y.as_region_mut();
    let u = u.as_region_mut();
    let v = v.as_region_mut();
    let mut tile = TileMut {
        planes: Three { y, u, v },
    };
    let table = TileBlocks::new(blocks, 0, 0, blocks.cols, blocks.rows);
    cdef_filter_tile(fi, deblocked, &table, &mut tile);
}

// Deblocks a frame.
fn deblock_frame<T: Pixel + Send + Sync, R: Threads + Sync>(
    rt: &R,
    fi: &FrameInvariants<T>,
    deblock: &DeblockState,
    blocks: &FrameBlocks,
    frame: &mut Frame<T>,
)
    requires frame { IsFrame T.limit fi.now }
    requires coded { IsInputFor fi.now (view_frame T.number frame.old) }
    requires blocks_for { AreBlocksFor fi.now blocks.now }
    requires blocks { All (IsBlock (decimations_of fi.now.sequence.chroma_sampling).0
        (decimations_of fi.now.sequence.chroma_sampling).1) blocks.now.entries }
    requires levels { IsLevelled deblock.now }
    ensures value { view_frame T.number frame.new
        ≡ deblocked fi.now deblock.now blocks.now.entries (view_frame T.number frame.old) }
    ensures range { IsInputFor fi.now (view_frame T.number frame.new) }
{
    let Three { y, u, v } = &mut frame.planes;
    deblock_planes(rt, fi, deblock, blocks, y, u, v);
}

// Deblocks the planes of a frame side by side.
fn deblock_planes<T: Pixel + Send + Sync, R: Threads + Sync>(
    rt: &R,
    fi: &FrameInvariants<T>,
    deblock: &DeblockState,
    blocks: &FrameBlocks,
    y: &mut Plane<T>,
    u: &mut Plane<T>,
    v: &mut Plane<T>,
)
    requires frame { IsFrame T.limit fi.now }
    requires y { IsPlaneFor fi.now 0 (view_plane T.number y.old) }
    requires u { IsPlaneFor fi.now 1 (view_plane T.number u.old) }
    requires v { IsPlaneFor fi.now 2 (view_plane T.number v.old) }
    requires blocks_for { AreBlocksFor fi.now blocks.now }
    requires blocks { All (IsBlock (decimations_of fi.now.sequence.chroma_sampling).0
        (decimations_of fi.now.sequence.chroma_sampling).1) blocks.now.entries }
    requires levels { IsLevelled deblock.now }
    ensures y { view_plane T.number y.new
        ≡ deblocked_in fi.now deblock.now blocks.now.entries 0 (view_plane T.number y.old) }
    ensures u { view_plane T.number u.new
        ≡ deblocked_in fi.now deblock.now blocks.now.entries 1 (view_plane T.number u.old) }
    ensures v { view_plane T.number v.new
        ≡ deblocked_in fi.now deblock.now blocks.now.entries 2 (view_plane T.number v.old) }
    ensures y_range { IsPlaneFor fi.now 0 (view_plane T.number y.new) }
    ensures u_range { IsPlaneFor fi.now 1 (view_plane T.number u.new) }
    ensures v_range { IsPlaneFor fi.now 2 (view_plane T.number v.new) }
{
    let planes = plane_count(fi.sequence.chroma_sampling);
    let y = y.as_region_mut();
    let u = u.as_region_mut();
    let v = v.as_region_mut();
    let mut tile = TileMut {
        planes: Three { y, u, v },
    };
    let table = TileBlocks::new(blocks, 0, 0, blocks.cols, blocks.rows);
    deblock_filter_frame(
        rt,
        deblock,
        &mut tile,
        &table,
        fi.width,
        fi.height,
        fi.sequence.bit_depth,
        planes,
    );
}

// How many planes a frame has.
fn plane_count(sampling: ChromaSampling) -> usize
    ensures value { result ≡ plane_count sampling }
    ensures some { (result ≡ 1) ⊎ (result ≡ 3) }
{
    match sampling {
        ChromaSampling::Cs400 => 1,
        _ => 3,
    }
}
