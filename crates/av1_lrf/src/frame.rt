//! Restoring all planes of a frame.
ghost use Rattle.std.specs.Prelude.{◌≡◌, ◌*◌, ◌<◌, ◌≤◌, ◌^◌, ℕ, length, None, IsSome, OnOk, OnErr};
ghost use Rattle.av1_plane.specs.Layout.{visible};
ghost use Rattle.av1_plane.specs.Planes.{SamePlane, SameFrame};
ghost use Rattle.av1_plane.specs.Sampling.{decimation};
ghost use Rattle.av1_tiling.specs.Frames.{IsFrame, IsInputFor};
ghost use Rattle.av1_tiling.specs.Restoration.{units_of, units_in, AreFrameUnits};
ghost use Rattle.av1_tiling.specs.UnitSizes.{AreUnitsFor};
ghost use Rattle.av1_tiling.specs.Views.{view_frame};
ghost use Rattle.av1_lrf.specs.Wiener.{IsDepth};
ghost use Rattle.av1_lrf.specs.Restore.{restored_frame};
ghost use Rattle.av1_lrf.specs.Frames.{
  CanRestore,
  IsRestoredPlane,
  CanRestoreFrame,
  IsRestoredFrame,
};

use crate::restore::restore_plane;
use crate::sgr::IntegralImageBuffer;
use av1_plane::{ChromaSampling, Frame, OutOfMemory, Pixel, Plane};
use av1_tiling::{FrameInvariants, RestorationPlane, RestorationState, STRIPE_IMAGE_STRIDE};
use std::alloc::Global;

// The visible side of a plane.
fn visible_of(side: usize, dec: usize) -> usize
    requires { dec ≤ 1 }
    ensures { result ≡ visible side dec }
{
    match dec {
        0 => side,
        _ => side - side / 2,
    }
}

// Restores a plane, of which `before` is a copy.
fn restore_units<T: Pixel>(
    units: &RestorationPlane,
    cdef: bool,
    bd: usize,
    crop_w: usize,
    crop_h: usize,
    buffer: &mut IntegralImageBuffer,
    pitch: usize,
    before: &Plane<T>,
    deblocked: &Plane<T>,
    out: &mut Plane<T>,
)
    requires can { CanRestore T.number bd pitch crop_w crop_h (units_of units.now) deblocked.now
        out.old }
    requires before { SamePlane out.old before.now }
    requires depth { IsDepth bd }
    requires limit { 2 ^ bd ≤ T.limit }
    requires cells { 71 * pitch ≤ length buffer.old.integral_image.items }
    requires squares { 71 * pitch ≤ length buffer.old.sq_integral_image.items }
    ensures value { IsRestoredPlane T.number cdef bd crop_w crop_h (units_of units.now)
        deblocked.now out.old out.new }
    ensures long { length buffer.new.integral_image.items ≡ length buffer.old.integral_image.items }
    ensures long_squares { length buffer.new.sq_integral_image.items
        ≡ length buffer.old.sq_integral_image.items }
{
    let width = visible_of(crop_w, out.cfg.xdec);
    let height = visible_of(crop_h, out.cfg.ydec);
    let ydec = out.cfg.ydec;
    restore_plane(
        units,
        cdef,
        bd,
        ydec,
        width,
        height,
        buffer.integral_image.as_mut_slice(),
        buffer.sq_integral_image.as_mut_slice(),
        pitch,
        before,
        deblocked,
        out,
    );
}

// Restores the first `planes` planes of a frame, of which `before` is a copy.
fn restore_planes<T: Pixel>(
    state: &RestorationState,
    cdef: bool,
    bd: usize,
    crop_w: usize,
    crop_h: usize,
    planes: usize,
    buffer: &mut IntegralImageBuffer,
    pitch: usize,
    before: &Frame<T>,
    pre_cdef: &Frame<T>,
    out: &mut Frame<T>,
)
    requires can { CanRestoreFrame T.number bd pitch crop_w crop_h planes (units_in state.now)
        pre_cdef.now out.old }
    requires before { SameFrame out.old before.now }
    requires depth { IsDepth bd }
    requires limit { 2 ^ bd ≤ T.limit }
    requires cells { 71 * pitch ≤ length buffer.old.integral_image.items }
    requires squares { 71 * pitch ≤ length buffer.old.sq_integral_image.items }
    ensures { IsRestoredFrame T.number cdef bd crop_w crop_h planes (units_in state.now)
        pre_cdef.now out.old out.new }
{
    restore_units(
        &state.planes.y,
        cdef,
        bd,
        crop_w,
        crop_h,
        buffer,
        pitch,
        &before.planes.y,
        &pre_cdef.planes.y,
        &mut out.planes.y,
    );
    if planes > 1 {
        restore_units(
            &state.planes.u,
            cdef,
            bd,
            crop_w,
            crop_h,
            buffer,
            pitch,
            &before.planes.u,
            &pre_cdef.planes.u,
            &mut out.planes.u,
        );
        restore_units(
            &state.planes.v,
            cdef,
            bd,
            crop_w,
            crop_h,
            buffer,
            pitch,
            &before.planes.v,
            &pre_cdef.planes.v,
            &mut out.planes.v,
        );
    }
}

// Restores the first `planes` planes of a frame by way of prefix sums with `pitch` cells to a row.
fn restore_copy<T: Pixel>(
    alloc: Global,
    state: &RestorationState,
    cdef: bool,
    bd: usize,
    crop_w: usize,
    crop_h: usize,
    planes: usize,
    pitch: usize,
    pre_cdef: &Frame<T>,
    out: &mut Frame<T>,
) -> Result<(), OutOfMemory>
    requires can { CanRestoreFrame T.number bd pitch crop_w crop_h planes (units_in state.now)
        pre_cdef.now out.old }
    requires depth { IsDepth bd }
    requires limit { 2 ^ bd ≤ T.limit }
    requires pitch { pitch ≤ 65536 }
    ensures ok { OnOk result (IsRestoredFrame T.number cdef bd crop_w crop_h planes
        (units_in state.now) pre_cdef.now out.old out.new) }
    ensures err { OnErr result (out.new ≡ out.old) }
{
    let before = out.try_clone(alloc)?;
    let mut buffer = IntegralImageBuffer::zeroed(alloc, 71 * pitch)?;
    restore_planes(
        state,
        cdef,
        bd,
        crop_w,
        crop_h,
        planes,
        &mut buffer,
        pitch,
        &before,
        pre_cdef,
        out,
    );
    Ok(())
}

// How many planes a frame has.
fn plane_count(sampling: ChromaSampling) -> usize
    ensures chroma { 1 < result → IsSome (decimation sampling) }
    ensures luma { result ≤ 1 → decimation sampling ≡ None }
{
    match sampling.get_decimation() {
        None => 1,
        Some(_) => 3,
    }
}

/// Restores the visible part of a frame by its units; all other samples stay. `out` has the samples
/// that CDEF gave, or the deblocked ones where CDEF is off, and `pre_cdef` is the deblocked frame.
/// Without memory for a copy `out` stays as it is.
///
/// A self-guided unit leaves its samples as they are where CDEF is off.
pub fn lrf_filter_frame<T: Pixel>(
    alloc: Global,
    state: &RestorationState,
    out: &mut Frame<T>,
    pre_cdef: &Frame<T>,
    fi: &FrameInvariants<T>,
) -> Result<(), OutOfMemory>
    requires frame { IsFrame T.limit fi.now }
    requires state { AreUnitsFor fi.now (units_in state.now) }
    requires units { AreFrameUnits (units_in state.now) }
    requires out { IsInputFor fi.now (view_frame T.number out.old) }
    requires pre_cdef { IsInputFor fi.now (view_frame T.number pre_cdef.now) }
    ensures ok { OnOk result (view_frame T.number out.new
        ≡ restored_frame fi.now (units_in state.now)
        (view_frame T.number pre_cdef.now) (view_frame T.number out.old)) }
    ensures err { OnErr result (out.new ≡ out.old) }
{
    let planes = plane_count(fi.sequence.chroma_sampling);
    restore_copy(
        alloc,
        state,
        fi.sequence.enable_cdef,
        fi.sequence.bit_depth,
        fi.width,
        fi.height,
        planes,
        STRIPE_IMAGE_STRIDE,
        pre_cdef,
        out,
    )?;
    Ok(())
}
