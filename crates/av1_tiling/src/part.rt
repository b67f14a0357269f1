ghost use Rattle.std.specs.Prelude.{◌≡◌, ◌<◌, ◌^◌, IfOk, All, map};
ghost use Rattle.av1_tiling.specs.Views.{view_plane, view_samples, view_frame, view_parts, view_cut, view_units};
ghost use Rattle.av1_tiling.specs.Restoration.{units_of, units_in};
ghost use Rattle.av1_tiling.specs.TileRects.{samples_rect, motion_rect, units_rect};
ghost use Rattle.av1_tiling.specs.UnitViews.{HasShifts};
ghost use Rattle.av1_tiling.specs.Frames.{stored_rect, plane_part, frame_parts, plane_part_place, part_places, motion_parts, unit_part, unit_parts, PartFits, HoldsRect, CanCutUnits};

use crate::part_place::PartPlace;
use crate::plane_part::PlanePart;
use crate::restoration_plane::RestorationPlane;
use crate::restoration_state::RestorationState;
use av1_block::{Cut, FrameMEStats, MEStats, RestorationUnit};
use av1_plane::{
    Frame, OutOfMemory, Pixel, Plane, PlaneConfig, PlaneRegion, PlaneSuperBlockOffset, Rect, Three,
    TileRect,
};
use std::alloc::Global;

/// The luma samples of a tile's view: its own, rounded up to whole superblocks.
pub(crate) fn samples_rect(sbo: PlaneSuperBlockOffset, width: usize, height: usize) -> TileRect
    requires x { sbo.0.x < 2 ^ 20 }
    requires y { sbo.0.y < 2 ^ 20 }
    requires width { width < 2 ^ 20 }
    requires height { height < 2 ^ 20 }
    ensures { result ≡ samples_rect (sbo.0.x, sbo.0.y) 6 width height }
{
    TileRect {
        x: sbo.0.x * 64,
        y: sbo.0.y * 64,
        width: width.div_ceil(64) * 64,
        height: height.div_ceil(64) * 64,
    }
}

/// The motion records of a tile's view.
pub(crate) fn motion_rect(sbo: PlaneSuperBlockOffset, width: usize, height: usize) -> TileRect
    requires x { sbo.0.x < 2 ^ 20 }
    requires y { sbo.0.y < 2 ^ 20 }
    ensures { result ≡ motion_rect (sbo.0.x, sbo.0.y) 6 width height }
{
    TileRect {
        x: sbo.0.x * 16,
        y: sbo.0.y * 16,
        width: width / 4,
        height: height / 4,
    }
}

// Where a rectangle of luma samples lies in the stored rows of a plane.
fn stored_rect(cfg: &PlaneConfig, luma: TileRect) -> TileRect
    requires { PartFits cfg.now luma }
    ensures { result ≡ stored_rect cfg.now luma }
{
    if cfg.width == 0 || cfg.height == 0 {
        return TileRect {
            x: 0,
            y: 0,
            width: 0,
            height: 0,
        };
    }
    let rect = luma.decimated(cfg.xdec, cfg.ydec);
    TileRect {
        x: cfg.xorigin + rect.x,
        y: cfg.yorigin + rect.y,
        width: rect.width,
        height: rect.height,
    }
}

// The part of a plane that a rectangle of luma samples covers.
fn cut_plane<T: Pixel>(
    alloc: Global,
    plane: &Plane<T>,
    luma: TileRect,
) -> Result<PlanePart<T>, OutOfMemory>
    requires { PartFits plane.now.cfg luma }
    ensures { IfOk result (λ part.
        view_samples T.number part ≡ plane_part (view_plane T.number plane.now) luma) }
{
    let TileRect { x, y, .. } = stored_rect(&plane.cfg, luma);
    let rect = luma.decimated(plane.cfg.xdec, plane.cfg.ydec);
    let copy = PlaneRegion::new(plane, rect.into()).scratch_copy(alloc)?;
    Ok(PlanePart {
        plane: copy,
        x,
        y,
        stride: plane.cfg.stride,
    })
}

/// The parts of a frame's planes that a rectangle of luma samples covers.
pub(crate) fn cut_frame<T: Pixel>(
    alloc: Global,
    frame: &Frame<T>,
    luma: TileRect,
) -> Result<Three<PlanePart<T>>, OutOfMemory>
    requires y { PartFits frame.now.planes.y.cfg luma }
    requires u { PartFits frame.now.planes.u.cfg luma }
    requires v { PartFits frame.now.planes.v.cfg luma }
    ensures { IfOk result (λ parts.
        view_parts T.number parts ≡ frame_parts (view_frame T.number frame.now) luma) }
{
    Ok(Three {
        y: cut_plane(alloc, &frame.planes.y, luma)?,
        u: cut_plane(alloc, &frame.planes.u, luma)?,
        v: cut_plane(alloc, &frame.planes.v, luma)?,
    })
}

// Where the part of a plane that a rectangle of luma samples covers stands.
fn part_place(cfg: &PlaneConfig, luma: TileRect) -> PartPlace
    requires { PartFits cfg.now luma }
    ensures { result ≡ plane_part_place cfg.now luma }
{
    if cfg.width == 0 || cfg.height == 0 {
        return PartPlace {
            cfg: *cfg,
            x: 0,
            y: 0,
        };
    }
    let Rect { x, y, .. } = luma.decimated(cfg.xdec, cfg.ydec).into();
    PartPlace { cfg: *cfg, x, y }
}

/// Where the parts of a frame's planes stand that a rectangle of luma samples covers.
pub(crate) fn part_places<T: Pixel>(frame: &Frame<T>, luma: TileRect) -> Three<PartPlace>
    requires y { PartFits frame.now.planes.y.cfg luma }
    requires u { PartFits frame.now.planes.u.cfg luma }
    requires v { PartFits frame.now.planes.v.cfg luma }
    ensures { result ≡ part_places (view_frame T.number frame.now) luma }
{
    Three {
        y: part_place(&frame.planes.y.cfg, luma),
        u: part_place(&frame.planes.u.cfg, luma),
        v: part_place(&frame.planes.v.cfg, luma),
    }
}

/// The parts of tables of motion records that a rectangle covers.
pub(crate) fn cut_motion(
    alloc: Global,
    tables: &[FrameMEStats],
    rect: TileRect,
) -> Result<Vec<Cut<MEStats>>, OutOfMemory>
    requires { All (HoldsRect rect) (tables.now) }
    ensures { IfOk result (λ cuts.
        map view_cut cuts.items ≡ motion_parts (tables.now) rect) }
{
    let mut cuts = Vec::with_capacity(alloc, tables.len())?;
    for table in tables {
        cuts.push(Cut::take(alloc, table.entries(), table.cols, rect)?)?;
    }
    Ok(cuts)
}

/// The units of a tile's view in a plane.
pub(crate) fn units_rect(
    plane: &RestorationPlane,
    sbo: PlaneSuperBlockOffset,
    sb_width: usize,
    sb_height: usize,
) -> TileRect
    requires shifts { HasShifts plane.now.cfg }
    requires width { sb_width < 2 ^ 32 }
    requires height { sb_height < 2 ^ 32 }
    ensures { result ≡ units_rect (sbo.0.x, sbo.0.y) (sb_width, sb_height)
        (plane.now.cfg.sb_h_shift, plane.now.cfg.sb_v_shift)
        (plane.now.units.cols, plane.now.units.rows) }
{
    let units = &plane.units;
    let x = (sbo.0.x >> plane.cfg.sb_h_shift).min(units.cols);
    let y = (sbo.0.y >> plane.cfg.sb_v_shift).min(units.rows);
    TileRect {
        x,
        y,
        width: sb_width
            .div_ceil(1 << plane.cfg.sb_h_shift)
            .min(units.cols - x),
        height: sb_height
            .div_ceil(1 << plane.cfg.sb_v_shift)
            .min(units.rows - y),
    }
}

// The part of a plane's units that a tile of these superblocks covers.
fn cut_plane_units(
    alloc: Global,
    plane: &RestorationPlane,
    sbo: PlaneSuperBlockOffset,
    sb_width: usize,
    sb_height: usize,
) -> Result<Cut<RestorationUnit>, OutOfMemory>
    requires units { CanCutUnits (units_of plane.now) }
    requires width { sb_width < 2 ^ 32 }
    requires height { sb_height < 2 ^ 32 }
    ensures { IfOk result (λ cut. view_cut cut
        ≡ unit_part (units_of plane.now) (sbo.0.x, sbo.0.y) (sb_width, sb_height)) }
{
    let rect = units_rect(plane, sbo, sb_width, sb_height);
    Cut::take(alloc, plane.units.entries(), plane.units.cols, rect)
}

/// The parts of a frame's units that a tile of these superblocks covers.
pub(crate) fn cut_units(
    alloc: Global,
    state: &RestorationState,
    sbo: PlaneSuperBlockOffset,
    sb_width: usize,
    sb_height: usize,
) -> Result<Three<Cut<RestorationUnit>>, OutOfMemory>
    requires y { CanCutUnits (units_of state.now.planes.y) }
    requires u { CanCutUnits (units_of state.now.planes.u) }
    requires v { CanCutUnits (units_of state.now.planes.v) }
    requires width { sb_width < 2 ^ 32 }
    requires height { sb_height < 2 ^ 32 }
    ensures { IfOk result (λ cuts. view_units cuts
        ≡ unit_parts (units_in state.now) (sbo.0.x, sbo.0.y) (sb_width, sb_height)) }
{
    Ok(Three {
        y: cut_plane_units(alloc, &state.planes.y, sbo, sb_width, sb_height)?,
        u: cut_plane_units(alloc, &state.planes.u, sbo, sb_width, sb_height)?,
        v: cut_plane_units(alloc, &state.planes.v, sbo, sb_width, sb_height)?,
    })
}
