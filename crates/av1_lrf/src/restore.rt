ghost use Rattle.std.specs.Prelude.{◌≡◌, ◌+◌, ◌-◌, ◌*◌, ◌/◌, ◌<◌, ◌≤◌, ◌^◌, ℕ, length};
ghost use Rattle.av1_plane.specs.Place.{origin_place};
ghost use Rattle.av1_plane.specs.Planes.{plane_numbers};
ghost use Rattle.av1_lrf.specs.Rows.{sample, pixel, picture_of, scene_in, stripe_height, stripe_offset, HasStripePicture};
ghost use Rattle.av1_lrf.specs.Runs.{HasArea};
ghost use Rattle.av1_lrf.specs.Wiener.{IsDepth};
ghost use Rattle.av1_tiling.specs.Restoration.{units_of, unit_by_stripe};
ghost use Rattle.av1_lrf.specs.Restore.{restored_by, IsRestored};
ghost use Rattle.av1_lrf.specs.Units.{row_edge, FitPicture};

use crate::plane::restore_stripe;
use av1_plane::{Pixel, Plane};
use av1_tiling::RestorationPlane;

// Restores stripe `k`. Stripes are `height` rows high, but the first one has `offset` rows less.
fn restore_nth<T: Pixel>(
    units: &RestorationPlane,
    cdef: bool,
    bd: usize,
    height: usize,
    offset: usize,
    k: usize,
    crop_w: usize,
    crop_h: usize,
    cells: &mut [u32],
    squares: &mut [u32],
    pitch: usize,
    cdeffed: &Plane<T>,
    deblocked: &Plane<T>,
    out: &mut Plane<T>,
)
    requires units { FitPicture (units_of units.now) crop_w pitch }
    requires depth { IsDepth bd }
    requires limit { 2 ^ bd ≤ T.limit }
    requires enhanced { HasStripePicture T.number (2 ^ bd) crop_w crop_h cdeffed.now }
    requires deblocked { HasStripePicture T.number (2 ^ bd) crop_w crop_h deblocked.now }
    requires shape { out.old.cfg ≡ cdeffed.now.cfg }
    requires some { 0 < offset }
    requires lower { offset < height }
    requires high { height ≤ 64 }
    requires k { k * height < crop_h + offset }
    requires few { k < 2 ^ 32 }
    requires cells { 71 * pitch ≤ length cells.old }
    requires squares { 71 * pitch ≤ length squares.old }
    requires same { (x y : ℕ) → x < crop_w → row_edge height offset crop_h k ≤ y → y < crop_h →
        sample (plane_numbers T.number out.old) (origin_place out.old.cfg + y *
        out.old.cfg.stride + x) ≡ pixel (picture_of T.number crop_w crop_h cdeffed.now) x y }
    ensures cfg { out.new.cfg ≡ out.old.cfg }
    ensures value { HasArea (origin_place out.old.cfg) out.old.cfg.stride 0 crop_w (row_edge
        height offset crop_h k) (row_edge height offset crop_h (k + 1)) (λ x y. restored_by
        (unit_by_stripe (units_of units.now) k (x / units.now.cfg.unit_size)).filter cdef bd
        (scene_in T.number crop_w crop_h (k * height - offset) ((k + 1) * height - offset)
        cdeffed.now deblocked.now) x y) (plane_numbers T.number out.old) (plane_numbers
        T.number out.new) }
{
    let at = k * height;
    let start = at.max(offset) - offset;
    let stop = at + height - offset;
    restore_stripe(
        units, k, cdef, bd, crop_w, crop_h, start, stop, cells, squares, pitch, cdeffed, deblocked,
        out,
    );
}

fn height_of(ydec: usize) -> usize
    requires { ydec ≤ 1 }
    ensures value { result ≡ stripe_height ydec }
    ensures least { 32 ≤ result }
    ensures most { result ≤ 64 }
{
    match ydec {
        0 => 64,
        _ => 32,
    }
}

fn offset_of(ydec: usize) -> usize
    requires { ydec ≤ 1 }
    ensures value { result ≡ stripe_offset ydec }
    ensures least { 4 ≤ result }
    ensures most { result ≤ 8 }
{
    match ydec {
        0 => 8,
        _ => 4,
    }
}

/// Restores the picture of a plane, whose samples are those of `cdeffed`, by way of cells for the
/// prefix sums of a part of a unit.
pub fn restore_plane<T: Pixel>(
    units: &RestorationPlane,
    cdef: bool,
    bd: usize,
    ydec: usize,
    crop_w: usize,
    crop_h: usize,
    cells: &mut [u32],
    squares: &mut [u32],
    pitch: usize,
    cdeffed: &Plane<T>,
    deblocked: &Plane<T>,
    out: &mut Plane<T>,
)
    requires units { FitPicture (units_of units.now) crop_w pitch }
    requires depth { IsDepth bd }
    requires limit { 2 ^ bd ≤ T.limit }
    requires ydec { ydec ≤ 1 }
    requires enhanced { HasStripePicture T.number (2 ^ bd) crop_w crop_h cdeffed.now }
    requires deblocked { HasStripePicture T.number (2 ^ bd) crop_w crop_h deblocked.now }
    requires shape { out.old.cfg ≡ cdeffed.now.cfg }
    requires cells { 71 * pitch ≤ length cells.old }
    requires squares { 71 * pitch ≤ length squares.old }
    requires same { plane_numbers T.number out.old ≡ plane_numbers T.number cdeffed.now }
    ensures cfg { out.new.cfg ≡ out.old.cfg }
    ensures value { IsRestored (record {
      units = units_of units.now;
      cdef = cdef;
      bit_depth = bd;
      ydec = ydec;
    }) (picture_of T.number crop_w crop_h deblocked.now) (picture_of T.number
        crop_w crop_h cdeffed.now) (plane_numbers T.number out.new) }
{
    let height = height_of(ydec);
    let offset = offset_of(ydec);
    for k in 0..(crop_h + offset - 1) / height + 1 {
        restore_nth(
            units, cdef, bd, height, offset, k, crop_w, crop_h, cells, squares, pitch, cdeffed,
            deblocked, out,
        );
    }
}
