ghost use Rattle.std.specs.Prelude.{◌≡◌, ◌+◌, ◌-◌, ◌*◌, ◌%◌, ◌<◌, ◌≤◌, ◌^◌, ◌==◌, min, length, unsigned_abs};
ghost use Rattle.av1_plane.specs.Place.{origin_place};
ghost use Rattle.av1_plane.specs.Planes.{plane_numbers};
ghost use Rattle.av1_lrf.specs.Rows.{sample, pixel, picture_of, scene_in, HasStripePicture};
ghost use Rattle.av1_lrf.specs.Runs.{HasArea};
ghost use Rattle.av1_lrf.specs.Wiener.{IsDepth};
ghost use Rattle.av1_lrf.specs.Guided.{Table, guided};
ghost use Rattle.av1_lrf.specs.Guides.{HasTable};
ghost use Rattle.av1_lrf.specs.Restore.{source_table};

use crate::guided::guided_stripe;
use crate::integral::fill_sums;
use crate::plan::plan_of;
use crate::rows::Extent;
use av1_plane::{Pixel, Plane};

// Guides a part of a plane's samples by the prefix sums of a table.
fn guided_samples<T: Pixel>(
    set: u8,
    xqd: [i8; 2],
    bd: usize,
    left: usize,
    top: usize,
    width: usize,
    height: usize,
    cells: &[u32],
    squares: &[u32],
    pitch: usize,
    cdeffed: &Plane<T>,
    out: &mut Plane<T>,
)
    requires set { set < 16 }
    requires depth { IsDepth bd }
    requires limit { 2 ^ bd ≤ T.limit }
    requires wide { left + width ≤ out.old.cfg.width }
    requires high { top + height ≤ out.old.cfg.height }
    requires some { 0 < height }
    requires shape { out.old.cfg ≡ cdeffed.now.cfg }
    requires cells { (height + 6) * pitch + width + 6 < length cells.now }
    requires squares { (height + 6) * pitch + width + 6 < length squares.now }
    requires width { width ≤ 2 ^ 32 }
    requires height { height ≤ 2 ^ 32 }
    ensures cfg { out.new.cfg ≡ out.old.cfg }
    ensures value { (f : Table) → HasTable bd f pitch width height cells.now squares.now → HasArea
        (origin_place out.old.cfg + top * out.old.cfg.stride + left) out.old.cfg.stride 0
        width 0 height (λ c r. guided bd set xqd (r % 2 == 1) f (unsigned_abs (sample
        (plane_numbers T.number cdeffed.now) (origin_place out.old.cfg + top *
        out.old.cfg.stride + left + r * out.old.cfg.stride + c))) (c + 3) (r + 3))
        (plane_numbers T.number out.old) (plane_numbers T.number out.new) }
{
    let plan = plan_of(set, xqd, bd);
    let _rows = out.cfg.alloc_height;
    let _length = out.samples.len();
    let step = out.cfg.stride;
    let at = out.cfg.yorigin * step + out.cfg.xorigin + top * step + left;
    guided_stripe::<T, 4356, 256>(
        out.samples.as_mut_slice(),
        at,
        step,
        width,
        height,
        cdeffed.samples.as_slice(),
        at,
        step,
        cells,
        squares,
        pitch,
        plan,
    );
}

/// Guides the columns from `left` up to `right` of a stripe, by way of cells for its prefix sums.
pub fn guided_columns_of<T: Pixel>(
    set: u8,
    xqd: [i8; 2],
    bd: usize,
    crop_w: usize,
    crop_h: usize,
    left: usize,
    right: usize,
    start: usize,
    stop: usize,
    cells: &mut [u32],
    squares: &mut [u32],
    pitch: usize,
    cdeffed: &Plane<T>,
    deblocked: &Plane<T>,
    out: &mut Plane<T>,
)
    requires set { set < 16 }
    requires depth { IsDepth bd }
    requires limit { 2 ^ bd ≤ T.limit }
    requires enhanced { HasStripePicture T.number (2 ^ bd) crop_w crop_h cdeffed.now }
    requires deblocked { HasStripePicture T.number (2 ^ bd) crop_w crop_h deblocked.now }
    requires shape { out.old.cfg ≡ cdeffed.now.cfg }
    requires left { left < right }
    requires right { right ≤ crop_w }
    requires start { start < crop_h }
    requires some { start < stop }
    requires stop { stop ≤ 131072 }
    requires high { stop ≤ start + 64 }
    requires pitch { right + 7 ≤ left + pitch }
    requires cells { 71 * pitch ≤ length cells.old }
    requires squares { 71 * pitch ≤ length squares.old }
    ensures cfg { out.new.cfg ≡ out.old.cfg }
    ensures value { HasArea (origin_place out.old.cfg) out.old.cfg.stride left right start (min
        stop crop_h) (λ x y. guided bd set xqd ((y - start) % 2 == 1) (source_table (scene_in
        T.number crop_w crop_h start stop cdeffed.now deblocked.now)) (unsigned_abs (pixel
        (picture_of T.number crop_w crop_h cdeffed.now) x y)) (x + 3) (y + 3)) (plane_numbers
        T.number out.old) (plane_numbers T.number out.new) }
{
    let width = right - left;
    let height = stop.min(crop_h) - start;
    let e = Extent {
        width: crop_w,
        height: crop_h,
        start,
        stop,
    };
    fill_sums(
        cells,
        pitch,
        width + 6,
        height + 6,
        left,
        start,
        cdeffed,
        deblocked,
        e,
        false,
    );
    fill_sums(
        squares,
        pitch,
        width + 6,
        height + 6,
        left,
        start,
        cdeffed,
        deblocked,
        e,
        true,
    );
    guided_samples(
        set, xqd, bd, left, start, width, height, cells, squares, pitch, cdeffed, out,
    );
}
