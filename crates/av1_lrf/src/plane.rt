ghost use Rattle.std.specs.Prelude.{◌≡◌, ◌+◌, ◌-◌, ◌*◌, ◌/◌, ◌<◌, ◌≤◌, ◌^◌, ℕ, min, length, map};
ghost use Rattle.av1_plane.specs.Place.{origin_place};
ghost use Rattle.av1_plane.specs.Planes.{plane_numbers};
ghost use Rattle.av1_lrf.specs.Rows.{sample, pixel, picture_of, scene_in, HasStripePicture};
ghost use Rattle.av1_lrf.specs.Runs.{HasArea};
ghost use Rattle.av1_lrf.specs.Wiener.{IsDepth};
ghost use Rattle.av1_tiling.specs.Restoration.{units_of, unit_by_stripe, IsFilter};
ghost use Rattle.av1_lrf.specs.Restore.{restored_by};
ghost use Rattle.av1_lrf.specs.Units.{edge, FitPicture};

use crate::part::guided_columns_of;
use crate::wiener::wiener_stripe;
use av1_plane::{Pixel, Plane};
use av1_tiling::{RestorationFilter, RestorationPlane};

// Restores the columns from `left` up to `right` of a stripe by a unit's filter, by way of cells
// for their prefix sums.
fn restore_part<T: Pixel>(
    filter: RestorationFilter,
    cdef: bool,
    bd: usize,
    crop_w: usize,
    crop_h: usize,
    left: usize,
    right: usize,
    start: usize,
    stop: usize,
    cells: &mut [u32],
    squares: &mut [u32],
    pitch: usize,
    cdeffed: &Plane<T>,
    deblocked: &Plane<T>,
    out: &mut Plane<T>,
)
    requires unit { IsFilter filter }
    requires depth { IsDepth bd }
    requires limit { 2 ^ bd ≤ T.limit }
    requires enhanced { HasStripePicture T.number (2 ^ bd) crop_w crop_h cdeffed.now }
    requires deblocked { HasStripePicture T.number (2 ^ bd) crop_w crop_h deblocked.now }
    requires shape { out.old.cfg ≡ cdeffed.now.cfg }
    requires left { left < right }
    requires right { right ≤ crop_w }
    requires start { start < crop_h }
    requires some { start < stop }
    requires stop { stop ≤ 131072 }
    requires high { stop ≤ start + 64 }
    requires pitch { right + 7 ≤ left + pitch }
    requires cells { 71 * pitch ≤ length cells.old }
    requires squares { 71 * pitch ≤ length squares.old }
    requires same { (x y : ℕ) → left ≤ x → x < right → start ≤ y → y < min stop crop_h → sample
        (plane_numbers T.number out.old) (origin_place out.old.cfg + y * out.old.cfg.stride +
        x) ≡ pixel (picture_of T.number crop_w crop_h cdeffed.now) x y }
    ensures cfg { out.new.cfg ≡ out.old.cfg }
    ensures value { HasArea (origin_place out.old.cfg) out.old.cfg.stride left right start (min
        stop crop_h) (restored_by filter cdef bd (scene_in T.number crop_w crop_h start stop
        cdeffed.now deblocked.now)) (plane_numbers T.number out.old) (plane_numbers T.number
        out.new) }
{
    match filter {
        RestorationFilter::None => {}
        RestorationFilter::Wiener { coeffs } => wiener_stripe(
            coeffs,
            bd,
            crop_w,
            crop_h,
            right - left,
            stop - start,
            left,
            start,
            cdeffed,
            deblocked,
            out,
        ),
        RestorationFilter::Sgrproj { set, xqd } => {
            if cdef {
                guided_columns_of(
                    set, xqd, bd, crop_w, crop_h, left, right, start, stop, cells, squares, pitch,
                    cdeffed, deblocked, out,
                );
            }
        }
    }
}

#[tactic(auto, unfolding(crate::specs::Units::edge), using(crate::proofs::UnitFacts::units))]
fn edge_of(n: usize, size: usize, width: usize, u: usize) -> usize
    requires some { 0 < n }
    requires fits { (n - 1) * size < width }
    ensures { result ≡ edge n size width u }
{
    if u < n { u * size } else { width }
}

// Restores stripe k, unit by unit.
pub fn restore_stripe<T: Pixel>(
    units: &RestorationPlane,
    k: usize,
    cdef: bool,
    bd: usize,
    crop_w: usize,
    crop_h: usize,
    start: usize,
    stop: usize,
    cells: &mut [u32],
    squares: &mut [u32],
    pitch: usize,
    cdeffed: &Plane<T>,
    deblocked: &Plane<T>,
    out: &mut Plane<T>,
)
    requires units { FitPicture (units_of units.now) crop_w pitch }
    requires k { k < 2 ^ 32 }
    requires depth { IsDepth bd }
    requires limit { 2 ^ bd ≤ T.limit }
    requires enhanced { HasStripePicture T.number (2 ^ bd) crop_w crop_h cdeffed.now }
    requires deblocked { HasStripePicture T.number (2 ^ bd) crop_w crop_h deblocked.now }
    requires shape { out.old.cfg ≡ cdeffed.now.cfg }
    requires start { start < crop_h }
    requires some { start < stop }
    requires stop { stop ≤ 131072 }
    requires high { stop ≤ start + 64 }
    requires cells { 71 * pitch ≤ length cells.old }
    requires squares { 71 * pitch ≤ length squares.old }
    requires same { (x y : ℕ) → x < crop_w → start ≤ y → y < min stop crop_h →
        sample (plane_numbers T.number out.old)
        (origin_place out.old.cfg + y * out.old.cfg.stride + x)
        ≡ pixel (picture_of T.number crop_w crop_h cdeffed.now) x y }
    ensures cfg { out.new.cfg ≡ out.old.cfg }
    ensures value { HasArea (origin_place out.old.cfg) out.old.cfg.stride 0 crop_w start (min stop
        crop_h)
        (λ x y. restored_by
        (unit_by_stripe (units_of units.now) k (x / units.now.cfg.unit_size)).filter
        cdef bd (scene_in T.number crop_w crop_h start stop cdeffed.now deblocked.now) x y)
        (plane_numbers T.number out.old) (plane_numbers T.number out.new) }
{
    let cols = units.cfg.cols;
    let size = units.cfg.unit_size;
    for u in 0..cols {
        let left = edge_of(cols, size, crop_w, u);
        let right = edge_of(cols, size, crop_w, u + 1);
        let unit = *units.restoration_unit_by_stripe(k, u);
        restore_part(
            unit.filter,
            cdef,
            bd,
            crop_w,
            crop_h,
            left,
            right,
            start,
            stop,
            cells,
            squares,
            pitch,
            cdeffed,
            deblocked,
            out,
        );
    }
}
