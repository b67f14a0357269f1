ghost use Rattle.std.specs.Prelude.{◌≡◌, ◌+◌, ◌*◌, ◌<◌, ◌≤◌, ◌^◌, ◌≤ℤ◌, ℕ, ℤ, pos, min, length, map, unsigned_abs};
ghost use Rattle.av1_plane.specs.Place.{origin_place};
ghost use Rattle.av1_plane.specs.Planes.{plane_numbers};
ghost use Rattle.av1_lrf.specs.Rows.{scene_in, HasStripePicture};
ghost use Rattle.av1_lrf.specs.Runs.{HasArea};
ghost use Rattle.av1_lrf.specs.Written.{FillsPart};
ghost use Rattle.av1_tiling.specs.Frames.{FitsDepth};
ghost use Rattle.av1_tiling.specs.Restoration.{across_coeffs, down_coeffs, AreCoeffs};
ghost use Rattle.av1_lrf.specs.Wiener.{wiener, IsDepth};
ghost use Rattle.av1_lrf.specs.Taps.{down_by, scene_by, CanReadStripe, IsTapFilter, IsWiener};

use crate::block::{Filter, filter_stripe};
use crate::rows::Extent;
use crate::setup::{across_limits, down_limits, taps_of};
use av1_plane::{Pixel, Plane};
use av1_tiling::FrameInvariants;

// The filter of a unit's coefficients.
fn filter_of(coeffs: [[i8; 3]; 2], bd: usize) -> Filter
    requires down { AreCoeffs (down_coeffs coeffs) }
    requires across { AreCoeffs (across_coeffs coeffs) }
    requires depth { IsDepth bd }
    ensures value { IsWiener bd coeffs result }
    ensures filter { IsTapFilter (2 ^ bd) result }
{
    Filter {
        across: taps_of(coeffs[1]),
        across_limits: across_limits(bd),
        down: taps_of(coeffs[0]),
        down_limits: down_limits(bd),
    }
}

// The area of a stripe in a plane's samples.
#[tactic(auto, using(crate::proofs::PictureFacts::pictures))]
fn filter_samples<T: Pixel>(
    out: &mut Plane<T>,
    left: usize,
    right: usize,
    top: usize,
    bottom: usize,
    cdeffed: &Plane<T>,
    deblocked: &Plane<T>,
    e: Extent,
    f: Filter,
)
    requires wide { e.width ≤ out.old.cfg.width }
    requires high { e.height ≤ out.old.cfg.height }
    requires scene { CanReadStripe T.number e cdeffed.now deblocked.now }
    requires filter { IsTapFilter T.limit f }
    requires left { left ≤ right }
    requires right { right ≤ e.width }
    requires top { top ≤ bottom }
    requires bottom { bottom ≤ e.height }
    ensures cfg { out.new.cfg ≡ out.old.cfg }
    ensures value { HasArea (origin_place out.old.cfg) out.old.cfg.stride left right top bottom
        (down_by f (scene_by T.number e cdeffed.now deblocked.now)) (plane_numbers T.number
        out.old) (plane_numbers T.number out.new) }
{
    let _rows = out.cfg.alloc_height;
    let _length = out.samples.len();
    let step = out.cfg.stride;
    let origin = out.cfg.yorigin * step + out.cfg.xorigin;
    filter_stripe::<T, 4480, 70>(
        out.samples.as_mut_slice(),
        origin,
        step,
        left,
        right,
        top,
        bottom,
        cdeffed,
        deblocked,
        e,
        f,
    );
}

// Filters the visible samples of a stripe of samples of `bd` bits.
pub fn wiener_stripe<T: Pixel>(
    coeffs: [[i8; 3]; 2],
    bd: usize,
    crop_w: usize,
    crop_h: usize,
    stripe_w: usize,
    stripe_h: usize,
    stripe_x: usize,
    stripe_y: usize,
    cdeffed: &Plane<T>,
    deblocked: &Plane<T>,
    out: &mut Plane<T>,
)
    requires down { AreCoeffs (down_coeffs coeffs) }
    requires across { AreCoeffs (across_coeffs coeffs) }
    requires depth { IsDepth bd }
    requires limit { 2 ^ bd ≤ T.limit }
    requires enhanced { HasStripePicture T.number (2 ^ bd) crop_w crop_h cdeffed.now }
    requires deblocked { HasStripePicture T.number (2 ^ bd) crop_w crop_h deblocked.now }
    requires shape { out.old.cfg ≡ cdeffed.now.cfg }
    requires some_height { 0 < stripe_h }
    requires left { stripe_x < crop_w }
    requires top { stripe_y < crop_h }
    requires wide { stripe_w ≤ 2 ^ 32 }
    requires high { stripe_h ≤ 65536 }
    ensures cfg { out.new.cfg ≡ out.old.cfg }
    ensures value { FillsPart T.number stripe_x (min (stripe_x + stripe_w) crop_w)
        stripe_y (min (stripe_y + stripe_h) crop_h)
        (wiener bd coeffs
        (scene_in T.number crop_w crop_h stripe_y (stripe_y + stripe_h) cdeffed.now deblocked.now))
        out.old out.new }
{
    let f = filter_of(coeffs, bd);
    let e = Extent {
        width: crop_w,
        height: crop_h,
        start: stripe_y,
        stop: stripe_y + stripe_h,
    };
    let right = (stripe_x + stripe_w).min(crop_w);
    let bottom = (stripe_y + stripe_h).min(crop_h);
    filter_samples(
        out, stripe_x, right, stripe_y, bottom, cdeffed, deblocked, e, f,
    );
}

/// Filters the visible samples of a stripe by a unit's Wiener filter.
///
/// The three planes have a picture of `crop_w` by `crop_h` samples at one place. The stripe
/// begins in it.
pub fn wiener_stripe_filter<T: Pixel>(
    coeffs: [[i8; 3]; 2],
    fi: &FrameInvariants<T>,
    crop_w: usize,
    crop_h: usize,
    stripe_w: usize,
    stripe_h: usize,
    stripe_x: usize,
    stripe_y: isize,
    cdeffed: &Plane<T>,
    deblocked: &Plane<T>,
    out: &mut Plane<T>,
)
    requires down { AreCoeffs (down_coeffs coeffs) }
    requires across { AreCoeffs (across_coeffs coeffs) }
    requires depth { FitsDepth T.limit fi.now.sequence.bit_depth }
    requires enhanced { HasStripePicture T.number (2 ^ fi.now.sequence.bit_depth) crop_w crop_h
        cdeffed.now }
    requires deblocked { HasStripePicture T.number (2 ^ fi.now.sequence.bit_depth) crop_w crop_h
        deblocked.now }
    requires shape { out.old.cfg ≡ cdeffed.now.cfg }
    requires some_width { 0 < stripe_w }
    requires some_height { 0 < stripe_h }
    requires left { stripe_x < crop_w }
    requires top { pos 0 ≤ℤ stripe_y }
    requires bottom { unsigned_abs stripe_y < crop_h }
    ensures cfg { out.new.cfg ≡ out.old.cfg }
    ensures value { let top = unsigned_abs stripe_y in
        FillsPart T.number stripe_x (min (stripe_x + stripe_w) crop_w)
        top (min (top + stripe_h) crop_h)
        (wiener fi.now.sequence.bit_depth coeffs
        (scene_in T.number crop_w crop_h top (top + stripe_h) cdeffed.now deblocked.now))
        out.old out.new }
{
    let bd = fi.sequence.bit_depth;
    let top = stripe_y.unsigned_abs();
    let columns = stripe_w.min(crop_w);
    let rows = stripe_h.min(crop_h);
    wiener_stripe(
        coeffs, bd, crop_w, crop_h, columns, rows, stripe_x, top, cdeffed, deblocked, out,
    );
}
