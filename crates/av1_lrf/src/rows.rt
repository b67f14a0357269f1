//! The rows that a stripe's filters read.
ghost use Rattle.std.specs.Prelude.{◌≡◌, ◌+◌, ◌<◌, ◌≤◌, ℕ, length, map};
ghost use Rattle.av1_plane.specs.Numbers.{Below};
ghost use Rattle.av1_lrf.specs.Rows.{sample, pixel, nearest_in_stripe, in_stripe, picture_of, HasShape, HasStripePicture};
ghost use Rattle.av1_lrf.specs.Taps.{scene_by, CanLook};
ghost use Rattle.av1_lrf.specs.Padded.{visible_row, stripe_row};

use av1_plane::{Pixel, Plane};

/// The sides of a picture, and the rows of a stripe.
#[derive(Clone, Copy)]
pub struct Extent {
    pub width: usize,
    pub height: usize,
    pub start: usize,
    pub stop: usize,
}

// Row `y` of the visible part of a plane.
fn visible_row<T: Pixel>(p: &Plane<T>, width: usize, height: usize, y: usize) -> &[T]
    requires shape { HasShape width height p.now }
    requires y { y < height }
    ensures row { result.now ≡ visible_row p.now width y }
    ensures long { length result.now ≡ width }
    ensures value { (x : ℕ) → x < width →
        sample (map T.number result.now) x ≡ pixel (picture_of T.number width height p.now) x y }
    ensures range { (bound : ℕ) → HasStripePicture T.number bound width height p.now →
        Below bound (map T.number result.now) }
{
    let _rows = p.cfg.height;
    &p.row(y as isize)[..width]
}

/// Row `y` as a stripe reads it, where `y` counts from 3 above the picture.
#[tactic(auto, unfolding(crate::specs::Rows::in_stripe))]
pub fn source_row<'a, T: Pixel>(
    cdeffed: &'a Plane<T>,
    deblocked: &'a Plane<T>,
    e: Extent,
    y: usize,
) -> &'a [T]
    requires { CanLook e cdeffed.now deblocked.now }
    ensures row { result.now ≡ stripe_row cdeffed.now deblocked.now e y }
    ensures long { length result.now ≡ e.width }
    ensures value { (x : ℕ) → x < e.width → sample (map T.number result.now) x
        ≡ in_stripe (scene_by T.number e cdeffed.now deblocked.now) x
        (nearest_in_stripe e.height y) }
    ensures range { (bound : ℕ) → HasStripePicture T.number bound e.width e.height cdeffed.now →
        HasStripePicture T.number bound e.width e.height deblocked.now →
        Below bound (map T.number result.now) }
{
    let width = e.width;
    let height = e.height;
    let start = e.start;
    let stop = e.stop;
    let at = (y.max(3) - 3).min(height - 1);
    if at < start {
        visible_row(deblocked, width, height, at.max(start.max(2) - 2))
    } else if at < stop {
        visible_row(cdeffed, width, height, at)
    } else {
        visible_row(deblocked, width, height, at.min(stop + 1))
    }
}
