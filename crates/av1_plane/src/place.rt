ghost use Rattle.std.specs.Prelude.{◌≡◌, drop, ◌≤◌, ◌*◌, ◌+◌, ◌-◌, ◌^◌, ◌<◌, length, unsigned_abs, FitsSigned, pos, ◌+ℤ◌, ◌≤ℤ◌, ◌<ℤ◌};
ghost use Rattle.std.specs.Int.{w64};
ghost use Rattle.av1_plane.specs.Area.{IsWithin, IsNearRect, moved_rect};
ghost use Rattle.av1_plane.specs.Region.{spot};
ghost use Rattle.av1_plane.specs.Place.{stored_at, rect_start, from_origin, row_rest, IsInPlane};

use crate::plane::PlaneConfig;
use crate::region::Rect;
use crate::tile_rect::TileRect;

// The stored row of the rectangle's first sample.
#[tactic(auto, using(crate::proofs::Places::in_plane))]
fn stored_row(cfg: &PlaneConfig, rect: &Rect) -> usize
    requires { IsInPlane cfg.now rect.now }
    ensures value { result ≡ stored_at cfg.now.yorigin rect.now.y }
    ensures fits { result + rect.now.height ≤ cfg.now.alloc_height }
{
    let _rows = cfg.alloc_height;
    cfg.yorigin.strict_add_signed(rect.y)
}

// The stored column of the rectangle's first sample.
#[tactic(auto, using(crate::proofs::Places::in_plane))]
fn stored_column(cfg: &PlaneConfig, rect: &Rect) -> usize
    requires { IsInPlane cfg.now rect.now }
    ensures value { result ≡ stored_at cfg.now.xorigin rect.now.x }
    ensures fits { result + rect.now.width ≤ cfg.now.stride }
{
    let _stride = cfg.stride;
    cfg.xorigin.strict_add_signed(rect.x)
}

// Where the rectangle's first sample stands, if it has a row.
#[tactic(auto, using(crate::proofs::Places::in_plane))]
pub(crate) fn start_of(cfg: &PlaneConfig, rect: &Rect) -> usize
    requires inside { IsInPlane cfg.now rect.now }
    requires some_row { 0 < rect.now.height }
    requires stored { cfg.now.stride * cfg.now.alloc_height < 2 ^ 64 }
    ensures value { result ≡ rect_start cfg.now rect.now }
    ensures wide { rect.now.width ≤ cfg.now.stride }
    ensures fits { result + rect.now.height * cfg.now.stride + rect.now.width
        ≤ cfg.now.stride * cfg.now.alloc_height + cfg.now.stride }
{
    let row = stored_row(cfg, rect);
    let column = stored_column(cfg, rect);
    row * cfg.stride + column
}

// Where the rectangle's first sample stands, or 0 where it has no row.
#[tactic(auto, using(crate::proofs::Places::in_plane))]
pub(crate) fn first_place_of(cfg: &PlaneConfig, rect: &Rect) -> usize
    requires inside { IsInPlane cfg.now rect.now }
    requires stored { cfg.now.stride * cfg.now.alloc_height < 2 ^ 64 }
    ensures value { 0 < rect.now.height → result ≡ rect_start cfg.now rect.now }
    ensures wide { rect.now.width ≤ cfg.now.stride }
    ensures fits { result + rect.now.height * cfg.now.stride + rect.now.width
        ≤ cfg.now.stride * cfg.now.alloc_height + cfg.now.stride }
{
    if rect.height == 0 {
        return 0;
    }
    start_of(cfg, rect)
}

// The rectangle from the plane's origin to the end of the stored rows.
pub(crate) fn whole_rect(cfg: &PlaneConfig) -> Rect
    requires wide { cfg.now.xorigin ≤ cfg.now.stride }
    requires high { cfg.now.yorigin ≤ cfg.now.alloc_height }
    ensures value { result ≡ from_origin cfg.now }
    ensures inside { IsInPlane cfg.now result }
{
    Rect {
        x: 0,
        y: 0,
        width: cfg.stride - cfg.xorigin,
        height: cfg.alloc_height - cfg.yorigin,
    }
}

// The samples from the rectangle's first one on.
#[tactic(auto, using(crate::proofs::Places::in_plane))]
pub(crate) fn samples_from<'a, T>(samples: &'a [T], cfg: &PlaneConfig, rect: &Rect) -> &'a [T]
    requires inside { IsInPlane cfg.now rect.now }
    requires stored { length samples.now ≡ cfg.now.stride * cfg.now.alloc_height }
    ensures value { result.now ≡ drop (rect_start cfg.now rect.now) samples.now }
    ensures fits { rect.now.height * cfg.now.stride + rect.now.width
        ≤ length result.now + cfg.now.stride }
{
    let _length = samples.len();
    let row = stored_row(cfg, rect);
    let column = stored_column(cfg, rect);
    let below = tail(samples, row * cfg.stride);
    tail(below, column)
}

// The samples of a region from the first one of a part on.
pub(crate) fn samples_of_part<'a, T>(
    samples: &'a [T],
    step: usize,
    whole: &Rect,
    part: &Rect,
) -> &'a [T]
    requires wide { whole.now.width ≤ step }
    requires stored { whole.now.height * step + whole.now.width ≤ length samples.now + step }
    requires some_row { 0 < whole.now.height }
    requires inside { IsWithin part.now whole.now }
    ensures value { result.now
        ≡ drop (unsigned_abs part.now.y * step + unsigned_abs part.now.x) samples.now }
    ensures fits { part.now.height * step + part.now.width ≤ length result.now + step }
    ensures narrow { part.now.width ≤ step }
{
    let column = part.x.unsigned_abs();
    let row = part.y.unsigned_abs();
    let below = rows_from(samples, step, row);
    tail(below, column)
}

// Where the first sample of a part of a region for writing stands, if it has a row, in a vector of
// `count` samples.
pub(crate) fn part_place(
    start: usize,
    step: usize,
    count: usize,
    whole: &Rect,
    part: &Rect,
) -> usize
    requires wide { whole.now.width ≤ step }
    requires stored { start + whole.now.height * step + whole.now.width ≤ count + step }
    requires some_row { 0 < whole.now.height }
    requires inside { IsWithin part.now whole.now }
    ensures value { 0 < part.now.height
        → result ≡ spot start step (unsigned_abs part.now.x) (unsigned_abs part.now.y) }
    ensures fits { result + part.now.height * step + part.now.width ≤ count + step }
    ensures narrow { part.now.width ≤ step }
{
    if part.height == 0 {
        return start;
    }
    let column = part.x.unsigned_abs();
    let row = part.y.unsigned_abs();
    start + row * step + column
}

// The samples from a row on; none past the end.
fn rows_from<T>(samples: &[T], step: usize, row: usize) -> &[T]
    ensures { result.now ≡ drop (row * step) samples.now }
{
    let _length = samples.len();
    match row.checked_mul(step) {
        Some(start) => tail(samples, start),
        None => &[],
    }
}

// A sum of signed numbers.
pub(crate) fn sum(a: isize, b: isize) -> isize
    requires { FitsSigned w64 (a +ℤ b) }
    ensures { result ≡ a +ℤ b }
{
    a + b
}

// The rectangle `part`, which counts from the start of `whole`, in the coordinates of `whole`.
#[tactic(auto, using(crate::proofs::Places::signed))]
pub(crate) fn joined(whole: &Rect, part: &Rect) -> Rect
    requires near { IsNearRect whole.now }
    requires inside { IsWithin part.now whole.now }
    requires wide { whole.now.width ≤ 2 ^ 32 }
    requires high { whole.now.height ≤ 2 ^ 32 }
    ensures { result ≡ moved_rect whole.now part.now }
{
    let x = sum(whole.x, part.x);
    let y = sum(whole.y, part.y);
    Rect {
        x,
        y,
        width: part.width,
        height: part.height,
    }
}

// A rectangle that starts at no negative place as one of a tile.
pub(crate) fn tile_rect_of(rect: &Rect) -> TileRect
    requires left { pos 0 ≤ℤ rect.now.x }
    requires top { pos 0 ≤ℤ rect.now.y }
    ensures x { result.x ≡ unsigned_abs rect.now.x }
    ensures y { result.y ≡ unsigned_abs rect.now.y }
{
    TileRect {
        x: rect.x.unsigned_abs(),
        y: rect.y.unsigned_abs(),
        width: rect.width,
        height: rect.height,
    }
}

// The samples from place `start` on; none past the end.
pub(crate) fn tail<T>(samples: &[T], start: usize) -> &[T]
    ensures { result.now ≡ drop start samples.now }
{
    if start < samples.len() {
        &samples[start..]
    } else {
        &[]
    }
}

// The stored column or row of a place from an origin.
pub(crate) fn stored_place(origin: usize, place: isize, limit: usize) -> usize
    requires low { pos 0 ≤ℤ (pos origin +ℤ place) }
    requires high { (pos origin +ℤ place) <ℤ pos limit }
    ensures value { result ≡ stored_at origin place }
    ensures inside { result < limit }
{
    origin.strict_add_signed(place)
}

// A stored row from a column to its end.
#[tactic(auto, using(crate::proofs::Places::in_plane))]
pub(crate) fn rest_of_row<'a, T>(
    samples: &'a [T],
    cfg: &PlaneConfig,
    row: usize,
    column: usize,
) -> &'a [T]
    requires stored { length samples.now ≡ cfg.now.stride * cfg.now.alloc_height }
    requires row { row < cfg.now.alloc_height }
    requires column { column ≤ cfg.now.stride }
    ensures { result.now ≡ row_rest cfg.now samples.now row column }
{
    let _length = samples.len();
    let start = row * cfg.stride + column;
    &samples[start..start + (cfg.stride - column)]
}

// The samples from place `start` on, for writing; none past the end.
pub(crate) fn tail_mut<T>(samples: &mut [T], start: usize) -> &mut [T]
    ensures { result.now ≡ drop start samples.old }
{
    let from = start.min(samples.len());
    &mut samples[from..]
}
