ghost use Rattle.std.specs.Prelude.{◌≡◌, ◌+◌, ◌*◌, ◌%◌, ◌<◌, ◌≤◌, ◌^◌, ◌==◌, ◌≤ℤ◌, ℕ, pos, length, replicate, IfOk, unsigned_abs};
ghost use Rattle.av1_plane.specs.Planes.{plane_numbers};
ghost use Rattle.av1_plane.specs.Region.{first_place, row_step, area, samples_under, numbers_under, IsStored, IsSamePart};
ghost use Rattle.av1_tiling.specs.Frames.{FitsDepth};
ghost use Rattle.av1_lrf.specs.Rows.{sample, scene_in, HasShape};
ghost use Rattle.av1_lrf.specs.Integral.{HasCornerSums, source_from};
ghost use Rattle.av1_lrf.specs.Runs.{HasArea, HasRowRoom};
ghost use Rattle.av1_lrf.specs.Guided.{Table, squared, guided};
ghost use Rattle.av1_lrf.specs.Guides.{HasTable};
ghost use Rattle.av1_lrf.specs.Written.{FillsRegion, slice_width, slice_height, slice_table, guided_slice, HoldsRectangle, HoldsSums};

use crate::guided::guided_stripe;
use crate::integral::fill_sums;
use crate::plan::plan_of;
use crate::rows::Extent;
use av1_plane::{OutOfMemory, Pixel, PlaneRegionMut, PlaneSlice};
use av1_tiling::FrameInvariants;
use std::alloc::Global;

/// The prefix sums of what a stripe reads, and of its squares.
#[derive(Drop)]
pub struct IntegralImageBuffer {
    pub integral_image: Vec<u32>,
    pub sq_integral_image: Vec<u32>,
}

/// Filters the samples of a region by a unit's self-guided filter.
///
/// The buffer has the prefix sums of a table, which has three columns and rows more than the
/// region on each side.
pub fn sgrproj_stripe_filter<T: Pixel, U: Pixel>(
    set: u8,
    xqd: [i8; 2],
    fi: &FrameInvariants<T>,
    buffer: &IntegralImageBuffer,
    stride: usize,
    cdeffed: &PlaneSlice<'_, U>,
    out: &mut PlaneRegionMut<'_, U>,
)
    requires set { set < 16 }
    requires depth { FitsDepth U.limit fi.now.sequence.bit_depth }
    requires stored { IsStored out.old }
    requires wide { (area out.old).width ≤ 2 ^ 32 }
    requires high { (area out.old).height ≤ 2 ^ 32 }
    requires cells { HoldsSums buffer.now.integral_image.items stride (area out.old) }
    requires squares { HoldsSums buffer.now.sq_integral_image.items stride (area out.old) }
    requires source { HoldsRectangle cdeffed.now (area out.old) }
    ensures part { IsSamePart out.old out.new }
    ensures value { (f : Table) → HasTable fi.now.sequence.bit_depth f stride
        (area out.old).width (area out.old).height
        buffer.now.integral_image.items buffer.now.sq_integral_image.items →
        FillsRegion U.number
        (guided_slice U.number fi.now.sequence.bit_depth set xqd f cdeffed.now) out.old out.new }
{
    let plan = plan_of(set, xqd, fi.sequence.bit_depth);
    let width = out.rect().width;
    let height = out.rect().height;
    let origin = out.first_row();
    let step = out.between_rows();
    let from = cdeffed.place();
    let rows = out.store_mut();
    guided_stripe::<U, 4356, 256>(
        rows,
        origin,
        step,
        width,
        height,
        cdeffed.plane.samples.as_slice(),
        from,
        cdeffed.plane.cfg.stride,
        buffer.integral_image.as_slice(),
        buffer.sq_integral_image.as_slice(),
        stride,
        plan,
    );
}

/// Fills the buffer with the prefix sums of what a stripe reads, and of its squares: of
/// `stripe_w` by `stripe_h` samples and three more on each side.
///
/// The stripe begins where `cdeffed` does, and the picture ends `crop_w` columns and `crop_h`
/// rows on.
pub fn setup_integral_image<T: Pixel>(
    buffer: &mut IntegralImageBuffer,
    stride: usize,
    crop_w: usize,
    crop_h: usize,
    stripe_w: usize,
    stripe_h: usize,
    cdeffed: &PlaneSlice<'_, T>,
    deblocked: &PlaneSlice<'_, T>,
)
    requires left { pos 0 ≤ℤ cdeffed.now.x }
    requires top { pos 0 ≤ℤ cdeffed.now.y }
    requires enhanced { HasShape (slice_width cdeffed.now crop_w) (slice_height cdeffed.now crop_h)
        cdeffed.now.plane.now }
    requires deblocked { HasShape (slice_width cdeffed.now crop_w) (slice_height cdeffed.now crop_h)
        deblocked.now.plane.now }
    requires wide { stripe_w ≤ crop_w }
    requires high { stripe_h ≤ crop_h }
    requires stride { stripe_w + 7 ≤ stride }
    requires cells { stride * (stripe_h + 7) ≤ length buffer.old.integral_image.items }
    requires squares { stride * (stripe_h + 7) ≤ length buffer.old.sq_integral_image.items }
    ensures sums { HasCornerSums
        (slice_table T.number crop_w crop_h stripe_h cdeffed.now deblocked.now)
        stride (stripe_w + 6) (stripe_h + 6) buffer.new.integral_image.items }
    ensures square_sums { HasCornerSums
        (squared (slice_table T.number crop_w crop_h stripe_h cdeffed.now deblocked.now))
        stride (stripe_w + 6) (stripe_h + 6) buffer.new.sq_integral_image.items }
    ensures long { length buffer.new.integral_image.items ≡ length buffer.old.integral_image.items }
    ensures long_squares { length buffer.new.sq_integral_image.items ≡ length
        buffer.old.sq_integral_image.items }
{
    let x = cdeffed.x.unsigned_abs();
    let y = cdeffed.y.unsigned_abs();
    let e = Extent {
        width: x + crop_w,
        height: y + crop_h,
        start: y,
        stop: y + stripe_h,
    };
    fill_sums(
        buffer.integral_image.as_mut_slice(),
        stride,
        stripe_w + 6,
        stripe_h + 6,
        x,
        y,
        cdeffed.plane,
        deblocked.plane,
        e,
        false,
    );
    fill_sums(
        buffer.sq_integral_image.as_mut_slice(),
        stride,
        stripe_w + 6,
        stripe_h + 6,
        x,
        y,
        cdeffed.plane,
        deblocked.plane,
        e,
        true,
    );
}

// `count` numbers, all zero.
fn zeros(alloc: Global, count: usize) -> Result<Vec<u32>, OutOfMemory>
    ensures { IfOk result (λ v. v.items ≡ replicate count 0) }
{
    let mut numbers = Vec::with_capacity(alloc, count)?;
    while numbers.len() < count {
        numbers.push(0)?;
    }
    Ok(numbers)
}

impl IntegralImageBuffer {
    /// A buffer for `size` sums of either kind.
    pub fn zeroed(alloc: Global, size: usize) -> Result<IntegralImageBuffer, OutOfMemory>
        ensures { IfOk result (λ b. (b.integral_image.items ≡ replicate size 0) ×
            (b.sq_integral_image.items ≡ replicate size 0)) }
    {
        let integral_image = zeros(alloc, size)?;
        let sq_integral_image = zeros(alloc, size)?;
        Ok(IntegralImageBuffer {
            integral_image,
            sq_integral_image,
        })
    }
}
