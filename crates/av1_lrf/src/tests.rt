//! Worked rows: what stripes read, prefix sums, a flat picture and a step.
ghost use Rattle.std.specs.Prelude.{◌≡◌, ◌<◌, ◌≤◌, All, length, map, pos, IfOk};
ghost use Rattle.av1_plane.specs.Layout.{plane_layout, frame_layout};
ghost use Rattle.av1_plane.specs.Numbers.{Below};
ghost use Rattle.av1_plane.specs.declared.sampling.ChromaSampling.TheVariants.{Cs400};
ghost use Rattle.av1_tiling.specs.Frames.{IsFrame, IsInputFor};
ghost use Rattle.av1_tiling.specs.Restoration.{units_in, AreFrameUnits, IsUnit};
ghost use Rattle.av1_tiling.specs.UnitSizes.{AreUnitsFor};
ghost use Rattle.av1_tiling.specs.Views.{view_frame};

use super::*;
use av1_block::{RestorationFilter, RestorationUnit};
use av1_plane::{AsRegion, ChromaSampling, Frame, FrameAlloc, OutOfMemory, Plane, PlaneOffset};
use av1_tiling::{
    FrameInvariants, FrameType, ReferenceFramesSet, RestorationState, Sequence, TilingInfo,
};
use std::alloc::Global;
use std::test::Fail;

// Writes the numbers from `first` on, each `step` above the one before.
fn number(samples: &mut [u8], first: u8, step: u8) {
    let mut value = first;
    for sample in samples.iter_mut() {
        *sample = value;
        value = value.wrapping_add(step);
    }
}

// A plane without margin whose samples count from `first` in steps.
fn plane(
    alloc: Global,
    width: usize,
    height: usize,
    first: u8,
    step: u8,
) -> Result<Plane<u8>, OutOfMemory>
    requires width { width ≤ 256 }
    requires height { height ≤ 256 }
    ensures { IfOk result (λ made. made.cfg ≡ plane_layout width height 0 0 0 0) }
{
    let mut made = Plane::new(alloc, width, height, 0, 0, 0, 0)?;
    number(made.samples.as_mut_slice(), first, step);
    Ok(made)
}

#[test]
fn a_row_goes_on_past_its_ends(rt: HostRuntime) {
    let mut wanted = [1, 1, 1, 2, 3, 3, 3].iter();
    for sample in HorzPaddedIter::new(&[1, 2, 3], -2, 7) {
        assert_eq!(rt; Some(*sample), wanted.next().copied());
    }
    assert_eq!(rt; wanted.next().copied(), None);
}

// The lower stripe of 72 rows begins at row 56. The deblocked samples have the number of their
// row, the enhanced ones 100 more.
#[test]
fn a_stripe_reads_two_deblocked_rows(rt: HostRuntime) -> Result<(), Fail> {
    let deblocked = plane(rt.alloc(), 1, 72, 0, 1)?;
    let cdeffed = plane(rt.alloc(), 1, 72, 100, 1)?;
    let mut wanted = [
        54, 54, 55, 156, 157, 158, 159, 160, 161, 162, 163, 164, 165, 166, 167, 168, 169, 170, 171,
        171, 171, 171,
    ]
    .iter();
    for row in VertPaddedIter::new(&cdeffed, &deblocked, 56, 16, 1, 72) {
        assert_eq!(rt; row.first().copied(), wanted.next().copied());
    }
    assert_eq!(rt; wanted.next().copied(), None);
    Ok(())
}

// One sample of 5: its margin repeats it, so a sum is 5 for each column and row.
#[test]
fn sums_of_one_sample(rt: HostRuntime) -> Result<(), Fail> {
    let samples = plane(rt.alloc(), 1, 1, 5, 0)?;
    let mut buffer = IntegralImageBuffer::zeroed(rt.alloc(), 64)?;
    assert_eq!(rt; buffer.integral_image.len(), 64);
    assert_eq!(rt; buffer.sq_integral_image.len(), 64);
    let slice = samples.slice(PlaneOffset { x: 0, y: 0 });
    setup_integral_image(&mut buffer, 8, 1, 1, 1, 1, &slice, &slice);
    assert_eq!(rt; buffer.integral_image.get(63).copied(), Some(245));
    assert_eq!(rt; buffer.sq_integral_image.get(63).copied(), Some(1225));
    assert_eq!(rt; buffer.integral_image.get(26).copied(), Some(30));
    Ok(())
}

// A key frame of 8 by 8 without chroma, which is restored.
fn small_frame(alloc: Global) -> Result<FrameInvariants<u8>, Fail>
    ensures frame { IfOk result (λ fi. IsFrame 256 fi) }
    ensures sides { IfOk result (λ fi. (fi.width ≡ 8) × (fi.height ≡ 8)) }
    ensures sampling { IfOk result (λ fi. fi.sequence.chroma_sampling ≡ Cs400) }
    ensures depth { IfOk result (λ fi. fi.sequence.bit_depth ≡ 8) }
{
    let Ok(tiling) = TilingInfo::from_target_tiles(6, 8, 8, 25, 1, 0, 0, false) else {
        return Err(Fail::from("no tiling"));
    };
    let sequence = Sequence {
        bit_depth: 8,
        chroma_sampling: ChromaSampling::Cs400,
        use_128x128_superblock: false,
        enable_cdef: false,
        enable_restoration: true,
        enable_large_lru: false,
        tiling,
    };
    Ok(FrameInvariants {
        sequence,
        width: 8,
        height: 8,
        sb_width: 1,
        sb_height: 1,
        w_in_b: 2,
        h_in_b: 2,
        frame_type: FrameType::KEY,
        base_q_idx: 100,
        ac_quantizer: 100,
        cdef_damping: 3,
        cdef_y_strengths: [0; 8],
        cdef_uv_strengths: [0; 8],
        fast_deblock: true,
        disable_frame_end_update_cdf: false,
        order_hint: 0,
        render_width: 8,
        render_height: 8,
        refresh_frame_flags: 0,
        rec_buffer: ReferenceFramesSet::new(alloc)?,
    })
}

// All samples 100 and the buffer's sums over them: the filter makes 100 of each.
#[test]
fn a_flat_picture_stays(rt: HostRuntime) -> Result<(), Fail> {
    let alloc = rt.alloc();
    let fi = small_frame(alloc)?;
    let samples = plane(alloc, 8, 8, 100, 0)?;
    let mut out = plane(alloc, 8, 8, 0, 0)?;
    let mut buffer = IntegralImageBuffer::zeroed(alloc, 15 * 15)?;
    let slice = samples.slice(PlaneOffset { x: 0, y: 0 });
    setup_integral_image(&mut buffer, 15, 8, 8, 8, 8, &slice, &slice);
    let mut region = out.as_region_mut();
    sgrproj_stripe_filter(0, [-32, 31], &fi, &buffer, 15, &slice, &mut region);
    assert!(rt; out.samples.iter().all(|sample| *sample == 100));
    Ok(())
}

// The coefficients that leave the sums down as they are. Across, the taps beside the middle are 15,
// -7 and 3 of 128.
const ACROSS_ALONE: [[i8; 3]; 2] = [[0, 0, 0], [3, -7, 15]];

// Where the first row of a frame of 8 by 8 is stored in rows of 184, past a margin of 88.
const FIRST_ROW: usize = 88 * 184 + 88;

// The range of bytes.
fn see(samples: &[u8])
    ensures { Below 256 (map pos samples.now) }
{}

// Rows of 184 samples, which step from 100 to 108 in the fourth column past a margin of 88.
fn fill_steps(plane: &mut Plane<u8>)
    ensures { plane.new.cfg ≡ plane.old.cfg }
{
    for (i, sample) in plane.samples.iter_mut().enumerate() {
        *sample = if i % 184 < 91 { 100 } else { 108 };
    }
}

// The input of a small frame: each row is 100 three times, then 108.
fn small_input(alloc: Global, fi: &FrameInvariants<u8>) -> Result<Frame<u8>, Fail>
    requires sides { (fi.now.width ≡ 8) × (fi.now.height ≡ 8) }
    requires sampling { fi.now.sequence.chroma_sampling ≡ Cs400 }
    requires depth { fi.now.sequence.bit_depth ≡ 8 }
    ensures { IfOk result (λ f. IsInputFor fi.now (view_frame pos f)) }
{
    let mut input: Frame<u8> = Frame::new(alloc, 8, 8, ChromaSampling::Cs400)?;
    fill_steps(&mut input.planes.y);
    see(input.planes.y.samples.as_slice());
    Ok(input)
}

// The same unit at all places.
fn fill_units(units: &mut [RestorationUnit], unit: RestorationUnit)
    requires { IsUnit unit }
    ensures { All IsUnit units.new }
{
    for i in 0..units.len() {
        units[i] = unit;
    }
}

// The units of a small frame, of which luma's filters across.
fn small_units(
    alloc: Global,
    fi: &FrameInvariants<u8>,
    input: &Frame<u8>,
) -> Result<RestorationState, Fail>
    requires frame { IsFrame 256 fi.now }
    requires input { IsInputFor fi.now (view_frame pos input.now) }
    ensures state { IfOk result (λ s. AreUnitsFor fi.now (units_in s)) }
    ensures units { IfOk result (λ s. AreFrameUnits (units_in s)) }
{
    let mut state = RestorationState::new(alloc, fi, input)?;
    let filter = RestorationFilter::Wiener {
        coeffs: ACROSS_ALONE,
    };
    fill_units(
        state.planes.y.units.entries_mut(),
        RestorationUnit { filter },
    );
    Ok(state)
}

// Beside a step of 8 a sample moves by 8 * (15 - 7 + 3) / 128, which is nearly 1; the ones further
// off move by less than a half.
#[test]
fn a_step_is_sharpened(rt: HostRuntime) -> Result<(), Fail> {
    let alloc = rt.alloc();
    let fi = small_frame(alloc)?;
    let input = small_input(alloc, &fi)?;
    let state = small_units(alloc, &fi, &input)?;
    let mut out = input.try_clone(alloc)?;
    lrf_filter_frame(alloc, &state, &mut out, &input, &fi)?;
    let row = out.planes.y.samples.get(FIRST_ROW..FIRST_ROW + 8);
    assert_eq!(rt;
        row,
        Some([100, 100, 101, 107, 108, 108, 108, 108].as_slice())
    );
    Ok(())
}

// A stripe that is the whole picture becomes what the frame does.
#[test]
fn a_stripe_is_sharpened(rt: HostRuntime) -> Result<(), Fail> {
    let alloc = rt.alloc();
    let fi = small_frame(alloc)?;
    let input = small_input(alloc, &fi)?;
    let mut out = input.try_clone(alloc)?;
    let luma = &input.planes.y;
    wiener_stripe_filter(
        ACROSS_ALONE,
        &fi,
        8,
        8,
        8,
        8,
        0,
        0,
        luma,
        luma,
        &mut out.planes.y,
    );
    let row = out.planes.y.samples.get(FIRST_ROW..FIRST_ROW + 8);
    assert_eq!(rt;
        row,
        Some([100, 100, 101, 107, 108, 108, 108, 108].as_slice())
    );
    Ok(())
}
