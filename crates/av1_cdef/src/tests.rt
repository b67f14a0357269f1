ghost use Rattle.std.specs.Prelude.{◌≡◌, ◌*◌, ◌≤◌, All, pos, map, IfOk};
ghost use Rattle.av1_plane.specs.Numbers.{Below};
ghost use Rattle.av1_plane.specs.Layout.{plane_layout, frame_layout};
ghost use Rattle.av1_plane.specs.declared.sampling.ChromaSampling.TheVariants.{Cs400};
ghost use Rattle.av1_tiling.specs.Views.{view_frame};
ghost use Rattle.av1_tiling.specs.Frames.{IsFrame, IsInputFor, layouts};

use super::{
    CDEF_HAVE_LEFT, CDEF_HAVE_TOP, CDEF_VERY_LARGE, adjust_strength, cdef_analyze_superblock,
    cdef_analyze_superblock_range, cdef_filter_tile, cdef_find_dir, constrain, first_max_element,
    pad_into_tmp16,
};
use av1_block::{AsTileBlocks, Block, FrameBlocks};
use av1_plane::{
    AsRegion, ChromaSampling, Frame, FrameAlloc, Plane, PlaneOffset, SuperBlockOffset, Three,
    TileMut, TileSuperBlockOffset,
};
use av1_tiling::{FrameInvariants, FrameType, ReferenceFramesSet, Sequence, TilingInfo};
use std::alloc::Global;
use std::test::Fail;

#[test]
fn first_of_the_greatest(rt: HostRuntime) {
    for (elements, wanted) in [
        ([-1, -1, 1, 2, 3, 4, 6, 6], (6, 6)),
        ([-1, -1, 1, 2, 3, 4, 7, 6], (6, 7)),
        ([0; 8], (0, 0)),
    ] {
        assert_eq!(rt; first_max_element(&elements), wanted);
    }
}

#[test]
fn differences_at_a_threshold(rt: HostRuntime) {
    assert_eq!(rt; constrain(10, 4, 5), 3);
    assert_eq!(rt; constrain(-10, 4, 5), -3);
    assert_eq!(rt; constrain(40, 4, 5), 0);
    assert_eq!(rt; constrain(10, 0, 5), 0);
}

#[test]
fn strengths_by_variance(rt: HostRuntime) {
    assert_eq!(rt; adjust_strength(4, 64), 1);
    assert_eq!(rt; adjust_strength(4, 0), 0);
}

// Writes 255 into every second row of 8 samples.
fn fill_stripes(samples: &mut [u8]) {
    for i in 0..samples.len() {
        samples[i] = if i / 8 % 2 == 1 { 255 } else { 0 };
    }
}

// The range of bytes.
fn see(samples: &[u8])
    ensures { Below 256 (map pos samples.now) }
{}

// A plane of 8 by 8 samples without a margin.
fn small_plane(alloc: Global) -> Result<Plane<u8>, Fail>
    ensures { IfOk result (λ p. p.cfg ≡ plane_layout 8 8 0 0 0 0) }
{
    let mut plane: Plane<u8> = Plane::new(alloc, 8, 8, 0, 0, 0, 0)?;
    fill_stripes(plane.samples.as_mut_slice());
    Ok(plane)
}

#[test]
fn direction_of_stripes(rt: HostRuntime) -> Result<(), Fail> {
    let plane = small_plane(rt.alloc())?;
    see(plane.samples.as_slice());
    let mut variance = 0;
    let block = plane.slice(PlaneOffset { x: 0, y: 0 });
    assert_eq!(rt; cdef_find_dir(&block, &mut variance, 0), 2);
    assert_eq!(rt; variance, 853453);
    Ok(())
}

#[test]
fn cells_of_a_block(rt: HostRuntime) -> Result<(), Fail> {
    let plane = small_plane(rt.alloc())?;
    let block = plane.slice(PlaneOffset { x: 4, y: 4 });
    let mut cells = [0; 64];
    pad_into_tmp16(&mut cells, 8, &block, 4, 4, CDEF_HAVE_LEFT | CDEF_HAVE_TOP);
    for (i, wanted) in [
        (0, 0),
        (5, 0),
        (6, CDEF_VERY_LARGE),
        (8, 255),
        (16, 0),
        (24, 255),
        (48, CDEF_VERY_LARGE),
        (63, CDEF_VERY_LARGE),
    ] {
        assert_eq!(rt; cells.get(i), Some(&wanted), "cell {i}");
    }
    Ok(())
}

// A key frame of 8 by 8 without chroma, whose luma is filtered with the secondary strength 4.
fn small_frame(alloc: Global) -> Result<FrameInvariants<u8>, Fail>
    ensures frame { IfOk result (λ fi. IsFrame 256 fi) }
    ensures sides { IfOk result (λ fi. (fi.width ≡ 8) × (fi.height ≡ 8)) }
    ensures sampling { IfOk result (λ fi. fi.sequence.chroma_sampling ≡ Cs400) }
    ensures depth { IfOk result (λ fi. fi.sequence.bit_depth ≡ 8) }
    ensures sizes { IfOk result (λ fi. (fi.w_in_b ≡ 2) × (fi.h_in_b ≡ 2)) }
{
    let Ok(tiling) = TilingInfo::from_target_tiles(6, 8, 8, 25, 1, 0, 0, false) else {
        return Err(Fail::from("no tiling"));
    };
    let sequence = Sequence {
        bit_depth: 8,
        chroma_sampling: ChromaSampling::Cs400,
        use_128x128_superblock: false,
        enable_cdef: true,
        enable_restoration: false,
        enable_large_lru: false,
        tiling,
    };
    Ok(FrameInvariants {
        sequence,
        width: 8,
        height: 8,
        sb_width: 1,
        sb_height: 1,
        w_in_b: 2,
        h_in_b: 2,
        frame_type: FrameType::KEY,
        base_q_idx: 100,
        ac_quantizer: 100,
        cdef_damping: 3,
        cdef_y_strengths: [3, 0, 0, 0, 0, 0, 0, 0],
        cdef_uv_strengths: [0; 8],
        fast_deblock: true,
        disable_frame_end_update_cdf: false,
        order_hint: 0,
        render_width: 8,
        render_height: 8,
        refresh_frame_flags: 0,
        rec_buffer: ReferenceFramesSet::new(alloc)?,
    })
}

// Where the sample at row 4, column 4 is stored in rows of 184, past a margin of 88.
const SPOT: usize = 92 * 184 + 92;

// Samples 100, but 102 at one place.
fn fill_spot(samples: &mut [u8]) {
    for i in 0..samples.len() {
        samples[i] = if i == SPOT { 102 } else { 100 };
    }
}

// Fills all of a plane, its margin too.
fn fill_plane(plane: &mut Plane<u8>)
    ensures { plane.new.cfg ≡ plane.old.cfg }
{
    fill_spot(plane.samples.as_mut_slice());
}

// The input of a small frame: all samples are 100, but 102 at row 4, column 4.
fn small_input(alloc: Global, fi: &FrameInvariants<u8>) -> Result<Frame<u8>, Fail>
    requires sides { (fi.now.width ≡ 8) × (fi.now.height ≡ 8) }
    requires sampling { fi.now.sequence.chroma_sampling ≡ Cs400 }
    requires depth { fi.now.sequence.bit_depth ≡ 8 }
    ensures input { IfOk result (λ f. IsInputFor fi.now (view_frame pos f)) }
    ensures layout { IfOk result (λ f. layouts (view_frame pos f) ≡ frame_layout 8 8 Cs400) }
{
    let mut input: Frame<u8> = Frame::new(alloc, 8, 8, ChromaSampling::Cs400)?;
    fill_plane(&mut input.planes.y);
    see(input.planes.y.samples.as_slice());
    Ok(input)
}

// Blocks that are all skipped or all not, with the first index of strengths.
fn fill_blocks(entries: &mut [Block], skip: bool)
    ensures { All (λ b. b.cdef_index ≤ 7) entries.new }
{
    for i in 0..entries.len() {
        let mut block = Block::default();
        block.skip = skip;
        entries[i] = block;
    }
}

// The blocks of a small frame.
fn small_blocks(alloc: Global, skip: bool) -> Result<FrameBlocks, Fail>
    ensures sides { IfOk result (λ b. (b.cols ≡ 2) × (b.rows ≡ 2)) }
    ensures indices { IfOk result (λ b. All (λ k. k.cdef_index ≤ 7) b.entries) }
{
    let mut blocks = FrameBlocks::new(alloc, 2, 2)?;
    fill_blocks(blocks.entries_mut(), skip);
    Ok(blocks)
}

// Filters the input of a small frame into the planes of its copy.
fn filter_small(
    fi: &FrameInvariants<u8>,
    input: &Frame<u8>,
    blocks: &FrameBlocks,
    y: &mut Plane<u8>,
    u: &mut Plane<u8>,
    v: &mut Plane<u8>,
)
    requires frame { IsFrame 256 fi.now }
    requires sizes { (fi.now.w_in_b ≡ 2) × (fi.now.h_in_b ≡ 2) }
    requires input { IsInputFor fi.now (view_frame pos input.now) }
    requires layout { layouts (view_frame pos input.now) ≡ frame_layout 8 8 Cs400 }
    requires output { y.old.cfg ≡ plane_layout 8 8 0 0 88 88 }
    requires blocks { (blocks.now.cols ≡ 2) × (blocks.now.rows ≡ 2) }
    requires indices { All (λ b. b.cdef_index ≤ 7) blocks.now.entries }
{
    let y = y.as_region_mut();
    let u = u.as_region_mut();
    let v = v.as_region_mut();
    let mut tile = TileMut {
        planes: Three { y, u, v },
    };
    let table = blocks.as_tile_blocks();
    cdef_filter_tile(fi, input, &table, &mut tile);
}

// A small frame, filtered.
fn filtered_frame(alloc: Global, skip: bool) -> Result<Frame<u8>, Fail> {
    let fi = small_frame(alloc)?;
    let input = small_input(alloc, &fi)?;
    let blocks = small_blocks(alloc, skip)?;
    let mut output = input.try_clone(alloc)?;
    let Three { y, u, v } = &mut output.planes;
    filter_small(&fi, &input, &blocks, y, u, v);
    Ok(output)
}

#[test]
fn one_sample_of_a_frame(rt: HostRuntime) -> Result<(), Fail> {
    let output = filtered_frame(rt.alloc(), false)?;
    assert!(rt; output.planes.y.samples.iter().all(|sample| *sample == 100));
    Ok(())
}

#[test]
fn a_skipped_block_stays(rt: HostRuntime) -> Result<(), Fail> {
    let output = filtered_frame(rt.alloc(), true)?;
    assert_eq!(rt; output.planes.y.samples.get(SPOT), Some(&102));
    Ok(())
}

#[test]
fn directions_of_a_range(rt: HostRuntime) -> Result<(), Fail> {
    let alloc = rt.alloc();
    let fi = small_frame(alloc)?;
    let input = small_input(alloc, &fi)?;
    let blocks = small_blocks(alloc, false)?;
    let view = blocks.as_tile_blocks();
    let first = TileSuperBlockOffset(SuperBlockOffset { x: 0, y: 0 });
    let alone = cdef_analyze_superblock(&fi, &input, &view, first);
    let range = cdef_analyze_superblock_range(&rt, alloc, &fi, &input, &view, 1, 1)?;
    assert_eq!(rt; range.len(), 1);
    assert_eq!(rt; range[0].dir(0, 0), alone.dir(0, 0));
    assert_eq!(rt; range[0].var(0, 0), alone.var(0, 0));
    Ok(())
}
