ghost use Rattle.std.specs.Prelude.{◌≡◌, ◌<◌, ◌≤◌, ◌/◌, IfOk};
ghost use Rattle.std.specs.List.{AllZip};
ghost use Rattle.av1_plane.specs.declared.sampling.ChromaSampling.TheVariants.{Cs420};
ghost use Rattle.av1_plane.specs.Layout.{rounded};
ghost use Rattle.av1_plane.specs.Region.{IsStored, IsSamePart};
ghost use Rattle.av1_plane.specs.Tiles.{KeepsPlanes};
ghost use Rattle.av1_block.specs.Tables.{table_entries};
ghost use Rattle.av1_tiling.specs.Frames.{IsFrame, IsStateFor, IsTilingOf, views};
ghost use Rattle.av1_tiling.specs.Views.{View, SameShape};

use crate::tiler::cut_tiles;
use crate::{
    FrameInvariants, FrameState, FrameType, ReferenceFramesSet, Sequence, TileContextMut,
    TileStateMut, TilingInfo, put_back,
};
use av1_block::{Block, FrameBlocks, FrameMEStats, MotionVector, PredictionMode};
use av1_plane::{
    ChromaSampling, Frame, FrameAlloc, OutOfMemory, Plane, PlaneRegionMut, PlaneSuperBlockOffset,
    SuperBlockOffset, Three, TileMut,
};
use std::alloc::Global;
use std::sync::Arc;
use std::test::Fail;

mod units;
mod views;

fn is_shared<T: Send + Sync>(_value: &T) {}

// A key frame of 8 bits with these sides, in tiles of these logarithms.
fn key_frame(
    alloc: Global,
    width: usize,
    height: usize,
    tile_cols_log2: usize,
    tile_rows_log2: usize,
) -> Result<FrameInvariants<u8>, Fail>
    requires width { (2 ≤ width) × (width ≤ 65536) }
    requires height { (2 ≤ height) × (height ≤ 65536) }
    ensures frame { IfOk result (λ fi. IsFrame 256 fi) }
    ensures width { IfOk result (λ fi. fi.width ≡ width) }
    ensures height { IfOk result (λ fi. fi.height ≡ height) }
    ensures sampling { IfOk result (λ fi. fi.sequence.chroma_sampling ≡ Cs420) }
    ensures columns { IfOk result (λ fi. fi.w_in_b ≡ rounded width / 4) }
    ensures rows { IfOk result (λ fi. fi.h_in_b ≡ rounded height / 4) }
{
    let tiling = TilingInfo::from_target_tiles(
        6,
        width,
        height,
        25,
        1,
        tile_cols_log2,
        tile_rows_log2,
        false,
    );
    let Ok(tiling) = tiling else {
        return Err(Fail::from("no tiling"));
    };
    let sequence = Sequence {
        bit_depth: 8,
        chroma_sampling: ChromaSampling::Cs420,
        use_128x128_superblock: false,
        enable_cdef: false,
        enable_restoration: true,
        enable_large_lru: false,
        tiling,
    };
    Ok(FrameInvariants {
        sequence,
        width,
        height,
        sb_width: width.div_ceil(64),
        sb_height: height.div_ceil(64),
        w_in_b: width.next_multiple_of(8) / 4,
        h_in_b: height.next_multiple_of(8) / 4,
        frame_type: FrameType::KEY,
        base_q_idx: 100,
        ac_quantizer: 100,
        cdef_damping: 3,
        cdef_y_strengths: [0; 8],
        cdef_uv_strengths: [0; 8],
        fast_deblock: true,
        disable_frame_end_update_cdf: false,
        order_hint: 0,
        render_width: width as u32,
        render_height: height as u32,
        refresh_frame_flags: 0,
        rec_buffer: ReferenceFramesSet::new(alloc)?,
    })
}

// A frame of 160 by 144 in nine tiles.
fn nine_tiles(alloc: Global) -> Result<FrameInvariants<u8>, Fail>
    ensures frame { IfOk result (λ fi. IsFrame 256 fi) }
    ensures width { IfOk result (λ fi. fi.width ≡ 160) }
    ensures height { IfOk result (λ fi. fi.height ≡ 144) }
    ensures sampling { IfOk result (λ fi. fi.sequence.chroma_sampling ≡ Cs420) }
    ensures columns { IfOk result (λ fi. fi.w_in_b ≡ 40) }
    ensures rows { IfOk result (λ fi. fi.h_in_b ≡ 36) }
{
    key_frame(alloc, 160, 144, 10, 8)
}

// A state for a frame, whose input is all zeros.
fn blank_state(alloc: Global, fi: &FrameInvariants<u8>) -> Result<FrameState<u8>, OutOfMemory>
    requires frame { IsFrame 256 fi.now }
    requires sampling { fi.now.sequence.chroma_sampling ≡ Cs420 }
    ensures { IfOk result (λ fs. IsStateFor fi.now fs) }
{
    let input: Frame<u8> = Frame::new(alloc, fi.width, fi.height, ChromaSampling::Cs420)?;
    let half: Plane<u8> = Plane::new(alloc, 8, 8, 0, 0, 0, 0)?;
    let quarter: Plane<u8> = Plane::new(alloc, 4, 4, 0, 0, 0, 0)?;
    FrameState::with_source(
        alloc,
        fi,
        Arc::new(alloc, input)?,
        Arc::new(alloc, half)?,
        Arc::new(alloc, quarter)?,
    )
}

#[test]
fn state_starts_blank(rt: HostRuntime) -> Result<(), Fail> {
    let fs = blank_state(rt.alloc(), &nine_tiles(rt.alloc())?)?;
    assert_eq!(rt; fs.frame_me_stats.len(), 8);
    assert_eq!(rt; fs.max_tile_size_bytes, 0);
    assert!(rt; !fs.segmentation.enabled);
    Ok(())
}

// The state of its last tile.
fn last_tile(alloc: Global) -> Result<TileStateMut<u8>, Fail> {
    let fs = blank_state(alloc, &nine_tiles(alloc)?)?;
    let sbo = PlaneSuperBlockOffset(SuperBlockOffset { x: 2, y: 2 });
    Ok(TileStateMut::new(alloc, &fs, sbo, 6, 32, 16)?)
}

#[test]
fn last_tile_is_cut(rt: HostRuntime) -> Result<(), Fail> {
    let tile = last_tile(rt.alloc())?;
    assert_eq!(rt; (tile.sb_width, tile.sb_height), (1, 1));
    assert_eq!(rt; (tile.mi_width, tile.mi_height), (8, 4));
    let luma = tile.samples_rect(0);
    assert_eq!(rt;
        (luma.x, luma.y, luma.width, luma.height),
        (216, 216, 64, 64)
    );
    Ok(())
}

// Writes 7 into the first row, if there is one.
fn mark(region: &mut PlaneRegionMut<'_, u8>)
    requires { IsStored region.old }
    ensures { IsSamePart region.old region.new }
{
    if !region.is_null() {
        region.row_mut(0).fill(7);
    }
}

// Marks U, and tells how wide it is.
fn mark_u(tile: &mut TileMut<'_, u8>) -> usize
    requires { IsStored tile.old.planes.u }
    ensures { KeepsPlanes tile.old tile.new }
{
    mark(&mut tile.planes.u);
    tile.planes.u.rect().width
}

#[test]
fn writes_the_last_tile(rt: HostRuntime) -> Result<(), Fail> {
    let mut tile = last_tile(rt.alloc())?;
    let width = tile.with_rec_mut(
        |rec: &mut TileMut<'_, u8>| -> usize
            requires { IsStored rec.old.planes.u }
            ensures { KeepsPlanes rec.old rec.new }
        { mark_u(rec) },
    );
    assert_eq!(rt; width, 32);
    assert_eq!(rt; tile.samples(0).first(), Some(&0));
    assert_eq!(rt; tile.samples(1).first(), Some(&7));
    let rect = *tile.rec_mut().planes.u.rect();
    assert_eq!(rt; (rect.x, rect.y, rect.width, rect.height), (64, 64, 32, 32));
    Ok(())
}

#[test]
fn cuts_nine_tiles(rt: HostRuntime) -> Result<(), Fail> {
    let alloc = rt.alloc();
    let fi = nine_tiles(rt.alloc())?;
    let fs = blank_state(alloc, &fi)?;
    let blocks = FrameBlocks::new(alloc, 40, 36)?;
    let tiles = fi.sequence.tiling.tile_iter_mut(alloc, &fs, &blocks)?;
    assert_eq!(rt; tiles.len(), 9);
    // The first sample of luma and of chroma, behind margins of 88 and 44, and how many blocks.
    let wanted = [
        ((88, 88), (44, 44), 256),
        ((152, 88), (76, 44), 256),
        ((216, 88), (108, 44), 128),
        ((88, 152), (44, 76), 256),
        ((152, 152), (76, 76), 256),
        ((216, 152), (108, 76), 128),
        ((88, 216), (44, 108), 64),
        ((152, 216), (76, 108), 64),
        ((216, 216), (108, 108), 32),
    ];
    for (tile, want) in tiles.zip(wanted) {
        let luma = tile.ts.samples_rect(0);
        let chroma = tile.ts.samples_rect(1);
        let place = ((luma.x, luma.y), (chroma.x, chroma.y), tile.blocks().len());
        assert_eq!(rt; place, want);
        assert_eq!(rt; (luma.width, luma.height), (64, 64));
        assert_eq!(rt; (chroma.width, chroma.height), (32, 32));
        is_shared(&tile);
    }
    Ok(())
}

// Writes samples of a plane, from place `from` of the tile's on.
#[tactic(auto, using(crate::proofs::Written::written))]
fn write_samples(
    tile: &mut TileContextMut<u8>,
    pli: usize,
    from: u16,
    run: &[u8],
) -> Result<(), Fail>
    requires { pli < 3 }
    ensures { (first : View) → SameShape first tile.old → SameShape first tile.new }
{
    let from = from as usize;
    let samples = tile.ts.samples_mut(pli);
    if samples.len() < from + run.len() {
        return Err(Fail::from("too few samples"));
    }
    samples[from..from + run.len()].copy_from_slice(run);
    Ok(())
}

#[tactic(auto, using(crate::proofs::Written::written))]
fn write_vector(
    tile: &mut TileContextMut<u8>,
    table: usize,
    place: usize,
    mv: MotionVector,
) -> Result<(), Fail>
    requires { table < 8 }
    ensures { (first : View) → SameShape first tile.old → SameShape first tile.new }
{
    let records = tile.ts.records_mut(table);
    if records.len() <= place {
        return Err(Fail::from("too few motion records"));
    }
    records[place].mv = mv;
    Ok(())
}

#[tactic(auto, using(crate::proofs::Written::written))]
fn write_block(tile: &mut TileContextMut<u8>, place: usize, block: Block) -> Result<(), Fail>
    ensures { (first : View) → SameShape first tile.old → SameShape first tile.new }
{
    let blocks = tile.blocks_mut();
    if blocks.len() <= place {
        return Err(Fail::from("too few blocks"));
    }
    blocks[place] = block;
    Ok(())
}

// Writes to all that tile `n` has.
fn write_tile(tile: &mut TileContextMut<u8>, n: usize) -> Result<(), Fail>
    ensures { (first : View) → SameShape first tile.old → SameShape first tile.new }
{
    let blank = Block::default();
    if n == 0 {
        write_samples(tile, 0, 12 * 64 + 35, &[4, 42, 12, 18, 15, 31])?;
        write_vector(tile, 0, 5 * 16 + 8, MotionVector { row: 38, col: 42 })?;
        write_block(tile, 3 * 16 + 4, Block { n4_w: 42, ..blank })?;
        let block = Block {
            segmentation_idx: 14,
            ..blank
        };
        return write_block(tile, 5 * 16 + 8, block);
    }
    if n == 5 {
        write_vector(tile, 2, 2 * 8 + 3, MotionVector { row: 14, col: 2 })?;
        return write_block(tile, 8, Block { n4_h: 11, ..blank });
    }
    write_samples(tile, 2, 32 + 11, &[6, 5, 2, 11, 8])?;
    let block = Block {
        mode: PredictionMode::PAETH_PRED,
        ..blank
    };
    write_block(tile, 2 * 16 + 3, block)
}

// Nine tiles, of which three were written to.
fn written_tiles(
    alloc: Global,
    tiling: &TilingInfo,
    fs: &FrameState<u8>,
    blocks: &FrameBlocks,
) -> Result<Vec<TileContextMut<u8>>, Fail>
    requires { IsTilingOf tiling.now fs.now blocks.now.cols blocks.now.rows }
    ensures { IfOk result (λ tiles.
        AllZip SameShape (views tiling.now fs.now (table_entries blocks.now)) tiles.items) }
{
    let mut tiles = cut_tiles(alloc, tiling, fs, blocks, tiling.tile_count())?;
    if tiles.len() != 9 {
        return Err(Fail::from("not nine tiles"));
    }
    write_tile(&mut tiles[0], 0)?;
    write_tile(&mut tiles[5], 5)?;
    write_tile(&mut tiles[7], 7)?;
    Ok(tiles)
}

fn vector_at(me: &[FrameMEStats], table: usize, place: usize) -> Option<MotionVector> {
    Some(me.get(table)?.entries().get(place)?.mv)
}

fn is_blank(block: &Block) -> bool {
    (block.n4_w, block.n4_h, block.segmentation_idx) == (16, 16, 0)
        && block.mode == PredictionMode::DC_PRED
}

#[test]
fn writes_stand_where_tiles_lie(rt: HostRuntime) -> Result<(), Fail> {
    let alloc = rt.alloc();
    let fi = nine_tiles(alloc)?;
    let fs = blank_state(alloc, &fi)?;
    let mut blocks = FrameBlocks::new(alloc, 40, 36)?;
    let tiles = written_tiles(alloc, &fi.sequence.tiling, &fs, &blocks)?;
    let mut rec = fs.rec.try_clone(alloc)?;
    let FrameState {
        frame_me_stats: mut me,
        restoration: mut units,
        ..
    } = fs;
    put_back(&tiles, &mut rec, &mut me, &mut units, &mut blocks);
    let Three { y, u, v } = &rec.planes;
    let luma = (88 + 12) * y.cfg.stride + 88 + 35;
    let chroma = (44 + 65) * v.cfg.stride + 44 + 43;
    assert_eq!(rt;
        y.samples.get(luma..luma + 6),
        Some([4u8, 42, 12, 18, 15, 31].as_slice())
    );
    assert_eq!(rt;
        v.samples.get(chroma..chroma + 5),
        Some([6u8, 5, 2, 11, 8].as_slice())
    );
    assert_eq!(rt;
        vector_at(&me, 0, 5 * 40 + 8),
        Some(MotionVector { row: 38, col: 42 })
    );
    assert_eq!(rt;
        vector_at(&me, 2, 18 * 40 + 35),
        Some(MotionVector { row: 14, col: 2 })
    );
    let blocks = blocks.entries();
    assert_eq!(rt; blocks.get(3 * 40 + 4).map(|block| block.n4_w), Some(42));
    assert_eq!(rt;
        blocks.get(5 * 40 + 8).map(|block| block.segmentation_idx),
        Some(14)
    );
    assert_eq!(rt; blocks.get(17 * 40 + 32).map(|block| block.n4_h), Some(11));
    assert_eq!(rt;
        blocks.get(34 * 40 + 19).map(|block| block.mode),
        Some(PredictionMode::PAETH_PRED)
    );
    // All else is as it was.
    assert_eq!(rt; y.samples.iter().filter(|sample| **sample != 0).count(), 6);
    assert!(rt; u.samples.iter().all(|sample| *sample == 0));
    assert_eq!(rt; v.samples.iter().filter(|sample| **sample != 0).count(), 5);
    assert_eq!(rt; blocks.iter().filter(|block| !is_blank(block)).count(), 4);
    let mut moved = 0u32;
    for table in &me {
        for stats in table.entries() {
            if stats.mv != MotionVector::default() {
                moved = moved.wrapping_add(1);
            }
        }
    }
    assert_eq!(rt; moved, 2);
    Ok(())
}
