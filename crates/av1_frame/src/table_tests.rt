ghost use Rattle.std.specs.Prelude.{◌≡◌, ◌∷◌, ◌%◌, [], Some, IfOk};
ghost use Rattle.av1_tiling.specs.Frames.{IsFrame, IsStateFor};

use super::{CodeError, Delivered, Gate, GroupError, TileCoder, TileTable, encode_tile_group};
use crate::workers::all_contexts;
use av1_block::FrameBlocks;
use av1_plane::{ChromaSampling, Frame, FrameAlloc, Plane};
use av1_tiling::{
    FrameInvariants, FrameState, FrameType, ReferenceFramesSet, Sequence, TileContextMut,
    TilingInfo,
};
use std::alloc::Global;
use std::sync::Arc;
use std::sync::atomic::{AtomicUsize, Ordering};
use std::test::Fail;

// Leaves each view as it is, and answers one byte.
struct Seven;

impl TileCoder<u8> for Seven {
    ghost meaning = { λ c v. Some (7 ∷ [], v) };

    #[tactic(auto, using(crate::proofs::Views::same_rects))]
    fn code(&self, alloc: Global, _ctx: &mut TileContextMut<u8>) -> Result<Vec<u8>, CodeError> {
        match Vec::from_slice(alloc, &[7]) {
            Ok(bytes) => Ok(bytes),
            Err(_) => Err(CodeError::OutOfMemory),
        }
    }
}

// Leaves each view as it is, and answers the column of its first superblock.
struct Columns;

impl TileCoder<u8> for Columns {
    ghost meaning = { λ c v. Some (v.ts.superblock.0 % 256 ∷ [], v) };

    #[tactic(auto, using(crate::proofs::Views::same_rects))]
    fn code(&self, alloc: Global, ctx: &mut TileContextMut<u8>) -> Result<Vec<u8>, CodeError> {
        let column = (ctx.ts.sbo.0.x % 256) as u8;
        match Vec::from_slice(alloc, &[column]) {
            Ok(bytes) => Ok(bytes),
            Err(_) => Err(CodeError::OutOfMemory),
        }
    }
}

// Holds the claimer of one tile until the two others have been claimed, for some turns at most.
#[derive(Drop)]
struct Holds {
    hold: usize,
    seen: [AtomicUsize; 3],
}

impl Holds {
    fn times(&self, tile: usize) -> usize {
        if tile < 3 {
            self.seen[tile].load(Ordering::SeqCst)
        } else {
            0
        }
    }

    fn others_are_seen(&self) -> bool {
        (self.hold == 0 || self.times(0) != 0)
            && (self.hold == 1 || self.times(1) != 0)
            && (self.hold == 2 || self.times(2) != 0)
    }
}

impl Gate for Holds {
    fn claimed(&self, _worker: usize, tile: usize) {
        if tile < 3 {
            self.seen[tile].fetch_add(1, Ordering::SeqCst);
        }
        if tile == self.hold {
            for _ in 0..16777216 {
                if self.others_are_seen() {
                    return;
                }
            }
            // Told twice: the turns ran out.
            self.seen[self.hold.min(2)].fetch_add(1, Ordering::SeqCst);
        }
    }
}

// A key frame of 192 by 64 without chroma, in three tiles.
fn three_tiles(alloc: Global) -> Result<FrameInvariants<u8>, Fail>
    ensures frame { IfOk result (λ fi. IsFrame 256 fi) }
    ensures columns { IfOk result (λ fi. fi.w_in_b ≡ 48) }
    ensures rows { IfOk result (λ fi. fi.h_in_b ≡ 16) }
{
    let Ok(tiling) = TilingInfo::from_target_tiles(6, 192, 64, 25, 1, 2, 0, false) else {
        return Err(Fail::from("no tiling"));
    };
    let sequence = Sequence {
        bit_depth: 8,
        chroma_sampling: ChromaSampling::Cs400,
        use_128x128_superblock: false,
        enable_cdef: false,
        enable_restoration: false,
        enable_large_lru: false,
        tiling,
    };
    Ok(FrameInvariants {
        sequence,
        width: 192,
        height: 64,
        sb_width: 3,
        sb_height: 1,
        w_in_b: 48,
        h_in_b: 16,
        frame_type: FrameType::KEY,
        base_q_idx: 100,
        ac_quantizer: 100,
        cdef_damping: 3,
        cdef_y_strengths: [0; 8],
        cdef_uv_strengths: [0; 8],
        fast_deblock: true,
        disable_frame_end_update_cdf: false,
        order_hint: 0,
        render_width: 192,
        render_height: 64,
        refresh_frame_flags: 0,
        rec_buffer: ReferenceFramesSet::new(alloc)?,
    })
}

// A key frame of 160 by 144 without chroma, in nine tiles.
fn nine_tiles(alloc: Global) -> Result<FrameInvariants<u8>, Fail>
    ensures frame { IfOk result (λ fi. IsFrame 256 fi) }
    ensures columns { IfOk result (λ fi. fi.w_in_b ≡ 40) }
    ensures rows { IfOk result (λ fi. fi.h_in_b ≡ 36) }
{
    let Ok(tiling) = TilingInfo::from_target_tiles(6, 160, 144, 25, 1, 10, 8, false) else {
        return Err(Fail::from("no tiling"));
    };
    let sequence = Sequence {
        bit_depth: 8,
        chroma_sampling: ChromaSampling::Cs400,
        use_128x128_superblock: false,
        enable_cdef: false,
        enable_restoration: false,
        enable_large_lru: false,
        tiling,
    };
    Ok(FrameInvariants {
        sequence,
        width: 160,
        height: 144,
        sb_width: 3,
        sb_height: 3,
        w_in_b: 40,
        h_in_b: 36,
        frame_type: FrameType::KEY,
        base_q_idx: 100,
        ac_quantizer: 100,
        cdef_damping: 3,
        cdef_y_strengths: [0; 8],
        cdef_uv_strengths: [0; 8],
        fast_deblock: true,
        disable_frame_end_update_cdf: false,
        order_hint: 0,
        render_width: 160,
        render_height: 144,
        refresh_frame_flags: 0,
        rec_buffer: ReferenceFramesSet::new(alloc)?,
    })
}

// A state for a frame, all samples zero.
fn zero_state(alloc: Global, fi: &FrameInvariants<u8>) -> Result<FrameState<u8>, GroupError>
    requires { IsFrame 256 fi.now }
    ensures { IfOk result (λ fs. IsStateFor fi.now fs) }
{
    let frame: Frame<u8> = Frame::new(alloc, fi.width, fi.height, fi.sequence.chroma_sampling)?;
    let half: Plane<u8> = Plane::new(alloc, fi.width / 2, fi.height / 2, 0, 0, 0, 0)?;
    let quarter: Plane<u8> = Plane::new(alloc, fi.width / 4, fi.height / 4, 0, 0, 0, 0)?;
    let input = Arc::new(alloc, frame)?;
    let half = Arc::new(alloc, half)?;
    let quarter = Arc::new(alloc, quarter)?;
    Ok(FrameState::with_source(alloc, fi, input, half, quarter)?)
}

// Two workers answer the same whichever tile's claimer waits for the two other tiles to be claimed.
#[test]
fn gate_two_workers(rt: HostRuntime) -> Result<(), Fail> {
    let alloc = rt.alloc();
    let fi = three_tiles(alloc)?;
    for hold in 0..3 {
        let mut fs = zero_state(alloc, &fi)?;
        let mut blocks = FrameBlocks::new(alloc, 48, 16)?;
        let gate = Holds {
            hold,
            seen: [
                AtomicUsize::new(0),
                AtomicUsize::new(0),
                AtomicUsize::new(0),
            ],
        };
        let group = encode_tile_group(&rt, alloc, &fi, &mut fs, &mut blocks, &Columns, 2, &gate)?;
        assert_eq!(rt; (gate.times(0), gate.times(1), gate.times(2)), (1, 1, 1));
        assert_eq!(rt; group.as_slice(), [0, 0, 0, 0, 1, 2].as_slice());
        assert_eq!(rt; fs.deblock.levels, [5; 4]);
        assert_eq!(rt; fs.context_update_tile_id, 2);
    }
    Ok(())
}

// Counts the claims that it is told of.
#[derive(Drop)]
struct Counts {
    claims: AtomicUsize,
}

impl Gate for Counts {
    fn claimed(&self, _worker: usize, _tile: usize) {
        self.claims.fetch_add(1, Ordering::SeqCst);
    }
}

// Whether the tile's bytes are 07.
fn is_seven(entry: &Option<Delivered<u8>>) -> bool {
    match entry {
        Some(done) => matches!(&done.coded, Ok(bytes) if bytes.as_slice() == [7].as_slice()),
        None => false,
    }
}

#[test]
fn hands_out_each_tile_once(rt: HostRuntime) -> Result<(), Fail> {
    let alloc = rt.alloc();
    let fi = nine_tiles(alloc)?;
    let fs = zero_state(alloc, &fi)?;
    let blocks = FrameBlocks::new(alloc, 40, 36)?;
    let views = all_contexts(alloc, &fi.sequence.tiling, &fs, &blocks)?;
    if views.len() != 9 {
        return Err(Fail::from("not nine tiles"));
    }
    let gate = Counts {
        claims: AtomicUsize::new(0),
    };
    let (table, mut first) = TileTable::new(alloc, views, &Seven)?;
    let mut second = table.split(&mut first);
    assert!(rt; table.turn(alloc, &mut first, 4, 0, &gate));
    assert!(rt; !table.turn(alloc, &mut second, 5, 0, &gate));
    assert_eq!(rt; gate.claims.load(Ordering::SeqCst), 1);
    assert!(rt; table.turn(alloc, &mut second, 5, 1, &gate));
    assert_eq!(rt; gate.claims.load(Ordering::SeqCst), 2);
    table.join(&mut first, second);
    let found = table.close(alloc, first)?;
    assert_eq!(rt; found.len(), 9);
    assert!(rt; is_seven(&found[0]) && is_seven(&found[1]));
    for entry in &found[2..] {
        assert!(rt; entry.is_none());
    }
    Ok(())
}
