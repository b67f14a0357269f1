ghost use Rattle.std.specs.Prelude.{◌≡◌, ◌≤◌, ◌+◌, option_map, IfSome};
ghost use Rattle.av1_rec.specs.Fields.{field, choice};
ghost use Rattle.av1_rec.specs.Blocks.{block_sizes, tx_sizes, modes, references, rectangle, kind, sides, deltas, block_line};

use crate::text::fields::{byte, choice, delta, field, flag, number_in, tag};
use av1_block::{Block, BlockSize, MotionVector, PredictionMode, RefType, TxSize};

/// A rectangle of a tile's blocks, and the block that is written there, without motion.
#[derive(Clone, Copy, Debug)]
pub struct BlockLine {
    pub x: u32,
    pub y: u32,
    pub cols: u32,
    pub rows: u32,
    pub block: Block,
}

const BLOCK_SIZES: [BlockSize; 22] = [
    BlockSize::BLOCK_4X4,
    BlockSize::BLOCK_4X8,
    BlockSize::BLOCK_8X4,
    BlockSize::BLOCK_8X8,
    BlockSize::BLOCK_8X16,
    BlockSize::BLOCK_16X8,
    BlockSize::BLOCK_16X16,
    BlockSize::BLOCK_16X32,
    BlockSize::BLOCK_32X16,
    BlockSize::BLOCK_32X32,
    BlockSize::BLOCK_32X64,
    BlockSize::BLOCK_64X32,
    BlockSize::BLOCK_64X64,
    BlockSize::BLOCK_64X128,
    BlockSize::BLOCK_128X64,
    BlockSize::BLOCK_128X128,
    BlockSize::BLOCK_4X16,
    BlockSize::BLOCK_16X4,
    BlockSize::BLOCK_8X32,
    BlockSize::BLOCK_32X8,
    BlockSize::BLOCK_16X64,
    BlockSize::BLOCK_64X16,
];

const TX_SIZES: [TxSize; 19] = [
    TxSize::TX_4X4,
    TxSize::TX_8X8,
    TxSize::TX_16X16,
    TxSize::TX_32X32,
    TxSize::TX_64X64,
    TxSize::TX_4X8,
    TxSize::TX_8X4,
    TxSize::TX_8X16,
    TxSize::TX_16X8,
    TxSize::TX_16X32,
    TxSize::TX_32X16,
    TxSize::TX_32X64,
    TxSize::TX_64X32,
    TxSize::TX_4X16,
    TxSize::TX_16X4,
    TxSize::TX_8X32,
    TxSize::TX_32X8,
    TxSize::TX_16X64,
    TxSize::TX_64X16,
];

const MODES: [PredictionMode; 34] = [
    PredictionMode::DC_PRED,
    PredictionMode::V_PRED,
    PredictionMode::H_PRED,
    PredictionMode::D45_PRED,
    PredictionMode::D135_PRED,
    PredictionMode::D113_PRED,
    PredictionMode::D157_PRED,
    PredictionMode::D203_PRED,
    PredictionMode::D67_PRED,
    PredictionMode::SMOOTH_PRED,
    PredictionMode::SMOOTH_V_PRED,
    PredictionMode::SMOOTH_H_PRED,
    PredictionMode::PAETH_PRED,
    PredictionMode::UV_CFL_PRED,
    PredictionMode::NEARESTMV,
    PredictionMode::NEAR0MV,
    PredictionMode::NEAR1MV,
    PredictionMode::NEAR2MV,
    PredictionMode::GLOBALMV,
    PredictionMode::NEWMV,
    PredictionMode::NEAREST_NEARESTMV,
    PredictionMode::NEAR_NEAR0MV,
    PredictionMode::NEAR_NEAR1MV,
    PredictionMode::NEAR_NEAR2MV,
    PredictionMode::NEAREST_NEWMV,
    PredictionMode::NEW_NEARESTMV,
    PredictionMode::NEAR_NEW0MV,
    PredictionMode::NEAR_NEW1MV,
    PredictionMode::NEAR_NEW2MV,
    PredictionMode::NEW_NEAR0MV,
    PredictionMode::NEW_NEAR1MV,
    PredictionMode::NEW_NEAR2MV,
    PredictionMode::GLOBAL_GLOBALMV,
    PredictionMode::NEW_NEWMV,
];

const REFERENCES: [RefType; 9] = [
    RefType::INTRA_FRAME,
    RefType::LAST_FRAME,
    RefType::LAST2_FRAME,
    RefType::LAST3_FRAME,
    RefType::GOLDEN_FRAME,
    RefType::BWDREF_FRAME,
    RefType::ALTREF2_FRAME,
    RefType::ALTREF_FRAME,
    RefType::NONE_FRAME,
];

#[tactic(auto, unfolding(crate::specs::Blocks::block_sizes))]
fn block_size(text: &[u8]) -> Option<(BlockSize, &[u8])>
    ensures { option_map (λ x. (x.0, x.1.now)) result ≡ choice block_sizes text.now }
{
    choice(&BLOCK_SIZES, text)
}

#[tactic(auto, unfolding(crate::specs::Blocks::tx_sizes))]
fn tx_size(text: &[u8]) -> Option<(TxSize, &[u8])>
    ensures { option_map (λ x. (x.0, x.1.now)) result ≡ choice tx_sizes text.now }
{
    choice(&TX_SIZES, text)
}

#[tactic(auto, unfolding(crate::specs::Blocks::modes))]
fn mode(text: &[u8]) -> Option<(PredictionMode, &[u8])>
    ensures { option_map (λ x. (x.0, x.1.now)) result ≡ choice modes text.now }
{
    choice(&MODES, text)
}

#[tactic(auto, unfolding(crate::specs::Blocks::references))]
fn reference(text: &[u8]) -> Option<(RefType, &[u8])>
    ensures { option_map (λ x. (x.0, x.1.now)) result ≡ choice references text.now }
{
    choice(&REFERENCES, text)
}

// `X Y COLS ROWS`
#[tactic(auto, unfolding(crate::specs::Blocks::rectangle))]
fn rectangle(cols: u32, rows: u32, text: &[u8]) -> Option<((u32, u32, u32, u32), &[u8])>
    requires { (1 ≤ cols) × (1 ≤ rows) }
    ensures value { option_map (λ x. (x.0, x.1.now)) result ≡ rectangle cols rows text.now }
    ensures within { IfSome result (λ x. (x.0.0 + x.0.2 ≤ cols) × (x.0.1 + x.0.3 ≤ rows)) }
{
    let (x, rest) = number_in(0, cols - 1, text)?;
    let (y, rest) = field(0, rows - 1, rest)?;
    let (width, rest) = field(1, cols - x, rest)?;
    let (height, rest) = field(1, rows - y, rest)?;
    Some(((x, y, width, height), rest))
}

// ` BSIZE TX SKIP MODE REF0 REF1`, in a block whose other fields are 0
#[tactic(auto, unfolding(crate::specs::Blocks::kind))]
fn kind(text: &[u8]) -> Option<(Block, &[u8])>
    ensures { option_map (λ x. (x.0, x.1.now)) result ≡ kind text.now }
{
    let (bsize, rest) = block_size(text)?;
    let (txsize, rest) = tx_size(rest)?;
    let (skip, rest) = flag(rest)?;
    let (mode, rest) = mode(rest)?;
    let (ref_0, rest) = reference(rest)?;
    let (ref_1, rest) = reference(rest)?;
    let block = Block {
        mode,
        skip,
        bsize,
        n4_w: 0,
        n4_h: 0,
        txsize,
        ref_frames: [ref_0, ref_1],
        mv: [
            MotionVector { row: 0, col: 0 },
            MotionVector { row: 0, col: 0 },
        ],
        segmentation_idx: 0,
        cdef_index: 0,
        deblock_deltas: [0, 0, 0, 0],
    };
    Some((block, rest))
}

// ` N4W N4H CDEF SEG`
#[tactic(auto, unfolding(crate::specs::Blocks::sides))]
fn sides(text: &[u8]) -> Option<((u8, u8, u8, u8), &[u8])>
    ensures { option_map (λ x. (x.0, x.1.now)) result ≡ sides text.now }
{
    let (n4_w, rest) = byte(text)?;
    let (n4_h, rest) = byte(rest)?;
    let (cdef, rest) = byte(rest)?;
    let (segment, rest) = byte(rest)?;
    Some(((n4_w, n4_h, cdef, segment), rest))
}

// ` D0 D1 D2 D3`
#[tactic(auto, unfolding(crate::specs::Blocks::deltas))]
fn deltas(text: &[u8]) -> Option<([i8; 4], &[u8])>
    ensures { option_map (λ x. (x.0, x.1.now)) result ≡ deltas text.now }
{
    let (a, rest) = delta(text)?;
    let (b, rest) = delta(rest)?;
    let (c, rest) = delta(rest)?;
    let (d, rest) = delta(rest)?;
    Some(([a, b, c, d], rest))
}

/// The line `X Y COLS ROWS BSIZE TX SKIP MODE REF0 REF1 N4W N4H CDEF SEG D0 D1 D2 D3` of a tile of so
/// many columns and rows of blocks.
#[tactic(auto, unfolding(crate::specs::Blocks::block_line))]
pub fn block_line(cols: u32, rows: u32, text: &[u8]) -> Option<(BlockLine, &[u8])>
    requires { (1 ≤ cols) × (1 ≤ rows) }
    ensures value { option_map (λ x. (x.0, x.1.now)) result ≡ block_line cols rows text.now }
    ensures within { IfSome result (λ x. (x.0.x + x.0.cols ≤ cols) × (x.0.y + x.0.rows ≤ rows)) }
{
    let ((x, y, width, height), rest) = rectangle(cols, rows, text)?;
    let (mut block, rest) = kind(rest)?;
    let ((n4_w, n4_h, cdef_index, segmentation_idx), rest) = sides(rest)?;
    let (deblock_deltas, rest) = deltas(rest)?;
    let rest = tag(rest, b"\n")?;
    block.n4_w = n4_w;
    block.n4_h = n4_h;
    block.cdef_index = cdef_index;
    block.segmentation_idx = segmentation_idx;
    block.deblock_deltas = deblock_deltas;
    let line = BlockLine {
        x,
        y,
        cols: width,
        rows: height,
        block,
    };
    Some((line, rest))
}
