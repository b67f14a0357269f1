ghost use Rattle.std.specs.Prelude.{◌≡◌};
ghost use Rattle.av1_block.specs.Block.{default_block};

use crate::block_size::BlockSize;
use crate::prediction_mode::PredictionMode;
use crate::ref_type::RefType;
use crate::tx_size::TxSize;

/// A motion vector, in eighths of a sample.
#[derive(Clone, Copy, Debug, Default, PartialEq, Eq)]
pub struct MotionVector {
    pub row: i16,
    pub col: i16,
}

/// What the filters and the coder's neighbours know of one unit of 4 by 4 luma samples.
#[derive(Clone, Copy, Debug)]
pub struct Block {
    pub mode: PredictionMode,
    pub skip: bool,
    pub bsize: BlockSize,
    /// The block's width in units.
    pub n4_w: u8,
    /// The block's height in units.
    pub n4_h: u8,
    pub txsize: TxSize,
    pub ref_frames: [RefType; 2],
    pub mv: [MotionVector; 2],
    pub segmentation_idx: u8,
    pub cdef_index: u8,
    pub deblock_deltas: [i8; 4],
}

impl Default for Block {
    ghost is_default = { λ block. block ≡ default_block };

    /// An intra block of 64 by 64 with one transform, not skipped.
    fn default() -> Block {
        Block {
            mode: PredictionMode::DC_PRED,
            skip: false,
            bsize: BlockSize::BLOCK_64X64,
            n4_w: 16,
            n4_h: 16,
            txsize: TxSize::TX_64X64,
            ref_frames: [RefType::INTRA_FRAME, RefType::NONE_FRAME],
            mv: [MotionVector::default(), MotionVector::default()],
            segmentation_idx: 0,
            cdef_index: 0,
            deblock_deltas: [0; 4],
        }
    }
}
