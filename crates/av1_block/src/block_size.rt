ghost use Rattle.std.specs.Prelude.{◌≡◌, ◌≤◌, ◌↔◌, min, IsTrue, IsSome, IfSome};
ghost use Rattle.av1_block.specs.Sides.{block_width, block_height, tx_width, tx_height};
ghost use Rattle.av1_block.specs.Rule.{has_chroma_size, chroma_width, chroma_height, chroma_tx_width, chroma_tx_height};

use crate::tx_size::TxSize;

/// Size of a block, width by height in luma samples. The order is that of the AV1 specification
/// (section 6.10.4), and so are the numbers.
#[allow(non_camel_case_types)]
#[derive(Clone, Copy, Debug, PartialEq, Eq)]
pub enum BlockSize {
    BLOCK_4X4,
    BLOCK_4X8,
    BLOCK_8X4,
    BLOCK_8X8,
    BLOCK_8X16,
    BLOCK_16X8,
    BLOCK_16X16,
    BLOCK_16X32,
    BLOCK_32X16,
    BLOCK_32X32,
    BLOCK_32X64,
    BLOCK_64X32,
    BLOCK_64X64,
    BLOCK_64X128,
    BLOCK_128X64,
    BLOCK_128X128,
    BLOCK_4X16,
    BLOCK_16X4,
    BLOCK_8X32,
    BLOCK_32X8,
    BLOCK_16X64,
    BLOCK_64X16,
}

impl BlockSize {
    /// The width in units of four samples.
    pub fn width_mi(self) -> usize
        ensures { result ≡ block_width self }
    {
        match self {
            BlockSize::BLOCK_4X4 | BlockSize::BLOCK_4X8 | BlockSize::BLOCK_4X16 => 1,
            BlockSize::BLOCK_8X4
            | BlockSize::BLOCK_8X8
            | BlockSize::BLOCK_8X16
            | BlockSize::BLOCK_8X32 => 2,
            BlockSize::BLOCK_16X8
            | BlockSize::BLOCK_16X16
            | BlockSize::BLOCK_16X32
            | BlockSize::BLOCK_16X4
            | BlockSize::BLOCK_16X64 => 4,
            BlockSize::BLOCK_32X16
            | BlockSize::BLOCK_32X32
            | BlockSize::BLOCK_32X64
            | BlockSize::BLOCK_32X8 => 8,
            BlockSize::BLOCK_64X32
            | BlockSize::BLOCK_64X64
            | BlockSize::BLOCK_64X128
            | BlockSize::BLOCK_64X16 => 16,
            BlockSize::BLOCK_128X64 | BlockSize::BLOCK_128X128 => 32,
        }
    }

    /// The height in units of four samples.
    pub fn height_mi(self) -> usize
        ensures { result ≡ block_height self }
    {
        match self {
            BlockSize::BLOCK_4X4 | BlockSize::BLOCK_8X4 | BlockSize::BLOCK_16X4 => 1,
            BlockSize::BLOCK_4X8
            | BlockSize::BLOCK_8X8
            | BlockSize::BLOCK_16X8
            | BlockSize::BLOCK_32X8 => 2,
            BlockSize::BLOCK_8X16
            | BlockSize::BLOCK_16X16
            | BlockSize::BLOCK_32X16
            | BlockSize::BLOCK_4X16
            | BlockSize::BLOCK_64X16 => 4,
            BlockSize::BLOCK_16X32
            | BlockSize::BLOCK_32X32
            | BlockSize::BLOCK_64X32
            | BlockSize::BLOCK_8X32 => 8,
            BlockSize::BLOCK_32X64
            | BlockSize::BLOCK_64X64
            | BlockSize::BLOCK_128X64
            | BlockSize::BLOCK_16X64 => 16,
            BlockSize::BLOCK_64X128 | BlockSize::BLOCK_128X128 => 32,
        }
    }

    /// The size of the block's chroma under these decimations (section 5.11.38), if it has one: at
    /// 4:2:2 a block higher than wide has none.
    pub fn subsampled_size(self, xdec: usize, ydec: usize) -> Option<BlockSize>
        requires halved { xdec ≤ 1 }
        requires sampled { ydec ≤ xdec }
        ensures some { IsSome result ↔ IsTrue (has_chroma_size xdec ydec self) }
        ensures width { IfSome result (λ size. block_width size ≡ chroma_width xdec self) }
        ensures height { IfSome result (λ size. block_height size ≡ chroma_height ydec self) }
    {
        match (xdec, ydec) {
            (0, _) => Some(self),
            (_, 0) => self.with_half_width(),
            _ => Some(self.halved()),
        }
    }

    /// The largest transform of the block's chroma, with sides of at most 32 samples.
    pub fn largest_chroma_tx_size(self, xdec: usize, ydec: usize) -> TxSize
        requires halved { xdec ≤ 1 }
        requires sampled { ydec ≤ xdec }
        requires chroma { IsTrue (has_chroma_size xdec ydec self) }
        ensures width { tx_width result ≡ chroma_tx_width xdec self }
        ensures height { tx_height result ≡ chroma_tx_height ydec self }
    {
        self.subsampled_size(xdec, ydec)
            .unwrap()
            .largest_tx_size_up_to_32()
    }

    // The chroma size at 4:2:2.
    fn with_half_width(self) -> Option<BlockSize>
        ensures some { IsSome result ↔ (block_height self ≤ block_width self) }
        ensures width { IfSome result (λ size. block_width size ≡ chroma_width 1 self) }
        ensures height { IfSome result (λ size. block_height size ≡ block_height self) }
    {
        match self {
            BlockSize::BLOCK_4X4 | BlockSize::BLOCK_8X4 => Some(BlockSize::BLOCK_4X4),
            BlockSize::BLOCK_8X8 => Some(BlockSize::BLOCK_4X8),
            BlockSize::BLOCK_16X4 => Some(BlockSize::BLOCK_8X4),
            BlockSize::BLOCK_16X8 => Some(BlockSize::BLOCK_8X8),
            BlockSize::BLOCK_16X16 => Some(BlockSize::BLOCK_8X16),
            BlockSize::BLOCK_32X8 => Some(BlockSize::BLOCK_16X8),
            BlockSize::BLOCK_32X16 => Some(BlockSize::BLOCK_16X16),
            BlockSize::BLOCK_32X32 => Some(BlockSize::BLOCK_16X32),
            BlockSize::BLOCK_64X16 => Some(BlockSize::BLOCK_32X16),
            BlockSize::BLOCK_64X32 => Some(BlockSize::BLOCK_32X32),
            BlockSize::BLOCK_64X64 => Some(BlockSize::BLOCK_32X64),
            BlockSize::BLOCK_128X64 => Some(BlockSize::BLOCK_64X64),
            BlockSize::BLOCK_128X128 => Some(BlockSize::BLOCK_64X128),
            _ => None,
        }
    }

    // The chroma size at 4:2:0.
    fn halved(self) -> BlockSize
        ensures width { block_width result ≡ chroma_width 1 self }
        ensures height { block_height result ≡ chroma_height 1 self }
    {
        match self {
            BlockSize::BLOCK_4X4
            | BlockSize::BLOCK_4X8
            | BlockSize::BLOCK_8X4
            | BlockSize::BLOCK_8X8 => BlockSize::BLOCK_4X4,
            BlockSize::BLOCK_8X16 | BlockSize::BLOCK_4X16 => BlockSize::BLOCK_4X8,
            BlockSize::BLOCK_16X8 | BlockSize::BLOCK_16X4 => BlockSize::BLOCK_8X4,
            BlockSize::BLOCK_16X16 => BlockSize::BLOCK_8X8,
            BlockSize::BLOCK_16X32 => BlockSize::BLOCK_8X16,
            BlockSize::BLOCK_32X16 => BlockSize::BLOCK_16X8,
            BlockSize::BLOCK_32X32 => BlockSize::BLOCK_16X16,
            BlockSize::BLOCK_32X64 => BlockSize::BLOCK_16X32,
            BlockSize::BLOCK_64X32 => BlockSize::BLOCK_32X16,
            BlockSize::BLOCK_64X64 => BlockSize::BLOCK_32X32,
            BlockSize::BLOCK_64X128 => BlockSize::BLOCK_32X64,
            BlockSize::BLOCK_128X64 => BlockSize::BLOCK_64X32,
            BlockSize::BLOCK_128X128 => BlockSize::BLOCK_64X64,
            BlockSize::BLOCK_8X32 => BlockSize::BLOCK_4X16,
            BlockSize::BLOCK_32X8 => BlockSize::BLOCK_16X4,
            BlockSize::BLOCK_16X64 => BlockSize::BLOCK_8X32,
            BlockSize::BLOCK_64X16 => BlockSize::BLOCK_32X8,
        }
    }

    fn largest_tx_size_up_to_32(self) -> TxSize
        ensures width { tx_width result ≡ min (block_width self) 8 }
        ensures height { tx_height result ≡ min (block_height self) 8 }
    {
        match self {
            BlockSize::BLOCK_4X4 => TxSize::TX_4X4,
            BlockSize::BLOCK_4X8 => TxSize::TX_4X8,
            BlockSize::BLOCK_8X4 => TxSize::TX_8X4,
            BlockSize::BLOCK_8X8 => TxSize::TX_8X8,
            BlockSize::BLOCK_8X16 => TxSize::TX_8X16,
            BlockSize::BLOCK_16X8 => TxSize::TX_16X8,
            BlockSize::BLOCK_16X16 => TxSize::TX_16X16,
            BlockSize::BLOCK_4X16 => TxSize::TX_4X16,
            BlockSize::BLOCK_16X4 => TxSize::TX_16X4,
            BlockSize::BLOCK_8X32 => TxSize::TX_8X32,
            BlockSize::BLOCK_32X8 => TxSize::TX_32X8,
            BlockSize::BLOCK_16X32 | BlockSize::BLOCK_16X64 => TxSize::TX_16X32,
            BlockSize::BLOCK_32X16 | BlockSize::BLOCK_64X16 => TxSize::TX_32X16,
            BlockSize::BLOCK_32X32
            | BlockSize::BLOCK_32X64
            | BlockSize::BLOCK_64X32
            | BlockSize::BLOCK_64X64
            | BlockSize::BLOCK_64X128
            | BlockSize::BLOCK_128X64
            | BlockSize::BLOCK_128X128 => TxSize::TX_32X32,
        }
    }
}
