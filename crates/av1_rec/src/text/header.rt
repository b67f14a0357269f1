use av1_plane::ChromaSampling;
use av1_tiling::{DeblockState, FrameType};

/// The sides of a frame, and how its samples are stored.
#[derive(Clone, Copy, Debug)]
pub struct FrameFormat {
    /// 1 to 65536.
    pub width: u32,
    pub height: u32,
    pub sampling: ChromaSampling,
    /// 8, 10 or 12.
    pub depth: u32,
}

/// The frame rate, a fraction, and the tile columns and rows that are asked for, as logarithms of at
/// most 63.
#[derive(Clone, Copy, Debug)]
pub struct TilingTarget {
    pub num: u32,
    pub den: u32,
    pub cols_log2: u32,
    pub rows_log2: u32,
}

/// The quantisers of a frame.
#[derive(Clone, Copy, Debug)]
pub struct Quantizers {
    pub ac_quantizer: u16,
    pub base_q_idx: u8,
}

/// The switches of a frame's coding.
#[derive(Clone, Copy, Debug)]
pub struct Switches {
    pub fast_deblock: bool,
    pub enable_cdef: bool,
    pub enable_restoration: bool,
    /// Loop restoration units larger than a superblock.
    pub enable_large_lru: bool,
    pub disable_frame_end_update_cdf: bool,
}

/// The damping, 3 to 6, and the strengths of each CDEF index, 0 to 63.
#[derive(Clone, Copy, Debug)]
pub struct CdefStrengths {
    pub damping: u8,
    pub y_strengths: [u8; 8],
    pub uv_strengths: [u8; 8],
}

/// What the first eight lines of a text say.
#[derive(Clone, Copy, Debug)]
pub struct Header {
    pub format: FrameFormat,
    pub target: TilingTarget,
    pub frame_type: FrameType,
    pub quantizers: Quantizers,
    pub switches: Switches,
    /// The levels are 0.
    pub deblock: DeblockState,
    pub cdef: CdefStrengths,
}
