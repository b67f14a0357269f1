use crate::tiling_info::TilingInfo;
use av1_plane::ChromaSampling;

/// What all frames of a sequence share.
#[derive(Clone, Copy, Debug)]
pub struct Sequence {
    pub bit_depth: usize,
    pub chroma_sampling: ChromaSampling,
    pub use_128x128_superblock: bool,
    pub enable_cdef: bool,
    pub enable_restoration: bool,
    pub enable_large_lru: bool,
    pub tiling: TilingInfo,
}
