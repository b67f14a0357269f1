use av1_block::{FrameBlocks, FrameMEStats};
use av1_plane::{Frame, Pixel};
use av1_tiling::{DeblockState, RestorationState};

/// What coding the tiles of a frame makes of its state and its blocks.
#[derive(Drop)]
pub(crate) struct Rebuilt<T: Pixel> {
    pub rec: Frame<T>,
    pub frame_me_stats: Vec<FrameMEStats>,
    pub restoration: RestorationState,
    pub blocks: FrameBlocks,
    pub deblock: DeblockState,
}
