//! The tile grid of a frame, the records that the filters and the coder share, and the views of a tile.
//!
//! `TilingInfo` says how a frame is cut. `TilingInfo::tile_iter_mut` cuts a frame's state and blocks
//! into the tiles' contexts, which own their parts, and `put_back` writes the parts back.
#![tactic(auto)]

mod deblock_state;
mod frame_invariants;
mod frame_state;
pub mod laws;
mod made_for;
mod part;
mod part_place;
mod plane_layouts;
mod plane_part;
mod putting;
mod reference_frame;
mod reference_frames_set;
mod restoration;
mod restoration_plane;
mod restoration_state;
mod segmentation_state;
mod sequence;
#[cfg(test)]
mod tests;
mod tile_context;
mod tile_context_iter;
mod tile_limits;
mod tile_motion;
mod tile_parts;
mod tile_rects;
mod tile_restoration_plane;
mod tile_restoration_plane_mut;
mod tile_restoration_state;
mod tile_restoration_state_mut;
mod tile_state;
mod tiler;
mod tiling_error;
mod tiling_info;
mod unit_side;
mod unit_sizes;

pub use av1_block::{
    FrameRestorationUnits, RestorationFilter, RestorationUnit, TileRestorationUnits,
    TileRestorationUnitsMut,
};
pub use deblock_state::DeblockState;
pub use frame_invariants::{FrameInvariants, FrameType};
pub use frame_state::FrameState;
pub use putting::put_back;
pub use reference_frame::ReferenceFrame;
pub use reference_frames_set::ReferenceFramesSet;
pub use restoration::{
    IMAGE_WIDTH_MAX, RESTORATION_TILESIZE_MAX_LOG2, RESTORE_NONE, RESTORE_SGRPROJ,
    RESTORE_SWITCHABLE, RESTORE_WIENER, SGRComplexityLevel, SGRPROJ_MTABLE_BITS,
    SGRPROJ_PARAMS_BITS, SGRPROJ_PARAMS_S, SGRPROJ_PRJ_BITS, SGRPROJ_PRJ_SUBEXP_K,
    SGRPROJ_RECIP_BITS, SGRPROJ_RST_BITS, SGRPROJ_SGR_BITS, SGRPROJ_XQD_MAX, SGRPROJ_XQD_MID,
    SGRPROJ_XQD_MIN, SOLVE_IMAGE_HEIGHT, SOLVE_IMAGE_MAX, SOLVE_IMAGE_SIZE, SOLVE_IMAGE_STRIDE,
    STRIPE_IMAGE_HEIGHT, STRIPE_IMAGE_MAX, STRIPE_IMAGE_SIZE, STRIPE_IMAGE_STRIDE, WIENER_BITS,
    WIENER_TAPS_K, WIENER_TAPS_MAX, WIENER_TAPS_MID, WIENER_TAPS_MIN, get_sgr_sets,
};
pub use restoration_plane::{RestorationPlane, RestorationPlaneConfig};
pub use restoration_state::RestorationState;
pub use segmentation_state::SegmentationState;
pub use sequence::Sequence;
pub use tile_context::TileContextMut;
pub use tile_context_iter::TileContextIterMut;
pub use tile_restoration_plane::TileRestorationPlane;
pub use tile_restoration_plane_mut::TileRestorationPlaneMut;
pub use tile_restoration_state::TileRestorationState;
pub use tile_restoration_state_mut::TileRestorationStateMut;
pub use tile_state::TileStateMut;
pub use tiling_error::TilingError;
pub use tiling_info::{
    MAX_TILE_AREA, MAX_TILE_COLS, MAX_TILE_RATE, MAX_TILE_ROWS, MAX_TILE_WIDTH, TilingInfo,
};
