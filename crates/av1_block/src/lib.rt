//! Blocks of a frame: their sizes, records and tables, and views of a rectangle of a table.
//!
//! A table has one entry for each unit of 4 by 4 luma samples, row by row. A view borrows a
//! rectangle of a table, for reading or for writing; a cut owns a copy of one and can be put back.
#![tactic(auto)]

mod as_tile_blocks;
mod block;
mod block_setters;
mod block_size;
mod coded_block_info;
mod cut;
mod each;
mod frame_blocks;
pub mod laws;
mod me_stats;
mod prediction_mode;
mod ref_type;
mod restoration_unit;
mod table;
#[cfg(test)]
mod tests;
mod tile_blocks;
mod tile_blocks_mut;
mod tile_view;
mod tile_view_mut;
mod tx_size;
mod window;

pub use as_tile_blocks::AsTileBlocks;
pub use block::{Block, MotionVector};
pub use block_size::BlockSize;
pub use coded_block_info::{CodedBlockInfo, MiTileState};
pub use cut::Cut;
pub use frame_blocks::FrameBlocks;
pub use me_stats::{FrameMEStats, MEStats, TileMEStats, TileMEStatsMut};
pub use prediction_mode::PredictionMode;
pub use ref_type::RefType;
pub use restoration_unit::{
    FrameRestorationUnits, RestorationFilter, RestorationUnit, TileRestorationUnits,
    TileRestorationUnitsMut,
};
pub use table::Table;
pub use tile_blocks::TileBlocks;
pub use tile_blocks_mut::TileBlocksMut;
pub use tile_view::TileView;
pub use tile_view_mut::TileViewMut;
pub use tx_size::TxSize;
