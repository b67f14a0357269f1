use av1_block::Block;
use av1_plane::Three;
use av1_tiling::RestorationUnit;

/// A tile's recorded result.
#[derive(Drop)]
pub enum RecordedTile<T> {
    /// The coder refused the tile.
    Refused,
    /// The tile's bytes, the rows of its samples inside each plane, and its blocks and its restoration
    /// units row by row.
    Coded {
        bytes: Vec<u8>,
        rows: Three<Vec<Vec<T>>>,
        blocks: Vec<Block>,
        units: Three<Vec<RestorationUnit>>,
    },
}
