ghost use Rattle.std.specs.Prelude.{◌≡◌, ◌*◌, ◌≤◌, vec_len, replicate, IfOk};
ghost use Rattle.av1_block.specs.Block.{default_block};

use crate::block::Block;
use crate::table::Table;
use av1_plane::OutOfMemory;
use std::alloc::Global;

/// The blocks of a frame.
pub type FrameBlocks = Table<Block>;

impl Table<Block> {
    /// A table of default blocks, with sides of at most 16384.
    pub fn new(alloc: Global, cols: usize, rows: usize) -> Result<FrameBlocks, OutOfMemory>
        requires cols { cols ≤ 16384 }
        requires rows { rows ≤ 16384 }
        ensures cols { IfOk result (λ made. made.cols ≡ cols) }
        ensures rows { IfOk result (λ made. made.rows ≡ rows) }
        ensures blocks { IfOk result (λ made.
            made.entries ≡ replicate (cols * rows) default_block) }
    {
        let blocks = default_blocks(alloc, cols * rows)?;
        Ok(Table::from_entries(blocks, cols, rows))
    }
}

fn default_blocks(alloc: Global, count: usize) -> Result<Vec<Block>, OutOfMemory>
    ensures { IfOk result (λ made. made.items ≡ replicate count default_block) }
{
    Ok(vec![in alloc; Block::default(); count]?)
}
