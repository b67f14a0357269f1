use crate::block::Block;
use crate::table::Table;
use crate::tile_blocks::TileBlocks;
use crate::tile_blocks_mut::TileBlocksMut;

/// A table of blocks, seen whole.
pub trait AsTileBlocks {
    ghost use Rattle.av1_block.specs.declared.block.Block.{Block};
    ghost use Rattle.av1_block.specs.declared.tile_view.TileView.{TileView};
    ghost use Rattle.av1_block.specs.declared.tile_view_mut.TileViewMut.{TileViewMut};

    // The view of all its blocks, for reading and for writing.
    ghost shows: { Self → TileView Block → Type 0 };

    ghost lends: { Self → TileViewMut Block → Type 0 };

    /// All blocks of the table, for reading.
    fn as_tile_blocks(&self) -> TileBlocks<'_>
        ensures { shows self.now result };

    /// All blocks of the table, for reading and writing.
    fn as_tile_blocks_mut(&mut self) -> TileBlocksMut<'_>
        ensures { lends self.old result };
}

impl AsTileBlocks for Table<Block> {
    ghost use Rattle.std.specs.Prelude.{◌≡◌};
    ghost use Rattle.av1_block.specs.Whole.{ShowsTable, LendsTable};
    ghost use Rattle.av1_block.specs.Writing.{lent_name};

    ghost shows = { ShowsTable };

    ghost lends = { LendsTable };

    fn as_tile_blocks(&self) -> TileBlocks<'_> {
        TileBlocks::new(self, 0, 0, self.cols, self.rows)
    }

    fn as_tile_blocks_mut(&mut self) -> TileBlocksMut<'_>
        ensures name { lent_name result ≡ self.entry.ghost_name }
        ensures lends { LendsTable self.old result }
    {
        let cols = self.cols;
        let rows = self.rows;
        TileBlocksMut::new(self, 0, 0, cols, rows)
    }
}
