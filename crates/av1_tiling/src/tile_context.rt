ghost use Rattle.std.specs.Prelude.{◌≤◌};
ghost use Rattle.av1_block.specs.Cut.{cut_rect};

use crate::frame_state::FrameState;
use crate::putting::put_table;
use crate::restoration_state::RestorationState;
use crate::tile_rects::{tile_blocks, tile_height, tile_superblock, tile_width};
use crate::tile_state::TileStateMut;
use crate::tiling_info::TilingInfo;
use av1_block::{Block, Cut, FrameBlocks, FrameMEStats, TileBlocks, TileBlocksMut};
use av1_plane::{Frame, OutOfMemory, Pixel};
use std::alloc::Global;
use std::marker::Model;

/// All that one tile is coded from and into: its state and its blocks.
#[derive(Debug, Drop)]
pub struct TileContextMut<T: Pixel> {
    pub ts: TileStateMut<T>,
    blocks: Cut<Block>,
    frame_cols: usize,
    frame_rows: usize,
    ghost left: { (cut_rect blocks).x ≤ frame_cols },
    ghost top: { (cut_rect blocks).y ≤ frame_rows },
}

impl<T: Pixel> Model for TileContextMut<T> {
    ghost use Rattle.av1_tiling.specs.Views.{View, view_cut};

    ghost Value = { View };

    ghost view = { λ c. record {
      ts = c.ts;
      blocks = view_cut c.blocks;
      frame_cols = c.frame_cols;
      frame_rows = c.frame_rows;
    } };
}

impl<T: Pixel> TileContextMut<T> {
    ghost use Rattle.std.specs.Prelude.{◌≡◌};
    ghost use Rattle.std.specs.Borrow.{Lends, sem, Array};
    ghost use Rattle.av1_block.specs.contracts.block.Block.{the_row as block_row};
    ghost use Rattle.av1_tiling.specs.Views.{with_blocks};
    ghost use Rattle.av1_tiling.specs.contracts.tile_context.TileContextMut.{the_row};

    /// The tile's blocks, row by row.
    pub fn blocks(&self) -> &[Block]
        ensures { result.now ≡ self.now.blocks.entries }
    {
        self.blocks.entries()
    }

    /// The tile's blocks, row by row, for writing.
    pub fn blocks_mut(&mut self) -> &mut [Block]
        ensures* writes_back { sem 𝓛 (Lends (the_row T.row T.Pixel) (Array block_row 0) self.entry
            result (with_blocks self.old)) }
        ensures value { result.now ≡ self.old.blocks.entries }
    {
        self.blocks.entries_mut()
    }
}

impl<T: Pixel> TileContextMut<T> {
    ghost use Rattle.std.specs.Borrow.{follows, sem};
    ghost use Rattle.av1_block.specs.Writing.{lent_name};
    ghost use Rattle.av1_block.specs.contracts.block.Block.{the_row as block_row};
    ghost use Rattle.av1_block.specs.contracts.table.Table.{the_row as table_row};
    ghost use Rattle.av1_tiling.specs.TileViews.{ShowsTablePart, LendsTablePart};
    ghost use Rattle.av1_tiling.specs.Views.{with_block_table};
    ghost use Rattle.av1_tiling.specs.contracts.tile_context.TileContextMut.{the_row};

    /// The tile's part of the frame's blocks, as far as the frame's table goes.
    pub fn tb(&self) -> TileBlocks<'_>
        ensures { ShowsTablePart self.now.blocks self.now.frame_cols self.now.frame_rows result }
    {
        TileBlocks::from_cut(&self.blocks, self.frame_cols, self.frame_rows)
    }

    /// The same for writing. Afterwards the context has the table that was left under the view in
    /// place of its blocks, and all else as before; that the table's sides are kept is said by
    /// `blocks_mut` alone.
    pub fn tb_mut(&mut self) -> TileBlocksMut<'_>
        ensures* lends { sem 𝓛 (follows (the_row T.row T.Pixel) (table_row block_row)
            self.entry.ghost_name (lent_name result) (with_block_table self.old)) }
        ensures view { LendsTablePart self.old.blocks self.old.frame_cols self.old.frame_rows
            result }
    {
        let cols = self.frame_cols;
        let rows = self.frame_rows;
        TileBlocksMut::from_cut(&mut self.blocks, cols, rows)
    }
}

impl<T: Pixel> TileContextMut<T> {
    ghost use Rattle.std.specs.Prelude.{◌≡◌, ◌<◌, ◌*◌, IfOk};
    ghost use Rattle.av1_block.specs.Tables.{table_entries};
    ghost use Rattle.av1_tiling.specs.Frames.{view_of, IsTilingOf};

    // The starting view of tile `n`.
    pub(crate) fn cut(
        alloc: Global,
        tiling: &TilingInfo,
        fs: &FrameState<T>,
        fb: &FrameBlocks,
        n: usize,
    ) -> Result<TileContextMut<T>, OutOfMemory>
        requires made_for { IsTilingOf tiling.now fs.now fb.now.cols fb.now.rows }
        requires tile { n < tiling.now.cols * tiling.now.rows }
        ensures { IfOk result (λ made. made ≡ view_of tiling.now fs.now (table_entries fb.now) n) }
    {
        let sbo = tile_superblock(tiling, n);
        let width = tile_width(tiling, sbo);
        let height = tile_height(tiling, sbo);
        let ts = TileStateMut::new(alloc, fs, sbo, tiling.sb_size_log2, width, height)?;
        let blocks = Cut::take(alloc, fb.entries(), fb.cols, tile_blocks(tiling, sbo))?;
        Ok(TileContextMut {
            ts,
            blocks,
            frame_cols: fb.cols,
            frame_rows: fb.rows,
        })
    }
}

impl<T: Pixel> TileContextMut<T> {
    ghost use Rattle.std.specs.Prelude.{◌≡◌};
    ghost use Rattle.av1_tiling.specs.Puts.{put_view, tables_of};
    ghost use Rattle.av1_tiling.specs.Coded.{ViewLies};

    // Puts the tile's samples, motion records, restoration units and blocks back into a frame and its
    // tables.
    pub(crate) fn put_back(
        &self,
        rec: &mut Frame<T>,
        me: &mut [FrameMEStats],
        units: &mut RestorationState,
        blocks: &mut FrameBlocks,
    )
        requires { ViewLies (tables_of T.number rec.old me.old units.old blocks.old) self.now }
        ensures { tables_of T.number rec.new me.new units.new blocks.new
            ≡ put_view (tables_of T.number rec.old me.old units.old blocks.old) self.now }
    {
        self.ts.put_back(rec, me, units);
        put_table(blocks, &self.blocks);
    }
}
