use crate::block::Block;
use crate::block_size::BlockSize;
use crate::each::call_in_rectangle;
use crate::tile_view_mut::TileViewMut;
use av1_plane::{TileBlockOffset, TileSuperBlockOffset};
use std::ops::{Index, IndexMut};

/// A rectangle of a table of blocks, for reading and writing.
pub type TileBlocksMut<'a> = TileViewMut<'a, Block>;

impl TileViewMut<'_, Block> {
    ghost use Rattle.std.specs.Prelude.{◌≡◌, ◌-◌, ◌*◌, ◌<◌, ◌≤◌, All};
    ghost use Rattle.av1_block.specs.Writing.{window, entries_under, block_under, IsPlaced, IsSameView, blocks_at, with_blocks_at};
    ghost use Rattle.av1_block.specs.Each.{Takes, Leaves, AreRelated};

    /// The block above.
    pub fn above_of(&self, bo: TileBlockOffset) -> &Block
        requires placed { IsPlaced self.now }
        requires above { 1 ≤ bo.0.y }
        requires row { bo.0.y - 1 < (window self.now).rows }
        requires column { bo.0.x < (window self.now).cols }
        ensures { result.now ≡ block_under self.now bo.0.x (bo.0.y - 1) }
    {
        self.block_at(bo.0.x, bo.0.y - 1)
    }

    /// The block to the left.
    pub fn left_of(&self, bo: TileBlockOffset) -> &Block
        requires placed { IsPlaced self.now }
        requires left { 1 ≤ bo.0.x }
        requires row { bo.0.y < (window self.now).rows }
        requires column { bo.0.x - 1 < (window self.now).cols }
        ensures { result.now ≡ block_under self.now (bo.0.x - 1) bo.0.y }
    {
        self.block_at(bo.0.x - 1, bo.0.y)
    }

    /// The block above and to the left.
    pub fn above_left_of(&self, bo: TileBlockOffset) -> &Block
        requires placed { IsPlaced self.now }
        requires above { 1 ≤ bo.0.y }
        requires left { 1 ≤ bo.0.x }
        requires row { bo.0.y - 1 < (window self.now).rows }
        requires column { bo.0.x - 1 < (window self.now).cols }
        ensures { result.now ≡ block_under self.now (bo.0.x - 1) (bo.0.y - 1) }
    {
        self.block_at(bo.0.x - 1, bo.0.y - 1)
    }

    /// The CDEF index of the superblock's first block.
    pub fn get_cdef(&self, sbo: TileSuperBlockOffset) -> u8
        requires placed { IsPlaced self.now }
        requires column { 16 * sbo.0.x < (window self.now).cols }
        requires row { 16 * sbo.0.y < (window self.now).rows }
        ensures { result ≡ (block_under self.now (16 * sbo.0.x) (16 * sbo.0.y)).cdef_index }
    {
        self.block_at(16 * sbo.0.x, 16 * sbo.0.y).cdef_index
    }

    #[tactic(auto, using(crate::proofs::Places::places))]
    fn block_at(&self, x: usize, y: usize) -> &Block
        requires placed { IsPlaced self.now }
        requires column { x < (window self.now).cols }
        requires row { y < (window self.now).rows }
        ensures { result.now ≡ block_under self.now x y }
    {
        let row = self.window.top + y;
        let column = self.window.left + x;
        let table = &*self.table;
        &table.entries()[row * table.cols + column]
    }

    /// Calls `f` on each block of the size `bsize` at `bo`, where the view has it.
    pub fn for_each<F: Fn(&mut Block)>(&mut self, bo: TileBlockOffset, bsize: BlockSize, f: F)
        requires placed { IsPlaced self.old }
        requires column { bo.0.x ≤ (window self.old).cols }
        requires row { bo.0.y ≤ (window self.old).rows }
        requires callable { All (Takes F.Fn f) (blocks_at self.old bo.0 bsize) }
        ensures same { IsSameView self.old self.new }
        ensures placed { IsPlaced self.new }
        ensures changed { AreRelated (Leaves F.Fn f) (blocks_at self.old bo.0 bsize)
            (blocks_at self.new bo.0 bsize) }
        ensures elsewhere { entries_under self.new ≡ with_blocks_at self.old bo.0 bsize
            (blocks_at self.new bo.0 bsize) }
    {
        let part = self
            .window
            .part(bo.0.x, bo.0.y, bsize.width_mi(), bsize.height_mi());
        let table = &mut *self.table;
        let cols = table.cols;
        let entries = table.entries_mut();
        call_in_rectangle(&f, entries, cols, part.left, part.top, part.cols, part.rows);
    }
}

impl Index<TileBlockOffset> for TileViewMut<'_, Block> {
    type Output = Block;

    ghost use Rattle.std.specs.Prelude.{◌≡◌, ◌<◌};
    ghost use Rattle.av1_block.specs.Writing.{window, block_under, IsPlaced};

    ghost can_index = { λ v bo. IsPlaced v
        × (bo.0.x < (window v).cols) × (bo.0.y < (window v).rows) };

    ghost index_gives = { λ v bo block. block ≡ block_under v bo.0.x bo.0.y };

    fn index(&self, bo: TileBlockOffset) -> &Block {
        self.block_at(bo.0.x, bo.0.y)
    }
}

impl IndexMut<TileBlockOffset> for TileViewMut<'_, Block> {
    ghost use Rattle.std.specs.Prelude.{◌≡◌, ◌<◌, []};
    ghost use Rattle.std.specs.Borrow.{sem, Lends};
    ghost use mir.Syntax.{named};
    ghost use Rattle.av1_block.specs.Writing.{window, block_under, place_under, IsPlaced, with_entry_at};
    ghost use Rattle.av1_block.specs.contracts.block.Block.{the_row as block_row};
    ghost use Rattle.av1_block.specs.contracts.tile_view_mut.TileViewMut as view;

    fn index_mut(&mut self, bo: TileBlockOffset) -> &mut Block
        requires placed { IsPlaced self.old }
        requires column { bo.0.x < (window self.old).cols }
        requires row { bo.0.y < (window self.old).rows }
        ensures* lends { sem 𝓛 (Lends
            (view.the_row (record { mir = named 1; lft = [] }) block_row) block_row
            self.entry result (with_entry_at self.old (place_under self.old bo.0.x bo.0.y))) }
        ensures block { result.now ≡ block_under self.old bo.0.x bo.0.y }
    {
        let row = self.window.top + bo.0.y;
        let column = self.window.left + bo.0.x;
        self.table.entry_mut(column, row)
    }
}
