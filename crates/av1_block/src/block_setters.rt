use crate::block::{Block, MotionVector};
use crate::block_size::BlockSize;
use crate::prediction_mode::PredictionMode;
use crate::ref_type::RefType;
use crate::tile_view_mut::TileViewMut;
use crate::tx_size::TxSize;
use av1_plane::{BlockOffset, TileBlockOffset, TileSuperBlockOffset};

/// Setters that write one field of every block of the size `bsize` at `bo`, as far as the view goes.
impl TileViewMut<'_, Block> {
    ghost use Rattle.std.specs.Prelude.{◌≡◌, ◌*◌, ◌<◌};
    ghost use Rattle.av1_block.specs.Each.{Computes};
    ghost use Rattle.av1_block.specs.Sides.{block_width, block_height};
    ghost use Rattle.av1_block.specs.Writing.{window, IsPlaced, IsSetAt};

    /// How the blocks are predicted.
    pub fn set_mode(&mut self, bo: TileBlockOffset, bsize: BlockSize, mode: PredictionMode)
        requires placed { IsPlaced self.old }
        requires column { bo.0.x < (window self.old).cols }
        requires row { bo.0.y < (window self.old).rows }
        ensures { IsSetAt self.old self.new bo.0 bsize (λ b. record b { mode = mode }) }
    {
        self.set_each(bo, bsize, |block| block.mode = mode);
    }

    /// The size, and the sides in units.
    pub fn set_block_size(&mut self, bo: TileBlockOffset, bsize: BlockSize)
        requires placed { IsPlaced self.old }
        requires column { bo.0.x < (window self.old).cols }
        requires row { bo.0.y < (window self.old).rows }
        ensures { IsSetAt self.old self.new bo.0 bsize
            (λ b. record b { bsize = bsize; n4_w = block_width bsize; n4_h = block_height bsize }) }
    {
        let n4_w = bsize.width_mi() as u8;
        let n4_h = bsize.height_mi() as u8;
        self.set_each(bo, bsize, |block| {
            block.bsize = bsize;
            block.n4_w = n4_w;
            block.n4_h = n4_h;
        });
    }

    /// The size of the transforms.
    pub fn set_tx_size(&mut self, bo: TileBlockOffset, bsize: BlockSize, tx_size: TxSize)
        requires placed { IsPlaced self.old }
        requires column { bo.0.x < (window self.old).cols }
        requires row { bo.0.y < (window self.old).rows }
        ensures { IsSetAt self.old self.new bo.0 bsize (λ b. record b { txsize = tx_size }) }
    {
        self.set_each(bo, bsize, |block| block.txsize = tx_size);
    }

    /// Whether no coefficients are coded.
    pub fn set_skip(&mut self, bo: TileBlockOffset, bsize: BlockSize, skip: bool)
        requires placed { IsPlaced self.old }
        requires column { bo.0.x < (window self.old).cols }
        requires row { bo.0.y < (window self.old).rows }
        ensures { IsSetAt self.old self.new bo.0 bsize (λ b. record b { skip = skip }) }
    {
        self.set_each(bo, bsize, |block| block.skip = skip);
    }

    /// The segment.
    pub fn set_segmentation_idx(&mut self, bo: TileBlockOffset, bsize: BlockSize, idx: u8)
        requires placed { IsPlaced self.old }
        requires column { bo.0.x < (window self.old).cols }
        requires row { bo.0.y < (window self.old).rows }
        ensures { IsSetAt self.old self.new bo.0 bsize (λ b. record b { segmentation_idx = idx }) }
    {
        self.set_each(bo, bsize, |block| block.segmentation_idx = idx);
    }

    /// The references.
    pub fn set_ref_frames(&mut self, bo: TileBlockOffset, bsize: BlockSize, refs: [RefType; 2])
        requires placed { IsPlaced self.old }
        requires column { bo.0.x < (window self.old).cols }
        requires row { bo.0.y < (window self.old).rows }
        ensures { IsSetAt self.old self.new bo.0 bsize (λ b. record b { ref_frames = refs }) }
    {
        self.set_each(bo, bsize, |block| block.ref_frames = refs);
    }

    /// The motion vectors.
    pub fn set_motion_vectors(
        &mut self,
        bo: TileBlockOffset,
        bsize: BlockSize,
        mvs: [MotionVector; 2],
    )
        requires placed { IsPlaced self.old }
        requires column { bo.0.x < (window self.old).cols }
        requires row { bo.0.y < (window self.old).rows }
        ensures { IsSetAt self.old self.new bo.0 bsize (λ b. record b { mv = mvs }) }
    {
        self.set_each(bo, bsize, |block| block.mv = mvs);
    }

    /// The CDEF index of each block of the superblock, which has 16 by 16 units, where the view has
    /// it.
    pub fn set_cdef(&mut self, sbo: TileSuperBlockOffset, cdef_index: u8)
        requires placed { IsPlaced self.old }
        requires column { 16 * sbo.0.x < (window self.old).cols }
        requires row { 16 * sbo.0.y < (window self.old).rows }
        ensures { IsSetAt self.old self.new (record { x = 16 * sbo.0.x; y = 16 * sbo.0.y })
            BlockSize.BLOCK_64X64 (λ b. record b { cdef_index = cdef_index }) }
    {
        let bo = TileBlockOffset(BlockOffset {
            x: 16 * sbo.0.x,
            y: 16 * sbo.0.y,
        });
        self.set_each(
            bo,
            BlockSize::BLOCK_64X64,
            |block| block.cdef_index = cdef_index,
        );
    }

    // `for_each`, of a function that can be called on any block: where its calls compute `change`,
    // `change` is what is done.
    fn set_each<F: Fn(&mut Block)>(&mut self, bo: TileBlockOffset, bsize: BlockSize, f: F)
        requires placed { IsPlaced self.old }
        requires column { bo.0.x < (window self.old).cols }
        requires row { bo.0.y < (window self.old).rows }
        requires callable { F.IsAlwaysCallable f }
        ensures { (change : _) → Computes F.Fn f change
            → IsSetAt self.old self.new bo.0 bsize change }
    {
        self.for_each(bo, bsize, f);
    }
}
