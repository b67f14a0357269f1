ghost use Rattle.av1_block.specs.Motion.{no_stats};
ghost use Rattle.std.specs.Prelude.{◌≡◌, ◌*◌, ◌≤◌, replicate, IfOk};

use crate::block::MotionVector;
use crate::table::Table;
use crate::tile_view::TileView;
use crate::tile_view_mut::TileViewMut;
use av1_plane::OutOfMemory;
use std::alloc::Global;

/// What motion estimation found for one unit of 4 by 4 luma samples.
#[derive(Clone, Copy, Debug)]
pub struct MEStats {
    pub mv: MotionVector,
    /// The sum of absolute differences, for an area of fixed size.
    pub normalized_sad: u32,
}

impl Default for MEStats {
    ghost is_default = { λ stats. stats ≡ no_stats };

    /// No motion, and no difference.
    fn default() -> MEStats {
        MEStats {
            mv: MotionVector::default(),
            normalized_sad: 0,
        }
    }
}

/// The motion records of a frame.
pub type FrameMEStats = Table<MEStats>;

/// A rectangle of a table of motion records, for reading.
pub type TileMEStats<'a> = TileView<'a, MEStats>;

/// A rectangle of a table of motion records, for reading and writing.
pub type TileMEStatsMut<'a> = TileViewMut<'a, MEStats>;

impl Table<MEStats> {
    /// A table of default records, with sides of at most 16384.
    pub fn new(alloc: Global, cols: usize, rows: usize) -> Result<FrameMEStats, OutOfMemory>
        requires cols { cols ≤ 16384 }
        requires rows { rows ≤ 16384 }
        ensures cols { IfOk result (λ made. made.cols ≡ cols) }
        ensures rows { IfOk result (λ made. made.rows ≡ rows) }
        ensures stats { IfOk result (λ made. made.entries ≡ replicate (cols * rows) no_stats) }
    {
        let stats = default_stats(alloc, cols * rows)?;
        Ok(Table::from_entries(stats, cols, rows))
    }
}

fn default_stats(alloc: Global, count: usize) -> Result<Vec<MEStats>, OutOfMemory>
    ensures { IfOk result (λ made. made.items ≡ replicate count no_stats) }
{
    Ok(vec![in alloc; MEStats::default(); count]?)
}
