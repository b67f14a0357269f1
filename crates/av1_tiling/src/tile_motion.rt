ghost use Rattle.std.specs.Prelude.{◌≡◌, ◌≤◌, All, vec_len};
ghost use Rattle.av1_block.specs.Cut.{cut_rect};

use crate::part::cut_motion;
use av1_block::{Cut, FrameMEStats, MEStats, TileMEStats, TileMEStatsMut};
use av1_plane::{OutOfMemory, TileRect};
use std::alloc::Global;
use std::marker::Model;

/// A tile's parts of the eight tables of motion records of a frame.
#[derive(Debug, Drop)]
pub struct TileMotion {
    cuts: Vec<Cut<MEStats>>,
    /// The sides of the tables, in units of 4 luma samples.
    mi_cols: usize,
    mi_rows: usize,
    ghost eight: { vec_len cuts ≡ 8 },
    ghost left: { All (λ cut. (cut_rect cut).x ≤ mi_cols) cuts.items },
    ghost top: { All (λ cut. (cut_rect cut).y ≤ mi_rows) cuts.items },
}

impl Model for TileMotion {
    ghost use Rattle.std.specs.Prelude.{map};
    ghost use Rattle.av1_tiling.specs.Views.{Motion, view_cut};

    ghost Value = { Motion };

    ghost view = { λ m. record {
      parts = map view_cut m.cuts.items;
      mi_cols = m.mi_cols;
      mi_rows = m.mi_rows;
    } };
}

impl TileMotion {
    ghost use Rattle.std.specs.Prelude.{◌+◌, ◌<◌, IfOk, map};
    ghost use Rattle.std.specs.Borrow.{sem, follows, Lends, Array};
    ghost use Rattle.av1_block.specs.Writing.{lent_name};
    ghost use Rattle.av1_block.specs.contracts.me_stats.MEStats.{the_row as stats_row};
    ghost use Rattle.av1_block.specs.contracts.table.Table.{the_row as table_row};
    ghost use Rattle.av1_tiling.specs.Views.{view_cut};
    ghost use Rattle.av1_tiling.specs.Frames.{motion_parts, AreMotionTables};
    ghost use Rattle.av1_tiling.specs.TileViews.{ShowsTablePart, LendsTablePart, motion_part_at, with_motion_records, with_motion_table};
    ghost use Rattle.av1_tiling.specs.contracts.tile_motion.TileMotion.{the_row};

    /// The parts that a rectangle covers.
    pub(crate) fn take(
        alloc: Global,
        tables: &[FrameMEStats],
        rect: TileRect,
        mi_cols: usize,
        mi_rows: usize,
    ) -> Result<TileMotion, OutOfMemory>
        requires tables { AreMotionTables mi_cols mi_rows tables.now }
        requires across { rect.x + rect.width ≤ mi_cols }
        requires down { rect.y + rect.height ≤ mi_rows }
        ensures parts { IfOk result (λ made. made.parts ≡ motion_parts tables.now rect) }
        ensures cols { IfOk result (λ made. made.mi_cols ≡ mi_cols) }
        ensures rows { IfOk result (λ made. made.mi_rows ≡ mi_rows) }
    {
        let cuts = cut_motion(alloc, tables, rect)?;
        Ok(TileMotion {
            cuts,
            mi_cols,
            mi_rows,
        })
    }

    /// The parts.
    pub(crate) fn cuts(&self) -> &[Cut<MEStats>]
        ensures { map view_cut result.now ≡ self.now.parts }
    {
        self.cuts.as_slice()
    }

    /// The part of table `i`, row by row, for writing.
    pub(crate) fn records_mut(&mut self, i: usize) -> &mut [MEStats]
        requires { i < 8 }
        ensures* lends { sem 𝓛 (Lends the_row (Array stats_row 0) self.entry result
            (with_motion_records self.old i)) }
        ensures value { result.now ≡ (motion_part_at self.old.parts i).entries }
    {
        self.cuts[i].entries_mut()
    }

    /// The part of table `i`, at its place in the frame.
    pub(crate) fn view(&self, i: usize) -> TileMEStats<'_>
        requires { i < 8 }
        ensures { ShowsTablePart (motion_part_at self.now.parts i) self.now.mi_cols
            self.now.mi_rows result }
    {
        TileMEStats::from_cut(&self.cuts[i], self.mi_cols, self.mi_rows)
    }

    /// The part of table `i`, at its place in the frame, for writing.
    pub(crate) fn view_mut(&mut self, i: usize) -> TileMEStatsMut<'_>
        requires { i < 8 }
        ensures* lends { sem 𝓛 (follows the_row (table_row stats_row)
            self.entry.ghost_name (lent_name result) (with_motion_table self.old i)) }
        ensures view { LendsTablePart (motion_part_at self.old.parts i) self.old.mi_cols
            self.old.mi_rows result }
    {
        let cols = self.mi_cols;
        let rows = self.mi_rows;
        TileMEStatsMut::from_cut(&mut self.cuts[i], cols, rows)
    }
}
