//! A tile's units of a plane, for writing.
ghost use Rattle.std.specs.Prelude.{◌≡◌, ◌+◌, ◌*◌, ◌<◌, ◌≤◌, ◌^◌, IfSome, true, drop, option_map};
ghost use Rattle.av1_plane.specs.Offset.{superblock_sum};
ghost use Rattle.av1_block.specs.Tables.{view_entries, view_step, view_x, view_y, view_cols, view_rows};
ghost use Rattle.av1_block.specs.Writing.{window, table_under, entries_under, place_under, IsPlaced};
ghost use Rattle.av1_block.specs.Windows.{frame_window};
ghost use Rattle.av1_tiling.specs.Views.{view_cut};
ghost use Rattle.av1_tiling.specs.UnitViews.{HasShifts, LendsUnitPart, wiener_start, sgrproj_start, unit_index, unit_under, index_difference, sides_under, across_side, down_side, is_last_superblock, Serves};

use crate::frame_invariants::FrameInvariants;
use crate::restoration::{SGRPROJ_XQD_MID, WIENER_TAPS_MID};
use crate::restoration_plane::{RestorationPlane, RestorationPlaneConfig};
use crate::tile_restoration_plane::{TileRestorationPlane, across, down};
use av1_block::{Cut, RestorationUnit, TileRestorationUnitsMut};
use av1_plane::{Pixel, PlaneSuperBlockOffset, TileRect, TileSuperBlockOffset};

/// A tile's units of a plane, for reading and writing, and the filters that the first of them are
/// coded against.
#[derive(Debug, Drop)]
pub struct TileRestorationPlaneMut<'a> {
    pub rp_cfg: &'a RestorationPlaneConfig,
    pub wiener_ref: [[i8; 3]; 2],
    pub sgrproj_ref: [i8; 2],
    pub units: TileRestorationUnitsMut<'a>,
}

impl<'a> TileRestorationPlaneMut<'a> {
    /// The rectangle of `units_cols` by `units_rows` units at column `units_x` of row `units_y`.
    pub fn new(
        rp: &'a mut RestorationPlane,
        units_x: usize,
        units_y: usize,
        units_cols: usize,
        units_rows: usize,
    ) -> TileRestorationPlaneMut<'a>
        requires across { units_x + units_cols ≤ rp.old.units.cols }
        requires down { units_y + units_rows ≤ rp.old.units.rows }
        ensures cfg { result.rp_cfg.now ≡ rp.old.cfg }
        ensures wiener { result.wiener_ref ≡ wiener_start }
        ensures sgrproj { result.sgrproj_ref ≡ sgrproj_start }
        ensures table { table_under result.units ≡ rp.old.units }
        ensures window { window result.units ≡ frame_window units_x units_y units_cols units_rows
            rp.old.units.cols rp.old.units.rows }
        ensures placed { IsPlaced result.units }
    {
        TileRestorationPlaneMut {
            rp_cfg: &rp.cfg,
            wiener_ref: [WIENER_TAPS_MID; 2],
            sgrproj_ref: SGRPROJ_XQD_MID,
            units: TileRestorationUnitsMut::new(
                &mut rp.units,
                units_x,
                units_y,
                units_cols,
                units_rows,
            ),
        }
    }

    // The units that a tile owns, out of the table of a plane that is laid out so.
    pub(crate) fn of_cut(
        cfg: &'a RestorationPlaneConfig,
        cut: &'a mut Cut<RestorationUnit>,
    ) -> TileRestorationPlaneMut<'a>
        ensures { LendsUnitPart cfg.now (view_cut cut.old) result }
    {
        let TileRect { x, y, .. } = cut.rect();
        TileRestorationPlaneMut {
            rp_cfg: cfg,
            wiener_ref: [WIENER_TAPS_MID; 2],
            sgrproj_ref: SGRPROJ_XQD_MID,
            units: TileRestorationUnitsMut::from_cut(cut, cfg.cols.max(x), cfg.rows.max(y)),
        }
    }

    /// The same units, for reading.
    pub fn as_const(&self) -> TileRestorationPlane<'_>
        requires { IsPlaced self.now.units }
        ensures cfg { result.rp_cfg.now ≡ self.now.rp_cfg.now }
        ensures wiener { result.wiener_ref ≡ self.now.wiener_ref }
        ensures sgrproj { result.sgrproj_ref ≡ self.now.sgrproj_ref }
        ensures entries { view_entries result.units
            ≡ drop (place_under self.now.units 0 0) (entries_under self.now.units) }
        ensures step { view_step result.units ≡ (table_under self.now.units).cols }
        ensures x { view_x result.units ≡ (window self.now.units).x }
        ensures y { view_y result.units ≡ (window self.now.units).y }
        ensures cols { view_cols result.units ≡ (window self.now.units).cols }
        ensures rows { view_rows result.units ≡ (window self.now.units).rows }
    {
        TileRestorationPlane {
            rp_cfg: self.rp_cfg,
            wiener_ref: self.wiener_ref,
            sgrproj_ref: self.sgrproj_ref,
            units: self.units.as_const(),
        }
    }

    /// The column and row of the unit that a superblock of the tile belongs to, as
    /// `TileRestorationPlane::restoration_unit_index` gives it.
    pub fn restoration_unit_index(
        &self,
        sbo: TileSuperBlockOffset,
        stretch: bool,
    ) -> Option<(usize, usize)>
        requires { HasShifts self.now.rp_cfg.now }
        ensures value { result
            ≡ unit_index self.now.rp_cfg.now (sides_under self.now.units) sbo.0 stretch }
        ensures column { let side = across_side self.now.rp_cfg.now (window self.now.units).cols in
            IfSome result (λ place. Serves side sbo.0.x place.0) }
        ensures row { let side = down_side self.now.rp_cfg.now (window self.now.units).rows in
            IfSome result (λ place. Serves side sbo.0.y place.1) }
    {
        let x = across(self.rp_cfg, self.units.cols()).unit_along(sbo.0.x, stretch)?;
        let y = down(self.rp_cfg, self.units.rows()).unit_along(sbo.0.y, stretch)?;
        Some((x, y))
    }

    /// The unit that a superblock of the tile belongs to.
    pub fn restoration_unit(
        &self,
        sbo: TileSuperBlockOffset,
        stretch: bool,
    ) -> Option<&RestorationUnit>
        requires shifts { HasShifts self.now.rp_cfg.now }
        requires placed { IsPlaced self.now.units }
        ensures { option_map (λ u. u.now) result ≡ option_map (unit_under self.now.units)
            (unit_index self.now.rp_cfg.now (sides_under self.now.units) sbo.0 stretch) }
    {
        let (x, y) = self.restoration_unit_index(sbo, stretch)?;
        Some(&self.units.row(y)[x])
    }

    /// The unit that a superblock of the tile belongs to, for writing; the last one serves the
    /// frame's superblocks past the tile's units. What the view has after a write is said by `get_mut`
    /// of its `units`.
    pub fn restoration_unit_mut(
        &mut self,
        sbo: TileSuperBlockOffset,
    ) -> Option<&mut RestorationUnit>
        requires shifts { HasShifts self.old.rp_cfg.now }
        requires placed { IsPlaced self.old.units }
        ensures unit { option_map (λ u. u.now) result ≡ option_map (unit_under self.old.units)
            (unit_index self.old.rp_cfg.now (sides_under self.old.units) sbo.0 true) }
    {
        let (x, y) = self.restoration_unit_index(sbo, true)?;
        Some(&mut self.units.row_mut(y)[x])
    }

    /// How many columns and rows the unit of superblock `base + offset` stands past that of `base`.
    pub fn restoration_unit_offset(
        &self,
        base: TileSuperBlockOffset,
        offset: TileSuperBlockOffset,
        stretch: bool,
    ) -> Option<(usize, usize)>
        requires shifts { HasShifts self.now.rp_cfg.now }
        requires base_x { base.0.x < 2 ^ 32 }
        requires base_y { base.0.y < 2 ^ 32 }
        requires offset_x { offset.0.x < 2 ^ 32 }
        requires offset_y { offset.0.y < 2 ^ 32 }
        ensures { let index = unit_index self.now.rp_cfg.now (sides_under self.now.units) in
            result ≡ index_difference (index base.0 stretch)
            (index (superblock_sum base.0 offset.0) stretch) }
    {
        let (base_x, base_y) = self.restoration_unit_index(base, stretch)?;
        let (x, y) = self.restoration_unit_index(base + offset, stretch)?;
        Some((x - base_x, y - base_y))
    }

    /// The place of a unit among the tile's, counted row by row.
    pub fn restoration_unit_countable(&self, x: usize, y: usize) -> usize
        requires x { x < 2 ^ 32 }
        requires y { y < 2 ^ 32 }
        requires cols { (window self.now.units).cols < 2 ^ 31 }
        ensures { result ≡ y * (window self.now.units).cols + x }
    {
        y * self.units.cols() + x
    }

    /// Whether a superblock is the last, in both directions, of those of its unit that the tile has,
    /// or of the frame's.
    pub fn restoration_unit_last_sb_for_rdo<T: Pixel>(
        &self,
        fi: &FrameInvariants<T>,
        global_sbo: PlaneSuperBlockOffset,
        tile_sbo: TileSuperBlockOffset,
    ) -> bool
        requires shifts { HasShifts self.now.rp_cfg.now }
        requires first_x { global_sbo.0.x < 2 ^ 32 }
        requires first_y { global_sbo.0.y < 2 ^ 32 }
        requires x { tile_sbo.0.x < 2 ^ 32 }
        requires y { tile_sbo.0.y < 2 ^ 32 }
        ensures { result ≡ is_last_superblock self.now.rp_cfg.now (sides_under self.now.units)
            (fi.now.sb_width, fi.now.sb_height) global_sbo.0 tile_sbo.0 }
    {
        let columns = across(self.rp_cfg, self.units.cols());
        let rows = down(self.rp_cfg, self.units.rows());
        columns.is_last(fi.sb_width, global_sbo.0.x, tile_sbo.0.x)
            && rows.is_last(fi.sb_height, global_sbo.0.y, tile_sbo.0.y)
    }
}
