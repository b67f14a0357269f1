//! A tile's units of a plane.
ghost use Rattle.std.specs.Prelude.{◌≡◌, ◌+◌, ◌*◌, ◌<◌, ◌≤◌, ◌^◌, IfSome, drop, option_map};
ghost use Rattle.av1_plane.specs.Offset.{superblock_sum};
ghost use Rattle.av1_block.specs.Tables.{view_entries, view_step, view_x, view_y, view_cols, view_rows};
ghost use Rattle.av1_tiling.specs.Views.{view_cut};
ghost use Rattle.av1_tiling.specs.UnitViews.{HasShifts, ShowsUnitPart, wiener_start, sgrproj_start, unit_index, unit_at, index_difference, view_sides, across_side, down_side, is_last_superblock, Serves};

use crate::frame_invariants::FrameInvariants;
use crate::restoration::{SGRPROJ_XQD_MID, WIENER_TAPS_MID};
use crate::restoration_plane::{RestorationPlane, RestorationPlaneConfig};
use crate::unit_side::UnitSide;
use av1_block::{Cut, RestorationUnit, TileRestorationUnits};
use av1_plane::{Pixel, PlaneSuperBlockOffset, TileRect, TileSuperBlockOffset};

/// A tile's units of a plane, for reading, and the filters that the first of them are coded against.
#[derive(Debug, Drop)]
pub struct TileRestorationPlane<'a> {
    pub rp_cfg: &'a RestorationPlaneConfig,
    pub wiener_ref: [[i8; 3]; 2],
    pub sgrproj_ref: [i8; 2],
    pub units: TileRestorationUnits<'a>,
}

impl<'a> TileRestorationPlane<'a> {
    /// The rectangle of `units_cols` by `units_rows` units at column `units_x` of row `units_y`.
    pub fn new(
        rp: &'a RestorationPlane,
        units_x: usize,
        units_y: usize,
        units_cols: usize,
        units_rows: usize,
    ) -> TileRestorationPlane<'a>
        requires across { units_x + units_cols ≤ rp.now.units.cols }
        requires down { units_y + units_rows ≤ rp.now.units.rows }
        ensures cfg { result.rp_cfg.now ≡ rp.now.cfg }
        ensures wiener { result.wiener_ref ≡ wiener_start }
        ensures sgrproj { result.sgrproj_ref ≡ sgrproj_start }
        ensures entries { view_entries result.units
            ≡ drop (units_y * rp.now.units.cols + units_x) rp.now.units.entries }
        ensures step { view_step result.units ≡ rp.now.units.cols }
        ensures x { view_x result.units ≡ units_x }
        ensures y { view_y result.units ≡ units_y }
        ensures cols { view_cols result.units ≡ units_cols }
        ensures rows { view_rows result.units ≡ units_rows }
    {
        TileRestorationPlane {
            rp_cfg: &rp.cfg,
            wiener_ref: [WIENER_TAPS_MID; 2],
            sgrproj_ref: SGRPROJ_XQD_MID,
            units: TileRestorationUnits::new(&rp.units, units_x, units_y, units_cols, units_rows),
        }
    }

    // The units that a tile owns, out of the table of a plane that is laid out so.
    pub(crate) fn of_cut(
        cfg: &'a RestorationPlaneConfig,
        cut: &'a Cut<RestorationUnit>,
    ) -> TileRestorationPlane<'a>
        ensures { ShowsUnitPart cfg.now (view_cut cut.now) result }
    {
        let TileRect { x, y, .. } = cut.rect();
        TileRestorationPlane {
            rp_cfg: cfg,
            wiener_ref: [WIENER_TAPS_MID; 2],
            sgrproj_ref: SGRPROJ_XQD_MID,
            units: TileRestorationUnits::from_cut(cut, cfg.cols.max(x), cfg.rows.max(y)),
        }
    }

    /// The column and row of the unit that a superblock of the tile belongs to. With `stretch` a
    /// superblock past the tile's units belongs to the last one where the frame has that superblock;
    /// without it there is none for such a superblock.
    pub fn restoration_unit_index(
        &self,
        sbo: TileSuperBlockOffset,
        stretch: bool,
    ) -> Option<(usize, usize)>
        requires { HasShifts self.now.rp_cfg.now }
        ensures value { result
            ≡ unit_index self.now.rp_cfg.now (view_sides self.now.units) sbo.0 stretch }
        ensures column { let side = across_side self.now.rp_cfg.now (view_cols self.now.units) in
            IfSome result (λ place. Serves side sbo.0.x place.0) }
        ensures row { let side = down_side self.now.rp_cfg.now (view_rows self.now.units) in
            IfSome result (λ place. Serves side sbo.0.y place.1) }
    {
        let x = across(self.rp_cfg, self.units.cols()).unit_along(sbo.0.x, stretch)?;
        let y = down(self.rp_cfg, self.units.rows()).unit_along(sbo.0.y, stretch)?;
        Some((x, y))
    }

    /// The unit that a superblock of the tile belongs to.
    pub fn restoration_unit(
        &self,
        sbo: TileSuperBlockOffset,
        stretch: bool,
    ) -> Option<&RestorationUnit>
        requires { HasShifts self.now.rp_cfg.now }
        ensures { option_map (λ u. u.now) result ≡ option_map (unit_at self.now.units)
            (unit_index self.now.rp_cfg.now (view_sides self.now.units) sbo.0 stretch) }
    {
        let (x, y) = self.restoration_unit_index(sbo, stretch)?;
        Some(&self.units.row(y)[x])
    }

    /// How many columns and rows the unit of superblock `base + offset` stands past the unit of `base`.
    pub fn restoration_unit_offset(
        &self,
        base: TileSuperBlockOffset,
        offset: TileSuperBlockOffset,
        stretch: bool,
    ) -> Option<(usize, usize)>
        requires shifts { HasShifts self.now.rp_cfg.now }
        requires base_x { base.0.x < 2 ^ 32 }
        requires base_y { base.0.y < 2 ^ 32 }
        requires offset_x { offset.0.x < 2 ^ 32 }
        requires offset_y { offset.0.y < 2 ^ 32 }
        ensures { let index = unit_index self.now.rp_cfg.now (view_sides self.now.units) in
            result ≡ index_difference (index base.0 stretch)
            (index (superblock_sum base.0 offset.0) stretch) }
    {
        let (base_x, base_y) = self.restoration_unit_index(base, stretch)?;
        let (x, y) = self.restoration_unit_index(base + offset, stretch)?;
        Some((x - base_x, y - base_y))
    }

    /// The place of a unit among the tile's, counted row by row.
    pub fn restoration_unit_countable(&self, x: usize, y: usize) -> usize
        requires x { x < 2 ^ 32 }
        requires y { y < 2 ^ 32 }
        requires cols { view_cols self.now.units < 2 ^ 31 }
        ensures { result ≡ y * view_cols self.now.units + x }
    {
        y * self.units.cols() + x
    }

    /// Whether a superblock is the last one, in both directions, of its unit inside the tile,
    /// or of the frame.
    pub fn restoration_unit_last_sb_for_rdo<T: Pixel>(
        &self,
        fi: &FrameInvariants<T>,
        global_sbo: PlaneSuperBlockOffset,
        tile_sbo: TileSuperBlockOffset,
    ) -> bool
        requires shifts { HasShifts self.now.rp_cfg.now }
        requires first_x { global_sbo.0.x < 2 ^ 32 }
        requires first_y { global_sbo.0.y < 2 ^ 32 }
        requires x { tile_sbo.0.x < 2 ^ 32 }
        requires y { tile_sbo.0.y < 2 ^ 32 }
        ensures { result ≡ is_last_superblock self.now.rp_cfg.now (view_sides self.now.units)
            (fi.now.sb_width, fi.now.sb_height) global_sbo.0 tile_sbo.0 }
    {
        let columns = across(self.rp_cfg, self.units.cols());
        let rows = down(self.rp_cfg, self.units.rows());
        columns.is_last(fi.sb_width, global_sbo.0.x, tile_sbo.0.x)
            && rows.is_last(fi.sb_height, global_sbo.0.y, tile_sbo.0.y)
    }
}

// The sides of a view with so many columns and rows of units.
pub(crate) fn across(cfg: &RestorationPlaneConfig, cols: usize) -> UnitSide
    ensures { result ≡ across_side cfg.now cols }
{
    UnitSide {
        superblocks: cfg.sb_cols,
        shift: cfg.sb_h_shift,
        units: cols,
    }
}

pub(crate) fn down(cfg: &RestorationPlaneConfig, rows: usize) -> UnitSide
    ensures { result ≡ down_side cfg.now rows }
{
    UnitSide {
        superblocks: cfg.sb_rows,
        shift: cfg.sb_v_shift,
        units: rows,
    }
}
