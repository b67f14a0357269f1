//! A tile's units of all planes, for writing.
ghost use Rattle.std.specs.Prelude.{◌≡◌, ◌<◌, ◌^◌, is_some};
ghost use Rattle.av1_plane.specs.Three.{plane_at};
ghost use Rattle.av1_block.specs.Writing.{IsPlaced};
ghost use Rattle.av1_tiling.specs.Restoration.{units_of};
ghost use Rattle.av1_tiling.specs.Views.{view_cut};
ghost use Rattle.av1_tiling.specs.UnitViews.{HasShifts, IsViewOf, LendsUnitPart, LendsTileUnits, unit_index, sides_under};

use crate::part::units_rect;
use crate::restoration_plane::{RestorationPlane, RestorationPlaneConfig};
use crate::restoration_state::RestorationState;
use crate::tile_restoration_plane_mut::TileRestorationPlaneMut;
use crate::tile_restoration_state::TileRestorationState;
use av1_block::{Cut, RestorationUnit};
use av1_plane::{PlaneSuperBlockOffset, Three, TileSuperBlockOffset};

/// A tile's units of all planes, for reading and writing.
#[derive(Debug, Drop)]
pub struct TileRestorationStateMut<'a> {
    pub planes: Three<TileRestorationPlaneMut<'a>>,
}

impl<'a> TileRestorationStateMut<'a> {
    /// The units of the tile whose first superblock is `sbo` and whose sides are so many superblocks,
    /// where each plane has them.
    pub fn new(
        rs: &'a mut RestorationState,
        sbo: PlaneSuperBlockOffset,
        sb_width: usize,
        sb_height: usize,
    ) -> TileRestorationStateMut<'a>
        requires y_shifts { HasShifts rs.old.planes.y.cfg }
        requires u_shifts { HasShifts rs.old.planes.u.cfg }
        requires v_shifts { HasShifts rs.old.planes.v.cfg }
        requires width { sb_width < 2 ^ 32 }
        requires height { sb_height < 2 ^ 32 }
        ensures y { LendsTileUnits (units_of rs.old.planes.y) sbo.0 (sb_width, sb_height)
            result.planes.y }
        ensures u { LendsTileUnits (units_of rs.old.planes.u) sbo.0 (sb_width, sb_height)
            result.planes.u }
        ensures v { LendsTileUnits (units_of rs.old.planes.v) sbo.0 (sb_width, sb_height)
            result.planes.v }
    {
        let Three { y, u, v } = &mut rs.planes;
        let y = tile_units(y, sbo, sb_width, sb_height);
        let u = tile_units(u, sbo, sb_width, sb_height);
        let v = tile_units(v, sbo, sb_width, sb_height);
        TileRestorationStateMut {
            planes: Three { y, u, v },
        }
    }

    // The units that a tile owns, out of tables that are laid out so.
    pub(crate) fn of_cuts(
        layouts: &'a Three<RestorationPlaneConfig>,
        units: &'a mut Three<Cut<RestorationUnit>>,
    ) -> TileRestorationStateMut<'a>
        ensures y { LendsUnitPart layouts.now.y (view_cut units.old.y) result.planes.y }
        ensures u { LendsUnitPart layouts.now.u (view_cut units.old.u) result.planes.u }
        ensures v { LendsUnitPart layouts.now.v (view_cut units.old.v) result.planes.v }
    {
        let Three { y, u, v } = units;
        let y = TileRestorationPlaneMut::of_cut(&layouts.y, y);
        let u = TileRestorationPlaneMut::of_cut(&layouts.u, u);
        let v = TileRestorationPlaneMut::of_cut(&layouts.v, v);
        TileRestorationStateMut {
            planes: Three { y, u, v },
        }
    }

    /// The same units, for reading.
    pub fn as_const(&self) -> TileRestorationState<'_>
        requires y_placed { IsPlaced self.now.planes.y.units }
        requires u_placed { IsPlaced self.now.planes.u.units }
        requires v_placed { IsPlaced self.now.planes.v.units }
        ensures y { IsViewOf self.now.planes.y result.planes.y }
        ensures u { IsViewOf self.now.planes.u result.planes.u }
        ensures v { IsViewOf self.now.planes.v result.planes.v }
    {
        TileRestorationState {
            planes: Three {
                y: self.planes.y.as_const(),
                u: self.planes.u.as_const(),
                v: self.planes.v.as_const(),
            },
        }
    }

    /// Whether plane `pli` has a unit that a superblock of the tile belongs to.
    pub fn has_restoration_unit(&self, sbo: TileSuperBlockOffset, pli: usize, stretch: bool) -> bool
        requires plane { pli < 3 }
        requires shifts { HasShifts (plane_at self.now.planes pli).rp_cfg.now }
        ensures { let plane = plane_at self.now.planes pli in
            result ≡ is_some (unit_index plane.rp_cfg.now (sides_under plane.units) sbo.0 stretch) }
    {
        self.planes[pli]
            .restoration_unit_index(sbo, stretch)
            .is_some()
    }
}

// The tile's units of a plane.
fn tile_units<'a>(
    plane: &'a mut RestorationPlane,
    sbo: PlaneSuperBlockOffset,
    sb_width: usize,
    sb_height: usize,
) -> TileRestorationPlaneMut<'a>
    requires shifts { HasShifts plane.old.cfg }
    requires width { sb_width < 2 ^ 32 }
    requires height { sb_height < 2 ^ 32 }
    ensures { LendsTileUnits (units_of plane.old) sbo.0 (sb_width, sb_height) result }
{
    let rect = units_rect(plane, sbo, sb_width, sb_height);
    TileRestorationPlaneMut::new(plane, rect.x, rect.y, rect.width, rect.height)
}
