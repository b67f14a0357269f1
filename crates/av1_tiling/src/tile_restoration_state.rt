//! A tile's units of all planes.
ghost use Rattle.std.specs.Prelude.{◌≡◌, ◌<◌, ◌^◌, is_some};
ghost use Rattle.av1_plane.specs.Three.{plane_at};
ghost use Rattle.av1_tiling.specs.Restoration.{units_of};
ghost use Rattle.av1_tiling.specs.UnitViews.{HasShifts, ShowsTileUnits, unit_index, view_sides};

use crate::part::units_rect;
use crate::restoration_plane::RestorationPlane;
use crate::restoration_state::RestorationState;
use crate::tile_restoration_plane::TileRestorationPlane;
use av1_plane::{PlaneSuperBlockOffset, Three, TileSuperBlockOffset};

/// A tile's units of all planes, for reading.
#[derive(Debug, Drop)]
pub struct TileRestorationState<'a> {
    pub planes: Three<TileRestorationPlane<'a>>,
}

impl<'a> TileRestorationState<'a> {
    /// The units of the tile whose first superblock is `sbo` and whose sides are so many superblocks,
    /// where each plane has them.
    pub fn new(
        rs: &'a RestorationState,
        sbo: PlaneSuperBlockOffset,
        sb_width: usize,
        sb_height: usize,
    ) -> TileRestorationState<'a>
        requires y_shifts { HasShifts rs.now.planes.y.cfg }
        requires u_shifts { HasShifts rs.now.planes.u.cfg }
        requires v_shifts { HasShifts rs.now.planes.v.cfg }
        requires width { sb_width < 2 ^ 32 }
        requires height { sb_height < 2 ^ 32 }
        ensures y { ShowsTileUnits (units_of rs.now.planes.y) sbo.0 (sb_width, sb_height)
            result.planes.y }
        ensures u { ShowsTileUnits (units_of rs.now.planes.u) sbo.0 (sb_width, sb_height)
            result.planes.u }
        ensures v { ShowsTileUnits (units_of rs.now.planes.v) sbo.0 (sb_width, sb_height)
            result.planes.v }
    {
        let planes = &rs.planes;
        TileRestorationState {
            planes: Three {
                y: tile_units(&planes.y, sbo, sb_width, sb_height),
                u: tile_units(&planes.u, sbo, sb_width, sb_height),
                v: tile_units(&planes.v, sbo, sb_width, sb_height),
            },
        }
    }

    /// Whether plane `pli` has a unit that a superblock of the tile belongs to.
    pub fn has_restoration_unit(&self, sbo: TileSuperBlockOffset, pli: usize, stretch: bool) -> bool
        requires plane { pli < 3 }
        requires shifts { HasShifts (plane_at self.now.planes pli).rp_cfg.now }
        ensures { let plane = plane_at self.now.planes pli in
            result ≡ is_some (unit_index plane.rp_cfg.now (view_sides plane.units) sbo.0 stretch) }
    {
        self.planes[pli].restoration_unit(sbo, stretch).is_some()
    }
}

// The tile's units of a plane.
fn tile_units(
    plane: &RestorationPlane,
    sbo: PlaneSuperBlockOffset,
    sb_width: usize,
    sb_height: usize,
) -> TileRestorationPlane<'_>
    requires shifts { HasShifts plane.now.cfg }
    requires width { sb_width < 2 ^ 32 }
    requires height { sb_height < 2 ^ 32 }
    ensures { ShowsTileUnits (units_of plane.now) sbo.0 (sb_width, sb_height) result }
{
    let rect = units_rect(plane, sbo, sb_width, sb_height);
    TileRestorationPlane::new(plane, rect.x, rect.y, rect.width, rect.height)
}
