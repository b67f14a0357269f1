//! A tile's part of the reconstruction for writing.
ghost use Rattle.std.specs.Prelude.{◌≡◌};
ghost use Rattle.std.specs.Fn.{FnOnceTakesAtMut, FnOnceReturnsAtMut};
ghost use Rattle.av1_plane.specs.declared.tile_mut.TileMut.{TileMut};
ghost use Rattle.av1_plane.specs.Region.{first_place, area, IsStored};
ghost use Rattle.av1_plane.specs.Tiles.{KeepsPlanes};
ghost use Rattle.av1_tiling.specs.LentParts.{LendsParts, placed_rect, three_parts, part_left, with_tile_left};
ghost use Rattle.av1_tiling.specs.Views.{view_samples};

use crate::part_place::PartPlace;
use crate::plane_part::PlanePart;
use crate::tile_state::TileStateMut;
use av1_plane::{Pixel, Plane, PlaneRegionMut, Rect, Three, TileMut};

impl<T: Pixel> TileStateMut<T> {
    /// The tile's part of the reconstruction for writing, at its place in the frame. What the state
    /// has afterwards is said by `with_rec_mut`.
    pub fn rec_mut(&mut self) -> TileMut<'_, T>
        ensures { LendsParts T.number self.old.places self.old.rec result }
    {
        let parts = self.parts.as_mut();
        let Three { y, u, v } = &mut parts.rec;
        let y = lent_part(&mut y.plane, &parts.places.y);
        let u = lent_part(&mut u.plane, &parts.places.u);
        let v = lent_part(&mut v.plane, &parts.places.v);
        TileMut {
            planes: Three { y, u, v },
        }
    }

    /// Runs `work` on the tile's part of the reconstruction, at its place in the frame. The state has
    /// afterwards what `work` left under the tile's regions; all else of it stays.
    ///
    /// `work` may write through the tile and lend the tile on, but may not put another one in its place.
    pub fn with_rec_mut<R, F: FnOnce(&mut TileMut<'_, T>) -> R>(&mut self, work: F) -> R
        requires callable { (t : TileMut T) → LendsParts T.number self.old.places self.old.rec t
            → FnOnceTakesAtMut F.FnOnce work t }
        requires keeps { (a b : TileMut T) (r : R)
            → LendsParts T.number self.old.places self.old.rec a
            → FnOnceReturnsAtMut F.FnOnce work a r b → KeepsPlanes a b }
        ensures { (a : TileMut T) × (b : TileMut T)
            × LendsParts T.number self.old.places self.old.rec a
            × FnOnceReturnsAtMut F.FnOnce work a result b
            × (self.new ≡ with_tile_left T.number self.old b) }
    {
        let parts = self.parts.as_mut();
        let Three { y, u, v } = &mut parts.rec;
        with_parts(&parts.places, y, u, v, work)
    }
}

// Runs `work` on the tile of three parts of planes.
fn with_parts<T: Pixel, R, F: FnOnce(&mut TileMut<'_, T>) -> R>(
    places: &Three<PartPlace>,
    y: &mut PlanePart<T>,
    u: &mut PlanePart<T>,
    v: &mut PlanePart<T>,
    work: F,
) -> R
    requires callable { (t : TileMut T)
        → LendsParts T.number places.now (three_parts T.number y.old u.old v.old) t
        → FnOnceTakesAtMut F.FnOnce work t }
    requires keeps { (a b : TileMut T) (r : R)
        → LendsParts T.number places.now (three_parts T.number y.old u.old v.old) a
        → FnOnceReturnsAtMut F.FnOnce work a r b → KeepsPlanes a b }
    ensures { (a : TileMut T) × (b : TileMut T)
        × LendsParts T.number places.now (three_parts T.number y.old u.old v.old) a
        × FnOnceReturnsAtMut F.FnOnce work a result b
        × (view_samples T.number y.new ≡ part_left T.number (view_samples T.number y.old) b.planes.y)
        × (view_samples T.number u.new ≡ part_left T.number (view_samples T.number u.old) b.planes.u)
        × (view_samples T.number v.new ≡ part_left T.number (view_samples T.number v.old) b.planes.v) }
{
    let y = lent_part(&mut y.plane, &places.y);
    let u = lent_part(&mut u.plane, &places.u);
    let v = lent_part(&mut v.plane, &places.v);
    let mut tile = TileMut {
        planes: Three { y, u, v },
    };
    work(&mut tile)
}

// The region of a part of a plane, at its place.
fn lent_part<'a, T: Pixel>(plane: &'a mut Plane<T>, place: &PartPlace) -> PlaneRegionMut<'a, T>
    ensures name { result.plane.ghost_name ≡ plane.entry.ghost_name }
    ensures plane { result.plane.now ≡ plane.old }
    ensures start { first_place result ≡ 0 }
    ensures cfg { result.plane_cfg ≡ place.now.cfg }
    ensures shown { area result ≡ placed_rect place.now plane.old.cfg }
    ensures stored { IsStored result }
{
    let rect = Rect {
        x: place.x,
        y: place.y,
        width: plane.cfg.stride,
        height: plane.cfg.alloc_height,
    };
    PlaneRegionMut::from_part(plane, &place.cfg, rect)
}
