//! Working on the tile of a frame, with the frame known afterwards.
ghost use Rattle.std.specs.Prelude.{◌≡◌};
ghost use Rattle.std.specs.Fn.{FnOnceTakesAtMut, FnOnceReturnsAtMut};
ghost use Rattle.av1_plane.specs.declared.tile_mut.TileMut.{TileMut};
ghost use Rattle.av1_plane.specs.Area.{IsNear};
ghost use Rattle.av1_plane.specs.Tiles.{StoresTile, HoldsTile, IsTileOver, IsTileUnder, KeepsPlanes, HasPlanesOf};

use crate::frame::Frame;
use crate::pixel::Pixel;
use crate::plane::Plane;
use crate::three::Three;
use crate::tile_mut::{TileMut, lent_part};
use crate::tile_rect::TileRect;

/// Runs `work` on the tile of a luma rectangle. Each plane of the frame is afterwards what
/// `work` left under the tile's region.
///
/// `work` may write through the tile and lend the tile on, but may not put another one in its place.
pub fn with_frame<T: Pixel, R, F: FnOnce(&mut TileMut<'_, T>) -> R>(
    frame: &mut Frame<T>,
    luma_rect: TileRect,
    work: F,
) -> R
    requires near { IsNear luma_rect }
    requires inside { HoldsTile frame.old luma_rect }
    requires callable { (t : TileMut T) → IsTileUnder frame.old luma_rect t
        → FnOnceTakesAtMut F.FnOnce work t }
    requires keeps { (a b : TileMut T) (r : R) → IsTileUnder frame.old luma_rect a
        → FnOnceReturnsAtMut F.FnOnce work a r b → KeepsPlanes a b }
    ensures { (a : TileMut T) × (b : TileMut T) × IsTileUnder frame.old luma_rect a
        × FnOnceReturnsAtMut F.FnOnce work a result b × HasPlanesOf b frame.new }
{
    let Three { y, u, v } = &mut frame.planes;
    with_planes(y, u, v, luma_rect, work)
}

// Runs `work` on the tile of three planes.
fn with_planes<T: Pixel, R, F: FnOnce(&mut TileMut<'_, T>) -> R>(
    y: &mut Plane<T>,
    u: &mut Plane<T>,
    v: &mut Plane<T>,
    luma_rect: TileRect,
    work: F,
) -> R
    requires near { IsNear luma_rect }
    requires y { StoresTile y.old.cfg luma_rect }
    requires u { StoresTile u.old.cfg luma_rect }
    requires v { StoresTile v.old.cfg luma_rect }
    requires callable { (t : TileMut T) → IsTileOver y.old u.old v.old luma_rect t
        → FnOnceTakesAtMut F.FnOnce work t }
    requires keeps { (a b : TileMut T) (r : R) → IsTileOver y.old u.old v.old luma_rect a
        → FnOnceReturnsAtMut F.FnOnce work a r b → KeepsPlanes a b }
    ensures { (a : TileMut T) × (b : TileMut T) × IsTileOver y.old u.old v.old luma_rect a
        × FnOnceReturnsAtMut F.FnOnce work a result b × (y.new ≡ b.planes.y.plane.now)
        × (u.new ≡ b.planes.u.plane.now) × (v.new ≡ b.planes.v.plane.now) }
{
    let y = lent_part(y, luma_rect);
    let u = lent_part(u, luma_rect);
    let v = lent_part(v, luma_rect);
    let mut tile = TileMut {
        planes: Three { y, u, v },
    };
    work(&mut tile)
}
