ghost use Rattle.std.specs.Prelude.{◌≡◌};
ghost use Rattle.av1_plane.specs.Area.{IsNear};
ghost use Rattle.av1_plane.specs.Regions.{LendsRect};
ghost use Rattle.av1_plane.specs.Tiles.{StoresTile, plane_rect};

use crate::area::Area;
use crate::error::OutOfMemory;
use crate::frame::Frame;
use crate::pixel::Pixel;
use crate::plane::Plane;
use crate::region_mut::PlaneRegionMut;
use crate::three::Three;
use crate::tile::Tile;
use crate::tile_rect::TileRect;
use std::alloc::Global;

/// One region of each plane of a frame, for reading and writing.
///
/// A tile made as a literal of three named regions lets its maker know what each plane becomes.
#[derive(Debug, Drop)]
pub struct TileMut<'a, T> {
    pub planes: Three<PlaneRegionMut<'a, T>>,
}

impl<'a, T: Pixel> TileMut<'a, T> {
    ghost use Rattle.std.specs.Prelude.{IfOk};
    ghost use Rattle.av1_plane.specs.Lending.{IsHomeOf};
    ghost use Rattle.av1_plane.specs.Planes.{IsCopyOf};
    ghost use Rattle.av1_plane.specs.Reading.{seen_as, seen_under};
    ghost use Rattle.av1_plane.specs.Tiles.{tile_seen, tile_under, HoldsLuma, HoldsTile, IsStoredTile, IsTilePart, IsTileUnder};

    /// The tile of a luma rectangle, which each plane stores at its decimations; empty in a
    /// plane with a side of 0. What the frame becomes is said by `with_frame`.
    pub fn new(frame: &'a mut Frame<T>, luma_rect: TileRect) -> TileMut<'a, T>
        requires near { IsNear luma_rect }
        requires inside { HoldsTile frame.old luma_rect }
        ensures { IsTileUnder frame.old luma_rect result }
    {
        let Three { y, u, v } = &mut frame.planes;
        let y = lent_part(y, luma_rect);
        let u = lent_part(u, luma_rect);
        let v = lent_part(v, luma_rect);
        TileMut {
            planes: Three { y, u, v },
        }
    }

    /// The tile for reading.
    pub fn as_const(&self) -> Tile<'_, T>
        requires { IsStoredTile self.now }
        ensures y { seen_as result.planes.y ≡ seen_under self.now.planes.y }
        ensures u { seen_as result.planes.u ≡ seen_under self.now.planes.u }
        ensures v { seen_as result.planes.v ≡ seen_under self.now.planes.v }
    {
        let y = self.planes.y.as_const();
        let u = self.planes.u.as_const();
        let v = self.planes.v.as_const();
        Tile {
            planes: Three { y, u, v },
        }
    }

    /// An area of the tile, which counts in luma, for reading.
    pub fn subregion(&self, part: Area) -> Tile<'_, T>
        requires stored { IsStoredTile self.now }
        requires inside { HoldsLuma (tile_under self.now) part }
        ensures { IsTilePart (tile_under self.now) (tile_seen result) part }
    {
        self.as_const().subregion(part)
    }

    /// The tile's samples, each region seen as a rectangle at the origin.
    pub fn home(&mut self) -> TileMut<'_, T>
        ensures y { IsHomeOf self.old.planes.y result.planes.y }
        ensures u { IsHomeOf self.old.planes.u result.planes.u }
        ensures v { IsHomeOf self.old.planes.v result.planes.v }
    {
        let Three { y, u, v } = &mut self.planes;
        let y = y.home();
        let u = u.home();
        let v = v.home();
        TileMut {
            planes: Three { y, u, v },
        }
    }

    /// A frame without margin that holds the tile's samples.
    pub fn scratch_copy(&self, alloc: Global) -> Result<Frame<T>, OutOfMemory>
        requires { IsStoredTile self.now }
        ensures y { IfOk result (λ f. IsCopyOf (seen_under self.now.planes.y) f.planes.y) }
        ensures u { IfOk result (λ f. IsCopyOf (seen_under self.now.planes.u) f.planes.u) }
        ensures v { IfOk result (λ f. IsCopyOf (seen_under self.now.planes.v) f.planes.v) }
    {
        let y = self.planes.y.scratch_copy(alloc)?;
        let u = self.planes.u.scratch_copy(alloc)?;
        let v = self.planes.v.scratch_copy(alloc)?;
        Ok(Frame {
            planes: Three { y, u, v },
        })
    }
}

// The region of a tile in one plane.
pub(crate) fn lent_part<'a, T: Pixel>(
    plane: &'a mut Plane<T>,
    luma_rect: TileRect,
) -> PlaneRegionMut<'a, T>
    requires near { IsNear luma_rect }
    requires inside { StoresTile plane.old.cfg luma_rect }
    ensures name { result.plane.ghost_name ≡ plane.entry.ghost_name }
    ensures part { LendsRect plane.old (plane_rect plane.old.cfg luma_rect) result }
{
    let rect = luma_rect.decimated(plane.cfg.xdec, plane.cfg.ydec);
    PlaneRegionMut::new(plane, rect.into())
}
