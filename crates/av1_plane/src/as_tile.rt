use crate::frame::Frame;
use crate::pixel::Pixel;
use crate::tile::Tile;
use crate::tile_mut::TileMut;
use crate::tile_rect::TileRect;

/// Lending a whole frame as one tile.
pub trait AsTile<T> {
    ghost use Rattle.av1_plane.specs.declared.tile.Tile.{Tile};
    ghost use Rattle.av1_plane.specs.declared.tile_mut.TileMut.{TileMut};

    // each plane stores its part of the whole
    ghost holds_all: { Self → Type 0 };

    // the tile of the whole frame or tile
    ghost shows_all: { Self → Tile T → Type 0 };

    // the tile of the whole frame or tile, for writing
    ghost lends_all: { Self → TileMut T → Type 0 };

    /// The whole frame, its sides rounded up to multiples of 8.
    fn as_tile(&self) -> Tile<'_, T>
        requires { holds_all self.now }
        ensures { shows_all self.now result };

    /// The whole frame for writing, its sides rounded up to multiples of 8.
    fn as_tile_mut(&mut self) -> TileMut<'_, T>
        requires { holds_all self.old }
        ensures { lends_all self.old result };
}

impl<T: Pixel> AsTile<T> for Frame<T> {
    ghost use Rattle.av1_plane.specs.Tiles.{whole_tile, HoldsTile, IsTile, IsTileUnder};

    ghost holds_all = { λ f. HoldsTile f (whole_tile f) };

    ghost shows_all = { λ f t. IsTile f (whole_tile f) t };

    ghost lends_all = { λ f t. IsTileUnder f (whole_tile f) t };

    fn as_tile(&self) -> Tile<'_, T> {
        let luma = &self.planes.y.cfg;
        let rect = TileRect {
            x: 0,
            y: 0,
            width: luma.width,
            height: luma.height,
        };
        Tile::new(self, rect)
    }

    fn as_tile_mut(&mut self) -> TileMut<'_, T> {
        let luma = self.planes.y.cfg;
        let rect = TileRect {
            x: 0,
            y: 0,
            width: luma.width,
            height: luma.height,
        };
        TileMut::new(self, rect)
    }
}
