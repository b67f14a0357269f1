//! What a tile's state lends, at its place in the frame.
ghost use Rattle.std.specs.Prelude.{◌≡◌, ◌⊎◌, ◌<◌, ◌^◌, true, false};
ghost use Rattle.av1_plane.specs.Offset.{block_sum, superblock_sum};
ghost use Rattle.av1_plane.specs.Place.{IsInPlane};
ghost use Rattle.av1_tiling.specs.Views.{view_plane, view_samples};
ghost use Rattle.av1_tiling.specs.TileViews.{ShowsPart, ShowsParts, ShowsWhereStored, ShowsInput, IsSpanIn, ShowsTablePart, motion_part_at, part_area, state_rect, tile_first_block, tile_first_superblock};

use crate::part_place::PartPlace;
use crate::plane_part::PlanePart;
use crate::tile_state::TileStateMut;
use av1_block::{MEStats, TileMEStats, TileMEStatsMut};
use av1_plane::{
    BlockOffset, Pixel, Plane, PlaneBlockOffset, PlaneConfig, PlaneRegion, PlaneSuperBlockOffset,
    Rect, SuperBlockOffset, Three, Tile, TileBlockOffset, TileRect, TileSuperBlockOffset,
};

impl<T: Pixel> TileStateMut<T> {
    ghost use Rattle.std.specs.Borrow.{sem, follows, Lends, Array};
    ghost use Rattle.av1_block.specs.Writing.{lent_name};
    ghost use Rattle.av1_block.specs.contracts.me_stats.MEStats.{the_row as stats_row};
    ghost use Rattle.av1_block.specs.contracts.table.Table.{the_row as table_row};
    ghost use Rattle.av1_tiling.specs.TileViews.{LendsTablePart, with_records, with_motion};
    ghost use Rattle.av1_tiling.specs.contracts.tile_state.TileStateMut.{the_row};

    /// The tile's part of the reconstruction.
    pub fn rec(&self) -> Tile<'_, T>
        ensures { ShowsParts T.number self.now result }
    {
        Tile {
            planes: Three {
                y: part_region(&self.parts.rec.y, &self.parts.places.y),
                u: part_region(&self.parts.rec.u, &self.parts.places.u),
                v: part_region(&self.parts.rec.v, &self.parts.places.v),
            },
        }
    }

    /// The tile's part of the input, in each plane that stores all of it; empty in a plane that
    /// doesn't, as may be where another input was put into the state.
    pub fn input_tile(&self) -> Tile<'_, T>
        ensures { ShowsInput T.number self.now result }
    {
        let input = &self.input.planes;
        Tile {
            planes: Three {
                y: stored_region(&input.y, part_rect(&self.parts.rec.y, &self.parts.places.y)),
                u: stored_region(&input.u, part_rect(&self.parts.rec.u, &self.parts.places.u)),
                v: stored_region(&input.v, part_rect(&self.parts.rec.v, &self.parts.places.v)),
            },
        }
    }

    /// The tile's part of the motion records for reference `i`, below 8, as far as the frame's
    /// tables go.
    pub fn me_stats(&self, i: usize) -> TileMEStats<'_>
        requires { i < 8 }
        ensures { ShowsTablePart (motion_part_at self.now.me_stats i)
            self.now.mi_cols self.now.mi_rows result }
    {
        self.parts.me_stats.view(i)
    }

    /// The same records, row by row, for writing.
    pub fn records_mut(&mut self, i: usize) -> &mut [MEStats]
        requires { i < 8 }
        ensures* lends { sem 𝓛 (Lends (the_row T.row T.Pixel) (Array stats_row 0) self.entry result
            (with_records self.old i)) }
        ensures value { result.now ≡ (motion_part_at self.old.me_stats i).entries }
    {
        self.parts.me_stats.records_mut(i)
    }

    /// The same view for writing. Afterwards the tile has the table that was left under the view,
    /// and all else as before; that the table's sides are kept is said by `records_mut` alone.
    pub fn me_stats_mut(&mut self, i: usize) -> TileMEStatsMut<'_>
        requires { i < 8 }
        ensures* lends { sem 𝓛 (follows (the_row T.row T.Pixel) (table_row stats_row)
            self.entry.ghost_name (lent_name result) (with_motion self.old i)) }
        ensures view { LendsTablePart (motion_part_at self.old.me_stats i)
            self.old.mi_cols self.old.mi_rows result }
    {
        self.parts.me_stats.view_mut(i)
    }

    /// The tile's luma samples in the frame, without those that fill its last superblocks.
    pub fn tile_rect(&self) -> TileRect
        requires log2 { (self.now.sb_size_log2 ≡ 6) ⊎ (self.now.sb_size_log2 ≡ 7) }
        requires x { self.now.superblock.0 < 2 ^ 32 }
        requires y { self.now.superblock.1 < 2 ^ 32 }
        ensures { result ≡ state_rect self.now }
    {
        TileRect {
            x: self.sbo.0.x * (1 << self.sb_size_log2),
            y: self.sbo.0.y * (1 << self.sb_size_log2),
            width: self.width,
            height: self.height,
        }
    }

    /// A block of the tile as one of the frame.
    pub fn to_frame_block_offset(&self, tile_bo: TileBlockOffset) -> PlaneBlockOffset
        requires log2 { (self.now.sb_size_log2 ≡ 6) ⊎ (self.now.sb_size_log2 ≡ 7) }
        requires x { self.now.superblock.0 < 2 ^ 32 }
        requires y { self.now.superblock.1 < 2 ^ 32 }
        requires block_x { tile_bo.0.x < 2 ^ 32 }
        requires block_y { tile_bo.0.y < 2 ^ 32 }
        ensures { result.0 ≡ block_sum (tile_first_block self.now) tile_bo.0 }
    {
        let side = 1 << (self.sb_size_log2 - 2);
        PlaneBlockOffset(BlockOffset {
            x: self.sbo.0.x * side + tile_bo.0.x,
            y: self.sbo.0.y * side + tile_bo.0.y,
        })
    }

    /// A superblock of the tile as one of the frame.
    pub fn to_frame_super_block_offset(
        &self,
        tile_sbo: TileSuperBlockOffset,
    ) -> PlaneSuperBlockOffset
        requires x { self.now.superblock.0 < 2 ^ 32 }
        requires y { self.now.superblock.1 < 2 ^ 32 }
        requires superblock_x { tile_sbo.0.x < 2 ^ 32 }
        requires superblock_y { tile_sbo.0.y < 2 ^ 32 }
        ensures { result.0 ≡ superblock_sum (tile_first_superblock self.now) tile_sbo.0 }
    {
        PlaneSuperBlockOffset(SuperBlockOffset {
            x: self.sbo.0.x + tile_sbo.0.x,
            y: self.sbo.0.y + tile_sbo.0.y,
        })
    }
}

// The rectangle of a part of a plane, from the plane's origin.
fn part_rect<T: Pixel>(part: &PlanePart<T>, place: &PartPlace) -> Rect
    ensures { result ≡ part_area place.now (view_samples T.number part.now) }
{
    let TileRect { width, height, .. } = part.rect();
    Rect {
        x: place.x,
        y: place.y,
        width,
        height,
    }
}

// A part of a plane, at its place.
fn part_region<'a, T: Pixel>(part: &'a PlanePart<T>, place: &'a PartPlace) -> PlaneRegion<'a, T>
    ensures { ShowsPart T.number place.now (view_samples T.number part.now) result }
{
    let width = part.rect().width;
    PlaneRegion::from_part(part.samples(), width, &place.cfg, part_rect(part, place))
}

// Whether `count` places from `first` on, counted from place `origin`, are among the first `stored`.
fn is_span_in(origin: usize, first: isize, count: usize, stored: usize) -> bool
    ensures inside { result ≡ true → IsSpanIn origin first count stored }
    ensures outside { result ≡ false → ¬ IsSpanIn origin first count stored }
{
    let start = origin as i128 + first as i128;
    start >= 0 && start + count as i128 <= stored as i128
}

// Whether the stored rows of a plane hold a rectangle.
fn stores_rect(cfg: &PlaneConfig, rect: &Rect) -> bool
    ensures inside { result ≡ true → IsInPlane cfg.now rect.now }
    ensures outside { result ≡ false → ¬ IsInPlane cfg.now rect.now }
{
    is_span_in(cfg.xorigin, rect.x, rect.width, cfg.stride)
        && is_span_in(cfg.yorigin, rect.y, rect.height, cfg.alloc_height)
}

// A rectangle of a plane, where the plane stores it.
fn stored_region<T: Pixel>(plane: &Plane<T>, rect: Rect) -> PlaneRegion<'_, T>
    ensures { ShowsWhereStored T.number (view_plane T.number plane.now) rect result }
{
    if stores_rect(&plane.cfg, &rect) {
        PlaneRegion::new(plane, rect)
    } else {
        PlaneRegion::empty(&plane.cfg)
    }
}
