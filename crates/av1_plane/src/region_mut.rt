ghost use Rattle.std.specs.Prelude.{◌≡◌, ◌+◌, ◌<◌, ◌≤◌};
ghost use Rattle.std.specs.Borrow.{sem};
ghost use Rattle.av1_plane.specs.Lending.{LendsRun};
ghost use Rattle.av1_plane.specs.Place.{no_area};
ghost use Rattle.av1_plane.specs.Region.{samples_under, first_place, row_step, row_place, row_under, band_under, area, IsStored};
ghost use Rattle.av1_plane.specs.Regions.{StoresRect, LendsPlane, LendsRect};

use crate::area::Area;
use crate::error::OutOfMemory;
use crate::offset::{
    BlockOffset, PlaneBlockOffset, PlaneOffset, PlaneSuperBlockOffset, TileBlockOffset,
    TileSuperBlockOffset,
};
use crate::pixel::Pixel;
use crate::place::{first_place_of, sum, tail, tile_rect_of, whole_rect};
use crate::plane::{Plane, PlaneConfig};
use crate::region::{PlaneRegion, Rect};
use crate::rows_iter::RowsIter;
use crate::windows::{HorzWindows, VertWindows};

mod parts;

use std::alloc::Global;

/// A rectangle of a plane, for reading and writing.
///
/// Row `i` is the `width` samples from place `start + i * step` on.
#[derive(Debug, Drop)]
pub struct PlaneRegionMut<'a, T> {
    plane: &'a mut Plane<T>,
    start: usize,
    pub plane_cfg: PlaneConfig,
    rect: Rect,
}

impl<'a, T: Pixel> PlaneRegionMut<'a, T> {
    ghost use Rattle.std.specs.Prelude.{◌^◌, ◌↔◌, IsTrue, IfOk, pos, neg_ℤ, ◌<ℤ◌};
    ghost use Rattle.av1_plane.specs.Area.{HasNoSample, IsNearRect};
    ghost use Rattle.av1_plane.specs.Offset.{sample_sum, block_sum, superblock_sum};
    ghost use Rattle.av1_plane.specs.Planes.{IsCopyOf};
    ghost use Rattle.av1_plane.specs.Reading.{seen_as, seen_under, rows_of, first_sample, first_block, first_superblock, StartsOnBlock, StartsOnSuperBlock, CanCut, IsAreaOf};
    ghost use Rattle.av1_plane.specs.Windows.{all_down, all_across};

    // The region of a rectangle whose row `i` is the `width` samples from place `start` on, a
    // stride further for each row.
    fn at(
        plane: &'a mut Plane<T>,
        start: usize,
        plane_cfg: PlaneConfig,
        rect: Rect,
    ) -> PlaneRegionMut<'a, T>
        ensures name { result.plane.ghost_name ≡ plane.entry.ghost_name }
        ensures plane { result.plane.now ≡ plane.old }
        ensures start { first_place result ≡ start }
        ensures cfg { result.plane_cfg ≡ plane_cfg }
        ensures rect { area result ≡ rect }
    {
        PlaneRegionMut {
            plane,
            start,
            plane_cfg,
            rect,
        }
    }

    /// The samples of a part of a larger plane, which are a plane of their own, at their place in
    /// the larger one.
    pub fn from_part(
        plane: &'a mut Plane<T>,
        plane_cfg: &PlaneConfig,
        rect: Rect,
    ) -> PlaneRegionMut<'a, T>
        requires wide { rect.width ≤ plane.old.cfg.stride }
        requires high { rect.height ≤ plane.old.cfg.alloc_height }
        ensures name { result.plane.ghost_name ≡ plane.entry.ghost_name }
        ensures plane { result.plane.now ≡ plane.old }
        ensures start { first_place result ≡ 0 }
        ensures cfg { result.plane_cfg ≡ plane_cfg.now }
        ensures rect { area result ≡ rect }
        ensures stored { IsStored result }
    {
        PlaneRegionMut::at(plane, 0, *plane_cfg, rect)
    }

    /// The region without samples.
    pub fn empty(plane: &'a mut Plane<T>) -> PlaneRegionMut<'a, T>
        ensures name { result.plane.ghost_name ≡ plane.entry.ghost_name }
        ensures plane { result.plane.now ≡ plane.old }
        ensures start { first_place result ≡ 0 }
        ensures cfg { result.plane_cfg ≡ plane.old.cfg }
        ensures rect { area result ≡ no_area }
        ensures stored { IsStored result }
    {
        let cfg = plane.cfg;
        PlaneRegionMut::at(plane, 0, cfg, Rect::default())
    }

    /// The region of a rectangle of the plane; empty where the plane has a side of 0. When it ends, the
    /// plane is what was left under the region.
    pub fn new(plane: &'a mut Plane<T>, rect: Rect) -> PlaneRegionMut<'a, T>
        requires inside { StoresRect plane.old.cfg rect }
        ensures name { result.plane.ghost_name ≡ plane.entry.ghost_name }
        ensures region { LendsRect plane.old rect result }
    {
        let _length = plane.samples.len();
        let cfg = plane.cfg;
        if cfg.width == 0 || cfg.height == 0 {
            return PlaneRegionMut::empty(plane);
        }
        let start = first_place_of(&cfg, &rect);
        PlaneRegionMut::at(plane, start, cfg, rect)
    }

    /// The region from the plane's origin to the end of its samples.
    pub fn new_from_plane(plane: &'a mut Plane<T>) -> PlaneRegionMut<'a, T>
        ensures name { result.plane.ghost_name ≡ plane.entry.ghost_name }
        ensures region { LendsPlane plane.old result }
    {
        let _length = plane.samples.len();
        let cfg = plane.cfg;
        let rect = whole_rect(&cfg);
        let start = first_place_of(&cfg, &rect);
        PlaneRegionMut::at(plane, start, cfg, rect)
    }

    /// The region for reading.
    pub fn as_const(&self) -> PlaneRegion<'_, T>
        requires { IsStored self.now }
        ensures { seen_as result ≡ seen_under self.now }
    {
        let seen = tail(self.plane.samples.as_slice(), self.start);
        PlaneRegion::from_part(seen, self.plane.cfg.stride, &self.plane_cfg, self.rect)
    }

    /// The rectangle, relative to the plane's origin.
    pub fn rect(&self) -> &Rect
        ensures { result.now ≡ area self.now }
    {
        &self.rect
    }

    /// Row `y`, for reading.
    pub fn row(&self, y: usize) -> &[T]
        requires stored { IsStored self.now }
        requires inside { y < (area self.now).height }
        ensures { result.now ≡ row_under self.now y }
    {
        let from = self.start + y * self.plane.cfg.stride;
        &self.plane.samples[from..from + self.rect.width]
    }

    /// Row `y`, for writing.
    pub fn row_mut<'s>(&'s mut self, y: usize) -> &'s mut [T]
        requires stored { IsStored self.old }
        requires inside { y < (area self.old).height }
        ensures* lends { sem 𝓛 (LendsRun T.row self.entry result (row_place self.old y)) }
        ensures row { result.now ≡ row_under self.old y }
    {
        let from = self.start + y * self.plane.cfg.stride;
        let width = self.rect.width;
        let plane = &mut *self.plane;
        plane.run_mut(from, width)
    }

    /// The rows from `y` up to `y + rows` as one run, for writing. Row `i` of them begins at `i` times
    /// `between_rows`; the run ends with the last row's last sample.
    pub fn band_mut<'s>(&'s mut self, y: usize, rows: usize) -> &'s mut [T]
        requires stored { IsStored self.old }
        requires some { 0 < rows }
        requires inside { y + rows ≤ (area self.old).height }
        ensures* lends { sem 𝓛 (LendsRun T.row self.entry result (row_place self.old y)) }
        ensures band { result.now ≡ band_under self.old y rows }
    {
        let from = self.start + y * self.plane.cfg.stride;
        let count = (rows - 1) * self.plane.cfg.stride + self.rect.width;
        let plane = &mut *self.plane;
        plane.run_mut(from, count)
    }

    /// All samples of the plane under the region, for writing.
    pub fn store_mut<'s>(&'s mut self) -> &'s mut [T]
        ensures* lends { sem 𝓛 (LendsRun T.row self.entry result 0) }
        ensures all { result.now ≡ samples_under self.old }
    {
        let plane = &mut *self.plane;
        plane.all_mut()
    }

    /// Where the first row begins in the samples that `store_mut` lends.
    pub fn first_row(&self) -> usize
        ensures { result ≡ first_place self.now }
    {
        self.start
    }

    /// How far apart the rows begin.
    pub fn between_rows(&self) -> usize
        ensures { result ≡ row_step self.now }
    {
        self.plane.cfg.stride
    }

    /// Whether the rectangle has no sample.
    pub fn is_null(&self) -> bool
        ensures { IsTrue result ↔ HasNoSample (area self.now) }
    {
        self.rect.width == 0 || self.rect.height == 0
    }

    /// The rows, top first.
    pub fn rows_iter(&self) -> RowsIter<'_, T>
        requires { IsStored self.now }
        ensures { result ≡ rows_of (seen_under self.now) }
    {
        self.as_const().rows_iter()
    }

    /// The windows of `h` rows, at least 1, each one row lower.
    pub fn vert_windows(&self, h: usize) -> VertWindows<'_, T>
        requires stored { IsStored self.now }
        requires some { 1 ≤ h }
        requires near { IsNearRect (area self.now) }
        requires high { (area self.now).height ≤ 2 ^ 32 }
        ensures { result ≡ all_down h (seen_under self.now) }
    {
        self.as_const().vert_windows(h)
    }

    /// The windows of `w` columns, at least 1, each one column further right.
    pub fn horz_windows(&self, w: usize) -> HorzWindows<'_, T>
        requires stored { IsStored self.now }
        requires some { 1 ≤ w }
        requires near { IsNearRect (area self.now) }
        requires wide { (area self.now).width ≤ 2 ^ 32 }
        ensures { result ≡ all_across w (seen_under self.now) }
    {
        self.as_const().horz_windows(w)
    }

    /// An area of the region, for reading; empty where the region is.
    pub fn subregion(&self, part: Area) -> PlaneRegion<'_, T>
        requires stored { IsStored self.now }
        requires inside { CanCut (seen_under self.now) part }
        ensures { IsAreaOf (seen_under self.now) (seen_as result) part }
    {
        self.as_const().subregion(part)
    }

    /// A plane without margin that holds the region's samples.
    pub fn scratch_copy(&self, alloc: Global) -> Result<Plane<T>, OutOfMemory>
        requires { IsStored self.now }
        ensures { IfOk result (IsCopyOf (seen_under self.now)) }
    {
        self.as_const().scratch_copy(alloc)
    }

    /// An offset in the region as one in the frame.
    #[tactic(auto, using(crate::proofs::Places::signed))]
    pub fn to_frame_plane_offset(&self, tile_po: PlaneOffset) -> PlaneOffset
        requires near { IsNearRect (area self.now) }
        requires left { neg_ℤ (pos (2 ^ 32)) <ℤ tile_po.x }
        requires right { tile_po.x <ℤ pos (2 ^ 32) }
        requires top { neg_ℤ (pos (2 ^ 32)) <ℤ tile_po.y }
        requires bottom { tile_po.y <ℤ pos (2 ^ 32) }
        ensures { result ≡ sample_sum (first_sample (seen_under self.now)) tile_po }
    {
        let x = sum(self.rect.x, tile_po.x);
        let y = sum(self.rect.y, tile_po.y);
        PlaneOffset { x, y }
    }

    /// A block of the region as one of the frame. The region starts on a block.
    pub fn to_frame_block_offset(&self, tile_bo: TileBlockOffset) -> PlaneBlockOffset
        requires start { StartsOnBlock (seen_under self.now) }
        requires x { tile_bo.0.x < 2 ^ 32 }
        requires y { tile_bo.0.y < 2 ^ 32 }
        ensures { result.0 ≡ block_sum (first_block (seen_under self.now)) tile_bo.0 }
    {
        let cfg = &self.plane_cfg;
        tile_rect_of(&self.rect).to_frame_block_offset(tile_bo, cfg.xdec, cfg.ydec)
    }

    /// A superblock of the region as one of the frame. The region starts on a superblock, of 64 or
    /// 128 luma samples a side.
    pub fn to_frame_super_block_offset(
        &self,
        tile_sbo: TileSuperBlockOffset,
        sb_size_log2: usize,
    ) -> PlaneSuperBlockOffset
        requires start { StartsOnSuperBlock (seen_under self.now) sb_size_log2 }
        requires x { tile_sbo.0.x < 2 ^ 32 }
        requires y { tile_sbo.0.y < 2 ^ 32 }
        ensures { result.0
            ≡ superblock_sum (first_superblock (seen_under self.now) sb_size_log2) tile_sbo.0 }
    {
        let cfg = &self.plane_cfg;
        tile_rect_of(&self.rect).to_frame_super_block_offset(
            tile_sbo,
            sb_size_log2,
            cfg.xdec,
            cfg.ydec,
        )
    }

    /// The frame's block at the start of the region, which starts on a block.
    pub fn frame_block_offset(&self) -> PlaneBlockOffset
        requires { StartsOnBlock (seen_under self.now) }
        ensures { result.0 ≡ first_block (seen_under self.now) }
    {
        self.to_frame_block_offset(TileBlockOffset(BlockOffset { x: 0, y: 0 }))
    }
}
