ghost use Rattle.std.specs.Prelude.{◌≡◌};
ghost use Rattle.std.specs.Borrow.{sem};
ghost use Rattle.av1_plane.specs.Lending.{LendsUnder, IsHomeOf, IsAreaUnder, IsPlaceOf};
ghost use Rattle.av1_plane.specs.Reading.{seen_under, rows_of, CanCut};
ghost use Rattle.av1_plane.specs.RowsMut.{rows_left};
ghost use Rattle.av1_plane.specs.Region.{IsStored};

use crate::area::Area;
use crate::pixel::Pixel;
use crate::place::{joined, part_place};
use crate::region::Rect;
use crate::region_mut::PlaneRegionMut;
use crate::rows_iter_mut::RowsIterMut;

impl<'a, T: Pixel> PlaneRegionMut<'a, T> {
    /// An area of the region, which gives its plane up to the area; empty where the region is.
    pub fn into_subregion(self, part: Area) -> PlaneRegionMut<'a, T>
        requires stored { IsStored self }
        requires inside { CanCut (seen_under self) part }
        ensures name { result.plane.ghost_name ≡ self.entry.plane.ghost_name }
        ensures plane { result.plane.now ≡ self.entry.plane.now }
        ensures part { IsAreaUnder self.entry result part }
    {
        let (start, rect) = self.place_of(&part);
        let PlaneRegionMut {
            plane,
            start: _,
            plane_cfg,
            rect: _,
        } = self;
        PlaneRegionMut::at(plane, start, plane_cfg, rect)
    }

    /// The region's samples, seen as a rectangle at the origin.
    pub fn home<'s>(&'s mut self) -> PlaneRegionMut<'s, T>
        ensures* lends { sem 𝓛 (LendsUnder T.row self.entry result) }
        ensures home { IsHomeOf self.old result }
    {
        let start = self.start;
        let plane_cfg = self.plane_cfg;
        let rect = Rect {
            x: 0,
            y: 0,
            width: self.rect.width,
            height: self.rect.height,
        };
        let plane = &mut *self.plane;
        PlaneRegionMut {
            plane,
            start,
            plane_cfg,
            rect,
        }
    }

    // Where an area of the region begins, and its rectangle; one without samples where the region
    // has none.
    fn place_of(&self, part: &Area) -> (usize, Rect)
        requires stored { IsStored self.now }
        requires inside { CanCut (seen_under self.now) part.now }
        ensures { IsPlaceOf self.now part.now result.0 result.1 }
    {
        let rect = &self.rect;
        if rect.width == 0 || rect.height == 0 {
            return (self.start, Rect::default());
        }
        let cfg = &self.plane_cfg;
        let part = part.to_rect(cfg.xdec, cfg.ydec, rect.width, rect.height);
        let plane = &self.plane;
        let start = part_place(
            self.start,
            plane.cfg.stride,
            plane.samples.len(),
            rect,
            &part,
        );
        (start, joined(rect, &part))
    }

    /// An area of the region for reading and writing; empty where the region is.
    pub fn subregion_mut<'s>(&'s mut self, part: Area) -> PlaneRegionMut<'s, T>
        requires stored { IsStored self.old }
        requires inside { CanCut (seen_under self.old) part }
        ensures* lends { sem 𝓛 (LendsUnder T.row self.entry result) }
        ensures plane { result.plane.now ≡ self.old.plane.now }
        ensures part { IsAreaUnder self.old result part }
    {
        let plane_cfg = self.plane_cfg;
        let (start, rect) = self.place_of(&part);
        let plane = &mut *self.plane;
        PlaneRegionMut {
            plane,
            start,
            plane_cfg,
            rect,
        }
    }

    /// The rows for writing, top first.
    pub fn rows_iter_mut(&mut self) -> RowsIterMut<'_, T>
        requires { IsStored self.old }
        ensures { rows_left result ≡ rows_of (seen_under self.old) }
    {
        let start = self.start;
        let step = self.plane.cfg.stride;
        let width = self.rect.width;
        let left = self.rect.height;
        let plane = &mut *self.plane;
        let samples = plane.rest_mut(start);
        RowsIterMut {
            samples,
            step,
            width,
            left,
        }
    }
}
