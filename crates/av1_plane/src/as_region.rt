use crate::area::Area;
use crate::pixel::Pixel;
use crate::plane::Plane;
use crate::region::PlaneRegion;
use crate::region_mut::PlaneRegionMut;

/// Lending a plane as regions. The plane's samples reach from its origin to the end of the stored
/// rows and columns.
pub trait AsRegion<T> {
    ghost use Rattle.av1_plane.specs.declared.area.Area.{Area};
    ghost use Rattle.std.specs.Prelude.{◌≡◌};
    ghost use Rattle.av1_plane.specs.declared.region.PlaneRegion.{PlaneRegion};
    ghost use Rattle.av1_plane.specs.declared.region_mut.PlaneRegionMut.{PlaneRegionMut};

    // an area that the plane or region holds
    ghost holds: { Self → Area → Type 0 };

    // the region of all its samples
    ghost shows_all: { Self → PlaneRegion T → Type 0 };

    // the region of an area
    ghost shows: { Self → Area → PlaneRegion T → Type 0 };

    // the region for writing of all its samples
    ghost lends_all: { Self → PlaneRegionMut T → Type 0 };

    // the region for writing of an area
    ghost lends: { Self → Area → PlaneRegionMut T → Type 0 };

    /// All samples from the plane's origin on.
    fn as_region(&self) -> PlaneRegion<'_, T>
        ensures { shows_all self.now result };

    /// An area, which counts from the plane's origin.
    fn region(&self, area: Area) -> PlaneRegion<'_, T>
        requires { holds self.now area }
        ensures { shows self.now area result };

    /// All samples from the plane's origin on, for writing.
    fn as_region_mut(&mut self) -> PlaneRegionMut<'_, T>
        ensures name { result.plane.ghost_name ≡ self.entry.ghost_name }
        ensures region { lends_all self.old result };

    /// An area, which counts from the plane's origin, for writing.
    fn region_mut(&mut self, area: Area) -> PlaneRegionMut<'_, T>
        requires { holds self.old area }
        ensures name { result.plane.ghost_name ≡ self.entry.ghost_name }
        ensures region { lends self.old area result };
}

impl<T: Pixel> AsRegion<T> for Plane<T> {
    ghost use Rattle.av1_plane.specs.Regions.{HoldsPlaneArea, ShowsPlane, ShowsArea, LendsPlane, LendsArea};

    ghost holds = { HoldsPlaneArea };

    ghost shows_all = { ShowsPlane };

    ghost shows = { ShowsArea };

    ghost lends_all = { LendsPlane };

    ghost lends = { LendsArea };

    fn as_region(&self) -> PlaneRegion<'_, T> {
        PlaneRegion::new_from_plane(self)
    }

    fn region(&self, area: Area) -> PlaneRegion<'_, T> {
        let width = self.cfg.stride - self.cfg.xorigin;
        let height = self.cfg.alloc_height - self.cfg.yorigin;
        let rect = area.to_rect(self.cfg.xdec, self.cfg.ydec, width, height);
        PlaneRegion::new(self, rect)
    }

    fn as_region_mut(&mut self) -> PlaneRegionMut<'_, T> {
        PlaneRegionMut::new_from_plane(self)
    }

    fn region_mut(&mut self, area: Area) -> PlaneRegionMut<'_, T> {
        let width = self.cfg.stride - self.cfg.xorigin;
        let height = self.cfg.alloc_height - self.cfg.yorigin;
        let rect = area.to_rect(self.cfg.xdec, self.cfg.ydec, width, height);
        PlaneRegionMut::new(self, rect)
    }
}
