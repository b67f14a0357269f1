ghost use Rattle.std.specs.Prelude.{◌≡◌, ◌+◌, ◌*◌, ◌≤◌, length, map, pos, replicate, IfOk};

use crate::error::OutOfMemory;
use crate::offset::PlaneOffset;
use crate::pad::{pad_samples, visible_side};
use crate::pixel::Pixel;
use crate::place::{rest_of_row, stored_place, tail_mut};
use crate::plane_slice::PlaneSlice;
use std::alloc::Global;

/// Layout of a plane, in samples.
///
/// The stored rows are `stride` samples long, and there are `alloc_height` of them. The plane's first
/// sample stands at column `xorigin` of row `yorigin`.
#[derive(Clone, Copy, Debug, PartialEq, Eq)]
pub struct PlaneConfig {
    pub stride: usize,
    pub alloc_height: usize,
    pub width: usize,
    pub height: usize,
    pub xdec: usize,
    pub ydec: usize,
    pub xpad: usize,
    pub ypad: usize,
    pub xorigin: usize,
    pub yorigin: usize,
}

/// A plane of samples, row by row.
#[derive(Debug, Drop)]
pub struct Plane<T> {
    pub samples: Vec<T>,
    pub cfg: PlaneConfig,
    pub ghost stored: { length samples.items ≡ cfg.stride * cfg.alloc_height },
    pub ghost wide: { cfg.xorigin + cfg.width ≤ cfg.stride },
    pub ghost high: { cfg.yorigin + cfg.height ≤ cfg.alloc_height },
}

impl<T: Pixel> Plane<T> {
    ghost use Rattle.av1_plane.specs.Layout.{plane_layout, CanPad};
    ghost use Rattle.std.specs.Prelude.{◌+ℤ◌, ◌≤ℤ◌, ◌<ℤ◌};
    ghost use Rattle.av1_plane.specs.Place.{IsStoredPlace};
    ghost use Rattle.av1_plane.specs.Slices.{row_of};
    ghost use Rattle.av1_plane.specs.Lending.{LendsPlaneRun};
    ghost use Rattle.std.specs.Prelude.{take, drop};
    ghost use Rattle.std.specs.Borrow.{sem};
    ghost use Rattle.av1_plane.specs.Planes.{IsZeroed, SamePlane, IsPaddedPlane};

    /// A plane of zeros with a margin of `xpad` columns and `ypad` rows on each side.
    ///
    /// The sides are at most 65536, the margins at most 256 and the decimations at most 1.
    pub fn new(
        alloc: Global,
        width: usize,
        height: usize,
        xdec: usize,
        ydec: usize,
        xpad: usize,
        ypad: usize,
    ) -> Result<Plane<T>, OutOfMemory>
        requires width { width ≤ 65536 }
        requires height { height ≤ 65536 }
        requires xdec { xdec ≤ 1 }
        requires ydec { ydec ≤ 1 }
        requires xpad { xpad ≤ 256 }
        requires ypad { ypad ≤ 256 }
        ensures { IfOk result (IsZeroed T.number (plane_layout width height xdec ydec xpad ypad)) }
    {
        let stride = width + 2 * xpad;
        let alloc_height = height + 2 * ypad;
        let samples = zeros(alloc, stride * alloc_height)?;
        let cfg = PlaneConfig {
            stride,
            alloc_height,
            width,
            height,
            xdec,
            ydec,
            xpad,
            ypad,
            xorigin: xpad,
            yorigin: ypad,
        };
        Ok(Plane { samples, cfg })
    }

    /// An equal plane.
    pub fn try_clone(&self, alloc: Global) -> Result<Plane<T>, OutOfMemory>
        ensures { IfOk result (SamePlane self.now) }
    {
        let samples = Vec::from_slice(alloc, &self.samples)?;
        Ok(Plane {
            samples,
            cfg: self.cfg,
        })
    }

    /// The rows from a stored place on, which counts from the plane's origin.
    pub fn slice(&self, po: PlaneOffset) -> PlaneSlice<'_, T>
        requires { IsStoredPlace self.now.cfg po.x po.y }
        ensures plane { result.plane.now ≡ self.now }
        ensures x { result.x ≡ po.x }
        ensures y { result.y ≡ po.y }
    {
        PlaneSlice {
            plane: self,
            x: po.x,
            y: po.y,
        }
    }

    /// Row `y`, counted from the plane's origin, from the origin's column to the end of the stored
    /// row.
    pub fn row(&self, y: isize) -> &[T]
        requires top { pos 0 ≤ℤ (pos self.now.cfg.yorigin +ℤ y) }
        requires bottom { (pos self.now.cfg.yorigin +ℤ y) <ℤ pos self.now.cfg.alloc_height }
        ensures { result.now ≡ row_of self.now y }
    {
        let row = stored_place(self.cfg.yorigin, y, self.cfg.alloc_height);
        rest_of_row(&self.samples, &self.cfg, row, self.cfg.xorigin)
    }

    // `count` samples from place `from` on, for writing.
    pub(crate) fn run_mut(&mut self, from: usize, count: usize) -> &mut [T]
        requires { from + count ≤ length self.old.samples.items }
        ensures* lends { sem 𝓛 (LendsPlaneRun T.row self.entry result from) }
        ensures run { result.now ≡ take count (drop from self.old.samples.items) }
    {
        let _length = self.samples.len();
        self.samples.slice_mut(from..from + count)
    }

    // All stored samples of the plane, for writing.
    pub(crate) fn all_mut(&mut self) -> &mut [T]
        ensures* lends { sem 𝓛 (LendsPlaneRun T.row self.entry result 0) }
        ensures all { result.now ≡ self.old.samples.items }
    {
        let n = self.samples.len();
        self.samples.slice_mut(0..n)
    }

    // The samples from place `start` on, for writing; none past the end.
    pub(crate) fn rest_mut(&mut self, start: usize) -> &mut [T]
        ensures { result.now ≡ drop start self.old.samples.items }
    {
        tail_mut(self.samples.as_mut_slice(), start)
    }

    /// Spreads the picture of a `w` by `h` frame over all stored samples: each becomes the picture's
    /// nearest one.
    pub fn pad(&mut self, w: usize, h: usize)
        requires { CanPad self.old.cfg w h }
        ensures { IsPaddedPlane T.number w h self.old self.new }
    {
        let width = visible_side(w, self.cfg.xdec);
        let height = visible_side(h, self.cfg.ydec);
        pad_samples(self.samples.as_mut_slice(), &self.cfg, width, height);
    }
}

// `count` samples, all zero.
fn zeros<T: Pixel>(alloc: Global, count: usize) -> Result<Vec<T>, OutOfMemory>
    ensures { IfOk result (λ v. map T.number v.items ≡ replicate count (pos 0)) }
{
    Ok(vec![in alloc; T::from_i32(0); count]?)
}
