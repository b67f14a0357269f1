ghost use Rattle.std.specs.Prelude.{◌≡◌, ℕ, ◌+◌, ◌*◌, ◌^◌, ◌<◌, ◌≤◌, length};
ghost use Rattle.av1_cdef.specs.Picture.{cdef_picture_of, IsHeld};
ghost use Rattle.av1_cdef.specs.Analysis.{plane_picture, IsDeep};

use av1_plane::{Pixel, Plane};

/// The samples of a plane that take part in the filter: `width` by `height` of them, of which the
/// first stands at place `origin`. Rows begin `step` apart.
#[derive(Clone, Copy)]
pub struct Source<'a, T> {
    pub samples: &'a [T],
    pub origin: usize,
    pub step: usize,
    pub width: usize,
    pub height: usize,
}

/// The samples inside a plane.
pub fn source_of<T: Pixel>(p: &Plane<T>) -> Source<'_, T>
    requires narrow { p.now.cfg.stride < 2 ^ 32 }
    requires some { 0 < p.now.cfg.height }
    ensures picture { cdef_picture_of T.number result ≡ plane_picture T.number p.now }
    ensures held { (bound : ℕ) → IsDeep bound (plane_picture T.number p.now)
        → IsHeld bound (length result.samples.now) (cdef_picture_of T.number result) }
{
    let _length = p.samples.len();
    let cfg = &p.cfg;
    let origin = cfg.yorigin * cfg.stride + cfg.xorigin;
    Source {
        samples: p.samples.as_slice(),
        origin,
        step: cfg.stride,
        width: cfg.width,
        height: cfg.height,
    }
}
