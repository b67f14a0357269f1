//! The units of all planes of a frame.
use crate::frame_invariants::FrameInvariants;
use crate::restoration_plane::{RestorationPlane, RestorationPlaneConfig};
use crate::unit_sizes::{plane_units, unit_sizes};
use av1_plane::{Frame, OutOfMemory, Pixel, Three};
use std::alloc::Global;

/// The units of a frame's planes.
#[derive(Debug, Drop)]
pub struct RestorationState {
    pub planes: Three<RestorationPlane>,
}

impl RestorationState {
    ghost use Rattle.std.specs.Prelude.{◌≡◌, IfOk};
    ghost use Rattle.av1_plane.specs.Layout.{frame_layout};
    ghost use Rattle.av1_plane.specs.Planes.{layout_of};
    ghost use Rattle.av1_tiling.specs.Frames.{IsFrame};
    ghost use Rattle.av1_tiling.specs.Restoration.{layouts_of, units_in};
    ghost use Rattle.av1_tiling.specs.UnitSizes.{start_units};

    /// The units of a frame as they start: all leave their samples as they are. Their sizes follow from the
    /// quantiser, the frame's sides and the tiles. `input` has the frame's sides and sampling.
    pub fn new<T: Pixel>(
        alloc: Global,
        fi: &FrameInvariants<T>,
        input: &Frame<T>,
    ) -> Result<RestorationState, OutOfMemory>
        requires frame { IsFrame T.limit fi.now }
        requires input { layout_of input.now
            ≡ frame_layout fi.now.width fi.now.height fi.now.sequence.chroma_sampling }
        ensures { IfOk result (λ made. units_in made ≡ start_units fi.now) }
    {
        let xdec = input.planes.u.cfg.xdec;
        let ydec = input.planes.u.cfg.ydec;
        let sizes = unit_sizes(fi, xdec, ydec);
        let y = plane_units(alloc, fi, sizes.luma, 0, 0)?;
        let u = plane_units(alloc, fi, sizes.chroma, xdec, ydec)?;
        let v = plane_units(alloc, fi, sizes.chroma, xdec, ydec)?;
        Ok(RestorationState {
            planes: Three { y, u, v },
        })
    }

    // How the units of all planes lie.
    pub(crate) fn layouts(&self) -> Three<RestorationPlaneConfig>
        ensures { result ≡ layouts_of (units_in self.now) }
    {
        Three {
            y: RestorationPlaneConfig {
                ..self.planes.y.cfg
            },
            u: RestorationPlaneConfig {
                ..self.planes.u.cfg
            },
            v: RestorationPlaneConfig {
                ..self.planes.v.cfg
            },
        }
    }

    /// The same units of all planes.
    pub fn try_clone(&self, alloc: Global) -> Result<RestorationState, OutOfMemory>
        ensures { IfOk result (λ copy. units_in copy ≡ units_in self.now) }
    {
        Ok(RestorationState {
            planes: Three {
                y: self.planes.y.try_clone(alloc)?,
                u: self.planes.u.try_clone(alloc)?,
                v: self.planes.v.try_clone(alloc)?,
            },
        })
    }
}
