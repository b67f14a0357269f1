//! How the planes of a frame are laid out.
ghost use Rattle.std.specs.Prelude.{◌≡◌, ◌≤◌};
ghost use Rattle.av1_plane.specs.Layout.{rounded, plane_layout, chroma_layout, frame_layout};
ghost use Rattle.av1_plane.specs.Sampling.{decimation};

use crate::frame_invariants::FrameInvariants;
use av1_plane::{ChromaSampling, Pixel, PlaneConfig, Three};

// Margin of a luma plane.
const LUMA_MARGIN: usize = 88;

/// The layouts that `FrameAlloc::new` gives the planes of a frame.
pub(crate) fn frame_layout<T: Pixel>(fi: &FrameInvariants<T>) -> Three<PlaneConfig>
    requires width { fi.now.width ≤ 65536 }
    requires height { fi.now.height ≤ 65536 }
    ensures { result ≡ frame_layout fi.now.width fi.now.height fi.now.sequence.chroma_sampling }
{
    let width = whole_blocks(fi.width);
    let height = whole_blocks(fi.height);
    let chroma = chroma_layout(width, height, fi.sequence.chroma_sampling);
    Three {
        y: plane_layout(width, height, 0, 0, LUMA_MARGIN, LUMA_MARGIN),
        u: chroma,
        v: chroma,
    }
}

// A side rounded up to whole 8x8 blocks.
fn whole_blocks(side: usize) -> usize
    requires { side ≤ 65536 }
    ensures value { result ≡ rounded side }
    ensures most { result ≤ 65536 }
{
    (side + 7) / 8 * 8
}

// The layout of a chroma plane beside a luma plane of these sides; without chroma it is empty.
fn chroma_layout(width: usize, height: usize, sampling: ChromaSampling) -> PlaneConfig
    requires width { width ≤ 65536 }
    requires height { height ≤ 65536 }
    ensures { result ≡ chroma_layout width height (decimation sampling) }
{
    match sampling.get_decimation() {
        None => plane_layout(0, 0, 0, 0, 0, 0),
        Some((xdec, ydec)) => plane_layout(
            width >> xdec,
            height >> ydec,
            xdec,
            ydec,
            LUMA_MARGIN >> xdec,
            LUMA_MARGIN >> ydec,
        ),
    }
}

// The layout of a plane of these sides with a margin of `xpad` columns and `ypad` rows on each side.
fn plane_layout(
    width: usize,
    height: usize,
    xdec: usize,
    ydec: usize,
    xpad: usize,
    ypad: usize,
) -> PlaneConfig
    requires width { width ≤ 65536 }
    requires height { height ≤ 65536 }
    requires xpad { xpad ≤ 256 }
    requires ypad { ypad ≤ 256 }
    ensures { result ≡ plane_layout width height xdec ydec xpad ypad }
{
    PlaneConfig {
        stride: width + 2 * xpad,
        alloc_height: height + 2 * ypad,
        width,
        height,
        xdec,
        ydec,
        xpad,
        ypad,
        xorigin: xpad,
        yorigin: ypad,
    }
}
