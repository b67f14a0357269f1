//! What coding the frame of a text begins with.
ghost use Rattle.std.specs.Prelude.{◌≡◌, ◌≤◌, IfOk};
ghost use Rattle.av1_tiling.specs.Frames.{IsFrame, IsInputFor, IsStateFor};
ghost use Rattle.av1_rec.specs.Lines.{said_planes};
ghost use Rattle.av1_rec.specs.Picture.{source_frame, HasPictureRows};
ghost use Rattle.av1_rec.specs.Begin.{start_state};
ghost use Rattle.av1_rec.specs.Parameters.{frame_parameters};

use crate::frame::picture::source_frame;
use crate::text::header::Header;
use av1_plane::{OutOfMemory, Pixel, Plane, Three};
use av1_tiling::{FrameInvariants, FrameState, ReferenceFramesSet, Sequence, TilingInfo};
use std::alloc::Global;
use std::sync::Arc;

/// The parameters of a header's frame, whose sides are 1 to 65536. Nothing is kept of other frames.
pub fn frame_invariants<T: Pixel>(
    alloc: Global,
    header: &Header,
    tiling: TilingInfo,
) -> Result<FrameInvariants<T>, OutOfMemory>
    requires width { (1 ≤ header.now.format.width) × (header.now.format.width ≤ 65536) }
    requires height { (1 ≤ header.now.format.height) × (header.now.format.height ≤ 65536) }
    ensures { IfOk result (λ fi. fi ≡ frame_parameters header.now tiling) }
{
    let format = &header.format;
    let width = format.width as usize;
    let height = format.height as usize;
    let sequence = Sequence {
        bit_depth: format.depth as usize,
        chroma_sampling: format.sampling,
        use_128x128_superblock: false,
        enable_cdef: header.switches.enable_cdef,
        enable_restoration: header.switches.enable_restoration,
        enable_large_lru: header.switches.enable_large_lru,
        tiling,
    };
    Ok(FrameInvariants {
        sequence,
        width,
        height,
        sb_width: width.div_ceil(64),
        sb_height: height.div_ceil(64),
        w_in_b: width.next_multiple_of(8) / 4,
        h_in_b: height.next_multiple_of(8) / 4,
        frame_type: header.frame_type,
        base_q_idx: header.quantizers.base_q_idx,
        ac_quantizer: header.quantizers.ac_quantizer,
        cdef_damping: header.cdef.damping,
        cdef_y_strengths: header.cdef.y_strengths,
        cdef_uv_strengths: header.cdef.uv_strengths,
        fast_deblock: header.switches.fast_deblock,
        disable_frame_end_update_cdf: header.switches.disable_frame_end_update_cdf,
        order_hint: 0,
        render_width: format.width,
        render_height: format.height,
        refresh_frame_flags: 0,
        rec_buffer: ReferenceFramesSet::new(alloc)?,
    })
}

/// The state that coding a header's frame begins with. The half and the quarter plane are empty.
pub fn start_state<T: Pixel + Drop>(
    alloc: Global,
    fi: &FrameInvariants<T>,
    header: &Header,
    source: Three<Vec<Vec<T>>>,
) -> Result<FrameState<T>, OutOfMemory>
    requires frame { IsFrame T.limit fi.now }
    requires header { fi.now ≡ frame_parameters header.now fi.now.sequence.tiling }
    requires picture { HasPictureRows header.now.format (said_planes T.number source) }
    requires input { IsInputFor fi.now
        (source_frame header.now.format (said_planes T.number source)) }
    requires shift { header.now.deblock.block_delta_shift ≤ 3 }
    ensures start { IfOk result (λ fs. fs
        ≡ start_state header.now fi.now.sequence.tiling (said_planes T.number source)) }
    ensures made_for { IfOk result (λ fs. IsStateFor fi.now fs) }
{
    let input = Arc::new(alloc, source_frame(alloc, &header.format, &source)?)?;
    let half = Arc::new(alloc, Plane::new(alloc, 0, 0, 0, 0, 0, 0)?)?;
    let quarter = Arc::new(alloc, Plane::new(alloc, 0, 0, 0, 0, 0, 0)?)?;
    let mut fs = FrameState::with_source(alloc, fi, input, half, quarter)?;
    fs.deblock = header.deblock;
    Ok(fs)
}
