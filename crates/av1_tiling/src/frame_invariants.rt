use crate::reference_frames_set::ReferenceFramesSet;
use crate::sequence::Sequence;
use av1_plane::Pixel;
use std::marker::Model;

/// Type of a frame (AV1 specification, section 6.8.2).
#[derive(Clone, Copy, Debug, PartialEq, Eq)]
pub enum FrameType {
    KEY,
    INTER,
    INTRA_ONLY,
    SWITCH,
}

/// What does not change while a frame is coded.
#[derive(Debug, Drop)]
pub struct FrameInvariants<T: Pixel> {
    pub sequence: Sequence,
    pub width: usize,
    pub height: usize,
    /// The sides in superblocks.
    pub sb_width: usize,
    pub sb_height: usize,
    /// The sides of the block table.
    pub w_in_b: usize,
    pub h_in_b: usize,
    pub frame_type: FrameType,
    pub base_q_idx: u8,
    pub ac_quantizer: u16,
    pub cdef_damping: u8,
    pub cdef_y_strengths: [u8; 8],
    pub cdef_uv_strengths: [u8; 8],
    pub fast_deblock: bool,
    pub disable_frame_end_update_cdf: bool,
    pub order_hint: u32,
    pub render_width: u32,
    pub render_height: u32,
    pub refresh_frame_flags: u32,
    /// The slots of reference frames.
    pub rec_buffer: ReferenceFramesSet<T>,
}

impl<T: Pixel> Model for FrameInvariants<T> {
    ghost use Rattle.av1_tiling.specs.Frames.{Parameters};

    ghost Value = { Parameters };

    ghost view = { λ fi. record {
      sequence = fi.sequence;
      width = fi.width;
      height = fi.height;
      sb_width = fi.sb_width;
      sb_height = fi.sb_height;
      w_in_b = fi.w_in_b;
      h_in_b = fi.h_in_b;
      frame_type = fi.frame_type;
      base_q_idx = fi.base_q_idx;
      ac_quantizer = fi.ac_quantizer;
      cdef_damping = fi.cdef_damping;
      cdef_y_strengths = fi.cdef_y_strengths;
      cdef_uv_strengths = fi.cdef_uv_strengths;
      fast_deblock = fi.fast_deblock;
      disable_frame_end_update_cdf = fi.disable_frame_end_update_cdf;
      order_hint = fi.order_hint;
      render_width = fi.render_width;
      render_height = fi.render_height;
      refresh_frame_flags = fi.refresh_frame_flags;
      rec_buffer = fi.rec_buffer;
    } };
}
