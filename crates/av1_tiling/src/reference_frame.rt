//! Frames that later frames may be predicted from.
ghost use Rattle.std.specs.Prelude.{◌≡◌, IfOk};

use crate::segmentation_state::SegmentationState;
use av1_block::FrameMEStats;
use av1_plane::{Frame, OutOfMemory, Pixel, Plane};
use std::alloc::Global;
use std::marker::Model;
use std::sync::Arc;

/// What is kept of a coded frame for the frames after it (AV1 specification, section 7.20).
#[derive(Debug, Drop)]
pub struct ReferenceFrame<T: Pixel> {
    pub order_hint: u32,
    /// The sides of the frame, and those at which it is shown, in luma samples.
    pub width: u32,
    pub height: u32,
    pub render_width: u32,
    pub render_height: u32,
    pub frame: Arc<Frame<T>>,
    /// The input at half and at quarter resolution.
    pub input_hres: Arc<Plane<T>>,
    pub input_qres: Arc<Plane<T>>,
    /// Eight tables, one for each reference of the frame.
    pub frame_me_stats: Vec<FrameMEStats>,
    /// The frame's number in output order.
    pub output_frameno: u64,
    pub segmentation: SegmentationState,
}

impl<T: Pixel> Model for ReferenceFrame<T> {
    ghost use Rattle.std.specs.Arc.{arc_value};
    ghost use Rattle.av1_tiling.specs.Views.{view_plane, view_frame};
    ghost use Rattle.av1_tiling.specs.References.{Reference};

    ghost Value = { Reference };

    ghost view = { λ r. record {
      order_hint = r.order_hint;
      width = r.width;
      height = r.height;
      render_width = r.render_width;
      render_height = r.render_height;
      frame = view_frame T.number (arc_value r.frame);
      input_hres = view_plane T.number (arc_value r.input_hres);
      input_qres = view_plane T.number (arc_value r.input_qres);
      frame_me_stats = r.frame_me_stats.items;
      output_frameno = r.output_frameno;
      segmentation = r.segmentation;
    } };
}

impl<T: Pixel> ReferenceFrame<T> {
    /// A copy of the reference frame, which shares its planes.
    pub fn try_clone(&self, alloc: Global) -> Result<ReferenceFrame<T>, OutOfMemory>
        ensures { IfOk result (λ copy. copy ≡ self.now) }
    {
        Ok(ReferenceFrame {
            order_hint: self.order_hint,
            width: self.width,
            height: self.height,
            render_width: self.render_width,
            render_height: self.render_height,
            frame: Arc::try_clone(&self.frame)?,
            input_hres: Arc::try_clone(&self.input_hres)?,
            input_qres: Arc::try_clone(&self.input_qres)?,
            frame_me_stats: copied_tables(alloc, &self.frame_me_stats)?,
            output_frameno: self.output_frameno,
            segmentation: self.segmentation,
        })
    }
}

// Copies of the tables of motion records.
fn copied_tables(alloc: Global, tables: &[FrameMEStats]) -> Result<Vec<FrameMEStats>, OutOfMemory>
    ensures { IfOk result (λ copies. copies.items ≡ tables.now) }
{
    let mut copies = Vec::with_capacity(alloc, tables.len())?;
    for table in tables {
        copies.push(table.try_clone(alloc)?)?;
    }
    Ok(copies)
}
