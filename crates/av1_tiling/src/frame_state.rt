ghost use Rattle.std.specs.Prelude.{◌≡◌, ◌≤◌, IfOk, map, replicate};
ghost use Rattle.av1_tiling.specs.Motion.{blank_motion};

use crate::deblock_state::DeblockState;
use crate::frame_invariants::FrameInvariants;
use crate::restoration_state::RestorationState;
use crate::segmentation_state::SegmentationState;
use av1_block::FrameMEStats;
use av1_plane::{Frame, FrameAlloc, OutOfMemory, Pixel, Plane};
use std::alloc::Global;
use std::marker::Model;
use std::sync::Arc;

/// What changes while a frame is coded.
#[derive(Drop)]
pub struct FrameState<T: Pixel> {
    pub input: Arc<Frame<T>>,
    /// The input at half and at quarter resolution.
    pub input_hres: Arc<Plane<T>>,
    pub input_qres: Arc<Plane<T>>,
    /// The reconstruction.
    pub rec: Arc<Frame<T>>,
    /// The tile whose contexts the next frame begins with.
    pub context_update_tile_id: usize,
    /// How many bytes a tile's length takes.
    pub max_tile_size_bytes: u32,
    pub deblock: DeblockState,
    pub segmentation: SegmentationState,
    /// The units of loop restoration.
    pub restoration: RestorationState,
    /// Eight tables, one for each reference.
    pub frame_me_stats: Vec<FrameMEStats>,
}

impl<T: Pixel> Model for FrameState<T> {
    ghost use Rattle.std.specs.Prelude.{map};
    ghost use Rattle.std.specs.Arc.{arc_value};
    ghost use Rattle.av1_tiling.specs.Views.{view_plane, view_frame};
    ghost use Rattle.av1_tiling.specs.Frames.{State};
    ghost use Rattle.av1_tiling.specs.Restoration.{units_in};

    ghost Value = { State };

    ghost view = { λ fs. record {
      input = view_frame T.number (arc_value fs.input);
      input_hres = view_plane T.number (arc_value fs.input_hres);
      input_qres = view_plane T.number (arc_value fs.input_qres);
      rec = view_frame T.number (arc_value fs.rec);
      context_update_tile_id = fs.context_update_tile_id;
      max_tile_size_bytes = fs.max_tile_size_bytes;
      deblock = fs.deblock;
      segmentation = fs.segmentation;
      restoration = units_in fs.restoration;
      frame_me_stats = fs.frame_me_stats.items;
    } };
}

impl<T: Pixel> FrameState<T> {
    ghost use Rattle.std.specs.Arc.{arc_value};
    ghost use Rattle.av1_tiling.specs.Frames.{start, IsFrame, IsInputFor, IsStateFor};
    ghost use Rattle.av1_tiling.specs.Views.{view_frame, view_plane};

    /// The state that coding a frame begins with: a reconstruction of zeros, and the default of all
    /// else. The input has the frame's sides, sampling and bit depth.
    pub fn with_source(
        alloc: Global,
        fi: &FrameInvariants<T>,
        input: Arc<Frame<T>>,
        input_hres: Arc<Plane<T>>,
        input_qres: Arc<Plane<T>>,
    ) -> Result<FrameState<T>, OutOfMemory>
        requires frame { IsFrame T.limit fi.now }
        requires input { IsInputFor fi.now (view_frame T.number (arc_value input)) }
        ensures start { IfOk result (λ fs. fs
            ≡ start fi.now (view_frame T.number (arc_value input))
            (view_plane T.number (arc_value input_hres))
            (view_plane T.number (arc_value input_qres))) }
        ensures made_for { IfOk result (λ fs. IsStateFor fi.now fs) }
    {
        let rec = Frame::new(alloc, fi.width, fi.height, fi.sequence.chroma_sampling)?;
        let restoration = RestorationState::new(alloc, fi, &input)?;
        let frame_me_stats = blank_motion(alloc, fi.w_in_b, fi.h_in_b)?;
        Ok(FrameState {
            input,
            input_hres,
            input_qres,
            rec: Arc::new(alloc, rec)?,
            context_update_tile_id: 0,
            max_tile_size_bytes: 0,
            deblock: DeblockState::default(),
            segmentation: SegmentationState::default(),
            restoration,
            frame_me_stats,
        })
    }
}

// Eight tables of these sides without motion.
fn blank_motion(alloc: Global, cols: usize, rows: usize) -> Result<Vec<FrameMEStats>, OutOfMemory>
    requires cols { cols ≤ 16384 }
    requires rows { rows ≤ 16384 }
    ensures { IfOk result (λ made. made.items ≡ replicate 8 (blank_motion cols rows)) }
{
    let mut tables = Vec::with_capacity(alloc, 8)?;
    for _reference in 0..8usize {
        tables.push(FrameMEStats::new(alloc, cols, rows)?)?;
    }
    Ok(tables)
}
