//! The slots of reference frames after a frame.
ghost use Rattle.std.specs.Prelude.{◌≡◌, ◌<◌, ◌^◌, IfOk, OnOk, OnErr, Some, length, map, option_map, if◌then◌else◌};
ghost use Rattle.std.specs.Arc.{arc_value};
ghost use Rattle.av1_frame.specs.RecBuffer.{HasSlots, reference_frame, refreshed, refreshed_slots, is_refreshed};

use crate::copies::copied_motion;
use av1_plane::{OutOfMemory, Pixel};
use av1_tiling::{DeblockState, FrameInvariants, FrameState, ReferenceFrame, ReferenceFramesSet};
use std::alloc::Global;
use std::sync::Arc;

/// Fills slot `i` of `fi.rec_buffer` with the coded frame and its deblocking state wherever bit `i`
/// of `fi.refresh_frame_flags` is set (AV1 specification, section 7.20). The filled slots share one
/// frame, whose number in output order is `output_frameno`.
///
/// After `OutOfMemory` every slot is as before.
#[tactic(auto, using(crate::proofs::Refreshing::length_refreshed))]
pub fn update_rec_buffer<T: Pixel>(
    alloc: Global,
    output_frameno: u64,
    fi: &mut FrameInvariants<T>,
    fs: &FrameState<T>,
) -> Result<(), OutOfMemory>
    requires width { fi.old.width < 2 ^ 32 }
    requires height { fi.old.height < 2 ^ 32 }
    requires slots { HasSlots fi.old.rec_buffer }
    ensures ok { OnOk result (fi.new
        ≡ record fi.old { rec_buffer = refreshed fi.old fs.now output_frameno }) }
    ensures err { OnErr result (fi.new ≡ fi.old) }
    ensures slots { HasSlots fi.new.rec_buffer }
{
    let flags = fi.refresh_frame_flags;
    let reference = Arc::new(alloc, reference_frame(alloc, output_frameno, fi, fs)?)?;
    let frames = refreshed_frames(alloc, flags, &reference, &fi.rec_buffer.frames)?;
    let deblock = refreshed_deblock(alloc, flags, fs.deblock, &fi.rec_buffer.deblock)?;
    fi.rec_buffer = ReferenceFramesSet { frames, deblock };
    Ok(())
}

// What is kept of the coded frame, which shares the planes of the state.
fn reference_frame<T: Pixel>(
    alloc: Global,
    output_frameno: u64,
    fi: &FrameInvariants<T>,
    fs: &FrameState<T>,
) -> Result<ReferenceFrame<T>, OutOfMemory>
    requires width { fi.now.width < 2 ^ 32 }
    requires height { fi.now.height < 2 ^ 32 }
    ensures { IfOk result (λ kept. kept ≡ reference_frame fi.now fs.now output_frameno) }
{
    Ok(ReferenceFrame {
        order_hint: fi.order_hint,
        width: fi.width as u32,
        height: fi.height as u32,
        render_width: fi.render_width,
        render_height: fi.render_height,
        frame: Arc::try_clone(&fs.rec)?,
        input_hres: Arc::try_clone(&fs.input_hres)?,
        input_qres: Arc::try_clone(&fs.input_qres)?,
        frame_me_stats: copied_motion(alloc, &fs.frame_me_stats)?,
        output_frameno,
        segmentation: fs.segmentation,
    })
}

// The frames of the slots: the new one, shared, where the flags say so, and else the old one.
fn refreshed_frames<T: Pixel>(
    alloc: Global,
    flags: u32,
    reference: &Arc<ReferenceFrame<T>>,
    frames: &[Option<Arc<ReferenceFrame<T>>>],
) -> Result<Vec<Option<Arc<ReferenceFrame<T>>>>, OutOfMemory>
    requires { length frames.now ≡ 8 }
    ensures { IfOk result (λ slots. map (option_map (λ a. arc_value a)) slots.items
        ≡ refreshed_slots flags (Some (arc_value reference.now))
        (map (option_map (λ a. arc_value a)) frames.now)) }
{
    let mut slots = Vec::with_capacity(alloc, frames.len())?;
    for (i, old) in frames.iter().enumerate() {
        slots.push(refreshed_frame(flags, i, reference, old)?)?;
    }
    Ok(slots)
}

// The frame of slot `i`: the new one or the old one, shared.
fn refreshed_frame<T: Pixel>(
    flags: u32,
    i: usize,
    reference: &Arc<ReferenceFrame<T>>,
    old: &Option<Arc<ReferenceFrame<T>>>,
) -> Result<Option<Arc<ReferenceFrame<T>>>, OutOfMemory>
    requires { i < 8 }
    ensures { IfOk result (λ slot. option_map (λ a. arc_value a) slot
        ≡ (if is_refreshed flags i then Some (arc_value reference.now)
        else option_map (λ a. arc_value a) old.now)) }
{
    if is_refreshed(flags, i) {
        return Ok(Some(Arc::try_clone(reference)?));
    }
    match old {
        None => Ok(None),
        Some(frame) => Ok(Some(Arc::try_clone(frame)?)),
    }
}

// The deblocking states of the slots: the new one where the flags say so, and else the old one.
fn refreshed_deblock(
    alloc: Global,
    flags: u32,
    state: DeblockState,
    states: &[DeblockState],
) -> Result<Vec<DeblockState>, OutOfMemory>
    requires { length states.now ≡ 8 }
    ensures { IfOk result (λ slots. slots.items ≡ refreshed_slots flags state states.now) }
{
    let mut slots = Vec::with_capacity(alloc, states.len())?;
    for (i, old) in states.iter().enumerate() {
        slots.push(if is_refreshed(flags, i) { state } else { *old })?;
    }
    Ok(slots)
}

// Whether the coded frame goes into slot `slot`.
fn is_refreshed(flags: u32, slot: usize) -> bool
    requires { slot < 8 }
    ensures { result ≡ is_refreshed flags slot }
{
    flags >> slot & 1 == 1
}
