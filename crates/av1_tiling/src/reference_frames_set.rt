//! The slots of reference frames.
ghost use Rattle.std.specs.Prelude.{◌≡◌, IfOk, map, option_map};
ghost use Rattle.std.specs.Arc.{arc_value};

use crate::deblock_state::DeblockState;
use crate::reference_frame::ReferenceFrame;
use av1_plane::{OutOfMemory, Pixel};
use std::alloc::Global;
use std::marker::Model;
use std::sync::Arc;

/// The eight slots of reference frames, each with the deblocking state of its frame.
#[derive(Debug, Drop)]
pub struct ReferenceFramesSet<T: Pixel> {
    pub frames: Vec<Option<Arc<ReferenceFrame<T>>>>,
    pub deblock: Vec<DeblockState>,
}

impl<T: Pixel> Model for ReferenceFramesSet<T> {
    ghost use Rattle.std.specs.Prelude.{map, option_map};
    ghost use Rattle.std.specs.Arc.{arc_value};
    ghost use Rattle.av1_tiling.specs.References.{References};

    ghost Value = { References };

    ghost view = { λ s. record {
      frames = map (option_map (λ a. arc_value a)) s.frames.items;
      deblock = s.deblock.items;
    } };
}

impl<T: Pixel> ReferenceFramesSet<T> {
    ghost use Rattle.av1_tiling.specs.References.{no_references};

    /// Eight empty slots.
    pub fn new(alloc: Global) -> Result<ReferenceFramesSet<T>, OutOfMemory>
        ensures { IfOk result (λ made. made ≡ no_references) }
    {
        let mut frames = Vec::with_capacity(alloc, 8)?;
        for _slot in 0..8usize {
            frames.push(None)?;
        }
        let deblock = vec![in alloc; DeblockState::default(); 8]?;
        Ok(ReferenceFramesSet { frames, deblock })
    }

    /// Copies of the slots, which share their frames.
    pub fn try_clone(&self, alloc: Global) -> Result<ReferenceFramesSet<T>, OutOfMemory>
        ensures { IfOk result (λ copy. copy ≡ self.now) }
    {
        Ok(ReferenceFramesSet {
            frames: shared_frames(alloc, &self.frames)?,
            deblock: Vec::from_slice(alloc, &self.deblock)?,
        })
    }
}

// Copies of the slots, which share their frames.
fn shared_frames<T: Pixel>(
    alloc: Global,
    frames: &[Option<Arc<ReferenceFrame<T>>>],
) -> Result<Vec<Option<Arc<ReferenceFrame<T>>>>, OutOfMemory>
    ensures { IfOk result (λ copies. map (option_map (λ a. arc_value a)) copies.items
        ≡ map (option_map (λ a. arc_value a)) frames.now) }
{
    let mut copies = Vec::with_capacity(alloc, frames.len())?;
    for slot in frames {
        copies.push(shared_frame(slot)?)?;
    }
    Ok(copies)
}

// A copy of a slot, which shares its frame.
fn shared_frame<T: Pixel>(
    slot: &Option<Arc<ReferenceFrame<T>>>,
) -> Result<Option<Arc<ReferenceFrame<T>>>, OutOfMemory>
    ensures { IfOk result (λ copies. option_map (λ a. arc_value a) copies
        ≡ option_map (λ a. arc_value a) slot.now) }
{
    match slot {
        None => Ok(None),
        Some(frame) => Ok(Some(Arc::try_clone(frame)?)),
    }
}
