//! The constrained directional enhancement filter, CDEF (AV1 specification, section 7.15).
//!
//! A block of 8x8 luma samples and its chroma are filtered along the direction in which the luma
//! block changes least. `cdef_analyze_superblock` finds the directions and variances of a part of
//! 64x64 luma samples, and `cdef_filter_superblock` filters its blocks: it copies each block into
//! cells with two more on each side, `CDEF_VERY_LARGE` past the plane, and filters from these.
//! `cdef_filter_tile` does both for each superblock of a view.
#![tactic(auto)]

mod analysis;
mod block;
mod direction;
mod directions;
pub mod laws;
mod pad;
mod part;
mod run;
mod settings;
mod slices;
mod source;
mod strength;
mod superblock;
mod tally;
mod taps;
mod taps_of;
mod tile;

pub use analysis::{cdef_analyze_superblock, cdef_analyze_superblock_range};
pub use directions::CdefDirections;
pub use slices::{
    CDEF_HAVE_ALL, CDEF_HAVE_BOTTOM, CDEF_HAVE_LEFT, CDEF_HAVE_RIGHT, CDEF_HAVE_TOP, cdef_find_dir,
    pad_into_tmp16,
};
pub use strength::{adjust_strength, constrain, first_max_element};
pub use superblock::cdef_filter_superblock;
pub use tally::CDEF_VERY_LARGE;
pub use tile::cdef_filter_tile;

#[cfg(test)]
mod tests;
