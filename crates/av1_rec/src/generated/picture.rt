//! The source of the frame that is made from a number.
ghost use Rattle.std.specs.Prelude.{◌≡◌, ◌≤◌, ◌+◌, ◌*◌, ◌/◌, ◌%◌, ◌^◌, pos, map, IfOk, OnOk};
ghost use Rattle.av1_plane.specs.Sampling.{decimation};
ghost use Rattle.av1_rec.specs.Generated.{next_state, state_after, source_sample, source_row, source_plane, source};
ghost use Rattle.av1_rec.specs.Lines.{numbers_of, said_planes};

use crate::text::chroma_picture;
use crate::text::extent::Extent;
use crate::text::header::FrameFormat;
use av1_plane::Three;
use std::alloc::{AllocError, Global};

// The state of the draws after one more.
fn next_state(state: u32) -> u32
    ensures { result ≡ next_state state }
{
    ((u64::from(state) * 1_664_525 + 1_013_904_223) % (1 << 32)) as u32
}

// The sample of plane `p` at a row and a column, where the draws are in this state.
fn source_sample(p: u32, row: u32, column: u32, state: u32) -> u8
    requires plane { p ≤ 2 }
    requires row { row ≤ 65536 }
    requires column { column ≤ 65536 }
    ensures { result ≡ source_sample p row column state }
{
    let slope = (column / 8 + row / 8 + 64 * p) % 192;
    (16 + slope + state / (1 << 24) % 4) as u8
}

// A row of plane `p`, one draw for each sample.
#[tactic(auto, unfolding(crate::specs::Generated::source_row))]
fn source_row(
    alloc: Global,
    p: u32,
    row: u32,
    width: u32,
    state: &mut u32,
) -> Result<Vec<u8>, AllocError>
    requires plane { p ≤ 2 }
    requires row { row ≤ 65536 }
    requires width { width ≤ 65536 }
    ensures value { IfOk result
        (λ made. map pos made.items ≡ source_row p row width state.old) }
    ensures state { OnOk result (state.new ≡ state_after state.old width) }
{
    let mut made = Vec::with_capacity(alloc, width as usize)?;
    for column in 0..width {
        *state = next_state(*state);
        made.push(source_sample(p, row, column, *state))?;
    }
    Ok(made)
}

// The rows of plane `p`, one behind another.
#[tactic(auto, unfolding(crate::specs::Generated::source_plane))]
fn source_plane(
    alloc: Global,
    p: u32,
    sides: Extent,
    state: &mut u32,
) -> Result<Vec<Vec<u8>>, AllocError>
    requires plane { p ≤ 2 }
    requires width { sides.width ≤ 65536 }
    requires height { sides.height ≤ 65536 }
    ensures value { IfOk result
        (λ made. numbers_of pos made.items ≡ source_plane p state.old sides) }
    ensures state { OnOk result (state.new ≡ state_after state.old (sides.height * sides.width)) }
{
    let mut made = Vec::with_capacity(alloc, sides.height as usize)?;
    for row in 0..sides.height {
        made.push(source_row(alloc, p, row, sides.width, state)?)?;
    }
    Ok(made)
}

/// The planes, one behind another.
#[tactic(auto, unfolding(crate::specs::Generated::source))]
pub fn source(
    alloc: Global,
    format: &FrameFormat,
    seed: u32,
) -> Result<Three<Vec<Vec<u8>>>, AllocError>
    requires width { format.now.width ≤ 65536 }
    requires height { format.now.height ≤ 65536 }
    ensures { IfOk result (λ made. said_planes pos made ≡ source format.now seed) }
{
    let luma = Extent {
        width: format.width,
        height: format.height,
    };
    let chroma = chroma_picture(format);
    let mut state = seed;
    let y = source_plane(alloc, 0, luma, &mut state)?;
    let u = source_plane(alloc, 1, chroma, &mut state)?;
    let v = source_plane(alloc, 2, chroma, &mut state)?;
    Ok(Three { y, u, v })
}
