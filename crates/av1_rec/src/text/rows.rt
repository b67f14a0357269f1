ghost use Rattle.std.specs.Prelude.{◌≡◌, ◌<◌, ◌≤◌, ◌^◌, ℕ, pos, map};
ghost use Rattle.av1_rec.specs.Fields.{below};
ghost use Rattle.av1_rec.specs.Lines.{Gives, text_line, row, text_rows, planes, said_planes};

use crate::text::extent::Extent;
use crate::text::fault::{TextError, wrong};
use crate::text::fields::tag;
use crate::text::hex::below;
use av1_plane::{Pixel, Three};
use std::alloc::Global;

fn signed_of(n: u32) -> i32
    requires { n < 65536 }
    ensures { result ≡ pos n }
{
    n as i32
}

fn sample_of<T: Pixel>(n: u32) -> T
    requires fits { n < T.limit }
    requires small { n < 65536 }
    ensures { T.number result ≡ pos n }
{
    let v = signed_of(n);
    T::from_i32(v)
}

// One line of samples below a limit.
#[tactic(auto, using(crate::proofs::Samples::row_steps))]
fn row<T: Pixel + Drop>(
    alloc: Global,
    wide: bool,
    limit: u32,
    width: usize,
    text: &[u8],
) -> Result<(Vec<T>, &[u8]), TextError>
    requires { limit ≤ T.limit }
    ensures { Gives (λ x. (map T.number x.0.items, x.1.now)) result
        (text_line (row wide limit width) text.now) }
{
    let mut samples = Vec::with_capacity(alloc, width)?;
    let mut rest = text;
    for _ in 0..width {
        let Some((n, after)) = below(wide, limit, rest) else {
            return Err(wrong(text));
        };
        samples.push(sample_of(n))?;
        rest = after;
    }
    match tag(rest, b"\n") {
        Some(rest) => Ok((samples, rest)),
        None => Err(wrong(text)),
    }
}

// `height` lines of samples.
#[tactic(auto, using(crate::proofs::Many::many_steps))]
fn rows<T: Pixel + Drop>(
    alloc: Global,
    wide: bool,
    limit: u32,
    width: usize,
    height: u32,
    text: &[u8],
) -> Result<(Vec<Vec<T>>, &[u8]), TextError>
    requires { limit ≤ T.limit }
    ensures { Gives (λ x. (map (λ v. map T.number v.items) x.0.items, x.1.now)) result
        (text_rows wide limit width height text.now) }
{
    let mut rows = Vec::new(alloc);
    let mut rest = text;
    for _ in 0..height {
        let (one, after) = row(alloc, wide, limit, width, rest)?;
        rows.push(one)?;
        rest = after;
    }
    Ok((rows, rest))
}

/// The rows of each plane: luma, and two chroma planes, which may be empty.
#[tactic(auto, unfolding(crate::specs::Lines::planes))]
pub fn planes<'a, T: Pixel + Drop>(
    alloc: Global,
    wide: bool,
    limit: u32,
    luma: &Extent,
    chroma: &Extent,
    text: &'a [u8],
) -> Result<(Three<Vec<Vec<T>>>, &'a [u8]), TextError>
    requires { limit ≤ T.limit }
    ensures { Gives (λ x. (said_planes T.number x.0, x.1.now)) result
        (planes wide limit luma.now chroma.now text.now) }
{
    let (y, rest) = rows(alloc, wide, limit, luma.width as usize, luma.height, text)?;
    let (u, rest) = rows(
        alloc,
        wide,
        limit,
        chroma.width as usize,
        chroma.height,
        rest,
    )?;
    let (v, rest) = rows(
        alloc,
        wide,
        limit,
        chroma.width as usize,
        chroma.height,
        rest,
    )?;
    Ok((Three { y, u, v }, rest))
}
