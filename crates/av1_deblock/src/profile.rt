ghost use Rattle.std.specs.Prelude.{◌≡◌, ◌+◌, ◌-◌, ◌*◌, ◌/◌, ◌<◌, ◌≤◌, ◌^◌, ◌⊎◌, pos, ◌≤ℤ◌, ◌<ℤ◌, length, min, max, true, false, ◌==◌, if◌then◌else◌};
ghost use Rattle.av1_plane.specs.Numbers.{Below, InDepth};
ghost use Rattle.av1_deblock.specs.Line.{IsSize, distance, before, after, tested, flat, flat_outside, wide, narrow};
ghost use Rattle.av1_deblock.specs.Errors.{reach, squares, line_distance, IsProfile};
ghost use Rattle.av1_deblock.specs.Thresholds.{IsScale, over, greatest_step, edge_distance, first_of_distances, first_level, variance, moved_line};

use crate::line::{gap, is_flat_line, narrowed, tests_of, widened};

/// The error of a line by the level at which it is filtered.
#[derive(Clone, Copy)]
pub struct Profile {
    /// The error of the line as it is.
    pub unfiltered: u32,
    /// The level from which on it is filtered, at most 64.
    pub from: u32,
    /// The error of the line filtered with high variance.
    pub high: u32,
    /// The level from which on it is filtered without high variance, at most 64.
    pub lost: u32,
    /// The error of the line filtered without high variance.
    pub low: u32,
}

#[inline(always)]
fn over_of(d: u32, scale: u32, bits: u32) -> u32
    requires d { d < 1000000 }
    requires kind { IsScale scale }
    requires bits { bits ≤ 4 }
    requires scale { scale ≡ 2 ^ bits }
    ensures value { result ≡ over d scale }
    ensures small { result < 1000016 }
{
    (d + (scale - 1)) >> bits
}

// The level from which on a line with these distances is filtered.
#[inline(always)]
fn first_of(edge: u32, step: u32, scale: u32, bits: u32) -> u32
    requires edge { edge < 1000000 }
    requires step { step < 1000000 }
    requires kind { IsScale scale }
    requires bits { bits ≤ 4 }
    requires scale { scale ≡ 2 ^ bits }
    ensures value { result ≡ min (first_of_distances scale edge step) 64 }
    ensures small { result ≤ 64 }
{
    // At least 5, since a line is filtered from level 1 on at the earliest.
    let by_edge = (over_of(edge, scale, bits).max(5) - 2) / 3;
    by_edge.max(over_of(step, scale, bits)).min(64)
}

#[inline(always)]
fn lost_of(v: u32, scale: u32, bits: u32) -> u32
    requires v { v < 1000000 }
    requires kind { IsScale scale }
    requires bits { bits ≤ 4 }
    requires scale { scale ≡ 2 ^ bits }
    ensures value { result ≡ min (16 * over v scale) 64 }
    ensures small { result ≤ 64 }
{
    (16 * over_of(v, scale, bits)).min(64)
}

#[inline(always)]
fn square(a: i32, b: i32) -> u32
    requires a { InDepth 4096 a }
    requires b { InDepth 4096 b }
    ensures value { result ≡ distance a b * distance a b }
    ensures small { result ≤ 16769025 }
{
    let d = gap(a, b);
    d * d
}

#[inline(always)]
fn reach_of(size: usize) -> usize
    ensures { result ≡ reach size }
{
    if size <= 6 {
        2
    } else if size == 8 {
        3
    } else {
        6
    }
}

#[inline(always)]
#[tactic(auto, using(crate::proofs::Errors::sums))]
fn squares_of(xs: &[i32], ys: &[i32], from: usize, n: usize) -> u32
    requires n { n ≤ 12 }
    requires xs { from + n ≤ length xs.now }
    requires ys { from + n ≤ length ys.now }
    requires in_xs { Below 4096 xs.now }
    requires in_ys { Below 4096 ys.now }
    ensures value { result ≡ squares xs.now ys.now from n }
    ensures small { result ≤ 268435456 }
{
    let mut total = 0;
    for k in 0..n {
        total += square(xs[from + k], ys[from + k]);
    }
    total
}

#[inline(always)]
fn step_of(a: i32, b: i32) -> u32
    requires a { InDepth 4096 a }
    requires b { InDepth 4096 b }
    ensures value { result ≡ distance a b }
    ensures small { result < 4096 }
{
    a.abs_diff(b)
}

#[inline(always)]
fn greater_of(a: u32, b: u32) -> u32
    ensures { result ≡ max a b }
{
    a.max(b)
}

// The error at each level of a line with these distances and errors.
#[inline(always)]
fn profile_of(
    edge: u32,
    step: u32,
    v: u32,
    unfiltered: u32,
    high: u32,
    low: u32,
    scale: u32,
    bits: u32,
) -> Profile
    requires edge { edge < 1000000 }
    requires step { step < 1000000 }
    requires v { v < 1000000 }
    requires kind { IsScale scale }
    requires bits { bits ≤ 4 }
    requires scale { scale ≡ 2 ^ bits }
    ensures unfiltered { result.unfiltered ≡ unfiltered }
    ensures from { result.from ≡ min (first_of_distances scale edge step) 64 }
    ensures high { result.high ≡ high }
    ensures lost { result.lost
        ≡ max (min (first_of_distances scale edge step) 64) (min (16 * over v scale) 64) }
    ensures low { result.low ≡ low }
{
    let from = first_of(edge, step, scale, bits);
    let lost = greater_of(from, lost_of(v, scale, bits));
    Profile {
        unfiltered,
        from,
        high,
        lost,
        low,
    }
}

// Any line.

#[inline(always)]
fn edge_in(line: &[i32], half: usize) -> u32
    requires low { 2 ≤ half }
    requires high { half + 1 < length line.now }
    requires range { Below 4096 line.now }
    ensures value { result ≡ edge_distance line.now half }
    ensures small { result < 1000000 }
{
    2 * step_of(line[half - 1], line[half]) + step_of(line[half - 2], line[half + 1]) / 2
}

#[inline(always)]
fn variance_in(line: &[i32], half: usize) -> u32
    requires low { 2 ≤ half }
    requires high { half + 1 < length line.now }
    requires range { Below 4096 line.now }
    ensures value { result ≡ variance line.now half }
    ensures small { result < 1000000 }
{
    let low = step_of(line[half - 2], line[half - 1]);
    let high = step_of(line[half + 1], line[half]);
    low.max(high)
}

#[inline(always)]
fn step_in(line: &[i32], half: usize, k: usize) -> u32
    requires low { k + 1 < half }
    requires high { half + k + 1 < length line.now }
    requires range { Below 4096 line.now }
    ensures value { result
        ≡ max (distance (before line.now half (k + 1)) (before line.now half k))
        (distance (after line.now half (k + 1)) (after line.now half k)) }
    ensures small { result < 1000000 }
{
    let low = step_of(line[half - 1 - (k + 1)], line[half - 1 - k]);
    let high = step_of(line[half + (k + 1)], line[half + k]);
    low.max(high)
}

#[inline(always)]
fn greatest_in(line: &[i32], half: usize, tested: usize) -> u32
    requires low { tested + 1 ≤ half }
    requires high { half + tested < length line.now }
    requires range { Below 4096 line.now }
    ensures value { result ≡ greatest_step line.now half tested }
    ensures small { result < 1000000 }
{
    let mut greatest = 0;
    for k in 0..tested {
        let step = step_in(line, half, k);
        greatest = greater_of(greatest, step);
    }
    greatest
}

#[inline(always)]
fn distance_of(line: &[i32], source: &[i32]) -> u32
    requires size { IsSize (length line.now) }
    requires source { length source.now ≡ length line.now }
    requires range { Below 4096 line.now }
    requires source_range { Below 4096 source.now }
    ensures value { result ≡ line_distance (length line.now) line.now source.now }
    ensures small { result ≤ 268435456 }
{
    let size = line.len();
    let reach = reach_of(size);
    squares_of(line, source, size / 2 - reach, 2 * reach)
}

#[inline(always)]
fn choose(first: bool, a: u32, b: u32) -> u32
    ensures { result ≡ (if first then a else b) }
{
    if first { a } else { b }
}

// The error of a flat line, written to `moved`; a line of four samples is never flat.
#[inline(always)]
fn wide_error(line: &[i32], source: &[i32], moved: &mut [i32], scale: u32) -> u32
    requires size { IsSize (length line.now) }
    requires source { length source.now ≡ length line.now }
    requires moved { length moved.old ≡ length line.now }
    requires low { 1 ≤ scale }
    requires high { scale ≤ 16 }
    requires range { Below (256 * scale) line.now }
    requires line_range { Below 4096 line.now }
    requires source_range { Below 4096 source.now }
    ensures value { flat scale (length line.now) line.now
        ≡ true
        → result
        ≡ line_distance (length line.now)
        (if length line.now == 6 then wide line.now 3 2 1 3 else if flat_outside scale
        (length line.now) line.now then wide line.now 7 6 1 4 else wide line.now
        (length line.now / 2) 3 0 3) source.now }
    ensures small { result ≤ 268435456 }
    ensures same { length moved.new ≡ length moved.old }
{
    if line.len() > 4 {
        widened(line, moved, scale);
        distance_of(moved, source)
    } else {
        0
    }
}

// The error of the line taken from the narrow filter, by way of `moved`.
#[inline(always)]
fn narrow_error(line: &[i32], source: &[i32], moved: &mut [i32], high: bool, scale: u32) -> u32
    requires size { IsSize (length line.now) }
    requires source { length source.now ≡ length line.now }
    requires moved { length moved.old ≡ length line.now }
    requires low { 1 ≤ scale }
    requires high { scale ≤ 16 }
    requires range { Below (256 * scale) line.now }
    requires source_range { Below 4096 source.now }
    ensures value { result
        ≡ line_distance (length line.now) (narrow scale (length line.now / 2) high line.now)
        source.now }
    ensures small { result ≤ 268435456 }
    ensures same { length moved.new ≡ length moved.old }
{
    narrowed(line, moved, high, scale);
    distance_of(moved, source)
}

// The profile of a line whose errors are known.
#[inline(always)]
fn profile_with(
    line: &[i32],
    unfiltered: u32,
    high: u32,
    low: u32,
    scale: u32,
    bits: u32,
) -> Profile
    requires size { IsSize (length line.now) }
    requires kind { IsScale scale }
    requires bits { bits ≤ 4 }
    requires scale { scale ≡ 2 ^ bits }
    requires range { Below 4096 line.now }
    ensures unfiltered { result.unfiltered ≡ unfiltered }
    ensures from { result.from ≡ min (first_level scale (length line.now) line.now) 64 }
    ensures high { result.high ≡ high }
    ensures lost { result.lost
        ≡ max (min (first_level scale (length line.now) line.now) 64)
        (min (16 * over (variance line.now (length line.now / 2)) scale) 64) }
    ensures low { result.low ≡ low }
{
    let size = line.len();
    let edge = edge_in(line, size / 2);
    let step = greatest_in(line, size / 2, tests_of(size));
    let v = variance_in(line, size / 2);
    profile_of(edge, step, v, unfiltered, high, low, scale, bits)
}

/// The profile of a line against its source, without branches, by way of `moved` and `wider`.
#[inline(always)]
pub fn profile_line(
    line: &[i32],
    source: &[i32],
    moved: &mut [i32],
    wider: &mut [i32],
    scale: u32,
    bits: u32,
) -> Profile
    requires size { IsSize (length line.now) }
    requires source { length source.now ≡ length line.now }
    requires moved { length moved.old ≡ length line.now }
    requires wider { length wider.old ≡ length line.now }
    requires kind { IsScale scale }
    requires bits { bits ≤ 4 }
    requires scale { scale ≡ 2 ^ bits }
    requires range { Below (256 * scale) line.now }
    requires line_range { Below 4096 line.now }
    requires source_range { Below 4096 source.now }
    ensures value { IsProfile scale (length line.now) line.now source.now result }
    ensures same { length moved.new ≡ length moved.old }
    ensures wider { length wider.new ≡ length wider.old }
{
    let unfiltered = distance_of(line, source);
    let flat = is_flat_line(line, scale);
    let wide = wide_error(line, source, wider, scale);
    let sharp = narrow_error(line, source, moved, true, scale);
    let soft = narrow_error(line, source, moved, false, scale);
    let high = choose(flat, wide, sharp);
    let low = choose(flat, wide, soft);
    profile_with(line, unfiltered, high, low, scale, bits)
}
