ghost use Rattle.std.specs.Prelude.{◌≡◌, ℕ, ◌+◌, ◌-◌, ◌*◌, ◌/◌, ◌%◌, ◌^◌, ◌<◌, ◌≤◌, length, slice_index, All, replicate, map};
ghost use Rattle.av1_cdef.specs.Sums.{total_below, first_greatest};
ghost use Rattle.av1_cdef.specs.Fills.{row_cell, pair_cell, IsPaddedBlock};
ghost use Rattle.av1_cdef.specs.Direction.{line_sum, line_places, cost, direction, direction_variance, block_of_picture, IsDeepBlock};

use av1_plane::Pixel;

// 840 over the length of each line, for the directions along a diagonal, a row or a column, and others.
const DIAGONAL: [u32; 16] = [
    840, 420, 280, 210, 168, 140, 120, 105, 120, 140, 168, 210, 280, 420, 840, 0,
];

const STRAIGHT: [u32; 16] = [
    105, 105, 105, 105, 105, 105, 105, 105, 0, 0, 0, 0, 0, 0, 0, 0,
];

const SLANTED: [u32; 16] = [
    420, 210, 140, 105, 105, 105, 105, 105, 140, 210, 420, 0, 0, 0, 0, 0,
];

#[inline(always)]
fn share_of<const D: usize>(n: usize) -> u32
    requires n { n < 16 }
    requires direction { D < 8 }
    ensures { result ≡ 840 / line_places D n }
{
    match D {
        0 => DIAGONAL[n],
        2 => STRAIGHT[n],
        4 => DIAGONAL[n],
        6 => STRAIGHT[n],
        _ => SLANTED[n],
    }
}

// The rows of a block, with 8 zeros before and after each.
#[inline(always)]
#[tactic(auto, using(crate::proofs::Fills::fills))]
fn pad_rows(block: &[u16], rows: &mut [u16])
    requires block { length block.now ≡ 64 }
    requires bytes { All (λ p. p ≤ 255) block.now }
    requires rows { rows.old ≡ replicate 140 0 }
    ensures { IsPaddedBlock 8 8 (row_cell block.now) rows.new }
{
    for i in 0..8 {
        for j in 0..8 {
            rows[16 * i + 8 + j] = block[8 * i + j];
        }
    }
}

// The sums of pairs in the rows of a block, with 12 zeros before and after each row.
#[inline(always)]
#[tactic(auto, using(crate::proofs::Fills::fills))]
fn pad_pairs(block: &[u16], pairs: &mut [u16])
    requires block { length block.now ≡ 64 }
    requires bytes { All (λ p. p ≤ 255) block.now }
    requires pairs { pairs.old ≡ replicate 140 0 }
    ensures { IsPaddedBlock 4 12 (pair_cell block.now) pairs.new }
{
    for i in 0..8 {
        for j in 0..4 {
            pairs[16 * i + 12 + j] = block[8 * i + 2 * j] + block[8 * i + 2 * j + 1];
        }
    }
}

#[inline(always)]
fn cell_at(cells: &[u16], k: usize) -> u16
    requires length { length cells.now ≡ 140 }
    requires small { (m : ℕ) → m < 140 → slice_index cells.now m ≤ 510 }
    requires inside { k < 140 }
    ensures value { result ≡ slice_index cells.now k }
    ensures most { result ≤ 510 }
{
    cells[k]
}

#[inline(always)]
fn add_cells(
    cells: &[u16],
    a: usize,
    b: usize,
    c: usize,
    d: usize,
    e: usize,
    f: usize,
    g: usize,
    h: usize,
) -> u16
    requires length { length cells.now ≡ 140 }
    requires small { (m : ℕ) → m < 140 → slice_index cells.now m ≤ 510 }
    requires a { a < 140 }
    requires b { b < 140 }
    requires c { c < 140 }
    requires d { d < 140 }
    requires e { e < 140 }
    requires f { f < 140 }
    requires g { g < 140 }
    requires h { h < 140 }
    ensures { result ≡ slice_index cells.now a + slice_index cells.now b + slice_index cells.now c
        + slice_index cells.now d + slice_index cells.now e + slice_index cells.now f + slice_index
        cells.now g + slice_index cells.now h }
{
    cell_at(cells, a)
        + cell_at(cells, b)
        + cell_at(cells, c)
        + cell_at(cells, d)
        + cell_at(cells, e)
        + cell_at(cells, f)
        + cell_at(cells, g)
        + cell_at(cells, h)
}

#[inline(always)]
fn add_pairs(pairs: &[u16], n: usize) -> u16
    requires length { length pairs.now ≡ 140 }
    requires small { (m : ℕ) → m < 140 → slice_index pairs.now m ≤ 510 }
    requires inside { n < 8 }
    ensures { result ≡ slice_index pairs.now (16 * n + 12) + slice_index pairs.now
        (16 * n + 13) + slice_index pairs.now (16 * n + 14) + slice_index pairs.now (16 * n + 15) }
{
    cell_at(pairs, 16 * n + 12)
        + cell_at(pairs, 16 * n + 13)
        + cell_at(pairs, 16 * n + 14)
        + cell_at(pairs, 16 * n + 15)
}

// The sum of row n: line n of direction 2.
#[inline(always)]
fn row_at(block: &[u16], pairs: &[u16], n: usize) -> u16
    requires n { n < 16 }
    requires pairs { IsPaddedBlock 4 12 (pair_cell block.now) pairs.now }
    ensures { result ≡ line_sum block.now 2 n }
{
    if n < 8 { add_pairs(pairs, n) } else { 0 }
}

// The sum of a line: one cell, or a pair, of each row.
#[inline(always)]
fn line_at<const D: usize>(block: &[u16], rows: &[u16], pairs: &[u16], n: usize) -> u16
    requires direction { D < 8 }
    requires n { n < 16 }
    requires rows { IsPaddedBlock 8 8 (row_cell block.now) rows.now }
    requires pairs { IsPaddedBlock 4 12 (pair_cell block.now) pairs.now }
    ensures { result ≡ line_sum block.now D n }
{
    match D {
        0 => add_cells(
            rows,
            8 + n,
            23 + n,
            38 + n,
            53 + n,
            68 + n,
            83 + n,
            98 + n,
            113 + n,
        ),
        1 => add_cells(
            pairs,
            12 + n,
            27 + n,
            42 + n,
            57 + n,
            72 + n,
            87 + n,
            102 + n,
            117 + n,
        ),
        2 => row_at(block, pairs, n),
        3 => add_cells(
            pairs,
            15 - n,
            32 - n,
            49 - n,
            66 - n,
            83 - n,
            100 - n,
            117 - n,
            134 - n,
        ),
        4 => add_cells(
            rows,
            15 - n,
            32 - n,
            49 - n,
            66 - n,
            83 - n,
            100 - n,
            117 - n,
            134 - n,
        ),
        5 => add_cells(
            rows,
            5 + n,
            21 + n,
            38 + n,
            54 + n,
            71 + n,
            87 + n,
            104 + n,
            120 + n,
        ),
        6 => add_cells(
            rows,
            8 + n,
            24 + n,
            40 + n,
            56 + n,
            72 + n,
            88 + n,
            104 + n,
            120 + n,
        ),
        _ => add_cells(
            rows,
            8 + n,
            24 + n,
            39 + n,
            55 + n,
            70 + n,
            86 + n,
            101 + n,
            117 + n,
        ),
    }
}

// The sums of a direction's lines.
#[inline(always)]
fn sum_lines<const D: usize>(block: &[u16], rows: &[u16], pairs: &[u16], sums: &mut [u16])
    requires direction { D < 8 }
    requires rows { IsPaddedBlock 8 8 (row_cell block.now) rows.now }
    requires pairs { IsPaddedBlock 4 12 (pair_cell block.now) pairs.now }
    requires sums { length sums.old ≡ 16 }
    ensures { (n : ℕ) → n < 16 → slice_index sums.new n ≡ line_sum block.now D n }
{
    for n in 0..16 {
        sums[n] = line_at::<D>(block, rows, pairs, n);
    }
}

// A direction's cost, by the sums of the direction's lines.
#[inline(always)]
#[tactic(auto, using(crate::proofs::Lines::costs))]
fn cost_by<const D: usize>(block: &[u16], rows: &[u16], pairs: &[u16], sums: &mut [u16]) -> u32
    requires direction { D < 8 }
    requires block { length block.now ≡ 64 }
    requires bytes { All (λ p. p ≤ 255) block.now }
    requires rows { IsPaddedBlock 8 8 (row_cell block.now) rows.now }
    requires pairs { IsPaddedBlock 4 12 (pair_cell block.now) pairs.now }
    requires sums { length sums.old ≡ 16 }
    ensures { result ≡ cost block.now D }
{
    sum_lines::<D>(block, rows, pairs, sums);
    let mut cost = 0;
    for n in 0..16 {
        let sum = u32::from(sums[n]);
        cost += share_of::<D>(n) * (sum * sum);
    }
    cost
}

#[inline(always)]
fn cost_of<const D: usize>(block: &[u16], rows: &[u16], pairs: &[u16]) -> u32
    requires direction { D < 8 }
    requires block { length block.now ≡ 64 }
    requires bytes { All (λ p. p ≤ 255) block.now }
    requires rows { IsPaddedBlock 8 8 (row_cell block.now) rows.now }
    requires pairs { IsPaddedBlock 4 12 (pair_cell block.now) pairs.now }
    ensures { result ≡ cost block.now D }
{
    let mut sums = [0; 16];
    cost_by::<D>(block, rows, pairs, &mut sums)
}

#[inline(always)]
#[tactic(auto, using(crate::proofs::Lines::firsts))]
fn first_greatest_of(costs: &[u32]) -> usize
    requires { length costs.now ≡ 8 }
    ensures value { result ≡ first_greatest 7 (slice_index costs.now) }
    ensures inside { result < 8 }
{
    let mut best = 0;
    for d in 0..7 {
        if costs[d + 1] > costs[best] {
            best = d + 1;
        }
    }
    best
}

// By how much the best cost is greater than the cost of the direction across.
#[inline(always)]
fn margin_of(costs: &[u32], best: usize) -> u32
    requires costs { length costs.now ≡ 8 }
    requires best { best < 8 }
    ensures value { result ≡ (slice_index costs.now best - slice_index costs.now ((best + 4) % 8))
        / 1024 }
    ensures small { result < 2 ^ 31 }
{
    costs[best].saturating_sub(costs[(best + 4) % 8]) >> 10
}

// The direction and variance of a block, by the padded rows of its samples.
#[inline(always)]
fn direction_by(block: &[u16], rows: &mut [u16], pairs: &mut [u16]) -> (usize, u32)
    requires block { length block.now ≡ 64 }
    requires bytes { All (λ p. p ≤ 255) block.now }
    requires rows { rows.old ≡ replicate 140 0 }
    requires pairs { pairs.old ≡ replicate 140 0 }
    ensures direction { result.0 ≡ direction block.now }
    ensures inside { result.0 < 8 }
    ensures variance { result.1 ≡ direction_variance block.now }
    ensures small { result.1 < 2 ^ 31 }
{
    pad_rows(block, rows);
    pad_pairs(block, pairs);
    let costs = [
        cost_of::<0>(block, rows, pairs),
        cost_of::<1>(block, rows, pairs),
        cost_of::<2>(block, rows, pairs),
        cost_of::<3>(block, rows, pairs),
        cost_of::<4>(block, rows, pairs),
        cost_of::<5>(block, rows, pairs),
        cost_of::<6>(block, rows, pairs),
        cost_of::<7>(block, rows, pairs),
    ];
    let best = first_greatest_of(&costs);
    (best, margin_of(&costs, best))
}

/// The direction of a block and its variance.
pub fn direction_of(block: &[u16]) -> (usize, u32)
    requires block { length block.now ≡ 64 }
    requires bytes { All (λ p. p ≤ 255) block.now }
    ensures direction { result.0 ≡ direction block.now }
    ensures inside { result.0 < 8 }
    ensures variance { result.1 ≡ direction_variance block.now }
    ensures small { result.1 < 2 ^ 31 }
{
    let mut rows = [0; 140];
    let mut pairs = [0; 140];
    direction_by(block, &mut rows, &mut pairs)
}

// The samples of a block, shifted right.
#[inline(always)]
#[tactic(auto, using(crate::proofs::BlockReads::reads))]
fn read_block<T: Pixel>(samples: &[T], place: usize, step: usize, shift: usize, block: &mut [u16])
    requires block { length block.old ≡ 64 }
    requires inside { place + 7 * step + 8 ≤ length samples.now }
    requires shift { shift ≤ 4 }
    requires depth { IsDeepBlock (256 * 2 ^ shift) (map T.number samples.now) place step }
    ensures { block.new ≡ block_of_picture (map T.number samples.now) place step shift }
{
    let _length = samples.len();
    for i in 0..8 {
        let row = place + i * step;
        for j in 0..8 {
            block[8 * i + j] = ((samples[row + j].to_i32() as u32) >> shift) as u16;
        }
    }
}

// `direction_at` with the caller's `block`.
#[inline(always)]
fn direction_in<T: Pixel>(
    samples: &[T],
    place: usize,
    step: usize,
    shift: usize,
    block: &mut [u16],
) -> (usize, u32)
    requires block { length block.old ≡ 64 }
    requires inside { place + 7 * step + 8 ≤ length samples.now }
    requires shift { shift ≤ 4 }
    requires depth { IsDeepBlock (256 * 2 ^ shift) (map T.number samples.now) place step }
    ensures direction { result.0 ≡ direction (block_of_picture (map T.number samples.now) place step
        shift) }
    ensures inside { result.0 < 8 }
    ensures variance { result.1 ≡ direction_variance
        (block_of_picture (map T.number samples.now) place step shift) }
    ensures small { result.1 < 2 ^ 31 }
{
    read_block(samples, place, step, shift, block);
    direction_of(block)
}

/// The direction of the block that starts at a place of a plane, and its variance.
pub fn direction_at<T: Pixel>(
    samples: &[T],
    place: usize,
    step: usize,
    shift: usize,
) -> (usize, u32)
    requires inside { place + 7 * step + 8 ≤ length samples.now }
    requires shift { shift ≤ 4 }
    requires depth { IsDeepBlock (256 * 2 ^ shift) (map T.number samples.now) place step }
    ensures direction { result.0 ≡ direction (block_of_picture (map T.number samples.now) place step
        shift) }
    ensures inside { result.0 < 8 }
    ensures variance { result.1 ≡ direction_variance
        (block_of_picture (map T.number samples.now) place step shift) }
    ensures small { result.1 < 2 ^ 31 }
{
    let mut block = [0; 64];
    direction_in(samples, place, step, shift, &mut block)
}
