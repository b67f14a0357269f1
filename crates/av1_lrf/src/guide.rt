ghost use Rattle.std.specs.Prelude.{◌≡◌, ◌+◌, ◌-◌, ◌*◌, ◌/◌, ◌%◌, ◌<◌, ◌≤◌, ◌^◌, ℕ, length};
ghost use Rattle.av1_lrf.specs.Integral.{cell, HasSumRun};
ghost use Rattle.av1_lrf.specs.Guides.{cell_box, rounded_32, weight_at, index_by, mean_by, cell_weight, cell_mean, IsGuide, AtMost, HasGuides, AreWeights};

/// The numbers of a pass: the side of its squares, how many samples these have and 4096 divided
/// by that number, the strength, and the bits of a sample above 8.
#[derive(Clone, Copy)]
pub struct Guide {
    pub side: usize,
    pub count: u32,
    pub one_by: u32,
    pub strength: u32,
    pub shift: u32,
}

// The sum over a square of side `n`, by the prefix sums at its corners.
#[inline(always)]
#[tactic(auto, unfolding(crate::specs::Guides::cell_box))]
fn box_at(cells: &[u32], at: usize, step: usize, n: usize) -> u32
    requires inside { at + n * step + n < length cells.now }
    ensures { result ≡ cell_box cells.now at step n }
{
    let _length = cells.len();
    let below = at + n * step;
    cells[below + n]
        .wrapping_sub(cells[below])
        .wrapping_sub(cells[at + n])
        .wrapping_add(cells[at])
}

#[inline(always)]
fn round_shift(v: u32, bits: u32) -> u32
    requires bits { bits ≤ 20 }
    ensures { result ≡ rounded_32 v bits }
{
    v.wrapping_add((1 << bits) >> 1) >> bits
}

#[inline(always)]
#[tactic(auto, unfolding(crate::specs::Guides::index_by))]
fn index_of(g: Guide, sum: u32, squares: u32) -> u32
    requires { IsGuide g }
    ensures { result ≡ index_by g sum squares }
{
    let a = round_shift(squares, 2 * g.shift);
    let d = round_shift(sum, g.shift);
    let p = a.wrapping_mul(g.count).saturating_sub(d.wrapping_mul(d));
    round_shift(p.wrapping_mul(g.strength), 20).min(255)
}

#[inline(always)]
pub fn weight_of(z: u32) -> u32
    requires { z < 256 }
    ensures { result ≡ weight_at z }
{
    if z >= 255 {
        256
    } else if z == 0 {
        1
    } else {
        (z * 256 + z / 2) / (z + 1)
    }
}

#[inline(always)]
#[tactic(auto, unfolding(crate::specs::Guides::mean_by))]
fn mean_of(one_by: u32, w: u32, sum: u32) -> u32
    ensures { result ≡ mean_by one_by w sum }
{
    let rest = 256u32.saturating_sub(w);
    round_shift(rest.wrapping_mul(sum).wrapping_mul(one_by), 12)
}

// The rounded products of `n` squares, and their sums.
#[inline(always)]
#[tactic(auto, using(crate::proofs::IntegralFacts::sums))]
fn index_row(
    a: &mut [u32],
    b: &mut [u32],
    to: usize,
    n: usize,
    cells: &[u32],
    squares: &[u32],
    at: usize,
    step: usize,
    g: Guide,
)
    requires a { to + n ≤ length a.old }
    requires b { to + n ≤ length b.old }
    requires guide { IsGuide g }
    requires cells { at + g.side * step + g.side + n ≤ length cells.now }
    requires squares { at + g.side * step + g.side + n ≤ length squares.now }
    ensures a { HasSumRun to n (λ i. index_by g (cell_box cells.now (at + i) step g.side)
        (cell_box squares.now (at + i) step g.side)) a.old a.new }
    ensures b { HasSumRun to n (λ i. cell_box cells.now (at + i) step g.side) b.old b.new }
{
    let _length = cells.len();
    for i in 0..n {
        let sum = box_at(cells, at + i, step, g.side);
        let square = box_at(squares, at + i, step, g.side);
        a[to + i] = index_of(g, sum, square);
        b[to + i] = sum;
    }
}

// The weights of a row of squares.
#[inline(always)]
#[tactic(auto, using(crate::proofs::IntegralFacts::sums))]
fn weigh_row(a: &mut [u32], to: usize, n: usize, weights: &[u32])
    requires a { to + n ≤ length a.old }
    requires weights { AreWeights weights.now }
    requires small { (i : ℕ) → i < n → cell a.old (to + i) ≤ 255 }
    ensures { HasSumRun to n (λ i. weight_at (cell a.old (to + i))) a.old a.new }
{
    for i in 0..n {
        let z = a[to + i].min(255) as usize;
        a[to + i] = weights[z];
    }
}

// The means of a row of squares.
#[inline(always)]
#[tactic(auto, using(crate::proofs::IntegralFacts::sums))]
fn mean_row(b: &mut [u32], a: &[u32], to: usize, n: usize, one_by: u32)
    requires b { to + n ≤ length b.old }
    requires a { to + n ≤ length a.now }
    ensures { HasSumRun to n (λ i. mean_by one_by (cell a.now (to + i)) (cell b.old (to + i)))
        b.old b.new }
{
    for i in 0..n {
        b[to + i] = mean_of(one_by, a[to + i], b[to + i]);
    }
}

// The weights and means of a row of `n` squares, the first of which begins at cell `at`.
#[inline(always)]
fn guide_row(
    a: &mut [u32],
    b: &mut [u32],
    to: usize,
    n: usize,
    cells: &[u32],
    squares: &[u32],
    at: usize,
    step: usize,
    g: Guide,
    weights: &[u32],
)
    requires a { to + n ≤ length a.old }
    requires b { to + n ≤ length b.old }
    requires guide { IsGuide g }
    requires cells { at + g.side * step + g.side + n ≤ length cells.now }
    requires squares { at + g.side * step + g.side + n ≤ length squares.now }
    requires weights { AreWeights weights.now }
    ensures a { HasSumRun to n (λ i. cell_weight g cells.now squares.now step (at + i)) a.old
        a.new }
    ensures b { HasSumRun to n (λ i. cell_mean g cells.now squares.now step (at + i)) b.old b.new }
{
    index_row(a, b, to, n, cells, squares, at, step, g);
    weigh_row(a, to, n, weights);
    mean_row(b, a, to, n, g.one_by);
}

// The weights and means of `m` rows of squares, `every` rows of samples apart.
#[tactic(auto, using(crate::proofs::GuideFacts::guides))]
pub fn guide_rows(
    a: &mut [u32],
    b: &mut [u32],
    n: usize,
    m: usize,
    cells: &[u32],
    squares: &[u32],
    at: usize,
    step: usize,
    every: usize,
    g: Guide,
    weights: &[u32],
)
    requires a { length a.old ≡ 4356 }
    requires b { length b.old ≡ 4356 }
    requires n { n ≤ 66 }
    requires m { m ≤ 66 }
    requires every { every ≤ 2 }
    requires guide { IsGuide g }
    requires cells { (k : ℕ) → k < m → at + k * every * step + g.side * step + g.side + n ≤ length
        cells.now }
    requires squares { (k : ℕ) → k < m → at + k * every * step + g.side * step + g.side + n ≤
        length squares.now }
    requires weights { AreWeights weights.now }
    requires small_a { AtMost 256 a.old }
    requires small_b { AtMost 1048576 b.old }
    ensures a { HasGuides n m (λ i k. cell_weight g cells.now squares.now step (at + k * every *
        step + i)) a.new }
    ensures b { HasGuides n m (λ i k. cell_mean g cells.now squares.now step (at + k * every *
        step + i)) b.new }
    ensures small_a { AtMost 256 a.new }
    ensures small_b { AtMost 1048576 b.new }
{
    let _length = cells.len();
    for k in 0..m {
        guide_row(
            a,
            b,
            k * 66,
            n,
            cells,
            squares,
            at + k * every * step,
            step,
            g,
            weights,
        );
    }
}
