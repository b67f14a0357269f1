ghost use Rattle.std.specs.Prelude.{◌≡◌, ◌+◌, ◌-◌, ◌*◌, ◌/◌, ◌%◌, ◌<◌, ◌≤◌, ◌<ℤ◌, ◌^◌, ◌==◌, if◌then◌else◌, ℕ, ℤ, List, pos, length, map, unsigned_abs};
ghost use Rattle.av1_lrf.specs.Rows.{sample};
ghost use Rattle.av1_lrf.specs.Runs.{HasSampleRun, HasArea, HasRowRoom};
ghost use Rattle.av1_lrf.specs.Guided.{Table, guided};
ghost use Rattle.av1_lrf.specs.Guides.{AtMost, guided_sample, IsMix, AreWeights, IsGuidedPlan, IsPlanOf};

use crate::block::write;
use crate::guide::{Guide, guide_rows, weight_of};
use crate::mix::{Mix, finish};
use av1_plane::Pixel;

/// The two passes of the self-guided filter, and how their results are joined.
#[derive(Clone, Copy)]
pub struct Plan {
    pub two: Guide,
    pub one: Guide,
    pub mix: Mix,
}

#[inline(always)]
fn value_at<T: Pixel>(xs: &[T], i: usize) -> u32
    requires i { i < length xs.now }
    ensures value { result ≡ unsigned_abs (sample (map T.number xs.now) i) }
    ensures small { result ≤ 65535 }
{
    xs[i].to_i32().unsigned_abs()
}

// A row of `n` samples by both passes.
#[inline(always)]
#[tactic(auto, using(crate::proofs::RunFacts::runs))]
fn finish_row<T: Pixel>(
    out: &mut [T],
    at: usize,
    n: usize,
    xs: &[T],
    from: usize,
    a2: &[u32],
    b2: &[u32],
    a1: &[u32],
    b1: &[u32],
    p: usize,
    q: usize,
    odd: bool,
    m: Mix,
)
    requires out { at + n ≤ length out.old }
    requires xs { from + n ≤ length xs.now }
    requires mix { IsMix m }
    requires high { m.limits.high <ℤ pos T.limit }
    requires a2 { AtMost 256 a2.now }
    requires b2 { AtMost 1048576 b2.now }
    requires a1 { AtMost 256 a1.now }
    requires b1 { AtMost 1048576 b1.now }
    requires long_a2 { length a2.now ≡ 4356 }
    requires long_b2 { length b2.now ≡ 4356 }
    requires long_a1 { length a1.now ≡ 4356 }
    requires long_b1 { length b1.now ≡ 4356 }
    requires p { p + n + 68 ≤ 4356 }
    requires q { q + n + 134 ≤ 4356 }
    ensures { HasSampleRun at n (λ i. guided_sample m odd a2.now b2.now a1.now b1.now (p + i) (q + i)
        (unsigned_abs (sample (map T.number xs.now) (from + i)))) (map T.number out.old) (map
        T.number out.new) }
{
    for i in 0..n {
        let v = value_at(xs, from + i);
        let r = finish(m, odd, a2, b2, a1, b1, p + i, q + i, v);
        write(out, at + i, r);
    }
}

// A row, even or odd.
#[inline(always)]
fn finish_line<T: Pixel>(
    out: &mut [T],
    at: usize,
    n: usize,
    xs: &[T],
    from: usize,
    a2: &[u32],
    b2: &[u32],
    a1: &[u32],
    b1: &[u32],
    p: usize,
    q: usize,
    odd: bool,
    m: Mix,
)
    requires out { at + n ≤ length out.old }
    requires xs { from + n ≤ length xs.now }
    requires mix { IsMix m }
    requires high { m.limits.high <ℤ pos T.limit }
    requires a2 { AtMost 256 a2.now }
    requires b2 { AtMost 1048576 b2.now }
    requires a1 { AtMost 256 a1.now }
    requires b1 { AtMost 1048576 b1.now }
    requires long_a2 { length a2.now ≡ 4356 }
    requires long_b2 { length b2.now ≡ 4356 }
    requires long_a1 { length a1.now ≡ 4356 }
    requires long_b1 { length b1.now ≡ 4356 }
    requires p { p + n + 68 ≤ 4356 }
    requires q { q + n + 134 ≤ 4356 }
    ensures { HasSampleRun at n (λ i. guided_sample m odd a2.now b2.now a1.now b1.now (p + i) (q + i)
        (unsigned_abs (sample (map T.number xs.now) (from + i)))) (map T.number out.old) (map
        T.number out.new) }
{
    if odd {
        finish_row(out, at, n, xs, from, a2, b2, a1, b1, p, q, true, m);
    } else {
        finish_row(out, at, n, xs, from, a2, b2, a1, b1, p, q, false, m);
    }
}

// A pass of strength 0 reads no cells. It gets the other pass's cells, so that the strengths are
// tested once a row and not for each sample.
fn finish_by_strengths<T: Pixel>(
    out: &mut [T],
    at: usize,
    n: usize,
    xs: &[T],
    from: usize,
    a2: &[u32],
    b2: &[u32],
    a1: &[u32],
    b1: &[u32],
    p: usize,
    q: usize,
    odd: bool,
    m: Mix,
)
    requires out { at + n ≤ length out.old }
    requires xs { from + n ≤ length xs.now }
    requires mix { IsMix m }
    requires high { m.limits.high <ℤ pos T.limit }
    requires a2 { AtMost 256 a2.now }
    requires b2 { AtMost 1048576 b2.now }
    requires a1 { AtMost 256 a1.now }
    requires b1 { AtMost 1048576 b1.now }
    requires long_a2 { length a2.now ≡ 4356 }
    requires long_b2 { length b2.now ≡ 4356 }
    requires long_a1 { length a1.now ≡ 4356 }
    requires long_b1 { length b1.now ≡ 4356 }
    requires p { p + n + 68 ≤ 4356 }
    requires q { q + n + 134 ≤ 4356 }
    ensures { HasSampleRun at n (λ i. guided_sample m odd a2.now b2.now a1.now b1.now (p + i) (q + i)
        (unsigned_abs (sample (map T.number xs.now) (from + i)))) (map T.number out.old) (map
        T.number out.new) }
{
    if m.strong == 0 {
        finish_line(out, at, n, xs, from, a1, b1, a1, b1, p, q, odd, m);
    } else if m.weak == 0 {
        finish_line(out, at, n, xs, from, a2, b2, a2, b2, p, q, odd, m);
    } else {
        finish_line(out, at, n, xs, from, a2, b2, a1, b1, p, q, odd, m);
    }
}

// All rows of a part.
#[tactic(auto, using(crate::proofs::AreaFacts::rooms))]
fn finish_rows<T: Pixel>(
    out: &mut [T],
    origin: usize,
    step: usize,
    n: usize,
    rows: usize,
    x: usize,
    y: usize,
    width: usize,
    height: usize,
    xs: &[T],
    from: usize,
    stride: usize,
    a2: &[u32],
    b2: &[u32],
    a1: &[u32],
    b1: &[u32],
    m: Mix,
)
    requires room { HasRowRoom origin step width height (length out.old) }
    requires source { HasRowRoom from stride width height (length xs.now) }
    requires x { x + n ≤ width }
    requires y { y + rows ≤ height }
    requires n { n ≤ 64 }
    requires rows { rows ≤ 64 }
    requires mix { IsMix m }
    requires high { m.limits.high <ℤ pos T.limit }
    requires a2 { AtMost 256 a2.now }
    requires b2 { AtMost 1048576 b2.now }
    requires a1 { AtMost 256 a1.now }
    requires b1 { AtMost 1048576 b1.now }
    requires long_a2 { length a2.now ≡ 4356 }
    requires long_b2 { length b2.now ≡ 4356 }
    requires long_a1 { length a1.now ≡ 4356 }
    requires long_b1 { length b1.now ≡ 4356 }
    ensures { HasArea origin step x (x + n) y (y + rows) (λ c r. guided_sample m ((r - y) % 2 == 1)
        a2.now b2.now a1.now b1.now ((r - y) / 2 * 66 + (c - x)) ((r - y) * 66 + (c - x))
        (unsigned_abs (sample (map T.number xs.now) (from + r * stride + c)))) (map T.number
        out.old) (map T.number out.new) }
{
    let _length = out.len();
    let _numbers = xs.len();
    for j in 0..rows {
        let to = origin + (y + j) * step + x;
        let at = from + (y + j) * stride + x;
        finish_by_strengths(
            out,
            to,
            n,
            xs,
            at,
            a2,
            b2,
            a1,
            b1,
            j / 2 * 66,
            j * 66,
            j % 2 == 1,
            m,
        );
    }
}

// A pass of strength 0 has no rows of cells.
fn rows_of(s: u32, m: usize) -> usize
    ensures value { result ≡ (if s == 0 then 0 else m) }
    ensures most { result ≤ m }
{
    if s == 0 { 0 } else { m }
}

// A part of `n` columns from `x` on and `rows` rows from `y` on.
fn guided_part<T: Pixel>(
    out: &mut [T],
    origin: usize,
    step: usize,
    n: usize,
    rows: usize,
    x: usize,
    y: usize,
    width: usize,
    height: usize,
    xs: &[T],
    from: usize,
    stride: usize,
    cells: &[u32],
    squares: &[u32],
    pitch: usize,
    plan: Plan,
    weights: &[u32],
    a2: &mut [u32],
    b2: &mut [u32],
    a1: &mut [u32],
    b1: &mut [u32],
)
    requires room { HasRowRoom origin step width height (length out.old) }
    requires source { HasRowRoom from stride width height (length xs.now) }
    requires x { x + n ≤ width }
    requires y { y + rows ≤ height }
    requires n { n ≤ 64 }
    requires rows { rows ≤ 64 }
    requires even { y % 2 ≡ 0 }
    requires plan { IsGuidedPlan plan }
    requires high { plan.mix.limits.high <ℤ pos T.limit }
    requires cells { (height + 6) * pitch + width + 6 < length cells.now }
    requires squares { (height + 6) * pitch + width + 6 < length squares.now }
    requires weights { AreWeights weights.now }
    requires long_a2 { length a2.old ≡ 4356 }
    requires long_b2 { length b2.old ≡ 4356 }
    requires long_a1 { length a1.old ≡ 4356 }
    requires long_b1 { length b1.old ≡ 4356 }
    requires a2 { AtMost 256 a2.old }
    requires b2 { AtMost 1048576 b2.old }
    requires a1 { AtMost 256 a1.old }
    requires b1 { AtMost 1048576 b1.old }
    ensures value { (bd set : ℕ) (xqd : List ℤ) (f : Table) → IsPlanOf bd set xqd f plan pitch
        width height cells.now squares.now → HasArea origin step x (x + n) y (y + rows) (λ c
        r. guided bd set xqd (r % 2 == 1) f (unsigned_abs (sample (map T.number xs.now) (from
        + r * stride + c))) (c + 3) (r + 3)) (map T.number out.old) (map T.number out.new) }
    ensures a2 { AtMost 256 a2.new }
    ensures b2 { AtMost 1048576 b2.new }
    ensures a1 { AtMost 256 a1.new }
    ensures b1 { AtMost 1048576 b1.new }
{
    let _length = cells.len();
    let _squares = squares.len();
    let m2 = rows_of(plan.two.strength, (rows + 1) / 2 + 1);
    let m1 = rows_of(plan.one.strength, rows + 2);
    guide_rows(
        a2,
        b2,
        n + 2,
        m2,
        cells,
        squares,
        y * pitch + x,
        pitch,
        2,
        plan.two,
        weights,
    );
    guide_rows(
        a1,
        b1,
        n + 2,
        m1,
        cells,
        squares,
        (y + 1) * pitch + x + 1,
        pitch,
        1,
        plan.one,
        weights,
    );
    finish_rows(
        out, origin, step, n, rows, x, y, width, height, xs, from, stride, a2, b2, a1, b1, plan.mix,
    );
}

// All columns of some rows, 64 at once.
#[tactic(auto, using(crate::proofs::AreaFacts::areas))]
fn guided_columns<T: Pixel>(
    out: &mut [T],
    origin: usize,
    step: usize,
    rows: usize,
    y: usize,
    width: usize,
    height: usize,
    xs: &[T],
    from: usize,
    stride: usize,
    cells: &[u32],
    squares: &[u32],
    pitch: usize,
    plan: Plan,
    weights: &[u32],
    a2: &mut [u32],
    b2: &mut [u32],
    a1: &mut [u32],
    b1: &mut [u32],
)
    requires room { HasRowRoom origin step width height (length out.old) }
    requires source { HasRowRoom from stride width height (length xs.now) }
    requires plan { IsGuidedPlan plan }
    requires high { plan.mix.limits.high <ℤ pos T.limit }
    requires cells { (height + 6) * pitch + width + 6 < length cells.now }
    requires squares { (height + 6) * pitch + width + 6 < length squares.now }
    requires y { y + rows ≤ height }
    requires rows { rows ≤ 64 }
    requires even { y % 2 ≡ 0 }
    requires width { width ≤ 2 ^ 32 }
    requires weights { AreWeights weights.now }
    requires long_a2 { length a2.old ≡ 4356 }
    requires long_b2 { length b2.old ≡ 4356 }
    requires long_a1 { length a1.old ≡ 4356 }
    requires long_b1 { length b1.old ≡ 4356 }
    requires a2 { AtMost 256 a2.old }
    requires b2 { AtMost 1048576 b2.old }
    requires a1 { AtMost 256 a1.old }
    requires b1 { AtMost 1048576 b1.old }
    ensures value { (bd set : ℕ) (xqd : List ℤ) (f : Table) → IsPlanOf bd set xqd f plan pitch
        width height cells.now squares.now → HasArea origin step 0 width y (y + rows) (λ c r.
        guided bd set xqd (r % 2 == 1) f (unsigned_abs (sample (map T.number xs.now) (from + r
        * stride + c))) (c + 3) (r + 3)) (map T.number out.old) (map T.number out.new) }
    ensures a2 { AtMost 256 a2.new }
    ensures b2 { AtMost 1048576 b2.new }
    ensures a1 { AtMost 256 a1.new }
    ensures b1 { AtMost 1048576 b1.new }
{
    for b in 0..(width + 63) / 64 {
        let x = b * 64;
        let n = (width - x).min(64);
        guided_part(
            out, origin, step, n, rows, x, y, width, height, xs, from, stride, cells, squares,
            pitch, plan, weights, a2, b2, a1, b1,
        );
    }
}

// All rows, 64 at once.
#[tactic(auto, using(crate::proofs::AreaFacts::areas))]
fn guided_area<T: Pixel>(
    out: &mut [T],
    origin: usize,
    step: usize,
    width: usize,
    height: usize,
    xs: &[T],
    from: usize,
    stride: usize,
    cells: &[u32],
    squares: &[u32],
    pitch: usize,
    plan: Plan,
    weights: &[u32],
    a2: &mut [u32],
    b2: &mut [u32],
    a1: &mut [u32],
    b1: &mut [u32],
)
    requires room { HasRowRoom origin step width height (length out.old) }
    requires source { HasRowRoom from stride width height (length xs.now) }
    requires plan { IsGuidedPlan plan }
    requires high { plan.mix.limits.high <ℤ pos T.limit }
    requires cells { (height + 6) * pitch + width + 6 < length cells.now }
    requires squares { (height + 6) * pitch + width + 6 < length squares.now }
    requires width { width ≤ 2 ^ 32 }
    requires height { height ≤ 2 ^ 32 }
    requires weights { AreWeights weights.now }
    requires long_a2 { length a2.old ≡ 4356 }
    requires long_b2 { length b2.old ≡ 4356 }
    requires long_a1 { length a1.old ≡ 4356 }
    requires long_b1 { length b1.old ≡ 4356 }
    requires a2 { AtMost 256 a2.old }
    requires b2 { AtMost 1048576 b2.old }
    requires a1 { AtMost 256 a1.old }
    requires b1 { AtMost 1048576 b1.old }
    ensures value { (bd set : ℕ) (xqd : List ℤ) (f : Table) → IsPlanOf bd set xqd f plan pitch
        width height cells.now squares.now → HasArea origin step 0 width 0 height (λ c r.
        guided bd set xqd (r % 2 == 1) f (unsigned_abs (sample (map T.number xs.now) (from + r
        * stride + c))) (c + 3) (r + 3)) (map T.number out.old) (map T.number out.new) }
    ensures a2 { AtMost 256 a2.new }
    ensures b2 { AtMost 1048576 b2.new }
    ensures a1 { AtMost 256 a1.new }
    ensures b1 { AtMost 1048576 b1.new }
{
    for b in 0..(height + 63) / 64 {
        let y = b * 64;
        let rows = (height - y).min(64);
        guided_columns(
            out, origin, step, rows, y, width, height, xs, from, stride, cells, squares, pitch,
            plan, weights, a2, b2, a1, b1,
        );
    }
}

#[tactic(auto, using(crate::proofs::IntegralFacts::sums))]
fn fill_weights(weights: &mut [u32])
    requires { length weights.old ≡ 256 }
    ensures { AreWeights weights.new }
{
    for z in 0..256 {
        weights[z] = weight_of(z as u32);
    }
}

/// Guides the samples of an area by way of four times `CELLS` cells and `WEIGHTS` weights.
pub fn guided_stripe<T: Pixel, const CELLS: usize, const WEIGHTS: usize>(
    out: &mut [T],
    origin: usize,
    step: usize,
    width: usize,
    height: usize,
    xs: &[T],
    from: usize,
    stride: usize,
    cells: &[u32],
    squares: &[u32],
    pitch: usize,
    plan: Plan,
)
    requires room { HasRowRoom origin step width height (length out.old) }
    requires source { HasRowRoom from stride width height (length xs.now) }
    requires plan { IsGuidedPlan plan }
    requires high { plan.mix.limits.high <ℤ pos T.limit }
    requires cells { (height + 6) * pitch + width + 6 < length cells.now }
    requires squares { (height + 6) * pitch + width + 6 < length squares.now }
    requires width { width ≤ 2 ^ 32 }
    requires height { height ≤ 2 ^ 32 }
    requires room_of_cells { CELLS ≡ 4356 }
    requires room_of_weights { WEIGHTS ≡ 256 }
    ensures value { (bd set : ℕ) (xqd : List ℤ) (f : Table) → IsPlanOf bd set xqd f plan pitch
        width height cells.now squares.now → HasArea origin step 0 width 0 height (λ c r.
        guided bd set xqd (r % 2 == 1) f (unsigned_abs (sample (map T.number xs.now) (from + r
        * stride + c))) (c + 3) (r + 3)) (map T.number out.old) (map T.number out.new) }
{
    let mut weights = [0; WEIGHTS];
    fill_weights(&mut weights);
    let mut a2 = [0; CELLS];
    let mut b2 = [0; CELLS];
    let mut a1 = [0; CELLS];
    let mut b1 = [0; CELLS];
    guided_area(
        out, origin, step, width, height, xs, from, stride, cells, squares, pitch, plan, &weights,
        &mut a2, &mut b2, &mut a1, &mut b1,
    );
}
