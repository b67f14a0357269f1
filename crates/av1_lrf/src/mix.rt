ghost use Rattle.std.specs.Prelude.{◌≡◌, ◌+◌, ◌*◌, ◌<◌, ◌≤◌, ℕ, ℤ, pos, ◌≤ℤ◌, ◌*ℤ◌, length, if◌then◌else◌, true};
ghost use Rattle.av1_lrf.specs.Integral.{cell};
ghost use Rattle.av1_lrf.specs.Taps.{IsWithinBound};
ghost use Rattle.av1_lrf.specs.Guides.{AtMost, guide_line_at, guide_wide_at, cross_at, pass_result, mixed, guided_sample, IsMix};

use crate::taps::{Limits, reduce};

/// How both passes are joined: their strengths, and the weights of the first, the sample and the
/// second.
#[derive(Clone, Copy)]
pub struct Mix {
    pub strong: u32,
    pub weak: u32,
    pub w0: i32,
    pub w1: i32,
    pub w2: i32,
    pub limits: Limits,
}

#[inline(always)]
fn part(w: i32, f: u32) -> i32
    requires w { IsWithinBound 384 w }
    requires f { f ≤ 1114112 }
    ensures value { result ≡ w *ℤ pos f }
    ensures near { IsWithinBound 427819008 result }
{
    w * (f as i32)
}

#[inline(always)]
#[tactic(auto, unfolding(crate::specs::Guides::mixed))]
fn join(m: Mix, f2: u32, v: u32, f1: u32) -> i16
    requires mix { IsMix m }
    requires f2 { f2 ≤ 1114112 }
    requires v { v ≤ 65535 }
    requires f1 { f1 ≤ 1114112 }
    ensures { result ≡ mixed m f2 v f1 }
{
    let p = part(m.w0, f2);
    let q = part(m.w1, v * 16);
    let r = part(m.w2, f1);
    reduce(p + q + r, m.limits)
}

#[inline(always)]
#[tactic(auto, unfolding(crate::specs::Guides::pass_result))]
fn pass_9(s: u32, a: u32, b: u32, v: u32) -> u32
    requires a { a ≤ 8192 }
    requires b { b ≤ 33554432 }
    requires v { v ≤ 65535 }
    ensures value { result ≡ pass_result s a b v 9 }
    ensures small { result ≤ 1114112 }
{
    if s == 0 {
        v * 16
    } else {
        (a * v + b + 256) >> 9
    }
}

#[inline(always)]
#[tactic(auto, unfolding(crate::specs::Guides::pass_result))]
fn pass_8(s: u32, a: u32, b: u32, v: u32) -> u32
    requires a { a ≤ 4096 }
    requires b { b ≤ 16777216 }
    requires v { v ≤ 65535 }
    ensures value { result ≡ pass_result s a b v 8 }
    ensures small { result ≤ 1114112 }
{
    if s == 0 {
        v * 16
    } else {
        (a * v + b + 128) >> 8
    }
}

#[inline(always)]
#[tactic(auto, unfolding(crate::specs::Guides::guide_line_at))]
fn line_of(cells: &[u32], at: usize) -> u32
    requires at { at + 2 < length cells.now }
    requires near { AtMost 1048576 cells.now }
    ensures value { result ≡ guide_line_at cells.now at }
    ensures small { (m : ℕ) → AtMost m cells.now → result ≤ 16 * m }
{
    let _length = cells.len();
    5 * cells[at] + 6 * cells[at + 1] + 5 * cells[at + 2]
}

#[inline(always)]
#[tactic(auto, unfolding(crate::specs::Guides::cross_at))]
fn cross_of(cells: &[u32], at: usize) -> u32
    requires at { at + 134 < length cells.now }
    requires near { AtMost 1048576 cells.now }
    ensures value { result ≡ cross_at cells.now at }
    ensures small { (m : ℕ) → AtMost m cells.now → result ≤ 32 * m }
{
    let _length = cells.len();
    let up = 3 * cells[at] + 4 * cells[at + 1] + 3 * cells[at + 2];
    let middle = 4 * cells[at + 66] + 4 * cells[at + 67] + 4 * cells[at + 68];
    let down = 3 * cells[at + 132] + 4 * cells[at + 133] + 3 * cells[at + 134];
    up + middle + down
}

#[inline(always)]
#[tactic(auto, unfolding(crate::specs::Guides::guide_wide_at))]
fn wide_of(cells: &[u32], at: usize, odd: bool) -> u32
    requires at { at + 68 < length cells.now }
    requires near { AtMost 1048576 cells.now }
    ensures value { result ≡ guide_wide_at odd cells.now at }
    ensures small { (m : ℕ) → AtMost m cells.now → result ≤ 32 * m }
    ensures odd { (m : ℕ) → AtMost m cells.now → odd ≡ true → result ≤ 16 * m }
{
    if odd {
        line_of(cells, at + 66)
    } else {
        line_of(cells, at) + line_of(cells, at + 66)
    }
}

#[inline(always)]
fn pass_wide(s: u32, a: u32, b: u32, v: u32, odd: bool) -> u32
    requires a { a ≤ 8192 }
    requires b { b ≤ 33554432 }
    requires odd_a { odd ≡ true → a ≤ 4096 }
    requires odd_b { odd ≡ true → b ≤ 16777216 }
    requires v { v ≤ 65535 }
    ensures value { result ≡ pass_result s a b v (if odd then 8 else 9) }
    ensures small { result ≤ 1114112 }
{
    if odd {
        pass_8(s, a, b, v)
    } else {
        pass_9(s, a, b, v)
    }
}

// A sample by both passes.
#[inline(always)]
#[tactic(auto, unfolding(crate::specs::Guides::guided_sample))]
pub fn finish(
    m: Mix,
    odd: bool,
    a2: &[u32],
    b2: &[u32],
    a1: &[u32],
    b1: &[u32],
    p: usize,
    q: usize,
    v: u32,
) -> i16
    requires mix { IsMix m }
    requires a2 { AtMost 256 a2.now }
    requires b2 { AtMost 1048576 b2.now }
    requires a1 { AtMost 256 a1.now }
    requires b1 { AtMost 1048576 b1.now }
    requires long_a2 { p + 68 < length a2.now }
    requires long_b2 { p + 68 < length b2.now }
    requires long_a1 { q + 134 < length a1.now }
    requires long_b1 { q + 134 < length b1.now }
    requires v { v ≤ 65535 }
    ensures { result ≡ guided_sample m odd a2.now b2.now a1.now b1.now p q v }
{
    let wide_a = wide_of(a2, p, odd);
    let wide_b = wide_of(b2, p, odd);
    let f2 = pass_wide(m.strong, wide_a, wide_b, v, odd);
    let cross_a = cross_of(a1, q);
    let cross_b = cross_of(b1, q);
    let f1 = pass_9(m.weak, cross_a, cross_b, v);
    join(m, f2, v, f1)
}
