ghost use Rattle.std.specs.Prelude.{◌≡◌, ◌+◌, ◌*◌, ◌<◌, ◌≤◌, ℤ, length, pos, ◌≤ℤ◌, ◌*ℤ◌, ◌+ℤ◌, [], ◌∷◌};
ghost use Rattle.std.specs.Int.{int_shr};
ghost use Rattle.av1_lrf.specs.Rows.{sample};
ghost use Rattle.av1_lrf.specs.Wiener.{reduced, tapped};
ghost use Rattle.av1_lrf.specs.Taps.{seven, rounding_of, IsWithinBound, AreTaps, AreLimits};

/// The taps of a symmetric filter.
#[derive(Clone, Copy)]
pub struct Taps {
    pub a: i16,
    pub b: i16,
    pub c: i16,
    pub middle: i16,
}

/// How a sum is rounded, and the limits to which it is cut.
#[derive(Clone, Copy)]
pub struct Limits {
    pub bits: u32,
    pub half: i32,
    pub low: i32,
    pub high: i32,
}

#[inline(always)]
fn product_at(tap: i16, xs: &[i16], i: usize) -> i32
    requires i { i < length xs.now }
    requires tap { IsWithinBound 256 tap }
    ensures value { result ≡ tap *ℤ sample xs.now i }
    ensures near { IsWithinBound 8388608 result }
{
    i32::from(tap) * i32::from(xs[i])
}

/// The sum of seven numbers by their taps, each `step` behind the one before.
#[inline(always)]
pub fn tapped_at(t: Taps, xs: &[i16], at: usize, step: usize) -> i32
    requires inside { at + 6 * step < length xs.now }
    requires taps { AreTaps t }
    ensures value { result ≡ tapped (seven t) (λ k. sample xs.now (at + k * step)) }
    ensures near { IsWithinBound 1283457024 result }
{
    let _length = xs.len();
    let p0 = product_at(t.a, xs, at);
    let p1 = product_at(t.b, xs, at + step);
    let p2 = product_at(t.c, xs, at + 2 * step);
    let p3 = product_at(t.middle, xs, at + 3 * step);
    let p4 = product_at(t.c, xs, at + 4 * step);
    let p5 = product_at(t.b, xs, at + 5 * step);
    let p6 = product_at(t.a, xs, at + 6 * step);
    p0 + p1 + p2 + p3 + p4 + p5 + p6
}

#[inline(always)]
fn shifted(v: i32, half: i32, bits: u32) -> i32
    requires v { IsWithinBound 1283457024 v }
    requires half { IsWithinBound 1024 half }
    requires bits { bits ≤ 11 }
    ensures { result ≡ int_shr (v +ℤ half) bits }
{
    (v + half) >> bits
}

#[inline(always)]
fn limit(v: i32, l: Limits) -> i32
    requires v { IsWithinBound 1283457024 v }
    requires limits { AreLimits l }
    ensures { result ≡ reduced (rounding_of l) v }
{
    let rounded = shifted(v, l.half, l.bits);
    rounded.min(l.high).max(l.low)
}

/// A sum, rounded and limited.
#[inline(always)]
pub fn reduce(v: i32, l: Limits) -> i16
    requires v { IsWithinBound 1283457024 v }
    requires limits { AreLimits l }
    ensures { result ≡ reduced (rounding_of l) v }
{
    limit(v, l) as i16
}
