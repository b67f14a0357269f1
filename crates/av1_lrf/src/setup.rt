ghost use Rattle.std.specs.Prelude.{◌≡◌, ◌≤ℤ◌, ◌+ℤ◌, ◌-ℤ◌, ◌*ℤ◌, ℤ, pos, neg_ℤ};
ghost use Rattle.av1_tiling.specs.Restoration.{AreCoeffs};
ghost use Rattle.av1_lrf.specs.Wiener.{taps, across_rounding, down_rounding, IsDepth};
ghost use Rattle.av1_lrf.specs.Taps.{seven, rounding_of, IsWithinBound, AreTaps, AreLimits};

use crate::taps::{Limits, Taps};

#[inline(always)]
fn middle_of(a: i16, b: i16, c: i16) -> i16
    requires a_low { neg_ℤ (pos 5) ≤ℤ a }
    requires a_high { a ≤ℤ pos 10 }
    requires b_low { neg_ℤ (pos 23) ≤ℤ b }
    requires b_high { b ≤ℤ pos 8 }
    requires c_low { neg_ℤ (pos 17) ≤ℤ c }
    requires c_high { c ≤ℤ pos 46 }
    ensures value { result ≡ pos 128 -ℤ pos 2 *ℤ (a +ℤ b +ℤ c) }
    ensures near { IsWithinBound 256 result }
{
    128 - 2 * (a + b + c)
}

#[inline(always)]
fn widened(v: i8) -> i16
    ensures value { result ≡ v }
    ensures near { IsWithinBound 256 result }
{
    i16::from(v)
}

/// The taps of three coefficients.
pub fn taps_of(coeffs: [i8; 3]) -> Taps
    requires { AreCoeffs coeffs }
    ensures value { seven result ≡ taps coeffs }
    ensures near { AreTaps result }
{
    let a = widened(coeffs[0]);
    let b = widened(coeffs[1]);
    let c = widened(coeffs[2]);
    let middle = middle_of(a, b, c);
    Taps { a, b, c, middle }
}

/// The limits of the sums across.
pub fn across_limits(bd: usize) -> Limits
    requires { IsDepth bd }
    ensures value { rounding_of result ≡ across_rounding bd }
    ensures fit { AreLimits result }
{
    match bd {
        8 => Limits {
            bits: 3,
            half: 4,
            low: -2048,
            high: 6143,
        },
        10 => Limits {
            bits: 3,
            half: 4,
            low: -8192,
            high: 24575,
        },
        _ => Limits {
            bits: 5,
            half: 16,
            low: -8192,
            high: 24575,
        },
    }
}

/// The limits of the sums down.
pub fn down_limits(bd: usize) -> Limits
    requires { IsDepth bd }
    ensures value { rounding_of result ≡ down_rounding bd }
    ensures fit { AreLimits result }
{
    match bd {
        8 => Limits {
            bits: 11,
            half: 1024,
            low: 0,
            high: 255,
        },
        10 => Limits {
            bits: 11,
            half: 1024,
            low: 0,
            high: 1023,
        },
        _ => Limits {
            bits: 9,
            half: 256,
            low: 0,
            high: 4095,
        },
    }
}
