ghost use Rattle.std.specs.Prelude.{◌≡◌, ◌-◌, ◌<◌, ◌^◌, ◌-ℤ◌, ◌==◌, if◌then◌else◌, ℕ, ℤ, pos};
ghost use Rattle.std.specs.List.{slice_index_or};
ghost use Rattle.av1_lrf.specs.Rows.{sample};
ghost use Rattle.av1_lrf.specs.Wiener.{IsDepth};
ghost use Rattle.av1_lrf.specs.Taps.{IsWithinBound, AreLimits, rounding_of};
ghost use Rattle.av1_lrf.specs.Guided.{strength};
ghost use Rattle.av1_lrf.specs.Guides.{IsGuide, IsGuidePass, IsMix, IsMixOf, IsGuidedPlan};

use crate::guide::Guide;
use crate::guided::Plan;
use crate::mix::Mix;
use crate::taps::Limits;
use av1_tiling::SGRPROJ_PARAMS_S;

fn strength_of(set: u8, two: bool) -> u32
    requires { set < 16 }
    ensures { result ≡ strength set (if two then 2 else 1) }
{
    SGRPROJ_PARAMS_S[usize::from(set)][if two { 0 } else { 1 }]
}

fn two_of(set: u8, bd: usize) -> Guide
    requires set { set < 16 }
    requires depth { IsDepth bd }
    ensures pass { IsGuidePass bd set 2 result }
    ensures small { IsGuide result }
    ensures side { result.side ≡ 5 }
{
    let strength = strength_of(set, true);
    let shift = (bd - 8) as u32;
    Guide {
        side: 5,
        count: 25,
        one_by: 164,
        strength,
        shift,
    }
}

fn one_of(set: u8, bd: usize) -> Guide
    requires set { set < 16 }
    requires depth { IsDepth bd }
    ensures pass { IsGuidePass bd set 1 result }
    ensures small { IsGuide result }
    ensures side { result.side ≡ 3 }
{
    let strength = strength_of(set, false);
    let shift = (bd - 8) as u32;
    Guide {
        side: 3,
        count: 9,
        one_by: 455,
        strength,
        shift,
    }
}

fn widened(v: i8) -> i32
    ensures value { result ≡ v }
    ensures near { IsWithinBound 128 result }
    ensures most { IsWithinBound 384 result }
{
    i32::from(v)
}

fn rest_of(w0: i32, w1: i32) -> i32
    requires w0 { IsWithinBound 128 w0 }
    requires w1 { IsWithinBound 128 w1 }
    ensures value { result ≡ pos 128 -ℤ w0 -ℤ w1 }
    ensures near { IsWithinBound 384 result }
{
    128 - w0 - w1
}

fn limits_of(bd: usize) -> Limits
    requires { IsDepth bd }
    ensures value { rounding_of result ≡ record {
      bits = 11;
      low = pos 0;
      high = pos (2 ^ bd - 1);
    } }
    ensures fit { AreLimits result }
{
    match bd {
        8 => Limits {
            bits: 11,
            half: 1024,
            low: 0,
            high: 255,
        },
        10 => Limits {
            bits: 11,
            half: 1024,
            low: 0,
            high: 1023,
        },
        _ => Limits {
            bits: 11,
            half: 1024,
            low: 0,
            high: 4095,
        },
    }
}

fn mix_of(set: u8, xqd: [i8; 2], bd: usize) -> Mix
    requires set { set < 16 }
    requires depth { IsDepth bd }
    ensures mix { IsMixOf bd set xqd result }
    ensures small { IsMix result }
    ensures high { result.limits.high ≡ pos (2 ^ bd - 1) }
{
    let strong = strength_of(set, true);
    let weak = strength_of(set, false);
    let w0 = widened(xqd[0]);
    let w1 = widened(xqd[1]);
    let w2 = rest_of(w0, w1);
    let limits = limits_of(bd);
    Mix {
        strong,
        weak,
        w0,
        w1,
        w2,
        limits,
    }
}

/// The plan of a set and of weights.
pub fn plan_of(set: u8, xqd: [i8; 2], bd: usize) -> Plan
    requires set { set < 16 }
    requires depth { IsDepth bd }
    ensures two { IsGuidePass bd set 2 result.two }
    ensures one { IsGuidePass bd set 1 result.one }
    ensures mix { IsMixOf bd set xqd result.mix }
    ensures small { IsGuidedPlan result }
    ensures high { result.mix.limits.high ≡ pos (2 ^ bd - 1) }
{
    let two = two_of(set, bd);
    let one = one_of(set, bd);
    let mix = mix_of(set, xqd, bd);
    Plan { two, one, mix }
}
