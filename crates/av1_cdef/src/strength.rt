ghost use Rattle.std.specs.Prelude.{◌≡◌, ℕ, ℤ, pos, neg_ℤ, ◌+◌, ◌-◌, ◌*◌, ◌/◌, ◌^◌, ◌<◌, ◌≤◌, ◌<ℤ◌, ◌≤ℤ◌, length, unsigned_abs};
ghost use Rattle.std.specs.List.{slice_index_or};
ghost use Rattle.av1_cdef.specs.Strength.{floor_log2, floor_log2_up_to, constrained, adjusted_strength, pull};

/// The place and the value of the first greatest element.
pub fn first_max_element(elems: &[i32]) -> (usize, i32)
    requires { 0 < length elems.now }
    ensures inside { result.0 < length elems.now }
    ensures value { result.1 ≡ slice_index_or elems.now result.0 (pos 0) }
    ensures greatest { (m : ℕ) → m < length elems.now
        → slice_index_or elems.now m (pos 0) ≤ℤ result.1 }
    ensures first { (m : ℕ) → m < result.0 → slice_index_or elems.now m (pos 0) <ℤ result.1 }
{
    let mut at = 0;
    let mut most = elems[0];
    for i in 1..elems.len() {
        let value = elems[i];
        if value > most {
            at = i;
            most = value;
        }
    }
    (at, most)
}

/// The logarithm of a strength to base 2, rounded down; 0 for strength 0.
#[tactic(auto, using(crate::proofs::Logs::strengths))]
pub fn log2_of(strength: u32) -> u32
    requires { strength < 256 }
    ensures value { result ≡ floor_log2 strength }
    ensures most { result ≤ 7 }
{
    if strength == 0 { 0 } else { strength.ilog2() }
}

/// How far a difference of this size pulls.
#[inline(always)]
pub fn pull_of(size: u16, threshold: u16, shift: u32) -> u16
    requires { shift < 16 }
    ensures value { result ≡ pull size threshold shift }
    ensures most { result ≤ threshold }
{
    size.min(threshold.saturating_sub(size >> shift))
}

/// What a difference from the filtered sample counts for at a strength and a damping.
pub fn constrain(diff: i32, threshold: i32, damping: i32) -> i32
    requires diff_low { neg_ℤ (pos 65535) ≤ℤ diff }
    requires diff_high { diff ≤ℤ pos 65535 }
    requires threshold_low { pos 0 ≤ℤ threshold }
    requires threshold_high { threshold ≤ℤ pos 240 }
    requires damping_low { pos 2 ≤ℤ damping }
    requires damping_high { damping ≤ℤ pos 10 }
    ensures { result ≡ constrained diff (unsigned_abs threshold) (unsigned_abs damping) }
{
    let strength = threshold.unsigned_abs();
    let shift = damping.unsigned_abs().saturating_sub(log2_of(strength));
    let size = pull_of(diff.unsigned_abs() as u16, strength as u16, shift);
    if diff < 0 {
        -i32::from(size)
    } else {
        i32::from(size)
    }
}

#[tactic(auto, using(crate::proofs::Logs::logs))]
fn variance_class(var: u32) -> u32
    ensures value { result ≡ floor_log2_up_to 12 (var / 64) }
    ensures most { result ≤ 12 }
{
    let v = var >> 6;
    if v == 0 { 0 } else { v.ilog2().min(12) }
}

/// The primary strength of a luma block with this variance.
pub fn adjusted(strength: u32, var: u32) -> u32
    requires { strength ≤ 240 }
    ensures value { result ≡ adjusted_strength strength var }
    ensures most { result ≤ 240 }
{
    if var == 0 {
        0
    } else {
        (strength * (4 + variance_class(var)) + 8) >> 4
    }
}

/// The primary strength of a luma block with this variance; neither number is negative.
pub fn adjust_strength(strength: i32, var: i32) -> i32
    requires strength_low { pos 0 ≤ℤ strength }
    requires strength_high { strength ≤ℤ pos 240 }
    requires var { pos 0 ≤ℤ var }
    ensures { result ≡ pos (adjusted_strength (unsigned_abs strength) (unsigned_abs var)) }
{
    adjusted(strength.unsigned_abs(), var.unsigned_abs()) as i32
}
