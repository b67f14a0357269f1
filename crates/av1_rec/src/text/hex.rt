ghost use Rattle.std.specs.Prelude.{◌≡◌, ◌<◌, option_map, IfSome};
ghost use Rattle.av1_rec.specs.Fields.{hex_digit, hex_byte, hex_sample, below};

use crate::text::fields::{first, is_digit};

#[tactic(auto, unfolding(crate::specs::Fields::hex_digit))]
fn hex_digit(text: &[u8]) -> Option<(u8, &[u8])>
    ensures value { option_map (λ x. (x.0, x.1.now)) result ≡ hex_digit text.now }
    ensures small { IfSome result (λ x. x.0 < 16) }
{
    let (c, rest) = first(text)?;
    if is_digit(c) {
        Some((c - b'0', rest))
    } else if b'a' <= c && c <= b'f' {
        Some((c - b'a' + 10, rest))
    } else {
        None
    }
}

/// Two digits.
#[tactic(auto, unfolding(crate::specs::Fields::hex_byte))]
pub fn hex_byte(text: &[u8]) -> Option<(u8, &[u8])>
    ensures { option_map (λ x. (x.0, x.1.now)) result ≡ hex_byte text.now }
{
    let (high, rest) = hex_digit(text)?;
    let (low, rest) = hex_digit(rest)?;
    Some((high * 16 + low, rest))
}

// A sample: four digits, or two.
#[tactic(auto, unfolding(crate::specs::Fields::hex_sample))]
fn sample(wide: bool, text: &[u8]) -> Option<(u16, &[u8])>
    ensures { option_map (λ x. (x.0, x.1.now)) result ≡ hex_sample wide text.now }
{
    let (high, rest) = hex_byte(text)?;
    if !wide {
        return Some((u16::from(high), rest));
    }
    let (low, rest) = hex_byte(rest)?;
    Some((u16::from(high) * 256 + u16::from(low), rest))
}

/// A sample below a limit.
#[tactic(auto, unfolding(crate::specs::Fields::below))]
pub fn below(wide: bool, limit: u32, text: &[u8]) -> Option<(u32, &[u8])>
    ensures value { option_map (λ x. (x.0, x.1.now)) result ≡ below wide limit text.now }
    ensures small { IfSome result (λ x. (x.0 < limit) × (x.0 < 65536)) }
{
    let (n, rest) = sample(wide, text)?;
    let n = u32::from(n);
    if n < limit { Some((n, rest)) } else { None }
}
