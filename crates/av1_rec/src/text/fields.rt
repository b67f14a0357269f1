ghost use Rattle.std.specs.Prelude.{◌≡◌, [], ◌∷◌, ◌<◌, ◌≤◌, ◌^◌, ℕ, pos, ◌-ℤ◌, ◌≤ℤ◌, negsuc, List, length, option_map, IfSome, MatchOption};
ghost use Rattle.av1_rec.specs.Fields.{tag, is_digit, digits, number, number_in, field, signed, delta, flag, choice};

// The first byte and the rest.
pub fn first(text: &[u8]) -> Option<(u8, &[u8])>
    ensures { MatchOption result (text.now ≡ []) (λ x. text.now ≡ x.0 ∷ x.1.now) }
{
    match text {
        [] => None,
        [c, rest @ ..] => Some((*c, rest)),
    }
}

/// The bytes that follow `word`, if the text begins with it.
#[tactic(auto, using(crate::proofs::Numbers::tag_short))]
pub fn tag<'a>(text: &'a [u8], word: &[u8]) -> Option<&'a [u8]>
    ensures { option_map (λ x. x.now) result ≡ tag word.now text.now }
{
    let mut rest = text;
    for c in word {
        let (byte, after) = first(rest)?;
        if byte != *c {
            return None;
        }
        rest = after;
    }
    Some(rest)
}

/// Whether a byte is a decimal digit.
pub fn is_digit(c: u8) -> bool
    ensures { result ≡ is_digit c }
{
    48 <= c && c <= 57
}

// The number of the digits at the front, unless it passes 32 bits.
#[tactic(auto, using(crate::proofs::Numbers::digit_steps))]
fn digits(text: &[u8]) -> Option<(u64, &[u8])>
    ensures { MatchOption result (2 ^ 32 ≤ (digits 0 text.now).0)
        (λ x. (x.0 < 2 ^ 32) × ((x.0, x.1.now) ≡ digits 0 text.now)) }
{
    let mut value = 0;
    let mut rest = text;
    while let Some((c, after)) = first(rest) {
        if !is_digit(c) {
            return Some((value, rest));
        }
        value = value * 10 + u64::from(c - 48);
        if value > u64::from(u32::MAX) {
            return None;
        }
        rest = after;
    }
    Some((value, rest))
}

// A number, unless it passes 32 bits.
#[tactic(auto, unfolding(crate::specs::Fields::number))]
fn number(text: &[u8]) -> Option<(u64, &[u8])>
    ensures { MatchOption result (IfSome (number text.now) (λ n. 2 ^ 32 ≤ n.0))
        (λ x. (x.0 < 2 ^ 32) × (number text.now ≡ Some (x.0, x.1.now))) }
{
    let (c, rest) = first(text)?;
    if c == 48 {
        return Some((0, rest));
    }
    if is_digit(c) { digits(text) } else { None }
}

/// A number between two bounds.
#[tactic(auto, unfolding(crate::specs::Fields::number_in))]
pub fn number_in(low: u32, high: u32, text: &[u8]) -> Option<(u32, &[u8])>
    ensures value { option_map (λ x. (x.0, x.1.now)) result ≡ number_in low high text.now }
    ensures within { IfSome result (λ x. (low ≤ x.0) × (x.0 ≤ high)) }
{
    let (n, rest) = number(text)?;
    let n = n as u32;
    if low <= n && n <= high {
        Some((n, rest))
    } else {
        None
    }
}

/// A space, and a number between two bounds.
#[tactic(auto, unfolding(crate::specs::Fields::field))]
pub fn field(low: u32, high: u32, text: &[u8]) -> Option<(u32, &[u8])>
    ensures value { option_map (λ x. (x.0, x.1.now)) result ≡ field low high text.now }
    ensures within { IfSome result (λ x. (low ≤ x.0) × (x.0 ≤ high)) }
{
    let rest = tag(text, b" ")?;
    number_in(low, high, rest)
}

/// A space, and a number of eight bits.
pub fn byte(text: &[u8]) -> Option<(u8, &[u8])>
    ensures { option_map (λ x. (x.0, x.1.now)) result ≡ field 0 255 text.now }
{
    let (n, rest) = field(0, 255, text)?;
    Some((n as u8, rest))
}

fn positive(n: u32) -> i32
    requires { n < 256 }
    ensures { result ≡ pos n }
{
    n as i32
}

fn negative(n: u32) -> i32
    requires { n < 256 }
    ensures { result ≡ pos 0 -ℤ pos n }
{
    let n = positive(n);
    0 - n
}

// A number from -128 to 127.
#[tactic(auto, unfolding(crate::specs::Fields::signed))]
fn signed(text: &[u8]) -> Option<(i8, &[u8])>
    ensures { option_map (λ x. (x.0, x.1.now)) result ≡ signed text.now }
{
    let (c, rest) = first(text)?;
    if c == b'-' {
        let (n, rest) = number_in(1, 128, rest)?;
        return Some((negative(n) as i8, rest));
    }
    let (n, rest) = number_in(0, 127, text)?;
    Some((positive(n) as i8, rest))
}

/// A space, and a number from -128 to 127.
#[tactic(auto, unfolding(crate::specs::Fields::delta))]
pub fn delta(text: &[u8]) -> Option<(i8, &[u8])>
    ensures { option_map (λ x. (x.0, x.1.now)) result ≡ delta text.now }
{
    let rest = tag(text, b" ")?;
    signed(rest)
}

/// A space, and 0 or 1.
#[tactic(auto, unfolding(crate::specs::Fields::flag))]
pub fn flag(text: &[u8]) -> Option<(bool, &[u8])>
    ensures { option_map (λ x. (x.0, x.1.now)) result ≡ flag text.now }
{
    let (n, rest) = field(0, 1, text)?;
    Some((n == 1, rest))
}

/// A space, and the number of one of these values, counted from 0.
#[tactic(auto, unfolding(crate::specs::Fields::choice))]
pub fn choice<'a, A: Copy>(values: &[A], text: &'a [u8]) -> Option<(A, &'a [u8])>
    requires { (1 ≤ length values.now) × (length values.now ≤ 256) }
    ensures { option_map (λ x. (x.0, x.1.now)) result ≡ choice values.now text.now }
{
    let (n, rest) = field(0, (values.len() - 1) as u32, text)?;
    Some((values[n as usize], rest))
}
