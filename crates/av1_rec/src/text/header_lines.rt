ghost use Rattle.std.specs.Prelude.{◌≡◌, ◌≤◌, All, true, option_map, IfSome, IfOk};
ghost use Rattle.av1_rec.specs.Fields.{field};
ghost use Rattle.av1_rec.specs.Header.{sampling_of, sampling, depth, frame_line, tiling_line, type_line, quant_line, may_be_large, switches_line, eight_deltas, deltas_line, eight_strengths, cdef_line, IsSampleDepth, IsHeader};
ghost use Rattle.av1_rec.specs.Lines.{Gives};
ghost use Rattle.av1_rec.specs.Text.{header};

use crate::text::fault::{TextError, wrong};
use crate::text::fields::{delta, field, flag, tag};
use crate::text::header::{CdefStrengths, FrameFormat, Header, Quantizers, Switches, TilingTarget};
use av1_plane::ChromaSampling;
use av1_tiling::{DeblockState, FrameType};

// The sampling that a text names by this number.
fn sampling_of(number: u32) -> Option<ChromaSampling>
    ensures { result ≡ sampling_of number }
{
    match number {
        400 => Some(ChromaSampling::Cs400),
        420 => Some(ChromaSampling::Cs420),
        422 => Some(ChromaSampling::Cs422),
        444 => Some(ChromaSampling::Cs444),
        _ => None,
    }
}

#[tactic(auto, unfolding(crate::specs::Header::sampling))]
fn sampling(text: &[u8]) -> Option<(ChromaSampling, &[u8])>
    ensures { option_map (λ x. (x.0, x.1.now)) result ≡ sampling text.now }
{
    let (number, rest) = field(400, 444, text)?;
    let sampling = sampling_of(number)?;
    Some((sampling, rest))
}

#[tactic(auto, unfolding(crate::specs::Header::depth))]
fn depth(text: &[u8]) -> Option<(u32, &[u8])>
    ensures value { option_map (λ x. (x.0, x.1.now)) result ≡ depth text.now }
    ensures right { IfSome result (λ x. IsSampleDepth x.0) }
{
    let (depth, rest) = field(8, 12, text)?;
    if depth == 8 || depth == 10 || depth == 12 {
        Some((depth, rest))
    } else {
        None
    }
}

/// The line `frame W H S D`.
#[tactic(auto, unfolding(crate::specs::Header::frame_line))]
pub fn frame_line(text: &[u8]) -> Option<(FrameFormat, &[u8])>
    ensures value { option_map (λ x. (x.0, x.1.now)) result ≡ frame_line text.now }
    ensures width { IfSome result (λ x. (1 ≤ x.0.width) × (x.0.width ≤ 65536)) }
    ensures height { IfSome result (λ x. (1 ≤ x.0.height) × (x.0.height ≤ 65536)) }
    ensures depth { IfSome result (λ x. IsSampleDepth x.0.depth) }
{
    let rest = tag(text, b"frame")?;
    let (width, rest) = field(1, 65536, rest)?;
    let (height, rest) = field(1, 65536, rest)?;
    let (sampling, rest) = sampling(rest)?;
    let (depth, rest) = depth(rest)?;
    let rest = tag(rest, b"\n")?;
    let format = FrameFormat {
        width,
        height,
        sampling,
        depth,
    };
    Some((format, rest))
}

/// The line `tiling NUM DEN C R`.
#[tactic(auto, unfolding(crate::specs::Header::tiling_line))]
pub fn tiling_line(text: &[u8]) -> Option<(TilingTarget, &[u8])>
    ensures { option_map (λ x. (x.0, x.1.now)) result ≡ tiling_line text.now }
{
    let rest = tag(text, b"tiling")?;
    let (num, rest) = field(0, u32::MAX, rest)?;
    let (den, rest) = field(0, u32::MAX, rest)?;
    let (cols_log2, rest) = field(0, 63, rest)?;
    let (rows_log2, rest) = field(0, 63, rest)?;
    let rest = tag(rest, b"\n")?;
    let target = TilingTarget {
        num,
        den,
        cols_log2,
        rows_log2,
    };
    Some((target, rest))
}

/// The line `type key` or `type inter`.
#[tactic(auto, unfolding(crate::specs::Header::type_line))]
pub fn type_line(text: &[u8]) -> Option<(FrameType, &[u8])>
    ensures { option_map (λ x. (x.0, x.1.now)) result ≡ type_line text.now }
{
    if let Some(rest) = tag(text, b"type key\n") {
        return Some((FrameType::KEY, rest));
    }
    let rest = tag(text, b"type inter\n")?;
    Some((FrameType::INTER, rest))
}

/// The line `quant AC BASE`.
#[tactic(auto, unfolding(crate::specs::Header::quant_line))]
pub fn quant_line(text: &[u8]) -> Option<(Quantizers, &[u8])>
    ensures { option_map (λ x. (x.0, x.1.now)) result ≡ quant_line text.now }
{
    let rest = tag(text, b"quant")?;
    let (ac, rest) = field(0, 65535, rest)?;
    let (base, rest) = field(0, 255, rest)?;
    let rest = tag(rest, b"\n")?;
    let quantizers = Quantizers {
        ac_quantizer: ac as u16,
        base_q_idx: base as u8,
    };
    Some((quantizers, rest))
}

// Whether restoration units may be large: not where a side is a single sample.
fn may_be_large(format: &FrameFormat, restoration: bool, large: bool) -> bool
    ensures { result ≡ may_be_large format.now restoration large }
{
    !(restoration && large && (format.width == 1 || format.height == 1))
}

/// The line `switches FAST CDEF RESTORATION LARGE NOUPDATE` of a frame of this format.
#[tactic(auto, unfolding(crate::specs::Header::switches_line))]
pub fn switches_line<'a>(format: &FrameFormat, text: &'a [u8]) -> Option<(Switches, &'a [u8])>
    ensures value { option_map (λ x. (x.0, x.1.now)) result ≡ switches_line format.now text.now }
    ensures large { IfSome result (λ x.
        may_be_large format.now x.0.enable_restoration x.0.enable_large_lru ≡ true) }
{
    let rest = tag(text, b"switches")?;
    let (fast, rest) = flag(rest)?;
    let (cdef, rest) = flag(rest)?;
    let (restoration, rest) = flag(rest)?;
    let (large, rest) = flag(rest)?;
    let (no_update, rest) = flag(rest)?;
    let rest = tag(rest, b"\n")?;
    if may_be_large(format, restoration, large) {
        let switches = Switches {
            fast_deblock: fast,
            enable_cdef: cdef,
            enable_restoration: restoration,
            enable_large_lru: large,
            disable_frame_end_update_cdf: no_update,
        };
        Some((switches, rest))
    } else {
        None
    }
}

#[tactic(auto, unfolding(crate::specs::Header::eight_deltas))]
fn eight_deltas(text: &[u8]) -> Option<([i8; 8], &[u8])>
    ensures { option_map (λ x. (x.0, x.1.now)) result ≡ eight_deltas text.now }
{
    let (a, rest) = delta(text)?;
    let (b, rest) = delta(rest)?;
    let (c, rest) = delta(rest)?;
    let (d, rest) = delta(rest)?;
    let (e, rest) = delta(rest)?;
    let (f, rest) = delta(rest)?;
    let (g, rest) = delta(rest)?;
    let (h, rest) = delta(rest)?;
    Some(([a, b, c, d, e, f, g, h], rest))
}

/// The line `deltas E R0 to R7 M0 M1 B SHIFT MULTI`.
#[tactic(auto, unfolding(crate::specs::Header::deltas_line))]
pub fn deltas_line(text: &[u8]) -> Option<(DeblockState, &[u8])>
    ensures value { option_map (λ x. (x.0, x.1.now)) result ≡ deltas_line text.now }
    ensures shift { IfSome result (λ x. x.0.block_delta_shift ≤ 3) }
{
    let rest = tag(text, b"deltas")?;
    let (enabled, rest) = flag(rest)?;
    let (refs, rest) = eight_deltas(rest)?;
    let (mode_0, rest) = delta(rest)?;
    let (mode_1, rest) = delta(rest)?;
    let (block, rest) = flag(rest)?;
    let (shift, rest) = field(0, 3, rest)?;
    let (multi, rest) = flag(rest)?;
    let rest = tag(rest, b"\n")?;
    let deblock = DeblockState {
        levels: [0, 0, 0, 0],
        deltas_enabled: enabled,
        ref_deltas: refs,
        mode_deltas: [mode_0, mode_1],
        block_deltas_enabled: block,
        block_delta_shift: shift as u8,
        block_delta_multi: multi,
    };
    Some((deblock, rest))
}

// A space, and a strength.
fn strength(text: &[u8]) -> Option<(u8, &[u8])>
    ensures value { option_map (λ x. (x.0, x.1.now)) result ≡ field 0 63 text.now }
    ensures within { IfSome result (λ x. x.0 ≤ 63) }
{
    let (n, rest) = field(0, 63, text)?;
    Some((n as u8, rest))
}

#[tactic(auto, unfolding(crate::specs::Header::eight_strengths))]
fn eight_strengths(text: &[u8]) -> Option<([u8; 8], &[u8])>
    ensures value { option_map (λ x. (x.0, x.1.now)) result ≡ eight_strengths text.now }
    ensures within { IfSome result (λ x. All (λ s. s ≤ 63) x.0) }
{
    let (a, rest) = strength(text)?;
    let (b, rest) = strength(rest)?;
    let (c, rest) = strength(rest)?;
    let (d, rest) = strength(rest)?;
    let (e, rest) = strength(rest)?;
    let (f, rest) = strength(rest)?;
    let (g, rest) = strength(rest)?;
    let (h, rest) = strength(rest)?;
    Some(([a, b, c, d, e, f, g, h], rest))
}

/// The line `cdef DAMPING Y0 to Y7 U0 to U7`.
#[tactic(auto, unfolding(crate::specs::Header::cdef_line))]
pub fn cdef_line(text: &[u8]) -> Option<(CdefStrengths, &[u8])>
    ensures value { option_map (λ x. (x.0, x.1.now)) result ≡ cdef_line text.now }
    ensures damping { IfSome result (λ x. (3 ≤ x.0.damping) × (x.0.damping ≤ 6)) }
    ensures y_strengths { IfSome result (λ x. All (λ s. s ≤ 63) x.0.y_strengths) }
    ensures uv_strengths { IfSome result (λ x. All (λ s. s ≤ 63) x.0.uv_strengths) }
{
    let rest = tag(text, b"cdef")?;
    let (damping, rest) = field(3, 6, rest)?;
    let (y_strengths, rest) = eight_strengths(rest)?;
    let (uv_strengths, rest) = eight_strengths(rest)?;
    let rest = tag(rest, b"\n")?;
    let cdef = CdefStrengths {
        damping: damping as u8,
        y_strengths,
        uv_strengths,
    };
    Some((cdef, rest))
}

/// The eight header lines.
#[tactic(auto, unfolding(crate::specs::Text::header))]
pub fn header(text: &[u8]) -> Result<(Header, &[u8]), TextError>
    ensures value { Gives (λ x. (x.0, x.1.now)) result (header text.now) }
    ensures right { IfOk result (λ x. IsHeader x.0) }
{
    let rest = tag(text, b"av1rec 1\n").ok_or(wrong(text))?;
    let (format, rest) = frame_line(rest).ok_or(wrong(rest))?;
    let (target, rest) = tiling_line(rest).ok_or(wrong(rest))?;
    let (frame_type, rest) = type_line(rest).ok_or(wrong(rest))?;
    let (quantizers, rest) = quant_line(rest).ok_or(wrong(rest))?;
    let (switches, rest) = switches_line(&format, rest).ok_or(wrong(rest))?;
    let (deblock, rest) = deltas_line(rest).ok_or(wrong(rest))?;
    let (cdef, rest) = cdef_line(rest).ok_or(wrong(rest))?;
    let header = Header {
        format,
        target,
        frame_type,
        quantizers,
        switches,
        deblock,
        cdef,
    };
    Ok((header, rest))
}
