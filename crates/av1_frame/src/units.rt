//! Whether a bitstream can describe restoration units.
ghost use Rattle.std.specs.Prelude.{◌≡◌, length};
ghost use Rattle.std.specs.List.{list_all};
ghost use Rattle.av1_frame.specs.Units.{is_between, are_coeffs, are_weights, is_unit};

use av1_block::{RestorationFilter, RestorationUnit};
use av1_tiling::{SGRPROJ_XQD_MAX, SGRPROJ_XQD_MIN, WIENER_TAPS_MAX, WIENER_TAPS_MIN};

/// Whether all of them are.
pub(crate) fn are_units(units: &[RestorationUnit]) -> bool
    ensures { result ≡ list_all is_unit units.now }
{
    let mut rest = units;
    while let Some((unit, others)) = rest.split_first() {
        if !is_unit(unit) {
            return false;
        }
        rest = others;
    }
    true
}

fn is_unit(unit: &RestorationUnit) -> bool
    ensures { result ≡ is_unit unit.now }
{
    match unit.filter {
        RestorationFilter::None => true,
        RestorationFilter::Wiener { coeffs } => are_coeffs(coeffs[0]) && are_coeffs(coeffs[1]),
        RestorationFilter::Sgrproj { set, xqd } => set < 16 && are_weights(xqd),
    }
}

// Whether the coefficients of a Wiener filter lie in their ranges.
fn are_coeffs(coeffs: [i8; 3]) -> bool
    ensures { result ≡ are_coeffs coeffs }
{
    is_between(WIENER_TAPS_MIN[0], WIENER_TAPS_MAX[0], coeffs[0])
        && is_between(WIENER_TAPS_MIN[1], WIENER_TAPS_MAX[1], coeffs[1])
        && is_between(WIENER_TAPS_MIN[2], WIENER_TAPS_MAX[2], coeffs[2])
}

// Whether the weights of the self-guided filter's passes lie in their ranges.
fn are_weights(xqd: [i8; 2]) -> bool
    ensures { result ≡ are_weights xqd }
{
    is_between(SGRPROJ_XQD_MIN[0], SGRPROJ_XQD_MAX[0], xqd[0])
        && is_between(SGRPROJ_XQD_MIN[1], SGRPROJ_XQD_MAX[1], xqd[1])
}

fn is_between(low: i8, high: i8, n: i8) -> bool
    ensures { result ≡ is_between low high n }
{
    low <= n && n <= high
}
