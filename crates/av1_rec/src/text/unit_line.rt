ghost use Rattle.std.specs.Prelude.{◌≡◌, option_map};
ghost use Rattle.av1_plane.specs.declared.three.Three.{Three};
ghost use Rattle.av1_rec.specs.Units.{unit_place, three_taps, wiener_unit, self_guided, unit_filter, of_plane, unit_line};

use crate::text::extent::Extent;
use crate::text::fields::{byte, delta, field, number_in, tag};
use av1_plane::Three;
use av1_tiling::{RestorationFilter, RestorationUnit};

/// A restoration unit of a tile, counted from the tile's first one in its plane.
#[derive(Clone, Copy, Debug)]
pub struct UnitLine {
    pub plane: u32,
    pub x: u32,
    pub y: u32,
    pub unit: RestorationUnit,
}

// A space, and a number below a limit.
#[tactic(auto, unfolding(crate::specs::Units::unit_place))]
fn unit_place(limit: u32, text: &[u8]) -> Option<(u32, &[u8])>
    ensures { option_map (λ x. (x.0, x.1.now)) result ≡ unit_place limit text.now }
{
    let (n, rest) = field(0, u32::MAX, text)?;
    if n < limit { Some((n, rest)) } else { None }
}

#[tactic(auto, unfolding(crate::specs::Units::three_taps))]
fn three_taps(text: &[u8]) -> Option<([i8; 3], &[u8])>
    ensures { option_map (λ x. (x.0, x.1.now)) result ≡ three_taps text.now }
{
    let (a, rest) = delta(text)?;
    let (b, rest) = delta(rest)?;
    let (c, rest) = delta(rest)?;
    Some(([a, b, c], rest))
}

// ` wiener A B C D E F`
#[tactic(auto, unfolding(crate::specs::Units::wiener_unit))]
fn wiener_unit(text: &[u8]) -> Option<(RestorationFilter, &[u8])>
    ensures { option_map (λ x. (x.0, x.1.now)) result ≡ wiener_unit text.now }
{
    let rest = tag(text, b" wiener")?;
    let (vertical, rest) = three_taps(rest)?;
    let (horizontal, rest) = three_taps(rest)?;
    let coeffs = [vertical, horizontal];
    Some((RestorationFilter::Wiener { coeffs }, rest))
}

// ` sgrproj SET W0 W1`
#[tactic(auto, unfolding(crate::specs::Units::self_guided))]
fn self_guided(text: &[u8]) -> Option<(RestorationFilter, &[u8])>
    ensures { option_map (λ x. (x.0, x.1.now)) result ≡ self_guided text.now }
{
    let rest = tag(text, b" sgrproj")?;
    let (set, rest) = byte(rest)?;
    let (first, rest) = delta(rest)?;
    let (second, rest) = delta(rest)?;
    let xqd = [first, second];
    Some((RestorationFilter::Sgrproj { set, xqd }, rest))
}

// ` none`, a Wiener filter or a self-guided one.
#[tactic(auto, unfolding(crate::specs::Units::unit_filter))]
fn unit_filter(text: &[u8]) -> Option<(RestorationFilter, &[u8])>
    ensures { option_map (λ x. (x.0, x.1.now)) result ≡ unit_filter text.now }
{
    match tag(text, b" none") {
        Some(rest) => Some((RestorationFilter::None, rest)),
        None => match wiener_unit(text) {
            Some(said) => Some(said),
            None => self_guided(text),
        },
    }
}

/// The entry of a plane, 0 to 2.
pub fn of_plane(p: u32, units: &Three<Extent>) -> Extent
    ensures { result ≡ of_plane p units.now }
{
    match p {
        0 => units.y,
        1 => units.u,
        _ => units.v,
    }
}

/// The line `P X Y` and a filter, of a tile with these numbers of units of each plane.
#[tactic(auto, unfolding(crate::specs::Units::unit_line))]
pub fn unit_line<'a>(units: &Three<Extent>, text: &'a [u8]) -> Option<(UnitLine, &'a [u8])>
    ensures { option_map (λ x. (x.0, x.1.now)) result ≡ unit_line units.now text.now }
{
    let (plane, rest) = number_in(0, 2, text)?;
    let extent = of_plane(plane, units);
    let (x, rest) = unit_place(extent.width, rest)?;
    let (y, rest) = unit_place(extent.height, rest)?;
    let (filter, rest) = unit_filter(rest)?;
    let rest = tag(rest, b"\n")?;
    let unit = RestorationUnit { filter };
    Some((UnitLine { plane, x, y, unit }, rest))
}
