//! Recorded restoration units: testing that they are as many as a view has, and writing them there.
ghost use Rattle.std.specs.Prelude.{◌≡◌, ◌<◌, length, true};
ghost use Rattle.av1_tiling.specs.Views.{plane_at, with_units};
ghost use Rattle.av1_rec.specs.Recorded.{unit_lists, units_fit, with_unit_lists};

use av1_plane::{Pixel, Three};
use av1_tiling::{RestorationUnit, TileStateMut};

/// Whether there are as many units of each plane as the view has.
pub(crate) fn units_fit<T: Pixel>(ts: &TileStateMut<T>, units: &Three<Vec<RestorationUnit>>) -> bool
    ensures { result ≡ units_fit ts.now (unit_lists units.now) }
{
    units.y.len() == ts.units(0).len()
        && units.u.len() == ts.units(1).len()
        && units.v.len() == ts.units(2).len()
}

// Writes the units of plane `pli`.
fn write_plane_units<T: Pixel>(ts: &mut TileStateMut<T>, pli: usize, units: &[RestorationUnit])
    requires plane { pli < 3 }
    requires fits { length units.now ≡ length (plane_at ts.old.units pli).entries }
    ensures { ts.new ≡ with_units ts.old pli units.now }
{
    ts.units_mut(pli).copy_from_slice(units);
}

/// Writes the units of all planes.
#[tactic(auto, using(crate::proofs::UnitsFit::fitting))]
pub(crate) fn write_units<T: Pixel>(ts: &mut TileStateMut<T>, units: &Three<Vec<RestorationUnit>>)
    requires { units_fit ts.old (unit_lists units.now) ≡ true }
    ensures { ts.new ≡ with_unit_lists ts.old (unit_lists units.now) }
{
    write_plane_units(ts, 0, &units.y);
    write_plane_units(ts, 1, &units.u);
    write_plane_units(ts, 2, &units.v);
}
