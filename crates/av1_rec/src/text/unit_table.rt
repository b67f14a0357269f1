ghost use Rattle.std.specs.Prelude.{◌≡◌, ℕ, ◌+◌, ◌*◌, ◌<◌, ◌≤◌, length, slice_index_or, if◌then◌else◌, IfOk};
ghost use Rattle.av1_block.specs.RestorationUnit.{no_unit};
ghost use Rattle.av1_rec.specs.Units.{sets, unit_after, units_said, tile_units_said};
ghost use Rattle.av1_rec.specs.Recorded.{unit_lists};

use crate::text::extent::Extent;
use crate::text::unit_line::UnitLine;
use av1_plane::Three;
use av1_tiling::RestorationUnit;
use std::alloc::{AllocError, Global};

// Writes a line's unit to its place in the units of plane `p`, if the line sets a unit of this plane.
#[tactic(auto, using(crate::proofs::UnitPlaces::written))]
fn write_line(units: &mut [RestorationUnit], extent: Extent, p: u32, line: UnitLine)
    requires table { length units.old ≡ extent.width * extent.height }
    ensures { (x y : ℕ) → x < extent.width → y < extent.height
        → slice_index_or units.new (y * extent.width + x) no_unit
        ≡ (if sets line p x y then line.unit
        else slice_index_or units.old (y * extent.width + x) no_unit) }
{
    if line.plane != p || line.x >= extent.width || line.y >= extent.height {
        return;
    }
    units[line.y as usize * extent.width as usize + line.x as usize] = line.unit;
}

// Writes all lines to a table of units that leave their samples as they are.
fn write_lines(units: &mut [RestorationUnit], extent: Extent, p: u32, lines: &[UnitLine])
    requires table { length units.old ≡ extent.width * extent.height }
    requires fresh { (i : ℕ) → slice_index_or units.old i no_unit ≡ no_unit }
    ensures { units.new ≡ units_said extent p lines.now }
{
    for line in lines {
        write_line(units, extent, p, *line);
    }
}

// The units of plane `p`.
#[tactic(auto, using(crate::proofs::UnitPlaces::fresh))]
fn units_said(
    alloc: Global,
    extent: Extent,
    p: u32,
    lines: &[UnitLine],
) -> Result<Vec<RestorationUnit>, AllocError>
    ensures { IfOk result (λ units. units.items ≡ units_said extent p lines.now) }
{
    let count = extent.width as usize * extent.height as usize;
    let mut units = vec![in alloc; RestorationUnit::default(); count]?;
    write_lines(&mut units, extent, p, lines);
    Ok(units)
}

/// The units of a tile with these numbers of them, row by row: units that leave their samples as they
/// are, over which each line is written in order.
pub fn tile_units_said(
    alloc: Global,
    units: &Three<Extent>,
    lines: &[UnitLine],
) -> Result<Three<Vec<RestorationUnit>>, AllocError>
    ensures { IfOk result (λ said. unit_lists said ≡ tile_units_said units.now lines.now) }
{
    let y = units_said(alloc, units.y, 0, lines)?;
    let u = units_said(alloc, units.u, 1, lines)?;
    let v = units_said(alloc, units.v, 2, lines)?;
    Ok(Three { y, u, v })
}
