//! Copies of tables of motion records.
ghost use Rattle.std.specs.Prelude.{◌≡◌, IfOk};

use av1_block::FrameMEStats;
use av1_plane::OutOfMemory;
use std::alloc::Global;

/// Copies of tables of motion records.
pub(crate) fn copied_motion(
    alloc: Global,
    tables: &[FrameMEStats],
) -> Result<Vec<FrameMEStats>, OutOfMemory>
    ensures { IfOk result (λ copies. copies.items ≡ tables.now) }
{
    let mut copies = Vec::with_capacity(alloc, tables.len())?;
    for table in tables {
        copies.push(table.try_clone(alloc)?)?;
    }
    Ok(copies)
}
