ghost use Rattle.std.specs.Prelude.{◌≡◌, ◌+◌, ◌*◌, ◌≤◌, ◌<◌, length, IfOk};
ghost use Rattle.std.specs.Borrow.{sem, Lends, Array};
ghost use Rattle.av1_block.specs.Cut.{LiesInTable, cut_at, put_at, overwritten, cut_entries, cut_rect, cut_table_cols, recut};
ghost use Rattle.av1_block.specs.contracts.cut.Cut.{the_row};

use crate::table::Table;
use av1_plane::{OutOfMemory, TileRect};
use std::alloc::Global;

/// An owned rectangle of a table that is stored row by row.
#[derive(Debug, Drop)]
pub struct Cut<E> {
    pub(crate) table: Table<E>,
    x: usize,
    y: usize,
    table_cols: usize,
}

impl<E: Copy> Cut<E> {
    /// A copy of the rectangle's entries. The table has `table_cols` columns.
    #[tactic(auto, using(crate::proofs::Cuts::cuts))]
    pub fn take(
        alloc: Global,
        table: &[E],
        table_cols: usize,
        rect: TileRect,
    ) -> Result<Cut<E>, OutOfMemory>
        requires inside { LiesInTable (length table.now) table_cols rect }
        ensures entries { IfOk result (λ cut. cut_entries cut ≡ cut_at table.now table_cols rect) }
        ensures place { IfOk result (λ cut. cut_rect cut ≡ rect) }
        ensures cols { IfOk result (λ cut. cut_table_cols cut ≡ table_cols) }
    {
        let entries = copy_rows(alloc, table, table_cols, rect)?;
        Ok(Cut {
            table: Table::from_entries(entries, rect.width, rect.height),
            x: rect.x,
            y: rect.y,
            table_cols,
        })
    }

    /// Writes the entries to the rectangle's place in a table of as many columns as the table that
    /// they were cut from.
    #[tactic(auto, using(crate::proofs::Cuts::cuts))]
    pub fn put_back(&self, table: &mut [E])
        requires inside { LiesInTable (length table.old) (cut_table_cols self.now)
            (cut_rect self.now) }
        ensures { table.new ≡ put_at table.old (cut_table_cols self.now) (cut_rect self.now)
            (cut_entries self.now) }
    {
        for row in 0..self.table.rows {
            let from = self.y * self.table_cols + row * self.table_cols + self.x;
            write_run(table, from, self.table.row(row));
        }
    }

    /// Where the entries stood, in entries of the table.
    pub fn rect(&self) -> TileRect
        ensures place { result ≡ cut_rect self.now }
        ensures whole { length (cut_entries self.now) ≡ result.width * result.height }
    {
        TileRect {
            x: self.x,
            y: self.y,
            width: self.table.cols,
            height: self.table.rows,
        }
    }

    /// The entries, row by row.
    pub fn entries(&self) -> &[E]
        ensures { result.now ≡ cut_entries self.now }
    {
        self.table.entries()
    }

    /// The entries, row by row, for writing. Their place stays.
    pub fn entries_mut(&mut self) -> &mut [E]
        ensures* writes_back { sem 𝓛 (Lends (the_row E.row) (Array E.row 0) self.entry result
            (recut self.old)) }
        ensures entries { result.now ≡ cut_entries self.old }
    {
        self.table.entries_mut()
    }
}

// The rectangle's entries, row by row.
#[tactic(auto, using(crate::proofs::Cuts::cuts))]
fn copy_rows<E: Copy>(
    alloc: Global,
    table: &[E],
    table_cols: usize,
    rect: TileRect,
) -> Result<Vec<E>, OutOfMemory>
    requires { LiesInTable (length table.now) table_cols rect }
    ensures { IfOk result (λ made. made.items ≡ cut_at table.now table_cols rect) }
{
    let mut entries = Vec::with_capacity(alloc, rect.width * rect.height)?;
    for row in 0..rect.height {
        let from = rect.y * table_cols + row * table_cols + rect.x;
        entries.extend_from_slice(&table[from..from + rect.width])?;
    }
    Ok(entries)
}

// Writes the run over as many entries from place `from` on.
fn write_run<E: Copy>(table: &mut [E], from: usize, run: &[E])
    requires { from + length run.now ≤ length table.old }
    ensures { table.new ≡ overwritten table.old from run.now }
{
    table[from..from + run.len()].copy_from_slice(run);
}
