ghost use Rattle.std.specs.Prelude.{◌≡◌, ◌*◌, ◌^◌, ◌≤◌, ◌<◌, vec_len};

use av1_plane::OutOfMemory;
use std::alloc::Global;
use std::marker::Model;

/// A table of a frame: one entry for each unit of 4 by 4 luma samples, row by row.
#[derive(Debug, Drop)]
pub struct Table<E> {
    entries: Vec<E>,
    pub cols: usize,
    pub rows: usize,
    ghost whole: { vec_len entries ≡ cols * rows },
    ghost wide: { cols < 2 ^ 64 },
    ghost high: { rows < 2 ^ 64 },
}

impl<E> Model for Table<E> {
    ghost use Rattle.av1_block.specs.Rows.{Rows};

    ghost Value = { Rows E };

    ghost view = { λ t. record { entries = t.entries.items; cols = t.cols; rows = t.rows } };
}

#[tactic(auto, using(crate::proofs::Places::places))]
impl<E: Copy> Table<E> {
    ghost use Rattle.std.specs.Prelude.{◌+◌, ◌↔◌, length, take, drop, slice_index_or, IfOk, IfSome, IsSome};
    ghost use Rattle.std.specs.Borrow.{sem, Lends, LendsIf, Array};
    ghost use Rattle.av1_block.specs.Rows.{with_entries, with_entry_run, with_entry};
    ghost use Rattle.av1_block.specs.contracts.table.Table.{the_row};

    /// The table of these sides with these entries.
    pub(crate) fn from_entries(entries: Vec<E>, cols: usize, rows: usize) -> Table<E>
        requires { vec_len entries ≡ cols * rows }
        ensures { result ≡ record { entries = entries.items; cols = cols; rows = rows } }
    {
        Table {
            entries,
            cols,
            rows,
        }
    }

    /// A table of the same sides with the same entries.
    pub fn try_clone(&self, alloc: Global) -> Result<Table<E>, OutOfMemory>
        ensures { IfOk result (λ copy. copy ≡ self.now) }
    {
        let entries = Vec::from_slice(alloc, &self.entries)?;
        Ok(Table::from_entries(entries, self.cols, self.rows))
    }

    /// The whole table, row by row.
    pub fn entries(&self) -> &[E]
        ensures entries { result.now ≡ self.now.entries }
        ensures whole { length result.now ≡ self.now.cols * self.now.rows }
    {
        self.entries.as_slice()
    }

    /// The whole table, row by row, for writing.
    pub fn entries_mut(&mut self) -> &mut [E]
        ensures* writes_back { sem 𝓛 (Lends (the_row E.row) (Array E.row 0) self.entry result
            (with_entries self.old)) }
        ensures entries { result.now ≡ self.old.entries }
        ensures whole { length result.now ≡ self.old.cols * self.old.rows }
    {
        self.entries.as_mut_slice()
    }

    /// Row `y`.
    pub fn row(&self, y: usize) -> &[E]
        requires { y < self.now.rows }
        ensures { result.now ≡ take self.now.cols (drop (y * self.now.cols) self.now.entries) }
    {
        let from = y * self.cols;
        &self.entries[from..from + self.cols]
    }

    /// Row `y`, for writing.
    pub fn row_mut(&mut self, y: usize) -> &mut [E]
        requires { y < self.old.rows }
        ensures* writes_back { sem 𝓛 (Lends (the_row E.row) (Array E.row 0) self.entry result
            (with_entry_run self.old (y * self.old.cols))) }
        ensures row { result.now ≡ take self.old.cols (drop (y * self.old.cols) self.old.entries) }
    {
        let from = y * self.cols;
        let to = from + self.cols;
        self.entries.slice_mut(from..to)
    }

    /// `width` entries of row `y` from column `x` on.
    pub(crate) fn run(&self, x: usize, y: usize, width: usize) -> &[E]
        requires across { x + width ≤ self.now.cols }
        requires down { y < self.now.rows }
        ensures run { result.now ≡ take width (drop (y * self.now.cols + x) self.now.entries) }
        ensures long { length result.now ≡ width }
    {
        let from = y * self.cols + x;
        &self.entries[from..from + width]
    }

    /// `width` entries of row `y` from column `x` on, for writing.
    pub(crate) fn run_mut(&mut self, x: usize, y: usize, width: usize) -> &mut [E]
        requires across { x + width ≤ self.old.cols }
        requires down { y < self.old.rows }
        ensures* writes_back { sem 𝓛 (Lends (the_row E.row) (Array E.row 0) self.entry result
            (with_entry_run self.old (y * self.old.cols + x))) }
        ensures run { result.now ≡ take width (drop (y * self.old.cols + x) self.old.entries) }
        ensures long { length result.now ≡ width }
    {
        let from = y * self.cols + x;
        let to = from + width;
        self.entries.slice_mut(from..to)
    }

    /// The entry at column `x` of row `y`, for writing.
    #[tactic(auto, using(crate::proofs::Places::entries_read))]
    pub(crate) fn entry_mut(&mut self, x: usize, y: usize) -> &mut E
        requires across { x < self.old.cols }
        requires down { y < self.old.rows }
        ensures* writes_back { sem 𝓛 (Lends (the_row E.row) E.row self.entry result
            (with_entry self.old (y * self.old.cols + x))) }
        ensures entry { (d : _) → result.now
            ≡ slice_index_or self.old.entries (y * self.old.cols + x) d }
    {
        let index = y * self.cols + x;
        &mut self.entries[index]
    }

    /// The entry at `index`, for writing, where there is one.
    pub(crate) fn get_mut(&mut self, index: usize) -> Option<&mut E>
        ensures* writes_back { sem 𝓛 (LendsIf (the_row E.row) E.row self.entry result
            (with_entry self.old index) self.old) }
        ensures some { IsSome result ↔ (index < length self.old.entries) }
        ensures entry { IfSome result (λ e. e.now ≡ slice_index_or self.old.entries index e.now) }
    {
        self.entries.get_mut(index)
    }
}
