ghost use Rattle.std.specs.Prelude.{◌+◌, ◌^◌, ◌<◌};

use crate::cut::Cut;
use crate::table::Table;
use crate::tile_view::TileView;
use crate::window::Window;

/// A rectangle of a table, for reading and writing.
#[derive(Debug, Drop)]
pub struct TileViewMut<'a, E> {
    pub(crate) table: &'a mut Table<E>,
    pub(crate) window: Window,
    ghost wide: { window.left + window.cols < 2 ^ 64 },
    ghost high: { window.top + window.rows < 2 ^ 64 },
}

impl<'a, E: Copy> TileViewMut<'a, E> {
    ghost use Rattle.std.specs.Prelude.{◌≡◌, ◌-◌, ◌≤◌, ◌↔◌, min, [], length, take, drop, slice_index_or, IfSome, IsSome};
    ghost use Rattle.std.specs.Borrow.{sem, follows, Lends, LendsIf, Array};
    ghost use mir.Syntax.{named};
    ghost use Rattle.av1_block.specs.Windows.{frame_window, cut_window, window_part};
    ghost use Rattle.av1_block.specs.Tables.{view_entries, view_step, view_x, view_y, view_cols, view_rows, view_frame_cols, view_frame_rows};
    ghost use Rattle.av1_block.specs.Cut.{cut_entries, cut_rect, cut_table, with_cut_table};
    ghost use Rattle.av1_block.specs.Writing.{window, table_under, entries_under, place_under, lent_name, IsPlaced, index_under, with_entry_at, with_run_at, with_table};
    ghost use Rattle.av1_block.specs.contracts.table.Table.{the_row as table-row};
    ghost use Rattle.av1_block.specs.contracts.cut.Cut.{the_row as cut-row};
    ghost use Rattle.av1_block.specs.contracts.tile_view_mut.TileViewMut as view;

    /// The rectangle of `cols` by `rows` entries at column `x` of row `y`.
    pub fn new(
        table: &'a mut Table<E>,
        x: usize,
        y: usize,
        cols: usize,
        rows: usize,
    ) -> TileViewMut<'a, E>
        requires across { x + cols ≤ table.old.cols }
        requires down { y + rows ≤ table.old.rows }
        ensures name { lent_name result ≡ table.entry.ghost_name }
        ensures table { table_under result ≡ table.old }
        ensures window { window result ≡ frame_window x y cols rows table.old.cols table.old.rows }
        ensures placed { IsPlaced result }
    {
        let frame_cols = table.cols;
        let frame_rows = table.rows;
        let window = Window {
            left: x,
            top: y,
            x,
            y,
            cols,
            rows,
            frame_cols,
            frame_rows,
        };
        TileViewMut { table, window }
    }

    /// The view at the cut's rectangle of a frame's table of these sides, with the cut's entries, as
    /// far as that table goes.
    pub fn from_cut(cut: &'a mut Cut<E>, frame_cols: usize, frame_rows: usize) -> TileViewMut<'a, E>
        requires left { (cut_rect cut.old).x ≤ frame_cols }
        requires top { (cut_rect cut.old).y ≤ frame_rows }
        ensures* lends { sem 𝓛 (follows (cut-row E.row) (table-row E.row)
            cut.entry.ghost_name (lent_name result) (with_cut_table cut.old)) }
        ensures table { table_under result ≡ cut_table cut.old }
        ensures window { window result ≡ cut_window (cut_rect cut.old) frame_cols frame_rows }
        ensures placed { IsPlaced result }
    {
        let window = Window::of_cut(cut.rect(), frame_cols, frame_rows);
        let table = &mut cut.table;
        TileViewMut { table, window }
    }

    /// The view's first column in the frame's table.
    pub fn x(&self) -> usize
        ensures { result ≡ (window self.now).x }
    {
        self.window.x
    }

    /// The view's first row in the frame's table.
    pub fn y(&self) -> usize
        ensures { result ≡ (window self.now).y }
    {
        self.window.y
    }

    /// The view's width, in units.
    pub fn cols(&self) -> usize
        ensures { result ≡ (window self.now).cols }
    {
        self.window.cols
    }

    /// The view's height, in units.
    pub fn rows(&self) -> usize
        ensures { result ≡ (window self.now).rows }
    {
        self.window.rows
    }

    /// The width of the frame's table.
    pub fn frame_cols(&self) -> usize
        ensures { result ≡ (window self.now).frame_cols }
    {
        self.window.frame_cols
    }

    /// The height of the frame's table.
    pub fn frame_rows(&self) -> usize
        ensures { result ≡ (window self.now).frame_rows }
    {
        self.window.frame_rows
    }

    /// The view's entries, for reading.
    pub fn as_const<'s>(&'s self) -> TileView<'s, E>
        requires { IsPlaced self.now }
        ensures entries { view_entries result
            ≡ drop (place_under self.now 0 0) (entries_under self.now) }
        ensures step { view_step result ≡ (table_under self.now).cols }
        ensures x { view_x result ≡ (window self.now).x }
        ensures y { view_y result ≡ (window self.now).y }
        ensures cols { view_cols result ≡ (window self.now).cols }
        ensures rows { view_rows result ≡ (window self.now).rows }
        ensures frame_cols { view_frame_cols result ≡ (window self.now).frame_cols }
        ensures frame_rows { view_frame_rows result ≡ (window self.now).frame_rows }
    {
        TileView::over(self.table, self.window)
    }

    /// The part of the view from column `x` of row `y` on, with these sides where the view has
    /// them.
    pub fn subregion<'s>(&'s self, x: usize, y: usize, cols: usize, rows: usize) -> TileView<'s, E>
        requires placed { IsPlaced self.now }
        requires column { x < (window self.now).cols }
        requires row { y < (window self.now).rows }
        ensures entries { view_entries result
            ≡ drop (place_under self.now x y) (entries_under self.now) }
        ensures step { view_step result ≡ (table_under self.now).cols }
        ensures x { view_x result ≡ (window self.now).x + x }
        ensures y { view_y result ≡ (window self.now).y + y }
        ensures cols { view_cols result ≡ min cols ((window self.now).cols - x) }
        ensures rows { view_rows result ≡ min rows ((window self.now).rows - y) }
        ensures frame_cols { view_frame_cols result ≡ (window self.now).frame_cols }
        ensures frame_rows { view_frame_rows result ≡ (window self.now).frame_rows }
    {
        let part = self.window.part(x, y, cols, rows);
        TileView::over(self.table, part)
    }

    /// The part of the view from column `x` of row `y` on, with these sides where the view has
    /// them, for writing.
    pub fn subregion_mut<'s>(
        &'s mut self,
        x: usize,
        y: usize,
        cols: usize,
        rows: usize,
    ) -> TileViewMut<'s, E>
        requires placed { IsPlaced self.old }
        requires column { x < (window self.old).cols }
        requires row { y < (window self.old).rows }
        ensures* lends { sem 𝓛 (follows (view.the_row (record { mir = named 1; lft = [] }) E.row)
            (table-row E.row) self.entry.ghost_name (lent_name result) (with_table self.old)) }
        ensures table { table_under result ≡ table_under self.old }
        ensures window { window result ≡ window_part (window self.old) x y cols rows }
        ensures placed { IsPlaced result }
    {
        let window = self.window.part(x, y, cols, rows);
        let table = &mut *self.table;
        TileViewMut { table, window }
    }

    /// The entries of row `y`.
    pub fn row(&self, y: usize) -> &[E]
        requires placed { IsPlaced self.now }
        requires row { y < (window self.now).rows }
        ensures row { result.now ≡ take (window self.now).cols
            (drop (place_under self.now 0 y) (entries_under self.now)) }
        ensures long { length result.now ≡ (window self.now).cols }
    {
        self.table
            .run(self.window.left, self.window.top + y, self.window.cols)
    }

    /// The entries of row `y`, for writing.
    pub fn row_mut<'s>(&'s mut self, y: usize) -> &'s mut [E]
        requires placed { IsPlaced self.old }
        requires row { y < (window self.old).rows }
        ensures* lends { sem 𝓛 (Lends
            (view.the_row (record { mir = named 1; lft = [] }) E.row) (Array E.row 0)
            self.entry result (with_run_at self.old (place_under self.old 0 y))) }
        ensures row { result.now ≡ take (window self.old).cols
            (drop (place_under self.old 0 y) (entries_under self.old)) }
        ensures long { length result.now ≡ (window self.old).cols }
    {
        let left = self.window.left;
        let y = self.window.top + y;
        let cols = self.window.cols;
        self.table.run_mut(left, y, cols)
    }

    /// The entry at column `x` of row `y`, for writing, where the view has it.
    pub fn get_mut<'s>(&'s mut self, x: usize, y: usize) -> Option<&'s mut E>
        requires { IsPlaced self.old }
        ensures* lends { sem 𝓛 (LendsIf
            (view.the_row (record { mir = named 1; lft = [] }) E.row) E.row
            self.entry result (with_entry_at self.old (index_under self.old x y)) self.old) }
        ensures some { IsSome result ↔ ((x < (window self.old).cols) × (y < (window self.old).rows)) }
        ensures entry { IfSome result (λ e. e.now
            ≡ slice_index_or (entries_under self.old) (place_under self.old x y) e.now) }
    {
        let index = self.index_of(x, y);
        self.table.get_mut(index)
    }

    // Where the entry at column `x` of row `y` stands in the table; past its end where the view
    // doesn't have it.
    #[tactic(auto, using(crate::proofs::Places::places))]
    fn index_of(&self, x: usize, y: usize) -> usize
        requires { IsPlaced self.now }
        ensures index { result ≡ index_under self.now x y }
        ensures inside { (x < (window self.now).cols) → (y < (window self.now).rows)
            → place_under self.now x y < length (entries_under self.now) }
    {
        let table = &*self.table;
        let entries = table.entries();
        if x < self.window.cols && y < self.window.rows {
            (self.window.top + y) * table.cols + (self.window.left + x)
        } else {
            entries.len()
        }
    }
}
