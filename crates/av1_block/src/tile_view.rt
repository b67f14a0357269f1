ghost use Rattle.std.specs.Prelude.{◌+◌, ◌*◌, ◌≤◌, length};

use crate::cut::Cut;
use crate::table::Table;
use crate::window::Window;

/// A rectangle of a table, for reading.
///
/// Row `i` is the `cols` entries from entry `i * step` on.
#[derive(Debug, Drop)]
pub struct TileView<'a, E> {
    pub(crate) entries: &'a [E],
    pub(crate) step: usize,
    x: usize,
    y: usize,
    cols: usize,
    rows: usize,
    frame_cols: usize,
    frame_rows: usize,
    ghost wide: { cols ≤ step },
    ghost stored: { rows * step + cols ≤ length entries.now + step },
    ghost across: { x + cols ≤ frame_cols },
    ghost down: { y + rows ≤ frame_rows },
}

impl<'a, E: Copy> TileView<'a, E> {
    ghost use Rattle.std.specs.Prelude.{◌≡◌, ◌-◌, ◌<◌, min, take, drop};
    ghost use Rattle.av1_block.specs.Cut.{cut_entries, cut_rect};
    ghost use Rattle.av1_block.specs.Tables.{view_entries, view_step, view_x, view_y, view_cols, view_rows, view_frame_cols, view_frame_rows};

    /// The rectangle of `cols` by `rows` entries at column `x` of row `y`.
    pub fn new(table: &'a Table<E>, x: usize, y: usize, cols: usize, rows: usize) -> TileView<'a, E>
        requires across { x + cols ≤ table.now.cols }
        requires down { y + rows ≤ table.now.rows }
        ensures entries { view_entries result ≡ drop (y * table.now.cols + x) table.now.entries }
        ensures step { view_step result ≡ table.now.cols }
        ensures x { view_x result ≡ x }
        ensures y { view_y result ≡ y }
        ensures cols { view_cols result ≡ cols }
        ensures rows { view_rows result ≡ rows }
        ensures frame_cols { view_frame_cols result ≡ table.now.cols }
        ensures frame_rows { view_frame_rows result ≡ table.now.rows }
    {
        let window = Window {
            left: x,
            top: y,
            x,
            y,
            cols,
            rows,
            frame_cols: table.cols,
            frame_rows: table.rows,
        };
        TileView::over(table, window)
    }

    /// The view at the cut's rectangle of a frame's table of these sides, with the cut's entries, as
    /// far as that table goes.
    pub fn from_cut(cut: &'a Cut<E>, frame_cols: usize, frame_rows: usize) -> TileView<'a, E>
        requires left { (cut_rect cut.now).x ≤ frame_cols }
        requires top { (cut_rect cut.now).y ≤ frame_rows }
        ensures entries { view_entries result ≡ cut_entries cut.now }
        ensures step { view_step result ≡ (cut_rect cut.now).width }
        ensures x { view_x result ≡ (cut_rect cut.now).x }
        ensures y { view_y result ≡ (cut_rect cut.now).y }
        ensures cols { view_cols result
            ≡ min (cut_rect cut.now).width (frame_cols - (cut_rect cut.now).x) }
        ensures rows { view_rows result
            ≡ min (cut_rect cut.now).height (frame_rows - (cut_rect cut.now).y) }
        ensures frame_cols { view_frame_cols result ≡ frame_cols }
        ensures frame_rows { view_frame_rows result ≡ frame_rows }
    {
        let window = Window::of_cut(cut.rect(), frame_cols, frame_rows);
        TileView::over(&cut.table, window)
    }

    pub(crate) fn over(table: &'a Table<E>, window: Window) -> TileView<'a, E>
        requires across { window.left + window.cols ≤ table.now.cols }
        requires down { window.top + window.rows ≤ table.now.rows }
        requires frame_across { window.x + window.cols ≤ window.frame_cols }
        requires frame_down { window.y + window.rows ≤ window.frame_rows }
        ensures entries { view_entries result
            ≡ drop (window.top * table.now.cols + window.left) table.now.entries }
        ensures step { view_step result ≡ table.now.cols }
        ensures x { view_x result ≡ window.x }
        ensures y { view_y result ≡ window.y }
        ensures cols { view_cols result ≡ window.cols }
        ensures rows { view_rows result ≡ window.rows }
        ensures frame_cols { view_frame_cols result ≡ window.frame_cols }
        ensures frame_rows { view_frame_rows result ≡ window.frame_rows }
    {
        let entries = table.entries();
        // An empty rectangle may start past the last entry.
        let from = (window.top * table.cols + window.left).min(entries.len());
        TileView {
            entries: &entries[from..],
            step: table.cols,
            x: window.x,
            y: window.y,
            cols: window.cols,
            rows: window.rows,
            frame_cols: window.frame_cols,
            frame_rows: window.frame_rows,
        }
    }

    /// The part of the view from column `x` of row `y` on, with these sides where the view has
    /// them.
    pub fn subregion(&self, x: usize, y: usize, cols: usize, rows: usize) -> TileView<'_, E>
        requires column { x < view_cols self.now }
        requires row { y < view_rows self.now }
        ensures entries { view_entries result
            ≡ drop (y * view_step self.now + x) (view_entries self.now) }
        ensures step { view_step result ≡ view_step self.now }
        ensures x { view_x result ≡ view_x self.now + x }
        ensures y { view_y result ≡ view_y self.now + y }
        ensures cols { view_cols result ≡ min cols (view_cols self.now - x) }
        ensures rows { view_rows result ≡ min rows (view_rows self.now - y) }
        ensures frame_cols { view_frame_cols result ≡ view_frame_cols self.now }
        ensures frame_rows { view_frame_rows result ≡ view_frame_rows self.now }
    {
        TileView {
            entries: &self.entries[y * self.step + x..],
            step: self.step,
            x: self.x + x,
            y: self.y + y,
            cols: cols.min(self.cols - x),
            rows: rows.min(self.rows - y),
            frame_cols: self.frame_cols,
            frame_rows: self.frame_rows,
        }
    }

    /// The view's first column in the frame's table.
    pub fn x(&self) -> usize
        ensures { result ≡ view_x self.now }
    {
        self.x
    }

    /// The view's first row in the frame's table.
    pub fn y(&self) -> usize
        ensures { result ≡ view_y self.now }
    {
        self.y
    }

    /// The view's width, in units.
    pub fn cols(&self) -> usize
        ensures { result ≡ view_cols self.now }
    {
        self.cols
    }

    /// The view's height, in units.
    pub fn rows(&self) -> usize
        ensures { result ≡ view_rows self.now }
    {
        self.rows
    }

    /// The width of the frame's table.
    pub fn frame_cols(&self) -> usize
        ensures { result ≡ view_frame_cols self.now }
    {
        self.frame_cols
    }

    /// The height of the frame's table.
    pub fn frame_rows(&self) -> usize
        ensures { result ≡ view_frame_rows self.now }
    {
        self.frame_rows
    }

    /// The entries of row `y`.
    pub fn row(&self, y: usize) -> &[E]
        requires { y < view_rows self.now }
        ensures { result.now ≡ take (view_cols self.now)
            (drop (y * view_step self.now) (view_entries self.now)) }
    {
        let from = y * self.step;
        &self.entries[from..from + self.cols]
    }
}
