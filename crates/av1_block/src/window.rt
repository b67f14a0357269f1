ghost use Rattle.std.specs.Prelude.{◌≡◌, ◌+◌, ◌<◌, ◌≤◌, ◌^◌};
ghost use Rattle.av1_block.specs.Windows.{cut_window, window_part};

use av1_plane::TileRect;

/// A view's rectangle, in the table that it borrows and in the frame's table.
#[derive(Clone, Copy, Debug)]
pub struct Window {
    /// The first column in the table that is borrowed.
    pub left: usize,
    /// The first row in the table that is borrowed.
    pub top: usize,
    /// The first column in the frame's table.
    pub x: usize,
    /// The first row in the frame's table.
    pub y: usize,
    pub cols: usize,
    pub rows: usize,
    pub frame_cols: usize,
    pub frame_rows: usize,
}

impl Window {
    /// A table that was cut out of a frame's table of these sides, as far as that table goes.
    pub fn of_cut(rect: TileRect, frame_cols: usize, frame_rows: usize) -> Window
        requires left { rect.x ≤ frame_cols }
        requires top { rect.y ≤ frame_rows }
        ensures { result ≡ cut_window rect frame_cols frame_rows }
    {
        Window {
            left: 0,
            top: 0,
            x: rect.x,
            y: rect.y,
            cols: rect.width.min(frame_cols - rect.x),
            rows: rect.height.min(frame_rows - rect.y),
            frame_cols,
            frame_rows,
        }
    }

    /// The part from column `x` of row `y` on, with these sides where the window has them.
    pub fn part(self, x: usize, y: usize, cols: usize, rows: usize) -> Window
        requires column { x ≤ self.cols }
        requires row { y ≤ self.rows }
        requires left { self.left + self.cols < 2 ^ 64 }
        requires top { self.top + self.rows < 2 ^ 64 }
        requires across { self.x + self.cols ≤ self.frame_cols }
        requires down { self.y + self.rows ≤ self.frame_rows }
        ensures { result ≡ window_part self x y cols rows }
    {
        Window {
            left: self.left + x,
            top: self.top + y,
            x: self.x + x,
            y: self.y + y,
            cols: cols.min(self.cols - x),
            rows: rows.min(self.rows - y),
            frame_cols: self.frame_cols,
            frame_rows: self.frame_rows,
        }
    }
}
