//! A frame that holds a picture.
ghost use Rattle.std.specs.Prelude.{◌≡◌, ℕ, ◌+◌, ◌*◌, ◌<◌, ◌≤◌, [], All, length, map, true, IfOk};
ghost use Rattle.std.specs.List.{slice_index_or};
ghost use Rattle.av1_plane.specs.Layout.{at, visible, CanPad};
ghost use Rattle.av1_tiling.specs.Views.{view_plane, view_frame};
ghost use Rattle.av1_rec.specs.Lines.{numbers_of, said_planes};
ghost use Rattle.av1_rec.specs.Recorded.{have_sides};
ghost use Rattle.av1_rec.specs.Picture.{picture_sample, picture_plane, source_frame, HasPictureRows};

use crate::coder::recorded_rows::write_run;
use crate::text::header::FrameFormat;
use av1_plane::{Frame, FrameAlloc, OutOfMemory, Pixel, Plane, PlaneConfig, Three};
use std::alloc::Global;

// Writes the rows to the stored rows from `top` on, each from column `left` on.
fn write_picture<T: Pixel>(
    samples: &mut [T],
    stride: usize,
    left: usize,
    top: usize,
    rows: &[Vec<T>],
)
    requires across { All (λ row. left + length row.items ≤ stride) rows.now }
    requires down { (top + length rows.now) * stride ≤ length samples.old }
    ensures { (x y : ℕ) → y < length rows.now
        → x < length (slice_index_or (numbers_of T.number rows.now) y [])
        → at (map T.number samples.new) stride (left + x) (top + y)
        ≡ picture_sample (numbers_of T.number rows.now) x y }
{
    for y in 0..rows.len() {
        write_run(samples, top * stride + y * stride + left, &rows[y]);
    }
}

// Fills a plane of a frame of these sides with the rows of its picture. A plane may be without samples.
fn fill_plane<T: Pixel>(plane: &mut Plane<T>, w: usize, h: usize, rows: &[Vec<T>])
    requires can_pad { 0 < length plane.old.samples.items → CanPad plane.old.cfg w h }
    requires sides { 0 < length plane.old.samples.items
        → have_sides (visible w plane.old.cfg.xdec, visible h plane.old.cfg.ydec)
        (numbers_of T.number rows.now) ≡ true }
    ensures { view_plane T.number plane.new
        ≡ picture_plane plane.old.cfg w h (numbers_of T.number rows.now) }
{
    if plane.samples.is_empty() {
        return;
    }
    let PlaneConfig {
        stride,
        xorigin,
        yorigin,
        ..
    } = plane.cfg;
    write_picture(plane.samples.as_mut_slice(), stride, xorigin, yorigin, rows);
    plane.pad(w, h);
}

/// A frame that holds a source's rows. Its sides are 1 to 65536, and the rows have the picture's sides
/// in each plane.
pub fn source_frame<T: Pixel>(
    alloc: Global,
    format: &FrameFormat,
    source: &Three<Vec<Vec<T>>>,
) -> Result<Frame<T>, OutOfMemory>
    requires width { (1 ≤ format.now.width) × (format.now.width ≤ 65536) }
    requires height { (1 ≤ format.now.height) × (format.now.height ≤ 65536) }
    requires picture { HasPictureRows format.now (said_planes T.number source.now) }
    ensures { IfOk result (λ frame. view_frame T.number frame
        ≡ source_frame format.now (said_planes T.number source.now)) }
{
    let w = format.width as usize;
    let h = format.height as usize;
    let mut frame = Frame::new(alloc, w, h, format.sampling)?;
    fill_plane(&mut frame.planes.y, w, h, &source.y);
    fill_plane(&mut frame.planes.u, w, h, &source.u);
    fill_plane(&mut frame.planes.v, w, h, &source.v);
    Ok(frame)
}
