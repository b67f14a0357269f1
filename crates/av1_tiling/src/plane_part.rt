ghost use Rattle.std.specs.Prelude.{◌≡◌, ◌+◌, ◌*◌, ◌≤◌, length};
ghost use Rattle.std.specs.Borrow.{Lends, sem, Array};
ghost use Rattle.av1_plane.specs.contracts.plane.Plane.{the_row as plane_row};
ghost use Rattle.av1_block.specs.Cut.{LiesInTable, put_at, overwritten};
ghost use Rattle.av1_tiling.specs.PlaneParts.{part_rect, part_samples, part_stride, plane_with_all, with_part_samples};
ghost use Rattle.av1_tiling.specs.contracts.plane_part.PlanePart.{the_row};

use av1_plane::{Pixel, Plane, TileRect};

/// A copy of a rectangle of a plane: a plane of its own, all of whose stored samples are the
/// rectangle's, and the place of its first sample among the stored ones of the other plane.
#[derive(Debug, Drop)]
pub struct PlanePart<T> {
    pub(crate) plane: Plane<T>,
    pub(crate) x: usize,
    pub(crate) y: usize,
    // The stride of the plane that the samples were copied from.
    pub(crate) stride: usize,
}

impl<T: Pixel> PlanePart<T> {
    /// Where the samples stood among the stored ones of their plane.
    pub(crate) fn rect(&self) -> TileRect
        ensures place { result ≡ part_rect self.now }
        ensures whole { length (part_samples self.now) ≡ result.width * result.height }
    {
        TileRect {
            x: self.x,
            y: self.y,
            width: self.plane.cfg.stride,
            height: self.plane.cfg.alloc_height,
        }
    }

    /// The samples, row by row.
    pub(crate) fn samples(&self) -> &[T]
        ensures { result.now ≡ part_samples self.now }
    {
        &self.plane.samples
    }

    /// The samples, row by row, for writing.
    pub(crate) fn samples_mut(&mut self) -> &mut [T]
        ensures* writes_back { sem 𝓛 (Lends (the_row T.row) (Array T.row 0) self.entry result
            (with_part_samples self.old)) }
        ensures samples { result.now ≡ part_samples self.old }
    {
        all_samples(&mut self.plane)
    }

    /// Writes the samples to the rectangle's place among the stored ones of a plane of the stride of
    /// the plane that they were copied from.
    #[tactic(auto, using(crate::proofs::Parts::cuts))]
    pub(crate) fn put_back(&self, stored: &mut [T])
        requires inside { LiesInTable (length stored.old) (part_stride self.now)
            (part_rect self.now) }
        ensures { stored.new ≡ put_at stored.old (part_stride self.now) (part_rect self.now)
            (part_samples self.now) }
    {
        let width = self.plane.cfg.stride;
        for row in 0..self.plane.cfg.alloc_height {
            let from = self.y * self.stride + row * self.stride + self.x;
            let own = row * width;
            write_run(stored, from, &self.plane.samples[own..own + width]);
        }
    }
}

// All stored samples of a plane, for writing.
fn all_samples<T: Pixel>(plane: &mut Plane<T>) -> &mut [T]
    ensures* lends { sem 𝓛 (Lends (plane_row T.row) (Array T.row 0) plane.entry result
        (plane_with_all plane.old)) }
    ensures all { result.now ≡ plane.old.samples.items }
{
    plane.samples.as_mut_slice()
}

// Writes the run over as many samples from place `from` on.
fn write_run<T: Pixel>(stored: &mut [T], from: usize, run: &[T])
    requires { from + length run.now ≤ length stored.old }
    ensures { stored.new ≡ overwritten stored.old from run.now }
{
    stored[from..from + run.len()].copy_from_slice(run);
}
