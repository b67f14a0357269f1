ghost use Rattle.std.specs.Prelude.{◌≡◌, ℕ, pos, ◌+◌, ◌^◌, ◌<◌, ◌==◌, ◌&&◌, if◌then◌else◌};
ghost use Rattle.av1_cdef.specs.Part.{AreDirections, table_direction, table_variance};

/// The directions and variances of the 8x8 blocks of a 64x64 part, by column and row.
#[derive(Clone, Copy, Debug)]
pub struct CdefDirections {
    pub(crate) dir: [[u8; 8]; 8],
    pub(crate) var: [[i32; 8]; 8],
}

impl CdefDirections {
    /// The direction of a block, from 0 to 7; 0 where the block was not analysed.
    pub fn dir(&self, bx: usize, by: usize) -> u8
        requires bx { bx < 8 }
        requires by { by < 8 }
        ensures { result ≡ table_direction self.now bx by }
    {
        let column = self.dir[bx];
        column[by]
    }

    /// The variance of a block; 0 where the block was not analysed.
    pub fn var(&self, bx: usize, by: usize) -> i32
        requires bx { bx < 8 }
        requires by { by < 8 }
        ensures { result ≡ table_variance self.now bx by }
    {
        let column = self.var[bx];
        column[by]
    }

    // A table whose directions and variances are all 0.
    pub(crate) fn none() -> CdefDirections
        ensures { AreDirections result }
    {
        CdefDirections {
            dir: [[0; 8]; 8],
            var: [[0; 8]; 8],
        }
    }

    // Puts in the direction and the variance of a block.
    pub(crate) fn put(&mut self, i: usize, j: usize, direction: u8, variance: u32)
        requires shape { AreDirections self.old }
        requires i { i < 8 }
        requires j { j < 8 }
        requires direction { direction < 8 }
        requires variance { variance < 2 ^ 31 }
        ensures shape { AreDirections self.new }
        ensures dir { (a b : ℕ) → a < 8 → b < 8 → table_direction self.new a b
            ≡ (if a == i && b == j then direction else table_direction self.old a b) }
        ensures var { (a b : ℕ) → a < 8 → b < 8 → table_variance self.new a b
            ≡ (if a == i && b == j then pos variance else table_variance self.old a b) }
    {
        self.dir[i][j] = direction;
        self.var[i][j] = variance as i32;
    }
}
