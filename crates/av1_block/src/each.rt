ghost use Rattle.std.specs.Prelude.{◌≡◌, ◌+◌, ◌≤◌, All, length, take, drop};
ghost use Rattle.av1_block.specs.Each.{Takes, Leaves, AreRelated};
ghost use Rattle.av1_block.specs.Cut.{LiesIn, cut_of, overwritten, with_cut};

use crate::block::Block;

// Calls `f` on each block of a rectangle of a table of `cols` columns.
pub fn call_in_rectangle<F: Fn(&mut Block)>(
    f: &F,
    entries: &mut [Block],
    cols: usize,
    x: usize,
    y: usize,
    width: usize,
    height: usize,
)
    requires inside { LiesIn (length entries.old) cols x y width height }
    requires callable { All (Takes F.Fn f.now) (cut_of entries.old cols x y width height) }
    ensures changed { AreRelated (Leaves F.Fn f.now) (cut_of entries.old cols x y width height)
        (cut_of entries.new cols x y width height) }
    ensures elsewhere { entries.new ≡ with_cut entries.old cols x y width height
        (cut_of entries.new cols x y width height) }
{
    for row in 0..height {
        let from = y * cols + row * cols + x;
        call_on_run(f, entries, from, width);
    }
}

fn call_on_run<F: Fn(&mut Block)>(f: &F, entries: &mut [Block], from: usize, width: usize)
    requires fits { from + width ≤ length entries.old }
    requires callable { All (Takes F.Fn f.now) (take width (drop from entries.old)) }
    ensures changed { AreRelated (Leaves F.Fn f.now) (take width (drop from entries.old))
        (take width (drop from entries.new)) }
    ensures elsewhere { entries.new ≡ overwritten entries.old from
        (take width (drop from entries.new)) }
{
    call_on_all(f, &mut entries[from..from + width]);
}

fn call_on_all<F: Fn(&mut Block)>(f: &F, blocks: &mut [Block])
    requires { All (Takes F.Fn f.now) blocks.old }
    ensures { AreRelated (Leaves F.Fn f.now) blocks.old blocks.new }
{
    for block in blocks.iter_mut() {
        f(block);
    }
}
