use crate::tile_context::TileContextMut;
use av1_plane::Pixel;
use std::iter::FusedIterator;

/// The tiles of a frame, row by row.
#[derive(Debug, Drop)]
pub struct TileContextIterMut<T: Pixel> {
    // the last tile first
    left: Vec<TileContextMut<T>>,
}

impl<T: Pixel> TileContextIterMut<T> {
    ghost use Rattle.std.specs.Prelude.{◌≡◌, reverse};
    ghost use Rattle.av1_tiling.specs.Tiles.{tiles_left};

    pub(crate) fn new(mut contexts: Vec<TileContextMut<T>>) -> TileContextIterMut<T>
        ensures { tiles_left result ≡ contexts.items }
    {
        contexts.reverse();
        TileContextIterMut { left: contexts }
    }
}

impl<T: Pixel> Iterator for TileContextIterMut<T> {
    ghost use Rattle.std.specs.Prelude.{◌≡◌, length, Some, IfSome};
    ghost use Rattle.std.specs.Iterator.{YieldsFirst, UpTo, item_count};
    ghost use Rattle.std.specs.Iterator.SizeHint.{IsWithinCount};
    ghost use Rattle.av1_tiling.specs.Tiles.{tiles_left};

    type Item = TileContextMut<T>;

    ghost next_gives = { YieldsFirst tiles_left };

    ghost remaining = { item_count tiles_left };

    fn next(&mut self) -> Option<TileContextMut<T>> {
        self.left.pop()
    }

    fn size_hint(&self) -> (usize, Option<usize>)
        ensures lower { IsWithinCount result.0 (item_count tiles_left self.now) }
        ensures upper { IfSome result.1 (UpTo (item_count tiles_left self.now)) }
        ensures exact { result
            ≡ (length (tiles_left self.now), Some (length (tiles_left self.now))) }
    {
        (self.left.len(), Some(self.left.len()))
    }
}

impl<T: Pixel> ExactSizeIterator for TileContextIterMut<T> {
    fn len(&self) -> usize {
        self.left.len()
    }
}

impl<T: Pixel> FusedIterator for TileContextIterMut<T> {}
