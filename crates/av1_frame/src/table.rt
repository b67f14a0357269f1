//! The table that hands out tiles, and its seats.
ghost use Rattle.std.specs.Prelude.{◌≡◌, ◌<◌, true, []};
ghost use Rattle.av1_frame.specs.Claims.{is_idle};

use crate::coder::TileCoder;
use crate::delivered::Place;
use crate::rule::{Handed, Key, Know};
use atomic_table::{Seat, Table};
use av1_plane::Pixel;
use std::alloc::Global;
use std::fmt;

/// Hands out the tiles of one run, each once, to callers on any number of threads.
#[derive(Drop)]
pub struct TileTable<'a, T: Pixel, C: TileCoder<T>> {
    pub(crate) table: Table<Place<T>, Know<T, C>, Key<T, C>, Handed<T, C>, Global>,
    pub(crate) coder: &'a C,
    ghost sized: { table.shared.table_id.words ≡ table.shared.table_id.slots },
    ghost nonempty: { 0 < table.shared.table_id.words },
    ghost same_coder: { coder.now ≡ table.shared.key.1.value },
}

/// One caller's token of no bytes, in which contracts see the tiles that the caller claimed and those
/// that it found taken.
#[derive(Drop)]
pub struct TileSeat<T: Pixel, C> {
    pub(crate) seat: Seat<Place<T>, Know<T, C>>,
    ghost idle: { is_idle seat.me.0 ≡ true },
    ghost empty: { seat.me.1 ≡ [] },
}

impl<T: Pixel, C: TileCoder<T>> fmt::Debug for TileTable<'_, T, C> {
    fn fmt<W: fmt::Write>(&self, f: &mut fmt::Formatter<W>) -> fmt::Result {
        f.debug_struct("TileTable").finish_non_exhaustive()
    }
}

impl<T: Pixel, C> fmt::Debug for TileSeat<T, C> {
    fn fmt<W: fmt::Write>(&self, f: &mut fmt::Formatter<W>) -> fmt::Result {
        f.debug_struct("TileSeat").finish_non_exhaustive()
    }
}
