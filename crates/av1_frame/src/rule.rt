//! The rule that a table of tiles is under, and its steps.
ghost use Rattle.av1_frame.specs.Claims.{Ruled, Claimed, Finished, Looked, fresh, joined, split_off};
ghost use Rattle.av1_frame.specs.AtHome.{AtHome};
ghost use Rattle.av1_frame.specs.Abouts.{about_of};
ghost use Rattle.av1_frame.specs.declared.doing.Doing.TheVariants.{Spent};

use crate::coder::TileCoder;
use crate::delivered::Place;
use crate::doing::{About, Doing};
use atomic_table::{Join, Play, Split, TableRule};
use av1_plane::Pixel;
use av1_tiling::TileContextMut;
use std::marker::PhantomData;
use std::snapshot::Snapshot;

/// What is known of a seat of a table with these pixels and this coder.
pub(crate) type Know<T, C> = Doing<About<T, C>>;

/// What is fixed when a table is made: its views and its coder.
pub(crate) type Key<T, C> = (Snapshot<Vec<TileContextMut<T>>>, Snapshot<C>);

/// Each tile is claimed once, and a finished one has its result.
pub(crate) struct Handed<T, C> {
    marker: PhantomData<(T, C)>,
}

impl<T: Pixel, C: TileCoder<T>> TableRule<Place<T>, Know<T, C>, Key<T, C>> for Handed<T, C> {
    ghost holds = { λ key. Ruled (AtHome C.meaning) (about_of key) };

    ghost first = { λ key. fresh (about_of key) };
}

/// The step in which a seat claims a tile, or finds the tile taken.
pub(crate) struct Claim<T, C> {
    marker: PhantomData<(T, C)>,
}

impl<T: Pixel, C: TileCoder<T>> Play<Place<T>, Know<T, C>> for Claim<T, C> {
    ghost then = { Claimed (AtHome C.meaning) };
}

/// A seat's claimed tile has its result.
pub(crate) struct Finish;

impl<S, X> Play<S, Doing<X>> for Finish {
    ghost then = { Finished };
}

/// The step in which a seat learns that it claimed no tile twice.
pub(crate) struct Look;

impl<S, X> Play<S, Doing<X>> for Look {
    ghost then = { Looked };
}

/// A seat without tiles is split off another.
pub(crate) struct Cut;

impl<X> Split<Doing<X>> for Cut {
    ghost left = { λ d. d };

    ghost right = { split_off };
}

/// A seat takes in the tiles of another.
pub(crate) struct Pair;

impl<X> Join<Doing<X>> for Pair {
    ghost both = { joined };

    ghost spent = { Spent };
}
