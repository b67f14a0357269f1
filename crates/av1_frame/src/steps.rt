//! What callers do with a table of tiles.
ghost use Rattle.std.specs.Prelude.{◌≡◌, ◌<◌, ◌≤◌, ◌++◌, [], true, not, length, map, IfOk, vec_len, vec_capacity};
ghost use Rattle.std.specs.Slots.{slots_items, slots_len, IsFull};
ghost use Rattle.av1_frame.specs.Claims.{times, with_tile, HaveNoneInCommon};
ghost use Rattle.av1_frame.specs.AtHome.{Gathered, GivesResults, GivesClaimed, delivered_of};
ghost use Rattle.av1_frame.specs.declared.delivered.Place.TheVariants.{Start};
ghost use Rattle.av1_frame.specs.Tables.{about, tiles, claimed, missed, IsSeatOf};

use crate::coder::TileCoder;
use crate::delivered::{Delivered, Place};
use crate::gate::Gate;
use crate::rule::{Claim, Cut, Finish, Look, Pair};
use crate::table::{TileSeat, TileTable};
use atomic_table::{Closed, Refused, Table};
use av1_plane::{OutOfMemory, Pixel};
use av1_tiling::TileContextMut;
use std::alloc::{AllocError, Global};
use std::snapshot::Snapshot;

// A slot for each view.
fn started<T: Pixel>(
    alloc: Global,
    views: Vec<TileContextMut<T>>,
) -> Result<Vec<Place<T>>, AllocError>
    ensures { IfOk result (λ slots. slots.items ≡ map Start views.items) }
{
    views
        .into_iter()
        .map(|view| Place::Start(view))
        .collect(alloc)
}

// The results in the slots of a closed table, by number.
fn gather<T: Pixel>(
    mut closed: Closed<Place<T>, Global>,
    mut results: Vec<Option<Delivered<T>>>,
    count: usize,
) -> Vec<Option<Delivered<T>>>
    requires full { IsFull closed.words × IsFull closed.slots }
    requires counts { (slots_len closed.words ≡ count) × (slots_len closed.slots ≡ count) }
    requires room { (results.items ≡ []) × (count ≤ vec_capacity results) }
    ensures count { vec_len result ≡ count }
    ensures each { Gathered (slots_items closed.words) (slots_items closed.slots) result.items }
{
    for i in 0..count {
        let word = closed.word(i);
        let place = closed.take(i);
        results.push_reserved(delivered(word, place));
    }
    closed.free();
    results
}

// The result in a slot, where the tile's word says that it is finished.
fn delivered<T: Pixel>(word: u64, place: Place<T>) -> Option<Delivered<T>>
    ensures { result ≡ delivered_of word place }
{
    match place {
        Place::Done(done) => { if word == 3 { Some(done) } else { None } }
        Place::Start(_) => None,
        Place::Out => None,
    }
}

impl<'a, T: Pixel, C: TileCoder<T>> TileTable<'a, T, C> {
    /// A table whose tile `n` is the view at place `n`, and its first seat.
    pub fn new(
        alloc: Global,
        views: Vec<TileContextMut<T>>,
        coder: &'a C,
    ) -> Result<(TileTable<'a, T, C>, TileSeat<T, C>), OutOfMemory>
        requires { (0 < length views.items) × (length views.items ≤ 4096) }
        ensures tiles { IfOk result (λ made. tiles made.0 ≡ length views.items) }
        ensures table { IfOk result (λ made.
            about made.0 ≡ record { starts = views.items; coder = coder.now }) }
        ensures seat { IfOk result (λ made. IsSeatOf made.0 made.1) }
        ensures empty { IfOk result (λ made. (claimed made.1 ≡ []) × (missed made.1 ≡ [])) }
    {
        let about = (Snapshot::of(&views), Snapshot::of(coder));
        let count = views.len();
        let words = Vec::from_elem(alloc, 0u64, count)?;
        let slots = started(alloc, views)?;
        match Table::new(alloc, words.as_slice(), slots, &about) {
            Ok((table, seat)) => Ok((TileTable { table, coder }, TileSeat { seat })),
            Err(Refused { slots: _ }) => Err(OutOfMemory),
        }
    }

    /// An entry for each tile: its result, or `None` where this seat didn't claim it.
    pub fn close(
        self,
        alloc: Global,
        seat: TileSeat<T, C>,
    ) -> Result<Vec<Option<Delivered<T>>>, OutOfMemory>
        requires { IsSeatOf self seat }
        ensures tiles { IfOk result (λ entries. vec_len entries ≡ tiles self.entry) }
        ensures results { IfOk result (λ entries.
            GivesResults C.meaning (about self.entry) entries.items) }
        ensures claimed { IfOk result (λ entries. GivesClaimed (claimed seat) entries.items) }
    {
        let count = self.table.word_count();
        let results = Vec::with_capacity(alloc, count)?;
        let TileTable { table, coder: _ } = self;
        let TileSeat { seat } = seat;
        Ok(gather(table.close_with(seat), results, count))
    }

    /// How many tiles there are.
    pub(crate) fn tile_count(&self) -> usize
        ensures { result ≡ tiles self.now }
    {
        self.table.word_count()
    }

    /// A seat of this table for another caller.
    pub fn split(&self, seat: &mut TileSeat<T, C>) -> TileSeat<T, C>
        requires { IsSeatOf self.now seat.old }
        ensures seat { IsSeatOf self.now seat.new }
        ensures lists_stay { (claimed seat.new ≡ claimed seat.old) × (missed seat.new ≡ missed seat.old) }
        ensures other { IsSeatOf self.now result }
        ensures empty { (claimed result ≡ []) × (missed result ≡ []) }
    {
        TileSeat {
            seat: self.table.shared.split_seat::<Cut>(&mut seat.seat),
        }
    }

    /// Lets a seat take in the tiles of another. They had claimed no tile in common.
    pub fn join(&self, seat: &mut TileSeat<T, C>, other: TileSeat<T, C>)
        requires { IsSeatOf self.now seat.old × IsSeatOf self.now other }
        ensures seat { IsSeatOf self.now seat.new }
        ensures claimed { claimed seat.new ≡ claimed seat.old ++ claimed other }
        ensures missed { missed seat.new ≡ missed seat.old ++ missed other }
        ensures apart { HaveNoneInCommon (claimed seat.old) (claimed other) }
    {
        let shared = &self.table.shared;
        let TileSeat { seat: second } = other;
        shared.join_seat::<Pair>(&mut seat.seat, second);
        shared.load::<Look>(&mut seat.seat, 0);
    }

    /// Claims a tile, and codes the tile if it was free; the gate first hears of the claim.
    ///
    /// The answer says whether the tile was free.
    pub fn turn<G: Gate>(
        &self,
        alloc: Global,
        seat: &mut TileSeat<T, C>,
        worker: usize,
        tile: usize,
        gate: &G,
    ) -> bool
        requires seat { IsSeatOf self.now seat.old }
        requires tile { tile < tiles self.now }
        ensures seat { IsSeatOf self.now seat.new }
        ensures claimed { claimed seat.new ≡ with_tile result tile (claimed seat.old) }
        ensures missed { missed seat.new ≡ with_tile (not result) tile (missed seat.old) }
        ensures free { result ≡ true → times tile (claimed seat.old) ≡ 0 }
    {
        let shared = &self.table.shared;
        let found = shared.fetch_or::<Claim<T, C>>(&mut seat.seat, tile, 1);
        if found != 0 {
            return false;
        }
        let place = shared.exchange(&mut seat.seat, tile, Place::Out);
        let Place::Start(mut view) = place else {
            unreachable!()
        };
        gate.claimed(worker, tile);
        let coded = self.coder.code(alloc, &mut view);
        let done = Place::Done(Delivered { coded, view });
        let spare = shared.exchange(&mut seat.seat, tile, done);
        drop(spare);
        shared.fetch_or::<Finish>(&mut seat.seat, tile, 2);
        true
    }
}
