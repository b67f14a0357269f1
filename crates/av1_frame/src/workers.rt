//! The tiles of a frame, coded by several workers.
ghost use Rattle.std.specs.Prelude.{◌≡◌, ℕ, ◌+◌, ◌<◌, ◌≤◌, ◌^◌, length, map, IfOk, IfSome, vec_len};
ghost use Rattle.std.specs.List.{AllZip};
ghost use denote.Param.Send.{IsSync};
ghost use Rattle.av1_tiling.specs.Frames.{views, IsTilingOf};
ghost use Rattle.av1_frame.specs.AtHome.{GivesResults, IsResultOf};
ghost use Rattle.av1_frame.specs.Coding.{KeepsShape};
ghost use Rattle.av1_frame.specs.Worked.{AreAllHanded, IsCodedFrom, IsTileResult, SaysResult};
ghost use Rattle.av1_frame.specs.Results.{result_of};
ghost use Rattle.av1_frame.specs.Tables.{tiles, claimed, missed, IsSeatOf};

use crate::coded_tile::CodedTile;
use crate::coder::{CodeError, TileCoder};
use crate::delivered::Delivered;
use crate::gate::Gate;
use crate::table::{TileSeat, TileTable};
use av1_block::FrameBlocks;
use av1_plane::{OutOfMemory, Pixel};
use av1_tiling::{FrameState, TileContextMut, TilingInfo};
use std::alloc::Global;
use std::thread::{Threads, join};

// A worker: one turn on each tile, by number.
fn work<T: Pixel, C: TileCoder<T>, G: Gate>(
    table: &TileTable<'_, T, C>,
    alloc: Global,
    mut seat: TileSeat<T, C>,
    worker: usize,
    gate: &G,
) -> TileSeat<T, C>
    requires { IsSeatOf table.now seat }
    ensures seat { IsSeatOf table.now result }
    ensures all { AreAllHanded (tiles table.now) (claimed result) (missed result) }
{
    for tile in 0..table.tile_count() {
        table.turn(alloc, &mut seat, worker, tile, gate);
    }
    seat
}

// Workers from number `first` on, each on a thread of its own.
fn spread<T: Pixel + Send + Sync, C: TileCoder<T>, G: Gate, R: Threads + Sync>(
    rt: &R,
    alloc: Global,
    table: &TileTable<'_, T, C>,
    mut seat: TileSeat<T, C>,
    first: usize,
    count: usize,
    gate: &G,
) -> TileSeat<T, C>
    requires seat { IsSeatOf table.now seat }
    requires count { (0 < count) × (first + count < 2 ^ 32) }
    ensures seat { IsSeatOf table.now result }
    ensures all { AreAllHanded (tiles table.now) (claimed result) (missed result) }
{
    if count == 1 {
        return work(table, alloc, seat, first, gate);
    }
    let half = count / 2;
    let rest = count - half;
    let second = first + half;
    let other = table.split(&mut seat);
    let (mut seat, other) = join(
        rt,
        move || -> TileSeat<T, C>
            requires { IsSync R.row × IsSeatOf table.now seat × (0 < half) × (first + half < 2 ^ 32) }
            ensures { IsSeatOf table.entry.now result
                × AreAllHanded (tiles table.entry.now) (claimed result) (missed result) }
        { spread(rt, alloc, table, seat, first, half, gate) },
        move || -> TileSeat<T, C>
            requires { IsSync R.row × IsSeatOf table.now other × (0 < rest) × (second + rest < 2 ^ 32) }
            ensures { IsSeatOf table.entry.now result
                × AreAllHanded (tiles table.entry.now) (claimed result) (missed result) }
        { spread(rt, alloc, table, other, second, rest, gate) },
    );
    table.join(&mut seat, other);
    seat
}

// The results that workers make of the tiles' views, in the order of the tiles.
fn deliver<T: Pixel + Send + Sync, C: TileCoder<T>, G: Gate, R: Threads + Sync>(
    rt: &R,
    alloc: Global,
    contexts: Vec<TileContextMut<T>>,
    coder: &C,
    workers: usize,
    gate: &G,
) -> Result<Vec<Option<Delivered<T>>>, OutOfMemory>
    requires { (0 < length contexts.items) × (length contexts.items ≤ 4096) }
    ensures count { IfOk result (λ entries. vec_len entries ≡ length contexts.items) }
    ensures results { IfOk result (λ entries. GivesResults C.meaning
        (record { starts = contexts.items; coder = coder.now }) entries.items) }
{
    let count = contexts.len();
    let (table, seat) = TileTable::new(alloc, contexts, coder)?;
    let seat = spread(rt, alloc, &table, seat, 0, workers.clamp(1, count), gate);
    table.close(alloc, seat)
}

// All views of a frame.
pub(crate) fn all_contexts<T: Pixel>(
    alloc: Global,
    tiling: &TilingInfo,
    fs: &FrameState<T>,
    blocks: &FrameBlocks,
) -> Result<Vec<TileContextMut<T>>, OutOfMemory>
    requires { IsTilingOf tiling.now fs.now blocks.now.cols blocks.now.rows }
    ensures { IfOk result (λ contexts.
        contexts.items ≡ views tiling.now fs.now blocks.now.entries) }
{
    let contexts = tiling.tile_iter_mut(alloc, fs, blocks)?.collect(alloc)?;
    Ok(contexts)
}

// A tile as its coder left it, or nothing where it was refused.
fn coded_tile<T: Pixel>(done: Delivered<T>) -> Result<Option<CodedTile<T>>, OutOfMemory>
    ensures { IfOk result (λ tile. SaysResult done tile) }
{
    let Delivered { coded, view } = done;
    match coded {
        Ok(bytes) => Ok(Some(CodedTile {
            bytes,
            context: view,
        })),
        Err(CodeError::Refused) => Ok(None),
        Err(CodeError::OutOfMemory) => Err(OutOfMemory),
    }
}

// Cuts the view of a tile anew, and codes the tile in this worker.
fn code_here<T: Pixel, C: TileCoder<T>>(
    alloc: Global,
    tiling: &TilingInfo,
    fs: &FrameState<T>,
    blocks: &FrameBlocks,
    coder: &C,
    tile: usize,
) -> Result<Option<CodedTile<T>>, OutOfMemory>
    requires made_for { IsTilingOf tiling.now fs.now blocks.now.cols blocks.now.rows }
    requires tile { tile < length (views tiling.now fs.now blocks.now.entries) }
    ensures { IfOk result (IsTileResult (C.meaning coder.now)
        (views tiling.now fs.now blocks.now.entries) tile) }
{
    let mut contexts = all_contexts(alloc, tiling, fs, blocks)?;
    let mut view = contexts.swap_remove(tile);
    let coded = coder.code(alloc, &mut view);
    coded_tile(Delivered { coded, view })
}

// A worker's result of a tile; one that no worker has is made here.
fn finish_tile<T: Pixel, C: TileCoder<T>>(
    alloc: Global,
    tiling: &TilingInfo,
    fs: &FrameState<T>,
    blocks: &FrameBlocks,
    coder: &C,
    tile: usize,
    entry: Option<Delivered<T>>,
) -> Result<Option<CodedTile<T>>, OutOfMemory>
    requires made_for { IsTilingOf tiling.now fs.now blocks.now.cols blocks.now.rows }
    requires tile { tile < length (views tiling.now fs.now blocks.now.entries) }
    requires entry { IfSome entry (IsResultOf C.meaning (record {
      starts = views tiling.now fs.now blocks.now.entries;
      coder = coder.now;
    }) tile) }
    ensures { IfOk result (IsTileResult (C.meaning coder.now)
        (views tiling.now fs.now blocks.now.entries) tile) }
{
    match entry {
        Some(done) => coded_tile(done),
        None => code_here(alloc, tiling, fs, blocks, coder, tile),
    }
}

// All tiles of a frame, by the results that workers delivered.
fn finish_tiles<T: Pixel, C: TileCoder<T>>(
    alloc: Global,
    tiling: &TilingInfo,
    fs: &FrameState<T>,
    blocks: &FrameBlocks,
    coder: &C,
    entries: Vec<Option<Delivered<T>>>,
) -> Result<Vec<Option<CodedTile<T>>>, OutOfMemory>
    requires made_for { IsTilingOf tiling.now fs.now blocks.now.cols blocks.now.rows }
    requires count { vec_len entries ≡ length (views tiling.now fs.now blocks.now.entries) }
    requires results { GivesResults C.meaning (record {
      starts = views tiling.now fs.now blocks.now.entries;
      coder = coder.now;
    }) entries.items }
    ensures { IfOk result (λ tiles. AllZip (IsCodedFrom (C.meaning coder.now))
        (views tiling.now fs.now blocks.now.entries) tiles.items) }
{
    let mut tiles = Vec::with_capacity(alloc, entries.len())?;
    for entry in entries {
        let tile = finish_tile(alloc, tiling, fs, blocks, coder, tiles.len(), entry)?;
        tiles.push(tile)?;
    }
    Ok(tiles)
}

/// Codes all tiles of a frame by `workers` workers; `None` stands for a tile that the coder refused.
///
/// No workers count as one worker, and more workers than tiles as one for each tile.
pub(crate) fn code_tiles<T: Pixel + Send + Sync, C: TileCoder<T>, G: Gate, R: Threads + Sync>(
    rt: &R,
    alloc: Global,
    tiling: &TilingInfo,
    fs: &FrameState<T>,
    blocks: &FrameBlocks,
    coder: &C,
    workers: usize,
    gate: &G,
) -> Result<Vec<Option<CodedTile<T>>>, OutOfMemory>
    requires made_for { IsTilingOf tiling.now fs.now blocks.now.cols blocks.now.rows }
    ensures coded { IfOk result (λ tiles. map result_of tiles.items
        ≡ map (C.meaning coder.now) (views tiling.now fs.now blocks.now.entries)) }
    ensures shapes { IfOk result (λ tiles. AllZip KeepsShape
        (views tiling.now fs.now blocks.now.entries) (map result_of tiles.items)) }
{
    let contexts = all_contexts(alloc, tiling, fs, blocks)?;
    let entries = deliver(rt, alloc, contexts, coder, workers, gate)?;
    finish_tiles(alloc, tiling, fs, blocks, coder, entries)
}
