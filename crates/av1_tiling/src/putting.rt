//! The parts of a tile back in their places.
ghost use Rattle.std.specs.Prelude.{◌≡◌, All, length, map};
ghost use Rattle.std.specs.List.{AllZip};
ghost use Rattle.av1_block.specs.Tables.{table_entries};
ghost use Rattle.av1_tiling.specs.Views.{view_plane, view_frame, view_samples, view_parts, view_cut, view_units};
ghost use Rattle.av1_tiling.specs.Restoration.{units_in};
ghost use Rattle.av1_tiling.specs.Puts.{put, put_cuts, put_in, put_motion, put_units, tables_of, PartLies};
ghost use Rattle.av1_tiling.specs.Coded.{ViewLies, AreViewsApart, AreCoded};

use crate::plane_part::PlanePart;
use crate::restoration_state::RestorationState;
use crate::tile_context::TileContextMut;
use av1_block::{Cut, FrameBlocks, FrameMEStats, MEStats, RestorationUnit, Table};
use av1_plane::{Frame, Pixel, Plane, Three};

// Puts a part of a plane back into the plane.
#[tactic(auto, using(crate::proofs::PutBack::puts))]
fn put_plane<T: Pixel>(plane: &mut Plane<T>, part: &PlanePart<T>)
    requires { PartLies (length (view_plane T.number plane.old).samples)
        (view_samples T.number part.now) }
    ensures cfg { plane.new.cfg ≡ plane.old.cfg }
    ensures samples { (view_plane T.number plane.new).samples
        ≡ put (view_plane T.number plane.old).samples (view_samples T.number part.now) }
{
    part.put_back(plane.samples.as_mut_slice());
}

// Puts a tile's samples back into the three planes.
pub(crate) fn put_frame<T: Pixel>(frame: &mut Frame<T>, parts: &Three<PlanePart<T>>)
    requires y { PartLies (length (view_frame T.number frame.old).y.samples)
        (view_samples T.number parts.now.y) }
    requires u { PartLies (length (view_frame T.number frame.old).u.samples)
        (view_samples T.number parts.now.u) }
    requires v { PartLies (length (view_frame T.number frame.old).v.samples)
        (view_samples T.number parts.now.v) }
    ensures { view_frame T.number frame.new
        ≡ put_cuts (view_frame T.number frame.old) (view_parts T.number parts.now) }
{
    put_plane(&mut frame.planes.y, &parts.y);
    put_plane(&mut frame.planes.u, &parts.u);
    put_plane(&mut frame.planes.v, &parts.v);
}

// Puts a part of a table back into the table.
pub(crate) fn put_table<E: Copy>(table: &mut Table<E>, cut: &Cut<E>)
    requires { PartLies (length (table_entries table.old)) (view_cut cut.now) }
    ensures { table.new ≡ put_in table.old (view_cut cut.now) }
{
    cut.put_back(table.entries_mut());
}

// Puts a tile's motion records back into the tables.
pub(crate) fn put_motion(tables: &mut [FrameMEStats], cuts: &[Cut<MEStats>])
    requires { AllZip (λ t part. PartLies (length t.entries) part) (tables.old)
        (map view_cut cuts.now) }
    ensures { tables.new
        ≡ put_motion (tables.old) (map view_cut cuts.now) }
{
    for i in 0..cuts.len() {
        put_table(&mut tables[i], &cuts[i]);
    }
}

// Puts a tile's restoration units back into the tables of the three planes.
pub(crate) fn put_units(state: &mut RestorationState, cuts: &Three<Cut<RestorationUnit>>)
    requires y { PartLies (length (units_in state.old).y.entries) (view_units cuts.now).y }
    requires u { PartLies (length (units_in state.old).u.entries) (view_units cuts.now).u }
    requires v { PartLies (length (units_in state.old).v.entries) (view_units cuts.now).v }
    ensures { units_in state.new ≡ put_units (units_in state.old) (view_units cuts.now) }
{
    put_table(&mut state.planes.y.units, &cuts.y);
    put_table(&mut state.planes.u.units, &cuts.u);
    put_table(&mut state.planes.v.units, &cuts.v);
}

/// Puts tiles back where they were cut out: each rectangle of a frame's planes, of its tables of
/// motion records, of its restoration units and of its block table then has its tile's entries, and
/// all else stays. No two tiles have a place in common.
pub fn put_back<T: Pixel>(
    contexts: &[TileContextMut<T>],
    rec: &mut Frame<T>,
    me: &mut [FrameMEStats],
    units: &mut RestorationState,
    blocks: &mut FrameBlocks,
)
    requires lies { All (ViewLies (tables_of T.number rec.old me.old units.old blocks.old))
        contexts.now }
    requires apart { AreViewsApart contexts.now }
    ensures { AreCoded contexts.now (tables_of T.number rec.old me.old units.old blocks.old)
        (tables_of T.number rec.new me.new units.new blocks.new) }
{
    for context in contexts {
        context.put_back(rec, me, units, blocks);
    }
}
