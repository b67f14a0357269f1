ghost use Rattle.std.specs.Prelude.{◌≡◌, ◌≢◌, ◌*◌, ◌≤◌, ◌↔◌, IsTrue, IfOk, replicate};

use crate::table::Table;
use crate::tile_view::TileView;
use crate::tile_view_mut::TileViewMut;
use av1_plane::OutOfMemory;
use std::alloc::Global;

/// How a unit is restored.
#[derive(Clone, Copy, Debug, PartialEq, Eq)]
pub enum RestorationFilter {
    /// Not at all.
    None,
    /// By the coefficients of the sums down a column, and of those across a row.
    Wiener { coeffs: [[i8; 3]; 2] },
    /// By a set of strengths, and the weights of both passes.
    Sgrproj { set: u8, xqd: [i8; 2] },
}

impl Default for RestorationFilter {
    ghost use Rattle.std.specs.Prelude.{◌≡◌};
    ghost use Rattle.av1_block.specs.declared.restoration_unit.RestorationFilter.TheVariants.{None};

    ghost is_default = { λ filter. filter ≡ None };

    fn default() -> RestorationFilter {
        RestorationFilter::None
    }
}

impl RestorationFilter {
    /// Whether the filters differ.
    pub fn notequal(self, cmp: RestorationFilter) -> bool
        ensures { IsTrue result ↔ (self ≢ cmp) }
    {
        match self {
            RestorationFilter::None => !matches!(cmp, RestorationFilter::None),
            RestorationFilter::Wiener { coeffs } => match cmp {
                RestorationFilter::Wiener { coeffs: others } => !is_same_coeffs(coeffs, others),
                _ => true,
            },
            RestorationFilter::Sgrproj { set, xqd } => match cmp {
                RestorationFilter::Sgrproj {
                    set: other,
                    xqd: others,
                } => set != other || !is_same_weights(xqd, others),
                _ => true,
            },
        }
    }
}

fn is_same_coeffs(a: [[i8; 3]; 2], b: [[i8; 3]; 2]) -> bool
    ensures { IsTrue result ↔ (a ≡ b) }
{
    a == b
}

fn is_same_weights(a: [i8; 2], b: [i8; 2]) -> bool
    ensures { IsTrue result ↔ (a ≡ b) }
{
    a == b
}

/// A unit of a plane.
#[derive(Clone, Copy, Debug)]
pub struct RestorationUnit {
    pub filter: RestorationFilter,
}

impl Default for RestorationUnit {
    ghost use Rattle.std.specs.Prelude.{◌≡◌};
    ghost use Rattle.av1_block.specs.RestorationUnit.{no_unit};

    ghost is_default = { λ unit. unit ≡ no_unit };

    /// A unit that leaves its samples as they are.
    fn default() -> RestorationUnit {
        RestorationUnit {
            filter: RestorationFilter::None,
        }
    }
}

/// The units of a plane, row by row.
pub type FrameRestorationUnits = Table<RestorationUnit>;

/// A rectangle of a table of units, for reading.
pub type TileRestorationUnits<'a> = TileView<'a, RestorationUnit>;

/// A rectangle of a table of units, for reading and writing.
pub type TileRestorationUnitsMut<'a> = TileViewMut<'a, RestorationUnit>;

impl Table<RestorationUnit> {
    ghost use Rattle.av1_block.specs.RestorationUnit.{no_unit};

    /// Units that leave all samples as they are, with sides of at most 16384.
    pub fn new(
        alloc: Global,
        cols: usize,
        rows: usize,
    ) -> Result<FrameRestorationUnits, OutOfMemory>
        requires cols { cols ≤ 16384 }
        requires rows { rows ≤ 16384 }
        ensures cols { IfOk result (λ made. made.cols ≡ cols) }
        ensures rows { IfOk result (λ made. made.rows ≡ rows) }
        ensures units { IfOk result (λ made. made.entries ≡ replicate (cols * rows) no_unit) }
    {
        let units = vec![in alloc; RestorationUnit::default(); cols * rows]?;
        Ok(Table::from_entries(units, cols, rows))
    }
}
