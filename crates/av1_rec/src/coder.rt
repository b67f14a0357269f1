//! The coder that gives recorded results again.

pub(crate) mod recorded_coder;
pub(crate) mod recorded_rows;
pub(crate) mod recorded_tile;
pub(crate) mod recorded_units;
