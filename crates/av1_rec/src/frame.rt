//! What coding the frame of a text begins with: its parameters, its state and its source.

pub(crate) mod begin;
pub(crate) mod picture;
