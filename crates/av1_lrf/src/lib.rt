//! Loop restoration (AV1 specification, section 7.17).
//!
//! A plane is restored stripe by stripe, and a stripe unit by unit: by a Wiener filter, by a
//! self-guided filter, or not at all. The filters of a stripe read three rows and columns past
//! it, by the rule of `VertPaddedIter`. They work in parts of 64 by 64 samples, with all cells in
//! fixed arrays: the Wiener filter sums across into cells and then down, the self-guided one
//! takes its sums over squares from prefix sums.
#![tactic(auto)]

mod block;
mod frame;
mod guide;
mod guided;
mod integral;
pub mod laws;
mod line;
mod mix;
mod padded;
mod part;
mod plan;
mod plane;
mod restore;
mod rows;
mod setup;
mod sgr;
mod taps;
#[cfg(test)]
mod tests;
mod vert_padded;
mod wiener;

pub use frame::lrf_filter_frame;
pub use padded::HorzPaddedIter;
pub use sgr::{IntegralImageBuffer, setup_integral_image, sgrproj_stripe_filter};
pub use vert_padded::VertPaddedIter;
pub use wiener::wiener_stripe_filter;
