//! Masks: whether a range key hides a point.
//!
//! A mask `m` hides a point whose suffix is `p` where the cover of its key has a pair of suffix `r` with
//! `m <= r < p`. In the order of suffixes larger numbers come first, so such a pair is newer than the point and
//! not newer than the mask. A point without a suffix is never hidden, and an empty mask hides nothing.
//!
//! It stands on `rk_key`, `rk_outside` and `rk_model`, whose definition of a hidden point [`masks`] computes
//! from a cover. It takes no memory.
#![tactic(auto)]

mod hiding;

pub use hiding::{masks, masks_point};
