//! Sources made of other sources.
//!
//! It stands on the sources of `rk_model`. [`Bounded`] is a source cut at the bounds of an iterator: it lists what
//! lies between them, and walks nothing beyond. [`Either`] is a source of one of two kinds. Both are proved once for
//! items of any kind, by the contract of a source alone.
#![tactic(auto)]

mod bounded;
mod either;

pub use bounded::Bounded;
pub use either::Either;
