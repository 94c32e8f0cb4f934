//! Spans of range keys, cut at the written ends of the operations.
//!
//! [`fragment`] makes of entries the spans between neighbouring written ends. Each has the range keys of the
//! entries over it, newest first, so that over each key are exactly the range keys of the entries over it
//! ([`each_key_has_its_range_keys`]). A [`Fragmenter`] gives the same of entries that are added one by one.
//! [`NewestFirst`] is a list of range keys by falling numbers.
//!
//! It stands on the keys of `rk_key`, the bytes of `rk_outside`, and the entries and spans of `rk_model`.
#![tactic(auto)]

mod ends;
mod fragmenter;
mod intervals;
mod keys;
mod laws;
mod newest;
mod spans;

pub use fragmenter::Fragmenter;
pub use keys::NewestFirst;
pub use laws::{each_key_has_its_range_keys, fragments_are_spans};
pub use spans::fragment;
