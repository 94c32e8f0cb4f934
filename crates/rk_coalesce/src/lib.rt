//! The range keys of a span: the cover that they give at a number, and those that a flush or a compaction keeps.
//!
//! All range keys of a span are over the same keys. [`coalesce`] answers the cover that those numbered at most
//! `n` give there, and [`coalesce_stripes`] the range keys without those that a newer one of their stripe shadows.
//! The stripe of a number is the least of the given numbers that isn't below it, so the cover at each of these
//! numbers stays as it was. Both take range keys in any order and with any numbers.
//!
//! It stands on `rk_key`, `rk_outside` and `rk_model`. What both calls answer is stated in the model's words on
//! the entries of the range keys over their span, and two laws say that this is the model's cover, and what it
//! keeps, at each key of the span.
#![tactic(auto)]

mod cover;
mod keep;
mod laws;
mod newest;
mod place;
mod shadow;

pub use cover::coalesce;
pub use keep::coalesce_stripes;
pub use laws::{the_cover_of_a_span_is_that_of_its_keys, what_a_span_keeps_is_what_its_keys_keep};
