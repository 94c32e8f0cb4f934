//! The points of several sources as one source, and what is seen of points at a number.
//!
//! It stands on the keys of `rk_key`, the causes of refusals of `rk_outside`, the sources of `rk_model`, and the
//! law of merging lists of `rk_merge`. [`PointMerge`] is a source over sources, proved by their contract alone: its
//! list is their union, by key and the newest first within one key, told where each of them is told and no two
//! entries over one key have one number. It goes both ways and turns anywhere. Where it isn't told, it is safe,
//! returns, and hands refusals on with their causes; a bad table that it names is one that a source may name.
//!
//! [`Visible`] is a source over any source of points: of each key its newest entry numbered at most so, where that
//! is a put.
#![tactic(auto)]

mod all;
mod backward;
mod forward;
mod kept;
mod laws;
mod merge;
mod moves;
mod nearest;
mod visible;

pub use laws::{
    a_sorted_list_is_told_by_its_entries, the_order_of_the_lists_does_not_matter,
    the_union_has_exactly_their_entries, the_union_of_sorted_lists_is_sorted,
};
pub use merge::PointMerge;
pub use visible::Visible;
