//! What merges of chunks hold, in the words of the entries that the chunks have.
//!
//! It stands on the merges of `rk_pointmerge` and `rk_spanmerge`, the fragments of `rk_fragment`, the covers of
//! `rk_coalesce` and the laws of `rk_laws`, and has laws alone. Where the numbers of the entries differ over each
//! key, a merge of what is told is told ([`merged_points_are_told`], [`merged_spans_are_told`]). What is visible at a
//! number of points in order has the value of the point there ([`what_is_visible_is_the_point`]). And where the
//! merged spans are in order, the range keys of one give the cover of the entries at each of its keys over which
//! numbers differ ([`a_merged_span_has_the_cover`]).
#![tactic(auto)]

mod laws;

pub use laws::{
    a_merged_span_has_the_cover, merged_points_are_told, merged_spans_are_told,
    the_sources_give_the_cells, what_is_visible_is_the_point,
};
