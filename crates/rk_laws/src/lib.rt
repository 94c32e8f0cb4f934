//! The laws of the definitions over whole operations. It stands on `rk_model`, `rk_key` and `rk_outside`.
//!
//! Its main law: two lists of entries with the same covers and points at the keys within an iterator's bounds
//! give the same positions, reports and moves ([`an_iterator_shows_the_cells_alone`]). The other laws say when
//! covers and points are the same: in any order of the entries, cut at any keys, without entries that
//! newer ones shadow, and at a key's prefix. And they say where spans begin and end, and what entries a history
//! has up to the end of a commit.
//!
//! Each law is a statement of `specs/` and a lemma of `proofs/`, which crates above cite, and the contract of a
//! function here that has nothing to do. [`apply`] computes the cover after one more operation.
#![tactic(auto)]

mod kept_cells;
mod masks;
mod neighbours;
mod newer;
mod parts;
mod prefixes;
mod same_cells;
mod same_entries;

pub use kept_cells::{
    entries_kept_at_the_bottom_give_the_same_cells, kept_entries_give_the_same_cells,
};
pub use masks::{
    a_point_without_a_suffix_is_shown, a_range_key_before_the_mask_hides_nothing,
    a_range_key_hides_no_point_of_its_own_suffix, without_a_mask_each_point_is_shown,
};
pub use neighbours::{
    a_cursor_at_a_key_is_within_the_bounds, at_the_end_of_a_span_the_cover_is_another,
    before_the_start_of_a_span_the_cover_is_another, each_cover_has_a_span,
    each_key_of_a_span_has_its_cover, each_key_of_a_span_has_this_span, positions_rise_strictly,
};
pub use newer::{
    apply, cover_after_an_entry_is_that_of_the_cover_before,
    point_after_an_entry_is_that_of_the_point_before,
};
pub use parts::each_end_of_a_commit_has_its_part;
pub use prefixes::{
    cover_of_a_key_is_that_of_its_prefix, cover_of_a_key_is_that_of_spans,
    point_of_a_key_is_that_of_its_own_points, spans_over_a_key_are_those_over_its_prefix,
};
pub use same_cells::{
    a_move_leads_to_a_key_within_the_bounds, an_iterator_shows_the_cells_alone,
    changes_of_span_are_those_of_the_covers, moves_are_those_of_the_cells,
    positions_are_those_of_the_cells, reports_are_those_of_the_cells,
    starts_of_spans_are_those_of_the_covers, widest_spans_are_those_of_the_covers,
};
pub use same_entries::{
    cover_is_that_of_what_the_spans_do, point_is_that_of_its_operations_in_any_order,
    the_order_of_entries_does_not_matter,
};
