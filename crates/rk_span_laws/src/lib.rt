//! Laws of spans: what their range keys give, and what points and spans give to an iterator.
//!
//! It stands on the definitions of `rk_model`, the range keys of a span in `rk_coalesce`, and the laws of `rk_laws`, and has
//! laws alone. The range keys of spans in order give, at each key of one, that span's cover ([`spans_have_their_covers`],
//! [`a_key_of_no_span_has_no_cover`]). The widest spans of these, as spans again, are in order, give the same covers and
//! are the widest of themselves ([`joined_spans_are_in_order`], [`joined_spans_have_the_covers`],
//! [`joined_spans_stay_joined`]).
//!
//! Over points of which each is the only put of its key, and the widest spans within an iterator's bounds, the span over
//! a key, the value of a point and what the mask hides are read off one span and one point ([`span_is_the_one_over`],
//! [`point_is_the_one_there`], [`masked_is_hidden`]), and the next position in a direction is the next point that is
//! not hidden or start of a span ([`soonest_place_is_the_position`]).
#![tactic(auto)]

mod given;
mod joined;

pub use given::{
    masked_is_hidden, point_is_the_one_there, soonest_place_is_the_position, span_is_the_one_over,
};
pub use joined::{
    a_key_of_no_span_has_no_cover, joined_spans_are_in_order, joined_spans_have_the_covers,
    joined_spans_stay_joined, spans_have_their_covers,
};
