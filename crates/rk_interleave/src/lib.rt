//! The moves of an iterator over points and spans.
//!
//! [`Interleave`] is over a source of points, which it cuts at the bounds of its options, and a source of the widest
//! spans within them. It shows each point that no mask hides and each start of a span, in order, both ways. It stands on
//! the sources of `rk_model`, the bounds of `rk_sources`, the masks of `rk_mask`, and the laws of `rk_span_laws` of what
//! points and spans give.
//!
//! Over the entries that its points and spans give, each move leads exactly where the definition of `rk_model` says, and
//! what it lends there is what an iterator over those entries reports: the key, the value, the span and its range keys,
//! and whether the span changed. A refusal has its cause and leaves all that is lent. A step goes on from where the
//! sources stand, if they face its direction; else, and after a refusal, it seeks from the cursor.
#![tactic(auto)]

mod interleave;
mod lent;
mod moves;
mod place;
mod seen;
mod settle;
mod travel;

pub use interleave::Interleave;
