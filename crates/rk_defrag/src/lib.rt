//! The widest spans of a source of spans.
//!
//! A [`Defrag`] lists of a source the widest spans at a number and within bounds: over each one cover holds that isn't
//! empty, next to it another one or a bound. The range keys of such a span are the pairs of its cover, as sets of that
//! number. So it hides how the source cuts its spans, and what range keys below the number shadow one another.
//! [`Defrag::new`] says so of its list; each move and seek is exact on that, in both directions, by the contract of
//! a source. What is read is what the source owes, and no more.
//!
//! A seek looks at the spans of the source that make up the span to which it leads, at one beyond each of its ends,
//! and at those without a cover that it passes. A step looks at those of the next span alone.
//!
//! It stands on the sources and the definitions of `rk_model`, the bounds of `rk_sources`, the cover of a span of
//! `rk_coalesce`, and the laws of widest spans of `rk_span_laws`.
#![tactic(auto)]

mod defrag;
mod find;
mod run;

pub use defrag::Defrag;
