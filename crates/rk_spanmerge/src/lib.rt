//! The spans of several sources as one list.
//!
//! A [`SpanMerge`] holds at every key the range keys that its sources hold there, newest first
//! ([`each_key_has_its_range_keys`]), cut at every start and end of every source's spans. Each move and seek is
//! exact on that list, in both directions. A seek seeks in each source at most three times, and a step that
//! turns once. A step that goes on moves only the sources whose spans end or begin where it leaves the current
//! one, by a pass. What is read is what the sources owe, and no more.
//!
//! It stands on the keys of `rk_key`, the causes of refusals of `rk_outside`, the sources of `rk_model`, the
//! range keys by falling numbers of `rk_fragment`, and the cuts of sorted lists of `rk_merge`.
#![tactic(auto)]

mod all;
mod find;
mod keys;
mod laws;
mod merge;

pub use laws::{
    cut_spans_are_spans, each_key_has_its_range_keys, read_keys_are_distinct,
    sorted_cuts_have_differing_keys,
};
pub use merge::SpanMerge;
