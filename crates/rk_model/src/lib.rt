//! The operations of the store, and what a list of them means.
//!
//! It stands on the keys of `rk_key` and the bytes of `rk_outside`. The definitions of `specs` say what a list
//! of operations gives at a key, which spans and positions an iterator shows, and how its cursor moves. A copy
//! of an operation, an entry or a span equals it. [`Plain`] is an iterator that computes the definitions as
//! they stand, over any entries and options: its moves answer exactly what `after_move` says, and where
//! memory ends it stays as it was.
//!
//! A [`Source`] is what a chunk, a table, a level and a merge are to the crates above: a sorted list of items and a
//! gap of it. [`PointSource`] and [`SpanSource`] have its calls in their usual names. [`Listed`] is a source over any
//! list in memory, as [`ListPoints`] and [`ListSpans`] are, and [`points_from`] and [`points_before`] read out what a
//! source of points holds.
#![tactic(auto)]

mod both_ways;
mod copies;
mod cursor;
mod cut;
mod item;
mod listed;
mod op;
mod options;
mod order;
mod plain;
mod sorted;
mod source;
mod span;

pub use both_ways::{points_before, points_from};
pub use copies::{copy_bound, copy_key, copy_key_into};
pub use cursor::Cursor;
pub use cut::Cut;
pub use item::Item;
pub use listed::{Lends, ListPoints, ListSpans, Listed};
pub use op::{Entry, Op};
pub use options::IterOptions;
pub use order::compare_entries;
pub use plain::{KeptSpan, Plain, first_greater, is_same_cover};
pub use sorted::{Sorted, Source};
pub use source::{PointSource, SpanSource};
pub use span::{RangeKey, RangeKeys, RangeKind, Span, SuffixValue};
