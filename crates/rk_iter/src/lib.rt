//! The iterator over pinned chunks.
//!
//! An [`Iter`] is opened by [`Iter::open`] over the chunks that a memtable has pinned, and shows their entries up to the
//! pins' number, within the bounds and under the mask of its options. Where over each key no two entries have one
//! number, each move leads exactly to where the definitions of `rk_model` say, and the value and the span that are
//! lent are those that they report. A refusal comes for want of memory alone, and leaves the iterator as it was.
//! Nothing is read from a disk, and nothing that is written later is seen.
//!
//! [`open_over`] puts an iterator together over any sources of points and of spans: points are cut at the bounds,
//! merged, and seen at the number; spans are merged and joined to the widest ones; and both are interleaved.
//!
//! It stands on the definitions of `rk_model`, the chunks of `rk_mem`, the sources of `rk_sources`, `rk_pointmerge`,
//! `rk_spanmerge` and `rk_defrag`, the interleaver of `rk_interleave`, and the laws of `rk_laws` and `rk_merge_laws`:
//! what merges of chunks give has the cells of the chunks' entries.
#![tactic(auto)]

mod chunks;
mod inside;
mod iter;

pub use inside::{Inside, open_over};
pub use iter::Iter;
