//! Entries in memory: memtables, the chunks that they are made of, and sources over a chunk.
//!
//! A [`Memtable`] is a list of entries. [`Memtable::grown_with`] makes of it a memtable that has newer entries too,
//! and the memtable itself stays as it was. It has its entries in chunks, and [`Memtable::pin`] answers these, the
//! newest last: of n entries no more than n has binary digits, since a chunk that would be more than half as long
//! as the one before it becomes one with it. New entries are moved into a chunk, and a chunk that is made of two
//! shares their points, so no point is copied. A [`Chunk`] never changes, so it can be held and read for as long as
//! is wanted, in any thread. [`ChunkPoints`] is a source of exactly the points of a chunk, in order, and
//! [`ChunkSpans`] one of exactly the spans that its range entries are cut into; these are made once for a chunk,
//! and shared. Both read nothing from a disk.
//!
//! It stands on the keys of `rk_key`, the bytes of `rk_outside`, the entries and sources of `rk_model`, the
//! fragments of `rk_fragment`, and the cells of `rk_cell`.
#![tactic(auto)]

mod chunk;
mod fragments;
mod memtable;
mod merge;
mod order;
mod points;
mod shared;
mod spans;
mod tower;

pub use chunk::Chunk;
pub use memtable::{MemPins, Memtable};
pub use points::ChunkPoints;
pub use spans::ChunkSpans;
