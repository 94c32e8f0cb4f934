//! The store in memory: two memtables, the active one and the frozen one, the last sequence number, and the numbers of the live
//! snapshots.
//!
//! A batch joins a [`MemStore`] in two steps: [`MemStore::prepare`] takes all the memory, and [`MemStore::install`] takes none,
//! so that what must be written to a vault can be written in between. It stands on the memtables of `rk_mem`, the batches of
//! `rk_batch` and the machine of `rk_machine`, and its proofs on the laws of `rk_laws`.
//!
//! Its main contract: each call is a step of the machine (`IsStep`). Whatever state the store stood for in memory, the answer is
//! one that the machine gives there, each refusal exactly where it is due but for want of memory, and the store stands for the
//! state after it. What [`MemStore::pin`] holds shows to any iterator what the history gives at its number (`Shows`).
#![tactic(auto)]

mod answers;
mod numbering;
mod store;

pub use answers::Numbers;
pub use numbering::numbered;
pub use rk_machine::Shape;
pub use store::{MemStore, Prepared};
