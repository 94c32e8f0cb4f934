//! The machine: its state, its events and its steps, and its runs. It stands on the operations, histories and views of
//! `rk_model`, and on the spelling of batches of `rk_batch`, by which a commit has its size. The contracts of the core
//! and of the program say what they do by `Step`.
//!
//! It has definitions, the limits of the store and its [`Shape`], and one law: along a run the history goes on
//! ([`the_history_goes_on`]).
#![tactic(auto)]

mod laws;
mod limits;
mod shape;

pub use laws::the_history_goes_on;
pub use limits::{MOST_MEMTABLE_BYTES, MOST_NUMBER, MOST_PENDING_BYTES, MOST_SNAPSHOTS};
pub use shape::Shape;
