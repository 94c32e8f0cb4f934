//! Writing to the logs of an opened store.
//!
//! A [`Writer`] has the journals of both logs, and writes to one of them. [`Writer::append`] adds a payload: what reads give
//! afterwards, and each image of each moment since its start, has the store as it was, or with that record more
//! (`specs/Writing`). What that makes of the groups of both logs is a law: a group that begins with the number that is due is
//! one group more, and breaks no rule ([`laws`]).
//!
//! It stands on `rk_gate` for journals, on `rk_opening` and `rk_log` for what the files of a store hold, and on `rk_outside`
//! for vaults and refusals.
#![tactic(auto)]

mod laws;
mod writer;

pub use laws::{one_group_more, ready_when_opened, ready_when_switched};
pub use writer::Writer;
