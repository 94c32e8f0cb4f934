//! The log of a store: groups of batches in the journals of the files 1 and 2.
//!
//! A group is the batches that were written together, with the number of their first operation; it is the payload of one
//! record. `specs/Groups` spells it, and says which bytes are one. [`Group::decode`] answers a group exactly where the bytes
//! are one, and each group has one spelling, and no two share one: see [`one_spelling`]. [`Pending`] is a group that is being
//! filled, and gives its payload.
//!
//! `specs/Logs` has the rules that the groups of both logs keep: numbers without a gap, each log by itself and both together
//! behind the last number in tables. [`recover`] answers the groups of both, or names the first record that is none or
//! breaks a rule.
//!
//! It stands on `rk_gate` for journals, on `rk_batch` for batches, on `rk_model` and `rk_key` for operations and keys, on
//! `rk_outside` for vaults and refusals, and on `rk_pieces` and `byteorder` for what is read of bytes.
#![tactic(auto)]

mod group;
mod laws;
mod pending;
mod recovery;
mod rules;

pub use group::{Group, Logged};
pub use laws::one_spelling;
pub use pending::Pending;
pub use recovery::{Log, Logs, recover};
