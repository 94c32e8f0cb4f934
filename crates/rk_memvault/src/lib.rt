//! Vaults in memory. It stands on `rk_outside` alone.
//!
//! [`MemVault`] fails at listed calls and keeps a record of its calls, each with its place and its bytes. Its disk is a
//! replay of the record: so it tells contents and crash facts, and what it holds is tied to that replay by an
//! invariant. [`MemVault::images`] gives what a crash may leave at any moment so far, as vaults.
//!
//! [`SteadyVault`] never fails, and takes all its memory where room is made. It tells contents alone.
//!
//! A write takes time in its bytes, and in the number of files by a search. Making an image replays the record.
#![tactic(auto)]

mod free;
mod images;
mod reading;
mod record;
mod scene;
mod schedule;
mod sealed;
mod slot;
mod slots;
mod steady;
mod trace;
mod vault;

pub use sealed::{MemFile, MemReader};
pub use steady::{SteadyFile, SteadyReader, SteadyVault};
pub use vault::MemVault;
