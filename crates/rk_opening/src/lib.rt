//! The opening of a store over a vault.
//!
//! `specs/Stores` says what the files of a vault hold: a head, versions in the manifest, and groups in two logs.
//! [`open_store`] answers what they hold, makes a store where there is none, and names the first bad record. It may be
//! stopped at any moment: each image of each moment since its start is one from before it, or stands for what reads gave then.
//!
//! It stands on `rk_manifest` and `rk_log` for what is read, on `rk_gate` for journals, and on `rk_outside` for vaults and
//! refusals.
#![tactic(auto)]

mod head;
mod making;
mod opening;
mod settling;
mod syncing;
mod tables;

pub use opening::{Opened, open_store};
