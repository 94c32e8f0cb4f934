//! A vault in a folder of the file system.
//!
//! [`FolderVault`] meets the trait `Vault` of `rk_outside`, telling neither contents nor crash facts: its clauses are on causes and
//! counts alone. That the folder does what its files say, and keeps them through a crash once they are synced, is trusted.
//!
//! It stands on `rk_outside` for the traits, and on the files of `std`.
#![tactic(auto)]

mod faults;
mod files;
mod sealed;
mod vault;

pub use sealed::{FolderFile, FolderReader};
pub use vault::FolderVault;
