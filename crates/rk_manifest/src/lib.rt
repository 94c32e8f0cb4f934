//! The manifest of a vault: which tables there are at each level, kept so that a crash leaves the old version or the
//! new one.
//!
//! A version is spelled in bytes by `specs/Versions`, which also says which bytes are one. [`VersionDesc::encode`] gives
//! these bytes, and [`VersionDesc::decode`] answers a description exactly where the bytes are one. Each version has one
//! spelling, and no two share one: see [`one_spelling`]. For now a version that names a table can be written and is not
//! read: its record is a bad one.
//!
//! The records of the journals in the files 3 and 4 describe versions, and that with the greatest next file number
//! counts (`specs/Manifests`). [`Manifest::recover`] answers it, or names the first record that is none.
//! [`Manifest::install`] adds a record to the file of the newest one, or to the other file, emptied first, where that one
//! is full. Each image of each moment since its start has the old version or the new one, and after `Ok` the new one.
//!
//! It stands on `rk_gate` for journals, on `rk_key` for keys, on `rk_outside` for vaults and refusals, and on
//! `rk_pieces` and `byteorder` for what is read of bytes.
#![tactic(auto)]

mod decode;
mod encode;
mod laws;
mod manifest;
mod recover;
mod types;
mod writing;

pub use laws::one_spelling;
pub use manifest::Manifest;
pub use types::{TableDesc, VersionDesc};
