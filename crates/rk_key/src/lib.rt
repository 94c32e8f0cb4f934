//! Keys, suffixes and their order.
//!
//! A key is a prefix of 1 to 200 bytes, none of them `@`, and then a suffix. A suffix is empty, or `@` and
//! a decimal number from 1 to 2^64 - 1 without a leading zero. Keys are ordered by the bytes of their
//! prefixes, and then by their suffixes: the empty suffix first, then larger numbers before smaller ones.
//!
//! [`read_key`] and [`read_suffix`] take exactly these bytes, and tell of others how far they begin a key or
//! a suffix. Both types hold their bytes in a `SmallVec`, so short keys and all suffixes take no memory.
#![tactic(auto)]

mod error;
mod form;
mod key;
mod order;
mod suffix;

pub use error::{KeyError, Which};
pub use key::{UserKey, read_key};
pub use order::{compare, compare_suffixes, split};
pub use suffix::{Suffix, read_suffix};
