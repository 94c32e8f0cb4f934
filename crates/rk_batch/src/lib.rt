//! Batches of operations, and their bytes.
//!
//! A [`Batch`] is a list of operations that are to be done together. Each of its calls adds exactly its own
//! operation, or names the first thing that is wrong with it and leaves the batch as it was. `specs/Checks`
//! lists what is tested, in its order.
//!
//! [`Batch::encode`] gives the bytes of a batch, and [`Batch::decode`] answers a batch exactly where the bytes
//! are one, and else tells where they stop to be one. `specs/Encoding` spells a batch, and `specs/Grammar`
//! says which bytes are one. Each batch has one spelling, and no two batches share one: see
//! [`one_spelling`] and [`one_place`].
//!
//! It stands on `rk_key` for keys and suffixes, on `rk_outside` for want of memory and what is too long, on
//! `rk_model` for the operations, and on `byteorder` for the numbers in the bytes.
#![tactic(auto)]

mod batch;
mod decode;
mod error;
mod kinds;
mod laws;
mod parts;
mod raw;
mod size;
mod writing;

pub use batch::Batch;
pub use error::BatchError;
pub use laws::{one_place, one_refusal, one_spelling};
