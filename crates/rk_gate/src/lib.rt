//! A journal: payloads in a file of a vault, of which a crash leaves each whole or not at all.
//!
//! The file is a list of open records and a tail. A record is a gate byte that is 1, the length of its payload in eight
//! bytes, and the payload. The tail is a byte that is not 1, the closed gate, and then anything. `specs/Records` says
//! which records bytes have, and where bytes that are no journal stop to be one.
//!
//! [`Journal::append`] writes the record behind the closed gate, syncs, opens the gate in a write of its own, and syncs.
//! So each image of each moment has the old records, or those and the new one, and after `Ok` it has the new one.
//! [`Journal::reset`] closes the first gate, syncs, cuts the file to that byte, and syncs: an image has all records or
//! none. [`Journal::recover`] answers exactly the records of a file with their places. `specs/Changes` says what each call
//! makes of the bytes and the records, and by which changes of the file.
//!
//! The reading of bytes computes. That it is the spelling is a law: [`one_reading`].
//!
//! What a call says of contents holds where the vault tells what reads give, and what it says of images where it also
//! tells what a crash may leave.
//!
//! It stands on the traits of a vault in `rk_outside`, on `rk_pieces` for words on answers, and on `byteorder` for the
//! numbers in the bytes.
#![tactic(auto)]

mod changing;
mod journal;
mod laws;
mod reading;
mod record;

pub use journal::Journal;
pub use laws::one_reading;
pub use record::Record;
