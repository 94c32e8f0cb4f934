//! What stands outside the store: bytes, memory that runs out, and objects that fail. It stands on std alone.
//!
//! A source is read, a sink is written. Each counts its faults in a number that never falls, and a call
//! answers `Failed` only where that count rose in the call, and anything else only where it stayed: so no
//! failure is made up, and none is passed over. What a source has left, and what was written to a sink, is told where the
//! implementation knows it. Then a read says which bytes it took, and a write which it added: at `Ok` the
//! first ones of its piece, as many as it answers, at `Failed` some first ones or none.
//!
//! Adapters make a source of any reader of std and a sink of any writer. Those in memory fail at the calls
//! that they are given, or never.
//!
//! What is read through a reader counts its reads and its faults there: [`Counting`]. A reader for what lies in
//! memory is [`NoReads`].
//!
//! A [`Vault`] holds files under numbers. Its contracts see what reads give and, for each moment so far, what a
//! crash may leave of each file; each may be untold. A file that no longer changes is [`Sealed`]. What follows for
//! several changes in a row stands in `proofs`: `Steps` goes on by one change.
//!
//! The refusals of the calls above stand here too, since many crates share them.
#![tactic(auto)]

mod bytes;
mod conversions;
mod counting;
mod error;
mod memory;
mod schedule;
mod sealed;
mod sink;
mod source;
mod vault;

pub use bytes::Bytes;
pub use counting::{Counting, NoReads};
pub use error::{
    BuildError, Failed, NoMemory, Refused, SinkError, SourceError, StoreError, VaultError, What,
};
pub use memory::{SliceSource, SteadySink, SteadySource, VecSink};
pub use sealed::Sealed;
pub use sink::{Sink, WriteSink};
pub use source::{ReadSource, Source};
pub use vault::Vault;
