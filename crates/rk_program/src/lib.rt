//! The program `rkrange`, over any source, sink and vault.
//!
//! It stands on rk_script, which reads command files, on rk_batch for each writer's batch, on rk_memstore, the store in
//! memory, on rk_iter for its iterators, on rk_iter_laws, by which these are where the machine's are, on the definitions of
//! rk_machine, and on rk_model, rk_key and rk_outside. Its main contract is that of `run`: what is written is the
//! transcript of a run of the machine over the lines of the file, each position what the whole operations up to the
//! iterator's number give, and each way to end has its cause. A file that may be run has one transcript, and no two
//! ([`a_file_has_one_transcript`]). `run` does each line by [`Session::line`].
#![tactic(auto)]

mod batches;
mod cause;
mod input;
mod laws;
mod moves;
mod output;
mod program;
mod replies;
mod session;

pub use cause::{Cause, Ended};
pub use laws::a_file_has_one_transcript;
pub use program::run;
pub use rk_script::Why;
pub use session::{Closed, Session};
