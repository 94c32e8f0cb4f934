//! Command files: lines, words and escapes, and the reading of a file, whole or line after line.
//!
//! It stands on rk_key, rk_outside and rk_model. Its main contract is that of `Lines::next`, a cursor's step: it
//! answers the next line that the bytes of a file spell, or why it is not of the grammar. A line is first read where
//! it stands, with all its tests, and then decoded into memory of its own. `read_script` and `check_script` are loops
//! over this step: the first answers all lines, the second decodes none, and both name the first line that is not of
//! the grammar and why. The names that are live are part of the grammar. `push_escaped`
//! prints bytes as one word, and reading that word gives the bytes back.
#![tactic(auto)]

mod asked;
mod batch;
mod error;
mod escape;
mod grammar;
mod iter;
mod keys;
mod limits;
mod line;
mod lines;
mod named;
mod names;
mod read;
mod verb;
mod words;

pub use escape::{push_escaped, push_escaped_bytes, reads_back_what_is_printed};
pub use line::{Event, Line, ScriptError, Why};
pub use lines::Lines;
pub use named::{Named, find};
pub use read::{check_script, read_script};
