//! Walks of iterators, for tests.
//!
//! A [`Step`] is a move, and [`Walks`] is what makes moves: the iterator over chunks, the evaluator of the definitions,
//! and what a test makes of its own. [`shown`] makes the moves of a walk, and answers what is lent behind each, a line
//! for each. [`ops_of`] reads the operations of a command file, and [`numbered`] makes entries of them.
#![tactic(auto)]

mod scripts;
mod steps;
mod text;

pub use scripts::{add_op, numbered, ops_of};
pub use steps::{Step, Walks, shown};
pub use text::{Lent, push_lent};
