//! Tests of the iterator over chunks.
//!
//! A contract says what a move shows where it finds memory. These tests show that with ample memory each public call
//! does so, on rows worked out by hand, and that it shows the same wherever its entries are cut into chunks, which is
//! what the evaluator of the definitions shows.
#![tactic(auto)]

#[cfg(test)]
mod chunks;
#[cfg(test)]
mod cuts;
#[cfg(test)]
mod many;
#[cfg(test)]
mod rows;
#[cfg(test)]
mod session;
