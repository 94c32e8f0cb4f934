//! Tests of sources over lists in memory and of what they stand on: lists, cells, fragments, chunks and memtables.
//!
//! A contract says what a call answers where it finds memory. These tests show that with ample memory each public
//! call does so, on rows worked out by hand. They stand above what they test, so that no crate is proved twice for
//! its tests.
#![tactic(auto)]

#[cfg(test)]
mod cells;
#[cfg(test)]
mod fragments;
#[cfg(test)]
mod lists;
#[cfg(test)]
mod memory;
#[cfg(test)]
mod walks;
