//! Tests of the parts that the store is made of: keys, what stands outside, the evaluator, the cover after an
//! operation, covers and stripes, and masks.
//!
//! A contract says what a call answers where it finds memory. These tests show that with ample memory each public
//! call does so, on rows worked out by hand. They stand above what they test, so that no crate is proved twice for
//! its tests.
#![tactic(auto)]

#[cfg(test)]
mod covers;
#[cfg(test)]
mod evaluator;
#[cfg(test)]
mod keys;
#[cfg(test)]
mod laws;
#[cfg(test)]
mod masks;
#[cfg(test)]
mod outside;
