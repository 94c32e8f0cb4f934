//! Tests of sources over sources: merged points and what is visible of them, merged spans, both also over a source
//! that reads blocks, and sources cut at bounds.
//!
//! A contract says what a call answers where it finds memory. These tests show that with ample memory each public
//! call does so, on rows worked out by hand. They stand above what they test, so that no crate is proved twice for
//! its tests.
#![tactic(auto)]

#[cfg(test)]
mod blocks;
#[cfg(test)]
mod bounds;
#[cfg(test)]
mod paged;
#[cfg(test)]
mod points;
#[cfg(test)]
mod spans;
#[cfg(test)]
mod walks;
