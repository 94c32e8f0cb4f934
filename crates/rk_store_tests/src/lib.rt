//! Tests of what a store keeps: vaults in memory, journals and versions over them, where calls fail and crashes come, and
//! the lock and its turns.
//!
//! A contract says what a call answers where it finds memory. These tests show that with ample memory each public
//! call does so, on rows worked out by hand, and that threads get on. They stand above what they test, so that no crate
//! is proved twice for its tests.
#![tactic(auto)]

#[cfg(test)]
mod damage;
#[cfg(test)]
mod journals;
#[cfg(test)]
mod manifests;
#[cfg(test)]
mod turns;
#[cfg(test)]
mod vaults;
#[cfg(test)]
mod versions;
