//! Tests of the store in memory through its public calls: worked rows of memtables and of snapshots. It stands on
//! `rk_memstore`, on `rk_batch` for what is committed, and on `rk_outside` for its refusals.
#![tactic(auto)]

#[cfg(test)]
mod memtables;
#[cfg(test)]
mod snapshots;
#[cfg(test)]
mod stores;
