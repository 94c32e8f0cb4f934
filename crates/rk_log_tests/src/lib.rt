//! Tests of the logs of a store, through their public calls, on rows worked out by hand. They stand above `rk_log`, so that it
//! is not proved twice for its tests.
#![tactic(auto)]

#[cfg(test)]
mod logs;
#[cfg(test)]
mod pending;
