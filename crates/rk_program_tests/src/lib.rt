//! Tests of batches, of command files and of the program, through their public calls: what no clause says, and each call
//! once with ample memory. It stands on `rk_batch`, `rk_script` and `rk_program`, and on `rk_key` and `rk_outside` for what
//! these are given.
#![tactic(auto)]

#[cfg(test)]
mod batches;
#[cfg(test)]
mod ends;
#[cfg(test)]
mod files;
#[cfg(test)]
mod limits;
#[cfg(test)]
mod many;
#[cfg(test)]
mod names;
#[cfg(test)]
mod transcripts;
