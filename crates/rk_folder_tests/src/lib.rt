//! Tests of vaults in a folder, on the files of a test's own folder.
#![tactic(auto)]

#[cfg(test)]
mod folders;
