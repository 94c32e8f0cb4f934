//! Tests of the opening of a store, on the literal bytes of its files and over the images of crashes. They stand above
//! `rk_opening`, so that it is not proved twice for its tests.
#![tactic(auto)]

#[cfg(test)]
mod appends;
#[cfg(test)]
mod crashes;
#[cfg(test)]
mod files;
