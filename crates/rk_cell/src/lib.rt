//! A value that is made once of an input, and shared by all who want it.
//!
//! A [`Cell`] has an input and a place for one value that is made of it. [`Cell::look`] answers the value, where
//! there is one, and [`Cell::offer`] puts one there, where there is none. Any number of threads may do both at
//! once. Whoever filled it, and in whichever order they act, a cell shows only values that are made of its input:
//! what that means says [`MadeOf`] of the type of the values. Neither call takes memory or waits for anybody.
//!
//! It stands on `NoMemory` of `rk_outside`, and on the slot of `counted_slot`, which one may write or many may
//! read.
#![tactic(auto)]

mod cell;
mod held;
mod made_of;

pub use cell::Cell;
pub use made_of::MadeOf;
