//! Tests of what an iterator is inside, over sources that refuse.
//!
//! A contract says that a refused move leaves all that is lent. These tests show that it is refused at each call of a
//! source that is, with the cause of that call, and that the walk then goes on as if there had been none.
#![tactic(auto)]

#[cfg(test)]
mod refusals;
#[cfg(test)]
mod refusing;
