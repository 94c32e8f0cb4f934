//! How numbers and pieces are read at the front of bytes, and small words on answers and lists: what the grammars of
//! several files have in common.
//!
//! It stands on the numbers of `byteorder`, and has no code: the grammars of the crates above name the definitions of
//! `specs/Pieces`, and their proofs the laws of `proofs/Fields`, that what is read is spelled so and the other way round.
#![tactic(auto)]
