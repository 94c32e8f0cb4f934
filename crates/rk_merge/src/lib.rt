//! The law of merging sorted lists: unions of lists, and lists cut where a test begins to fail. And what several
//! sources have in common that are moved together.
//!
//! It stands on the entries and sources of `rk_model`, with the keys of `rk_key`, and is definitions and proofs alone:
//! those of `specs/Unions` and `specs/Cuts`, the laws of unions in `specs/Laws`, and in `specs/Pools` what several
//! sources list, what they may name, and sums over them. The contracts of the crates above name them.
#![tactic(auto)]
