//! Laws of the iterator over pinned chunks and the iterators of the machine. It stands on `rk_iter`, `rk_machine` and the
//! laws of `rk_laws`.
//!
//! Its main definition: when an iterator over chunks is where one of the machine is (`IsAt`). Its laws: it is there when
//! it is opened ([`an_opened_iterator_is_in_its_place`]), and each move that is not refused leads it to where the move
//! leads the other ([`an_iterator_moves_as_the_machine_does`]).
#![tactic(auto)]

mod laws;

pub use laws::{an_iterator_moves_as_the_machine_does, an_opened_iterator_is_in_its_place};
