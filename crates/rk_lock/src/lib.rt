//! A ticket lock that keeps the history of its value. It stands on `atomic_table` alone.
//!
//! `Turn` holds a value that one caller at a time has. A caller draws a ticket, waits until its number is served, has the
//! value, and gives it back with one event more. A caller's `Pass` knows the history that it has seen. So each turn is
//! one event, and all events stand in one history, which the value stands for (`Kept`): what `enter` hands out stands for
//! a history that begins with all that the pass has seen, and after `leave` the pass has seen that history and the event.
#![tactic(auto)]

mod kept;
mod laws;
mod making;
mod passes;
mod rule;
mod turn;
mod turns;
mod view;

pub use kept::Kept;
pub use laws::{
    locks_and_passes_cross_threads, passes_see_one_history, the_last_pass_has_all,
    tickets_are_apart,
};
pub use rule::Telling;
pub use turn::{NoRoom, Pass, Turn};
pub use view::{Stage, View};
