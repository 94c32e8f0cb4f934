//! Laws of the rule, which every step of the lock keeps.
ghost use Rattle.rk_lock.specs.Laws.{LastHasAll, OneHistory, TicketsApart};

use crate::kept::Kept;
use crate::turn::{Pass, Turn};

/// The passes of a lock have one origin, and have seen beginnings of one history, whose events have the tickets 0, 1, ..
pub fn passes_see_one_history<T: Kept>()
    ensures { OneHistory T.ticket T.stands }
{}

/// No ticket belongs to two passes of a lock.
pub fn tickets_are_apart<T: Kept>()
    ensures { TicketsApart T.ticket T.stands }
{}

/// Where the first pass of a lock is outside and every pass split from it was taken back, no pass is inside, and it has
/// every ticket that was drawn and that an event carries.
pub fn the_last_pass_has_all<T: Kept>()
    ensures { LastHasAll T.ticket T.stands }
{}

fn crosses<X: Send>() {}

fn is_shared<X: Sync>() {}

/// A lock may be moved to another thread and shared with it, and a pass may be moved.
pub fn locks_and_passes_cross_threads<T: Kept>() {
    crosses::<Turn<T>>();
    is_shared::<Turn<T>>();
    crosses::<Pass<T>>();
}
