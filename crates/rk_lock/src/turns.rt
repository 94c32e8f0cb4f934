//! A turn: into the lock, and out of it.
ghost use Rattle.std.specs.Prelude.{◌≡◌, ◌≢◌, ℕ, ◌+◌, ◌^◌, ◌<◌, List, [], ◌∷◌, ◌++◌, length, Some, None};
ghost use Rattle.rk_lock.specs.declared.view.Stage.TheVariants.{Outside, Waiting, Called, Inside, Counted, Returned};
ghost use Rattle.rk_lock.specs.Histories.{Among, IsPrefix, IsNumbered};
ghost use Rattle.rk_lock.specs.Views.{at, counted, drawn, kept_of, ticket_of};
ghost use Rattle.rk_lock.specs.Plays.{StandsFrom};
ghost use Rattle.rk_lock.specs.Passes.{view, IsOf, IsOutside, IsInside, left, turn_ticket, kept, entered, Adds, IsCalled};

use crate::kept::Kept;
use crate::rule::{Count, Draw, GiveBack, Look, ServeNext, Take, Telling};
use crate::turn::{Pass, Turn};
use std::marker::Brand;
use std::sync::Wait;
use std::thread;

// The words of the table.
const NEXT: usize = 0;

const SERVED: usize = 1;

const EVENTS: usize = 2;

impl<T: Kept> Turn<T> {
    /// Waits for the pass's turn, and takes the value. It stands for a history that begins with all that the pass has seen,
    /// and the pass keeps that history while it is inside. Where 2^64 - 1 tickets were drawn, it waits for ever.
    pub fn enter(&self, rt: &impl Wait, pass: &mut Pass<T>) -> T
        requires { IsOf self.now pass.old × IsOutside pass.old }
        ensures pass { IsOf self.now pass.new × IsInside pass.new }
        ensures entered { view pass.new ≡ entered (turn_ticket pass.new) (kept pass.new) (view pass.old) }
        ensures stands { StandsFrom T.stands (view pass.old).origin result (kept pass.new) }
        ensures begins { IsPrefix (view pass.old).seen (kept pass.new) }
        ensures numbered { IsNumbered T.ticket 0 (kept pass.new) }
        ensures ticket { (turn_ticket pass.new ≡ length (kept pass.new)) × ((u : ℕ) → Among u (view pass.old).tickets → u < turn_ticket pass.new) }
    {
        let ticket = self.draw(rt, pass);
        self.wait_for(rt, pass, ticket);
        self.take(pass)
    }

    // Draws a ticket, by one compare-exchange that is tried again with the word that it found.
    fn draw(&self, rt: &impl Wait, pass: &mut Pass<T>) -> u64
        requires { IsOf self.now pass.old × IsOutside pass.old }
        ensures pass { IsOf self.now pass.new × (pass.new.seat.me.1 ≡ []) }
        ensures drawn { (view pass.new ≡ drawn result (view pass.old)) × ((u : ℕ) → Among u (view pass.old).tickets → u < result) }
    {
        let mut next = self.table.shared.peek(NEXT);
        for _ in rt.forever() {
            if next < u64::MAX {
                let found = self.draw_once(pass, next);
                if found == next {
                    return next;
                }
                next = found;
            } else {
                thread::yield_now();
            }
        }
        unreachable!()
    }

    fn draw_once(&self, pass: &mut Pass<T>, next: u64) -> u64
        requires { IsOf self.now pass.old × IsOutside pass.old × (next + 1 < 2 ^ 64) }
        ensures pass { IsOf self.now pass.new × (pass.new.seat.me.1 ≡ []) }
        ensures hit { result ≡ next → (view pass.new ≡ drawn next (view pass.old)) × ((u : ℕ) → Among u (view pass.old).tickets → u < next) }
        ensures miss { result ≢ next → view pass.new ≡ view pass.old }
    {
        self.table
            .shared
            .compare_exchange::<Draw>(&mut pass.seat, NEXT, next, next + 1)
    }

    // Waits until the ticket is served.
    fn wait_for(&self, rt: &impl Wait, pass: &mut Pass<T>, ticket: u64)
        requires { IsOf self.now pass.old × ((view pass.old).stage ≡ Waiting ticket) × (pass.old.seat.me.1 ≡ []) }
        ensures pass { IsOf self.now pass.new × (pass.new.seat.me.1 ≡ []) }
        ensures called { (kept : List T.Event) × (view pass.new ≡ at (Called ticket kept) (view pass.old)) × IsPrefix (view pass.old).seen kept × (length kept ≡ ticket) × IsNumbered T.ticket 0 kept }
    {
        for _ in rt.forever() {
            let served = self.look(pass, ticket);
            if served == ticket {
                return;
            }
            self.table
                .shared
                .park(rt, SERVED, (served % (1 << 32)) as u32);
        }
        unreachable!()
    }

    fn look(&self, pass: &mut Pass<T>, ticket: u64) -> u64
        requires { IsOf self.now pass.old × ((view pass.old).stage ≡ Waiting ticket) × (pass.old.seat.me.1 ≡ []) }
        ensures pass { IsOf self.now pass.new × (pass.new.seat.me.1 ≡ []) }
        ensures called { result ≡ ticket → (kept : List T.Event) × (view pass.new ≡ at (Called ticket kept) (view pass.old)) × IsPrefix (view pass.old).seen kept × (length kept ≡ ticket) × IsNumbered T.ticket 0 kept }
        ensures not_yet { result ≢ ticket → view pass.new ≡ view pass.old }
    {
        self.table.shared.load::<Look>(&mut pass.seat, SERVED)
    }

    // Takes the slot.
    fn take_slot(&self, pass: &mut Pass<T>)
        requires { IsOf self.now pass.old × IsCalled (view pass.old) × (pass.old.seat.me.1 ≡ []) }
        ensures pass { IsOf self.now pass.new }
        ensures taken { (x : T) × (pass.new.seat.me.1 ≡ (0, Some x) ∷ []) × StandsFrom T.stands (view pass.old).origin x (kept_of (view pass.old).stage) }
        ensures inside { view pass.new ≡ at (Inside (ticket_of (view pass.old).stage) (kept_of (view pass.old).stage)) (view pass.old) }
    {
        self.table.shared.load::<Take>(&mut pass.seat, EVENTS);
    }

    fn take(&self, pass: &mut Pass<T>) -> T
        requires { IsOf self.now pass.old × IsCalled (view pass.old) × (pass.old.seat.me.1 ≡ []) }
        ensures pass { IsOf self.now pass.new × (pass.new.seat.me.1 ≡ (0, None) ∷ []) }
        ensures inside { view pass.new ≡ at (Inside (ticket_of (view pass.old).stage) (kept_of (view pass.old).stage)) (view pass.old) }
        ensures stands { StandsFrom T.stands (view pass.old).origin result (kept_of (view pass.old).stage) }
    {
        self.take_slot(pass);
        let Some(value) = self.table.shared.exchange(&mut pass.seat, 0, None) else {
            unreachable!()
        };
        value
    }

    /// Gives the value back with one event more, and ends the turn. The event has the ticket of this turn, and the pass has
    /// then seen it.
    pub fn leave(&self, pass: &mut Pass<T>, value: T)
        ghost event: { T.Event }
        requires pass { IsOf self.now pass.old × IsInside pass.old }
        requires event { Adds T.ticket T.stands (view pass.old) value event }
        ensures pass { IsOf self.now pass.new × IsOutside pass.new }
        ensures event { view pass.new ≡ left (kept pass.old ++ event ∷ []) (view pass.old) }
    {
        self.leave_as::<Brand>(pass, value);
    }

    /// The same, where the event is only known to be there. What the caller tells of it holds of the event that the pass has
    /// then seen.
    pub fn leave_as<J: Telling<T::Event>>(&self, pass: &mut Pass<T>, value: T)
        requires pass { IsOf self.now pass.old × IsInside pass.old }
        requires event { (e : T.Event) × Adds T.ticket T.stands (view pass.old) value e × J.told e }
        ensures pass { IsOf self.now pass.new × IsOutside pass.new }
        ensures event { (e : T.Event) × Adds T.ticket T.stands (view pass.old) value e × J.told e × (view pass.new ≡ left (kept pass.old ++ e ∷ []) (view pass.old)) }
    {
        self.put(pass, value);
        self.count::<J>(pass);
        self.give_back(pass);
        self.serve_next(pass);
    }

    // Puts the value into the slot that the pass has.
    fn put(&self, pass: &mut Pass<T>, value: T)
        requires { IsOf self.now pass.old × (pass.old.seat.me.1 ≡ (0, None) ∷ []) }
        ensures pass { IsOf self.now pass.new × (view pass.new ≡ view pass.old) }
        ensures value { pass.new.seat.me.1 ≡ (0, Some value) ∷ [] }
    {
        let empty = self.table.shared.exchange(&mut pass.seat, 0, Some(value));
        let None = empty else { unreachable!() };
    }

    // Counts the event of this turn.
    fn count<J: Telling<T::Event>>(&self, pass: &mut Pass<T>)
        requires pass { IsOf self.now pass.old × ((view pass.old).stage ≡ Inside (ticket_of (view pass.old).stage) (kept_of (view pass.old).stage)) }
        requires event { (x : T) × (pass.old.seat.me.1 ≡ (0, Some x) ∷ []) × ((e : T.Event) × Adds T.ticket T.stands (view pass.old) x e × J.told e) }
        ensures pass { IsOf self.now pass.new × (pass.new.seat.me.1 ≡ pass.old.seat.me.1) }
        ensures event { (x : T) → pass.old.seat.me.1 ≡ (0, Some x) ∷ [] → (e : T.Event) × Adds T.ticket T.stands (view pass.old) x e × J.told e × (view pass.new ≡ counted (ticket_of (view pass.old).stage) (kept_of (view pass.old).stage ++ e ∷ []) (view pass.old)) }
    {
        self.table
            .shared
            .fetch_add::<Count<J>>(&mut pass.seat, EVENTS, 1);
    }

    // Puts the value back into the table.
    fn give_back(&self, pass: &mut Pass<T>)
        requires pass { IsOf self.now pass.old × ((view pass.old).stage ≡ Counted (ticket_of (view pass.old).stage)) }
        requires value { (x : T) × (pass.old.seat.me.1 ≡ (0, Some x) ∷ []) × StandsFrom T.stands (view pass.old).origin x (view pass.old).seen }
        ensures pass { IsOf self.now pass.new × (pass.new.seat.me.1 ≡ []) }
        ensures back { view pass.new ≡ at (Returned (ticket_of (view pass.old).stage)) (view pass.old) }
    {
        self.table.shared.load::<GiveBack>(&mut pass.seat, EVENTS);
    }

    // Serves the next ticket, and wakes those that wait.
    fn serve_next(&self, pass: &mut Pass<T>)
        requires { IsOf self.now pass.old × ((view pass.old).stage ≡ Returned (ticket_of (view pass.old).stage)) × (pass.old.seat.me.1 ≡ []) }
        ensures pass { IsOf self.now pass.new × (pass.new.seat.me.1 ≡ []) }
        ensures outside { view pass.new ≡ at Outside (view pass.old) }
    {
        self.table
            .shared
            .fetch_add::<ServeNext>(&mut pass.seat, SERVED, 1);
        self.table.shared.wake_all(SERVED);
    }
}
