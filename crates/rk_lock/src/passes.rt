//! Passes, split off and taken back, and the end of a lock.
ghost use Rattle.std.specs.Prelude.{◌≡◌, ℕ, ◌<◌, ◌≤◌, [], length, Some};
ghost use Rattle.rk_lock.specs.Histories.{Among, IsPrefix, IsNumbered};
ghost use Rattle.rk_lock.specs.Views.{compared, joined, split_from, split_off};
ghost use Rattle.rk_lock.specs.Plays.{StandsFrom};
ghost use Rattle.rk_lock.specs.Passes.{view, IsOf, IsOutside};

use crate::kept::Kept;
use crate::rule::{Compare, SplitOff, TakeBack};
use crate::turn::{Pass, Turn};

impl<T: Kept> Turn<T> {
    /// A second pass, with the same origin, which has seen the same. The first notes its name.
    pub fn split(&self, pass: &mut Pass<T>) -> Pass<T>
        requires { IsOf self.now pass.old × IsOutside pass.old }
        ensures pass { IsOf self.now pass.new × IsOutside pass.new × (view pass.new ≡ split_from (view pass.old)) }
        ensures new { IsOf self.now result × IsOutside result × (view result ≡ split_off (view pass.old)) }
    {
        let seat = self.table.shared.split_seat::<SplitOff>(&mut pass.seat);
        Pass { seat }
    }

    /// Takes a pass back that was split from this one, or from one that it took back. It keeps the longer of the two
    /// histories, and both begin it. The tickets of the other, and the names that it noted, go over.
    pub fn join(&self, pass: &mut Pass<T>, other: Pass<T>)
        requires pass { IsOf self.now pass.old × IsOutside pass.old }
        requires other { IsOf self.now other × IsOutside other }
        requires split { Among (view other).name (view pass.old).out }
        ensures pass { IsOf self.now pass.new × IsOutside pass.new }
        ensures joined { view pass.new ≡ compared (joined (view pass.old) (view other)) }
        ensures longer { IsPrefix (view pass.old).seen (view pass.new).seen × IsPrefix (view other).seen (view pass.new).seen }
    {
        self.take_back(pass, other);
        self.compare(pass);
    }

    fn take_back(&self, pass: &mut Pass<T>, other: Pass<T>)
        requires pass { IsOf self.now pass.old × IsOutside pass.old }
        requires other { IsOf self.now other × IsOutside other }
        requires split { Among (view other).name (view pass.old).out }
        ensures pass { IsOf self.now pass.new × IsOutside pass.new }
        ensures joined { view pass.new ≡ joined (view pass.old) (view other) }
    {
        let Pass { seat } = other;
        self.table
            .shared
            .join_seat::<TakeBack>(&mut pass.seat, seat);
    }

    fn compare(&self, pass: &mut Pass<T>)
        requires { IsOf self.now pass.old × IsOutside pass.old × (length (view pass.old).noted ≤ length (view pass.old).seen) }
        ensures pass { IsOf self.now pass.new × IsOutside pass.new }
        ensures compared { (view pass.new ≡ compared (view pass.old)) × IsPrefix (view pass.old).noted (view pass.old).seen }
    {
        self.table.shared.load::<Compare>(&mut pass.seat, 1);
    }

    /// Ends the lock, with the pass that `new` made, once every pass that was split off is back. No pass is then inside.
    /// The value stands for what the pass has seen, which is the whole history: its tickets are those below its length,
    /// and each event has one of them.
    pub fn close(self, pass: Pass<T>) -> T
        requires pass { IsOf self pass × IsOutside pass }
        requires alone { ((view pass).name ≡ []) × ((view pass).out ≡ []) }
        ensures stands { StandsFrom T.stands (view pass).origin result (view pass).seen }
        ensures tickets { (t : ℕ) → (t < length (view pass).seen → Among t (view pass).tickets) × (Among t (view pass).tickets → t < length (view pass).seen) }
        ensures numbered { IsNumbered T.ticket 0 (view pass).seen }
        ensures events { (e : T.Event) → Among e (view pass).seen → Among (T.ticket e) (view pass).tickets }
    {
        let Turn { table } = self;
        let Pass { seat } = pass;
        let mut closed = table.close_with(seat);
        let Some(value) = closed.take(0) else {
            unreachable!()
        };
        closed.free();
        value
    }
}
