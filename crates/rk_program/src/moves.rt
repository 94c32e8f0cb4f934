// The moves of iterators.
ghost use Rattle.std.specs.Prelude.{IfOk};
ghost use Rattle.rk_laws.specs.SameCells.{SeeksKey};
ghost use Rattle.rk_iter.specs.Iterating.{Moves};
ghost use Rattle.rk_program.specs.Asked.{move_of};

use rk_iter::Iter;
use rk_key::UserKey;
use rk_outside::SourceError;

/// A move that a line asks for.
#[derive(Clone, Copy, Debug)]
pub(crate) enum Move<'a> {
    First,
    Last,
    Next,
    Prev,
    SeekGe(&'a UserKey),
    SeekLt(&'a UserKey),
}

impl<'a> Move<'a> {
    /// Makes the move with an iterator, and answers whether it is at a key then.
    ///
    /// # Errors
    ///
    /// `Memory` where what the iterator shows finds none. It stays as it was.
    pub(crate) fn make(self, iter: &mut Iter) -> Result<bool, SourceError>
        ensures moves { Moves iter.old iter.new (move_of self.entry) result }
        ensures keyed { SeeksKey (move_of self.entry) }
    {
        match self {
            Move::First => iter.first(),
            Move::Last => iter.last(),
            Move::Next => iter.next(),
            Move::Prev => iter.prev(),
            Move::SeekGe(key) => iter.seek_ge(key),
            Move::SeekLt(key) => iter.seek_lt(key),
        }
    }
}
