// The moves of an interleaver.
ghost use Rattle.std.specs.Prelude.{◌≡◌, IsTrue, Some, None, Ok, if◌then◌else◌};
ghost use Rattle.rk_model.specs.Moves.{First, Last, Next, Prev, SeekGe, SeekLt, key_at};
ghost use Rattle.rk_interleave.specs.Interleaving.{Moves, Reads};
ghost use Rattle.rk_interleave.specs.Standing.{GoesTo, arrived, cut_from, step_key};

use crate::interleave::Interleave;
use crate::travel::{arrive, arrive_to, is_in_bounds, travel_below, travel_from, travel_to};
use rk_key::UserKey;
use rk_model::{Cursor, Entry, PointSource, Sorted, Source, Span, SpanSource};
use rk_outside::{Counting, SourceError};

impl<P: Sorted<Item = Entry>, S: Sorted<Item = Span>> Interleave<P, S> {
    /// Moves to the first position, or to the end. The answer is whether there is one.
    ///
    /// # Errors
    ///
    /// As of a source. What is lent stays.
    pub fn first<R: Counting>(&mut self, reader: &mut R) -> Result<bool, SourceError>
    where
        P: PointSource<R>,
        S: SpanSource<R>,
        ensures moves { Moves P.listing S.listing self.old self.new First result }
        ensures reads { Reads P.listing S.listing self.old (R.counts reader.old) (R.counts reader.new) result }
    {
        self.go(reader, false, true)
    }

    /// Moves to the last position, or to the start. The answer is whether there is one.
    ///
    /// # Errors
    ///
    /// As of a source. What is lent stays.
    pub fn last<R: Counting>(&mut self, reader: &mut R) -> Result<bool, SourceError>
    where
        P: PointSource<R>,
        S: SpanSource<R>,
        ensures moves { Moves P.listing S.listing self.old self.new Last result }
        ensures reads { Reads P.listing S.listing self.old (R.counts reader.old) (R.counts reader.new) result }
    {
        self.go(reader, false, false)
    }

    /// Moves to the next position, or to the end. From no position yet, and from the start, it is the first. The answer
    /// is whether there is one.
    ///
    /// # Errors
    ///
    /// As of a source. What is lent stays.
    pub fn next<R: Counting>(&mut self, reader: &mut R) -> Result<bool, SourceError>
    where
        P: PointSource<R>,
        S: SpanSource<R>,
        ensures moves { Moves P.listing S.listing self.old self.new Next result }
        ensures reads { Reads P.listing S.listing self.old (R.counts reader.old) (R.counts reader.new) result }
    {
        match self.lent.cursor() {
            Cursor::End => Ok(self.leave(Cursor::End)),
            _ => self.go(reader, true, true),
        }
    }

    /// Moves to the position before, or to the start. From no position yet, and from the end, it is the last. The
    /// answer is whether there is one.
    ///
    /// # Errors
    ///
    /// As of a source. What is lent stays.
    pub fn prev<R: Counting>(&mut self, reader: &mut R) -> Result<bool, SourceError>
    where
        P: PointSource<R>,
        S: SpanSource<R>,
        ensures moves { Moves P.listing S.listing self.old self.new Prev result }
        ensures reads { Reads P.listing S.listing self.old (R.counts reader.old) (R.counts reader.new) result }
    {
        match self.lent.cursor() {
            Cursor::Start => Ok(self.leave(Cursor::Start)),
            _ => self.go(reader, true, false),
        }
    }

    /// Moves to the key where a span is over it, and else to the first position not below it, or to the end.
    /// A key below the lower bound is raised to it, and from the upper bound on there is only the end. The answer is
    /// whether it is at a key then.
    ///
    /// # Errors
    ///
    /// As of a source. What is lent stays.
    pub fn seek_ge<R: Counting>(
        &mut self,
        reader: &mut R,
        key: &UserKey,
    ) -> Result<bool, SourceError>
    where
        P: PointSource<R>,
        S: SpanSource<R>,
        ensures moves { Moves P.listing S.listing self.old self.new (SeekGe key.now) result }
        ensures reads { Reads P.listing S.listing self.old (R.counts reader.old) (R.counts reader.new) result }
    {
        if !is_in_bounds(&self.options, key) {
            return Ok(self.leave(Cursor::End));
        }
        self.facing = None;
        let inside = travel_to(
            &mut self.points,
            &mut self.spans,
            reader,
            &self.options,
            key,
        )?;
        let there = arrive_to::<R, P, S>(
            &mut self.lent,
            &self.points,
            &self.spans,
            &self.options,
            inside,
            key,
        )?;
        self.facing = facing_if(there, true);
        Ok(there)
    }

    /// Moves to the last position below the key, or to the start. A key above the upper bound is lowered to it.
    ///
    /// # Errors
    ///
    /// As of a source. What is lent stays.
    pub fn seek_lt<R: Counting>(
        &mut self,
        reader: &mut R,
        key: &UserKey,
    ) -> Result<bool, SourceError>
    where
        P: PointSource<R>,
        S: SpanSource<R>,
        ensures moves { Moves P.listing S.listing self.old self.new (SeekLt key.now) result }
        ensures reads { Reads P.listing S.listing self.old (R.counts reader.old) (R.counts reader.new) result }
    {
        self.facing = None;
        let begun = travel_below(
            &mut self.points,
            &mut self.spans,
            reader,
            &self.options,
            key,
        )?;
        let there = arrive::<R, P, S>(
            &mut self.lent,
            &self.points,
            &self.spans,
            &self.options,
            false,
            begun,
            None,
        )?;
        self.facing = facing_if(there, false);
        Ok(there)
    }

    // To the nearest position on from the cursor, for a step, or from where the direction begins.
    fn go<R: Counting>(
        &mut self,
        reader: &mut R,
        steps: bool,
        forward: bool,
    ) -> Result<bool, SourceError>
    where
        P: Source<R>,
        S: Source<R>,
        ensures goes { GoesTo P.listing S.listing self.old self.new (λ es. arrived forward (cut_from forward (step_key steps self.old.cursor)) es self.old.options) result }
        ensures reads { Reads P.listing S.listing self.old (R.counts reader.old) (R.counts reader.new) result }
    {
        let passes = goes_on(steps, self.facing, forward);
        self.facing = None;
        let from = self.lent.step_key(steps);
        let begun = travel_from(
            &mut self.points,
            &mut self.spans,
            reader,
            &self.options,
            from,
            forward,
            passes,
        )?;
        let there = arrive::<R, P, S>(
            &mut self.lent,
            &self.points,
            &self.spans,
            &self.options,
            forward,
            begun,
            None,
        )?;
        self.facing = facing_if(there, forward);
        Ok(there)
    }

    // To no key. The answer is that it is at none.
    fn leave(&mut self, cursor: Cursor) -> bool
        requires { key_at cursor ≡ None }
        ensures goes { GoesTo P.listing S.listing self.old self.new (λ es. cursor) (Ok result) }
    {
        self.facing = None;
        self.lent.leave(cursor);
        false
    }
}

// The sources face a direction where there is a key.
fn facing_if(there: bool, forward: bool) -> Option<bool>
    ensures { result ≡ (if there then Some forward else None) }
{
    if there { Some(forward) } else { None }
}

// A step goes on from where the sources face its direction.
fn goes_on(steps: bool, facing: Option<bool>, forward: bool) -> bool
    ensures { IsTrue result → IsTrue steps × (facing ≡ Some forward) }
{
    steps && facing == Some(forward)
}
