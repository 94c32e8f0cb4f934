//! Sources of points and of spans: what a chunk, a table, a level or a merge is to what stands above it.
ghost use Rattle.std.specs.Prelude.{◌≡◌, ◌<◌, IsSome, Some, OnOk, true, false};
ghost use Rattle.std.specs.Option.{option_map};
ghost use Rattle.rk_model.specs.Cuts.{count_before};
ghost use Rattle.rk_model.specs.Items.{point_takes, span_takes};
ghost use Rattle.rk_model.specs.Standings.{Leads, Costs, step_gap, step_from, step_to};
ghost use Rattle.rk_model.specs.declared.cut.Cut.TheVariants.{Below};

use crate::{Cut, Entry, Source, Span};
use rk_key::UserKey;
use rk_outside::{Counting, SourceError};

/// A source of points, with its calls in their usual names.
///
/// # Errors
///
/// Of every call: as of [`Source`].
pub trait PointSource<R: Counting>: Source<R, Item = Entry> {
    /// Goes to the gap before the first entry whose key is not below the key, and sees it.
    fn seek_ge(&mut self, reader: &mut R, key: &UserKey) -> Result<(), SourceError>
        ensures leads { Leads (Self.listing self.old) (Self.listing self.new) (Self.standing self.new) true (λ xs. Some (count_before (point_takes (Below key.now)) xs)) result }
        ensures costs { Costs (Self.listing self.old) (Self.standing self.old).owed (Self.standing self.new).owed (R.counts reader.old) (R.counts reader.new) 0 ((Self.listing self.old).seek_price true (Below key.now)) result }
    {
        self.seek(reader, Cut::Below(key), true)
    }

    /// Goes to the gap behind the last entry whose key is below the key, and sees it.
    fn seek_lt(&mut self, reader: &mut R, key: &UserKey) -> Result<(), SourceError>
        ensures leads { Leads (Self.listing self.old) (Self.listing self.new) (Self.standing self.new) false (λ xs. Some (count_before (point_takes (Below key.now)) xs)) result }
        ensures costs { Costs (Self.listing self.old) (Self.standing self.old).owed (Self.standing self.new).owed (R.counts reader.old) (R.counts reader.new) 0 ((Self.listing self.old).seek_price false (Below key.now)) result }
    {
        self.seek(reader, Cut::Below(key), false)
    }

    /// Goes one entry on, or turns forward.
    fn next(&mut self, reader: &mut R) -> Result<(), SourceError>
        requires { IsSome (Self.standing self.old).here }
        ensures leads { Leads (Self.listing self.old) (Self.listing self.new) (Self.standing self.new) true (λ xs. option_map (step_gap true (Self.standing self.old)) (Self.standing self.old).gap) result }
        ensures costs { Costs (Self.listing self.old) (Self.standing self.old).owed (Self.standing self.new).owed (R.counts reader.old) (R.counts reader.new) (step_from (Self.listing self.old) true (Self.standing self.old)) (step_to (Self.listing self.old) true (Self.standing self.old)) result }
        ensures fewer { OnOk result ((Self.standing self.old).forward ≡ true → (Self.standing self.new).left < (Self.standing self.old).left) }
    {
        self.step(reader, true)
    }

    /// Goes one entry back, or turns backward.
    fn prev(&mut self, reader: &mut R) -> Result<(), SourceError>
        requires { IsSome (Self.standing self.old).here }
        ensures leads { Leads (Self.listing self.old) (Self.listing self.new) (Self.standing self.new) false (λ xs. option_map (step_gap false (Self.standing self.old)) (Self.standing self.old).gap) result }
        ensures costs { Costs (Self.listing self.old) (Self.standing self.old).owed (Self.standing self.new).owed (R.counts reader.old) (R.counts reader.new) (step_from (Self.listing self.old) false (Self.standing self.old)) (step_to (Self.listing self.old) false (Self.standing self.old)) result }
        ensures fewer { OnOk result ((Self.standing self.old).forward ≡ false → (Self.standing self.new).left < (Self.standing self.old).left) }
    {
        self.step(reader, false)
    }
}

impl<R: Counting, S: Source<R, Item = Entry>> PointSource<R> for S {}

/// A source of spans, with its calls in their usual names.
///
/// # Errors
///
/// Of every call: as of [`Source`].
pub trait SpanSource<R: Counting>: Source<R, Item = Span> {
    /// Goes to the gap before the first span whose end is above the key, and sees it.
    fn seek_ge(&mut self, reader: &mut R, key: &UserKey) -> Result<(), SourceError>
        ensures leads { Leads (Self.listing self.old) (Self.listing self.new) (Self.standing self.new) true (λ xs. Some (count_before (span_takes true (Below key.now)) xs)) result }
        ensures costs { Costs (Self.listing self.old) (Self.standing self.old).owed (Self.standing self.new).owed (R.counts reader.old) (R.counts reader.new) 0 ((Self.listing self.old).seek_price true (Below key.now)) result }
    {
        self.seek(reader, Cut::Below(key), true)
    }

    /// Goes to the gap behind the last span whose start is below the key, and sees it.
    fn seek_lt(&mut self, reader: &mut R, key: &UserKey) -> Result<(), SourceError>
        ensures leads { Leads (Self.listing self.old) (Self.listing self.new) (Self.standing self.new) false (λ xs. Some (count_before (span_takes false (Below key.now)) xs)) result }
        ensures costs { Costs (Self.listing self.old) (Self.standing self.old).owed (Self.standing self.new).owed (R.counts reader.old) (R.counts reader.new) 0 ((Self.listing self.old).seek_price false (Below key.now)) result }
    {
        self.seek(reader, Cut::Below(key), false)
    }

    /// Goes one span on, or turns forward.
    fn next(&mut self, reader: &mut R) -> Result<(), SourceError>
        requires { IsSome (Self.standing self.old).here }
        ensures leads { Leads (Self.listing self.old) (Self.listing self.new) (Self.standing self.new) true (λ xs. option_map (step_gap true (Self.standing self.old)) (Self.standing self.old).gap) result }
        ensures costs { Costs (Self.listing self.old) (Self.standing self.old).owed (Self.standing self.new).owed (R.counts reader.old) (R.counts reader.new) (step_from (Self.listing self.old) true (Self.standing self.old)) (step_to (Self.listing self.old) true (Self.standing self.old)) result }
        ensures fewer { OnOk result ((Self.standing self.old).forward ≡ true → (Self.standing self.new).left < (Self.standing self.old).left) }
    {
        self.step(reader, true)
    }

    /// Goes one span back, or turns backward.
    fn prev(&mut self, reader: &mut R) -> Result<(), SourceError>
        requires { IsSome (Self.standing self.old).here }
        ensures leads { Leads (Self.listing self.old) (Self.listing self.new) (Self.standing self.new) false (λ xs. option_map (step_gap false (Self.standing self.old)) (Self.standing self.old).gap) result }
        ensures costs { Costs (Self.listing self.old) (Self.standing self.old).owed (Self.standing self.new).owed (R.counts reader.old) (R.counts reader.new) (step_from (Self.listing self.old) false (Self.standing self.old)) (step_to (Self.listing self.old) false (Self.standing self.old)) result }
        ensures fewer { OnOk result ((Self.standing self.old).forward ≡ false → (Self.standing self.new).left < (Self.standing self.old).left) }
    {
        self.step(reader, false)
    }
}

impl<R: Counting, S: Source<R, Item = Span>> SpanSource<R> for S {}
