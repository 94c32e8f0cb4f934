// Chunks, which never change.
ghost use Rattle.std.specs.Prelude.{◌≡◌, ◌++◌, length, IfOk, IsTrue};
ghost use Rattle.std.specs.Arc.{arc_value};
ghost use Rattle.rk_model.specs.Operations.{NumbersDiffer};
ghost use Rattle.rk_model.specs.Items.{are_keyed, keyed_spans};
ghost use Rattle.rk_model.specs.Sources.{are_points};
ghost use Rattle.rk_fragment.specs.Fragments.{fragments};
ghost use Rattle.rk_mem.specs.Chunks.{NumbersRise, AreNewer, points_of, ranges_of, IsChunkOf};
ghost use Rattle.rk_mem.specs.SortedOut.{AreSortedOut};

use crate::fragments::{Fragments, Ranges, fragments_of};
use crate::merge::{joined, merged};
use crate::order::{sort, split};
use crate::shared::Shared;
use rk_cell::Cell;
use rk_model::Entry;
use rk_outside::NoMemory;
use std::alloc::Global;
use std::marker::Model;
use std::sync::Arc;

/// Some entries. Contracts see the list of them: the points in order, and then the range entries. The spans that
/// the range entries are cut into are kept beside them, once they were asked for.
#[derive(Debug, Drop)]
pub struct Chunk {
    points: Vec<Shared>,
    ranges: Cell<Ranges, Fragments>,
}

impl Model for Chunk {
    ghost use Rattle.std.specs.Prelude.{List, ◌++◌};
    ghost use Rattle.rk_model.specs.declared.op.Entry.{Entry};
    ghost use Rattle.rk_mem.specs.SortedOut.{AreSortedOut};

    ghost Value = { List Entry };

    ghost view = { λ c. c.points.items ++ c.ranges };

    ghost invariant = { λ c. AreSortedOut c.points.items c.ranges };
}

impl Chunk {
    /// A chunk of these entries, which are moved into it.
    pub(crate) fn new(alloc: Global, entries: Vec<Entry>) -> Result<Chunk, NoMemory>
        requires { NumbersRise entries.items }
        ensures { IfOk result (λ chunk. IsChunkOf entries.items chunk) }
    {
        let (mut points, ranges) = split(alloc, entries)?;
        sort(&mut points)?;
        Chunk::of(alloc, points, ranges)
    }

    /// A chunk of the entries of two. It shares their points, and has copies of their range entries.
    pub(crate) fn merged(alloc: Global, older: &Chunk, newer: &Chunk) -> Result<Chunk, NoMemory>
        requires { AreNewer older.now newer.now }
        ensures { IfOk result (λ chunk. IsChunkOf (older.now ++ newer.now) chunk) }
    {
        let points = merged(alloc, older.points(), newer.points())?;
        let ranges = joined(alloc, older.ranges(), newer.ranges())?;
        Chunk::of(alloc, points, ranges)
    }

    /// A chunk of these points and range entries.
    fn of(alloc: Global, points: Vec<Shared>, ranges: Vec<Entry>) -> Result<Chunk, NoMemory>
        requires { AreSortedOut points.items ranges.items }
        ensures { IfOk result (λ chunk. chunk ≡ points.items ++ ranges.items) }
    {
        let ranges = Cell::new(alloc, Arc::new(alloc, Ranges { entries: ranges })?)?;
        Ok(Chunk { points, ranges })
    }

    /// How many entries it has.
    pub(crate) fn len(&self) -> usize
        ensures { result ≡ length self.now }
    {
        self.points.len() + self.ranges.input().entries.len()
    }

    /// Lends the points, in order.
    pub(crate) fn points(&self) -> &[Shared]
        ensures value { result.now ≡ points_of self.now }
        ensures in_order { IsTrue (are_points (points_of self.now)) }
        ensures keyed { IsTrue (are_keyed self.now) }
    {
        &self.points
    }

    /// Lends the range entries.
    pub(crate) fn ranges(&self) -> &[Entry]
        ensures value { result.now ≡ ranges_of self.now }
        ensures differ { NumbersDiffer (ranges_of self.now) }
        ensures alone { fragments (ranges_of self.now) ≡ fragments self.now }
    {
        &self.ranges.input().entries
    }

    /// The spans that the range entries are cut into. Where nobody has made them yet, they are made, and kept.
    pub(crate) fn fragments(&self, alloc: Global) -> Result<Arc<Fragments>, NoMemory>
        ensures value { IfOk result (λ spans. arc_value spans ≡ fragments self.now) }
        ensures spans { IfOk result (λ _. IsTrue (keyed_spans (fragments self.now))) }
    {
        fragments_of(alloc, &self.ranges)
    }
}
