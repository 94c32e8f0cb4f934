// An iterator over pinned chunks.
ghost use Rattle.std.specs.Prelude.{◌≡◌, [], is_some, false, IfOk, IfSome, MatchOption, None};
ghost use Rattle.std.specs.Option.{option_copied, option_map_or};
ghost use Rattle.rk_key.specs.Keys.{IsKey};
ghost use Rattle.rk_laws.specs.SameCells.{KeyBounds};
ghost use Rattle.rk_model.specs.Moves.{First, Last, Next, Prev, SeekGe, SeekLt, key_at};
ghost use Rattle.rk_model.specs.declared.cursor.Cursor.TheVariants.{Fresh};
ghost use Rattle.rk_iter.specs.Iterating.{Moves};

use crate::chunks::{points_of, spans_of};
use crate::inside::{Inside, open_over};
use rk_key::UserKey;
use rk_mem::{ChunkPoints, ChunkSpans, MemPins};
use rk_model::{Cursor, IterOptions, SuffixValue};
use rk_outside::{Counting, NoMemory, NoReads, SourceError};
use std::alloc::Global;
use std::marker::Model;

/// An iterator over pinned chunks, up to their number. Contracts see an iterator of the definitions over the entries
/// of all chunks, if over each key no two of these have one number. It reads nothing, and whatever becomes of the
/// memtable that was pinned, it shows the same.
#[derive(Debug, Drop)]
pub struct Iter {
    pins: MemPins,
    inside: Inside<ChunkPoints, ChunkSpans>,
    reader: NoReads,
}

impl Model for Iter {
    ghost use Rattle.rk_iter.specs.Iterating.{Iterating};
    ghost use Rattle.rk_iter.specs.Inside.{IsInside, listed_points, listed_spans};

    ghost Value = { Iterating };

    ghost view = { λ it. record { chunks = it.pins.chunks; number = it.pins.number; options = it.inside.options; cursor = it.inside.cursor; value = it.inside.value; span = it.inside.span; changed = it.inside.changed } };

    ghost invariant = { λ it. IsInside it.pins.chunks it.pins.number it.inside.options (listed_points it.inside.points) (listed_spans it.inside.spans) it.inside.cursor };
}

// The bounds are keys.
fn are_keys(options: &IterOptions)
    ensures { KeyBounds options.now }
{
    is_key(&options.lower);
    is_key(&options.upper);
}

// So is each: a key says so where it lends its bytes.
fn is_key(bound: &Option<UserKey>)
    ensures { IfSome bound.now IsKey }
{
    if let Some(key) = bound {
        let _bytes = key.bytes();
    }
}

impl Iter {
    /// Opens an iterator over these chunks, up to their number. It has not moved.
    ///
    /// # Errors
    ///
    /// `NoMemory` where a bound, a source or the spans of a chunk find no memory.
    pub fn open(alloc: Global, pins: MemPins, options: &IterOptions) -> Result<Iter, NoMemory>
        ensures opened { IfOk result (λ it. it ≡ record { chunks = pins.chunks; number = pins.number; options = options.now; cursor = Fresh; value = None; span = None; changed = false }) }
        ensures bounds { IfOk result (λ _. KeyBounds options.now) }
    {
        are_keys(options);
        let points = points_of(alloc, &pins.chunks)?;
        let spans = spans_of(alloc, &pins.chunks)?;
        let inside = open_over(alloc, points, spans, pins.number, options)?;
        Ok(Iter {
            pins,
            inside,
            reader: NoReads,
        })
    }

    /// Moves to the first position, or to the end. The answer is whether there is one.
    ///
    /// # Errors
    ///
    /// `Memory` where what it shows finds no memory. It stays as it was.
    pub fn first(&mut self) -> Result<bool, SourceError>
        ensures moves { Moves self.old self.new First result }
    {
        self.inside.first(&mut self.reader)
    }

    /// Moves to the last position, or to the start. The answer is whether there is one.
    ///
    /// # Errors
    ///
    /// `Memory` where what it shows finds no memory. It stays as it was.
    pub fn last(&mut self) -> Result<bool, SourceError>
        ensures moves { Moves self.old self.new Last result }
    {
        self.inside.last(&mut self.reader)
    }

    /// Moves to the next position, or to the end. From no position yet, and from the start, it is the first. The answer
    /// is whether there is one.
    ///
    /// # Errors
    ///
    /// `Memory` where what it shows finds no memory. It stays as it was.
    pub fn next(&mut self) -> Result<bool, SourceError>
        ensures moves { Moves self.old self.new Next result }
    {
        self.inside.next(&mut self.reader)
    }

    /// Moves to the position before, or to the start. From no position yet, and from the end, it is the last. The
    /// answer is whether there is one.
    ///
    /// # Errors
    ///
    /// `Memory` where what it shows finds no memory. It stays as it was.
    pub fn prev(&mut self) -> Result<bool, SourceError>
        ensures moves { Moves self.old self.new Prev result }
    {
        self.inside.prev(&mut self.reader)
    }

    /// Moves to the key where a span is over it, and else to the first position not below it, or to the end.
    /// A key below the lower bound is raised to it, and from the upper bound on there is only the end. The answer is
    /// whether it is at a key then.
    ///
    /// # Errors
    ///
    /// `Memory` where what it shows finds no memory. It stays as it was.
    pub fn seek_ge(&mut self, key: &UserKey) -> Result<bool, SourceError>
        ensures moves { Moves self.old self.new (SeekGe key.now) result }
        ensures keyed { IsKey key.now }
    {
        // That it is a key is what it says when it lends its bytes.
        let _bytes = key.bytes();
        self.inside.seek_ge(&mut self.reader, key)
    }

    /// Moves to the last position below the key, or to the start. The answer is whether there is one.
    ///
    /// # Errors
    ///
    /// `Memory` where what it shows finds no memory. It stays as it was.
    pub fn seek_lt(&mut self, key: &UserKey) -> Result<bool, SourceError>
        ensures moves { Moves self.old self.new (SeekLt key.now) result }
        ensures keyed { IsKey key.now }
    {
        // That it is a key is what it says when it lends its bytes.
        let _bytes = key.bytes();
        self.inside.seek_lt(&mut self.reader, key)
    }

    /// The key of the cursor, where it is at one.
    pub fn key(&self) -> Option<&[u8]>
        ensures { option_copied result ≡ key_at self.now.cursor }
    {
        self.inside.key()
    }

    /// Whether a point is shown there, and whether the key is in a span.
    pub fn has_point_and_range(&self) -> (bool, bool)
        ensures point { result.0 ≡ is_some self.now.value }
        ensures range { result.1 ≡ is_some self.now.span }
    {
        self.inside.has_point_and_range()
    }

    /// The value of the shown point.
    pub fn value(&self) -> Option<&[u8]>
        ensures { option_copied result ≡ self.now.value }
    {
        self.inside.value()
    }

    /// The start and the end of the key's span.
    pub fn range_bounds(&self) -> Option<(&[u8], &[u8])>
        ensures { MatchOption result (self.now.span ≡ None) (λ ends. MatchOption self.now.span ⊥ (λ s. (ends.0.now ≡ s.start) × (ends.1.now ≡ s.end))) }
    {
        self.inside.range_bounds()
    }

    /// The pairs of suffix and value that hold over the key's span, ascending by suffix.
    pub fn range_keys(&self) -> &[SuffixValue]
        ensures { result.now ≡ option_map_or (λ s. s.cover) self.now.span [] }
    {
        self.inside.range_keys()
    }

    /// Whether the last move changed the span or its pairs.
    pub fn range_key_changed(&self) -> bool
        ensures { result ≡ self.now.changed }
    {
        self.inside.range_key_changed()
    }

    /// Where it stands.
    pub fn cursor(&self) -> &Cursor
        ensures { result.now ≡ self.now.cursor }
    {
        self.inside.cursor()
    }

    /// The number up to which it sees entries.
    pub fn number(&self) -> u64
        ensures { result ≡ self.now.number }
    {
        self.pins.number
    }

    /// How often it has read: never, since what it shows lies in memory.
    pub fn reads(&self) -> u64
        ensures { result ≡ 0 }
    {
        self.reader.reads()
    }

    /// How often a read has failed.
    pub fn faults(&self) -> u64
        ensures { result ≡ 0 }
    {
        self.reader.faults()
    }
}
