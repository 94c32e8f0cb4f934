// A source of the spans of a chunk.
ghost use Rattle.std.specs.Prelude.{◌≡◌, IsTrue, Some, None, true, IfOk};
ghost use Rattle.std.specs.Arc.{arc_value};
ghost use Rattle.rk_model.specs.Items.{keyed_extents, keyed_spans, sound};
ghost use Rattle.rk_model.specs.Standings.{free_listing};
ghost use Rattle.rk_model.specs.Listings.{stands_within};
ghost use Rattle.rk_model.specs.ListingLaws.{of_sound, listed-told, listed-rise, listed-free};
ghost use Rattle.rk_fragment.specs.Fragments.{fragments};

use crate::Chunk;
use crate::fragments::Fragments;
use rk_key::UserKey;
use rk_model::{Cut, Lends, Listed, Sorted, Source, Span};
use rk_outside::{Counting, NoMemory, SourceError};
use std::alloc::Global;
use std::marker::Model;
use std::sync::Arc;

// Fragments that lend their spans.
#[derive(Debug, Drop)]
struct Spans {
    fragments: Arc<Fragments>,
}

impl Model for Spans {
    ghost use Rattle.std.specs.Prelude.{List};
    ghost use Rattle.std.specs.Arc.{arc_value};
    ghost use Rattle.rk_model.specs.declared.span.Span.{Span};

    ghost Value = { List Span };

    ghost view = { λ s. arc_value s.fragments };
}

impl Lends for Spans {
    type Item = Span;

    ghost items = { λ ss. ss };

    fn items(&self) -> &[Span] {
        &self.fragments.spans
    }
}

/// A source of the spans that the range entries of a chunk are cut into. It reads nothing.
#[derive(Debug, Drop)]
pub struct ChunkSpans {
    listed: Listed<Spans>,
}

impl Model for ChunkSpans {
    ghost use Rattle.std.specs.Prelude.{List};
    ghost use Rattle.rk_model.specs.Listings.{Placing};
    ghost use Rattle.rk_model.specs.declared.span.Span.{Span};

    ghost Value = { Placing (List Span) };

    ghost view = { λ s. s.listed };
}

impl ChunkSpans {
    /// A source of the spans of this chunk, at no gap. Where no other source over the chunk has made them, it
    /// makes them, and the chunk keeps them.
    ///
    /// # Errors
    ///
    /// `NoMemory` where the spans find no memory.
    pub fn new(alloc: Global, chunk: Arc<Chunk>) -> Result<ChunkSpans, NoMemory>
        ensures value { IfOk result (λ s. s ≡ record { list = fragments (arc_value chunk); gap = None; forward = true }) }
        ensures told { IfOk result (λ s. sound keyed_extents s.list ≡ Some (fragments (arc_value chunk))) }
        ensures spans { IfOk result (λ _. IsTrue (keyed_spans (fragments (arc_value chunk)))) }
    {
        let fragments = chunk.fragments(alloc)?;
        Ok(ChunkSpans {
            listed: Listed::new(Spans { fragments }),
        })
    }
}

impl Sorted for ChunkSpans {
    type Item = Span;

    ghost listing = { λ s. free_listing (sound keyed_extents s.list) };

    ghost standing = { λ s. stands_within s.list s.gap s.forward };
}

impl<R: Counting> Source<R> for ChunkSpans {
    ghost ordered = { λ s. of_sound keyed_extents s.list (λ xs. IsTrue (keyed_extents xs)) (λ holds. holds) };

    ghost told = { λ s. listed-told keyed_extents s.list s.gap s.forward };

    ghost rise = { λ s. listed-rise (sound keyed_extents s.list) };

    ghost once = { λ s _. listed-free (sound keyed_extents s.list) };

    fn seek(
        &mut self,
        reader: &mut R,
        cut: Cut<&UserKey>,
        forward: bool,
    ) -> Result<(), SourceError> {
        self.listed.seek(reader, cut, forward)
    }

    fn step(&mut self, reader: &mut R, forward: bool) -> Result<(), SourceError> {
        self.listed.step(reader, forward)
    }

    fn here(&self) -> Option<&Span> {
        Source::<R>::here(&self.listed)
    }
}
