// The spans of several sources as one list.
ghost use Rattle.std.specs.Prelude.{◌≡◌, map, IfOk, None, true, false};
ghost use Rattle.rk_spanmerge.specs.Merges.{merged, merged_standing};
ghost use Rattle.rk_spanmerge.specs.MergeLaws.{united-ordered, merged-told, merged-rise, merged-free};

use crate::find::{find_at, go_on};
use rk_key::UserKey;
use rk_model::{Cut, Sorted, Source, Span};
use rk_outside::{Counting, NoMemory, SourceError};
use std::alloc::Global;
use std::marker::Model;

/// The spans of several sources as one list: at every key all range keys of the sources, newest first, cut at
/// every start and end of a source's span. It is told where each source is told, and no two range keys over one
/// key have one number.
///
/// It keeps a copy of the current span. Between two calls each source stands at its first span that ends above
/// the start of that one, or at its last that begins below its end. So a step moves only the sources whose
/// spans end, or begin, where it leaves the current span; a seek, and a step that turns, seeks in each source.
#[derive(Debug, Drop)]
pub struct SpanMerge<S: Sorted<Item = Span>> {
    alloc: Global,
    sources: Vec<S>,
    current: Option<Span>,
    forward: bool,
    known: bool,
}

impl<S: Sorted<Item = Span>> Model for SpanMerge<S> {
    ghost use Rattle.rk_spanmerge.specs.Merges.{Merging};
    ghost use Rattle.rk_spanmerge.specs.Moves.{IsMerging};

    ghost Value = { Merging S };

    ghost view = { λ m. record { sources = m.sources.items; current = m.current; forward = m.forward; known = m.known } };

    ghost invariant = { λ m. IsMerging S.listing S.standing (record { sources = m.sources.items; current = m.current; forward = m.forward; known = m.known }) };
}

impl<S: Sorted<Item = Span>> SpanMerge<S> {
    /// A merge of these sources, at no gap. It takes no memory.
    ///
    /// # Errors
    ///
    /// None: `NoMemory` is there for a body that takes some.
    pub fn new(alloc: Global, sources: Vec<S>) -> Result<SpanMerge<S>, NoMemory>
        ensures { IfOk result (λ m. m ≡ record { sources = sources.items; current = None; forward = true; known = false }) }
    {
        Ok(SpanMerge {
            alloc,
            sources,
            current: None,
            forward: true,
            known: false,
        })
    }
}

impl<S: Sorted<Item = Span>> Sorted for SpanMerge<S> {
    type Item = Span;

    ghost listing = { λ m. merged (map S.listing m.sources) };

    ghost standing = { λ m. merged_standing S.listing S.standing m };
}

impl<R: Counting, S: Source<R, Item = Span>> Source<R> for SpanMerge<S> {
    ghost ordered = { λ m. united-ordered (map S.listing m.sources) };

    ghost told = { λ m. merged-told S.listing S.standing m };

    ghost rise = { λ m. merged-rise (map S.listing m.sources) };

    ghost once = { λ m _. merged-free (map S.listing m.sources) };

    fn seek(
        &mut self,
        reader: &mut R,
        cut: Cut<&UserKey>,
        forward: bool,
    ) -> Result<(), SourceError> {
        self.current = None;
        self.known = false;
        self.current = find_at(self.alloc, &mut self.sources, reader, cut, forward)?;
        self.forward = forward;
        self.known = true;
        Ok(())
    }

    fn step(&mut self, reader: &mut R, forward: bool) -> Result<(), SourceError> {
        let current = self.current.take();
        self.known = false;
        self.current = go_on(
            self.alloc,
            &mut self.sources,
            reader,
            current.as_ref(),
            self.forward,
            forward,
        )?;
        self.forward = forward;
        self.known = true;
        Ok(())
    }

    fn here(&self) -> Option<&Span> {
        self.current.as_ref()
    }
}
