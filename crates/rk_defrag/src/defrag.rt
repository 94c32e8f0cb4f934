// The widest spans of a source of spans.
ghost use Rattle.std.specs.Prelude.{◌≡◌, IfOk, IfSome, None};
ghost use Rattle.rk_key.specs.Keys.{IsKey};
ghost use Rattle.rk_defrag.specs.Defrags.{defragged, defragged_standing, defrags, defrag_stands};
ghost use Rattle.rk_defrag.specs.DefragLaws.{defragged-ordered, defragged-told, defragged-rise, defragged-free};

use crate::find::{find_at, go_on};
use rk_key::UserKey;
use rk_model::{Cut, IterOptions, Sorted, Source, Span, copy_key};
use rk_outside::{Counting, NoMemory, SourceError};
use rk_sources::Bounded;
use std::alloc::Global;
use std::marker::Model;

/// The widest spans of a source, at a number and within the bounds of an iterator: over each span one cover, of the
/// range keys numbered at most `n`, that isn't empty, and next to it another cover or a bound. The range keys of a
/// span are the pairs of its cover, as sets numbered `n`. It is told where the source is told.
///
/// It kept a copy of the current span. Between two calls the source stands behind the last of the spans that make
/// that up, in the direction that is faced. So a step looks at the spans of the next one alone, and a turn seeks once;
/// a seek, where it leads into a span, also looks back at that span's near end. It is lost until the first seek,
/// wherever the source stands, and after a refusal.
#[derive(Debug, Drop)]
pub struct Defrag<S: Sorted<Item = Span>> {
    alloc: Global,
    source: Bounded<S>,
    n: u64,
    options: IterOptions,
    current: Option<Span>,
    facing: Option<bool>,
}

impl<S: Sorted<Item = Span>> Model for Defrag<S> {
    ghost use Rattle.rk_defrag.specs.Defrags.{Defragging};
    ghost use Rattle.rk_defrag.specs.Moves.{IsDefragging};

    ghost Value = { Defragging S };

    ghost view = { λ d. record { source = d.source; n = d.n; options = d.options; current = d.current; facing = d.facing } };

    ghost invariant = { λ d. IsDefragging S.listing S.standing (record { source = d.source; n = d.n; options = d.options; current = d.current; facing = d.facing }) };
}

impl<S: Sorted<Item = Span> + Drop> Defrag<S> {
    /// The widest spans of this source at this number, within the bounds of these options, lost.
    ///
    /// # Errors
    ///
    /// `NoMemory` where a copy of a bound finds no memory.
    pub fn new(
        alloc: Global,
        source: S,
        n: u64,
        options: &IterOptions,
    ) -> Result<Defrag<S>, NoMemory>
        ensures listing { IfOk result (λ d. ⟦<Defrag<S> as Sorted>⟧.listing d ≡ defragged n options.now (S.listing source)) }
        ensures standing { IfOk result (λ d. ⟦<Defrag<S> as Sorted>⟧.standing d ≡ defragged_standing (defragged n options.now (S.listing source)).held None None (S.standing source)) }
    {
        let lower = copy_keyed(&options.lower)?;
        let upper = copy_keyed(&options.upper)?;
        let options = options.copy()?;
        Ok(Defrag {
            alloc,
            source: Bounded::new(source, lower, upper),
            n,
            options,
            current: None,
            facing: None,
        })
    }
}

// An equal bound. Its key is a key.
fn copy_keyed(bound: &Option<UserKey>) -> Result<Option<UserKey>, NoMemory>
    ensures value { IfOk result (λ copied. copied ≡ bound.now) }
    ensures is_key { IfOk result (λ copied. IfSome copied IsKey) }
{
    match bound {
        Some(key) => Ok(Some(copy_key(key)?)),
        None => Ok(None),
    }
}

impl<S: Sorted<Item = Span>> Sorted for Defrag<S> {
    type Item = Span;

    ghost listing = { defrags S.listing };

    ghost standing = { defrag_stands S.listing S.standing };
}

impl<R: Counting, S: Source<R, Item = Span>> Source<R> for Defrag<S> {
    ghost ordered = { λ d. defragged-ordered d.n d.options (S.listing d.source.source) };

    ghost told = { λ d. defragged-told (defrags S.listing d) d.facing d.current (S.standing d.source.source) };

    ghost rise = { λ d. defragged-rise d.n d.options (S.listing d.source.source) };

    ghost once = { λ d _. defragged-free d.n d.options (S.listing d.source.source) };

    fn seek(
        &mut self,
        reader: &mut R,
        cut: Cut<&UserKey>,
        forward: bool,
    ) -> Result<(), SourceError> {
        self.facing = None;
        self.current = None;
        self.current = find_at(
            self.alloc,
            &mut self.source,
            reader,
            self.n,
            &self.options,
            cut,
            forward,
        )?;
        self.facing = Some(forward);
        Ok(())
    }

    fn step(&mut self, reader: &mut R, forward: bool) -> Result<(), SourceError> {
        let current = self.current.take();
        let was = self.facing.take().unwrap_or(forward);
        self.current = go_on(
            self.alloc,
            &mut self.source,
            reader,
            self.n,
            &self.options,
            current.as_ref(),
            was,
            forward,
        )?;
        self.facing = Some(forward);
        Ok(())
    }

    fn here(&self) -> Option<&Span> {
        self.current.as_ref()
    }
}
