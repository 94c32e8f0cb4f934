// What an iterator is inside, over any sources.
ghost use Rattle.std.specs.Prelude.{◌≡◌, IfOk, None, false, map};
ghost use Rattle.rk_model.specs.declared.cursor.Cursor.TheVariants.{Fresh};
ghost use Rattle.rk_interleave.specs.Interleaving.{lent};
ghost use Rattle.rk_iter.specs.Inside.{inside_points, inside_spans};

use rk_defrag::Defrag;
use rk_interleave::Interleave;
use rk_model::{Entry, IterOptions, Sorted, Span, copy_bound};
use rk_outside::NoMemory;
use rk_pointmerge::{PointMerge, Visible};
use rk_sources::Bounded;
use rk_spanmerge::SpanMerge;
use std::alloc::Global;

/// What an iterator is inside, over sources of points of a kind `P` and of spans of a kind `S`: what is visible of the
/// points within the bounds, merged, and the widest of the spans, merged.
pub type Inside<P, S> = Interleave<Visible<PointMerge<Bounded<P>>>, Defrag<SpanMerge<S>>>;

/// Opens it over sources that stand anywhere, at a number. It has not moved.
///
/// # Errors
///
/// `NoMemory` where a bound or the list of sources finds no memory.
pub fn open_over<P: Sorted<Item = Entry> + Drop, S: Sorted<Item = Span> + Drop>(
    alloc: Global,
    points: Vec<P>,
    spans: Vec<S>,
    number: u64,
    options: &IterOptions,
) -> Result<Inside<P, S>, NoMemory>
    ensures points { IfOk result (λ m. ⟦<Visible<PointMerge<Bounded<P>>> as Sorted>⟧.listing m.points ≡ inside_points number options.now (map P.listing points.items)) }
    ensures spans { IfOk result (λ m. ⟦<Defrag<SpanMerge<S>> as Sorted>⟧.listing m.spans ≡ inside_spans number options.now (map S.listing spans.items)) }
    ensures options { IfOk result (λ m. m.options ≡ options.now) }
    ensures fresh { IfOk result (λ m. lent m ≡ (Fresh, None, None, false)) }
{
    let points = PointMerge::new(alloc, bounded(alloc, points, options)?)?;
    let points = Visible::new(alloc, points, number)?;
    let spans = Defrag::new(alloc, SpanMerge::new(alloc, spans)?, number, options)?;
    Interleave::new(alloc, points, spans, options)
}

// Each source cut at the bounds.
fn bounded<P: Sorted<Item = Entry> + Drop>(
    alloc: Global,
    sources: Vec<P>,
    options: &IterOptions,
) -> Result<Vec<Bounded<P>>, NoMemory>
    ensures { IfOk result (λ all. all.items ≡ map (λ p. record { source = p; lower = options.now.lower; upper = options.now.upper; facing = None }) sources.items) }
{
    let mut all = Vec::with_capacity(alloc, sources.len())?;
    for source in sources {
        let lower = copy_bound(&options.lower)?;
        let upper = copy_bound(&options.upper)?;
        all.push(Bounded::new(source, lower, upper))?;
    }
    Ok(all)
}
