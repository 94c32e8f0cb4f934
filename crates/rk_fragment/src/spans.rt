// The spans that entries are cut into.
ghost use Rattle.std.specs.Prelude.{◌≡◌, ◌++◌, IfOk, OnOk};
ghost use Rattle.std.specs.Option.{option_to_list};
ghost use Rattle.rk_fragment.specs.Fragments.{span_with, fragments};
ghost use Rattle.rk_fragment.specs.Intervals.{spans_of};

use crate::intervals::{Interval, intervals_of};
use rk_key::UserKey;
use rk_model::{Entry, Span, copy_key};
use rk_outside::NoMemory;
use std::alloc::Global;

/// Adds the span of an interval up to an end, where the interval has range keys.
fn push_span(spans: &mut Vec<Span>, interval: Interval, end: &UserKey) -> Result<(), NoMemory>
    ensures { OnOk result (spans.new.items ≡ spans.old.items ++ option_to_list (span_with interval.start end.now interval.keys)) }
{
    let Interval { start, keys } = interval;
    if !keys.has_none() {
        spans.push(Span {
            start,
            end: copy_key(end)?,
            keys: keys.into_keys(),
        })?;
    }
    Ok(())
}

/// The spans of the intervals that have range keys, each up to the start of the next interval.
fn spans_of(alloc: Global, intervals: Vec<Interval>) -> Result<Vec<Span>, NoMemory>
    ensures { IfOk result (λ spans. spans.items ≡ spans_of intervals.items) }
{
    let mut spans = Vec::new(alloc);
    let mut open: Option<Interval> = None;
    for interval in intervals {
        if let Some(before) = open {
            push_span(&mut spans, before, &interval.start)?;
        }
        open = Some(interval);
    }
    Ok(spans)
}

/// The spans between neighbouring written ends that an entry is over, in order. Each has the range keys of
/// the entries over it, newest first; those with one number stay in the order of the entries. Puts and dels
/// are passed over.
///
/// It sorts the entries and their ends, and copies one range key for each span that an entry is over.
///
/// # Errors
///
/// `NoMemory` where the spans find no memory.
pub fn fragment(alloc: Global, entries: &[Entry]) -> Result<Vec<Span>, NoMemory>
    ensures { IfOk result (λ spans. spans.items ≡ fragments entries.now) }
{
    let intervals = intervals_of(alloc, entries)?;
    spans_of(alloc, intervals)
}
