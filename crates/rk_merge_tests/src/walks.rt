// Walks over any source of points or of spans, and what it shows on the way.
use rk_key::{UserKey, read_key};
use rk_model::{Cut, PointSource, SpanSource};
use rk_outside::{Counting, SourceError};
use std::alloc::Global;
use std::test::Fail;

/// The number of the entry here, and 0 where there is none.
pub(super) fn number<R: Counting, P: PointSource<R>>(points: &P, _: &R) -> u64 {
    match points.here() {
        Some(entry) => entry.seq,
        None => 0,
    }
}

/// One step, where there is an entry, and the number that is shown then.
fn step<R: Counting, P: PointSource<R>>(
    points: &mut P,
    reader: &mut R,
    forward: bool,
) -> Result<u64, SourceError> {
    if points.here().is_some() {
        if forward {
            points.next(reader)?;
        } else {
            points.prev(reader)?;
        }
    }
    Ok(number(points, reader))
}

/// The numbers that are shown after a seek of a cut, and after each of some steps, forward or backward.
pub(super) fn walk_from<R: Counting, P: PointSource<R>>(
    alloc: Global,
    points: &mut P,
    reader: &mut R,
    cut: Cut<&UserKey>,
    forward: bool,
    steps: &[bool],
) -> Result<Vec<u64>, Fail> {
    points.seek(reader, cut, forward)?;
    let mut numbers = Vec::new(alloc);
    numbers.push(number(points, reader))?;
    for forward in steps {
        numbers.push(step(points, reader, *forward)?)?;
    }
    Ok(numbers)
}

/// The same after a seek forward from a key.
pub(super) fn walk<R: Counting, P: PointSource<R>>(
    alloc: Global,
    points: &mut P,
    reader: &mut R,
    key: &[u8],
    steps: &[bool],
) -> Result<Vec<u64>, Fail> {
    let key = read_key(alloc, key)?;
    walk_from(alloc, points, reader, Cut::Below(&key), true, steps)
}

/// The numbers that are shown beyond an end, to which a seek in a direction leads, and after a turn there.
pub(super) fn turn_at_end<R: Counting, P: PointSource<R>>(
    points: &mut P,
    reader: &mut R,
    forward: bool,
) -> Result<(u64, u64), Fail> {
    let end = if forward { Cut::End } else { Cut::Start };
    points.seek(reader, end, forward)?;
    let beyond = number(points, reader);
    points.step(reader, !forward)?;
    Ok((beyond, number(points, reader)))
}

/// Whether a step from a key on is refused for the first fault of the reader, and nothing is shown then.
pub(super) fn is_refused<R: Counting, P: PointSource<R>>(
    alloc: Global,
    points: &mut P,
    reader: &mut R,
    key: &[u8],
) -> Result<bool, Fail> {
    points.seek_ge(reader, &read_key(alloc, key)?)?;
    let refused = matches!(
        step(points, reader, true),
        Err(SourceError::ReadFault { faults: 1 })
    );
    Ok(refused && points.here().is_none())
}

/// One step of a source of spans, where there is a span.
pub(super) fn step_span<R: Counting, S: SpanSource<R>>(
    spans: &mut S,
    reader: &mut R,
    forward: bool,
) -> Result<(), SourceError> {
    if spans.here().is_some() {
        if forward {
            spans.next(reader)?;
        } else {
            spans.prev(reader)?;
        }
    }
    Ok(())
}
