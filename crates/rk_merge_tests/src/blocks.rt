// Merges of sources that read blocks: a block is read where a walk comes into it, and no more often.
use crate::paged::{Paged, Pages};
use crate::walks::{is_refused, step_span, walk};
use rk_key::{UserKey, read_key, read_suffix};
use rk_model::{Entry, Op, PointSource, RangeKey, RangeKeys, RangeKind, Source, Span, SpanSource};
use rk_outside::{Bytes, Counting, SourceError};
use rk_pointmerge::{PointMerge, Visible};
use rk_spanmerge::SpanMerge;
use std::alloc::Global;
use std::test::Fail;

type Points = Visible<PointMerge<Paged<Entry>>>;

type Spans = SpanMerge<Paged<Span>>;

/// The reads of one source, and one read of the other, which has one block.
const READS_ON_AND_BACK: u64 = 3 + 1;

/// The key `m` and three digits.
fn middle(alloc: Global, number: u64) -> Result<UserKey, Fail> {
    let mut key = Vec::new(alloc);
    key.push(b'm')?;
    for unit in [100, 10, 1] {
        key.push(b'0' + u8::try_from(number / unit % 10)?)?;
    }
    Ok(read_key(alloc, &key)?)
}

fn put(alloc: Global, key: &[u8], seq: u64) -> Result<Entry, Fail> {
    let key = read_key(alloc, key)?;
    let value = Bytes::from_slice(alloc, b"v")?;
    Ok(Entry {
        op: Op::Put { key, value },
        seq,
    })
}

/// `a` and `b` in one block and `y` and `z` in the next, and 1,000 deleted keys between them in another source.
fn points(alloc: Global) -> Result<Points, Fail> {
    let mut puts = Vec::new(alloc);
    for (key, seq) in [(b"a", 1), (b"b", 2), (b"y", 3), (b"z", 4)] {
        puts.push(put(alloc, key, seq)?)?;
    }
    let mut deletes = Vec::new(alloc);
    for number in 0..1_000u64 {
        let key = middle(alloc, number)?;
        deletes.push(Entry {
            op: Op::Del { key },
            seq: 5 + number,
        })?;
    }
    let mut sources = Vec::new(alloc);
    sources.push(Paged::new(puts, 2))?;
    sources.push(Paged::new(deletes, 0))?;
    let merge = PointMerge::new(alloc, sources)?;
    Ok(Visible::new(alloc, merge, 2_000)?)
}

#[test]
fn hidden_points_at_a_border_cost_no_reads(rt: HostRuntime) -> Result<(), Fail> {
    let mut points = points(rt.alloc())?;
    let mut reader = Pages::new();
    let steps = [true, true, false];
    let numbers = walk(rt.alloc(), &mut points, &mut reader, b"a", &steps)?;
    assert_eq!(rt; numbers.as_slice(), [1, 2, 3, 2].as_slice());
    assert_eq!(rt; reader.reads(), READS_ON_AND_BACK);
    Ok(())
}

#[test]
fn points_are_walked_on_after_a_fault(rt: HostRuntime) -> Result<(), Fail> {
    let mut points = points(rt.alloc())?;
    let mut reader = Pages::failing(3, 4);
    assert!(rt; is_refused(rt.alloc(), &mut points, &mut reader, b"b")?);
    let numbers = walk(rt.alloc(), &mut points, &mut reader, b"b", &[true, true])?;
    assert_eq!(rt; numbers.as_slice(), [2, 3, 4].as_slice());
    assert_eq!(rt; reader.faults(), 1);
    Ok(())
}

fn span(alloc: Global, start: UserKey, end: UserKey, seq: u64) -> Result<Span, Fail> {
    let mut keys = Vec::new(alloc);
    keys.push(RangeKey {
        kind: RangeKind::Set,
        seq,
        suffix: read_suffix(alloc, b"")?,
        value: Bytes::from_slice(alloc, b"v")?,
    })?;
    Ok(Span {
        start,
        end,
        keys: RangeKeys::from_vec(keys),
    })
}

/// `[a, b)` and `[y, z)` in a block each, and 999 spans between them in another source.
fn spans(alloc: Global) -> Result<Spans, Fail> {
    let mut outer = Vec::new(alloc);
    for (start, end, seq) in [(b"a", b"b", 1), (b"y", b"z", 2)] {
        outer.push(span(alloc, read_key(alloc, start)?, read_key(alloc, end)?, seq)?)?;
    }
    let mut inner = Vec::new(alloc);
    for number in 0..999u64 {
        let start = middle(alloc, number)?;
        let end = middle(alloc, number + 1)?;
        inner.push(span(alloc, start, end, 3 + number)?)?;
    }
    let mut sources = Vec::new(alloc);
    sources.push(Paged::new(outer, 1))?;
    sources.push(Paged::new(inner, 0))?;
    Ok(SpanMerge::new(alloc, sources)?)
}

/// The number of the newest range key here, and 0 where there is none.
fn newest<R: Counting, S: SpanSource<R>>(spans: &S) -> u64 {
    match spans.here().and_then(|span| span.keys.as_slice().first()) {
        Some(key) => key.seq,
        None => 0,
    }
}

/// So many steps, while there is a span, and the number of the newest range key that is shown then.
fn steps<R: Counting, S: SpanSource<R>>(
    spans: &mut S,
    reader: &mut R,
    count: u32,
    forward: bool,
) -> Result<u64, SourceError> {
    for _ in 0..count {
        step_span(spans, reader, forward)?;
    }
    Ok(newest::<R, S>(spans))
}

/// What is shown from `a` on after so many steps forward, and after as many backward.
fn on_and_back<R: Counting, S: SpanSource<R>>(
    alloc: Global,
    spans: &mut S,
    reader: &mut R,
    count: u32,
) -> Result<(u64, u64), Fail> {
    spans.seek_ge(reader, &read_key(alloc, b"a")?)?;
    let on = steps(spans, reader, count, true)?;
    Ok((on, steps(spans, reader, count, false)?))
}

/// Whether a step from `a` on is refused for the first fault of the reader, and nothing is shown then.
fn is_refused_at_a<R: Counting, S: SpanSource<R>>(
    alloc: Global,
    spans: &mut S,
    reader: &mut R,
) -> Result<bool, Fail> {
    spans.seek_ge(reader, &read_key(alloc, b"a")?)?;
    let refused = matches!(
        steps(spans, reader, 1, true),
        Err(SourceError::ReadFault { faults: 1 })
    );
    Ok(refused && spans.here().is_none())
}

#[test]
fn many_spans_at_a_border_cost_no_reads(rt: HostRuntime) -> Result<(), Fail> {
    let mut spans = spans(rt.alloc())?;
    let mut reader = Pages::new();
    assert_eq!(rt;
        on_and_back(rt.alloc(), &mut spans, &mut reader, 1_000)?,
        (2, 1)
    );
    assert_eq!(rt; reader.reads(), READS_ON_AND_BACK);
    Ok(())
}

#[test]
fn spans_are_walked_on_after_a_fault(rt: HostRuntime) -> Result<(), Fail> {
    let mut spans = spans(rt.alloc())?;
    let mut reader = Pages::failing(3, 4);
    assert!(rt; is_refused_at_a(rt.alloc(), &mut spans, &mut reader)?);
    assert_eq!(rt;
        on_and_back(rt.alloc(), &mut spans, &mut reader, 1_000)?,
        (2, 1)
    );
    assert_eq!(rt; reader.faults(), 1);
    Ok(())
}
