// Merged spans, by hand.
use crate::walks::step_span;
use rk_key::{UserKey, read_key};
use rk_model::{Cut, ListSpans, RangeKey, RangeKeys, RangeKind, Span, SpanSource};
use rk_outside::{Bytes, Counting, NoReads};
use rk_spanmerge::SpanMerge;
use std::alloc::Global;
use std::test::Fail;

/// The start and the end of a span, and the numbers of its keys.
type Wanted = (&'static [u8], &'static [u8], &'static [u64]);

fn span(alloc: Global, start: &[u8], end: &[u8], seq: u64) -> Result<Span, Fail> {
    let mut keys = Vec::new(alloc);
    keys.push(RangeKey {
        kind: RangeKind::Del,
        seq,
        suffix: rk_key::read_suffix(alloc, b"")?,
        value: Bytes::from_slice(alloc, b"")?,
    })?;
    Ok(Span {
        start: read_key(alloc, start)?,
        end: read_key(alloc, end)?,
        keys: RangeKeys::from_vec(keys),
    })
}

fn list(alloc: Global, span: Span) -> Result<ListSpans, Fail> {
    let mut spans = Vec::new(alloc);
    spans.push(span)?;
    Ok(ListSpans::new(spans))
}

type Merge = SpanMerge<ListSpans>;

fn merge(alloc: Global) -> Result<Merge, Fail> {
    let mut sources = Vec::new(alloc);
    sources.push(list(alloc, span(alloc, b"a", b"c", 1)?)?)?;
    sources.push(list(alloc, span(alloc, b"b", b"d", 2)?)?)?;
    Ok(SpanMerge::new(alloc, sources)?)
}

/// Whether a source shows the span that is wanted.
fn shows<R: Counting, S: SpanSource<R>>(spans: &S, wanted: Wanted) -> bool {
    let (start, end, numbers) = wanted;
    let Some(span) = spans.here() else {
        return false;
    };
    let keys = span.keys.as_slice();
    span.start.bytes() == start
        && span.end.bytes() == end
        && keys.len() == numbers.len()
        && keys.iter().zip(numbers).all(|(key, seq)| key.seq == *seq)
}

/// Whether a seek of a key, and then steps, each forward or backward, lead each to the span that is wanted. The last
/// step leads to none, where that is said.
fn leads<R: Counting, S: SpanSource<R>>(
    spans: &mut S,
    reader: &mut R,
    key: Cut<&UserKey>,
    forward: bool,
    first: Wanted,
    steps: &[(bool, Wanted)],
    beyond: Option<bool>,
) -> Result<bool, Fail> {
    spans.seek(reader, key, forward)?;
    if !shows::<R, S>(spans, first) {
        return Ok(false);
    }
    for (forward, wanted) in steps {
        step_span(spans, reader, *forward)?;
        if !shows::<R, S>(spans, *wanted) {
            return Ok(false);
        }
    }
    let Some(forward) = beyond else {
        return Ok(true);
    };
    step_span(spans, reader, forward)?;
    Ok(spans.here().is_none())
}

#[test]
fn turns_at_each_place(rt: HostRuntime) -> Result<(), Fail> {
    let mut merge = merge(rt.alloc())?;
    let end = read_key(rt.alloc(), b"z")?;
    let steps: [(bool, Wanted); 6] = [
        (false, (b"b", b"c", &[2, 1])),
        (true, (b"c", b"d", &[2])),
        (false, (b"b", b"c", &[2, 1])),
        (false, (b"a", b"b", &[1])),
        (true, (b"b", b"c", &[2, 1])),
        (false, (b"a", b"b", &[1])),
    ];
    assert!(rt;
        leads(
            &mut merge,
            &mut NoReads,
            Cut::Below(&end),
            false,
            (b"c", b"d", &[2]),
            &steps,
            Some(false),
        )?
    );
    Ok(())
}

#[test]
fn over_a_gap(rt: HostRuntime) -> Result<(), Fail> {
    let alloc = rt.alloc();
    let mut sources = Vec::new(alloc);
    sources.push(list(alloc, span(alloc, b"a", b"b", 1)?)?)?;
    sources.push(list(alloc, span(alloc, b"c", b"d", 2)?)?)?;
    let mut merge = SpanMerge::new(alloc, sources)?;
    let b = read_key(alloc, b"b")?;
    let steps: [(bool, Wanted); 2] = [(false, (b"a", b"b", &[1])), (true, (b"c", b"d", &[2]))];
    assert!(rt;
        leads(
            &mut merge,
            &mut NoReads,
            Cut::Below(&b),
            true,
            (b"c", b"d", &[2]),
            &steps,
            Some(true),
        )?
    );
    Ok(())
}

#[test]
fn on_and_back(rt: HostRuntime) -> Result<(), Fail> {
    let mut merge = merge(rt.alloc())?;
    let steps: [(bool, Wanted); 3] = [
        (true, (b"b", b"c", &[2, 1])),
        (true, (b"c", b"d", &[2])),
        (false, (b"b", b"c", &[2, 1])),
    ];
    assert!(rt;
        leads(
            &mut merge,
            &mut NoReads,
            Cut::Start,
            true,
            (b"a", b"b", &[1]),
            &steps,
            None,
        )?
    );
    Ok(())
}
