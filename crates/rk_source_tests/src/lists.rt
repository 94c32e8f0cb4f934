// Sources over lists in memory.
use crate::walks::{newest, stepped};
use rk_key::{read_key, read_suffix};
use rk_model::{
    Cursor, Cut, Entry, ListPoints, ListSpans, Op, RangeKey, RangeKeys, RangeKind, Span,
    SpanSource, SuffixValue, points_before, points_from,
};
use rk_outside::{Bytes, NoReads};
use std::alloc::Global;
use std::test::Fail;

fn put(alloc: Global, key: &[u8], seq: u64) -> Result<Entry, Fail> {
    let key = read_key(alloc, key)?;
    let value = Bytes::from_slice(alloc, b"v")?;
    Ok(Entry {
        op: Op::Put { key, value },
        seq,
    })
}

// Whether the numbers of the entries are these.
fn have_numbers(entries: &[Entry], numbers: &[u64]) -> bool {
    entries.len() == numbers.len()
        && entries
            .iter()
            .zip(numbers)
            .all(|(entry, number)| entry.seq == *number)
}

#[test]
fn a_list_is_read_both_ways(rt: HostRuntime) -> Result<(), Fail> {
    let alloc = rt.alloc();
    let mut entries = Vec::new(alloc);
    for (key, seq) in [(b"a", 3), (b"a", 1), (b"b", 2), (b"d", 4)] {
        entries.push(put(alloc, key, seq)?)?;
    }
    let mut source = ListPoints::new(entries);
    let b = read_key(alloc, b"b")?;
    let forward = points_from(alloc, &mut source, &mut NoReads, Cut::Below(&b))?;
    assert!(rt; have_numbers(&forward, &[2, 4]));
    let backward = points_before(alloc, &mut source, &mut NoReads, Cut::Below(&b))?;
    assert!(rt; have_numbers(&backward, &[1, 3]));
    Ok(())
}

fn span(alloc: Global, start: &[u8], end: &[u8], seq: u64) -> Result<Span, Fail> {
    let mut keys = Vec::new(alloc);
    keys.push(RangeKey {
        kind: RangeKind::Set,
        seq,
        suffix: read_suffix(alloc, b"@5")?,
        value: Bytes::from_slice(alloc, b"x")?,
    })?;
    Ok(Span {
        start: read_key(alloc, start)?,
        end: read_key(alloc, end)?,
        keys: RangeKeys::from_vec(keys),
    })
}

#[test]
fn a_span_is_found_by_its_end_and_by_its_start(rt: HostRuntime) -> Result<(), Fail> {
    let alloc = rt.alloc();
    let mut spans = Vec::new(alloc);
    spans.push(span(alloc, b"a", b"c", 1)?)?;
    spans.push(span(alloc, b"c", b"e", 2)?)?;
    let mut source = ListSpans::new(spans);
    let c = read_key(alloc, b"c")?;
    let mut reader = NoReads;
    source.seek_ge(&mut reader, &c)?;
    assert_eq!(rt; newest(&source, &reader), Some(2));
    source.seek_lt(&mut reader, &c)?;
    assert_eq!(rt; newest(&source, &reader), Some(1));
    Ok(())
}

#[test]
fn spans_are_walked_to_both_ends(rt: HostRuntime) -> Result<(), Fail> {
    let alloc = rt.alloc();
    let mut spans = Vec::new(alloc);
    for (start, end, seq) in [(b"a", b"c", 1), (b"c", b"e", 2), (b"f", b"g", 3)] {
        spans.push(span(alloc, start, end, seq)?)?;
    }
    let mut source = ListSpans::new(spans);
    let c = read_key(alloc, b"c")?;
    let mut reader = NoReads;
    source.seek_lt(&mut reader, &c)?;
    for (forward, number) in [
        (true, Some(2)),
        (true, Some(3)),
        (false, Some(2)),
        (false, Some(1)),
        (false, None),
    ] {
        assert_eq!(rt; stepped(&mut source, &mut reader, forward)?, number);
    }
    Ok(())
}

#[test]
fn copies_are_equal(rt: HostRuntime) -> Result<(), Fail> {
    let alloc = rt.alloc();
    let copied = span(alloc, b"a", b"c", 7)?.copy()?;
    assert_eq!(rt; copied.start.bytes(), b"a".as_slice());
    assert_eq!(rt; copied.end.bytes(), b"c".as_slice());
    let keys = copied.keys.into_vec();
    assert_eq!(rt; keys.len(), 1);
    let RangeKey {
        kind,
        seq,
        suffix,
        value,
    } = keys[0].copy()?;
    assert!(rt; kind == RangeKind::Set && seq == 7);
    let pair = SuffixValue { suffix, value }.copy()?;
    assert_eq!(rt; pair.suffix.bytes(), b"@5".as_slice());
    assert_eq!(rt; pair.value.bytes(), b"x".as_slice());
    let at = Cursor::At(read_key(alloc, b"b")?).copy()?;
    assert!(rt; matches!(&at, Cursor::At(key) if key.bytes() == b"b".as_slice()));
    assert!(rt; matches!(Cursor::End.copy()?, Cursor::End));
    Ok(())
}
