// Fragments of two sets that overlap, by hand.
use rk_fragment::{Fragmenter, fragment};
use rk_key::{read_key, read_suffix};
use rk_model::{Entry, Op, Span};
use rk_outside::Bytes;
use std::alloc::Global;
use std::test::Fail;

/// The start and the end of a span, and the numbers of its keys.
type Wanted = (&'static [u8], &'static [u8], &'static [u64]);

const WANTED: [Wanted; 3] = [
    (b"a", b"c", &[1]),
    (b"c", b"d", &[2, 1]),
    (b"d", b"e", &[2]),
];

fn set(alloc: Global, start: &[u8], end: &[u8], seq: u64) -> Result<Entry, Fail> {
    let op = Op::RangeSet {
        start: read_key(alloc, start)?,
        end: read_key(alloc, end)?,
        suffix: read_suffix(alloc, b"")?,
        value: Bytes::from_slice(alloc, b"foo")?,
    };
    Ok(Entry { op, seq })
}

fn is_wanted(span: &Span, wanted: Wanted) -> bool {
    let (start, end, numbers) = wanted;
    let keys = span.keys.as_slice();
    span.start.bytes() == start
        && span.end.bytes() == end
        && keys.len() == numbers.len()
        && keys.iter().zip(numbers).all(|(key, seq)| key.seq == *seq)
}

fn are_wanted(spans: &[Span]) -> bool {
    spans.len() == WANTED.len()
        && spans
            .iter()
            .zip(WANTED)
            .all(|(span, wanted)| is_wanted(span, wanted))
}

#[test]
fn sets_that_overlap(rt: HostRuntime) -> Result<(), Fail> {
    let alloc = rt.alloc();
    let mut entries = Vec::new(alloc);
    entries.push(set(alloc, b"c", b"e", 2)?)?;
    entries.push(set(alloc, b"a", b"d", 1)?)?;
    let spans = fragment(alloc, &entries)?;
    assert!(rt; are_wanted(&spans));
    Ok(())
}

#[test]
fn sets_that_are_added(rt: HostRuntime) -> Result<(), Fail> {
    let alloc = rt.alloc();
    let mut fragmenter = Fragmenter::new(alloc)?;
    fragmenter.add(&set(alloc, b"a", b"d", 1)?)?;
    fragmenter.add(&set(alloc, b"c", b"e", 2)?)?;
    assert!(rt; are_wanted(fragmenter.spans()));
    Ok(())
}
