// Many range keys on one span.
use crate::chunks::Chunks;
use rk_batch::Batch;
use rk_iter::Iter;
use rk_key::read_suffix;
use rk_model::IterOptions;
use std::alloc::Global;
use std::test::Fail;

/// A set of `[a, c)` under each suffix from `@1` to `@1000`, with this value.
fn sets(alloc: Global, value: &[u8]) -> Result<Batch, Fail> {
    let mut batch = Batch::new(alloc)?;
    for number in 1..1_001u32 {
        let suffix = format!(in alloc; "@{number}")?;
        batch.rset(b"a", b"c", suffix.as_bytes(), value)?;
    }
    Ok(batch)
}

/// Over a chunk of the sets, one of the same sets with other values, and one of a point that they hide and one that
/// they don't.
fn opened(alloc: Global) -> Result<Iter, Fail> {
    let mut chunks = Chunks::new(alloc);
    chunks.commit(sets(alloc, b"x")?.take_ops())?;
    chunks.commit(sets(alloc, b"y")?.take_ops())?;
    let mut points = Batch::new(alloc)?;
    points.set(b"b@1", b"p")?;
    points.set(b"b@1001", b"q")?;
    chunks.commit(points.take_ops())?;
    let options = IterOptions {
        lower: None,
        upper: None,
        mask: Some(read_suffix(alloc, b"@1000")?),
    };
    Ok(Iter::open(alloc, chunks.pins()?, &options)?)
}

/// Whether the pairs are those of the newer sets, from `@1000` down to `@1`.
fn has_all(alloc: Global, iter: &Iter) -> Result<bool, Fail> {
    let pairs = iter.range_keys();
    for (number, pair) in (1..1_001u32).rev().zip(pairs) {
        let suffix = format!(in alloc; "@{number}")?;
        if pair.suffix.bytes() != suffix.as_bytes() || pair.value.bytes() != b"y".as_slice() {
            return Ok(false);
        }
    }
    Ok(pairs.len() == 1_000)
}

#[test]
fn a_span_has_a_thousand_range_keys(rt: HostRuntime) -> Result<(), Fail> {
    let alloc = rt.alloc();
    let mut iter = opened(alloc)?;
    assert!(rt; iter.first()? && has_all(alloc, &iter)?);
    assert!(rt; iter.next()? && has_all(alloc, &iter)?);
    assert_eq!(rt; iter.key(), Some(b"b@1001".as_slice()));
    assert!(rt; !iter.next()? && iter.range_keys().is_empty());
    Ok(())
}
