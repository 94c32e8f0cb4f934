// Covers and stripes of one span.
use rk_coalesce::{coalesce, coalesce_stripes};
use rk_key::{read_key, read_suffix};
use rk_model::{RangeKey, RangeKeys, RangeKind, Span};
use rk_outside::Bytes;
use std::alloc::Global;
use std::test::Fail;

fn range_key(alloc: Global, kind: RangeKind, seq: u64, value: &[u8]) -> Result<RangeKey, Fail> {
    Ok(RangeKey {
        kind,
        seq,
        suffix: read_suffix(alloc, b"@5")?,
        value: Bytes::from_slice(alloc, value)?,
    })
}

/// A set of `@5` to `x`, numbered 1, and a newer unset of it.
fn set_and_unset(alloc: Global) -> Result<Span, Fail> {
    let mut keys = Vec::new(alloc);
    keys.push(range_key(alloc, RangeKind::Unset, 2, b"")?)?;
    keys.push(range_key(alloc, RangeKind::Set, 1, b"x")?)?;
    Ok(Span {
        start: read_key(alloc, b"a")?,
        end: read_key(alloc, b"c")?,
        keys: RangeKeys::from_vec(keys),
    })
}

/// The numbers of the range keys that are kept.
fn kept(alloc: Global, stripes: &[u64], bottom: bool) -> Result<Vec<u64>, Fail> {
    let keys = coalesce_stripes(alloc, &set_and_unset(alloc)?, stripes, bottom)?;
    let mut numbers = Vec::new(alloc);
    for key in &keys {
        numbers.push(key.seq)?;
    }
    Ok(numbers)
}

#[test]
fn stripes_keep_what_they_show(rt: HostRuntime) -> Result<(), Fail> {
    let alloc = rt.alloc();
    assert_eq!(rt; kept(alloc, &[1, 2], true)?.as_slice(), [2, 1].as_slice());
    assert_eq!(rt; kept(alloc, &[2], true)?.as_slice(), [].as_slice());
    assert_eq!(rt; kept(alloc, &[2], false)?.as_slice(), [2].as_slice());
    Ok(())
}

#[test]
fn a_cover_is_that_at_its_number(rt: HostRuntime) -> Result<(), Fail> {
    let alloc = rt.alloc();
    let span = set_and_unset(alloc)?;
    assert_eq!(rt; coalesce(alloc, &span, 0)?.len(), 0);
    assert_eq!(rt; coalesce(alloc, &span, 2)?.len(), 0);
    let pairs = coalesce(alloc, &span, 1)?;
    assert_eq!(rt; pairs.len(), 1);
    assert_eq!(rt; pairs[0].suffix.bytes(), b"@5".as_slice());
    assert_eq!(rt; pairs[0].value.bytes(), b"x".as_slice());
    Ok(())
}
