// Masks over one pair.
use rk_key::{read_key, read_suffix};
use rk_mask::masks;
use rk_model::SuffixValue;
use rk_outside::Bytes;
use std::alloc::Global;
use std::test::Fail;

/// Whether a mask hides the point on a key under one pair, `@5=x`.
fn hidden(alloc: Global, mask: &[u8], key: &[u8]) -> Result<bool, Fail> {
    let pairs = [SuffixValue {
        suffix: read_suffix(alloc, b"@5")?,
        value: Bytes::from_slice(alloc, b"x")?,
    }];
    Ok(masks(&pairs, &read_suffix(alloc, mask)?, &read_key(alloc, key)?))
}

#[test]
fn a_pair_between_the_mask_and_a_point_hides_it(rt: HostRuntime) -> Result<(), Fail> {
    assert!(rt; hidden(rt.alloc(), b"@9", b"b@3")?);
    assert!(rt; !hidden(rt.alloc(), b"@9", b"b@7")?);
    assert!(rt; !hidden(rt.alloc(), b"@9", b"b")?);
    Ok(())
}

#[test]
fn a_pair_before_the_mask_hides_nothing(rt: HostRuntime) -> Result<(), Fail> {
    assert!(rt; !hidden(rt.alloc(), b"@4", b"b@7")?);
    assert!(rt; !hidden(rt.alloc(), b"@4", b"b@3")?);
    Ok(())
}
