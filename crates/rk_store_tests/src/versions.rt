// The bytes of versions.
use rk_manifest::{TableDesc, VersionDesc};
use std::alloc::Global;
use std::test::Fail;

/// The version with next file 17 and the numbers up to 9 in tables, without a table.
const BARE: [u8; 32] = [
    0, 0, 0, 0, 0, 0, 0, 17, 0, 0, 0, 0, 0, 0, 0, 9, 0, 0, 0, 0, 0, 0, 0, 0, 0, 0, 0, 0, 0, 0, 0, 0,
];

/// The version with next file 18, the number 1 in tables, and at level 0 the table in file 16 of 89 bytes, from `a` to
/// `a`, closed.
const ONE_TABLE: [u8; 53] = [
    0, 0, 0, 0, 0, 0, 0, 18, 0, 0, 0, 0, 0, 0, 0, 1, 0, 0, 0, 1, 0, 0, 0, 0, 0, 0, 0, 16, 0, 0, 0,
    0, 0, 0, 0, 89, 1, b'a', 1, b'a', 1, 0, 0, 0, 0, 0, 0, 0, 0, 0, 0, 0, 0,
];

#[test]
fn versions_as_bytes(rt: HostRuntime) -> Result<(), Fail> {
    let mut desc = VersionDesc::decode(rt.alloc(), &BARE)?.ok_or("no version")?;
    assert_eq!(rt; desc.next_file, 17);
    assert_eq!(rt; desc.flushed_upto, 9);
    assert_eq!(rt; desc.levels.len(), 4);
    assert_eq!(rt; desc.encode(rt.alloc())?.as_slice(), BARE.as_slice());
    desc.next_file = 18;
    desc.flushed_upto = 1;
    desc.levels[0].push(TableDesc {
        file: 16,
        size: 89,
        lo: rk_key::read_key(rt.alloc(), b"a")?,
        hi: rk_key::read_key(rt.alloc(), b"a")?,
        closed: true,
    })?;
    assert_eq!(rt; desc.encode(rt.alloc())?.as_slice(), ONE_TABLE.as_slice());
    Ok(())
}

#[test]
fn bytes_that_are_no_version(rt: HostRuntime) -> Result<(), Fail> {
    let mut next_file_too_small = BARE;
    next_file_too_small[7] = 15;
    let mut flushed_upto_too_large = BARE;
    flushed_upto_too_large[8] = 1;
    let mut one_table_more = BARE;
    one_table_more[31] = 1;
    let table: [&[u8]; 6] = [
        &[],
        &BARE[..31],
        &next_file_too_small,
        &flushed_upto_too_large,
        &one_table_more,
        &ONE_TABLE,
    ];
    for bytes in table {
        assert!(rt; VersionDesc::decode(rt.alloc(), bytes)?.is_none());
    }
    Ok(())
}
