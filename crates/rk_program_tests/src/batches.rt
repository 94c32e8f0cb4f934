// Batches and their bytes.
use rk_batch::{Batch, BatchError};
use rk_key::Which;
use rk_outside::What;
use std::alloc::Global;
use std::test::Fail;

mod plain;

/// `put a p`.
const PUT: [u8; 9] = [1, 0, 1, 1, 1, b'a', 0, 1, b'p'];

/// `rset a d @5 x`.
const RANGE_SET: [u8; 14] = [1, 0, 1, 3, 1, b'a', 1, b'd', 2, b'@', b'5', 0, 1, b'x'];

/// `put a p`, `del bc`, `rset a d @5 x`, `runset a d @5` and `rdel a b`.
const FIVE: [u8; 37] = [
    1, 0, 5, 1, 1, b'a', 0, 1, b'p', 2, 2, b'b', b'c', 3, 1, b'a', 1, b'd', 2, b'@', b'5', 0, 1,
    b'x', 4, 1, b'a', 1, b'd', 2, b'@', b'5', 5, 1, b'a', 1, b'b',
];

#[test]
fn each_operation_as_bytes(rt: HostRuntime) -> Result<(), Fail> {
    let mut batch = Batch::new(rt.alloc())?;
    batch.rset(b"a", b"d", b"@5", b"x")?;
    assert_eq!(rt; batch.encode(rt.alloc())?.as_slice(), RANGE_SET.as_slice());
    batch.clear();
    batch.set(b"a", b"p")?;
    assert_eq!(rt; batch.encode(rt.alloc())?.as_slice(), PUT.as_slice());
    batch.del(b"bc")?;
    batch.rset(b"a", b"d", b"@5", b"x")?;
    batch.runset(b"a", b"d", b"@5")?;
    batch.rdel(b"a", b"b")?;
    assert_eq!(rt; batch.encode(rt.alloc())?.as_slice(), FIVE.as_slice());
    assert_eq!(rt; batch.ops().len(), 5);
    assert_eq!(rt; batch.count(), 5);
    assert_eq!(rt; batch.size(), 37);
    Ok(())
}

#[test]
fn bytes_as_batches(rt: HostRuntime) -> Result<(), Fail> {
    let table: [&[u8]; 3] = [&PUT, &RANGE_SET, &FIVE];
    for bytes in table {
        let batch = Batch::decode(rt.alloc(), bytes)?;
        assert!(rt; batch.count() > 0);
        assert_eq!(rt; batch.encode(rt.alloc())?.as_slice(), bytes);
    }
    Ok(())
}

fn bad(which: Which, at: usize) -> Result<(), BatchError> {
    Err(BatchError::BadKey { which, at })
}

fn bare(which: Which) -> Result<(), BatchError> {
    Err(BatchError::SuffixInBound { which })
}

fn long(what: What, have: u64, limit: u64) -> Result<(), BatchError> {
    Err(BatchError::TooLong { what, have, limit })
}

#[test]
fn the_first_cause_is_named(rt: HostRuntime) -> Result<(), Fail> {
    let mut batch = Batch::new(rt.alloc())?;
    let long_value = [b'x'; 32_769];
    assert_eq!(rt; batch.set(b"@1", &long_value), bad(Which::Key, 0));
    assert_eq!(rt;
        batch.set(b"a", &long_value),
        long(What::Value, 32_769, 32_768)
    );
    assert_eq!(rt; batch.del(b"a@05"), bad(Which::Key, 2));
    let spans: [(&[u8], &[u8], &[u8], Result<(), BatchError>); 7] = [
        (b"", b"@", b"5", bad(Which::Start, 0)),
        (b"b@1", b"@", b"5", bare(Which::Start)),
        (b"b", b"@", b"5", bad(Which::End, 0)),
        (b"b", b"a@1", b"5", bare(Which::End)),
        (b"b", b"b", b"5", Err(BatchError::EmptySpan)),
        (b"a", b"b", b"5", bad(Which::Suffix, 0)),
        (b"a", b"b", b"@5", Ok(())),
    ];
    for (start, end, suffix, want) in spans {
        assert_eq!(rt; batch.runset(start, end, suffix), want);
    }
    assert_eq!(rt;
        batch.rset(b"a", b"b", b"@", &long_value),
        bad(Which::Suffix, 1)
    );
    assert_eq!(rt;
        batch.rset(b"a", b"b", b"", &long_value),
        long(What::Value, 32_769, 32_768)
    );
    assert_eq!(rt; batch.rdel(b"b", b"a"), Err(BatchError::EmptySpan));
    assert_eq!(rt; batch.count(), 1);
    Ok(())
}

#[test]
fn a_batch_has_room_for_so_many_bytes(rt: HostRuntime) -> Result<(), Fail> {
    let mut batch = Batch::new(rt.alloc())?;
    let value = [b'x'; 32_768];
    for _ in 0..31 {
        batch.set(b"a", &value)?;
    }
    assert_eq!(rt;
        batch.set(b"a", &value),
        long(What::Bytes, 1_048_739, 1_048_576)
    );
    batch.set(b"a", &value[..32_605])?;
    assert_eq!(rt; batch.size(), 1_048_576);
    let bytes = batch.encode(rt.alloc())?;
    assert_eq!(rt; Batch::decode(rt.alloc(), &bytes)?.size(), 1_048_576);
    Ok(())
}

#[test]
fn a_batch_has_room_for_so_many_operations(rt: HostRuntime) -> Result<(), Fail> {
    let mut batch = Batch::new(rt.alloc())?;
    for _ in 0..1_000 {
        batch.del(b"a")?;
    }
    assert_eq!(rt; batch.del(b"a"), long(What::Ops, 1_001, 1_000));
    assert_eq!(rt; batch.count(), 1_000);
    Ok(())
}

/// Why bytes are no batch, by the plain reading.
fn plainly(alloc: Global, bytes: &[u8]) -> Option<BatchError> {
    plain::bad_place(alloc, bytes).map(|at| BatchError::BadBatch { at })
}

#[test]
fn one_byte_more_is_no_batch(rt: HostRuntime) {
    let longer = [1, 0, 1, 1, 1, b'a', 0, 1, b'p', 0];
    let error = Batch::decode(rt.alloc(), &longer).err();
    assert_eq!(rt; error, Some(BatchError::BadBatch { at: 9 }));
    assert_eq!(rt; error, plainly(rt.alloc(), &longer));
}

#[test]
fn every_truncation(rt: HostRuntime) {
    for len in 0..FIVE.len() {
        let bytes = &FIVE[..len];
        let error = Batch::decode(rt.alloc(), bytes).err();
        assert!(rt; error.is_some());
        assert_eq!(rt; error, plainly(rt.alloc(), bytes));
    }
}

#[test]
fn every_change_of_one_byte(rt: HostRuntime) {
    for place in 0..FIVE.len() {
        for byte in 0..=255 {
            let mut changed = FIVE;
            changed[place] = byte;
            assert_eq!(rt;
                Batch::decode(rt.alloc(), &changed).err(),
                plainly(rt.alloc(), &changed)
            );
        }
    }
}
