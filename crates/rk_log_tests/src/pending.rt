// Groups that are filled, and read again.
use rk_batch::{Batch, BatchError};
use rk_log::{Group, Pending};
use rk_outside::NoMemory;
use std::alloc::Global;
use std::test::Fail;

// The payload of `put a p` alone, with the number 1.
const ONE: [u8; 25] = [
    0, 0, 0, 0, 0, 0, 0, 1, 0, 0, 0, 1, 0, 0, 0, 9, 1, 0, 1, 1, 1, b'a', 0, 1, b'p',
];

// The payload of `put a p` twice, with the numbers 256 and 257.
const TWO: [u8; 38] = [
    0, 0, 0, 0, 0, 0, 1, 0, 0, 0, 0, 2, 0, 0, 0, 9, 1, 0, 1, 1, 1, b'a', 0, 1, b'p', 0, 0, 0, 9, 1,
    0, 1, 1, 1, b'a', 0, 1, b'p',
];

fn put_a(alloc: Global) -> Result<Batch, BatchError> {
    let mut batch = Batch::new(alloc)?;
    batch.set(b"a", b"p")?;
    Ok(batch)
}

// Adds a batch, where there is one and room for it.
fn push(pending: &mut Pending, first: u64, batch: &Batch) -> Result<(), NoMemory> {
    if batch.count() == 0 || pending.count() > 8 || pending.size() > 1000 {
        return Err(NoMemory);
    }
    pending.push(first, batch)
}

#[test]
fn batches_are_spelled_as_one_group(rt: HostRuntime) -> Result<(), Fail> {
    let alloc = rt.alloc();
    let batch = put_a(alloc)?;
    let mut pending = Pending::new(alloc);
    assert_eq!(rt; (pending.count(), pending.size()), (0, 0));
    push(&mut pending, 1, &batch)?;
    assert_eq!(rt; (pending.count(), pending.size()), (1, 9));
    assert_eq!(rt; pending.payload(alloc)?.as_slice(), ONE.as_slice());
    pending.clear();
    assert_eq!(rt; (pending.count(), pending.size()), (0, 0));
    push(&mut pending, 256, &batch)?;
    push(&mut pending, 257, &batch)?;
    assert_eq!(rt; (pending.count(), pending.size()), (2, 18));
    assert_eq!(rt; pending.payload(alloc)?.as_slice(), TWO.as_slice());
    Ok(())
}

// The payload with one batch more, where there is one and room for it.
fn payload_with(
    pending: &Pending,
    alloc: Global,
    first: u64,
    batch: &Batch,
) -> Result<Vec<u8>, NoMemory> {
    if batch.count() == 0 || pending.count() > 8 {
        return Err(NoMemory);
    }
    pending.payload_with(alloc, first, batch)
}

#[test]
fn a_batch_is_spelled_with_those_that_wait(rt: HostRuntime) -> Result<(), Fail> {
    let alloc = rt.alloc();
    let batch = put_a(alloc)?;
    let mut pending = Pending::new(alloc);
    assert_eq!(rt;
        payload_with(&pending, alloc, 1, &batch)?.as_slice(),
        ONE.as_slice()
    );
    push(&mut pending, 256, &batch)?;
    assert_eq!(rt;
        payload_with(&pending, alloc, 257, &batch)?.as_slice(),
        TWO.as_slice()
    );
    assert_eq!(rt; (pending.count(), pending.size()), (1, 9));
    Ok(())
}

#[test]
fn a_group_is_read_again(rt: HostRuntime) -> Result<(), Fail> {
    match Group::decode(rt.alloc(), &TWO)? {
        Some(group) => assert_eq!(rt; (group.first, group.batches.len()), (256, 2)),
        None => panic!(rt; "it is a group"),
    }
    assert!(rt; Group::decode(rt.alloc(), &TWO[..37])?.is_none());
    Ok(())
}
