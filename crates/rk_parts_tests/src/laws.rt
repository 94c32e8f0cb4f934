// The cover after one more operation.
use rk_key::{read_key, read_suffix};
use rk_laws::apply;
use rk_model::{Op, SuffixValue};
use rk_outside::Bytes;
use std::alloc::Global;
use std::test::Fail;

fn set(alloc: Global, suffix: &[u8], value: &[u8]) -> Result<Op, Fail> {
    Ok(Op::RangeSet {
        start: read_key(alloc, b"a")?,
        end: read_key(alloc, b"z")?,
        suffix: read_suffix(alloc, suffix)?,
        value: Bytes::from_slice(alloc, value)?,
    })
}

fn unset(alloc: Global, suffix: &[u8]) -> Result<Op, Fail> {
    Ok(Op::RangeUnset {
        start: read_key(alloc, b"a")?,
        end: read_key(alloc, b"z")?,
        suffix: read_suffix(alloc, suffix)?,
    })
}

fn delete(alloc: Global) -> Result<Op, Fail> {
    Ok(Op::RangeDel {
        start: read_key(alloc, b"a")?,
        end: read_key(alloc, b"z")?,
    })
}

/// The suffixes and values in a row.
fn spelled(alloc: Global, pairs: &[SuffixValue]) -> Result<Vec<u8>, Fail> {
    let mut bytes = Vec::new(alloc);
    for pair in pairs {
        bytes.extend_from_slice(pair.suffix.bytes())?;
        bytes.extend_from_slice(pair.value.bytes())?;
    }
    Ok(bytes)
}

/// What some operations make of the empty cover.
fn after(alloc: Global, operations: &[Op]) -> Result<Vec<u8>, Fail> {
    let mut pairs = Vec::new(alloc);
    for operation in operations {
        apply(&mut pairs, operation)?;
    }
    spelled(alloc, &pairs)
}

#[test]
fn sets_stand_in_order(rt: HostRuntime) -> Result<(), Fail> {
    let alloc = rt.alloc();
    let operations = [set(alloc, b"@3", b"b")?, set(alloc, b"@5", b"a")?];
    assert_eq!(rt; after(alloc, &operations)?.as_slice(), b"@5a@3b".as_slice());
    Ok(())
}

#[test]
fn a_set_replaces_its_suffix(rt: HostRuntime) -> Result<(), Fail> {
    let alloc = rt.alloc();
    let operations = [set(alloc, b"@5", b"a")?, set(alloc, b"@5", b"c")?];
    assert_eq!(rt; after(alloc, &operations)?.as_slice(), b"@5c".as_slice());
    Ok(())
}

#[test]
fn an_unset_removes_its_suffix(rt: HostRuntime) -> Result<(), Fail> {
    let alloc = rt.alloc();
    let operations = [
        set(alloc, b"@5", b"a")?,
        set(alloc, b"@3", b"b")?,
        unset(alloc, b"@5")?,
    ];
    assert_eq!(rt; after(alloc, &operations)?.as_slice(), b"@3b".as_slice());
    Ok(())
}

#[test]
fn a_delete_removes_all(rt: HostRuntime) -> Result<(), Fail> {
    let alloc = rt.alloc();
    let operations = [
        set(alloc, b"@5", b"a")?,
        set(alloc, b"@3", b"b")?,
        delete(alloc)?,
    ];
    assert_eq!(rt; after(alloc, &operations)?.as_slice(), b"".as_slice());
    Ok(())
}
