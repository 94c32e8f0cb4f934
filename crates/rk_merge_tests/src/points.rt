// Merged points, and what is visible of them.
use crate::walks::{walk, walk_from};
use rk_key::read_key;
use rk_model::{Cut, Entry, ListPoints, Op};
use rk_outside::{Bytes, NoReads};
use rk_pointmerge::{PointMerge, Visible};
use std::alloc::Global;
use std::test::Fail;

type Merge = PointMerge<ListPoints>;

fn put(alloc: Global, key: &[u8], seq: u64) -> Result<Entry, Fail> {
    Ok(Entry {
        op: Op::Put {
            key: read_key(alloc, key)?,
            value: Bytes::from_slice(alloc, b"v")?,
        },
        seq,
    })
}

fn del(alloc: Global, key: &[u8], seq: u64) -> Result<Entry, Fail> {
    Ok(Entry {
        op: Op::Del {
            key: read_key(alloc, key)?,
        },
        seq,
    })
}

fn list(alloc: Global, entries: [Entry; 2]) -> Result<ListPoints, Fail> {
    let mut points = Vec::new(alloc);
    for entry in entries {
        points.push(entry)?;
    }
    Ok(ListPoints::new(points))
}

/// A merge of `a` set at 1 and `c` set at 4, of `a` deleted at 2 and `b` set at 3, and of `a` set at 6 and 5.
fn merge(alloc: Global) -> Result<Merge, Fail> {
    let mut sources = Vec::new(alloc);
    sources.push(list(alloc, [put(alloc, b"a", 1)?, put(alloc, b"c", 4)?])?)?;
    sources.push(list(alloc, [del(alloc, b"a", 2)?, put(alloc, b"b", 3)?])?)?;
    sources.push(list(alloc, [put(alloc, b"a", 6)?, put(alloc, b"a", 5)?])?)?;
    Ok(PointMerge::new(alloc, sources)?)
}

#[test]
fn entries_come_in_order(rt: HostRuntime) -> Result<(), Fail> {
    let mut merge = merge(rt.alloc())?;
    let numbers = walk(rt.alloc(), &mut merge, &mut NoReads, b"a", &[true; 6])?;
    assert_eq!(rt; numbers.as_slice(), [6, 5, 2, 1, 3, 4, 0].as_slice());
    Ok(())
}

#[test]
fn entries_come_in_order_backward(rt: HostRuntime) -> Result<(), Fail> {
    let mut merge = merge(rt.alloc())?;
    let end = Cut::Below(&read_key(rt.alloc(), b"d")?);
    let numbers = walk_from(
        rt.alloc(),
        &mut merge,
        &mut NoReads,
        end,
        false,
        &[false; 6],
    )?;
    assert_eq!(rt; numbers.as_slice(), [4, 3, 1, 2, 5, 6, 0].as_slice());
    Ok(())
}

#[test]
fn a_turn_goes_to_the_neighbour(rt: HostRuntime) -> Result<(), Fail> {
    let mut merge = merge(rt.alloc())?;
    let steps = [
        true, true, true, false, false, true, true, true, true, false,
    ];
    let numbers = walk(rt.alloc(), &mut merge, &mut NoReads, b"a", &steps)?;
    assert_eq!(rt;
        numbers.as_slice(),
        [6, 5, 2, 1, 2, 5, 2, 1, 3, 4, 3].as_slice()
    );
    Ok(())
}

/// What is seen at a number of `a` put at 2 and deleted at 3, of `b` put at 4, and of `c` put at 1.
fn visible(alloc: Global, n: u64) -> Result<Visible<Merge>, Fail> {
    let mut sources = Vec::new(alloc);
    for entries in [
        [put(alloc, b"a", 2)?, put(alloc, b"c", 1)?],
        [del(alloc, b"a", 3)?, put(alloc, b"b", 4)?],
    ] {
        sources.push(list(alloc, entries)?)?;
    }
    sources.push(ListPoints::new(Vec::new(alloc)))?;
    Ok(Visible::new(alloc, PointMerge::new(alloc, sources)?, n)?)
}

/// The numbers of what is shown at a number from the first key on, at each of the steps.
fn looks(alloc: Global, n: u64, steps: &[bool]) -> Result<Vec<u64>, Fail> {
    let mut visible = visible(alloc, n)?;
    walk(alloc, &mut visible, &mut NoReads, b"a", steps)
}

#[test]
fn a_deleted_key_is_not_seen(rt: HostRuntime) -> Result<(), Fail> {
    let numbers = looks(rt.alloc(), 3, &[true])?;
    assert_eq!(rt; numbers.as_slice(), [1, 0].as_slice());
    Ok(())
}

#[test]
fn a_key_is_seen_before_its_delete(rt: HostRuntime) -> Result<(), Fail> {
    let numbers = looks(rt.alloc(), 2, &[true, true])?;
    assert_eq!(rt; numbers.as_slice(), [2, 1, 0].as_slice());
    Ok(())
}

#[test]
fn steps_turn_among_what_is_visible(rt: HostRuntime) -> Result<(), Fail> {
    let numbers = looks(rt.alloc(), 4, &[true, false, true, false, false])?;
    assert_eq!(rt; numbers.as_slice(), [4, 1, 4, 1, 4, 0].as_slice());
    Ok(())
}
