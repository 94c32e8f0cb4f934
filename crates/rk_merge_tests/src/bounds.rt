// Sources cut at bounds, and of two kinds.
use crate::walks::{number, turn_at_end, walk, walk_from};
use rk_key::read_key;
use rk_model::{Cut, Entry, ListPoints, Op, PointSource};
use rk_outside::{Bytes, NoReads};
use rk_sources::{Bounded, Either};
use std::alloc::Global;
use std::test::Fail;

type Points = Either<ListPoints, Bounded<ListPoints>>;

/// A put of each of the keys `a`, `b`, `c` and `d`.
fn list(alloc: Global) -> Result<ListPoints, Fail> {
    let mut entries = Vec::new(alloc);
    for (key, seq) in [(b"a", 1), (b"b", 2), (b"c", 3), (b"d", 4)] {
        let key = read_key(alloc, key)?;
        let value = Bytes::from_slice(alloc, b"v")?;
        entries.push(Entry {
            op: Op::Put { key, value },
            seq,
        })?;
    }
    Ok(ListPoints::new(entries))
}

fn bounded(alloc: Global, lower: &[u8], upper: &[u8]) -> Result<Points, Fail> {
    let lower = Some(read_key(alloc, lower)?);
    let upper = Some(read_key(alloc, upper)?);
    Ok(Either::Second(Bounded::new(list(alloc)?, lower, upper)))
}

#[test]
fn a_walk_stays_within_the_bounds(rt: HostRuntime) -> Result<(), Fail> {
    let mut points = bounded(rt.alloc(), b"b", b"d")?;
    let steps = [true, false, true, true];
    let numbers = walk_from(
        rt.alloc(),
        &mut points,
        &mut NoReads,
        Cut::Start,
        true,
        &steps,
    )?;
    assert_eq!(rt; numbers.as_slice(), [2, 3, 2, 3, 0].as_slice());
    Ok(())
}

#[test]
fn turns_beyond_the_bounds_lead_within(rt: HostRuntime) -> Result<(), Fail> {
    let mut points = bounded(rt.alloc(), b"b", b"d")?;
    assert_eq!(rt; turn_at_end(&mut points, &mut NoReads, true)?, (0, 3));
    assert_eq!(rt; turn_at_end(&mut points, &mut NoReads, false)?, (0, 2));
    Ok(())
}

#[test]
fn nothing_lies_between_bounds_that_meet(rt: HostRuntime) -> Result<(), Fail> {
    let mut points = bounded(rt.alloc(), b"c", b"c")?;
    let numbers = walk(rt.alloc(), &mut points, &mut NoReads, b"a", &[])?;
    assert_eq!(rt; numbers.as_slice(), [0].as_slice());
    Ok(())
}

#[test]
fn a_source_that_stands_below_the_bounds_is_lost_until_a_seek(rt: HostRuntime) -> Result<(), Fail> {
    let alloc = rt.alloc();
    let mut source = list(alloc)?;
    source.seek_ge(&mut NoReads, &read_key(alloc, b"a")?)?;
    let mut points = Bounded::new(source, Some(read_key(alloc, b"c")?), None);
    assert_eq!(rt; number(&points, &NoReads), 0);
    let numbers = walk(alloc, &mut points, &mut NoReads, b"a", &[true, true])?;
    assert_eq!(rt; numbers.as_slice(), [3, 4, 0].as_slice());
    Ok(())
}

#[test]
fn the_first_kind_is_the_source_itself(rt: HostRuntime) -> Result<(), Fail> {
    let mut points: Points = Either::First(list(rt.alloc())?);
    let numbers = walk(
        rt.alloc(),
        &mut points,
        &mut NoReads,
        b"b",
        &[true, true, true],
    )?;
    assert_eq!(rt; numbers.as_slice(), [2, 3, 4, 0].as_slice());
    Ok(())
}
