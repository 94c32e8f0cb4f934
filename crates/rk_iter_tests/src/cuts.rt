// The same operations, cut into chunks at every place, beside the evaluator of the definitions.
use crate::chunks::Chunks;
use rk_iter::Iter;
use rk_key::{read_key, read_suffix};
use rk_model::{IterOptions, Op, Plain};
use rk_walks::Step::{self, First, Ge, Last, Lt, Next, Prev};
use rk_walks::{numbered, ops_of, shown};
use std::alloc::Global;
use std::mem;
use std::test::Fail;

/// Points over and beside range keys that are set, set again in the same way, unset and deleted.
const OPS: &[u8] =
    b"rset w a d @5 x\nput w b@7 q\nput w b@3 p\nrset w c f @5 x\nrunset w d e @5\nput w e r\ndel w b@3\nrset w b c @9 y\nput w b@3 s\nrdel w e g";

/// How many operations these are.
const COUNT: usize = 10;

/// Keys below, at, between and above all that is written.
const KEYS: [&[u8]; 6] = [b"a", b"b", b"b@5", b"c@2", b"e", b"g"];

/// Up to which number the operations are seen, and the bounds and the mask, each empty where there is none.
type View = (u64, &'static [u8], &'static [u8], &'static [u8]);

const VIEWS: [View; 6] = [
    (10, b"", b"", b""),
    (10, b"", b"", b"@9"),
    (10, b"b", b"e", b"@4"),
    (6, b"", b"", b"@8"),
    (9, b"b@4", b"d@2", b""),
    (8, b"c", b"", b""),
];

/// On and back with turns on the way, seeks of each key, and both ends.
fn walk(alloc: Global) -> Result<Vec<Step<'static>>, Fail> {
    let mut steps = Vec::new(alloc);
    for turns in [[Next, Next, Next, Prev], [Prev, Prev, Prev, Next]] {
        for _ in 0..4 {
            steps.extend_from_slice(&turns)?;
        }
    }
    for key in KEYS {
        steps.extend_from_slice(&[Ge(key), Prev, Lt(key)])?;
    }
    steps.extend_from_slice(&[First, Prev, Last, Next])?;
    Ok(steps)
}

/// The options of a view.
fn options_of(alloc: Global, view: View) -> Result<IterOptions, Fail> {
    let (_, lower, upper, mask) = view;
    Ok(IterOptions {
        lower: read_key(alloc, lower).ok(),
        upper: read_key(alloc, upper).ok(),
        mask: Some(read_suffix(alloc, mask)?),
    })
}

/// The evaluator with a view of the operations.
fn evaluator(alloc: Global, view: View) -> Result<Plain, Fail> {
    let entries = numbered(alloc, 1, ops_of(alloc, OPS)?)?;
    let seen = entries
        .get(..usize::try_from(view.0)?)
        .ok_or("there are fewer operations")?;
    Ok(Plain::new(alloc, seen, &options_of(alloc, view)?)?)
}

/// The operations in chunks that end behind so many of them.
fn cut(alloc: Global, ops: &[Op], places: &[usize]) -> Result<Chunks, Fail> {
    let mut chunks = Chunks::new(alloc);
    let mut part = Vec::new(alloc);
    for (place, op) in ops.iter().enumerate() {
        if places.contains(&place) {
            chunks.commit(mem::replace(&mut part, Vec::new(alloc)))?;
        }
        part.push(op.copy()?)?;
    }
    chunks.commit(part)?;
    Ok(chunks)
}

/// What an iterator with a view of the operations shows on a walk, in chunks that end behind so many of them.
fn shown_cut(
    alloc: Global,
    places: &[usize],
    view: View,
    steps: &[Step<'_>],
) -> Result<Vec<u8>, Fail> {
    let ops = ops_of(alloc, OPS)?;
    let pins = cut(alloc, &ops, places)?.pins_at(view.0)?;
    let mut iter = Iter::open(alloc, pins, &options_of(alloc, view)?)?;
    shown(alloc, &mut iter, steps)
}

#[test]
fn one_or_two_cuts_change_nothing(rt: HostRuntime) -> Result<(), Fail> {
    let alloc = rt.alloc();
    let steps = walk(alloc)?;
    for view in VIEWS {
        let wanted = shown(alloc, &mut evaluator(alloc, view)?, &steps)?;
        for first in 1..COUNT {
            for second in first..COUNT {
                let shown = shown_cut(alloc, &[first, second], view, &steps)?;
                assert_eq!(rt;
                    shown.as_slice(),
                    wanted.as_slice(),
                    "{view:?}, cut at {first} and {second}"
                );
            }
        }
    }
    Ok(())
}

#[test]
fn one_chunk_and_one_for_each_operation_show_the_same(rt: HostRuntime) -> Result<(), Fail> {
    let alloc = rt.alloc();
    let steps = walk(alloc)?;
    for view in VIEWS {
        let wanted = shown(alloc, &mut evaluator(alloc, view)?, &steps)?;
        for places in [[].as_slice(), &[1, 2, 3, 4, 5, 6, 7, 8, 9]] {
            let shown = shown_cut(alloc, places, view, &steps)?;
            assert_eq!(rt;
                shown.as_slice(),
                wanted.as_slice(),
                "{view:?}, cut at {places:?}"
            );
        }
    }
    Ok(())
}
