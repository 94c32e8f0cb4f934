// A walk over sources of which each call is refused in turn, for want of memory and for a fault of the reader.
use crate::refusing::{Calls, Refusal, Refused, Refusing};
use rk_iter::open_over;
use rk_key::{read_key, read_suffix};
use rk_model::{Entry, IterOptions, RangeKey, RangeKeys, RangeKind, Span};
use rk_outside::{Bytes, SourceError};
use rk_walks::Step::{self, First, Ge, Last, Lt, Next, Prev};
use rk_walks::{Lent, Walks, numbered, ops_of, push_lent, shown};
use std::alloc::Global;
use std::test::Fail;

const STEPS: [Step<'static>; 17] = [
    Next,
    Next,
    Next,
    Prev,
    Next,
    Next,
    Next,
    Next,
    Prev,
    Prev,
    Prev,
    Ge(b"b"),
    Prev,
    Lt(b"d"),
    Ge(b"c"),
    First,
    Last,
];

/// What is shown before and behind them. The two spans of the sources are one, and the mask hides `b@3`.
const SHOWN: &[u8] =
    b"i fresh\ni at a point p range a d @5=x changed\ni at b@7 point q range a d @5=x\ni at e point r changed\ni at b@7 point q range a d @5=x changed\ni at e point r changed\ni end\ni end\ni end\ni at e point r\ni at b@7 point q range a d @5=x changed\ni at a point p range a d @5=x\ni at b range a d @5=x\ni at a point p range a d @5=x\ni at b@7 point q range a d @5=x\ni at c range a d @5=x\ni at a point p range a d @5=x\ni at e point r changed\n";

/// A source of the points of a file, numbered from the first number on.
fn points(alloc: Global, first: u64, file: &[u8]) -> Result<Refusing<Entry>, Fail> {
    Ok(Refusing::new(numbered(alloc, first, ops_of(alloc, file)?)?))
}

/// A source of one span under `@5`.
fn span(alloc: Global, start: &[u8], end: &[u8], seq: u64) -> Result<Refusing<Span>, Fail> {
    let mut keys = Vec::new(alloc);
    keys.push(RangeKey {
        kind: RangeKind::Set,
        seq,
        suffix: read_suffix(alloc, b"@5")?,
        value: Bytes::from_slice(alloc, b"x")?,
    })?;
    let mut spans = Vec::new(alloc);
    spans.push(Span {
        start: read_key(alloc, start)?,
        end: read_key(alloc, end)?,
        keys: RangeKeys::from_vec(keys),
    })?;
    Ok(Refusing::new(spans))
}

/// An iterator over two sources of points and two of spans, with a mask.
fn opened(alloc: Global) -> Result<Refused, Fail> {
    let mut all_points = Vec::new(alloc);
    all_points.push(points(alloc, 1, b"put w a p\nput w b@3 s")?)?;
    all_points.push(points(alloc, 3, b"put w b@7 q\nput w e r")?)?;
    let mut spans = Vec::new(alloc);
    spans.push(span(alloc, b"a", b"c", 5)?)?;
    spans.push(span(alloc, b"c", b"d", 6)?)?;
    let options = IterOptions {
        lower: None,
        upper: None,
        mask: Some(read_suffix(alloc, b"@9")?),
    };
    Ok(open_over(alloc, all_points, spans, 9, &options)?)
}

/// A walk that insists on its moves.
#[derive(Drop)]
struct Insisting {
    inside: Refused,
    calls: Calls,
}

impl Insisting {
    // Makes a move, and answers what it answers.
    fn attempt(
        &mut self,
        alloc: Global,
        step: Step<'_>,
    ) -> Result<Result<bool, SourceError>, Fail> {
        let Insisting { inside, calls } = self;
        Ok(match step {
            Step::First => inside.first(calls),
            Step::Last => inside.last(calls),
            Step::Next => inside.next(calls),
            Step::Prev => inside.prev(calls),
            Step::Ge(key) => inside.seek_ge(calls, &read_key(alloc, key)?),
            Step::Lt(key) => inside.seek_lt(calls, &read_key(alloc, key)?),
        })
    }

    // All that is lent now, as a line.
    fn line(&self, alloc: Global) -> Result<Vec<u8>, Fail> {
        let mut line = Vec::new(alloc);
        push_lent(&mut line, b"i", self.inside.key().is_some(), self.lent())?;
        Ok(line)
    }
}

impl Walks for Insisting {
    // Where the move is refused, it has its cause and all that is lent is as before. Then it is made again.
    fn make(&mut self, alloc: Global, step: Step<'_>) -> Result<bool, Fail> {
        let before = self.line(alloc)?;
        let error = match self.attempt(alloc, step)? {
            Ok(there) => return Ok(there),
            Err(error) => error,
        };
        if !self.calls.gives(error) || self.line(alloc)?.as_slice() != before.as_slice() {
            return Err("a refusal without its cause, or with a change".into());
        }
        Ok(self.attempt(alloc, step)??)
    }

    fn lent(&self) -> Lent<'_> {
        Lent {
            cursor: self.inside.cursor(),
            key: self.inside.key(),
            point_and_range: self.inside.has_point_and_range(),
            value: self.inside.value(),
            bounds: self.inside.range_bounds(),
            pairs: self.inside.range_keys(),
            changed: self.inside.range_key_changed(),
        }
    }
}

/// Makes the walk with the call of this number refused, and answers whether it came so far.
fn is_refused(alloc: Global, number: u64, refusal: Refusal) -> Result<bool, Fail> {
    let calls = Calls::refusing(number, refusal);
    let inside = opened(alloc)?;
    goes_on(alloc, &mut Insisting { inside, calls })
}

// Makes the walk, which shows the same in any case, and answers whether a call was refused.
fn goes_on(alloc: Global, walk: &mut Insisting) -> Result<bool, Fail> {
    if shown(alloc, walk, &STEPS)?.as_slice() != SHOWN {
        return Err("the walk shows something else".into());
    }
    Ok(walk.calls.has_refused())
}

/// Refuses each call of the walk in turn, and answers how many there are.
fn refusals(alloc: Global, refusal: Refusal) -> Result<u64, Fail> {
    for number in 1..10_000u64 {
        if !is_refused(alloc, number, refusal)? {
            return Ok(number - 1);
        }
    }
    Err("there are too many calls".into())
}

#[test]
fn a_walk_goes_on_behind_a_refusal(rt: HostRuntime) -> Result<(), Fail> {
    for refusal in [Refusal::Memory, Refusal::Fault] {
        let count = refusals(rt.alloc(), refusal)?;
        assert!(rt; count > STEPS.len() as u64, "{count} calls");
    }
    Ok(())
}
