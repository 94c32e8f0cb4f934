// Walks over any source of spans, and what it shows on the way.
use rk_model::SpanSource;
use rk_outside::Counting;
use std::test::Fail;

/// The number of the newest range key here.
pub(super) fn newest<R: Counting, S: SpanSource<R>>(source: &S, _: &R) -> Option<u64> {
    let key = source.here()?.keys.as_slice().first()?;
    Some(key.seq)
}

/// One step, where there is a span, and the number of the newest range key then.
pub(super) fn stepped<R: Counting, S: SpanSource<R>>(
    source: &mut S,
    reader: &mut R,
    forward: bool,
) -> Result<Option<u64>, Fail> {
    let Some(_span) = source.here() else {
        return Ok(None);
    };
    if forward {
        source.next(reader)?;
    } else {
        source.prev(reader)?;
    }
    Ok(newest(source, reader))
}
