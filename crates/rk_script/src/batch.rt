// Lines that add to a writer's batch.
ghost use Rattle.std.specs.Prelude.{map};
ghost use Rattle.rk_script.specs.Asked.{event_asked};
ghost use Rattle.rk_script.specs.Grammar.{two, three, four, five, put, del, range_set, range_unset, range_del};
ghost use Rattle.rk_script.specs.LineErrors.{ReadsAs};

use crate::Why;
use crate::asked::{Asked, Change};
use crate::error::{LineError, Read};
use crate::escape::Escaped;
use crate::words::name_of;

/// A point set: a writer, a key and a value.
pub(crate) fn put<'a>(words: &[&'a [u8]]) -> Read<Asked<'a>>
    ensures { ReadsAs event_asked result (three put (map (λ w. w.now) words.now)) }
{
    match words {
        [writer, key, value] => put_of(writer, key, value),
        _ => Err(LineError::Bad(Why::Count)),
    }
}

fn put_of<'a>(writer: &'a [u8], key: &'a [u8], value: &'a [u8]) -> Read<Asked<'a>>
    ensures { ReadsAs event_asked result (put writer.now key.now value.now) }
{
    let writer = name_of(writer)?;
    let key = Escaped::read(key)?;
    let value = Escaped::read(value)?;
    Ok(Asked::Batch {
        writer,
        change: Change::Put { key, value },
    })
}

/// A point delete: a writer and a key.
pub(crate) fn del<'a>(words: &[&'a [u8]]) -> Read<Asked<'a>>
    ensures { ReadsAs event_asked result (two del (map (λ w. w.now) words.now)) }
{
    match words {
        [writer, key] => del_of(writer, key),
        _ => Err(LineError::Bad(Why::Count)),
    }
}

fn del_of<'a>(writer: &'a [u8], key: &'a [u8]) -> Read<Asked<'a>>
    ensures { ReadsAs event_asked result (del writer.now key.now) }
{
    let writer = name_of(writer)?;
    let key = Escaped::read(key)?;
    Ok(Asked::Batch {
        writer,
        change: Change::Del { key },
    })
}

/// A range key set: a writer, a start, an end, a suffix and a value.
pub(crate) fn range_set<'a>(words: &[&'a [u8]]) -> Read<Asked<'a>>
    ensures { ReadsAs event_asked result (five range_set (map (λ w. w.now) words.now)) }
{
    match words {
        [writer, start, end, suffix, value] => range_set_of(writer, start, end, suffix, value),
        _ => Err(LineError::Bad(Why::Count)),
    }
}

fn range_set_of<'a>(
    writer: &'a [u8],
    start: &'a [u8],
    end: &'a [u8],
    suffix: &'a [u8],
    value: &'a [u8],
) -> Read<Asked<'a>>
    ensures { ReadsAs event_asked result
        (range_set writer.now start.now end.now suffix.now value.now) }
{
    let writer = name_of(writer)?;
    let start = Escaped::read(start)?;
    let end = Escaped::read(end)?;
    let suffix = Escaped::read(suffix)?;
    let value = Escaped::read(value)?;
    Ok(Asked::Batch {
        writer,
        change: Change::RangeSet {
            start,
            end,
            suffix,
            value,
        },
    })
}

/// A range key unset: a writer, a start, an end and a suffix.
pub(crate) fn range_unset<'a>(words: &[&'a [u8]]) -> Read<Asked<'a>>
    ensures { ReadsAs event_asked result (four range_unset (map (λ w. w.now) words.now)) }
{
    match words {
        [writer, start, end, suffix] => range_unset_of(writer, start, end, suffix),
        _ => Err(LineError::Bad(Why::Count)),
    }
}

fn range_unset_of<'a>(
    writer: &'a [u8],
    start: &'a [u8],
    end: &'a [u8],
    suffix: &'a [u8],
) -> Read<Asked<'a>>
    ensures { ReadsAs event_asked result (range_unset writer.now start.now end.now suffix.now) }
{
    let writer = name_of(writer)?;
    let start = Escaped::read(start)?;
    let end = Escaped::read(end)?;
    let suffix = Escaped::read(suffix)?;
    Ok(Asked::Batch {
        writer,
        change: Change::RangeUnset { start, end, suffix },
    })
}

/// A range key delete: a writer, a start and an end.
pub(crate) fn range_del<'a>(words: &[&'a [u8]]) -> Read<Asked<'a>>
    ensures { ReadsAs event_asked result (three range_del (map (λ w. w.now) words.now)) }
{
    match words {
        [writer, start, end] => range_del_of(writer, start, end),
        _ => Err(LineError::Bad(Why::Count)),
    }
}

fn range_del_of<'a>(writer: &'a [u8], start: &'a [u8], end: &'a [u8]) -> Read<Asked<'a>>
    ensures { ReadsAs event_asked result (range_del writer.now start.now end.now) }
{
    let writer = name_of(writer)?;
    let start = Escaped::read(start)?;
    let end = Escaped::read(end)?;
    Ok(Asked::Batch {
        writer,
        change: Change::RangeDel { start, end },
    })
}
