// The operations of a command file, and entries of them.
ghost use Rattle.std.specs.Prelude.{IfOk};
ghost use Rattle.rk_mem.specs.Chunks.{NumbersRise};

use rk_batch::Batch;
use rk_model::{Entry, Op};
use rk_script::{Event, read_script};
use std::alloc::Global;
use std::test::Fail;

/// Adds the operation of a line to a batch.
///
/// # Errors
///
/// Where the line is no operation, or the batch refuses it.
pub fn add_op(batch: &mut Batch, event: &Event) -> Result<(), Fail> {
    match event {
        Event::Put { key, value, .. } => batch.set(key.bytes(), value.bytes())?,
        Event::Del { key, .. } => batch.del(key.bytes())?,
        Event::RangeSet {
            start,
            end,
            suffix,
            value,
            ..
        } => batch.rset(start.bytes(), end.bytes(), suffix.bytes(), value.bytes())?,
        Event::RangeUnset {
            start,
            end,
            suffix,
            ..
        } => batch.runset(start.bytes(), end.bytes(), suffix.bytes())?,
        Event::RangeDel { start, end, .. } => batch.rdel(start.bytes(), end.bytes())?,
        _ => return Err("a line that is no operation".into()),
    }
    Ok(())
}

/// The operations of a file's lines.
///
/// # Errors
///
/// Where the file is refused, or a line is no operation.
pub fn ops_of(alloc: Global, file: &[u8]) -> Result<Vec<Op>, Fail> {
    let mut batch = Batch::new(alloc)?;
    for line in &read_script(alloc, file)? {
        add_op(&mut batch, &line.event)?;
    }
    Ok(batch.take_ops())
}

/// Entries of these operations, numbered from the first number on.
///
/// # Errors
///
/// Where the numbers or the memory do not suffice.
pub fn numbered(alloc: Global, first: u64, ops: Vec<Op>) -> Result<Vec<Entry>, Fail>
    ensures rise { IfOk result (λ es. NumbersRise es.items) }
{
    let mut entries = Vec::new(alloc);
    for op in ops {
        let seq = first
            .checked_add(entries.len() as u64)
            .ok_or("too many entries")?;
        entries.push(Entry { op, seq })?;
    }
    Ok(entries)
}
