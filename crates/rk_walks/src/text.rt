// What an iterator lends, as a line.
use rk_model::{Cursor, SuffixValue};
use rk_script::{push_escaped, push_escaped_bytes};
use std::test::Fail;

/// All that an iterator lends.
#[derive(Clone, Copy)]
pub struct Lent<'a> {
    /// Where it stands.
    pub cursor: &'a Cursor,
    /// The key of the cursor, where it is at one.
    pub key: Option<&'a [u8]>,
    /// Whether a point is shown there, and whether the key is in a span.
    pub point_and_range: (bool, bool),
    /// The value of the point.
    pub value: Option<&'a [u8]>,
    /// The ends of the span.
    pub bounds: Option<(&'a [u8], &'a [u8])>,
    /// The pairs that hold over the span.
    pub pairs: &'a [SuffixValue],
    /// Whether the last move changed the span or its pairs.
    pub changed: bool,
}

impl Lent<'_> {
    // Whether the accessors agree with one another.
    fn agrees(&self) -> bool {
        let is_key = match self.cursor {
            Cursor::At(at) => self.key.is_some_and(|key| key == at.bytes()),
            _ => self.key.is_none(),
        };
        let (point, range) = self.point_and_range;
        is_key
            && (point || range) == self.key.is_some()
            && point == self.value.is_some()
            && range == self.bounds.is_some()
            && range != self.pairs.is_empty()
    }
}

/// Appends a line of what an iterator of a name lends after a move that answered whether it is at a key.
///
/// # Errors
///
/// Where what is lent does not agree with itself or with the answer, or memory is wanting.
pub fn push_lent(out: &mut Vec<u8>, name: &[u8], there: bool, lent: Lent<'_>) -> Result<(), Fail> {
    if there != lent.key.is_some() || !lent.agrees() {
        return Err("what is lent does not agree".into());
    }
    out.extend_from_slice(name)?;
    push_place(out, lent)?;
    push_span(out, lent)?;
    if lent.changed {
        out.extend_from_slice(b" changed")?;
    }
    out.push(b'\n')?;
    Ok(())
}

// The cursor, and the point there.
fn push_place(out: &mut Vec<u8>, lent: Lent<'_>) -> Result<(), Fail> {
    match lent.cursor {
        Cursor::Fresh => out.extend_from_slice(b" fresh")?,
        Cursor::Start => out.extend_from_slice(b" start")?,
        Cursor::End => out.extend_from_slice(b" end")?,
        Cursor::At(key) => {
            out.extend_from_slice(b" at ")?;
            push_escaped(out, key.bytes())?;
        }
    }
    if let Some(value) = lent.value {
        out.extend_from_slice(b" point ")?;
        push_escaped(out, value)?;
    }
    Ok(())
}

// The span, and its pairs.
fn push_span(out: &mut Vec<u8>, lent: Lent<'_>) -> Result<(), Fail> {
    let Some((start, end)) = lent.bounds else {
        return Ok(());
    };
    out.extend_from_slice(b" range ")?;
    push_escaped(out, start)?;
    out.push(b' ')?;
    push_escaped(out, end)?;
    for pair in lent.pairs {
        push_pair(out, pair)?;
    }
    Ok(())
}

fn push_pair(out: &mut Vec<u8>, pair: &SuffixValue) -> Result<(), Fail> {
    out.push(b' ')?;
    push_escaped_bytes(out, pair.suffix.bytes())?;
    out.push(b'=')?;
    push_escaped(out, pair.value.bytes())?;
    Ok(())
}
