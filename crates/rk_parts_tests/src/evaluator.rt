// The evaluator on worked examples, by hand.
use rk_key::{Suffix, UserKey, read_key, read_suffix};
use rk_model::{Cursor, Entry, IterOptions, Op, Plain};
use rk_outside::Bytes;
use std::alloc::Global;
use std::process::Abort;
use std::test::Fail;

/// The i-th word of a line. A dash, or no word, is the empty text.
fn word(line: &str, i: usize) -> &str {
    match line.split(' ').nth(i) {
        Some("-") | None => "",
        Some(word) => word,
    }
}

fn key_at(alloc: Global, line: &str, i: usize) -> Result<UserKey, Fail> {
    Ok(read_key(alloc, word(line, i).as_bytes())?)
}

fn suffix_at(alloc: Global, line: &str, i: usize) -> Result<Suffix, Fail> {
    Ok(read_suffix(alloc, word(line, i).as_bytes())?)
}

fn value_at(alloc: Global, line: &str, i: usize) -> Result<Bytes, Fail> {
    Ok(Bytes::from_slice(alloc, word(line, i).as_bytes())?)
}

/// Reads `put KEY VALUE`, `rset START END SUFFIX VALUE` or `runset START END SUFFIX`.
fn read_op(alloc: Global, line: &str) -> Result<Op, Fail> {
    let key = key_at(alloc, line, 1)?;
    if word(line, 0) == "put" {
        let value = value_at(alloc, line, 2)?;
        return Ok(Op::Put { key, value });
    }
    let end = key_at(alloc, line, 2)?;
    let suffix = suffix_at(alloc, line, 3)?;
    if word(line, 0) == "runset" {
        return Ok(Op::RangeUnset {
            start: key,
            end,
            suffix,
        });
    }
    let value = value_at(alloc, line, 4)?;
    Ok(Op::RangeSet {
        start: key,
        end,
        suffix,
        value,
    })
}

/// Reads operations with `;` between them, and numbers them from 1.
fn read_entries(alloc: Global, lines: &str) -> Result<Vec<Entry>, Fail> {
    let mut entries = Vec::new(alloc);
    let mut seq = 0u64;
    for line in lines.split(';') {
        seq = seq.wrapping_add(1);
        let op = read_op(alloc, line)?;
        entries.push(Entry { op, seq })?;
    }
    Ok(entries)
}

fn read_bound(alloc: Global, line: &str, i: usize) -> Result<Option<UserKey>, Fail> {
    if word(line, i).is_empty() {
        return Ok(None);
    }
    Ok(Some(key_at(alloc, line, i)?))
}

/// Opens an evaluator over operations, with the options `LOWER UPPER MASK`.
fn open(alloc: Global, ops: &str, options: &str) -> Result<Plain, Fail> {
    let entries = read_entries(alloc, ops)?;
    let lower = read_bound(alloc, options, 0)?;
    let upper = read_bound(alloc, options, 1)?;
    let mask = Some(suffix_at(alloc, options, 2)?);
    let options = IterOptions { lower, upper, mask };
    Ok(Plain::new(alloc, &entries, &options)?)
}

/// Makes the move `first`, `last`, `next`, `prev`, `seekge KEY` or `seeklt KEY`.
fn make(alloc: Global, plain: &mut Plain, step: &str) -> Result<bool, Fail> {
    Ok(match word(step, 0) {
        "first" => plain.first()?,
        "last" => plain.last()?,
        "next" => plain.next()?,
        "prev" => plain.prev()?,
        "seekge" => plain.seek_ge(&key_at(alloc, step, 1)?)?,
        _ => plain.seek_lt(&key_at(alloc, step, 1)?)?,
    })
}

fn place(plain: &Plain) -> &[u8] {
    match plain.cursor() {
        Cursor::Fresh => b"fresh",
        Cursor::Start => b"start",
        Cursor::At(key) => key.bytes(),
        Cursor::End => b"end",
    }
}

fn push_words(line: &mut Vec<u8>, parts: &[&[u8]]) -> Result<(), Fail> {
    for part in parts {
        line.extend_from_slice(part)?;
    }
    Ok(())
}

/// What the evaluator reports, as a line.
fn report_line(alloc: Global, plain: &Plain) -> Result<Vec<u8>, Fail> {
    let mut line = Vec::new(alloc);
    push_words(&mut line, &[place(plain)])?;
    if let Some(value) = plain.value() {
        push_words(&mut line, &[b" point ", value])?;
    }
    if let Some((start, end)) = plain.range_bounds() {
        push_words(&mut line, &[b" range ", start, b" ", end])?;
    }
    for pair in plain.range_keys() {
        push_words(
            &mut line,
            &[b" ", pair.suffix.bytes(), b"=", pair.value.bytes()],
        )?;
    }
    if plain.range_key_changed() {
        push_words(&mut line, &[b" changed"])?;
    }
    Ok(line)
}

/// Makes moves with `;` between them, and compares the line of each, which stands behind its `:`.
fn walk(rt: &impl Abort, alloc: Global, plain: &mut Plain, steps: &str) -> Result<(), Fail> {
    for step in steps.split(';') {
        let (step, want) = step.split_once(':').ok_or("no line")?;
        let there = make(alloc, plain, step)?;
        assert_eq!(rt; there, plain.key().is_some());
        assert_eq!(rt;
            plain.has_point_and_range(),
            (plain.value().is_some(), plain.range_bounds().is_some())
        );
        let seen = report_line(alloc, plain)?;
        assert_eq!(rt; seen.as_slice(), want.as_bytes(), "{step}");
    }
    Ok(())
}

#[test]
fn worked_examples(rt: HostRuntime) -> Result<(), Fail> {
    let table = [
        // Two sets that overlap.
        (
            "rset a d - foo;rset c e - bar",
            "- - -",
            "first:a range a c =foo changed;next:c range c e =bar changed;next:end changed",
        ),
        // An unset in the middle, and one of another suffix.
        (
            "rset a d @5 x;runset b c @5",
            "- - -",
            "next:a range a b @5=x changed;next:c range c d @5=x changed;next:end changed",
        ),
        (
            "rset a d @5 x;runset b c @6",
            "- - -",
            "next:a range a d @5=x changed;next:end changed;next:end",
        ),
        // Two equal sets that adjoin, and three suffixes.
        (
            "rset a b @5 x;rset b c @5 x",
            "- - -",
            "first:a range a c @5=x changed;next:end changed",
        ),
        (
            "rset a b @5 x;rset a b @9 y;rset a b - z",
            "- - -",
            "first:a range a b =z @9=y @5=x changed",
        ),
        // A seek inside a span, and a point on a start.
        (
            "rset a d @5 x",
            "- - -",
            "seekge b:b range a d @5=x changed;prev:a range a d @5=x;prev:start changed;seeklt c:a range a d @5=x changed",
        ),
        (
            "put a p;rset a b @5 x",
            "- - -",
            "first:a point p range a b @5=x changed",
        ),
        // Masks.
        (
            "put b@3 p;put b@7 q;rset a c @5 x",
            "- - @9",
            "first:a range a c @5=x changed;next:b@7 point q range a c @5=x;next:end changed",
        ),
        (
            "put b@3 p;put b@7 q;rset a c @5 x",
            "- - @4",
            "first:a range a c @5=x changed;next:b@7 point q range a c @5=x;next:b@3 point p range a c @5=x;next:end changed",
        ),
        (
            "put b p;rset a c @5 x",
            "- - @9",
            "first:a range a c @5=x changed;next:b point p range a c @5=x",
        ),
        (
            "put b@5 p;rset a c @5 x",
            "- - @9",
            "first:a range a c @5=x changed;next:b@5 point p range a c @5=x",
        ),
        // Bounds at keys with a suffix, and bounds that cross.
        (
            "rset a d @5 x;put b@3 p",
            "b@4 c@2 -",
            "first:b@4 range b@4 c@2 @5=x changed;next:b@3 point p range b@4 c@2 @5=x;next:end changed;seekge a:b@4 range b@4 c@2 @5=x changed",
        ),
        (
            "rset a d @5 x;put b p",
            "c b -",
            "first:end;seekge a:end;last:start",
        ),
    ];
    for (ops, options, steps) in table {
        let mut plain = open(rt.alloc(), ops, options)?;
        walk(&rt, rt.alloc(), &mut plain, steps)?;
    }
    Ok(())
}
