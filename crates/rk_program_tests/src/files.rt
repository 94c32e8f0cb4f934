// Command files: which are read, and which are refused and why.

use rk_outside::NoMemory;
use rk_script::{Event, Line, ScriptError, Why, read_script};
use std::alloc::Global;
use std::test::Fail;

/// Why a file is refused, and at which line.
pub(crate) fn refusal(alloc: Global, file: &[u8]) -> Option<(u64, Why)> {
    match read_script(alloc, file) {
        Ok(_) => None,
        Err(ScriptError::BadLine { line, why }) => Some((line, why)),
        Err(ScriptError::Memory) => Some((0, Why::Word)),
    }
}

// Files that are refused, each with the line and the cause.
const BAD_FILES: [(&[u8], u64, Why); 52] = [
    (b"put w a\tb", 1, Why::Byte),
    (b"#\x01\niter i\x01", 2, Why::Byte),
    (b"frst\x7f i", 1, Why::Byte),
    (b"frst i", 1, Why::Word),
    (b"Put w a b", 1, Why::Word),
    (b"rset w a d %- foo\nshapes", 2, Why::Word),
    (b"sync", 1, Why::Word),
    (b"flush begin", 1, Why::Word),
    (b"compact all", 1, Why::Word),
    (b"lane x", 1, Why::Word),
    (b"commit w sync", 1, Why::Word),
    (b"commit W sync now", 1, Why::Word),
    (b"iter i mask @5 x", 1, Why::Word),
    (b"iter I lower a lower", 1, Why::Word),
    (b"iter i upper b lower a", 1, Why::Word),
    (b"iter i mask @5 mask @5", 1, Why::Word),
    (b" # put w a b", 1, Why::Word),
    (b"put w a", 1, Why::Count),
    (b"put W %", 1, Why::Count),
    (b"del w a b", 1, Why::Count),
    (b"rset w a d %-", 1, Why::Count),
    (b"runset w a d @5 x", 1, Why::Count),
    (b"rdel w a", 1, Why::Count),
    (b"commit", 1, Why::Count),
    (b"shape w", 1, Why::Count),
    (b"iter", 1, Why::Count),
    (b"iter i lower", 1, Why::Count),
    (b"iter i at s mask", 1, Why::Count),
    (b"first", 1, Why::Count),
    (b"first i j", 1, Why::Count),
    (b"seekge i", 1, Why::Count),
    (b"put W% a b", 1, Why::Name),
    (b"put 1w a %", 1, Why::Name),
    (b"iter i at s-t lower %", 1, Why::Name),
    (b"snap aaaaaaaaaaaaaaaaaaaaaaaaaaaaaaaaa", 1, Why::Name),
    (b"rset w a d %- %FF", 1, Why::Escape),
    (b"seekge i %4", 1, Why::Escape),
    (b"iter i lower @ mask %", 1, Why::Escape),
    (b"seekge i %-", 1, Why::Key),
    (b"iter i lower a upper a@0 mask x", 1, Why::Key),
    (b"iter i at s mask %-", 1, Why::Suffix),
    (b"iter i mask @05", 1, Why::Suffix),
    (b"# x\nnext i", 2, Why::NoName),
    (b"iter i\nsnap s\nrelease i", 3, Why::NoName),
    (b"iter i\niter i at s", 2, Why::NoName),
    (b"iter i\nclose i\nclose i", 3, Why::NoName),
    (b"snap s\nrelease s\niter i at s", 3, Why::NoName),
    (b"iter i\nsnap i\nput i a b\niter i", 4, Why::Taken),
    (b"snap s\nsnap s", 2, Why::Taken),
    (b"iter i\n\n \nfirst\nfrst i", 4, Why::Count),
    (b"frst i\nput w a\tb", 1, Why::Word),
    (b"put w a b\nput w a %\nput w", 2, Why::Escape),
];

#[test]
fn the_first_bad_line_is_named(rt: HostRuntime) {
    for (file, line, why) in BAD_FILES {
        assert_eq!(rt; refusal(rt.alloc(), file), Some((line, why)), "of {file:?}");
    }
}

// Files that are read, each with the numbers of its lines.
const GOOD_FILES: [(&[u8], &[u64]); 8] = [
    (b"", &[]),
    (b"#\x01\xff x\n\n   ", &[]),
    (b"  put  w a%20b x%00 \n\ndel w %-", &[1, 3]),
    (
        b"rset w a d %- foo\nrunset w d a @0\nrdel w @ %40\ncommit v\ncommit v\n",
        &[1, 2, 3, 4, 5],
    ),
    (
        b"snap x\nsnap y\nrelease x\niter x at y\nput x a b\nsnap x",
        &[1, 2, 3, 4, 5, 6],
    ),
    (
        b"iter i\nfirst i\nlast i\nnext i\nprev i\nseekge i a@5\nseeklt i b%00@9",
        &[1, 2, 3, 4, 5, 6, 7],
    ),
    (
        b"iter i\nclose i\niter i lower a@3 upper b mask @9",
        &[1, 2, 3],
    ),
    (b"iter aaaaaaaaaaaaaaaaaaaaaaaaaaaaaaaa", &[1]),
];

fn numbers(alloc: Global, file: &[u8]) -> Result<Vec<u64>, ScriptError> {
    let lines = read_script(alloc, file)?;
    Ok(lines.iter().map(|line| line.number).collect(alloc)?)
}

#[test]
fn lines_are_counted(rt: HostRuntime) -> Result<(), Fail> {
    for (file, wanted) in GOOD_FILES {
        assert_eq!(rt;
            numbers(rt.alloc(), file)?.as_slice(),
            wanted,
            "of {file:?}"
        );
    }
    Ok(())
}

// The bytes of a point set, and those of an iterator's options, one after the other.
fn decoded(alloc: Global, line: &Line) -> Result<Vec<u8>, NoMemory> {
    let mut out = Vec::new(alloc);
    match &line.event {
        Event::Put { writer, key, value } => {
            out.extend_from_slice(writer.bytes())?;
            out.extend_from_slice(key.bytes())?;
            out.extend_from_slice(value.bytes())?;
        }
        Event::Iter {
            name,
            at: Some(at),
            lower: Some(lower),
            upper: Some(upper),
            mask: Some(mask),
        } => {
            out.extend_from_slice(name.bytes())?;
            out.extend_from_slice(at.bytes())?;
            out.extend_from_slice(lower.bytes())?;
            out.extend_from_slice(upper.bytes())?;
            out.extend_from_slice(mask.bytes())?;
        }
        _ => {}
    }
    Ok(out)
}

#[test]
fn words_are_decoded(rt: HostRuntime) -> Result<(), Fail> {
    let alloc = rt.alloc();
    let file = b"put w a%20b x%00\nsnap s\niter i at s lower a%7f upper b@7 mask %4018";
    let mut wanted = [b"wa bx\x00".as_slice(), b"", b"isa\x7fb@7@18"].into_iter();
    for line in &read_script(alloc, file)? {
        assert_eq!(rt; Some(decoded(alloc, line)?.as_slice()), wanted.next());
    }
    Ok(())
}
