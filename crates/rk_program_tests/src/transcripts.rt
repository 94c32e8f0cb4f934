// Files that are run over a source and a sink that never fail.

use rk_outside::{SteadySink, SteadySource};
use rk_program::{Cause, Ended, Why, run};
use std::alloc::{AllocError, Global};
use std::test::Fail;

/// Two range keys that overlap, and a walk over them.
pub(crate) const TWO_SETS: &[u8] =
    b"rset w a d %- foo\nrset w c e %- bar\ncommit w\niter i\nfirst i\nnext i\nnext i";

/// What is written for them.
pub(crate) const TWO_SETS_TOLD: &[u8] =
    b"w committed 1 to 2\ni open at 2\ni at a range a c =foo changed\ni at c range c e =bar changed\ni end changed\n";

/// A list of one word.
pub(crate) fn words(alloc: Global, word: &str) -> Result<Vec<String>, AllocError> {
    let mut words = Vec::new(alloc);
    words.push(String::from_str(alloc, word)?)?;
    Ok(words)
}

/// Runs a file over a source and a sink that never fail.
pub(crate) fn ran(
    alloc: Global,
    file: &[u8],
    sink: &mut SteadySink,
) -> Result<Ended<()>, AllocError> {
    let words = words(alloc, "run")?;
    let mut source = SteadySource::new(file);
    Ok(run(alloc, &words, &mut source, sink, ()))
}

// Files and their transcripts: sets, moves, masks and bounds, and then refusals, snapshots, names and escapes.
const TOLD: [(&[u8], &[u8]); 18] = [
    (b"", b""),
    (b"iter i\nfirst i\nlast i", b"i open at 0\ni end\ni start\n"),
    (TWO_SETS, TWO_SETS_TOLD),
    (
        b"rset w a d @5 x\nrunset w b c @5\ncommit w\niter i\nnext i\nnext i\nnext i",
        b"w committed 1 to 2\ni open at 2\ni at a range a b @5=x changed\ni at c range c d @5=x changed\ni end changed\n",
    ),
    (
        b"rset w a d @5 x\nrunset w b c @6\ncommit w\niter i\nnext i\nnext i\nnext i",
        b"w committed 1 to 2\ni open at 2\ni at a range a d @5=x changed\ni end changed\ni end\n",
    ),
    (
        b"rset w a b @5 x\nrset w a b @9 y\nrset w a b %- z\ncommit w\niter i\nfirst i",
        b"w committed 1 to 3\ni open at 3\ni at a range a b =z @9=y @5=x changed\n",
    ),
    (
        b"rset w a d @5 x\ncommit w\niter i\nseekge i b\nprev i\nprev i\nseeklt i c",
        b"w committed 1 to 1\ni open at 1\ni at b range a d @5=x changed\ni at a range a d @5=x\ni start changed\ni at a range a d @5=x changed\n",
    ),
    (
        b"put w b@3 p\nput w b@7 q\nrset w a c @5 x\ncommit w\niter i mask @9\nfirst i\nnext i\nnext i\niter j mask @4\nfirst j\nnext j\nnext j\nnext j",
        b"w committed 1 to 3\ni open at 3\ni at a range a c @5=x changed\ni at b@7 point q range a c @5=x\ni end changed\nj open at 3\nj at a range a c @5=x changed\nj at b@7 point q range a c @5=x\nj at b@3 point p range a c @5=x\nj end changed\n",
    ),
    (
        b"put w b@5 p\nrset w a c @5 x\ncommit w\niter i mask @9\nfirst i\nnext i",
        b"w committed 1 to 2\ni open at 2\ni at a range a c @5=x changed\ni at b@5 point p range a c @5=x\n",
    ),
    (
        b"rset w a d @5 x\nput w b@3 p\ncommit w\niter i lower b@4 upper c@2\nfirst i\nnext i\nnext i\nseekge i a",
        b"w committed 1 to 2\ni open at 2\ni at b@4 range b@4 c@2 @5=x changed\ni at b@3 point p range b@4 c@2 @5=x\ni end changed\ni at b@4 range b@4 c@2 @5=x changed\n",
    ),
    (
        b"iter i lower c upper b\nfirst i\nseekge i a\nlast i",
        b"i open at 0\ni end\ni end\ni start\n",
    ),
    (
        b"put w @1 x\nrset w b b @1 x\nrset w a@1 b @1 x\ncommit w",
        b"w refused BadKey key 0\nw refused EmptySpan\nw refused SuffixInBound start\nw refused EmptyBatch\n",
    ),
    (
        b"put w a p\nput w a@ q\ncommit w\niter i\nfirst i\nnext i",
        b"w refused BadKey key 2\nw committed 1 to 1\ni open at 1\ni at a point p\ni end\n",
    ),
    (
        b"put w a p\ncommit w\nsnap s\ndel w a\ncommit w\niter i at s\nfirst i\nrelease s\niter j\nfirst j",
        b"w committed 1 to 1\ns at 1\nw committed 2 to 2\ni open at 1\ni at a point p\ns released\nj open at 2\nj end\n",
    ),
    (
        b"snap s\nsnap t\nput w a p\ncommit w\nrelease s\niter i at t\niter j\nclose i\nfirst j\niter i at t\nfirst i",
        b"s at 0\nt at 0\nw committed 1 to 1\ns released\ni open at 0\nj open at 1\ni closed\nj at a point p\ni open at 0\ni end\n",
    ),
    (
        b"put w a p\ncommit w\nshape",
        b"w committed 1 to 1\nshape active 9 frozen 0 l0 0 l1 0 l2 0 l3 0\n",
    ),
    (
        b"put w a%20b x%00\ncommit w\niter i\nfirst i",
        b"w committed 1 to 1\ni open at 1\ni at a%20b point x%00\n",
    ),
    (
        b"rset w a c @5 x\nput w b p\ncommit w\nrdel w a c\ncommit w\niter i\nfirst i\nprev i",
        b"w committed 1 to 2\nw committed 3 to 3\ni open at 3\ni at b point p\ni start\n",
    ),
];

#[test]
fn lines_are_told(rt: HostRuntime) -> Result<(), Fail> {
    for (file, told) in TOLD {
        let mut sink = SteadySink::new(rt.alloc());
        let ended = ran(rt.alloc(), file, &mut sink)?;
        assert_eq!(rt; ended.cause, Cause::Done);
        assert_eq!(rt; ended.status, 0);
        assert_eq!(rt; sink.bytes(), told);
    }
    Ok(())
}

#[test]
fn a_bad_line_is_named_and_nothing_is_written(rt: HostRuntime) -> Result<(), Fail> {
    let table: [(&[u8], u64, Why); 6] = [
        (b"frst i", 1, Why::Word),
        (b"# x\nnext i", 2, Why::NoName),
        (b"rset w a d %- foo\nshapes", 2, Why::Word),
        (b"iter i\niter i", 2, Why::Taken),
        (b"iter i\nclose i\nfirst i", 3, Why::NoName),
        (b"put w a", 1, Why::Count),
    ];
    for (file, line, why) in table {
        let mut sink = SteadySink::new(rt.alloc());
        let ended = ran(rt.alloc(), file, &mut sink)?;
        assert_eq!(rt; ended.cause, Cause::Line { line, why });
        assert_eq!(rt; ended.status, 3);
        assert!(rt; sink.bytes().is_empty());
    }
    Ok(())
}
