// What is shown on the moves of command files of which each commit is a chunk, worked out by hand.
use crate::session::shown;
use std::test::Fail;

// Spans, and seeks and turns among them.
const SPANS: [(&[u8], &[u8]); 10] = [
    (b"iter i\nfirst i\nlast i", b"i end\ni start\n"),
    (
        b"rset w a d %- foo\nrset w c e %- bar\ncommit w\niter i\nfirst i\nnext i\nnext i",
        b"i at a range a c =foo changed\ni at c range c e =bar changed\ni end changed\n",
    ),
    (
        b"rset w a d @5 x\nrunset w b c @5\ncommit w\niter i\nnext i\nnext i\nnext i",
        b"i at a range a b @5=x changed\ni at c range c d @5=x changed\ni end changed\n",
    ),
    (
        b"rset w a d @5 x\nrunset w b c @6\ncommit w\niter i\nnext i\nnext i\nnext i",
        b"i at a range a d @5=x changed\ni end changed\ni end\n",
    ),
    (
        b"rset w a b @5 x\ncommit w\nrset w b c @5 x\ncommit w\niter i\nfirst i\nnext i\nprev i\nprev i",
        b"i at a range a c @5=x changed\ni end changed\ni at a range a c @5=x changed\ni start changed\n",
    ),
    (
        b"rset w a b @5 x\ncommit w\nrset w b c @5 x\ncommit w\niter i\nseekge i b\nprev i\nseekge i bb\nseeklt i b\nseeklt i d",
        b"i at b range a c @5=x changed\ni at a range a c @5=x\ni at bb range a c @5=x\ni at a range a c @5=x\ni at a range a c @5=x\n",
    ),
    (
        b"rset w a b @5 x\ncommit w\nrset w b c @5 y\ncommit w\niter i\nlast i\nprev i\nprev i",
        b"i at b range b c @5=y changed\ni at a range a b @5=x changed\ni start changed\n",
    ),
    (
        b"rset w a d @5 x\ncommit w\nrdel w b c\ncommit w\niter i\nrset w b c @5 x\ncommit w\niter j\nlast i\nprev i\nlast j",
        b"i at c range c d @5=x changed\ni at a range a b @5=x changed\nj at a range a d @5=x changed\n",
    ),
    (
        b"rset w a b @5 x\nrset w a b @9 y\nrset w a b %- z\ncommit w\niter i\nfirst i",
        b"i at a range a b =z @9=y @5=x changed\n",
    ),
    (
        b"rset w a d @5 x\ncommit w\niter i\nseekge i b\nprev i\nprev i\nseeklt i c",
        b"i at b range a d @5=x changed\ni at a range a d @5=x\ni start changed\ni at a range a d @5=x changed\n",
    ),
];

// Points beside spans, shown and hidden by a mask.
const POINTS: [(&[u8], &[u8]); 8] = [
    (
        b"put w a p\nrset w a b @5 x\ncommit w\niter i\nfirst i",
        b"i at a point p range a b @5=x changed\n",
    ),
    (
        b"put w a p\ncommit w\ndel w a\nput w b q\ncommit w\niter i\nfirst i\nnext i\nprev i\nprev i",
        b"i at b point q\ni end\ni at b point q\ni start\n",
    ),
    (
        b"put w b@3 p\nput w b@7 q\nrset w a c @5 x\ncommit w\niter i mask @9\nfirst i\nnext i\nnext i\niter j mask @4\nfirst j\nnext j\nnext j\nnext j",
        b"i at a range a c @5=x changed\ni at b@7 point q range a c @5=x\ni end changed\nj at a range a c @5=x changed\nj at b@7 point q range a c @5=x\nj at b@3 point p range a c @5=x\nj end changed\n",
    ),
    (
        b"put w b@3 p\nput w b@7 q\nrset w a c @5 x\ncommit w\niter i mask @4\nlast i\nprev i\nprev i\nnext i\nseekge i b@5\nprev i",
        b"i at b@3 point p range a c @5=x changed\ni at b@7 point q range a c @5=x\ni at a range a c @5=x\ni at b@7 point q range a c @5=x\ni at b@5 range a c @5=x\ni at b@7 point q range a c @5=x\n",
    ),
    (
        b"put w b@3 p\nput w b@7 q\nrset w a c @5 x\ncommit w\niter i mask @9\nlast i\nprev i\nprev i\nnext i\nseekge i b@5\nprev i\nseekge i b@3\nnext i",
        b"i at b@7 point q range a c @5=x changed\ni at a range a c @5=x\ni start changed\ni at a range a c @5=x changed\ni at b@5 range a c @5=x\ni at b@7 point q range a c @5=x\ni at b@3 range a c @5=x\ni end changed\n",
    ),
    (
        b"put w b p\nrset w a c @5 x\ncommit w\niter i mask @9\nfirst i\nnext i",
        b"i at a range a c @5=x changed\ni at b point p range a c @5=x\n",
    ),
    (
        b"put w b@5 p\nrset w a c @5 x\ncommit w\niter i mask @9\nfirst i\nnext i",
        b"i at a range a c @5=x changed\ni at b@5 point p range a c @5=x\n",
    ),
    (
        b"rset w a c @7 x\nput w b@3 p\nput w d@3 q\ncommit w\niter i mask @6\nlast i\nprev i",
        b"i at d@3 point q\ni at b@3 point p range a c @7=x changed\n",
    ),
];

// Moves at, within and beyond bounds, also bounds between which nothing lies.
const BOUNDS: [(&[u8], &[u8]); 5] = [
    (
        b"rset w a d @5 x\nput w b@3 p\ncommit w\niter i lower b@4 upper c@2\nfirst i\nnext i\nnext i\nseekge i a",
        b"i at b@4 range b@4 c@2 @5=x changed\ni at b@3 point p range b@4 c@2 @5=x\ni end changed\ni at b@4 range b@4 c@2 @5=x changed\n",
    ),
    (
        b"iter i lower c upper b\nfirst i\nseekge i a\nlast i",
        b"i end\ni end\ni start\n",
    ),
    (
        b"rset w a d @5 x\nput w b p\ncommit w\niter i lower c upper b\nfirst i\nlast i\nseekge i b\nseeklt i d\niter j lower b upper b\nnext j\nprev j\nseekge j b\nseeklt j c",
        b"i end\ni start\ni end\ni start\nj end\nj start\nj end\nj start\n",
    ),
    (
        b"rset w a d @5 x\nput w a p\nput w c q\nput w d r\ncommit w\niter i lower b upper cc\nfirst i\nnext i\nnext i\nprev i\nprev i\nprev i",
        b"i at b range b cc @5=x changed\ni at c point q range b cc @5=x\ni end changed\ni at c point q range b cc @5=x changed\ni at b range b cc @5=x\ni start changed\n",
    ),
    (
        b"rset w a d @5 x\nput w a p\nput w c q\nput w d r\ncommit w\niter i lower b upper cc\nseekge i a\nseekge i b\nseekge i c\nseekge i cc\nseekge i d\nseeklt i a\nseeklt i b\nseeklt i c\nseeklt i cc\nseeklt i d",
        b"i at b range b cc @5=x changed\ni at b range b cc @5=x\ni at c point q range b cc @5=x\ni end changed\ni end\ni start\ni start\ni at b range b cc @5=x changed\ni at c point q range b cc @5=x\ni at c point q range b cc @5=x\n",
    ),
];

#[test]
fn spans_are_shown(rt: HostRuntime) -> Result<(), Fail> {
    for (file, wanted) in SPANS {
        assert_eq!(rt; shown(rt.alloc(), file)?.as_slice(), wanted, "of {file:?}");
    }
    Ok(())
}

#[test]
fn points_are_shown_or_hidden_by_a_mask(rt: HostRuntime) -> Result<(), Fail> {
    for (file, wanted) in POINTS {
        assert_eq!(rt; shown(rt.alloc(), file)?.as_slice(), wanted, "of {file:?}");
    }
    Ok(())
}

#[test]
fn moves_stay_within_bounds(rt: HostRuntime) -> Result<(), Fail> {
    for (file, wanted) in BOUNDS {
        assert_eq!(rt; shown(rt.alloc(), file)?.as_slice(), wanted, "of {file:?}");
    }
    Ok(())
}
