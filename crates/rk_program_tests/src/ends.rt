// How runs end that are not done: words, lengths and faults.

use crate::transcripts::{TWO_SETS, TWO_SETS_TOLD, ran, words};
use rk_outside::{SliceSource, SteadySink, SteadySource, VecSink};
use rk_program::{Cause, run};
use std::test::Fail;

#[test]
fn other_words_are_refused(rt: HostRuntime) -> Result<(), Fail> {
    let alloc = rt.alloc();
    let mut source = SteadySource::new(TWO_SETS);
    let mut sink = SteadySink::new(alloc);
    let none: Vec<String> = Vec::new(alloc);
    let ended = run(alloc, &none, &mut source, &mut sink, 7u8);
    assert_eq!(rt; ended.cause, Cause::Words);
    assert_eq!(rt; ended.vault, 7);
    let frob = words(alloc, "frob")?;
    let ended = run(alloc, &frob, &mut source, &mut sink, 7u8);
    assert_eq!(rt; ended.status, 2);
    Ok(())
}

#[test]
fn a_file_above_the_limit_is_refused(rt: HostRuntime) -> Result<(), Fail> {
    let alloc = rt.alloc();
    let mut sink = SteadySink::new(alloc);
    let comment = vec![in alloc; b'#'; 67_108_865]?;
    let ended = ran(alloc, &comment, &mut sink)?;
    let limit = 67_108_864;
    assert_eq!(rt; ended.cause, Cause::Length { limit });
    assert_eq!(rt; ended.status, 3);
    Ok(())
}

const SOURCE_FAULT: Cause = Cause::SourceFault { faults: 1 };

const SINK_FAULT: Cause = Cause::SinkFault { faults: 1 };

// A file, the numbers of the reads and of the calls of the sink that fail, how the run ends, and what was written. The
// walk over two sets makes two reads, five writes and then one finish, and none again.
const FAULTS: [(&[u8], &[u64], &[u64], Cause, u8, &[u8]); 10] = [
    (TWO_SETS, &[2], &[], SOURCE_FAULT, 4, b""),
    (TWO_SETS, &[1, 2], &[], SOURCE_FAULT, 4, b""),
    (TWO_SETS, &[3], &[], Cause::Done, 0, TWO_SETS_TOLD),
    (TWO_SETS, &[], &[2], SINK_FAULT, 5, b"w committed 1 to 2\n"),
    (
        TWO_SETS,
        &[],
        &[2, 3, 4],
        SINK_FAULT,
        5,
        b"w committed 1 to 2\n",
    ),
    (TWO_SETS, &[], &[6], SINK_FAULT, 5, TWO_SETS_TOLD),
    (TWO_SETS, &[], &[7], Cause::Done, 0, TWO_SETS_TOLD),
    (b"", &[], &[1], SINK_FAULT, 5, b""),
    (b"snap s", &[], &[2], SINK_FAULT, 5, b"s at 0\n"),
    (
        b"snap s\nput w a p\nsnap t",
        &[],
        &[3],
        SINK_FAULT,
        5,
        b"s at 0\nt at 0\n",
    ),
];

#[test]
fn a_fault_ends_the_run_and_nothing_is_asked_again(rt: HostRuntime) -> Result<(), Fail> {
    let alloc = rt.alloc();
    let words = words(alloc, "run")?;
    for (file, reads, calls, cause, status, told) in FAULTS {
        let mut source = SliceSource::new(file, reads);
        let mut sink = VecSink::new(alloc, calls);
        let ended = run(alloc, &words, &mut source, &mut sink, ());
        assert_eq!(rt; ended.cause, cause);
        assert_eq!(rt; ended.status, status);
        assert_eq!(rt; sink.bytes(), told);
    }
    Ok(())
}
