// Bytes, sources, sinks, and refusals.
use rk_outside::{
    Bytes, Failed, NoMemory, ReadSource, Sink, SinkError, SliceSource, Source, SourceError,
    SteadySink, SteadySource, StoreError, VecSink, WriteSink,
};
use std::io::{self, ErrorKind, Read, Write};
use std::test::Fail;

const LISTED: [u64; 1] = [2];

// Moves what a source has left to a sink, two bytes at a time.
fn pour<S: Source, K: Sink>(source: &mut S, sink: &mut K) -> Result<(), SinkError> {
    let mut piece = [0; 2];
    for _ in 0..8 {
        let Ok(count) = source.read(&mut piece) else {
            continue;
        };
        sink.write(&piece[..count])?;
    }
    sink.finish().map_err(|_| SinkError::Failed)
}

// A reader and a writer that fail so many times, and then are at their end and take all.
#[derive(Drop)]
struct Broken {
    times: u64,
}

impl Broken {
    fn fail(&mut self) -> io::Result<()> {
        if self.times == 0 {
            return Ok(());
        }
        self.times -= 1;
        Err(io::Error::from(ErrorKind::Other))
    }
}

impl Read for Broken {
    fn read(&mut self, _: &mut [u8]) -> io::Result<usize> {
        self.fail()?;
        Ok(0)
    }
}

impl Write for Broken {
    fn write(&mut self, bytes: &[u8]) -> io::Result<usize> {
        self.fail()?;
        Ok(bytes.len())
    }

    fn flush(&mut self) -> io::Result<()> {
        self.fail()
    }
}

#[test]
fn bytes_are_kept_and_copied(rt: HostRuntime) -> Result<(), Fail> {
    let alloc = rt.alloc();
    let bytes = Bytes::from_slice(alloc, b"abc")?;
    assert_eq!(rt; bytes.bytes(), b"abc".as_slice());
    let copy = bytes.copy()?;
    assert!(rt; copy == bytes);
    let mut longer = copy.into_vec();
    longer.push(b'd')?;
    let longer = Bytes::from_vec(longer);
    assert_eq!(rt; longer.bytes(), b"abcd".as_slice());
    assert!(rt; longer != bytes);
    Ok(())
}

#[test]
fn a_source_fails_at_the_listed_read_alone(rt: HostRuntime) {
    let mut source = SliceSource::new(b"abcde", &LISTED);
    let mut out = [0; 2];
    for (answer, shown, faults) in [
        (Ok(2), b"ab", 0),
        (Err(Failed), b"ab", 1),
        (Ok(2), b"cd", 1),
        (Ok(1), b"ed", 1),
        (Ok(0), b"ed", 1),
    ] {
        assert!(rt; source.read(&mut out) == answer);
        assert_eq!(rt; out.as_slice(), shown.as_slice());
        assert_eq!(rt; source.faults(), faults);
    }
}

#[test]
fn a_sink_fails_at_the_listed_write_alone(rt: HostRuntime) {
    let mut sink = VecSink::new(rt.alloc(), &LISTED);
    for (piece, answer, faults) in [
        (b"ab", Ok(2), 0),
        (b"cd", Err(SinkError::Failed), 1),
        (b"ef", Ok(2), 1),
    ] {
        assert!(rt; sink.write(piece.as_slice()) == answer);
        assert_eq!(rt; sink.faults(), faults);
    }
    assert!(rt; sink.finish() == Ok(()));
    assert_eq!(rt; sink.bytes(), b"abef".as_slice());
}

#[test]
fn a_finish_is_numbered_with_the_writes(rt: HostRuntime) {
    let mut sink = VecSink::new(rt.alloc(), &LISTED);
    assert!(rt; sink.write(b"ab") == Ok(2));
    assert!(rt; sink.finish() == Err(Failed));
    assert_eq!(rt; sink.faults(), 1);
    assert_eq!(rt; sink.bytes(), b"ab".as_slice());
}

#[test]
fn the_steady_ones_pass_all_on(rt: HostRuntime) -> Result<(), Fail> {
    let mut source = SteadySource::new(b"abcde");
    let mut sink = SteadySink::new(rt.alloc());
    pour(&mut source, &mut sink)?;
    assert_eq!(rt; sink.bytes(), b"abcde".as_slice());
    assert_eq!(rt; source.faults() + sink.faults(), 0);
    Ok(())
}

#[test]
fn the_adapters_pass_all_on(rt: HostRuntime) -> Result<(), Fail> {
    let mut source = ReadSource::new(b"abcde".as_slice());
    let mut sink = WriteSink::new(Vec::new(rt.alloc()));
    pour(&mut source, &mut sink)?;
    assert_eq!(rt; sink.faults(), 0);
    assert_eq!(rt; sink.into_inner().as_slice(), b"abcde".as_slice());
    assert_eq!(rt; source.faults(), 0);
    assert_eq!(rt; source.into_inner().len(), 0);
    Ok(())
}

#[test]
fn the_adapters_count_faults(rt: HostRuntime) {
    let mut source = ReadSource::new(Broken { times: 1 });
    for answer in [Err(Failed), Ok(0)] {
        assert!(rt; source.read(&mut [0; 2]) == answer);
        assert_eq!(rt; source.faults(), 1);
    }
    let mut sink = WriteSink::new(Broken { times: 1 });
    for answer in [Err(SinkError::Failed), Ok(2)] {
        assert!(rt; sink.write(b"ab") == answer);
        assert_eq!(rt; sink.faults(), 1);
    }
    let mut sink = WriteSink::new(Broken { times: 1 });
    for answer in [Err(Failed), Ok(())] {
        assert!(rt; sink.finish() == answer);
        assert_eq!(rt; sink.faults(), 1);
    }
    let mut room = [0; 3];
    let mut sink = WriteSink::new(room.as_mut_slice());
    for (answer, faults) in [(Ok(2), 0), (Ok(1), 0), (Err(SinkError::Failed), 1)] {
        assert!(rt; sink.write(b"ab") == answer);
        assert_eq!(rt; sink.faults(), faults);
    }
}

#[test]
fn a_refusal_is_handed_on(rt: HostRuntime) {
    let bad = SourceError::BadTable { file: 7, at: 9 };
    assert!(rt; StoreError::from(bad) == StoreError::BadTable { file: 7, at: 9 });
    assert!(rt; StoreError::from(NoMemory) == StoreError::Memory);
}
