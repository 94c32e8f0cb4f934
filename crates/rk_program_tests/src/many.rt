// Large files: a store of 200,000 points, and one whose memtables are full.

use crate::transcripts::ran;
use rk_outside::{NoMemory, SteadySink};
use rk_program::Cause;
use std::alloc::Global;
use std::test::Fail;

const COMMITS: u32 = 200;

const PUTS: u32 = 1000;

const OPENINGS: u32 = 50_000;

// A line that has `k` and six digits between its parts.
fn push_keyed(
    out: &mut Vec<u8>,
    before: &[u8],
    number: u32,
    behind: &[u8],
) -> Result<(), NoMemory> {
    out.extend_from_slice(before)?;
    out.push(b'k')?;
    for unit in [100_000, 10_000, 1_000, 100, 10, 1] {
        out.push(b'0' + (number / unit % 10) as u8)?;
    }
    Ok(out.extend_from_slice(behind)?)
}

// The same lines so many times.
fn push_times(out: &mut Vec<u8>, times: u32, lines: &[u8]) -> Result<(), NoMemory> {
    for _ in 0..times {
        out.extend_from_slice(lines)?;
    }
    Ok(())
}

// Commits of puts on as many keys, and a look at the sizes.
fn push_commits(file: &mut Vec<u8>) -> Result<(), NoMemory> {
    for number in 0..COMMITS * PUTS {
        push_keyed(file, b"put w ", number, b" v\n")?;
        if number % PUTS == PUTS - 1 {
            file.extend_from_slice(b"commit w\n")?;
        }
    }
    Ok(file.extend_from_slice(b"shape\n")?)
}

// A walk over all keys, and then many openings.
fn walk_and_openings(alloc: Global) -> Result<Vec<u8>, NoMemory> {
    let mut file = Vec::new(alloc);
    push_commits(&mut file)?;
    file.extend_from_slice(b"iter i\n")?;
    push_times(&mut file, COMMITS * PUTS + 1, b"next i\n")?;
    push_times(&mut file, OPENINGS, b"iter j\nfirst j\nclose j\n")?;
    Ok(file)
}

// What is told of them behind the commits.
fn told_behind_commits(alloc: Global) -> Result<Vec<u8>, NoMemory> {
    let mut told = Vec::new(alloc);
    told.extend_from_slice(b"shape active 2400600 frozen 0 l0 0 l1 0 l2 0 l3 0\n")?;
    told.extend_from_slice(b"i open at 200000\n")?;
    for number in 0..COMMITS * PUTS {
        push_keyed(&mut told, b"i at ", number, b" point v\n")?;
    }
    told.extend_from_slice(b"i end\n")?;
    push_times(
        &mut told,
        OPENINGS,
        b"j open at 200000\nj at k000000 point v\nj closed\n",
    )?;
    Ok(told)
}

#[test]
fn many_points_are_walked_and_opened(rt: HostRuntime) -> Result<(), Fail> {
    let file = walk_and_openings(rt.alloc())?;
    let mut sink = SteadySink::new(rt.alloc());
    let ended = ran(rt.alloc(), &file, &mut sink)?;
    assert_eq!(rt; ended.cause, Cause::Done);
    assert!(rt; sink.bytes().ends_with(&told_behind_commits(rt.alloc())?));
    Ok(())
}

// How long each value is, and how many puts of one a batch has: 3 + 32 * 32,005 bytes.
const VALUE: u32 = 32_000;

const VALUES: u32 = 32;

// A put of a long value.
fn push_long_put(file: &mut Vec<u8>) -> Result<(), NoMemory> {
    file.extend_from_slice(b"put w a ")?;
    push_times(file, VALUE, b"x")?;
    Ok(file.push(b'\n')?)
}

// Four commits fill a memtable, and four the next one: there is no room for the ninth, but for a small one.
fn full_store(alloc: Global) -> Result<Vec<u8>, NoMemory> {
    let mut file = Vec::new(alloc);
    for _ in 0..9 {
        for _ in 0..VALUES {
            push_long_put(&mut file)?;
        }
        file.extend_from_slice(b"commit w\n")?;
    }
    file.extend_from_slice(
        b"shape\niter i\nput v a p\ncommit v\nfirst i\niter j\nfirst j\ncommit w\nshape\n",
    )?;
    Ok(file)
}

fn told_of_full_store(alloc: Global) -> Result<Vec<u8>, NoMemory> {
    let mut told = Vec::new(alloc);
    told.extend_from_slice(
        b"w committed 1 to 32\nw committed 33 to 64\nw committed 65 to 96\nw committed 97 to 128\n",
    )?;
    told.extend_from_slice(
        b"w committed 129 to 160\nw committed 161 to 192\nw committed 193 to 224\nw committed 225 to 256\n",
    )?;
    told.extend_from_slice(b"w refused MemFull 4096652 1024163\n")?;
    told.extend_from_slice(b"shape active 4096652 frozen 4096652 l0 0 l1 0 l2 0 l3 0\n")?;
    told.extend_from_slice(b"i open at 256\nv committed 257 to 257\ni at a point ")?;
    push_times(&mut told, VALUE, b"x")?;
    told.extend_from_slice(b"\nj open at 257\nj at a point p\n")?;
    told.extend_from_slice(b"w refused MemFull 4096661 1024163\n")?;
    told.extend_from_slice(b"shape active 4096661 frozen 4096652 l0 0 l1 0 l2 0 l3 0\n")?;
    Ok(told)
}

#[test]
fn a_full_store_refuses_a_commit_and_goes_on_for_readers(rt: HostRuntime) -> Result<(), Fail> {
    let file = full_store(rt.alloc())?;
    let mut sink = SteadySink::new(rt.alloc());
    let ended = ran(rt.alloc(), &file, &mut sink)?;
    assert_eq!(rt; ended.cause, Cause::Done);
    assert_eq!(rt; sink.bytes(), told_of_full_store(rt.alloc())?.as_slice());
    Ok(())
}
