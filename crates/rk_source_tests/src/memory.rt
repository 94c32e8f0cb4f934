// Memtables of a few entries, and of many.
use crate::walks::{newest, stepped};
use rk_key::read_key;
use rk_mem::{Chunk, ChunkPoints, ChunkSpans};
use rk_model::{Cut, Entry, SpanSource, points_before, points_from};
use rk_outside::NoReads;
use std::alloc::Global;
use std::sync::Arc;
use std::test::Fail;

mod store;

use store::{Store, put, set};

/// A memtable with as many puts of one key.
fn puts(alloc: Global, count: u32) -> Result<Store, Fail> {
    let mut store = Store::new(alloc)?;
    for _ in 0..count {
        store.add(alloc, put(alloc, b"a")?)?;
    }
    Ok(store)
}

/// The only chunk of a memtable with range keys on the spans of these numbers.
fn chunk_of_sets(alloc: Global, first: u32, end: u32) -> Result<Arc<Chunk>, Fail> {
    let mut ops = Vec::new(alloc);
    for number in first..end {
        ops.push(set(alloc, number)?)?;
    }
    let mut store = Store::new(alloc)?;
    store.commit(alloc, ops)?;
    Ok(store.memtable().pin()?.pop().ok_or("there is no chunk")?)
}

/// Whether a value may be sent to other threads and shared with them.
fn is_shared<T: Send + Sync>(_: &T) -> bool {
    true
}

#[test]
fn three_entries_make_two_chunks(rt: HostRuntime) -> Result<(), Fail> {
    let store = puts(rt.alloc(), 3)?;
    let chunks = store.memtable().pin()?;
    assert_eq!(rt; (store.memtable().bytes(), chunks.len()), (27, 2));
    for chunk in &chunks {
        assert!(rt; is_shared(&**chunk));
    }
    Ok(())
}

#[test]
fn there_are_few_chunks(rt: HostRuntime) -> Result<(), Fail> {
    let alloc = rt.alloc();
    let mut store = Store::new(alloc)?;
    for count in 1..2_001u32 {
        store.add(alloc, put(alloc, b"a")?)?;
        let chunks = u32::try_from(store.memtable().pin()?.len())?;
        let few = 2u32
            .checked_pow(chunks)
            .is_some_and(|most| most <= 2 * count);
        assert!(rt; few, "{chunks} chunks of {count}");
    }
    Ok(())
}

/// The numbers of entries.
fn numbers(alloc: Global, entries: &[Entry]) -> Result<Vec<u64>, Fail> {
    let mut numbers = Vec::new(alloc);
    for entry in entries {
        numbers.push(entry.seq)?;
    }
    Ok(numbers)
}

#[test]
fn points_of_a_chunk(rt: HostRuntime) -> Result<(), Fail> {
    let alloc = rt.alloc();
    let chunk = puts(alloc, 2)?.memtable().pin()?.pop();
    let mut points = ChunkPoints::new(alloc, chunk.ok_or("there is no chunk")?)?;
    let a = read_key(alloc, b"a")?;
    let forward = points_from(alloc, &mut points, &mut NoReads, Cut::Below(&a))?;
    assert_eq!(rt; numbers(alloc, &forward)?.as_slice(), [2, 1].as_slice());
    let backward = points_before(alloc, &mut points, &mut NoReads, Cut::Past(&a))?;
    assert_eq!(rt; numbers(alloc, &backward)?.as_slice(), [1, 2].as_slice());
    Ok(())
}

#[test]
fn spans_of_a_chunk(rt: HostRuntime) -> Result<(), Fail> {
    let alloc = rt.alloc();
    let mut spans = ChunkSpans::new(alloc, chunk_of_sets(alloc, 1, 3)?)?;
    spans.seek_ge(&mut NoReads, &read_key(alloc, b"k2")?)?;
    assert_eq!(rt; newest(&spans, &NoReads), Some(2));
    assert_eq!(rt; stepped(&mut spans, &mut NoReads, true)?, None);
    spans.seek_lt(&mut NoReads, &read_key(alloc, b"k2")?)?;
    assert_eq!(rt; newest(&spans, &NoReads), Some(1));
    assert_eq!(rt; stepped(&mut spans, &mut NoReads, false)?, None);
    Ok(())
}

#[test]
fn fragments_are_made_once(rt: HostRuntime) -> Result<(), Fail> {
    let alloc = rt.alloc();
    let chunk = chunk_of_sets(alloc, 10_000, 30_000)?;
    let least = read_key(alloc, b"k10000")?;
    for _ in 0..100_000 {
        let mut spans = ChunkSpans::new(alloc, Arc::try_clone(&chunk)?)?;
        spans.seek_ge(&mut NoReads, &least)?;
        assert_eq!(rt; newest(&spans, &NoReads), Some(1));
    }
    Ok(())
}
