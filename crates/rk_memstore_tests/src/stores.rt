// Commits of one put.
use rk_batch::Batch;
use rk_memstore::{MemStore, Numbers};
use rk_outside::StoreError;
use std::alloc::Global;
use std::test::Fail;

/// A batch that puts a value of so many bytes on the key `a`. It has 8 bytes and those of the value.
pub(crate) fn put_of(alloc: Global, len: usize) -> Result<Batch, Fail> {
    let mut value = Vec::new(alloc);
    for _ in 0..len {
        value.push(b'v')?;
    }
    let mut batch = Batch::new(alloc)?;
    batch.set(b"a", &value)?;
    Ok(batch)
}

/// Commits a batch so often, and answers the last numbers.
pub(crate) fn commit_often(
    store: &mut MemStore,
    batch: &Batch,
    count: u64,
) -> Result<Option<Numbers>, StoreError> {
    let mut numbers = None;
    for _ in 0..count {
        numbers = Some(store.commit(batch)?);
    }
    Ok(numbers)
}
