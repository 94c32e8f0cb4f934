// How memtables are filled.
use crate::stores::{commit_often, put_of};
use rk_batch::Batch;
use rk_memstore::{MemStore, Numbers, Shape};
use rk_outside::StoreError;
use std::test::Fail;

fn of(active: u64, frozen: u64) -> Shape {
    Shape {
        active,
        frozen,
        tables: [0; 4],
        bytes: [0; 4],
    }
}

#[test]
fn memtables_are_filled_to_the_byte(rt: HostRuntime) -> Result<(), Fail> {
    let mut store = MemStore::new(rt.alloc())?;
    assert_eq!(rt; store.shape(), of(0, 0));
    let empty = Batch::new(rt.alloc())?;
    assert_eq!(rt; store.commit(&empty), Err(StoreError::EmptyBatch));
    let long = put_of(rt.alloc(), 32_768)?;
    let rest = put_of(rt.alloc(), 31_744)?;
    let longer = put_of(rt.alloc(), 31_745)?;
    let _ = commit_often(&mut store, &long, 127)?;
    assert_eq!(rt;
        store.commit(&rest),
        Ok(Numbers {
            first: 128,
            last: 128
        })
    );
    assert_eq!(rt; store.shape(), of(4_194_304, 0));
    let _ = commit_often(&mut store, &long, 127)?;
    assert_eq!(rt; store.shape(), of(4_162_552, 4_194_304));
    let full = StoreError::MemFull {
        active: 4_162_552,
        batch: 31_753,
    };
    assert_eq!(rt; store.commit(&longer), Err(full));
    assert_eq!(rt; store.last(), 255);
    assert_eq!(rt; store.shape(), of(4_162_552, 4_194_304));
    assert_eq!(rt;
        store.commit(&rest),
        Ok(Numbers {
            first: 256,
            last: 256
        })
    );
    assert_eq!(rt; store.shape(), of(4_194_304, 4_194_304));
    Ok(())
}
