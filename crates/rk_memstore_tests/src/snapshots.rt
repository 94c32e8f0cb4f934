// Live numbers.
use crate::stores::put_of;
use rk_memstore::MemStore;
use rk_outside::StoreError;
use std::test::Fail;

#[test]
fn snapshots_are_made_and_given_up(rt: HostRuntime) -> Result<(), Fail> {
    let mut store = MemStore::new(rt.alloc())?;
    for _ in 0..1000 {
        assert_eq!(rt; store.snap(), Ok(0));
    }
    assert_eq!(rt; store.snap(), Err(StoreError::TooManySnaps { live: 1000 }));
    assert_eq!(rt; store.live().len(), 1000);
    assert_eq!(rt; store.release(5), Err(StoreError::NoSnap { number: 5 }));
    assert_eq!(rt; store.release(0), Ok(()));
    assert_eq!(rt; store.live().len(), 999);
    assert!(rt; store.pin(Some(5)).is_err());
    assert_eq!(rt; store.pin(Some(0))?.number, 0);
    Ok(())
}

#[test]
fn a_number_that_is_live_twice_is_given_up_twice(rt: HostRuntime) -> Result<(), Fail> {
    let mut store = MemStore::new(rt.alloc())?;
    let batch = put_of(rt.alloc(), 1)?;
    let _ = store.commit(&batch)?;
    assert_eq!(rt; store.snap(), Ok(1));
    assert_eq!(rt; store.snap(), Ok(1));
    let _ = store.commit(&batch)?;
    assert_eq!(rt; store.snap(), Ok(2));
    assert_eq!(rt; store.release(1), Ok(()));
    assert_eq!(rt; store.pin(Some(1))?.number, 1);
    assert_eq!(rt; store.release(1), Ok(()));
    assert_eq!(rt; store.release(1), Err(StoreError::NoSnap { number: 1 }));
    assert_eq!(rt; store.live(), [2].as_slice());
    assert_eq!(rt; store.pin(None)?.number, 2);
    Ok(())
}
