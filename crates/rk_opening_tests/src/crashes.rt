// An opening that fails, or that a crash stops, at each of its calls.
use rk_memvault::MemVault;
use rk_opening::open_store;
use rk_outside::StoreError;
use std::alloc::Global;
use std::test::Fail;

// A new store is made by so many changing calls: five syncs, three for each of four journals, and two for the head.
const MOMENTS: u64 = 19;

// Beside these are counted: the read of the head, two lists of numbers, room for five files, and of each journal its length
// and a read.
const CALLS: u64 = MOMENTS + 1 + 2 + 5 + 4 * 2;

// Whether each image of a moment opens as a store without groups.
fn each_image_opens(alloc: Global, vault: &MemVault, moment: u64) -> Result<bool, Fail> {
    for fill in [0, 1, b'r'] {
        for image in vault.images(alloc, moment, fill)?.iter_mut() {
            let logs = open_store(alloc, image)?.logs;
            if !logs.first.groups.is_empty() || !logs.second.groups.is_empty() {
                return Ok(false);
            }
        }
    }
    Ok(true)
}

#[test]
fn a_crash_while_a_store_is_made_leaves_one_that_opens(rt: HostRuntime) -> Result<(), Fail> {
    let alloc = rt.alloc();
    let mut vault = MemVault::new(alloc, &[], &[])?;
    open_store(alloc, &mut vault)?;
    for moment in 0..=MOMENTS {
        assert_eq!(rt; vault.images(alloc, moment, 0)?.is_empty(), false);
        assert!(rt; each_image_opens(alloc, &vault, moment)?);
    }
    assert_eq!(rt; vault.images(alloc, MOMENTS + 1, 0)?.len(), 0);
    Ok(())
}

#[test]
fn an_opening_whose_call_fails_tells_it_and_may_be_tried_again(
    rt: HostRuntime,
) -> Result<(), Fail> {
    let alloc = rt.alloc();
    for call in 1..=CALLS {
        assert_eq!(rt; faults_of_opening(alloc, call)?, Some(1));
    }
    assert_eq!(rt; faults_of_opening(alloc, CALLS + 1)?, None);
    Ok(())
}

// The count that an opening tells whose call of this number fails, and none where it has no such call. It is tried again then.
fn faults_of_opening(alloc: Global, call: u64) -> Result<Option<u64>, Fail> {
    let mut vault = MemVault::new(alloc, &[call], &[])?;
    match open_store(alloc, &mut vault) {
        Ok(_) => Ok(None),
        Err(StoreError::WriteFault { faults } | StoreError::ReadFault { faults }) => {
            open_store(alloc, &mut vault)?;
            Ok(Some(faults))
        }
        Err(error) => Err(error.into()),
    }
}
