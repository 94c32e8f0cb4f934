// Journals over vaults in memory, whose calls fail, and of which crashes leave images.
use rk_gate::{Journal, Record};
use rk_memvault::{MemVault, SteadyVault};
use rk_outside::{StoreError, Vault};
use std::alloc::Global;
use std::process::Abort;
use std::test::Fail;

const FILE: u64 = 3;

// What is read back of a journal to which two payloads were added.
#[derive(Clone, Copy, Debug, PartialEq, Eq)]
enum Found {
    NoJournal,
    First(usize),
    Strange,
}

use Found::{First, NoJournal};

// What is read back after a call of `fill` failed alone, for each of them: of making the journal, adding the two
// payloads, and taking them away.
const LEFT: [Found; 18] = [
    NoJournal,
    NoJournal,
    First(0),
    First(0),
    First(0),
    First(0),
    First(0),
    First(0),
    First(1),
    First(1),
    First(1),
    First(1),
    First(1),
    First(2),
    First(2),
    First(0),
    First(0),
    First(0),
];

// What is read back of the crash images of each moment of `fill`: of three kinds of free bytes, as they were read last,
// as at the last sync, and all 1, each with the files that were made since that sync and without them.
const IMAGES: [[Found; 6]; 16] = [
    [NoJournal; 6],
    [
        First(0),
        NoJournal,
        NoJournal,
        NoJournal,
        NoJournal,
        NoJournal,
    ],
    [
        First(0),
        NoJournal,
        NoJournal,
        NoJournal,
        NoJournal,
        NoJournal,
    ],
    [First(0); 6],
    [First(0); 6],
    [First(0); 6],
    [First(1), First(1), First(0), First(0), First(1), First(1)],
    [First(1); 6],
    [First(1); 6],
    [First(1); 6],
    [First(2), First(2), First(1), First(1), First(2), First(2)],
    [First(2); 6],
    [First(0), First(0), First(2), First(2), First(2), First(2)],
    [First(0); 6],
    [First(0); 6],
    [First(0); 6],
];

// Makes a journal, adds two payloads and takes them away.
fn fill<V: Vault>(alloc: Global, vault: &mut V) -> Result<(), StoreError> {
    let mut journal = Journal::create(alloc, vault, FILE)?;
    journal.append(vault, b"x")?;
    journal.append(vault, b"yz")?;
    journal.reset(vault)
}

fn read_back<V: Vault>(alloc: Global, vault: &mut V) -> Result<Found, StoreError> {
    match Journal::recover(alloc, vault, FILE) {
        Ok((_, records)) => Ok(payloads(&records)),
        Err(StoreError::BadRecord { file: FILE, at: 0 }) => Ok(NoJournal),
        Err(error) => Err(error),
    }
}

fn payloads(records: &[Record]) -> Found {
    match records {
        [] => First(0),
        [x] if is_record(x, 0, b"x") => First(1),
        [x, yz] if is_record(x, 0, b"x") && is_record(yz, 10, b"yz") => First(2),
        _ => Found::Strange,
    }
}

fn is_record(record: &Record, at: u64, payload: &[u8]) -> bool {
    record.at == at && record.payload.bytes() == payload
}

fn payload_stays_until_a_reset<V: Vault>(
    rt: &impl Abort,
    alloc: Global,
    vault: &mut V,
) -> Result<(), Fail> {
    assert_eq!(rt; read_back(alloc, vault)?, NoJournal);
    let mut journal = Journal::create(alloc, vault, FILE)?;
    journal.reserve(vault, 1, 1)?;
    journal.append(vault, b"x")?;
    let (mut journal, records) = Journal::recover(alloc, vault, FILE)?;
    assert_eq!(rt; payloads(&records), First(1));
    journal.reset(vault)?;
    assert_eq!(rt; read_back(alloc, vault)?, First(0));
    Ok(())
}

#[test]
fn journals_do_the_same_over_both_vaults(rt: HostRuntime) -> Result<(), Fail> {
    let alloc = rt.alloc();
    payload_stays_until_a_reset(&rt, alloc, &mut SteadyVault::new(alloc)?)?;
    payload_stays_until_a_reset(&rt, alloc, &mut MemVault::new(alloc, &[], &[])?)
}

#[test]
fn each_call_that_fails_alone_is_a_fault(rt: HostRuntime) -> Result<(), Fail> {
    let alloc = rt.alloc();
    for (before, left) in LEFT.iter().enumerate() {
        let call = before as u64 + 1;
        let mut vault = MemVault::new(alloc, &[call], &[])?;
        let answer = fill(alloc, &mut vault);
        assert!(rt;
            answer == Err(StoreError::WriteFault { faults: 1 }),
            "call {call}"
        );
        assert_eq!(rt; read_back(alloc, &mut vault)?, *left, "call {call}");
    }
    let mut vault = MemVault::new(alloc, &[19], &[])?;
    assert!(rt; fill(alloc, &mut vault) == Ok(()));
    let answer = read_back(alloc, &mut vault);
    assert!(rt; answer == Err(StoreError::ReadFault { faults: 1 }));
    assert!(rt; read_back(alloc, &mut vault) == Ok(First(0)));
    Ok(())
}

#[test]
fn images_have_whole_payloads(rt: HostRuntime) -> Result<(), Fail> {
    let alloc = rt.alloc();
    let mut vault = MemVault::new(alloc, &[], &[])?;
    fill(alloc, &mut vault)?;
    for (moment, expected) in IMAGES.iter().enumerate() {
        let mut images = vault.images(alloc, moment as u64, 1)?;
        assert_eq!(rt; images.len(), 6);
        for (image, left) in images.iter_mut().zip(expected) {
            assert_eq!(rt; read_back(alloc, image)?, *left, "moment {moment}");
        }
    }
    assert_eq!(rt; vault.images(alloc, 16, 1)?.len(), 0);
    Ok(())
}

#[test]
fn images_after_a_fault_have_whole_payloads(rt: HostRuntime) -> Result<(), Fail> {
    let alloc = rt.alloc();
    for call in 1..=18 {
        let mut vault = MemVault::new(alloc, &[call], &[])?;
        assert!(rt; fill(alloc, &mut vault).is_err());
        for moment in 0..16 {
            for image in vault.images(alloc, moment, 1)?.iter_mut() {
                let left = read_back(alloc, image)?;
                assert!(rt; left != Found::Strange, "call {call}, moment {moment}");
                assert!(rt;
                    left != NoJournal || moment < 4,
                    "call {call}, moment {moment}"
                );
            }
        }
    }
    Ok(())
}
