// Journals whose bytes were cut or changed.
use rk_gate::{Journal, Record};
use rk_memvault::SteadyVault;
use rk_outside::{StoreError, Vault, VaultError};
use std::alloc::Global;
use std::process::Abort;
use std::test::Fail;

mod plain;

const FILE: u64 = 3;

/// The payloads `x`, nothing and `yz`, a closed gate, and two free bytes.
const THREE: [u8; 33] = [
    1, 0, 0, 0, 0, 0, 0, 0, 1, b'x', 1, 0, 0, 0, 0, 0, 0, 0, 0, 1, 0, 0, 0, 0, 0, 0, 0, 2, b'y',
    b'z', 0, 1, 9,
];

/// A batch of one operation with the number 1.
const BATCH: [u8; 25] = [
    0, 0, 0, 0, 0, 0, 0, 1, 0, 0, 0, 1, 0, 0, 0, 9, 1, 0, 1, 1, 1, b'a', 0, 1, b'p',
];

/// A log of that batch alone.
const LOG: [u8; 35] = [
    1, 0, 0, 0, 0, 0, 0, 0, 25, 0, 0, 0, 0, 0, 0, 0, 1, 0, 0, 0, 1, 0, 0, 0, 9, 1, 0, 1, 1, 1,
    b'a', 0, 1, b'p', 0,
];

// Makes a file of these bytes.
fn put(alloc: Global, vault: &mut SteadyVault, bytes: &[u8]) -> Result<(), VaultError> {
    vault.make_room(alloc, FILE, (bytes.len() as u64).max(1))?;
    vault.write_at(FILE, 0, bytes)?;
    Ok(())
}

fn recovered(alloc: Global, bytes: &[u8]) -> Result<Vec<Record>, StoreError> {
    let mut vault = SteadyVault::new(alloc)?;
    if put(alloc, &mut vault, bytes).is_err() {
        return Err(StoreError::Memory);
    }
    let (_, records) = Journal::recover(alloc, &mut vault, FILE)?;
    Ok(records)
}

fn are_read_plainly(rt: &impl Abort, alloc: Global, bytes: &[u8]) -> Result<(), Fail> {
    match (recovered(alloc, bytes), plain::records(alloc, bytes)?) {
        (Ok(found), Ok(expected)) => assert!(rt; are_same(&found, &expected)),
        (Err(StoreError::BadRecord { file: FILE, at }), Err(place)) => assert_eq!(rt; at, place),
        _ => panic!(rt; "one of two readings is refused"),
    }
    Ok(())
}

fn are_same(found: &[Record], expected: &[Record]) -> bool {
    found.len() == expected.len()
        && found.iter().zip(expected).all(|(one, other)| one.at == other.at
            && one.payload == other.payload)
}

#[test]
fn every_truncation(rt: HostRuntime) -> Result<(), Fail> {
    for len in 0..=THREE.len() {
        are_read_plainly(&rt, rt.alloc(), &THREE[..len])?;
    }
    Ok(())
}

#[test]
fn every_change_of_one_byte(rt: HostRuntime) -> Result<(), Fail> {
    for place in 0..THREE.len() {
        for byte in 0..=255 {
            let mut changed = THREE;
            changed[place] = byte;
            are_read_plainly(&rt, rt.alloc(), &changed)?;
        }
    }
    Ok(())
}

/// Where bytes stop to be a journal, or how many records they have.
type Row<'a> = (&'a [u8], Result<usize, u64>);

// A gate that is not 1 closes; a length that is the greatest number, a payload that ends in its middle and one that no
// byte follows are bad at their gate.
const ROWS: [Row<'static>; 8] = [
    (&[], Err(0)),
    (&[0], Ok(0)),
    (&[2, 255, 255, 255, 255, 255, 255, 255, 255], Ok(0)),
    (&[1, 0, 0, 0, 0, 0, 0, 0], Err(0)),
    (&[1, 255, 255, 255, 255, 255, 255, 255, 255, 0, 0], Err(0)),
    (&[1, 0, 0, 0, 0, 0, 0, 0, 2, b'y'], Err(0)),
    (&[1, 0, 0, 0, 0, 0, 0, 0, 2, b'y', b'z'], Err(0)),
    (
        &[
            1, 0, 0, 0, 0, 0, 0, 0, 1, b'x', 1, 0, 0, 0, 0, 0, 0, 0, 2, b'y',
        ],
        Err(10),
    ),
];

#[test]
fn bytes_worked_out_by_hand(rt: HostRuntime) -> Result<(), Fail> {
    for (bytes, expected) in ROWS {
        match recovered(rt.alloc(), bytes) {
            Ok(records) => assert_eq!(rt; Ok(records.len()), expected),
            Err(StoreError::BadRecord { file: FILE, at }) => assert_eq!(rt; Err(at), expected),
            Err(error) => return Err(error.into()),
        }
    }
    Ok(())
}

#[test]
fn a_file_that_is_not_there_is_no_journal(rt: HostRuntime) -> Result<(), Fail> {
    let mut vault = SteadyVault::new(rt.alloc())?;
    assert!(rt;
        Journal::recover(rt.alloc(), &mut vault, FILE).err()
            == Some(StoreError::BadRecord { file: FILE, at: 0 })
    );
    Ok(())
}

#[test]
fn the_bytes_of_a_log(rt: HostRuntime) -> Result<(), Fail> {
    let mut vault = SteadyVault::new(rt.alloc())?;
    let mut journal = Journal::create(rt.alloc(), &mut vault, FILE)?;
    journal.append(&mut vault, &BATCH)?;
    let mut out = [7; 40];
    assert!(rt; vault.read_at(FILE, 0, &mut out) == Ok(35));
    assert_eq!(rt; &out[..35], LOG.as_slice());
    Ok(())
}
