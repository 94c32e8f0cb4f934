// The two logs of a store: which groups they are read as, and where the first bad one is named.
use rk_log::{Logs, recover};
use rk_memvault::SteadyVault;
use rk_outside::{NoMemory, StoreError, Vault, VaultError};
use std::alloc::Global;
use std::test::Fail;

/// A group: its first number, and how many batches of one put it has.
type Written = (u64, u8);

// What is found: how many groups each log has and whether the second is the one to write to, or the first bad record.
#[derive(Clone, Copy, Debug, PartialEq, Eq)]
enum Found {
    Groups(usize, usize, bool),
    Bad(u64, u64),
}

use Found::{Bad, Groups};

// `put a p`, behind its length.
const BATCH: [u8; 13] = [0, 0, 0, 9, 1, 0, 1, 1, 1, b'a', 0, 1, b'p'];

// The record of a group.
fn push_group(log: &mut Vec<u8>, (first, batches): Written) -> Result<(), NoMemory> {
    log.extend_from_slice(&[1, 0, 0, 0, 0, 0, 0, 0, 12 + 13 * (batches % 16)])?;
    for shift in [56, 48, 40, 32, 24, 16, 8, 0] {
        log.push((first >> shift & 0xff) as u8)?;
    }
    log.extend_from_slice(&[0, 0, 0, batches])?;
    for _ in 0..batches {
        log.extend_from_slice(&BATCH)?;
    }
    Ok(())
}

// A log of these groups, and its closed gate.
fn spelled(alloc: Global, groups: &[Written]) -> Result<Vec<u8>, NoMemory> {
    let mut log = Vec::new(alloc);
    for group in groups {
        push_group(&mut log, *group)?;
    }
    log.push(0)?;
    Ok(log)
}

// Makes a file of these bytes.
fn put(alloc: Global, vault: &mut SteadyVault, file: u64, bytes: &[u8]) -> Result<(), VaultError> {
    vault.make_room(alloc, file, (bytes.len() as u64).max(1))?;
    vault.write_at(file, 0, bytes)?;
    Ok(())
}

// What is read of two logs of these bytes, where the numbers up to one are in tables.
fn read_as(alloc: Global, first: &[u8], second: &[u8], flushed: u64) -> Result<Found, Fail> {
    let mut vault = SteadyVault::new(alloc)?;
    put(alloc, &mut vault, 1, first)?;
    put(alloc, &mut vault, 2, second)?;
    match recover(alloc, &mut vault, flushed) {
        Ok(logs) => Ok(counted(&logs, flushed)),
        Err(StoreError::BadRecord { file, at }) => Ok(Bad(file, at)),
        Err(error) => Err(error.into()),
    }
}

fn counted(logs: &Logs, flushed: u64) -> Found {
    let (first, second) = (&logs.first.groups, &logs.second.groups);
    Groups(first.len(), second.len(), logs.is_second_active(flushed))
}

// The groups of both logs, the last number in tables, and what is found. A group of one batch has a record of 34 bytes.
const ROWS: [(&[Written], &[Written], u64, Found); 14] = [
    (&[], &[], 0, Groups(0, 0, false)),
    (&[(1, 1)], &[], 0, Groups(1, 0, false)),
    (&[(1, 1), (2, 3)], &[(5, 1)], 0, Groups(2, 1, true)),
    (&[(4, 1)], &[(1, 1), (2, 2)], 0, Groups(1, 2, false)),
    (&[(1, 1)], &[(2, 1)], 1, Groups(1, 1, true)),
    (&[(1, 1)], &[(2, 1)], 2, Groups(1, 1, false)),
    (&[(2, 1)], &[], 1, Groups(1, 0, false)),
    (&[(2, 1)], &[], 0, Bad(1, 0)),
    (&[(1, 1), (3, 1)], &[(2, 1)], 0, Bad(1, 34)),
    (&[(1, 1)], &[(1, 1)], 0, Bad(2, 0)),
    (&[(3, 1)], &[(1, 1)], 0, Bad(1, 0)),
    (&[(1, 2)], &[], 1, Bad(1, 0)),
    (
        &[(72_057_594_037_927_935, 1)],
        &[],
        72_057_594_037_927_934,
        Groups(1, 0, false),
    ),
    (
        &[(72_057_594_037_927_935, 2)],
        &[],
        72_057_594_037_927_934,
        Bad(1, 0),
    ),
];

#[test]
fn logs_are_read_or_the_first_bad_group_is_named(rt: HostRuntime) -> Result<(), Fail> {
    let alloc = rt.alloc();
    for (first, second, flushed, wanted) in ROWS {
        let first = spelled(alloc, first)?;
        let second = spelled(alloc, second)?;
        assert_eq!(rt; read_as(alloc, &first, &second, flushed)?, wanted);
    }
    Ok(())
}

// Logs that are no list of groups: an open record of no bytes, one of a group without a batch, one whose batch has the key
// `@`, one whose group has a byte too many, a log without a byte, and a good log.
const NONE: [&[u8]; 5] = [
    &[1, 0, 0, 0, 0, 0, 0, 0, 0, 0],
    &[
        1, 0, 0, 0, 0, 0, 0, 0, 12, 0, 0, 0, 0, 0, 0, 0, 1, 0, 0, 0, 0, 0,
    ],
    &[
        1, 0, 0, 0, 0, 0, 0, 0, 25, 0, 0, 0, 0, 0, 0, 0, 1, 0, 0, 0, 1, 0, 0, 0, 9, 1, 0, 1, 1, 1,
        b'@', 0, 1, b'p', 0,
    ],
    &[
        1, 0, 0, 0, 0, 0, 0, 0, 26, 0, 0, 0, 0, 0, 0, 0, 1, 0, 0, 0, 1, 0, 0, 0, 9, 1, 0, 1, 1, 1,
        b'a', 0, 1, b'p', 0, 0,
    ],
    &[],
];

#[test]
fn a_record_that_is_no_group_is_named_before_any_rule(rt: HostRuntime) -> Result<(), Fail> {
    let alloc = rt.alloc();
    let late = spelled(alloc, &[(2, 1)])?;
    for bad in NONE {
        assert_eq!(rt; read_as(alloc, &late, bad, 0)?, Bad(2, 0));
        assert_eq!(rt; read_as(alloc, bad, &late, 0)?, Bad(1, 0));
    }
    Ok(())
}

#[test]
fn a_log_that_is_not_there_is_a_bad_record(rt: HostRuntime) -> Result<(), Fail> {
    let mut vault = SteadyVault::new(rt.alloc())?;
    assert!(rt;
        matches!(
            recover(rt.alloc(), &mut vault, 0),
            Err(StoreError::BadRecord { file: 1, at: 0 })
        )
    );
    Ok(())
}
