// What an opening finds in files, and what it refuses.
use rk_memvault::SteadyVault;
use rk_opening::{Opened, open_store};
use rk_outside::{StoreError, Vault, VaultError};
use std::alloc::Global;
use std::test::Fail;

/// A file's number and its bytes.
type File = (u64, &'static [u8]);

// What is found: how many groups each log has, and the last number in tables; or the refusal.
#[derive(Clone, Copy, Debug, PartialEq, Eq)]
enum Found {
    Groups(usize, usize, u64),
    Bad(u64, u64),
    Table(u64),
}

use Found::{Bad, Groups, Table};

const HEAD: File = (0, b"rkstore1");

const NO_FIRST: File = (1, &[0]);

const NO_SECOND: File = (2, &[0]);

const NO_THIRD: File = (3, &[0]);

const NO_FOURTH: File = (4, &[0]);

// A log of one group, from the number 1 on, of the batch `put a p`.
const FIRST: File = (
    1,
    &[
        1, 0, 0, 0, 0, 0, 0, 0, 25, 0, 0, 0, 0, 0, 0, 0, 1, 0, 0, 0, 1, 0, 0, 0, 9, 1, 0, 1, 1, 1,
        b'a', 0, 1, b'p', 0,
    ],
);

// The same with its gate closed, with its gate 2, without its last byte, from the number 2 on, and with the key `@`.
const CLOSED: File = (
    1,
    &[
        0, 0, 0, 0, 0, 0, 0, 0, 25, 0, 0, 0, 0, 0, 0, 0, 1, 0, 0, 0, 1, 0, 0, 0, 9, 1, 0, 1, 1, 1,
        b'a', 0, 1, b'p', 0,
    ],
);

const SHUT: File = (
    1,
    &[
        2, 0, 0, 0, 0, 0, 0, 0, 25, 0, 0, 0, 0, 0, 0, 0, 1, 0, 0, 0, 1, 0, 0, 0, 9, 1, 0, 1, 1, 1,
        b'a', 0, 1, b'p', 0,
    ],
);

const SHORT: File = (
    1,
    &[
        1, 0, 0, 0, 0, 0, 0, 0, 25, 0, 0, 0, 0, 0, 0, 0, 1, 0, 0, 0, 1, 0, 0, 0, 9, 1, 0, 1, 1, 1,
        b'a', 0, 1, b'p',
    ],
);

const LATE: File = (
    1,
    &[
        1, 0, 0, 0, 0, 0, 0, 0, 25, 0, 0, 0, 0, 0, 0, 0, 2, 0, 0, 0, 1, 0, 0, 0, 9, 1, 0, 1, 1, 1,
        b'a', 0, 1, b'p', 0,
    ],
);

const NO_KEY: File = (
    1,
    &[
        1, 0, 0, 0, 0, 0, 0, 0, 25, 0, 0, 0, 0, 0, 0, 0, 1, 0, 0, 0, 1, 0, 0, 0, 9, 1, 0, 1, 1, 1,
        b'@', 0, 1, b'p', 0,
    ],
);

// A version without tables, after which the numbers up to 1 are in tables.
const FLUSHED: File = (
    3,
    &[
        1, 0, 0, 0, 0, 0, 0, 0, 32, 0, 0, 0, 0, 0, 0, 0, 17, 0, 0, 0, 0, 0, 0, 0, 1, 0, 0, 0, 0, 0,
        0, 0, 0, 0, 0, 0, 0, 0, 0, 0, 0, 0,
    ],
);

const BAD_HEAD: File = (0, b"\0kstore1");

const TABLE: File = (16, b"a table");

const LATER_TABLE: File = (17, b"a table");

const UNUSED: File = (5, b"ours");

// The files of a vault, and what is found in them.
const ROWS: [(&[File], Found); 17] = [
    (&[], Groups(0, 0, 0)),
    (&[UNUSED, NO_FIRST], Groups(0, 0, 0)),
    (
        &[HEAD, NO_FIRST, NO_SECOND, NO_THIRD, NO_FOURTH],
        Groups(0, 0, 0),
    ),
    (
        &[HEAD, FIRST, NO_SECOND, NO_THIRD, NO_FOURTH],
        Groups(1, 0, 0),
    ),
    (
        &[HEAD, CLOSED, NO_SECOND, NO_THIRD, NO_FOURTH],
        Groups(0, 0, 0),
    ),
    (
        &[HEAD, SHUT, NO_SECOND, NO_THIRD, NO_FOURTH],
        Groups(0, 0, 0),
    ),
    (
        &[HEAD, FIRST, NO_SECOND, NO_THIRD, NO_FOURTH, TABLE],
        Groups(1, 0, 0),
    ),
    (
        &[HEAD, FIRST, NO_SECOND, FLUSHED, NO_FOURTH],
        Groups(0, 0, 1),
    ),
    (&[HEAD, SHORT, NO_SECOND, NO_THIRD, NO_FOURTH], Bad(1, 0)),
    (&[HEAD, LATE, NO_SECOND, NO_THIRD, NO_FOURTH], Bad(1, 0)),
    (
        &[HEAD, LATE, NO_SECOND, FLUSHED, NO_FOURTH],
        Groups(1, 0, 1),
    ),
    (&[HEAD, NO_KEY, NO_SECOND, NO_THIRD, NO_FOURTH], Bad(1, 0)),
    (&[HEAD, FIRST, NO_THIRD, NO_FOURTH], Bad(2, 0)),
    (&[HEAD, LATE, NO_SECOND, NO_THIRD], Bad(4, 0)),
    (&[HEAD], Bad(3, 0)),
    (
        &[BAD_HEAD, FIRST, NO_SECOND, NO_THIRD, NO_FOURTH],
        Groups(0, 0, 0),
    ),
    (
        &[
            BAD_HEAD,
            FIRST,
            NO_SECOND,
            NO_THIRD,
            NO_FOURTH,
            LATER_TABLE,
            TABLE,
        ],
        Table(16),
    ),
];

// A vault of these files.
fn vault_of(alloc: Global, files: &[File]) -> Result<SteadyVault, VaultError> {
    let mut vault = SteadyVault::new(alloc)?;
    for (file, bytes) in files {
        vault.make_room(alloc, *file, (bytes.len() as u64).max(1))?;
        vault.write_at(*file, 0, bytes)?;
    }
    Ok(vault)
}

fn counted(opened: &Opened) -> Found {
    let (first, second) = (&opened.logs.first.groups, &opened.logs.second.groups);
    Groups(first.len(), second.len(), opened.version.flushed_upto)
}

// What an opening of the vault finds.
fn open(alloc: Global, vault: &mut SteadyVault) -> Result<Found, Fail> {
    match open_store(alloc, vault) {
        Ok(opened) => Ok(counted(&opened)),
        Err(StoreError::BadRecord { file, at }) => Ok(Bad(file, at)),
        Err(StoreError::NotAStore { file }) => Ok(Table(file)),
        Err(error) => Err(error.into()),
    }
}

#[test]
fn files_are_opened_twice_or_refused_twice(rt: HostRuntime) -> Result<(), Fail> {
    let alloc = rt.alloc();
    for (files, wanted) in ROWS {
        let mut vault = vault_of(alloc, files)?;
        assert_eq!(rt; open(alloc, &mut vault)?, wanted);
        assert_eq!(rt; open(alloc, &mut vault)?, wanted);
    }
    Ok(())
}

#[test]
fn what_is_no_table_of_a_store_stays_or_goes(rt: HostRuntime) -> Result<(), Fail> {
    let alloc = rt.alloc();
    let files = [HEAD, FIRST, NO_SECOND, NO_THIRD, NO_FOURTH, UNUSED, TABLE];
    let mut vault = vault_of(alloc, &files)?;
    assert_eq!(rt; open(alloc, &mut vault)?, Groups(1, 0, 0));
    assert_eq!(rt;
        vault.numbers(alloc)?.as_slice(),
        [0, 1, 2, 3, 4, 5].as_slice()
    );
    Ok(())
}
