// Groups that are appended to the logs of an opened store, and found again.
use rk_log::Logs;
use rk_memvault::SteadyVault;
use rk_opening::open_store;
use rk_wal::Writer;
use std::alloc::Global;
use std::test::Fail;

// `put a p` alone, with the number 1, with 2, and with 3.
const GROUPS: [[u8; 25]; 3] = [
    [
        0, 0, 0, 0, 0, 0, 0, 1, 0, 0, 0, 1, 0, 0, 0, 9, 1, 0, 1, 1, 1, b'a', 0, 1, b'p',
    ],
    [
        0, 0, 0, 0, 0, 0, 0, 2, 0, 0, 0, 1, 0, 0, 0, 9, 1, 0, 1, 1, 1, b'a', 0, 1, b'p',
    ],
    [
        0, 0, 0, 0, 0, 0, 0, 3, 0, 0, 0, 1, 0, 0, 0, 9, 1, 0, 1, 1, 1, b'a', 0, 1, b'p',
    ],
];

// How many groups each log has, and whether the second is written to.
fn counted(logs: &Logs) -> (usize, usize, bool) {
    let (first, second) = (&logs.first.groups, &logs.second.groups);
    (first.len(), second.len(), logs.is_second_active(0))
}

// The same of what an opening of the vault finds.
fn found(alloc: Global, vault: &mut SteadyVault) -> Result<(usize, usize, bool), Fail> {
    Ok(counted(&open_store(alloc, vault)?.logs))
}

#[test]
fn groups_are_appended_and_found_again(rt: HostRuntime) -> Result<(), Fail> {
    let alloc = rt.alloc();
    let mut vault = SteadyVault::new(alloc)?;
    let Logs { first, second } = open_store(alloc, &mut vault)?.logs;
    let mut writer = Writer::new(first.journal, second.journal, false);
    writer.append(&mut vault, &GROUPS[0])?;
    writer.append(&mut vault, &GROUPS[1])?;
    writer.switch();
    writer.append(&mut vault, &GROUPS[2])?;
    writer.reserve(&mut vault, true, 1, 25)?;
    assert_eq!(rt; found(alloc, &mut vault)?, (2, 1, true));
    Ok(())
}
