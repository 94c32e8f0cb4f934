// What a folder keeps, and what it passes over. Each test has a folder of its own.
use rk_folder::FolderVault;
use rk_outside::{Sealed, Vault, VaultError};
use std::fs;
use std::test::Fail;

#[test]
fn a_folder_keeps_what_is_written(rt: HostRuntime) -> Result<(), Fail> {
    let alloc = rt.alloc();
    let mut vault = FolderVault::new(rt, alloc, "kept")?;
    vault.write_at(16, 0, b"abcdef")?;
    vault.write_at(16, 2, b"XY")?;
    vault.write_at(3, 0, b"head")?;
    vault.cut(3, 2)?;
    vault.sync(16)?;
    vault.sync(3)?;
    let mut again = FolderVault::new(rt, alloc, "kept")?;
    let mut front = [0; 8];
    assert_eq!(rt;
        (again.len(16)?, again.len(3)?, again.len(4)?),
        (Some(6), Some(2), None)
    );
    assert_eq!(rt; again.read_at(16, 1, &mut front)?, 5);
    assert_eq!(rt; &front[..5], b"bXYef".as_slice());
    assert_eq!(rt; again.read_at(4, 0, &mut front)?, 0);
    Ok(())
}

#[test]
fn names_that_are_no_numbers_are_passed_over(rt: HostRuntime) -> Result<(), Fail> {
    let alloc = rt.alloc();
    let mut vault = FolderVault::new(rt, alloc, "named")?;
    for file in [20, 3, 100] {
        vault.write_at(file, 0, b"x")?;
    }
    for name in ["named/note", "named/007", "named/1a"] {
        fs::write(&rt, name, b"theirs")?;
    }
    assert_eq!(rt; vault.numbers(alloc)?.as_slice(), [3, 20, 100].as_slice());
    vault.remove(20)?;
    vault.remove(21)?;
    vault.sync(20)?;
    assert_eq!(rt; vault.numbers(alloc)?.as_slice(), [3, 100].as_slice());
    Ok(())
}

#[test]
fn a_sealed_file_stays_as_it_was_opened(rt: HostRuntime) -> Result<(), Fail> {
    let alloc = rt.alloc();
    let mut vault = FolderVault::new(rt, alloc, "sealed")?;
    vault.write_at(16, 0, b"abc")?;
    let sealed = vault.open_sealed(alloc, 16)?;
    vault.remove(16)?;
    let mut reader = vault.reader(alloc)?;
    let mut out = [0; 4];
    assert_eq!(rt;
        (sealed.size(), sealed.read_at(&mut reader, 1, &mut out)?),
        (3, 2)
    );
    assert_eq!(rt; &out[..2], b"bc".as_slice());
    vault.give_back(reader);
    assert_eq!(rt; vault.faults(), 0);
    Ok(())
}

#[test]
fn what_is_no_folder_is_refused_and_faults_are_counted(rt: HostRuntime) -> Result<(), Fail> {
    let alloc = rt.alloc();
    fs::write(&rt, "file", b"no folder")?;
    assert!(rt; matches!(FolderVault::new(rt, alloc, "file"), Err(VaultError::Failed)));
    assert!(rt;
        matches!(
            FolderVault::new(rt, alloc, "not/there"),
            Err(VaultError::Failed)
        )
    );
    let mut vault = FolderVault::new(rt, alloc, "faulty")?;
    fs::create_dir(&rt, "faulty/1")?;
    assert!(rt; vault.write_at(1, 0, b"x").is_err());
    assert!(rt; vault.remove(1).is_err());
    assert_eq!(rt; vault.faults(), 2);
    Ok(())
}
