// Vaults in memory, and what a crash may leave of them.
use rk_memvault::{MemVault, SteadyVault};
use rk_outside::{Counting, Failed, Sealed, Vault, VaultError};
use std::alloc::Global;
use std::process::Abort;
use std::test::Fail;

// Three calls: the file's length, room, and the write.
fn append<V: Vault>(
    vault: &mut V,
    alloc: Global,
    file: u64,
    bytes: &[u8],
) -> Result<(), VaultError> {
    let at = vault.len(file)?.unwrap_or(0);
    let Some(end) = at.checked_add(bytes.len() as u64) else {
        return Err(VaultError::Memory);
    };
    vault.make_room(alloc, file, end.max(1))?;
    vault.write_at(file, at, bytes)?;
    Ok(())
}

fn cut<V: Vault>(vault: &mut V, file: u64, len: u64) -> Result<(), Failed> {
    match vault.len(file)? {
        Some(have) if len <= have => vault.cut(file, len),
        _ => Ok(()),
    }
}

fn open<V: Vault>(vault: &mut V, alloc: Global, file: u64) -> Result<V::File, VaultError> {
    match vault.len(file)? {
        Some(_) => vault.open_sealed(alloc, file),
        None => Err(VaultError::Failed),
    }
}

fn files_are_changed_and_read<V: Vault>(
    rt: &impl Abort,
    alloc: Global,
    vault: &mut V,
) -> Result<(), Fail>
where
    V::File: Drop,
    <V::File as Sealed>::Reader: Drop,
{
    append(vault, alloc, 9, b"abc")?;
    append(vault, alloc, 7, b"x")?;
    append(vault, alloc, 9, b"de")?;
    assert_eq!(rt; vault.numbers(alloc)?.as_slice(), [7, 9].as_slice());
    cut(vault, 9, 4)?;
    vault.sync(9)?;
    let mut out = [0; 8];
    assert!(rt; vault.read_at(9, 2, &mut out) == Ok(2));
    assert_eq!(rt; &out[..2], b"cd".as_slice());
    let sealed = open(vault, alloc, 9)?;
    vault.remove(9)?;
    assert!(rt; vault.len(9) == Ok(None));
    let mut reader = vault.reader(alloc)?;
    assert!(rt; sealed.read_at(&mut reader, 1, &mut out) == Ok(3));
    assert_eq!(rt; &out[..3], b"bcd".as_slice());
    assert_eq!(rt; reader.reads(), 1);
    vault.give_back(reader);
    assert_eq!(rt; vault.faults(), 0);
    Ok(())
}

#[test]
fn both_vaults_do_the_same(rt: HostRuntime) -> Result<(), Fail> {
    let alloc = rt.alloc();
    files_are_changed_and_read(&rt, alloc, &mut SteadyVault::new(alloc)?)?;
    files_are_changed_and_read(&rt, alloc, &mut MemVault::new(alloc, &[], &[2])?)
}

#[test]
fn listed_calls_fail_alone(rt: HostRuntime) -> Result<(), Fail> {
    let alloc = rt.alloc();
    for call in 1..4 {
        let mut vault = MemVault::new(alloc, &[call], &[1])?;
        assert!(rt; append(&mut vault, alloc, 9, b"abc") == Err(VaultError::Failed));
        assert!(rt; append(&mut vault, alloc, 9, b"abc") == Ok(()));
        let sealed = open(&mut vault, alloc, 9)?;
        let mut reader = vault.reader(alloc)?;
        let mut out = [0; 8];
        assert!(rt; sealed.read_at(&mut reader, 0, &mut out) == Err(Failed));
        assert!(rt; sealed.read_at(&mut reader, 0, &mut out) == Ok(3));
        assert_eq!(rt; vault.faults(), 1);
        vault.give_back(reader);
        assert_eq!(rt; vault.faults(), 2);
        assert_eq!(rt; vault.starved(), 0);
    }
    Ok(())
}

// What is read of file 9, byte by byte as digits, and 0 where it is not there.
fn shown(vault: &mut MemVault) -> Result<u64, Failed> {
    if vault.len(9)?.is_none() {
        return Ok(0);
    }
    let mut out = [0; 4];
    let count = vault.read_at(9, 0, &mut out)?;
    let mut number = 1;
    for byte in out.iter().take(count) {
        number = (number % 100_000) * 10 + u64::from(*byte % 10);
    }
    Ok(number)
}

// Moments: the beginning, a write of 1 2, a sync, a write of 3 behind, a cut to one byte, a removal.
#[test]
fn images_of_each_moment(rt: HostRuntime) -> Result<(), Fail> {
    let alloc = rt.alloc();
    let mut vault = MemVault::new(alloc, &[], &[])?;
    append(&mut vault, alloc, 9, &[1, 2])?;
    vault.sync(9)?;
    append(&mut vault, alloc, 9, &[3])?;
    cut(&mut vault, 9, 1)?;
    vault.remove(9)?;
    for (moment, expected) in [
        (0, [0, 0, 0, 0, 0, 0]),
        (1, [112, 0, 1, 0, 177, 0]),
        (2, [112, 112, 112, 112, 112, 112]),
        (3, [1123, 1123, 112, 112, 1127, 1127]),
        (4, [11, 11, 11, 11, 11, 11]),
        (5, [11, 0, 11, 0, 11, 0]),
    ] {
        let mut images = vault.images(alloc, moment, 7)?;
        assert_eq!(rt; images.len(), 6);
        for (image, number) in images.iter_mut().zip(expected) {
            assert!(rt; shown(image) == Ok(number));
        }
    }
    assert_eq!(rt; vault.images(alloc, 6, 7)?.len(), 0);
    Ok(())
}
