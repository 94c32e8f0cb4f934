// Manifests over vaults in memory, whose calls fail, and of which crashes leave images.
ghost use Rattle.std.specs.Prelude.{◌≡◌, IfOk, IsTrue, [], ◌∷◌, map};
ghost use Rattle.rk_manifest.specs.Versions.{version, has_no_tables};

use rk_gate::Journal;
use rk_manifest::{Manifest, TableDesc, VersionDesc};
use rk_memvault::{MemVault, SteadyVault};
use rk_outside::{NoMemory, StoreError, Vault};
use std::alloc::Global;
use std::process::Abort;
use std::test::Fail;

const THIRD: u64 = 3;

const FOURTH: u64 = 4;

/// How many calls it takes to make the manifest and record two versions, with a recovery between them.
const CALLS: u64 = 24;

/// How many moments that has, with the beginning.
const MOMENTS: u64 = 15;

// What is read back of a manifest in which two versions were recorded.
#[derive(Clone, Copy, Debug, PartialEq, Eq)]
enum Found {
    NoManifest,
    Nothing,
    First,
    Second,
    Strange,
}

// Four levels without a table.
fn no_tables(alloc: Global) -> Result<Vec<Vec<TableDesc>>, NoMemory>
    ensures { IfOk result (λ levels. map (λ level. level.items) levels.items ≡ [] ∷ [] ∷ [] ∷ [] ∷ []) }
{
    let mut levels = Vec::new(alloc);
    levels.push(Vec::new(alloc))?;
    levels.push(Vec::new(alloc))?;
    levels.push(Vec::new(alloc))?;
    levels.push(Vec::new(alloc))?;
    Ok(levels)
}

// A version without tables.
fn bare(alloc: Global, next_file: u64, flushed_upto: u64) -> Result<VersionDesc, NoMemory>
    ensures { IfOk result (λ desc. IsTrue (has_no_tables (version desc))) }
{
    Ok(VersionDesc {
        next_file,
        flushed_upto,
        levels: no_tables(alloc)?,
    })
}

// Makes a manifest and records a version, and then another.
fn fill<V: Vault>(alloc: Global, vault: &mut V) -> Result<(), StoreError> {
    let mut manifest = Manifest::create(alloc, vault)?;
    manifest.install(vault, &bare(alloc, 17, 1)?)?;
    let (mut manifest, _) = Manifest::recover(alloc, vault)?;
    manifest.install(vault, &bare(alloc, 18, 1)?)?;
    Ok(())
}

fn read_back<V: Vault>(alloc: Global, vault: &mut V) -> Result<Found, StoreError> {
    match Manifest::recover(alloc, vault) {
        Ok((_, desc)) => Ok(shown(&desc)),
        Err(
            StoreError::BadRecord {
                file: THIRD | FOURTH,
                at: 0,
            },
        ) => Ok(Found::NoManifest),
        Err(error) => Err(error),
    }
}

fn shown(desc: &VersionDesc) -> Found {
    match (desc.next_file, desc.flushed_upto) {
        (16, 0) => Found::Nothing,
        (17, 1) => Found::First,
        (18, 1) => Found::Second,
        _ => Found::Strange,
    }
}

fn the_last_version_counts<V: Vault>(
    rt: &impl Abort,
    alloc: Global,
    vault: &mut V,
) -> Result<(), Fail> {
    assert_eq!(rt; read_back(alloc, vault)?, Found::NoManifest);
    fill(alloc, vault)?;
    assert_eq!(rt; read_back(alloc, vault)?, Found::Second);
    Ok(())
}

#[test]
fn manifests_do_the_same_over_both_vaults(rt: HostRuntime) -> Result<(), Fail> {
    let alloc = rt.alloc();
    the_last_version_counts(&rt, alloc, &mut SteadyVault::new(alloc)?)?;
    the_last_version_counts(&rt, alloc, &mut MemVault::new(alloc, &[], &[])?)
}

// A journal of two versions with these next file numbers.
fn two_records(
    alloc: Global,
    vault: &mut SteadyVault,
    file: u64,
    numbers: (u64, u64),
) -> Result<(), StoreError> {
    let mut journal = Journal::create(alloc, vault, file)?;
    journal.append(vault, &bare(alloc, numbers.0, 1)?.encode(alloc)?)?;
    journal.append(vault, &bare(alloc, numbers.1, 2)?.encode(alloc)?)
}

// A journal of one version with this last number in tables.
fn one_record(
    alloc: Global,
    vault: &mut SteadyVault,
    file: u64,
    flushed_upto: u64,
) -> Result<(), StoreError> {
    let mut journal = Journal::create(alloc, vault, file)?;
    journal.append(vault, &bare(alloc, 17, flushed_upto)?.encode(alloc)?)
}

#[test]
fn next_file_numbers_rise_in_a_file(rt: HostRuntime) -> Result<(), Fail> {
    let alloc = rt.alloc();
    for (numbers, bad) in [
        ((17, 18), false),
        ((17, 17), true),
        ((18, 17), true),
        ((40, 16), true),
    ] {
        let mut vault = SteadyVault::new(alloc)?;
        two_records(alloc, &mut vault, THIRD, numbers)?;
        one_record(alloc, &mut vault, FOURTH, 7)?;
        let error = Manifest::recover(alloc, &mut vault).err();
        let expected = StoreError::BadRecord {
            file: THIRD,
            at: 41,
        };
        assert_eq!(rt; error, bad.then_some(expected));
    }
    Ok(())
}

#[test]
fn of_equal_versions_that_of_file_3_counts(rt: HostRuntime) -> Result<(), Fail> {
    let alloc = rt.alloc();
    let mut vault = SteadyVault::new(alloc)?;
    one_record(alloc, &mut vault, THIRD, 1)?;
    one_record(alloc, &mut vault, FOURTH, 2)?;
    assert_eq!(rt; read_back(alloc, &mut vault)?, Found::First);
    Ok(())
}

#[test]
fn each_call_that_fails_alone_is_a_fault(rt: HostRuntime) -> Result<(), Fail> {
    let alloc = rt.alloc();
    for call in 1..=CALLS {
        let mut vault = MemVault::new(alloc, &[call], &[])?;
        let answer = fill(alloc, &mut vault);
        assert!(rt;
            answer == Err(StoreError::WriteFault { faults: 1 })
                || answer == Err(StoreError::ReadFault { faults: 1 }),
            "call {call}"
        );
        let left = read_back(alloc, &mut vault)?;
        assert!(rt; left != Found::Strange, "call {call}");
        assert_eq!(rt; left == Found::NoManifest, call <= 6, "call {call}");
    }
    let mut vault = MemVault::new(alloc, &[CALLS + 1], &[])?;
    assert!(rt; fill(alloc, &mut vault) == Ok(()));
    Ok(())
}

#[test]
fn images_have_whole_versions(rt: HostRuntime) -> Result<(), Fail> {
    let alloc = rt.alloc();
    let mut vault = MemVault::new(alloc, &[], &[])?;
    fill(alloc, &mut vault)?;
    for moment in 0..MOMENTS {
        let mut images = vault.images(alloc, moment, 1)?;
        assert_eq!(rt; images.len(), 6);
        for image in images.iter_mut() {
            let left = read_back(alloc, image)?;
            assert!(rt; is_right(moment, left), "moment {moment}");
        }
    }
    assert_eq!(rt; vault.images(alloc, MOMENTS, 1)?.len(), 0);
    Ok(())
}

// The manifest is made at moment 6, the first version recorded by the moments 9 and 10, and the second by 13 and 14.
fn is_right(moment: u64, left: Found) -> bool {
    match moment {
        0..=5 => left == Found::NoManifest || left == Found::Nothing,
        6..=8 => left == Found::Nothing,
        9 => left == Found::Nothing || left == Found::First,
        10..=12 => left == Found::First,
        13 => left == Found::First || left == Found::Second,
        _ => left == Found::Second,
    }
}
