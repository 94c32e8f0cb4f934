// Crash images of a vault in memory.
ghost use Rattle.std.specs.Prelude.{◌≡◌, [], IfOk, OnOk};
ghost use Rattle.rk_outside.specs.Disks.{Disk};
ghost use Rattle.rk_memvault.specs.Records.{disk_after};
ghost use Rattle.rk_memvault.specs.Images.{AreTracesOf, AreTracesAt, is_change, IsImageBy, AreImagesBy};

use crate::MemVault;
use crate::free::Free;
use crate::record::{Call, Noted};
use crate::scene::Scene;
use rk_outside::{Bytes, NoMemory};
use std::alloc::Global;

// The files after one call more; and whether it was a change.
fn step(alloc: Global, scene: &mut Scene, fill: u8, noted: &Noted) -> Result<bool, NoMemory>
    ensures changed { IfOk result (λ changed. changed ≡ is_change noted.now.call) }
    ensures traces { OnOk result ((d : Disk) → AreTracesOf fill d scene.old →
        AreTracesOf fill (disk_after noted.now.call noted.now.ok d) scene.new) }
{
    match &noted.call {
        Call::Edited { file, edit } => {
            scene.edit(alloc, fill, *file, edit, noted.ok)?;
            Ok(true)
        }
        Call::Numbers
        | Call::MakeRoom { .. }
        | Call::Length { .. }
        | Call::Read { .. }
        | Call::Open { .. } => Ok(false),
    }
}

// What is kept of the files at a moment, and none where there was no such moment yet.
pub(crate) fn scene_at(
    alloc: Global,
    origin: &[(u64, Bytes)],
    entries: &[Noted],
    moment: u64,
    fill: u8,
) -> Result<Option<Scene>, NoMemory>
    ensures { IfOk result (AreTracesAt fill moment origin.now entries.now) }
{
    let mut scene = Scene::start(alloc, origin)?;
    let mut left = moment;
    for noted in entries {
        if left == 0 {
            return Ok(Some(scene));
        }
        if step(alloc, &mut scene, fill, noted)? {
            left -= 1;
        }
    }
    Ok(if left == 0 { Some(scene) } else { None })
}

// A vault after a crash that left these of the files.
fn image(alloc: Global, scene: &Scene, free: Free, there: bool) -> Result<MemVault, NoMemory>
    ensures { IfOk result (IsImageBy free there scene.now) }
{
    MemVault::restarted(alloc, scene.files(alloc, free, there)?)
}

// The images of the files: what a crash leaves free is kept, lost or filled, and each file that was made or removed
// since its last sync is there or not.
pub(crate) fn images_of(alloc: Global, scene: &Scene) -> Result<Vec<MemVault>, NoMemory>
    ensures { IfOk result (λ images. AreImagesBy scene.now images.items) }
{
    let mut images = Vec::new(alloc);
    images.push(image(alloc, scene, Free::Kept, true)?)?;
    images.push(image(alloc, scene, Free::Kept, false)?)?;
    images.push(image(alloc, scene, Free::Lost, true)?)?;
    images.push(image(alloc, scene, Free::Lost, false)?)?;
    images.push(image(alloc, scene, Free::Filled, true)?)?;
    images.push(image(alloc, scene, Free::Filled, false)?)?;
    Ok(images)
}
