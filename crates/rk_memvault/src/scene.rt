// What is kept of all files to make crash images of them.
ghost use Rattle.std.specs.Prelude.{◌≡◌, ◌≢◌, ℕ, [], IfOk, OnOk, IsSome};
ghost use Rattle.std.specs.Ordering.{nat_cmp};
ghost use Rattle.std.specs.Map.{lookup};
ghost use Rattle.std.specs.BTreeMap.{is_at, IsOrdered};
ghost use Rattle.rk_memvault.specs.Records.{change_of, files_of};
ghost use Rattle.rk_memvault.specs.Images.{TracesChange, trace_at, settled_trace, start_trace, image_files, image_by};

use crate::free::Free;
use crate::record::Edit;
use crate::trace::Trace;
use rk_outside::{Bytes, NoMemory};
use std::alloc::Global;
use std::collections::BTreeMap;
use std::marker::Model;

#[derive(Debug, Drop)]
pub(crate) struct Scene {
    traces: BTreeMap<u64, Trace>,
}

impl Model for Scene {
    ghost use Rattle.std.specs.Prelude.{List, ℕ};
    ghost use Rattle.rk_memvault.specs.Images.{Trace};

    ghost Value = { List (ℕ × Trace) };

    ghost view = { λ s. s.traces.entries };
}

fn files_of_image(
    alloc: Global,
    traces: &BTreeMap<u64, Trace>,
    free: Free,
    there: bool,
) -> Result<Vec<(u64, Bytes)>, NoMemory>
    ensures files { IfOk result (λ fs. fs.items ≡ image_files free there traces.now.entries) }
    ensures ordered { IsOrdered nat_cmp traces.now }
{
    let mut files = Vec::new(alloc);
    for (file, trace) in traces {
        if let Some(bytes) = trace.image(free, there) {
            files.push((*file, Bytes::from_slice(alloc, bytes)?))?;
        }
    }
    Ok(files)
}

impl Scene {
    pub(crate) fn new(alloc: Global) -> Scene
        ensures { result ≡ [] }
    {
        Scene {
            traces: BTreeMap::new(alloc),
        }
    }

    // These files, which a crash leaves as they are.
    pub(crate) fn start(alloc: Global, origin: &[(u64, Bytes)]) -> Result<Scene, NoMemory>
        ensures { IfOk result (λ s. (f : ℕ) → trace_at s f ≡ start_trace (files_of origin.now f)) }
    {
        let mut scene = Scene::new(alloc);
        for i in 0..origin.len() {
            let (file, bytes) = &origin[origin.len() - 1 - i];
            scene.put(alloc, *file, bytes.bytes())?;
        }
        Ok(scene)
    }

    // The files of an image.
    pub(crate) fn files(
        &self,
        alloc: Global,
        free: Free,
        there: bool,
    ) -> Result<Vec<(u64, Bytes)>, NoMemory>
        ensures { IfOk result (λ fs. (f : ℕ) → files_of fs.items f ≡ image_by free there (trace_at self.now f)) }
    {
        files_of_image(alloc, &self.traces, free, there)
    }

    // Puts a settled file there, in place of what there was.
    fn put(&mut self, alloc: Global, file: u64, bytes: &[u8]) -> Result<(), NoMemory>
        ensures this { OnOk result (trace_at self.new file ≡ settled_trace bytes.now) }
        ensures others { OnOk result ((f : ℕ) → f ≢ file → trace_at self.new f ≡ trace_at self.old f) }
    {
        self.traces.insert(file, Trace::settled(alloc, bytes)?)?;
        Ok(())
    }

    // Makes an entry for a file that was never there.
    fn add(&mut self, alloc: Global, file: u64) -> Result<(), NoMemory>
        ensures same { (f : ℕ) → trace_at self.new f ≡ trace_at self.old f }
        ensures there { OnOk result (IsSome (lookup (is_at (nat_cmp file)) self.new)) }
    {
        if !self.traces.contains_key(&file) {
            self.traces.insert(file, Trace::new(alloc))?;
        }
        Ok(())
    }

    fn edit_there(&mut self, fill: u8, file: u64, edit: &Edit, ok: bool) -> Result<(), NoMemory>
        requires { IsSome (lookup (is_at (nat_cmp file)) self.old) }
        ensures { OnOk result (TracesChange fill file (change_of edit.now) ok self.old self.new) }
    {
        match self.traces.get_mut(&file) {
            Some(trace) => trace.edit(fill, edit, ok),
            None => unreachable!(),
        }
    }

    // The files after a change of one, which was done or failed.
    pub(crate) fn edit(
        &mut self,
        alloc: Global,
        fill: u8,
        file: u64,
        edit: &Edit,
        ok: bool,
    ) -> Result<(), NoMemory>
        ensures { OnOk result (TracesChange fill file (change_of edit.now) ok self.old self.new) }
    {
        self.add(alloc, file)?;
        self.edit_there(fill, file, edit, ok)
    }
}
