// What is kept of a file to make crash images of it.
ghost use Rattle.std.specs.Prelude.{◌≡◌, true, IfOk, OnOk, option_map};
ghost use Rattle.rk_outside.specs.Disks.{overwritten, Write, Cut, Sync, Remove};
ghost use Rattle.rk_memvault.specs.Records.{change_of};
ghost use Rattle.rk_memvault.specs.Images.{no_trace, settled_trace, written_trace, made_trace, trace_after, image_by};

use crate::free::Free;
use crate::record::Edit;
use rk_outside::NoMemory;
use std::alloc::Global;
use std::marker::Model;

// Whether reads give the file; whether it was made or removed since its last sync; and its bytes where each place
// that a crash leaves free is as it was read last, is as if nothing had been written since that sync, or is filled.
#[derive(Debug, Drop)]
pub(crate) struct Trace {
    there: bool,
    loose: bool,
    kept: Vec<u8>,
    lost: Vec<u8>,
    filled: Vec<u8>,
}

impl Model for Trace {
    ghost use Rattle.rk_memvault.specs.Images as images;

    ghost Value = { images.Trace };

    ghost view = { λ t. record { there = t.there; loose = t.loose; kept = t.kept.items; lost = t.lost.items; filled = t.filled.items } };
}

// The bytes with others over them from a place on.
fn overwrite(alloc: Global, old: &[u8], at: u64, bytes: &[u8]) -> Result<Vec<u8>, NoMemory>
    ensures { IfOk result (λ new. new.items ≡ overwritten old.now at bytes.now) }
{
    let (front, rest) = old.split_at((at as usize).min(old.len()));
    let (_, back) = rest.split_at(bytes.len().min(rest.len()));
    let mut new = front.to_vec(alloc)?;
    new.extend_from_slice(bytes)?;
    new.extend_from_slice(back)?;
    Ok(new)
}

impl Trace {
    // A file that was never there.
    pub(crate) fn new(alloc: Global) -> Trace
        ensures { result ≡ no_trace }
    {
        Trace {
            there: false,
            loose: false,
            kept: Vec::new(alloc),
            lost: Vec::new(alloc),
            filled: Vec::new(alloc),
        }
    }

    // A file that a crash leaves as it is.
    pub(crate) fn settled(alloc: Global, bytes: &[u8]) -> Result<Trace, NoMemory>
        ensures { IfOk result (λ t. t ≡ settled_trace bytes.now) }
    {
        Ok(Trace {
            there: true,
            loose: false,
            kept: bytes.to_vec(alloc)?,
            lost: bytes.to_vec(alloc)?,
            filled: bytes.to_vec(alloc)?,
        })
    }

    // The file in an image, where it is there.
    pub(crate) fn image(&self, free: Free, there: bool) -> Option<&[u8]>
        ensures { option_map (λ b. b.now) result ≡ image_by free there self.now }
    {
        let is_there = if self.loose { there } else { self.there };
        if !is_there {
            return None;
        }
        Some(match free {
            Free::Kept => &self.kept,
            Free::Lost => &self.lost,
            Free::Filled => &self.filled,
        })
    }

    // A write over a file that is there.
    fn write_over(&mut self, fill: u8, ok: bool, at: u64, bytes: &[u8]) -> Result<(), NoMemory>
        requires { self.old.there ≡ true }
        ensures { OnOk result (self.new ≡ written_trace fill ok at bytes.now self.old) }
    {
        let alloc = *self.kept.allocator();
        let mut filler = Vec::new(alloc);
        filler.resize(bytes.len(), fill)?;
        if ok {
            self.kept = overwrite(alloc, &self.kept, at, bytes)?;
        }
        self.filled = overwrite(alloc, &self.filled, at, &filler)?;
        Ok(())
    }

    // A write that makes the file.
    fn make(&mut self, fill: u8, ok: bool, at: u64, bytes: &[u8]) -> Result<(), NoMemory>
        ensures { OnOk result (self.new ≡ made_trace fill ok at bytes.now) }
    {
        self.kept.clear();
        self.lost.clear();
        self.filled.clear();
        self.there = true;
        self.loose = true;
        self.write_over(fill, ok, at, bytes)?;
        self.there = ok;
        Ok(())
    }

    fn cut(&mut self, fill: u8, ok: bool, len: u64)
        ensures { self.new ≡ trace_after fill (Cut len) ok self.old }
    {
        if !self.there {
            return;
        }
        if ok {
            self.kept.truncate(len as usize);
        }
        self.lost.truncate(len as usize);
        self.filled.truncate(len as usize);
    }

    fn sync(&mut self, fill: u8) -> Result<(), NoMemory>
        ensures { OnOk result (self.new ≡ trace_after fill Sync true self.old) }
    {
        let alloc = *self.kept.allocator();
        let settled = if self.there {
            Trace::settled(alloc, &self.kept)?
        } else {
            Trace::new(alloc)
        };
        *self = settled;
        Ok(())
    }

    fn remove(&mut self, fill: u8, ok: bool)
        ensures { self.new ≡ trace_after fill Remove ok self.old }
    {
        if self.there {
            self.there = !ok;
            self.loose = true;
        }
    }

    // The file after a change, which was done or failed.
    pub(crate) fn edit(&mut self, fill: u8, edit: &Edit, ok: bool) -> Result<(), NoMemory>
        ensures { OnOk result (self.new ≡ trace_after fill (change_of edit.now) ok self.old) }
    {
        match edit {
            Edit::Write { at, bytes } => {
                if self.there {
                    self.write_over(fill, ok, *at, bytes.bytes())
                } else {
                    self.make(fill, ok, *at, bytes.bytes())
                }
            }
            Edit::Cut { len } => {
                self.cut(fill, ok, *len);
                Ok(())
            }
            Edit::Sync => { if ok { self.sync(fill) } else { Ok(()) } }
            Edit::Remove => {
                self.remove(fill, ok);
                Ok(())
            }
        }
    }
}
