// The written ends of entries, in order.
ghost use Rattle.std.specs.Prelude.{◌≡◌, IfOk, OnOk};
ghost use Rattle.rk_model.specs.Spans.{insert_key};
ghost use Rattle.rk_fragment.specs.Fragments.{written};

use rk_key::UserKey;
use rk_model::{Entry, copy_key};
use rk_outside::NoMemory;
use std::alloc::Global;
use std::collections::BTreeSet;

fn insert_end(ends: &mut BTreeSet<UserKey>, key: &UserKey) -> Result<(), NoMemory>
    ensures { OnOk result (ends.new.keys ≡ insert_key key.now ends.old.keys) }
{
    ends.insert(copy_key(key)?)?;
    Ok(())
}

/// The starts and ends of the operations on spans.
pub(crate) fn written_ends(alloc: Global, entries: &[Entry]) -> Result<BTreeSet<UserKey>, NoMemory>
    ensures { IfOk result (λ ends. ends.keys ≡ written entries.now) }
{
    let mut ends = BTreeSet::new(alloc);
    for i in (0..entries.len()).rev() {
        if let Some((start, end)) = entries[i].op.ends() {
            insert_end(&mut ends, end)?;
            insert_end(&mut ends, start)?;
        }
    }
    Ok(ends)
}
