// The places of entries, newest first.
ghost use Rattle.std.specs.Prelude.{◌≡◌, IfOk, OnOk};
ghost use Rattle.std.specs.BTreeSet.{insert_key};
ghost use Rattle.rk_fragment.specs.Intervals.{rank, rank_cmp, ArePlaces, GiveKeys};

use rk_model::Entry;
use rk_outside::NoMemory;
use std::alloc::Global;
use std::cmp::Reverse;
use std::collections::BTreeSet;

/// The number of an entry, and its place. Greater numbers come first, and those with one number in the order of
/// their entries.
pub(crate) type Rank = (Reverse<u64>, usize);

fn insert_rank(ranks: &mut BTreeSet<Rank>, seq: u64, place: usize) -> Result<(), NoMemory>
    ensures { OnOk result (ranks.new.keys ≡ insert_key rank_cmp ranks.old.keys (rank seq place)) }
{
    ranks.insert((Reverse(seq), place))?;
    Ok(())
}

/// The ranks of the entries.
pub(crate) fn ranks_of(alloc: Global, entries: &[Entry]) -> Result<BTreeSet<Rank>, NoMemory>
    ensures keys { IfOk result (λ ranks. GiveKeys entries.now ranks.keys) }
    ensures places { IfOk result (λ ranks. ArePlaces entries.now ranks.keys) }
{
    let mut ranks = BTreeSet::new(alloc);
    for i in (0..entries.len()).rev() {
        insert_rank(&mut ranks, entries[i].seq, i)?;
    }
    Ok(ranks)
}
