// The last visible entry on the way backward.
ghost use Rattle.std.specs.Prelude.{◌≡◌, ◌≤◌, IfErr, OnOk, IsSome, false};
ghost use Rattle.rk_outside.specs.declared.error.SourceError.{SourceError};
ghost use Rattle.rk_model.specs.Standings.{Costs, walked};
ghost use Rattle.rk_pointmerge.specs.Visibles.{Looks, look_to, viewed_left, kept_from, is_settled};

use crate::kept::KeptEntry;
use rk_model::{Entry, Op, Source};
use rk_outside::{Counting, SourceError};

// On to before the last visible entry, which is kept. Of the versions of a key the newest is known only once it is
// passed.
pub(crate) fn look_backward<R: Counting, P: Source<R, Item = Entry>>(
    points: &mut P,
    reader: &mut R,
    n: u64,
    kept: &mut KeptEntry,
) -> Result<(), SourceError>
    requires known { IsSome (P.standing points.old).gap }
    requires faces { (P.standing points.old).forward ≡ false }
    ensures looks { Looks false n kept.new (P.listing points.old) (P.listing points.new) (P.standing points.old).gap (P.standing points.new) result }
    ensures left { OnOk result (viewed_left false kept.new (P.standing points.new) ≤ (P.standing points.old).left) }
    ensures costs { Costs (P.listing points.old) (P.standing points.old).owed (P.standing points.new).owed (R.counts reader.old) (R.counts reader.new) (walked (P.listing points.old) false (P.standing points.old).gap) (look_to false n (P.listing points.old) (P.standing points.old).gap) result }
{
    kept.clear();
    while let Some(entry) = points.here() {
        if is_settled(kept, entry, n) {
            break;
        }
        keep_from(entry, n, kept)?;
        points.step(reader, false)?;
    }
    Ok(())
}

// What is kept is the newest version of its key, where the entry before it is none of them.
fn is_settled(kept: &KeptEntry, before: &Entry, n: u64) -> bool
    ensures { result ≡ is_settled n kept.now before.now }
{
    match kept.get() {
        Some(kept) => before.seq > n || before.op.key() != kept.op.key(),
        None => false,
    }
}

// Keeps a set that is numbered at most n, and else nothing.
fn keep_from(entry: &Entry, n: u64, kept: &mut KeptEntry) -> Result<(), SourceError>
    ensures ok { OnOk result (kept.new ≡ kept_from n entry.now) }
    ensures memory { IfErr result (λ e. e ≡ SourceError.Memory) }
{
    kept.clear();
    if entry.seq > n {
        return Ok(());
    }
    match entry.op {
        Op::Put { .. } => kept.keep(entry),
        _ => Ok(()),
    }
}
