// The first visible entry on the way forward.
ghost use Rattle.std.specs.Prelude.{◌≡◌, ◌<◌, ◌≤◌, IfOk, IfErr, IfSome, OnOk, IsSome, None, true};
ghost use Rattle.rk_outside.specs.declared.error.SourceError.{SourceError};
ghost use Rattle.rk_model.specs.Standings.{Costs, walked};
ghost use Rattle.rk_pointmerge.specs.Visibles.{LooksPast, MaySkip, IsAtVisible, left_gap, Looks, look_to, viewed_left};

use crate::kept::KeptKey;
use rk_model::{Entry, Op, Source};
use rk_outside::{Counting, SourceError};

// On to the first visible entry, past what is too new, deleted, or of the key that is kept.
pub(crate) fn look_forward<R: Counting, P: Source<R, Item = Entry>>(
    points: &mut P,
    reader: &mut R,
    n: u64,
    key: &mut KeptKey,
) -> Result<(), SourceError>
    requires known { IsSome (P.standing points.old).gap }
    requires faces { (P.standing points.old).forward ≡ true }
    requires skips { MaySkip n key.old (P.listing points.old) (P.standing points.old) }
    ensures looks { Looks true n None (P.listing points.old) (P.listing points.new) (P.standing points.old).gap (P.standing points.new) result }
    ensures left { OnOk result (viewed_left true None (P.standing points.new) ≤ (P.standing points.old).left) }
    ensures costs { Costs (P.listing points.old) (P.standing points.old).owed (P.standing points.new).owed (R.counts reader.old) (R.counts reader.new) (walked (P.listing points.old) true (P.standing points.old).gap) (look_to true n (P.listing points.old) (P.standing points.old).gap) result }
{
    while let Some(entry) = points.here() {
        if !is_passed(entry, n, key)? {
            break;
        }
        points.step(reader, true)?;
    }
    Ok(())
}

// From the visible entry that is seen on to the next.
pub(crate) fn leave_forward<R: Counting, P: Source<R, Item = Entry>>(
    points: &mut P,
    reader: &mut R,
    n: u64,
    key: &mut KeptKey,
) -> Result<(), SourceError>
    requires known { IsSome (P.standing points.old).gap }
    requires faces { (P.standing points.old).forward ≡ true }
    requires shown { IfSome (P.listing points.old).held (λ es. IfSome (P.standing points.old).gap (IsAtVisible n es)) }
    ensures looks { Looks true n None (P.listing points.old) (P.listing points.new) (left_gap true (P.standing points.old).gap) (P.standing points.new) result }
    ensures left { IsSome (P.standing points.old).here → OnOk result ((P.standing points.new).left < (P.standing points.old).left) }
    ensures costs { Costs (P.listing points.old) (P.standing points.old).owed (P.standing points.new).owed (R.counts reader.old) (R.counts reader.new) (walked (P.listing points.old) true (P.standing points.old).gap) (look_to true n (P.listing points.old) (left_gap true (P.standing points.old).gap)) result }
{
    let Some(entry) = points.here() else {
        return Ok(());
    };
    key.keep(entry.op.key())?;
    points.step(reader, true)?;
    look_forward(points, reader, n, key)
}

// Whether an entry is to be passed. The key of a delete is kept.
fn is_passed(entry: &Entry, n: u64, key: &mut KeptKey) -> Result<bool, SourceError>
    ensures ok { IfOk result (λ passed. LooksPast n entry.now key.old key.new passed) }
    ensures memory { IfErr result (λ e. e ≡ SourceError.Memory) }
{
    if entry.seq > n || key.is(entry.op.key()) {
        return Ok(true);
    }
    if let Op::Put { .. } = entry.op {
        return Ok(false);
    }
    key.keep(entry.op.key())?;
    Ok(true)
}
