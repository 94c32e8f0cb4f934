// What is seen of points at a number.
ghost use Rattle.std.specs.Prelude.{◌≡◌, ◌<◌, ◌≤◌, not, IsSome, IsTrue, IfOk, OnOk, Some, None, length, option_map};
ghost use Rattle.rk_model.specs.Standings.{Costs, can_step, step_gap, step_from, step_to, walked};
ghost use Rattle.rk_pointmerge.specs.Visibles.{viewed, viewed_from, viewed_here, viewed_left, viewing_listing, viewing_standing, IsViewing, MaySkip, Looks, GoesToGap, sees, left_gap, gap_seen, look_to, turn_to};
ghost use Rattle.rk_pointmerge.specs.VisibleLaws.{viewed-ordered, viewed-told, viewed-rise, viewed-once};

use crate::backward::look_backward;
use crate::forward::{leave_forward, look_forward};
use crate::kept::{KeptEntry, KeptKey};
use rk_key::UserKey;
use rk_model::{Cut, Entry, Item, Sorted, Source};
use rk_outside::{Counting, NoMemory, SourceError};
use std::alloc::Global;
use std::marker::Model;

/// Of each key its newest entry that is numbered at most `n`, where that is a put. It is told where the source is.
///
/// Forward it stands at the entry that is seen. Backward the newest version of a key is known only once it is
/// passed: so the entry that is seen is a copy, in buffers that are used again, and it stands before it.
#[derive(Debug, Drop)]
pub struct Visible<P: Sorted<Item = Entry>> {
    merge: P,
    n: u64,
    kept: KeptEntry,
    key: KeptKey,
    facing: Option<bool>,
}

impl<P: Sorted<Item = Entry>> Model for Visible<P> {
    ghost use Rattle.std.specs.Prelude.{IfSome};
    ghost use Rattle.rk_pointmerge.specs.Visibles.{Viewing, IsViewing};

    ghost Value = { Viewing P };

    ghost view = { λ v. record { merge = v.merge; n = v.n; kept = v.kept; facing = v.facing } };

    ghost invariant = { λ v. IfSome v.facing (λ forward. IsViewing forward v.n v.kept (P.listing v.merge) (P.standing v.merge)) };
}

impl<P: Sorted<Item = Entry>> Visible<P> {
    /// What is seen of this source at `n`, lost. It takes no memory.
    ///
    /// # Errors
    ///
    /// None: `NoMemory` is there for a body that takes some.
    pub fn new(alloc: Global, merge: P, n: u64) -> Result<Visible<P>, NoMemory>
        ensures listing { IfOk result (λ v. ⟦<Visible<P> as Sorted>⟧.listing v ≡ viewed n (P.listing merge)) }
        ensures standing { IfOk result (λ v. ⟦<Visible<P> as Sorted>⟧.standing v ≡ viewed_from n None None (P.listing merge) (P.standing merge)) }
    {
        Ok(Visible {
            merge,
            n,
            kept: KeptEntry::new(),
            key: KeptKey::new(alloc),
            facing: None,
        })
    }
}

impl<P: Sorted<Item = Entry>> Sorted for Visible<P> {
    type Item = Entry;

    ghost listing = { viewing_listing P.listing };

    ghost standing = { viewing_standing P.listing P.standing };
}

impl<R: Counting, P: Source<R, Item = Entry>> Source<R> for Visible<P> {
    fn seek(
        &mut self,
        reader: &mut R,
        cut: Cut<&UserKey>,
        forward: bool,
    ) -> Result<(), SourceError> {
        self.facing = None;
        self.merge.seek(reader, cut, forward)?;
        self.key.clear();
        look(
            &mut self.merge,
            reader,
            self.n,
            &mut self.kept,
            &mut self.key,
            forward,
        )?;
        self.facing = Some(forward);
        Ok(())
    }

    fn step(&mut self, reader: &mut R, forward: bool) -> Result<(), SourceError> {
        let Some(facing) = self.facing.take() else {
            return Ok(());
        };
        go(
            &mut self.merge,
            reader,
            self.n,
            &mut self.kept,
            &mut self.key,
            facing,
            forward,
        )?;
        self.facing = Some(forward);
        Ok(())
    }

    fn here(&self) -> Option<&Entry> {
        if self.facing? {
            self.merge.here()
        } else {
            self.kept.get()
        }
    }

    ghost ordered = { λ v. viewed-ordered v.n (P.listing v.merge) (P.ordered v.merge) };

    ghost told = { λ v. viewed-told v.n v.kept v.facing (P.listing v.merge) (P.standing v.merge) };

    ghost rise = { λ v. viewed-rise v.n (P.listing v.merge) (P.rise v.merge) };

    ghost once = { λ v read. viewed-once v.n (P.listing v.merge) read };
}

// On to what is seen in a direction. A key that is kept is passed.
fn look<R: Counting, P: Source<R, Item = Entry>>(
    points: &mut P,
    reader: &mut R,
    n: u64,
    kept: &mut KeptEntry,
    key: &mut KeptKey,
    forward: bool,
) -> Result<(), SourceError>
    requires known { IsSome (P.standing points.old).gap }
    requires faces { (P.standing points.old).forward ≡ forward }
    requires skips { IsTrue forward → MaySkip n key.old (P.listing points.old) (P.standing points.old) }
    ensures looks { Looks forward n kept.new (P.listing points.old) (P.listing points.new) (P.standing points.old).gap (P.standing points.new) result }
    ensures left { OnOk result (viewed_left forward kept.new (P.standing points.new) ≤ (P.standing points.old).left) }
    ensures costs { Costs (P.listing points.old) (P.standing points.old).owed (P.standing points.new).owed (R.counts reader.old) (R.counts reader.new) (walked (P.listing points.old) forward (P.standing points.old).gap) (look_to forward n (P.listing points.old) (P.standing points.old).gap) result }
{
    if forward {
        kept.clear();
        look_forward(points, reader, n, key)
    } else {
        look_backward(points, reader, n, kept)
    }
}

// One step on from what is seen, or to the other side of the gap.
fn go<R: Counting, P: Source<R, Item = Entry>>(
    points: &mut P,
    reader: &mut R,
    n: u64,
    kept: &mut KeptEntry,
    key: &mut KeptKey,
    facing: bool,
    forward: bool,
) -> Result<(), SourceError>
    requires stands { IsViewing facing n kept.old (P.listing points.old) (P.standing points.old) }
    requires can { IsTrue (can_step forward (viewed_from n kept.old (Some facing) (P.listing points.old) (P.standing points.old))) }
    ensures arrives { GoesToGap forward n kept.new (P.listing points.old) (P.listing points.new) (P.standing points.new) (λ es. option_map (step_gap forward (viewed_from n kept.old (Some facing) (P.listing points.old) (P.standing points.old))) (option_map (sees facing n es kept.old) (P.standing points.old).gap)) result }
    ensures fewer { OnOk result (facing ≡ forward → viewed_left forward kept.new (P.standing points.new) < viewed_left facing kept.old (P.standing points.old)) }
    ensures costs { Costs (viewed n (P.listing points.old)) (P.standing points.old).owed (P.standing points.new).owed (R.counts reader.old) (R.counts reader.new) (step_from (viewed n (P.listing points.old)) forward (viewed_from n kept.old (Some facing) (P.listing points.old) (P.standing points.old))) (step_to (viewed n (P.listing points.old)) forward (viewed_from n kept.old (Some facing) (P.listing points.old) (P.standing points.old))) result }
{
    if facing == forward {
        leave(points, reader, n, kept, key, forward)
    } else {
        turn(points, reader, n, kept, key, forward)
    }
}

// From what is seen on in the same direction.
fn leave<R: Counting, P: Source<R, Item = Entry>>(
    points: &mut P,
    reader: &mut R,
    n: u64,
    kept: &mut KeptEntry,
    key: &mut KeptKey,
    forward: bool,
) -> Result<(), SourceError>
    requires stands { IsViewing forward n kept.old (P.listing points.old) (P.standing points.old) }
    requires seen { IsSome (viewed_here forward n kept.old (P.listing points.old) (P.standing points.old)) }
    ensures looks { Looks forward n kept.new (P.listing points.old) (P.listing points.new) (left_gap forward (P.standing points.old).gap) (P.standing points.new) result }
    ensures left { OnOk result (viewed_left forward kept.new (P.standing points.new) < viewed_left forward kept.old (P.standing points.old)) }
    ensures costs { Costs (P.listing points.old) (P.standing points.old).owed (P.standing points.new).owed (R.counts reader.old) (R.counts reader.new) (walked (P.listing points.old) forward (P.standing points.old).gap) (look_to forward n (P.listing points.old) (left_gap forward (P.standing points.old).gap)) result }
{
    if forward {
        kept.clear();
        leave_forward(points, reader, n, key)
    } else {
        look_backward(points, reader, n, kept)
    }
}

// To the other side of the gap.
fn turn<R: Counting, P: Source<R, Item = Entry>>(
    points: &mut P,
    reader: &mut R,
    n: u64,
    kept: &mut KeptEntry,
    key: &mut KeptKey,
    forward: bool,
) -> Result<(), SourceError>
    requires stands { IsViewing (not forward) n kept.old (P.listing points.old) (P.standing points.old) }
    ensures looks { Looks forward n kept.new (P.listing points.old) (P.listing points.new) (option_map (gap_seen (not forward) kept.old) (P.standing points.old).gap) (P.standing points.new) result }
    ensures costs { Costs (P.listing points.old) (P.standing points.old).owed (P.standing points.new).owed (R.counts reader.old) (R.counts reader.new) 0 (turn_to forward n kept.old (P.listing points.old) (P.standing points.old).gap) result }
{
    points.step(reader, forward)?;
    if !forward {
        return look_backward(points, reader, n, kept);
    }
    let was_seen = kept.get().is_some();
    kept.clear();
    if was_seen {
        leave_forward(points, reader, n, key)
    } else {
        key.clear();
        look_forward(points, reader, n, key)
    }
}
