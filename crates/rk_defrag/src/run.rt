// Runs of spans that touch and have one cover.
ghost use Rattle.std.specs.Prelude.{◌≡◌, IfOk, IfSome, Some, None, map, option_map, if◌then◌else◌};
ghost use Rattle.rk_key.specs.Keys.{IsKey};
ghost use Rattle.rk_model.specs.Cuts.{cut_copied};
ghost use Rattle.rk_span_laws.specs.Joined.{as_set, as_span};
ghost use Rattle.rk_defrag.specs.Moves.{begins_by, clip_end, clip_start, clipped, far_end, goes_on, is_bare, run_of, touches, with_next};

use rk_coalesce::coalesce;
use rk_key::UserKey;
use rk_model::{
    Cut, IterOptions, RangeKey, RangeKeys, RangeKind, Span, SuffixValue, copy_key, is_same_cover,
};
use rk_outside::NoMemory;
use std::alloc::Global;
use std::marker::Model;

// Where a run begins and ends, and the cover of each of its spans.
#[derive(Debug, Drop)]
pub(crate) struct Run {
    start: UserKey,
    end: UserKey,
    cover: Vec<SuffixValue>,
}

impl Model for Run {
    ghost use Rattle.rk_model.specs.Spans.{WidestSpan};

    ghost Value = { WidestSpan };

    ghost view = { λ r. record { start = r.start; end = r.end; cover = r.cover.items } };
}

impl Run {
    // The run of one span, where that has a cover.
    pub(crate) fn begin(alloc: Global, span: &Span, n: u64) -> Result<Option<Run>, NoMemory>
        ensures { IfOk result (λ run. run ≡ (if is_bare n span.now then None else Some (run_of n span.now))) }
    {
        let cover = coalesce(alloc, span, n)?;
        if cover.is_empty() {
            return Ok(None);
        }
        Ok(Some(Run {
            start: copy_key(&span.start)?,
            end: copy_key(&span.end)?,
            cover,
        }))
    }

    // The end at which a walk in a direction leaves it.
    pub(crate) fn far_end(&self, forward: bool) -> &UserKey
        ensures { result.now ≡ far_end forward self.now }
    {
        if forward { &self.end } else { &self.start }
    }

    fn touches(&self, span: &Span, forward: bool) -> bool
        ensures { result ≡ touches forward self.now span.now }
    {
        if forward {
            self.end == span.start
        } else {
            span.end == self.start
        }
    }

    // Whether it goes on in the next span of a direction.
    pub(crate) fn goes_on(
        &self,
        alloc: Global,
        span: &Span,
        n: u64,
        forward: bool,
    ) -> Result<bool, NoMemory>
        ensures { IfOk result (λ goes. goes ≡ goes_on forward n self.now span.now) }
    {
        if !self.touches(span, forward) {
            return Ok(false);
        }
        let cover = coalesce(alloc, span, n)?;
        Ok(is_same_cover(&self.cover, &cover))
    }

    // The run with that span.
    pub(crate) fn with_next(self, span: &Span, forward: bool) -> Result<Run, NoMemory>
        ensures { IfOk result (λ run. run ≡ with_next forward self span.now) }
    {
        if forward {
            Ok(Run {
                start: self.start,
                end: copy_key(&span.end)?,
                cover: self.cover,
            })
        } else {
            Ok(Run {
                start: copy_key(&span.start)?,
                end: self.end,
                cover: self.cover,
            })
        }
    }

    // Whether it begins, in a direction, at a cut or before: only then may it go on at its near end.
    pub(crate) fn begins_by(&self, cut: Cut<&UserKey>, forward: bool) -> bool
        ensures { result ≡ begins_by forward (cut_copied cut.entry) self.now }
    {
        match cut {
            Cut::Start => !forward,
            Cut::Below(key) | Cut::Past(key) => {
                if forward {
                    !(*key < self.start)
                } else {
                    !(self.end < *key)
                }
            }
            Cut::End => forward,
        }
    }

    // The part of it within the bounds, with the pairs of its cover as sets numbered `n`.
    pub(crate) fn clip(self, options: &IterOptions, n: u64) -> Result<Span, NoMemory>
        ensures { IfOk result (λ span. span ≡ as_span n (clipped options.now self)) }
    {
        Ok(Span {
            start: clip_start(&options.lower, self.start)?,
            end: clip_end(&options.upper, self.end)?,
            keys: as_sets(self.cover, n)?,
        })
    }
}

fn clip_start(lower: &Option<UserKey>, start: UserKey) -> Result<UserKey, NoMemory>
    ensures { IfOk result (λ key. key ≡ clip_start lower.now start) }
{
    match lower {
        Some(low) if !(*low < start) => copy_key(low),
        _ => Ok(start),
    }
}

fn clip_end(upper: &Option<UserKey>, end: UserKey) -> Result<UserKey, NoMemory>
    ensures { IfOk result (λ key. key ≡ clip_end upper.now end) }
{
    match upper {
        Some(high) if !(end < *high) => copy_key(high),
        _ => Ok(end),
    }
}

// The pairs as sets numbered `n`.
fn as_sets(pairs: Vec<SuffixValue>, n: u64) -> Result<RangeKeys, NoMemory>
    ensures { IfOk result (λ keys. keys ≡ map (as_set n) pairs.items) }
{
    let mut keys = Vec::new(*pairs.allocator());
    for pair in &pairs {
        keys.push(as_set(pair, n)?)?;
    }
    Ok(RangeKeys::from_vec(keys))
}

fn as_set(pair: &SuffixValue, n: u64) -> Result<RangeKey, NoMemory>
    ensures { IfOk result (λ key. key ≡ as_set n pair.now) }
{
    Ok(RangeKey {
        kind: RangeKind::Set,
        seq: n,
        suffix: pair.suffix.copy(),
        value: pair.value.copy()?,
    })
}
