// Widest spans with one cover.
ghost use Rattle.std.specs.Prelude.{◌≡◌, ◌&&◌, ◌||◌, not, IfOk, filter};
ghost use Rattle.std.specs.List.{list_all};
ghost use Rattle.std.specs.Option.{option_copied, option_map};
ghost use Rattle.std.specs.Ordering.{is_lt};
ghost use Rattle.rk_key.specs.Keys.{key_cmp};
ghost use Rattle.rk_model.specs.Covers.{cover};
ghost use Rattle.rk_model.specs.Lists.{none_of};
ghost use Rattle.rk_model.specs.Spans.{below, same_bytes, same_cover, span_start, span_end, widest_span};
ghost use Rattle.rk_model.specs.Plain.{covered_ends, start_among, end_among, span_among};

use crate::copies::copy_key;
use crate::plain::cover::Cover;
use crate::plain::covers::cover;
use crate::plain::ends::{EndCover, is_below};
use crate::{Entry, IterOptions, SuffixValue};
use rk_key::UserKey;
use rk_outside::NoMemory;
use std::alloc::Global;
use std::marker::Model;

/// A widest span with one cover, as an iterator keeps it. Contracts see the record of its parts.
#[derive(Debug, Drop)]
pub struct KeptSpan {
    start: UserKey,
    end: UserKey,
    cover: Cover,
}

impl Model for KeptSpan {
    ghost use Rattle.rk_model.specs.Spans.{WidestSpan};

    ghost Value = { WidestSpan };

    ghost view = { λ s. record { start = s.start; end = s.end; cover = s.cover } };
}

impl KeptSpan {
    /// The span between these ends, with these pairs, which are kept as they are. It takes no memory.
    pub fn new(start: UserKey, end: UserKey, pairs: Vec<SuffixValue>) -> KeptSpan
        ensures { result ≡ record { start = start; end = end; cover = pairs.items } }
    {
        KeptSpan {
            start,
            end,
            cover: Cover::from_vec(pairs),
        }
    }

    /// Where it begins.
    pub fn start(&self) -> &UserKey
        ensures { result.now ≡ self.now.start }
    {
        &self.start
    }

    /// Where it ends.
    pub fn end(&self) -> &UserKey
        ensures { result.now ≡ self.now.end }
    {
        &self.end
    }

    /// The pairs that hold over it, ascending by suffix.
    pub fn pairs(&self) -> &[SuffixValue]
        ensures { result.now ≡ self.now.cover }
    {
        self.cover.pairs()
    }

    /// Whether another span has the same ends and the same pairs.
    pub fn is_same(&self, other: &KeptSpan) -> bool
        ensures { result ≡ (same_bytes self.now.start other.now.start && same_bytes self.now.end other.now.end && same_cover self.now.cover other.now.cover) }
    {
        is_same_bytes(self.start.bytes(), other.start.bytes())
            && is_same_bytes(self.end.bytes(), other.end.bytes())
            && is_same_cover(self.cover.pairs(), other.cover.pairs())
    }
}

fn is_same_bytes(a: &[u8], b: &[u8]) -> bool
    ensures { result ≡ same_bytes a.now b.now }
{
    a.cmp(b).is_eq()
}

fn is_same_pair(p: &SuffixValue, q: &SuffixValue) -> bool
    ensures { result ≡ (same_bytes p.now.suffix q.now.suffix && same_bytes p.now.value q.now.value) }
{
    is_same_bytes(p.suffix.bytes(), q.suffix.bytes())
        && is_same_bytes(p.value.bytes(), q.value.bytes())
}

/// Whether two covers have the same bytes.
#[tactic(auto, using(crate::proofs::Spans::uneven))]
pub fn is_same_cover(ps: &[SuffixValue], qs: &[SuffixValue]) -> bool
    ensures { result ≡ same_cover ps.now qs.now }
{
    if ps.len() != qs.len() {
        return false;
    }
    for i in 0..ps.len() {
        if !is_same_pair(&ps[i], &qs[i]) {
            return false;
        }
    }
    true
}

/// Whether the ends from `a` up to `x` have the cover.
fn has_cover_from(ends: &[EndCover], a: &UserKey, x: &UserKey, pairs: &[SuffixValue]) -> bool
    ensures { result ≡ list_all (λ b. is_lt (key_cmp x.now b.key) || is_lt (key_cmp b.key a.now) || same_cover b.cover pairs.now) ends.now }
{
    ends.iter().all(|b| *x < b.key || b.key < *a || is_same_cover(b.cover.pairs(), pairs))
}

/// The least end, not above `x`, from which on the ends up to `x` have the cover.
fn span_start<'a>(ends: &'a [EndCover], x: &UserKey, pairs: &[SuffixValue]) -> Option<&'a EndCover>
    ensures { option_copied result ≡ start_among ends.now x.now pairs.now }
{
    ends.iter().find(|a| {
        *x >= a.key
            && is_same_cover(a.cover.pairs(), pairs)
            && has_cover_from(ends, &a.key, x, pairs)
    })
}

/// The least end above `x` that is the upper bound or has another cover.
fn span_end<'a>(
    ends: &'a [EndCover],
    options: &IterOptions,
    x: &UserKey,
    pairs: &[SuffixValue],
) -> Option<&'a EndCover>
    ensures { option_copied result ≡ end_among options.now ends.now x.now pairs.now }
{
    ends.iter().find(|a| {
        *x < a.key && (!is_below(&options.upper, &a.key) || !is_same_cover(a.cover.pairs(), pairs))
    })
}

/// Whether a list of pairs is empty.
pub(crate) fn has_no_pairs(pairs: &[SuffixValue]) -> bool
    ensures { result ≡ none_of pairs.now }
{
    pairs.is_empty()
}

/// The span of a key with the cover, which is given, found among all ends.
fn span_among(
    ends: &[EndCover],
    options: &IterOptions,
    x: &UserKey,
    cover: Cover,
) -> Result<Option<KeptSpan>, NoMemory>
    ensures { IfOk result (λ s. s ≡ span_among options.now ends.now x.now cover) }
{
    if has_no_pairs(cover.pairs()) {
        return Ok(None);
    }
    let Some(start) = span_start(ends, x, cover.pairs()) else {
        return Ok(None);
    };
    let Some(end) = span_end(ends, options, x, cover.pairs()) else {
        return Ok(None);
    };
    let start = copy_key(&start.key)?;
    let end = copy_key(&end.key)?;
    Ok(Some(KeptSpan { start, end, cover }))
}

/// The widest span of a key, among the ends of the entries within the bounds.
#[tactic(auto, using(crate::proofs::Spans::span_among_covered))]
pub(crate) fn widest_span(
    entries: &[Entry],
    options: &IterOptions,
    ends: &[EndCover],
    x: &UserKey,
    pairs: Cover,
) -> Result<Option<KeptSpan>, NoMemory>
    requires ends_there { ends.now ≡ covered_ends entries.now options.now }
    requires pairs_there { pairs ≡ cover entries.now x.now }
    ensures { IfOk result (λ s. s ≡ widest_span entries.now options.now x.now) }
{
    span_among(ends, options, x, pairs)
}

/// The same with the cover made here.
pub(crate) fn span_at(
    alloc: Global,
    entries: &[Entry],
    options: &IterOptions,
    ends: &[EndCover],
    x: &UserKey,
) -> Result<Option<KeptSpan>, NoMemory>
    requires { ends.now ≡ covered_ends entries.now options.now }
    ensures { IfOk result (λ s. s ≡ widest_span entries.now options.now x.now) }
{
    let pairs = cover(alloc, entries, x)?;
    widest_span(entries, options, ends, x, pairs)
}
