// The span of a merge next to a key.
ghost use Rattle.std.specs.Prelude.{◌≡◌, ◌<◌, not, map, true, false, All, if◌then◌else◌, IfOk, IfSome, OnOk, Some, None};
ghost use Rattle.std.specs.Option.{option_copied};
ghost use Rattle.rk_model.specs.Cuts.{cut_copied};
ghost use Rattle.rk_model.specs.Items.{span_takes};
ghost use Rattle.rk_model.specs.declared.cut.Cut.TheVariants.{Start, End};
ghost use Rattle.rk_merge.specs.Unions.{Among};
ghost use Rattle.rk_merge.specs.Cuts.{near_cut};
ghost use Rattle.rk_merge.specs.Pools.{total};
ghost use Rattle.rk_spanmerge.specs.Merges.{left_end, left_of, pooled, span_ends, united};
ghost use Rattle.rk_spanmerge.specs.Moves.{takes, is_end_nearer, is_past, end_seen, nearer_of, with_end, with_outer, outside, leaves, first_end, IsNearestEnd, IsOutermost, IsSeenEnd, ReachesTo, Shows, AllFace, AllStand, SettlesOn, Pays};

use crate::all::{pass_all, seek_all};
use crate::keys::keys_met;
use rk_fragment::NewestFirst;
use rk_key::UserKey;
use rk_model::{Cut, Source, Span, copy_key};
use rk_outside::{Counting, NoMemory, SourceError};
use std::alloc::Global;

// Which end of a span is the next one above the key, or below it.
fn end_seen<'a>(span: &'a Span, key: &UserKey, forward: bool) -> &'a UserKey
    ensures { result.now ≡ end_seen forward key.now span.now }
{
    if forward {
        if *key < span.start {
            &span.start
        } else {
            &span.end
        }
    } else if span.end < *key {
        &span.end
    } else {
        &span.start
    }
}

fn is_past(end: &UserKey, key: &UserKey, forward: bool) -> bool
    ensures { result ≡ is_past forward key.now end.now }
{
    if forward { *key < *end } else { *end < *key }
}

fn is_end_nearer(end: &UserKey, other: &UserKey, forward: bool) -> bool
    ensures { result ≡ is_end_nearer forward end.now other.now }
{
    if forward {
        *end < *other
    } else {
        *other < *end
    }
}

// The nearer one of what was found and an end.
fn nearer_of<'a>(found: Option<&'a UserKey>, end: &'a UserKey, forward: bool) -> &'a UserKey
    ensures { result.now ≡ nearer_of forward (option_copied found.entry) end.now }
{
    match found {
        Some(other) if !is_end_nearer(end, other, forward) => other,
        _ => end,
    }
}

// The nearer one of what was found and the nearest end of a source.
fn nearer_shown<'a, R: Counting, S: Source<R, Item = Span>>(
    found: Option<&'a UserKey>,
    source: &'a S,
    key: &UserKey,
    forward: bool,
) -> Option<&'a UserKey>
    ensures { option_copied result ≡ with_end forward key.now (option_copied found.entry) (S.standing source.now).here }
{
    let Some(span) = source.here() else {
        return found;
    };
    let end = end_seen(span, key, forward);
    if !is_past(end, key, forward) {
        return found;
    }
    Some(nearer_of(found, end, forward))
}

// The nearest end above the key, or below it, of sources that stand next to it.
fn nearest_end<'a, R: Counting, S: Source<R, Item = Span>>(
    sources: &'a [S],
    key: &UserKey,
    forward: bool,
) -> Option<&'a UserKey>
    requires faces { AllFace S.standing sources.now forward }
    requires stands { AllStand S.listing S.standing sources.now (takes forward key.now) }
    ensures nearest { IfSome (united (map S.listing sources.now)) (λ xs. IsNearestEnd forward key.now (span_ends (pooled (map S.listing sources.now))) (option_copied result)) }
    ensures seen { IfSome (option_copied result) (IsSeenEnd S.standing sources.now forward key.now) }
{
    let mut found: Option<&'a UserKey> = None;
    for i in 0..sources.len() {
        found = nearer_shown::<R, S>(found, &sources[i], key, forward);
    }
    found
}

// A span with these range keys between a key and an end.
fn span_between(
    key: &UserKey,
    end: &UserKey,
    keys: NewestFirst,
    forward: bool,
) -> Result<Span, NoMemory>
    ensures { IfOk result (λ c. (left_end forward c ≡ end.now) × (left_end (not forward) c ≡ key.now) × (c.start ≡ first_end forward key.now end.now) × (c.keys ≡ keys)) }
{
    let (start, end) = if forward { (key, end) } else { (end, key) };
    Ok(Span {
        start: copy_key(start)?,
        end: copy_key(end)?,
        keys: keys.into_keys(),
    })
}

// The span between a key and the nearest end, where there are range keys, of sources that stand next to it.
fn show<R: Counting, S: Source<R, Item = Span>>(
    alloc: Global,
    sources: &[S],
    key: &UserKey,
    forward: bool,
) -> Result<Option<Span>, NoMemory>
    requires faces { AllFace S.standing sources.now forward }
    requires stands { AllStand S.listing S.standing sources.now (takes forward key.now) }
    ensures ok { IfOk result (λ shown. IfSome (united (map S.listing sources.now)) (λ xs. Shows forward (pooled (map S.listing sources.now)) key.now shown)) }
    ensures from { IfOk result (λ shown. IfSome shown (λ c. left_end (not forward) c ≡ key.now)) }
    ensures seen { IfOk result (λ shown. IfSome shown (λ c. IsSeenEnd S.standing sources.now forward key.now (left_end forward c))) }
{
    let Some(end) = nearest_end::<R, S>(sources, key, forward) else {
        return Ok(None);
    };
    let keys = keys_met::<R, S>(alloc, sources, key, forward)?;
    if keys.has_none() {
        return Ok(None);
    }
    Ok(Some(span_between(key, end, keys, forward)?))
}

// The first span from one of all ends on, or the last up to it, of sources that stand next to it: the one up to
// the nearest end, or else the one behind that.
fn settle<R: Counting, S: Source<R, Item = Span>>(
    alloc: Global,
    sources: &[S],
    key: &UserKey,
    forward: bool,
) -> Result<Option<Span>, NoMemory>
    requires faces { AllFace S.standing sources.now forward }
    requires stands { AllStand S.listing S.standing sources.now (takes forward key.now) }
    requires end { IfSome (united (map S.listing sources.now)) (λ xs. Among key.now (span_ends (pooled (map S.listing sources.now)))) }
    ensures found { IfOk result (λ found. IfSome (united (map S.listing sources.now)) (λ xs. found ≡ near_cut forward (takes forward key.now) xs)) }
    ensures stands { IfOk result (λ found. IfSome found (λ c. AllStand S.listing S.standing sources.now (takes forward (left_end (not forward) c)))) }
    ensures reaches { IfOk result (λ found. IfSome found (ReachesTo S.standing sources.now forward key.now)) }
{
    let shown = show::<R, S>(alloc, sources, key, forward)?;
    if shown.is_some() {
        return Ok(shown);
    }
    match nearest_end::<R, S>(sources, key, forward) {
        Some(end) => show::<R, S>(alloc, sources, end, forward),
        None => Ok(None),
    }
}

// A copy of the nearest end above the key, or below it.
fn find_end<R: Counting, S: Source<R, Item = Span>>(
    sources: &mut [S],
    reader: &mut R,
    key: &UserKey,
    forward: bool,
) -> Result<Option<UserKey>, SourceError>
    ensures same { map S.listing sources.new ≡ map S.listing sources.old }
    ensures ok { IfOk result (λ found. IfSome (united (map S.listing sources.old)) (λ xs. IsNearestEnd forward key.now (span_ends (pooled (map S.listing sources.old))) found)) }
    ensures pays { Pays S.listing S.standing sources.old sources.new (R.counts reader.old) (R.counts reader.new) result }
{
    seek_all(sources, reader, Cut::Below(key), forward)?;
    match nearest_end::<R, S>(sources, key, forward) {
        Some(end) => Ok(Some(copy_key(end)?)),
        None => Ok(None),
    }
}

// The first span from one of all ends on, or the last up to it.
pub(crate) fn find_from<R: Counting, S: Source<R, Item = Span>>(
    alloc: Global,
    sources: &mut [S],
    reader: &mut R,
    key: &UserKey,
    forward: bool,
) -> Result<Option<Span>, SourceError>
    requires { IfSome (united (map S.listing sources.old)) (λ xs. Among key.now (span_ends (pooled (map S.listing sources.old)))) }
    ensures same { map S.listing sources.new ≡ map S.listing sources.old }
    ensures found { IfOk result (λ found. IfSome (united (map S.listing sources.old)) (λ xs. found ≡ near_cut forward (takes forward key.now) xs)) }
    ensures arrives { IfOk result (λ found. IfSome found (SettlesOn S.listing S.standing sources.new forward)) }
    ensures pays { Pays S.listing S.standing sources.old sources.new (R.counts reader.old) (R.counts reader.new) result }
{
    seek_all(sources, reader, Cut::Below(key), forward)?;
    Ok(settle::<R, S>(alloc, sources, key, forward)?)
}

// The first span that ends above the key, or the last that begins below it: from the last end before the next
// one on, or from that one where it is the first.
pub(crate) fn find<R: Counting, S: Source<R, Item = Span>>(
    alloc: Global,
    sources: &mut [S],
    reader: &mut R,
    key: &UserKey,
    forward: bool,
) -> Result<Option<Span>, SourceError>
    ensures same { map S.listing sources.new ≡ map S.listing sources.old }
    ensures found { IfOk result (λ found. IfSome (united (map S.listing sources.old)) (λ xs. found ≡ near_cut forward (takes forward key.now) xs)) }
    ensures arrives { IfOk result (λ found. IfSome found (SettlesOn S.listing S.standing sources.new forward)) }
    ensures pays { Pays S.listing S.standing sources.old sources.new (R.counts reader.old) (R.counts reader.new) result }
{
    let Some(end) = find_end(sources, reader, key, forward)? else {
        return Ok(None);
    };
    let from = find_end(sources, reader, &end, !forward)?.unwrap_or(end);
    find_from(alloc, sources, reader, &from, forward)
}

// The end at which a step leaves a span.
pub(crate) fn left_end(span: &Span, forward: bool) -> &UserKey
    ensures { result.now ≡ left_end forward span.now }
{
    if forward { &span.end } else { &span.start }
}

// The span on from one, next to which the sources stand in that direction.
pub(crate) fn leave<R: Counting, S: Source<R, Item = Span>>(
    alloc: Global,
    sources: &mut [S],
    reader: &mut R,
    span: &Span,
    forward: bool,
) -> Result<Option<Span>, SourceError>
    requires among { IfSome (united (map S.listing sources.old)) (λ xs. Among span.now xs) }
    requires arrives { SettlesOn S.listing S.standing sources.old forward span.now }
    ensures same { map S.listing sources.new ≡ map S.listing sources.old }
    ensures found { IfOk result (λ found. IfSome (united (map S.listing sources.old)) (λ xs. found ≡ near_cut forward (takes forward (left_end forward span.now)) xs)) }
    ensures arrives { IfOk result (λ found. IfSome found (SettlesOn S.listing S.standing sources.new forward)) }
    ensures fewer { IfOk result (λ found. total (λ s. left_of forward found (S.standing s)) sources.new < total (λ s. left_of forward (Some span.now) (S.standing s)) sources.old) }
    ensures pays { Pays S.listing S.standing sources.old sources.new (R.counts reader.old) (R.counts reader.new) result }
{
    let key = left_end(span, forward);
    pass_all(sources, reader, key, forward)?;
    Ok(settle::<R, S>(alloc, sources, key, forward)?)
}

// A turn at a span: the one that is seen from the end at which a step in the other direction leaves it.
pub(crate) fn turn<R: Counting, S: Source<R, Item = Span>>(
    alloc: Global,
    sources: &mut [S],
    reader: &mut R,
    span: &Span,
    forward: bool,
) -> Result<Option<Span>, SourceError>
    requires { IfSome (united (map S.listing sources.old)) (λ xs. Among span.now xs) }
    ensures same { map S.listing sources.new ≡ map S.listing sources.old }
    ensures found { IfOk result (λ found. IfSome (united (map S.listing sources.old)) (λ xs. found ≡ near_cut forward (takes forward (left_end forward span.now)) xs)) }
    ensures arrives { IfOk result (λ found. IfSome found (SettlesOn S.listing S.standing sources.new forward)) }
    ensures pays { Pays S.listing S.standing sources.old sources.new (R.counts reader.old) (R.counts reader.new) result }
{
    find_from(alloc, sources, reader, left_end(span, forward), forward)
}

// The nearer one of what was found and the end at which a span that a source sees begins, in a direction.
fn outer_shown<'a, R: Counting, S: Source<R, Item = Span>>(
    found: Option<&'a UserKey>,
    source: &'a S,
    forward: bool,
) -> Option<&'a UserKey>
    ensures { option_copied result ≡ with_outer forward (option_copied found.entry) (S.standing source.now).here }
{
    let Some(span) = source.here() else {
        return found;
    };
    Some(nearer_of(found, left_end(span, !forward), forward))
}

// The first end of all, or the last one, of sources that stand before all their spans.
fn outermost<'a, R: Counting, S: Source<R, Item = Span>>(
    sources: &'a [S],
    forward: bool,
) -> Option<&'a UserKey>
    requires faces { AllFace S.standing sources.now forward }
    requires stands { AllStand S.listing S.standing sources.now (outside forward) }
    ensures { IfSome (united (map S.listing sources.now)) (λ xs. IsOutermost forward (span_ends (pooled (map S.listing sources.now))) (option_copied result)) }
{
    let mut found: Option<&'a UserKey> = None;
    for i in 0..sources.len() {
        found = outer_shown::<R, S>(found, &sources[i], forward);
    }
    found
}

// The end of a list that a direction begins from.
fn outer_cut<'a>(forward: bool) -> Cut<&'a UserKey>
    ensures { cut_copied result ≡ (if forward then Start else End) }
{
    if forward { Cut::Start } else { Cut::End }
}

// The first span of all, or the last one.
pub(crate) fn find_outermost<R: Counting, S: Source<R, Item = Span>>(
    alloc: Global,
    sources: &mut [S],
    reader: &mut R,
    forward: bool,
) -> Result<Option<Span>, SourceError>
    ensures same { map S.listing sources.new ≡ map S.listing sources.old }
    ensures found { IfOk result (λ found. IfSome (united (map S.listing sources.old)) (λ xs. found ≡ near_cut forward (outside forward) xs)) }
    ensures arrives { IfOk result (λ found. IfSome found (SettlesOn S.listing S.standing sources.new forward)) }
    ensures pays { Pays S.listing S.standing sources.old sources.new (R.counts reader.old) (R.counts reader.new) result }
{
    seek_all(sources, reader, outer_cut(forward), forward)?;
    match outermost::<R, S>(sources, forward) {
        Some(key) => Ok(settle::<R, S>(alloc, sources, key, forward)?),
        None => Ok(None),
    }
}

// The span that is seen from the gap of a cut.
pub(crate) fn find_at<R: Counting, S: Source<R, Item = Span>>(
    alloc: Global,
    sources: &mut [S],
    reader: &mut R,
    cut: Cut<&UserKey>,
    forward: bool,
) -> Result<Option<Span>, SourceError>
    ensures same { map S.listing sources.new ≡ map S.listing sources.old }
    ensures found { IfOk result (λ found. IfSome (united (map S.listing sources.old)) (λ xs. found ≡ near_cut forward (span_takes forward (cut_copied cut.entry)) xs)) }
    ensures arrives { IfOk result (λ found. IfSome found (SettlesOn S.listing S.standing sources.new forward)) }
    ensures pays { Pays S.listing S.standing sources.old sources.new (R.counts reader.old) (R.counts reader.new) result }
{
    match cut {
        Cut::Below(key) => find(alloc, sources, reader, key, forward),
        Cut::Past(key) => find(alloc, sources, reader, key, forward),
        Cut::Start => {
            if forward {
                find_outermost(alloc, sources, reader, forward)
            } else {
                Ok(None)
            }
        }
        Cut::End => {
            if forward {
                Ok(None)
            } else {
                find_outermost(alloc, sources, reader, forward)
            }
        }
    }
}

// The span to which a step goes from one, or from an end of the list, where the sources face as they did before.
pub(crate) fn go_on<R: Counting, S: Source<R, Item = Span>>(
    alloc: Global,
    sources: &mut [S],
    reader: &mut R,
    current: Option<&Span>,
    was: bool,
    forward: bool,
) -> Result<Option<Span>, SourceError>
    requires among { IfSome (united (map S.listing sources.old)) (λ xs. IfSome (option_copied current) (λ c. Among c xs)) }
    requires arrives { IfSome (option_copied current) (SettlesOn S.listing S.standing sources.old was) }
    ensures same { map S.listing sources.new ≡ map S.listing sources.old }
    ensures found { IfOk result (λ found. IfSome (united (map S.listing sources.old)) (λ xs. found ≡ near_cut forward (leaves forward (option_copied current.entry)) xs)) }
    ensures arrives { IfOk result (λ found. IfSome found (SettlesOn S.listing S.standing sources.new forward)) }
    ensures fewer { IfOk result (λ found. was ≡ forward → IfSome (option_copied current.entry) (λ c. total (λ s. left_of forward found (S.standing s)) sources.new < total (λ s. left_of forward (Some c) (S.standing s)) sources.old)) }
    ensures pays { Pays S.listing S.standing sources.old sources.new (R.counts reader.old) (R.counts reader.new) result }
{
    match current {
        Some(span) if was == forward => leave(alloc, sources, reader, span, forward),
        Some(span) => turn(alloc, sources, reader, span, forward),
        None => find_outermost(alloc, sources, reader, forward),
    }
}
