// The widest span next to a gap of a source.
ghost use Rattle.std.specs.Prelude.{◌≡◌, ◌≤◌, ◌<◌, ◌+◌, not, if◌then◌else◌, is_some, option_map, IfOk, IfSome, OnOk, Some, true, false};
ghost use Rattle.std.specs.Option.{option_copied};
ghost use Rattle.rk_model.specs.Cuts.{count_before, cut_copied};
ghost use Rattle.rk_model.specs.Items.{span_beside, span_takes};
ghost use Rattle.rk_span_laws.specs.Joined.{as_span};
ghost use Rattle.rk_sources.specs.Bounds.{Keeps};
ghost use Rattle.rk_defrag.specs.Defrags.{lent};
ghost use Rattle.rk_defrag.specs.Moves.{Arrives, Completes, ExtendsTo, Found, FoundAt, Gathered, Goes, IsFacing, IsWithin, Passed, Pays, Widens, at_or_over, at_or_under, clipped, far_end, inner_cut, is_crossed, leaving_cut, lies_far, part, place};

use crate::run::Run;
use rk_key::UserKey;
use rk_model::{Cut, IterOptions, Source, Span};
use rk_outside::{Counting, NoMemory, SourceError};
use rk_sources::Bounded;
use std::alloc::Global;

// Past the spans without a cover, and past the first one with a cover: the run of that one.
fn pass_to_run<R: Counting, S: Source<R, Item = Span>>(
    alloc: Global,
    source: &mut Bounded<S>,
    reader: &mut R,
    n: u64,
    forward: bool,
) -> Result<Option<Run>, SourceError>
    requires faces { IsFacing forward (place S.listing S.standing source.old) }
    ensures kept { Keeps S.listing source.old source.new }
    ensures faces { OnOk result (IsFacing forward (place S.listing S.standing source.new)) }
    ensures found { IfOk result (λ found. Goes (part S.listing source.old).held (place S.listing S.standing source.old).gap (place S.listing S.standing source.new).gap (λ xs from at. Passed forward n xs from at found)) }
    ensures left { IfOk result (λ found. (place S.listing S.standing source.new).left + lent found ≤ (place S.listing S.standing source.old).left) }
    ensures pays { Pays S.listing S.standing source.old source.new (R.counts reader.old) (R.counts reader.new) result }
{
    while let Some(span) = source.here() {
        let run = Run::begin(alloc, span, n)?;
        source.step(reader, forward)?;
        if run.is_some() {
            return Ok(run);
        }
    }
    Ok(None)
}

// On with a run while it goes on in the next span.
fn extend<R: Counting, S: Source<R, Item = Span>>(
    alloc: Global,
    source: &mut Bounded<S>,
    reader: &mut R,
    n: u64,
    run: Run,
    forward: bool,
) -> Result<Run, SourceError>
    requires faces { IsFacing forward (place S.listing S.standing source.old) }
    ensures kept { Keeps S.listing source.old source.new }
    ensures faces { OnOk result (IsFacing forward (place S.listing S.standing source.new)) }
    ensures extends { IfOk result (λ wide. Goes (part S.listing source.old).held (place S.listing S.standing source.old).gap (place S.listing S.standing source.new).gap (λ xs at at'. ExtendsTo forward n xs run wide at at')) }
    ensures left { OnOk result ((place S.listing S.standing source.new).left ≤ (place S.listing S.standing source.old).left) }
    ensures pays { Pays S.listing S.standing source.old source.new (R.counts reader.old) (R.counts reader.new) result }
{
    let mut wide = run;
    while let Some(span) = source.here() {
        if !wide.goes_on(alloc, span, n, forward)? {
            return Ok(wide);
        }
        wide = wide.with_next(span, forward)?;
        source.step(reader, forward)?;
    }
    Ok(wide)
}

// The first run from where the source stands, on to where it ends.
fn gather<R: Counting, S: Source<R, Item = Span>>(
    alloc: Global,
    source: &mut Bounded<S>,
    reader: &mut R,
    n: u64,
    forward: bool,
) -> Result<Option<Run>, SourceError>
    requires faces { IsFacing forward (place S.listing S.standing source.old) }
    ensures kept { Keeps S.listing source.old source.new }
    ensures faces { OnOk result (IsFacing forward (place S.listing S.standing source.new)) }
    ensures found { IfOk result (λ found. Goes (part S.listing source.old).held (place S.listing S.standing source.old).gap (place S.listing S.standing source.new).gap (λ xs from at. Gathered forward n xs from at found)) }
    ensures left { IfOk result (λ found. (place S.listing S.standing source.new).left + lent found ≤ (place S.listing S.standing source.old).left) }
    ensures pays { Pays S.listing S.standing source.old source.new (R.counts reader.old) (R.counts reader.new) result }
{
    match pass_to_run(alloc, source, reader, n, forward)? {
        Some(run) => Ok(Some(extend(alloc, source, reader, n, run, forward)?)),
        None => Ok(None),
    }
}

// To the gap at which a run ends in a direction.
fn stand_behind<R: Counting, S: Source<R, Item = Span>>(
    source: &mut Bounded<S>,
    reader: &mut R,
    run: &Run,
    forward: bool,
) -> Result<(), SourceError>
    ensures kept { Keeps S.listing source.old source.new }
    ensures faces { OnOk result (IsFacing forward (place S.listing S.standing source.new)) }
    ensures stands { OnOk result (IfSome (part S.listing source.old).held (λ xs. (place S.listing S.standing source.new).gap ≡ Some (count_before (span_beside forward (far_end forward run.now)) xs))) }
    ensures pays { Pays S.listing S.standing source.old source.new (R.counts reader.old) (R.counts reader.new) result }
{
    source.seek(reader, Cut::Below(run.far_end(forward)), forward)
}

// A run on at its near end too. The source stands where it stood.
fn widen<R: Counting, S: Source<R, Item = Span>>(
    alloc: Global,
    source: &mut Bounded<S>,
    reader: &mut R,
    n: u64,
    run: Run,
    forward: bool,
) -> Result<Run, SourceError>
    ensures kept { Keeps S.listing source.old source.new }
    ensures faces { OnOk result (IsFacing forward (place S.listing S.standing source.new)) }
    ensures widens { IfOk result (λ wide. IfSome (part S.listing source.old).held (λ xs. IfSome (place S.listing S.standing source.new).gap (Widens forward n xs run wide))) }
    ensures pays { Pays S.listing S.standing source.old source.new (R.counts reader.old) (R.counts reader.new) result }
{
    stand_behind(source, reader, &run, !forward)?;
    let wide = extend(alloc, source, reader, n, run, !forward)?;
    stand_behind(source, reader, &wide, forward)?;
    Ok(wide)
}

// A run that was gathered from a cut on, whole.
fn complete<R: Counting, S: Source<R, Item = Span>>(
    alloc: Global,
    source: &mut Bounded<S>,
    reader: &mut R,
    n: u64,
    cut: Cut<&UserKey>,
    run: Run,
    forward: bool,
) -> Result<Run, SourceError>
    requires { IsFacing forward (place S.listing S.standing source.old) }
    ensures kept { Keeps S.listing source.old source.new }
    ensures faces { OnOk result (IsFacing forward (place S.listing S.standing source.new)) }
    ensures completes { IfOk result (λ whole. Goes (part S.listing source.old).held (place S.listing S.standing source.old).gap (place S.listing S.standing source.new).gap (λ xs at at'. Completes forward n xs (count_before (span_takes forward (cut_copied cut.entry)) xs) run whole at at')) }
    ensures pays { Pays S.listing S.standing source.old source.new (R.counts reader.old) (R.counts reader.new) result }
{
    if run.begins_by(cut, forward) {
        widen(alloc, source, reader, n, run, forward)
    } else {
        Ok(run)
    }
}

// The first whole run beyond a cut.
fn seek_run<R: Counting, S: Source<R, Item = Span>>(
    alloc: Global,
    source: &mut Bounded<S>,
    reader: &mut R,
    n: u64,
    cut: Cut<&UserKey>,
    forward: bool,
) -> Result<Option<Run>, SourceError>
    ensures kept { Keeps S.listing source.old source.new }
    ensures faces { OnOk result (IsFacing forward (place S.listing S.standing source.new)) }
    ensures found { IfOk result (λ found. IfSome (part S.listing source.old).held (λ xs. IfSome (place S.listing S.standing source.new).gap (λ at. Found forward n xs (count_before (span_takes forward (cut_copied cut.entry)) xs) at found))) }
    ensures pays { Pays S.listing S.standing source.old source.new (R.counts reader.old) (R.counts reader.new) result }
{
    source.seek(reader, cut, forward)?;
    match gather(alloc, source, reader, n, forward)? {
        Some(run) => Ok(Some(complete(alloc, source, reader, n, cut, run, forward)?)),
        None => Ok(None),
    }
}

// No key lies between the bounds.
fn is_crossed(options: &IterOptions) -> bool
    ensures { result ≡ is_crossed options.now }
{
    match (&options.lower, &options.upper) {
        (Some(low), Some(high)) => !(*low < *high),
        _ => false,
    }
}

fn at_or_over(high: &UserKey, cut: Cut<&UserKey>) -> bool
    ensures { result ≡ at_or_over high.now (cut_copied cut.entry) }
{
    match cut {
        Cut::Start => false,
        Cut::Below(key) | Cut::Past(key) => !(*key < *high),
        Cut::End => true,
    }
}

fn at_or_under(low: &UserKey, cut: Cut<&UserKey>) -> bool
    ensures { result ≡ at_or_under low.now (cut_copied cut.entry) }
{
    match cut {
        Cut::Start => true,
        Cut::Below(key) | Cut::Past(key) => !(*low < *key),
        Cut::End => false,
    }
}

// A cut lies at the far bound of a direction, or beyond.
fn lies_far(options: &IterOptions, cut: Cut<&UserKey>, forward: bool) -> bool
    ensures { result ≡ lies_far options.now forward (cut_copied cut.entry) }
{
    if is_crossed(options) {
        return true;
    }
    match (&options.lower, &options.upper) {
        (_, Some(high)) if forward => at_or_over(high, cut),
        (Some(low), _) if !forward => at_or_under(low, cut),
        _ => false,
    }
}

// The cut that is sought in the source: the end of the direction, where nothing within the bounds is beyond the cut.
fn inner_cut<'a>(options: &IterOptions, cut: Cut<&'a UserKey>, forward: bool) -> Cut<&'a UserKey>
    ensures { cut_copied result ≡ inner_cut options.now forward (cut_copied cut.entry) }
{
    if !lies_far(options, cut, forward) {
        cut
    } else if forward {
        Cut::End
    } else {
        Cut::Start
    }
}

// The cut at which a step leaves a span, or from which a direction begins.
fn leaving_cut<'a>(current: Option<&'a Span>, forward: bool) -> Cut<&'a UserKey>
    ensures { cut_copied result ≡ leaving_cut forward (option_copied current.entry) }
{
    match current {
        Some(span) if forward => Cut::Below(&span.end),
        Some(span) => Cut::Below(&span.start),
        None if forward => Cut::Start,
        None => Cut::End,
    }
}

// What a run has within the bounds.
fn clip_found(options: &IterOptions, n: u64, found: Option<Run>) -> Result<Option<Span>, NoMemory>
    ensures { IfOk result (λ span. span ≡ option_map (λ w. as_span n (clipped options.now w)) found) }
{
    match found {
        Some(run) => Ok(Some(run.clip(options, n)?)),
        None => Ok(None),
    }
}

// The widest span that is seen from the gap of a cut.
pub(crate) fn find_at<R: Counting, S: Source<R, Item = Span>>(
    alloc: Global,
    source: &mut Bounded<S>,
    reader: &mut R,
    n: u64,
    options: &IterOptions,
    cut: Cut<&UserKey>,
    forward: bool,
) -> Result<Option<Span>, SourceError>
    ensures kept { Keeps S.listing source.old source.new }
    ensures faces { OnOk result (IsFacing forward (place S.listing S.standing source.new)) }
    ensures found { IfOk result (λ found. IfSome (part S.listing source.old).held (λ xs. IfSome (place S.listing S.standing source.new).gap (λ at. FoundAt forward n options.now (cut_copied cut.entry) xs at found))) }
    ensures pays { Pays S.listing S.standing source.old source.new (R.counts reader.old) (R.counts reader.new) result }
{
    let cut = inner_cut(options, cut, forward);
    let run = seek_run(alloc, source, reader, n, cut, forward)?;
    Ok(clip_found(options, n, run)?)
}

// The first run on the other side of the gap of the span that is lent. It begins there, or where a span without a
// cover ends: so it doesn't go on at its near end.
fn turn<R: Counting, S: Source<R, Item = Span>>(
    alloc: Global,
    source: &mut Bounded<S>,
    reader: &mut R,
    n: u64,
    options: &IterOptions,
    current: Option<&Span>,
    forward: bool,
) -> Result<Option<Run>, SourceError>
    requires within { IsWithin options.now source.old }
    requires arrives { IfSome (option_copied current) (Arrives S.listing S.standing n options.now source.old (not forward)) }
    ensures kept { Keeps S.listing source.old source.new }
    ensures faces { OnOk result (IsFacing forward (place S.listing S.standing source.new)) }
    ensures found { IfOk result (λ found. IfSome (part S.listing source.old).held (λ xs. IfSome (place S.listing S.standing source.new).gap (λ at. Found forward n xs (count_before (span_takes forward (inner_cut options.now forward (leaving_cut forward (option_copied current.entry)))) xs) at found))) }
    ensures pays { Pays S.listing S.standing source.old source.new (R.counts reader.old) (R.counts reader.new) result }
{
    let cut = inner_cut(options, leaving_cut(current, forward), forward);
    source.seek(reader, cut, forward)?;
    gather(alloc, source, reader, n, forward)
}

// The run to which a step goes.
fn next_run<R: Counting, S: Source<R, Item = Span>>(
    alloc: Global,
    source: &mut Bounded<S>,
    reader: &mut R,
    n: u64,
    options: &IterOptions,
    current: Option<&Span>,
    was: bool,
    forward: bool,
) -> Result<Option<Run>, SourceError>
    requires within { IsWithin options.now source.old }
    requires arrives { IfSome (option_copied current) (Arrives S.listing S.standing n options.now source.old was) }
    ensures kept { Keeps S.listing source.old source.new }
    ensures faces { OnOk result (IsFacing forward (place S.listing S.standing source.new)) }
    ensures found { IfOk result (λ found. IfSome (part S.listing source.old).held (λ xs. IfSome (place S.listing S.standing source.new).gap (λ at. Found forward n xs (count_before (span_takes forward (inner_cut options.now forward (leaving_cut forward (option_copied current.entry)))) xs) at found))) }
    ensures left { was ≡ forward → is_some (option_copied current.entry) ≡ true → IfOk result (λ found. (place S.listing S.standing source.new).left + lent found ≤ (place S.listing S.standing source.old).left) }
    ensures pays { Pays S.listing S.standing source.old source.new (R.counts reader.old) (R.counts reader.new) result }
{
    match current {
        Some(_) if was == forward => gather(alloc, source, reader, n, forward),
        _ => turn(alloc, source, reader, n, options, current, forward),
    }
}

// The widest span to which a step goes from the one that is lent, or from an end of the list.
pub(crate) fn go_on<R: Counting, S: Source<R, Item = Span>>(
    alloc: Global,
    source: &mut Bounded<S>,
    reader: &mut R,
    n: u64,
    options: &IterOptions,
    current: Option<&Span>,
    was: bool,
    forward: bool,
) -> Result<Option<Span>, SourceError>
    requires within { IsWithin options.now source.old }
    requires arrives { IfSome (option_copied current) (Arrives S.listing S.standing n options.now source.old was) }
    ensures kept { Keeps S.listing source.old source.new }
    ensures faces { OnOk result (IsFacing forward (place S.listing S.standing source.new)) }
    ensures found { IfOk result (λ found. IfSome (part S.listing source.old).held (λ xs. IfSome (place S.listing S.standing source.new).gap (λ at. FoundAt forward n options.now (leaving_cut forward (option_copied current.entry)) xs at found))) }
    ensures left { was ≡ forward → is_some (option_copied current.entry) ≡ true → IfOk result (λ found. (place S.listing S.standing source.new).left + lent found ≤ (place S.listing S.standing source.old).left) }
    ensures pays { Pays S.listing S.standing source.old source.new (R.counts reader.old) (R.counts reader.new) result }
{
    let run = next_run(alloc, source, reader, n, options, current, was, forward)?;
    Ok(clip_found(options, n, run)?)
}
