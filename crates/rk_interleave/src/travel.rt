// From where the sources stand to where the nearest position is seen, and what is lent there.
ghost use Rattle.std.specs.Prelude.{◌≡◌, IsTrue, IfOk, OnOk, OnErr, Some, None, true, false, is_some, if◌then◌else◌};
ghost use Rattle.std.specs.Option.{option_copied};
ghost use Rattle.rk_key.specs.Keys.{IsKey};
ghost use Rattle.rk_model.specs.Cuts.{cut_copied};
ghost use Rattle.rk_model.specs.Moves.{key_at, raised, lowered};
ghost use Rattle.rk_model.specs.Spans.{in_bounds, at_or_above, below};
ghost use Rattle.rk_model.specs.declared.cut.Cut.TheVariants.{Below};
ghost use Rattle.rk_sources.specs.Bounds.{Keeps};
ghost use Rattle.rk_interleave.specs.Interleaving.{some_name};
ghost use Rattle.rk_interleave.specs.Settling.{inner_listing, inner_standing, IsRead, nearest};
ghost use Rattle.rk_interleave.specs.Standing.{Stands, Travels, Reaches, cut_from, given_or, shown_next};

use crate::lent::Lent;
use crate::place::place;
use crate::seen::{has_begun, nearest, span_over, value_at};
use crate::settle::settle;
use rk_key::UserKey;
use rk_model::{Cursor, Cut, Entry, IterOptions, Source, Span};
use rk_outside::{Counting, NoMemory, SourceError};
use rk_sources::Bounded;

// To the nearest position on from a cut. The answer is whether the span that is seen has begun before the cut.
pub(crate) fn travel<R: Counting, P: Source<R, Item = Entry>, S: Source<R, Item = Span>>(
    points: &mut Bounded<P>,
    spans: &mut S,
    reader: &mut R,
    options: &IterOptions,
    cut: Cut<&UserKey>,
    forward: bool,
    passes: bool,
) -> Result<bool, SourceError>
    requires { IsTrue passes → Stands forward (inner_standing P.listing P.standing points.old) (S.standing spans.old) }
    ensures kept { Keeps P.listing points.old points.new }
    ensures same { S.listing spans.new ≡ S.listing spans.old }
    ensures stands { OnOk result (Stands forward (inner_standing P.listing P.standing points.new) (S.standing spans.new)) }
    ensures travels { IfOk result (Travels forward passes (cut_copied cut.entry) options.now (inner_listing P.listing points.old) (S.listing spans.old) (inner_standing P.listing P.standing points.old) (inner_standing P.listing P.standing points.new) (S.standing spans.old) (S.standing spans.new)) }
    ensures reads { IsRead (some_name (P.listing points.old.source) (S.listing spans.old)) (R.counts reader.old) (R.counts reader.new) result }
{
    place(points, spans, reader, cut, forward, passes)?;
    settle(points, spans, reader, options, cut, forward)
}

// The same from beside a key, or from where the direction begins.
pub(crate) fn travel_from<R: Counting, P: Source<R, Item = Entry>, S: Source<R, Item = Span>>(
    points: &mut Bounded<P>,
    spans: &mut S,
    reader: &mut R,
    options: &IterOptions,
    from: Option<&UserKey>,
    forward: bool,
    passes: bool,
) -> Result<bool, SourceError>
    requires { IsTrue passes → Stands forward (inner_standing P.listing P.standing points.old) (S.standing spans.old) }
    ensures kept { Keeps P.listing points.old points.new }
    ensures same { S.listing spans.new ≡ S.listing spans.old }
    ensures stands { OnOk result (Stands forward (inner_standing P.listing P.standing points.new) (S.standing spans.new)) }
    ensures travels { IfOk result (Travels forward passes (cut_from forward (option_copied from.entry)) options.now (inner_listing P.listing points.old) (S.listing spans.old) (inner_standing P.listing P.standing points.old) (inner_standing P.listing P.standing points.new) (S.standing spans.old) (S.standing spans.new)) }
    ensures reads { IsRead (some_name (P.listing points.old.source) (S.listing spans.old)) (R.counts reader.old) (R.counts reader.new) result }
{
    let cut = match from {
        Some(key) if forward => Cut::Past(key),
        Some(key) => Cut::Below(key),
        None if forward => Cut::Start,
        None => Cut::End,
    };
    travel(points, spans, reader, options, cut, forward, passes)
}

// Back from a key, which is lowered to the upper bound.
pub(crate) fn travel_below<R: Counting, P: Source<R, Item = Entry>, S: Source<R, Item = Span>>(
    points: &mut Bounded<P>,
    spans: &mut S,
    reader: &mut R,
    options: &IterOptions,
    key: &UserKey,
) -> Result<bool, SourceError>
    ensures kept { Keeps P.listing points.old points.new }
    ensures same { S.listing spans.new ≡ S.listing spans.old }
    ensures stands { OnOk result (Stands false (inner_standing P.listing P.standing points.new) (S.standing spans.new)) }
    ensures travels { IfOk result (Travels false false (Below (lowered options.now.upper key.now)) options.now (inner_listing P.listing points.old) (S.listing spans.old) (inner_standing P.listing P.standing points.old) (inner_standing P.listing P.standing points.new) (S.standing spans.old) (S.standing spans.new)) }
    ensures reads { IsRead (some_name (P.listing points.old.source) (S.listing spans.old)) (R.counts reader.old) (R.counts reader.new) result }
{
    let cut = Cut::Below(lowered(&options.upper, key));
    travel(points, spans, reader, options, cut, false, false)
}

// On from a key, which is raised to the lower bound. The answer is whether a span is over it: then the sources are at
// the key, and else at the nearest position.
pub(crate) fn travel_to<R: Counting, P: Source<R, Item = Entry>, S: Source<R, Item = Span>>(
    points: &mut Bounded<P>,
    spans: &mut S,
    reader: &mut R,
    options: &IterOptions,
    key: &UserKey,
) -> Result<bool, SourceError>
    ensures kept { Keeps P.listing points.old points.new }
    ensures same { S.listing spans.new ≡ S.listing spans.old }
    ensures stands { OnOk result (Stands true (inner_standing P.listing P.standing points.new) (S.standing spans.new)) }
    ensures reaches { IfOk result (λ inside. Reaches (raised options.now.lower key.now) options.now (inner_listing P.listing points.old) (S.listing spans.old) (inner_standing P.listing P.standing points.old) (inner_standing P.listing P.standing points.new) (S.standing spans.old) (S.standing spans.new) inside) }
    ensures reads { IsRead (some_name (P.listing points.old.source) (S.listing spans.old)) (R.counts reader.old) (R.counts reader.new) result }
{
    let key = raised(&options.lower, key);
    let cut = Cut::Below(key);
    place(points, spans, reader, cut, true, false)?;
    if has_begun(spans.here(), Cut::Past(key), true) {
        return Ok(true);
    }
    settle(points, spans, reader, options, cut, true)?;
    Ok(false)
}

// Lends what is shown at the raised key, where a span is over it, and else at the nearest position.
pub(crate) fn arrive_to<R: Counting, P: Source<R, Item = Entry>, S: Source<R, Item = Span>>(
    lent: &mut Lent,
    points: &Bounded<P>,
    spans: &S,
    options: &IterOptions,
    inside: bool,
    key: &UserKey,
) -> Result<bool, NoMemory>
    ensures shown { OnOk result (lent.new ≡ shown_next options.now true (given_or (if inside then Some (raised options.now.lower key.now) else None) (nearest true false (inner_standing P.listing P.standing points.now).here (S.standing spans.now).here)) (inner_standing P.listing P.standing points.now).here (S.standing spans.now).here lent.old) }
    ensures answer { IfOk result (λ there. there ≡ is_some (key_at lent.new.cursor)) }
    ensures stays { OnErr result (lent.new ≡ lent.old) }
{
    let key = raised(&options.lower, key);
    let at = if inside { Some(key) } else { None };
    arrive::<R, P, S>(lent, points, spans, options, true, false, at)
}

// Lends what is shown at a key, or else at the nearest position that is seen.
pub(crate) fn arrive<R: Counting, P: Source<R, Item = Entry>, S: Source<R, Item = Span>>(
    lent: &mut Lent,
    points: &Bounded<P>,
    spans: &S,
    options: &IterOptions,
    forward: bool,
    begun: bool,
    key: Option<&UserKey>,
) -> Result<bool, NoMemory>
    ensures shown { OnOk result (lent.new ≡ shown_next options.now forward (given_or (option_copied key.entry) (nearest forward begun (inner_standing P.listing P.standing points.now).here (S.standing spans.now).here)) (inner_standing P.listing P.standing points.now).here (S.standing spans.now).here lent.old) }
    ensures answer { IfOk result (λ there. there ≡ is_some (key_at lent.new.cursor)) }
    ensures stays { OnErr result (lent.new ≡ lent.old) }
{
    let entry = <Bounded<P> as Source<R>>::here(points);
    let span = spans.here();
    let found = match key {
        Some(key) => Some(key),
        None => nearest(forward, begun, entry, span),
    };
    let Some(key) = found else {
        lent.leave(if forward { Cursor::End } else { Cursor::Start });
        return Ok(false);
    };
    let over = span_over(span, key);
    let value = value_at(options, entry, over, key);
    lent.show(key, value, over)?;
    Ok(true)
}

// A key below the lower bound is raised to it.
fn raised<'a>(lower: &'a Option<UserKey>, key: &'a UserKey) -> &'a UserKey
    ensures { result.now ≡ raised lower.now key.now }
{
    match lower {
        Some(l) if *key < *l => l,
        _ => key,
    }
}

// A key above the upper bound is lowered to it.
fn lowered<'a>(upper: &'a Option<UserKey>, key: &'a UserKey) -> &'a UserKey
    ensures { result.now ≡ lowered upper.now key.now }
{
    match upper {
        Some(u) if *u < *key => u,
        _ => key,
    }
}

// A key that is raised to the lower bound lies within the bounds. That a key has the form of one is known where its
// bytes are asked for.
pub(crate) fn is_in_bounds(options: &IterOptions, key: &UserKey) -> bool
    ensures inside { result ≡ in_bounds options.now (raised options.now.lower key.now) }
    ensures is_key { IsKey key.now }
{
    let _ = key.bytes();
    let key = raised(&options.lower, key);
    is_at_or_above(&options.lower, key) && is_below(&options.upper, key)
}

fn is_at_or_above(lower: &Option<UserKey>, key: &UserKey) -> bool
    ensures { result ≡ at_or_above lower.now key.now }
{
    match lower {
        Some(l) => *key >= *l,
        None => true,
    }
}

fn is_below(upper: &Option<UserKey>, key: &UserKey) -> bool
    ensures { result ≡ below upper.now key.now }
{
    match upper {
        Some(u) => *key < *u,
        None => true,
    }
}
