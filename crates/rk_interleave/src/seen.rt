// What is seen of the sources: the nearest position, the span over it, and the value there.
ghost use Rattle.std.specs.Prelude.{◌≡◌, Some};
ghost use Rattle.std.specs.Option.{option_copied, option_map};
ghost use Rattle.rk_model.specs.Cuts.{cut_copied};
ghost use Rattle.rk_model.specs.Covers.{put_value};
ghost use Rattle.rk_model.specs.Operations.{within};
ghost use Rattle.rk_model.specs.Sources.{op_key};
ghost use Rattle.rk_span_laws.specs.Given.{is_hidden_in, is_sooner};
ghost use Rattle.rk_interleave.specs.Settling.{key_before, is_hidden_by, is_stepped_over, has_begun, is_in, seen_over, seen_value, nearer, nearest};

use rk_key::UserKey;
use rk_mask::masks_point;
use rk_model::{Cut, Entry, Item, IterOptions, Op, Span};
use rk_outside::Bytes;

// A key is reached before another.
fn is_sooner(forward: bool, x: &UserKey, y: &UserKey) -> bool
    ensures { result ≡ is_sooner forward x.now y.now }
{
    if forward { *x < *y } else { *y < *x }
}

// The nearer of two keys.
fn nearer<'a>(forward: bool, x: Option<&'a UserKey>, y: Option<&'a UserKey>) -> Option<&'a UserKey>
    ensures { option_copied result ≡ nearer forward (option_copied x.entry) (option_copied y.entry) }
{
    match (x, y) {
        (None, y) => y,
        (Some(x), None) => Some(x),
        (Some(x), Some(y)) => Some(if is_sooner(forward, y, x) { y } else { x }),
    }
}

fn key_of(entry: Option<&Entry>) -> Option<&UserKey>
    ensures { option_copied result ≡ option_map (λ e. op_key e.op) (option_copied entry.entry) }
{
    Some(entry?.op.key())
}

fn start_of(span: Option<&Span>) -> Option<&UserKey>
    ensures { option_copied result ≡ option_map (λ s. s.start) (option_copied span.entry) }
{
    Some(&span?.start)
}

// The nearest position: the key of the point, or where the span begins, if it has not.
pub(crate) fn nearest<'a>(
    forward: bool,
    begun: bool,
    entry: Option<&'a Entry>,
    span: Option<&'a Span>,
) -> Option<&'a UserKey>
    ensures { option_copied result ≡ nearest forward begun (option_copied entry.entry) (option_copied span.entry) }
{
    let start = if begun { None } else { start_of(span) };
    nearer(forward, key_of(entry), start)
}

// A key lies in a span.
fn is_within(span: &Span, key: &UserKey) -> bool
    ensures { result ≡ within span.now.start span.now.end key.now }
{
    *key >= span.start && *key < span.end
}

// The span that is seen, if it is over the key.
pub(crate) fn span_over<'a>(span: Option<&'a Span>, key: &UserKey) -> Option<&'a Span>
    ensures { option_copied result ≡ seen_over (option_copied span.entry) key.now }
{
    let span = span?;
    if is_within(span, key) {
        Some(span)
    } else {
        None
    }
}

// The mask hides a point on a key under the range keys of a span, if there is one.
fn is_hidden(options: &IterOptions, span: Option<&Span>, key: &UserKey) -> bool
    ensures { result ≡ is_hidden_in options.now (option_copied span.entry) key.now }
{
    match (&options.mask, span) {
        (Some(mask), Some(span)) => masks_point(span.keys.as_slice(), mask, key),
        _ => false,
    }
}

// The value of the point that is seen, if it is on the key and isn't hidden under the span over it.
pub(crate) fn value_at<'a>(
    options: &IterOptions,
    entry: Option<&'a Entry>,
    span: Option<&Span>,
    key: &UserKey,
) -> Option<&'a Bytes>
    ensures { option_copied result ≡ seen_value options.now (option_copied entry.entry) (option_copied span.entry) key.now }
{
    let entry = entry?;
    if *entry.op.key() == *key && !is_hidden(options, span, key) {
        value_of(&entry.op)
    } else {
        None
    }
}

fn value_of(op: &Op) -> Option<&Bytes>
    ensures { option_copied result ≡ put_value op.now }
{
    match op {
        Op::Put { value, .. } => Some(value),
        _ => None,
    }
}

// A point is stepped over: the cut passes it, or it lies in the span and is hidden.
pub(crate) fn is_stepped_over(
    entry: &Entry,
    options: &IterOptions,
    span: Option<&Span>,
    cut: Cut<&UserKey>,
    forward: bool,
) -> bool
    ensures { result ≡ is_stepped_over forward (cut_copied cut.entry) options.now (option_copied span.entry) entry.now }
{
    entry.is_before(cut, forward) == forward || is_hidden_by(options, span, entry.op.key())
}

fn is_hidden_by(options: &IterOptions, span: Option<&Span>, key: &UserKey) -> bool
    ensures { result ≡ is_hidden_by options.now (option_copied span.entry) key.now }
{
    match span {
        Some(span) => is_within(span, key) && is_hidden(options, Some(span), key),
        None => false,
    }
}

// A key stands before a cut.
#[tactic(auto, using(rk_model::proofs::Orders::is_ge_is))]
fn is_key_before(cut: Cut<&UserKey>, key: &UserKey) -> bool
    ensures { result ≡ key_before (cut_copied cut.entry) key.now }
{
    match cut {
        Cut::Start => false,
        Cut::Below(k) => *key < *k,
        Cut::Past(k) => *k >= *key,
        Cut::End => true,
    }
}

// On the way forward the span that is seen has begun before the cut.
pub(crate) fn has_begun(span: Option<&Span>, cut: Cut<&UserKey>, forward: bool) -> bool
    ensures { result ≡ has_begun forward (cut_copied cut.entry) (option_copied span.entry) }
{
    match span {
        Some(span) => forward && is_key_before(cut, &span.start),
        None => false,
    }
}

// The point lies in the span.
pub(crate) fn is_in(span: Option<&Span>, entry: Option<&Entry>) -> bool
    ensures { result ≡ is_in (option_copied span.entry) (option_copied entry.entry) }
{
    match (span, entry) {
        (Some(span), Some(entry)) => is_within(span, entry.op.key()),
        _ => false,
    }
}
