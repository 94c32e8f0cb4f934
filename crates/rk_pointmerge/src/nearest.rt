// The nearest of the entries that the sources of a merge show.
ghost use Rattle.std.specs.Prelude.{◌≡◌};
ghost use Rattle.std.specs.Option.{option_copied};
ghost use Rattle.rk_merge.specs.Cuts.{is_nearer};
ghost use Rattle.rk_pointmerge.specs.Merges.{comes_before, shown, beats, IsNearest};

use rk_model::{Entry, Source, compare_entries};
use rk_outside::Counting;

// The source that shows the nearest entry: forward the first one, and backward the last.
pub(crate) fn nearest<'a, R: Counting, S: Source<R, Item = Entry>>(
    sources: &'a [S],
    forward: bool,
) -> Option<usize>
    ensures { IsNearest S.standing forward sources.now result }
{
    let mut best = None;
    let mut nearest: Option<&'a Entry> = None;
    for i in 0..sources.len() {
        let entry = shown_at::<R, S>(sources, Some(i));
        if beats(entry, nearest, forward) {
            best = Some(i);
            nearest = entry;
        }
    }
    best
}

// What one of the sources shows.
pub(crate) fn shown_at<R: Counting, S: Source<R, Item = Entry>>(
    sources: &[S],
    at: Option<usize>,
) -> Option<&Entry>
    ensures { option_copied result ≡ shown S.standing sources.now at }
{
    sources.get(at?)?.here()
}

// There is an entry, and it is nearer than the other, or there is no other.
fn beats(entry: Option<&Entry>, other: Option<&Entry>, forward: bool) -> bool
    ensures { result ≡ beats forward (option_copied entry.entry) (option_copied other.entry) }
{
    match (entry, other) {
        (Some(entry), Some(other)) => is_nearer(entry, other, forward),
        (entry, _) => entry.is_some(),
    }
}

// In the order by key, and the newest first within one key, an entry comes before another, or behind it.
fn is_nearer(entry: &Entry, other: &Entry, forward: bool) -> bool
    ensures { result ≡ is_nearer forward comes_before entry.now other.now }
{
    if forward {
        compare_entries(entry, other).is_lt()
    } else {
        compare_entries(other, entry).is_lt()
    }
}
