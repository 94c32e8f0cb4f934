// What the words of a line ask for.
ghost use Rattle.std.specs.Prelude.{map};
ghost use Rattle.rk_script.specs.Asked.{event_asked, moved};
ghost use Rattle.rk_script.specs.Grammar.{event_of, line_of, none, one_name, two, commit, of_name, name_and_key};
ghost use Rattle.rk_script.specs.LineErrors.{ReadsAs};
ghost use Rattle.rk_script.specs.declared.line.Event.TheVariants as event;

use crate::Why;
use crate::asked::{Asked, Change, Target};
use crate::batch::{del, put, range_del, range_set, range_unset};
use crate::error::{LineError, Read};
use crate::escape::Escaped;
use crate::iter::iter;
use crate::keys::key_in;
use crate::verb::{Verb, verb_of};
use crate::words::name_of;
use rk_key::UserKey;
use std::alloc::Global;

/// What the words of a line ask for.
pub(crate) fn asked_of<'a>(alloc: Global, words: &[&'a [u8]]) -> Read<Asked<'a>>
    ensures { ReadsAs event_asked result (event_of (map (λ w. w.now) words.now)) }
{
    match words {
        [word, words @ ..] => match verb_of(word) {
            Some(verb) => asked(alloc, verb, words),
            None => Err(LineError::Bad(Why::Word)),
        },
        [] => Err(LineError::Bad(Why::Word)),
    }
}

/// What a line asks for, by its first word and the words behind it.
fn asked<'a>(alloc: Global, verb: Verb, words: &[&'a [u8]]) -> Read<Asked<'a>>
    ensures { ReadsAs event_asked result (line_of verb (map (λ w. w.now) words.now)) }
{
    match verb {
        Verb::Put => put(words),
        Verb::Del => del(words),
        Verb::RangeSet => range_set(words),
        Verb::RangeUnset => range_unset(words),
        Verb::RangeDel => range_del(words),
        Verb::Commit => commit(words),
        Verb::Snap => one_name(words).map(|name| Asked::Snap { name }),
        Verb::Release => one_name(words).map(|name| Asked::Release { name }),
        Verb::Shape => shape(words),
        Verb::Iter => iter(alloc, words),
        Verb::First => moved(words, Target::First),
        Verb::Last => moved(words, Target::Last),
        Verb::Next => moved(words, Target::Next),
        Verb::Prev => moved(words, Target::Prev),
        Verb::SeekGe => seek(alloc, words).map(|(iter, key)| Asked::Move {
            iter,
            to: Target::SeekGe { key },
        }),
        Verb::SeekLt => seek(alloc, words).map(|(iter, key)| Asked::Move {
            iter,
            to: Target::SeekLt { key },
        }),
        Verb::Close => one_name(words).map(|iter| Asked::Close { iter }),
    }
}

/// A line that is its first word alone, and asks for the sizes of the store.
fn shape<'a>(words: &[&'a [u8]]) -> Read<Asked<'a>>
    ensures { ReadsAs event_asked result (none event.Shape (map (λ w. w.now) words.now)) }
{
    match words {
        [] => Ok(Asked::Shape),
        _ => Err(LineError::Bad(Why::Count)),
    }
}

/// The name that the words are.
fn one_name<'a>(words: &[&'a [u8]]) -> Read<&'a [u8]>
    ensures { ReadsAs (λ name. name.now) result (one_name (map (λ w. w.now) words.now)) }
{
    match words {
        [name] => name_of(name),
        _ => Err(LineError::Bad(Why::Count)),
    }
}

/// A move of an iterator that needs no key.
fn moved<'a>(words: &[&'a [u8]], to: Target) -> Read<Asked<'a>>
    ensures { ReadsAs event_asked result (of_name (λ iter. moved iter to) (map (λ w. w.now) words.now)) }
{
    let iter = one_name(words)?;
    Ok(Asked::Move { iter, to })
}

/// An iterator, and a key to seek.
fn seek<'a>(alloc: Global, words: &[&'a [u8]]) -> Read<(&'a [u8], UserKey)>
    ensures { ReadsAs (λ r. (r.0.now, r.1)) result
        (two name_and_key (map (λ w. w.now) words.now)) }
{
    match words {
        [iter, key] => seek_of(alloc, iter, key),
        _ => Err(LineError::Bad(Why::Count)),
    }
}

fn seek_of<'a>(alloc: Global, iter: &'a [u8], key: &[u8]) -> Read<(&'a [u8], UserKey)>
    ensures { ReadsAs (λ r. (r.0.now, r.1)) result (name_and_key iter.now key.now) }
{
    let iter = name_of(iter)?;
    let key = Escaped::read(key)?;
    let key = key_in(alloc, &key)?;
    Ok((iter, key))
}

/// A commit: a writer. A word behind it would have to be a fixed one.
fn commit<'a>(words: &[&'a [u8]]) -> Read<Asked<'a>>
    ensures { ReadsAs event_asked result (commit (map (λ w. w.now) words.now)) }
{
    match words {
        [] => Err(LineError::Bad(Why::Count)),
        [writer] => Ok(Asked::Batch {
            writer: name_of(writer)?,
            change: Change::Commit,
        }),
        _ => Err(LineError::Bad(Why::Word)),
    }
}
