// The line that opens an iterator.
ghost use Rattle.std.specs.Prelude.{map};
ghost use Rattle.std.specs.Option.{option_copied};
ghost use Rattle.rk_script.specs.Asked.{event_asked};
ghost use Rattle.rk_script.specs.Grammar.{iter, opened, option_of, options_of, if_there, name_of, bytes_of, key_of, mask_of};
ghost use Rattle.rk_script.specs.LineErrors.{ReadsSame, ReadsAs};
ghost use Rattle.rk_script.specs.Seen.{words_of};

use crate::Why;
use crate::asked::Asked;
use crate::error::{LineError, Read};
use crate::escape::Escaped;
use crate::keys::{key_in, mask_in};
use crate::words::{is_word, name_of};
use rk_key::{Suffix, UserKey};
use std::alloc::Global;

/// The words behind the options.
#[derive(Clone, Copy)]
pub(crate) struct Options<'a> {
    at: Option<&'a [u8]>,
    lower: Option<&'a [u8]>,
    upper: Option<&'a [u8]>,
    mask: Option<&'a [u8]>,
}

/// An iterator, and its options.
pub(crate) fn iter<'a>(alloc: Global, words: &[&'a [u8]]) -> Read<Asked<'a>>
    ensures { ReadsAs event_asked result (iter (map (λ w. w.now) words.now)) }
{
    match words {
        [name, words @ ..] => opened(alloc, name, options_of(words)?),
        [] => Err(LineError::Bad(Why::Count)),
    }
}

/// The options, each at most once, in their order.
fn options_of<'a>(words: &[&'a [u8]]) -> Read<Options<'a>>
    ensures { ReadsAs words_of result (options_of (map (λ w. w.now) words.now)) }
{
    let (at, words) = option_of(b"at", words)?;
    let (lower, words) = option_of(b"lower", words)?;
    let (upper, words) = option_of(b"upper", words)?;
    let (mask, words) = option_of(b"mask", words)?;
    if words.is_empty() {
        Ok(Options {
            at,
            lower,
            upper,
            mask,
        })
    } else {
        Err(LineError::Bad(Why::Word))
    }
}

/// The word behind this option, if the words begin with it, and the words that follow.
fn option_of<'a, 'b>(
    option: &[u8],
    words: &'b [&'a [u8]],
) -> Read<(Option<&'a [u8]>, &'b [&'a [u8]])>
    ensures { ReadsAs (λ r. (option_copied r.0, map (λ w. w.now) r.1.now)) result
        (option_of option.now (map (λ w. w.now) words.now)) }
{
    match words {
        [word, value, rest @ ..] if is_word(word, option) => Ok((Some(value), rest)),
        [word] if is_word(word, option) => Err(LineError::Bad(Why::Count)),
        _ => Ok((None, words)),
    }
}

/// An iterator with these options. Names are read first, and then escapes.
fn opened<'a>(alloc: Global, name: &'a [u8], options: Options<'a>) -> Read<Asked<'a>>
    ensures { ReadsAs event_asked result (opened name.now (words_of options.entry)) }
{
    let name = name_of(name)?;
    let at = name_if_there(options.at)?;
    let lower = escaped_if_there(options.lower)?;
    let upper = escaped_if_there(options.upper)?;
    let mask = escaped_if_there(options.mask)?;
    let lower = key_if_there(alloc, lower)?;
    let upper = key_if_there(alloc, upper)?;
    let mask = mask_if_there(alloc, mask)?;
    Ok(Asked::Iter {
        name,
        at,
        lower,
        upper,
        mask,
    })
}

fn name_if_there(word: Option<&[u8]>) -> Read<Option<&[u8]>>
    ensures { ReadsAs option_copied result (if_there name_of (option_copied word.entry)) }
{
    match word {
        Some(word) => Ok(Some(name_of(word)?)),
        None => Ok(None),
    }
}

fn escaped_if_there(word: Option<&[u8]>) -> Read<Option<Escaped<'_>>>
    ensures { ReadsSame result (if_there bytes_of (option_copied word.entry)) }
{
    match word {
        Some(word) => Ok(Some(Escaped::read(word)?)),
        None => Ok(None),
    }
}

fn key_if_there(alloc: Global, word: Option<Escaped<'_>>) -> Read<Option<UserKey>>
    ensures { ReadsSame result (if_there key_of word.entry) }
{
    match word {
        Some(word) => Ok(Some(key_in(alloc, &word)?)),
        None => Ok(None),
    }
}

fn mask_if_there(alloc: Global, word: Option<Escaped<'_>>) -> Read<Option<Suffix>>
    ensures { ReadsSame result (if_there mask_of word.entry) }
{
    match word {
        Some(word) => Ok(Some(mask_in(alloc, &word)?)),
        None => Ok(None),
    }
}
