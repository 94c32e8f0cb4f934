// The first words of lines.
ghost use Rattle.std.specs.Prelude.{◌≡◌};
ghost use Rattle.rk_model.specs.Named.{named};
ghost use Rattle.rk_script.specs.Grammar.{verbs, iterator_verbs};

use crate::words::is_word;

/// What the first word of a line says.
#[derive(Clone, Copy, Debug, PartialEq, Eq)]
pub(crate) enum Verb {
    Put,
    Del,
    RangeSet,
    RangeUnset,
    RangeDel,
    Commit,
    Snap,
    Release,
    Shape,
    Iter,
    First,
    Last,
    Next,
    Prev,
    SeekGe,
    SeekLt,
    Close,
}

/// What a first word says.
pub(crate) fn verb_of(word: &[u8]) -> Option<Verb>
    ensures { result ≡ named word.now verbs }
{
    if is_word(b"put", word) {
        Some(Verb::Put)
    } else if is_word(b"del", word) {
        Some(Verb::Del)
    } else if is_word(b"rset", word) {
        Some(Verb::RangeSet)
    } else if is_word(b"runset", word) {
        Some(Verb::RangeUnset)
    } else if is_word(b"rdel", word) {
        Some(Verb::RangeDel)
    } else if is_word(b"commit", word) {
        Some(Verb::Commit)
    } else if is_word(b"snap", word) {
        Some(Verb::Snap)
    } else if is_word(b"release", word) {
        Some(Verb::Release)
    } else if is_word(b"shape", word) {
        Some(Verb::Shape)
    } else {
        iterator_verb(word)
    }
}

/// What a first word says that has to do with iterators.
fn iterator_verb(word: &[u8]) -> Option<Verb>
    ensures { result ≡ named word.now iterator_verbs }
{
    if is_word(b"iter", word) {
        Some(Verb::Iter)
    } else if is_word(b"first", word) {
        Some(Verb::First)
    } else if is_word(b"last", word) {
        Some(Verb::Last)
    } else if is_word(b"next", word) {
        Some(Verb::Next)
    } else if is_word(b"prev", word) {
        Some(Verb::Prev)
    } else if is_word(b"seekge", word) {
        Some(Verb::SeekGe)
    } else if is_word(b"seeklt", word) {
        Some(Verb::SeekLt)
    } else if is_word(b"close", word) {
        Some(Verb::Close)
    } else {
        None
    }
}
