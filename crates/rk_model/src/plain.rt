//! The slow evaluator: the definitions of what an iterator shows, computed as they stand.
ghost use Rattle.std.specs.Prelude.{◌≡◌, [], is_some, IfOk, OnOk, OnErr, MatchOption};
ghost use Rattle.std.specs.Option.{option_copied};
ghost use Rattle.rk_model.specs.Spans.{widest_span};
ghost use Rattle.rk_model.specs.Positions.{shown};
ghost use Rattle.rk_model.specs.Moves.{First, Last, Next, Prev, SeekGe, SeekLt, key_at, span_of, span_changed, same_span, opened_over, after_move, reported_value, reported_span, reported_cover};
ghost use Rattle.rk_model.specs.Plain.{covered_ends, at_cursor, value_of};

mod cover;
mod covers;
mod ends;
mod keys;
mod masks;
mod moves;
mod positions;
mod spans;

use crate::copies::copy_entries;
use crate::{Cursor, Entry, IterOptions, SuffixValue};
pub use cover::first_greater;
use covers::cover;
use ends::{EndCover, covered_ends};
use positions::{positions, shown};
use rk_key::UserKey;
use rk_outside::{Bytes, NoMemory};
use spans::widest_span;
pub use spans::{KeptSpan, is_same_cover};
use std::alloc::Global;
use std::marker::Model;

/// The slow evaluator over a list of entries, which may be any, with any options. It keeps copies of both,
/// and lists its positions once, when it is made. Contracts see an iterator: the entries, the options, the
/// cursor, and whether the last move changed the span.
#[derive(Debug, Drop)]
pub struct Plain {
    alloc: Global,
    entries: Vec<Entry>,
    options: IterOptions,
    ends: Vec<EndCover>,
    positions: Vec<UserKey>,
    cursor: Cursor,
    value: Option<Bytes>,
    span: Option<KeptSpan>,
    changed: bool,
}

impl Model for Plain {
    ghost use Rattle.rk_model.specs.Moves.{View};
    ghost use Rattle.rk_model.specs.Plain.{IsPlain};

    ghost Value = { View };

    ghost view = { λ p. record { sees = p.entries.items; options = p.options; cursor = p.cursor; changed = p.changed } };

    ghost invariant = { λ p. IsPlain p.entries.items p.options p.ends.items p.positions.items p.cursor p.value p.span };
}

/// What a cursor reports.
#[derive(Debug, Drop)]
struct Reported {
    value: Option<Bytes>,
    span: Option<KeptSpan>,
}

fn report_at(
    alloc: Global,
    entries: &[Entry],
    options: &IterOptions,
    ends: &[EndCover],
    cursor: &Cursor,
) -> Result<Reported, NoMemory>
    requires { ends.now ≡ covered_ends entries.now options.now }
    ensures value { IfOk result (λ r. r.value ≡ value_of entries.now options.now cursor.now) }
    ensures span { IfOk result (λ r. r.span ≡ span_of entries.now options.now cursor.now) }
{
    match cursor {
        Cursor::At(x) => report(alloc, entries, options, ends, x),
        _ => Ok(Reported {
            value: None,
            span: None,
        }),
    }
}

fn report(
    alloc: Global,
    entries: &[Entry],
    options: &IterOptions,
    ends: &[EndCover],
    x: &UserKey,
) -> Result<Reported, NoMemory>
    requires { ends.now ≡ covered_ends entries.now options.now }
    ensures value { IfOk result (λ r. r.value ≡ shown entries.now options.now x.now) }
    ensures span { IfOk result (λ r. r.span ≡ widest_span entries.now options.now x.now) }
{
    let pairs = cover(alloc, entries, x)?;
    let value = shown(alloc, entries, options, x, pairs.pairs())?;
    let span = widest_span(entries, options, ends, x, pairs)?;
    Ok(Reported { value, span })
}

impl Plain {
    /// An evaluator that has not moved, over copies of the entries and the options.
    ///
    /// # Errors
    ///
    /// `NoMemory` where a copy or a list finds no memory.
    pub fn new(alloc: Global, entries: &[Entry], options: &IterOptions) -> Result<Plain, NoMemory>
        ensures { IfOk result (λ p. p ≡ opened_over entries.now options.now) }
    {
        let ends = covered_ends(alloc, entries, options)?;
        let positions = positions(alloc, entries, options, &ends)?;
        Ok(Plain {
            alloc,
            entries: copy_entries(alloc, entries)?,
            options: options.copy()?,
            ends,
            positions,
            cursor: Cursor::Fresh,
            value: None,
            span: None,
            changed: false,
        })
    }

    /// Moves to a cursor, and says whether it is at a key.
    fn go_to(&mut self, cursor: Cursor) -> Result<bool, NoMemory>
        ensures moved { OnOk result (self.new ≡ at_cursor self.old cursor) }
        ensures answer { IfOk result (λ there. there ≡ is_some (key_at cursor)) }
        ensures unmoved { OnErr result (self.new ≡ self.old) }
    {
        let reported = report_at(
            self.alloc,
            &self.entries,
            &self.options,
            &self.ends,
            &cursor,
        )?;
        let there = is_at_key(&cursor);
        self.changed = !is_same_span(&self.span, &reported.span);
        let Reported { value, span } = reported;
        self.value = value;
        self.span = span;
        self.cursor = cursor;
        Ok(there)
    }

    /// Moves to the first position, or to the end. The answer is whether there is one.
    ///
    /// # Errors
    ///
    /// `NoMemory` where the cursor or its report finds no memory. It stays as it was.
    pub fn first(&mut self) -> Result<bool, NoMemory>
        ensures moved { OnOk result (self.new ≡ after_move self.old First) }
        ensures answer { IfOk result (λ there. there ≡ is_some (key_at self.new.cursor)) }
        ensures unmoved { OnErr result (self.new ≡ self.old) }
    {
        let cursor = moves::least(&self.positions)?;
        self.go_to(cursor)
    }

    /// Moves to the next position, or to the end. From no position yet, and from the start, it is the first. The answer
    /// is whether there is one.
    ///
    /// # Errors
    ///
    /// `NoMemory` where the cursor or its report finds no memory. It stays as it was.
    pub fn next(&mut self) -> Result<bool, NoMemory>
        ensures moved { OnOk result (self.new ≡ after_move self.old Next) }
        ensures answer { IfOk result (λ there. there ≡ is_some (key_at self.new.cursor)) }
        ensures unmoved { OnErr result (self.new ≡ self.old) }
    {
        let cursor = moves::next(&self.positions, &self.cursor)?;
        self.go_to(cursor)
    }

    /// Moves to the last position, or to the start. The answer is whether there is one.
    ///
    /// # Errors
    ///
    /// `NoMemory` where the cursor or its report finds no memory. It stays as it was.
    pub fn last(&mut self) -> Result<bool, NoMemory>
        ensures moved { OnOk result (self.new ≡ after_move self.old Last) }
        ensures answer { IfOk result (λ there. there ≡ is_some (key_at self.new.cursor)) }
        ensures unmoved { OnErr result (self.new ≡ self.old) }
    {
        let cursor = moves::greatest(&self.positions)?;
        self.go_to(cursor)
    }

    /// Moves to the position before, or to the start. From no position yet, and from the end, it is the last. The
    /// answer is whether there is one.
    ///
    /// # Errors
    ///
    /// `NoMemory` where the cursor or its report finds no memory. It stays as it was.
    pub fn prev(&mut self) -> Result<bool, NoMemory>
        ensures moved { OnOk result (self.new ≡ after_move self.old Prev) }
        ensures answer { IfOk result (λ there. there ≡ is_some (key_at self.new.cursor)) }
        ensures unmoved { OnErr result (self.new ≡ self.old) }
    {
        let cursor = moves::prev(&self.positions, &self.cursor)?;
        self.go_to(cursor)
    }

    /// Moves to the key where a span is over it, and else to the first position not below it, or to the end.
    /// A key below the lower bound is raised to it, and from the upper bound on there is only the end. The answer is
    /// whether it is at a key then.
    ///
    /// # Errors
    ///
    /// `NoMemory` where the cursor or its report finds no memory. It stays as it was.
    pub fn seek_ge(&mut self, key: &UserKey) -> Result<bool, NoMemory>
        ensures moved { OnOk result (self.new ≡ after_move self.old (SeekGe key.now)) }
        ensures answer { IfOk result (λ there. there ≡ is_some (key_at self.new.cursor)) }
        ensures unmoved { OnErr result (self.new ≡ self.old) }
    {
        let cursor = moves::sought(
            self.alloc,
            &self.entries,
            &self.options,
            &self.positions,
            key,
        )?;
        self.go_to(cursor)
    }

    /// Moves to the last position below the key, or to the start.
    ///
    /// # Errors
    ///
    /// `NoMemory` where the cursor or its report finds no memory. It stays as it was.
    pub fn seek_lt(&mut self, key: &UserKey) -> Result<bool, NoMemory>
        ensures moved { OnOk result (self.new ≡ after_move self.old (SeekLt key.now)) }
        ensures answer { IfOk result (λ there. there ≡ is_some (key_at self.new.cursor)) }
        ensures unmoved { OnErr result (self.new ≡ self.old) }
    {
        let cursor = moves::sought_below(&self.positions, &self.options.upper, key)?;
        self.go_to(cursor)
    }

    /// The key of the cursor, where it is at one.
    pub fn key(&self) -> Option<&[u8]>
        ensures { option_copied result ≡ key_at self.now.cursor }
    {
        match &self.cursor {
            Cursor::At(x) => Some(x.bytes()),
            _ => None,
        }
    }

    /// Whether a point is shown there, and whether the key is in a span.
    pub fn has_point_and_range(&self) -> (bool, bool)
        ensures point { result.0 ≡ is_some (reported_value self.now) }
        ensures range { result.1 ≡ is_some (reported_span self.now) }
    {
        (self.value.is_some(), self.span.is_some())
    }

    /// The value of the shown point.
    pub fn value(&self) -> Option<&[u8]>
        ensures { option_copied result ≡ reported_value self.now }
    {
        match &self.value {
            Some(value) => Some(value.bytes()),
            None => None,
        }
    }

    /// The start and the end of the key's span.
    pub fn range_bounds(&self) -> Option<(&[u8], &[u8])>
        ensures { MatchOption result (reported_span self.now ≡ None) (λ ends. MatchOption (reported_span self.now) ⊥ (λ s. (ends.0.now ≡ s.start) × (ends.1.now ≡ s.end))) }
    {
        match &self.span {
            Some(span) => Some((span.start().bytes(), span.end().bytes())),
            None => None,
        }
    }

    /// The pairs of suffix and value that hold over the key's span, ascending by suffix.
    pub fn range_keys(&self) -> &[SuffixValue]
        ensures { result.now ≡ reported_cover self.now }
    {
        match &self.span {
            Some(span) => span.pairs(),
            None => &[],
        }
    }

    /// Whether the last move changed the span or its pairs.
    pub fn range_key_changed(&self) -> bool
        ensures { result ≡ self.now.changed }
    {
        self.changed
    }

    /// Where it stands.
    pub fn cursor(&self) -> &Cursor
        ensures { result.now ≡ self.now.cursor }
    {
        &self.cursor
    }
}

fn is_at_key(cursor: &Cursor) -> bool
    ensures { result ≡ is_some (key_at cursor.now) }
{
    matches!(cursor, Cursor::At(_))
}

fn is_same_span(old: &Option<KeptSpan>, new: &Option<KeptSpan>) -> bool
    ensures { result ≡ same_span old.now new.now }
{
    match (old, new) {
        (None, None) => true,
        (Some(s), Some(t)) => s.is_same(t),
        _ => false,
    }
}
