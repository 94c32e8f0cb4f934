// The top call.
ghost use Rattle.std.specs.Prelude.{◌≡◌, ℕ, ◌≤◌, ◌+◌, ◌⊎◌, true, List, Some, Ok, IsOk, IfSome, IfOk, IfErr, OnOk, OnErr, IsTrue, not, length};
ghost use Rattle.std.specs.Io.KnownBytes.{Keeps};
ghost use Rattle.rk_outside.specs.Causes.{Rose};
ghost use Rattle.rk_script.specs.Script.{no_names, script};
ghost use Rattle.rk_script.specs.declared.line.Line.{Line};
ghost use Rattle.rk_program.specs.Causes.{status_of, are_words, is_words, OnDone, OnLine, OnLength, OnSourceFault, OnSinkFault, OnMemory, OnNotBegun, UnlessSourceFault, UnlessSinkFault, IsDoneOrMemory};
ghost use Rattle.rk_program.specs.Input.{GaveAll, GaveTooMany, TookAtMost, IsFault};
ghost use Rattle.rk_program.specs.Output.{IsSinkRefusal};
ghost use Rattle.rk_program.specs.Ends.{GaveBadLine, Wrote, WrotePart, DidAll, DidPart, IsNotRead};
ghost use Rattle.rk_program.specs.Standing.{StandsFor};
ghost use Rattle.rk_program.specs.Transcript.{begin};

use crate::input::{MOST_FILE_BYTES, read_all};
use crate::output::{finish, write_all};
use crate::session::Session;
use crate::{Cause, Ended};
use rk_outside::{Sink, Source};
use rk_script::{Lines, check_script};
use std::alloc::Global;

/// Runs the program over a source, a sink and a vault: it takes the words, reads the source to its end,
/// checks the whole file, does its lines in order, gives each line's replies to the sink before the next
/// line, and finishes the sink. `words` are those after the program's name. The vault comes back.
pub fn run<S: Source, K: Sink, V>(
    alloc: Global,
    words: &[String],
    source: &mut S,
    sink: &mut K,
    vault: V,
) -> Ended<V>
    ensures vault { result.vault ≡ vault }
    ensures status { result.status ≡ status_of result.cause }

    // The words are refused exactly where they are not the one word `run`, and then nothing was read.
    ensures words { is_words result.cause ≡ not (are_words words.now) }
    ensures unread { IsTrue (is_words result.cause) → source.new ≡ source.old }

    // However it ends, at most one byte above the limit was taken.
    ensures taken { TookAtMost (S.left source.old) (S.left source.new) (MOST_FILE_BYTES + 1) }

    // Each other cause tells what came of the input, and a fault comes only where that object's count rose.
    ensures length { OnLength result.cause (λ limit. (limit ≡ MOST_FILE_BYTES) × GaveTooMany (S.left source.old) (S.left source.new)) }
    ensures line { OnLine result.cause (GaveBadLine (S.left source.old) (S.left source.new)) }
    ensures source_fault { OnSourceFault result.cause (IsFault (S.fault_count source.old) (S.fault_count source.new)) }
    ensures sink_fault { OnSinkFault result.cause (IsFault (K.fault_count sink.old) (K.fault_count sink.new)) }
    ensures source_count { S.fault_count source.old ≤ S.fault_count source.new }
    ensures sink_count { K.fault_count sink.old ≤ K.fault_count sink.new }

    // No fault is passed over: a run that meets one ends with it.
    ensures no_source_fault { UnlessSourceFault result.cause (S.fault_count source.new ≡ S.fault_count source.old) }
    ensures no_sink_fault { UnlessSinkFault result.cause (K.fault_count sink.new ≡ K.fault_count sink.old) }

    // Where no line was done, the sink is as before.
    ensures not_begun { OnNotBegun result.cause (sink.new ≡ sink.old) }

    // What was written is the transcript of a run of the machine over all lines, and all of it handed on, or a first
    // part of it.
    ensures done { OnDone result.cause (DidAll (S.left source.old) (S.left source.new) (K.written sink.old) (K.written sink.new)) }
    ensures finished { OnDone result.cause (IfSome (K.finished sink.new) IsTrue) }
    ensures part { OnSinkFault result.cause (λ _. DidPart (S.left source.old) (S.left source.new) (K.written sink.old) (K.written sink.new)) }
    ensures memory { OnMemory result.cause (Keeps (K.written sink.old) (K.written sink.new)
        ⊎ DidPart (S.left source.old) (S.left source.new) (K.written sink.old) (K.written sink.new)) }

    // Where the words and the file are as they must be and nothing failed, only memory can be wanting.
    ensures completes { (file : List ℕ) (lines : List Line) → S.left source.old ≡ Some file → length file ≤ MOST_FILE_BYTES → script file ≡ Ok lines
        → IsTrue (are_words words.now) → ¬ Rose (S.fault_count source.old) (S.fault_count source.new)
        → ¬ Rose (K.fault_count sink.old) (K.fault_count sink.new) → IsDoneOrMemory result.cause }
{
    let file = match read_file(alloc, words, source) {
        Ok(file) => file,
        Err(cause) => return Ended::new(cause, vault),
    };
    match Session::begin(alloc, vault) {
        Ok(mut session) => {
            let cause = Cause::of(do_lines(alloc, &file, &mut session, sink));
            Ended::new(cause, session.end().vault)
        }
        Err(refused) => Ended::new(Cause::Memory, refused.value),
    }
}

// Reads the file that the words ask to run, and checks the whole of it.
fn read_file<S: Source>(alloc: Global, words: &[String], source: &mut S) -> Result<Vec<u8>, Cause>
    ensures words { IfErr result (λ cause. is_words cause ≡ not (are_words words.now)) }
    ensures accepted { OnOk result (are_words words.now ≡ true) }
    ensures unread { IfErr result (λ cause. IsTrue (is_words cause) → source.new ≡ source.old) }
    ensures taken { TookAtMost (S.left source.old) (S.left source.new) (MOST_FILE_BYTES + 1) }
    ensures gave { IfOk result (λ file. (lines : List Line) × GaveAll (S.left source.old) (S.left source.new) file.items × (script file.items ≡ Ok lines)) }
    ensures no_fault { OnOk result (S.fault_count source.new ≡ S.fault_count source.old) }
    ensures cause { IfErr result (IsNotRead (S.left source.old) (S.left source.new) (S.fault_count source.old) (S.fault_count source.new)) }
    ensures later { S.fault_count source.old ≤ S.fault_count source.new }
{
    if !is_run(words) {
        return Err(Cause::Words);
    }
    let file = read_all(alloc, source)?;
    check_script(alloc, &file)?;
    Ok(file)
}

// Whether the words are the one word `run`.
fn is_run(words: &[String]) -> bool
    ensures { result ≡ are_words words.now }
{
    match words {
        [word] => word.as_bytes() == b"run".as_slice(),
        _ => false,
    }
}

// Does the lines of a file one after the other, each line's replies before the next line, and finishes the sink.
fn do_lines<K: Sink, V>(
    alloc: Global,
    file: &[u8],
    session: &mut Session<V>,
    sink: &mut K,
) -> Result<(), Cause>
    requires script { IsOk (script file.now) }
    requires begun { StandsFor session.old begin }
    ensures done { OnOk result ((lines : List Line) → script file.now ≡ Ok lines → Wrote (K.written sink.old) (K.written sink.new) lines) }
    ensures finished { OnOk result (IfSome (K.finished sink.new) IsTrue) }
    ensures no_fault { OnOk result (K.fault_count sink.new ≡ K.fault_count sink.old) }
    ensures part { OnErr result ((lines : List Line) → script file.now ≡ Ok lines → WrotePart (K.written sink.old) (K.written sink.new) lines) }
    ensures cause { IfErr result (IsSinkRefusal (K.fault_count sink.old) (K.fault_count sink.new)) }
    ensures later { K.fault_count sink.old ≤ K.fault_count sink.new }
    ensures vault { session.new.vault ≡ session.old.vault }
{
    let mut lines = Lines::new(alloc, file);
    let mut text = Vec::new(alloc);
    while let Some(line) = lines.next(alloc)? {
        text.clear();
        let failed = session.line(&line, &mut text).is_err();
        drop(line);
        if failed {
            return Err(Cause::Memory);
        }
        write_all(sink, &text)?;
    }
    finish(sink)
}
