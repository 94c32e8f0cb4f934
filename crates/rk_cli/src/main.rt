//! The program `rkrange`: it runs a command file over standard input and writes its transcript to standard
//! output. It stands on `rk_program`, whose call `run` does all of it, and on `rk_outside` for the adapters
//! over standard input and standard output.
//!
//! At status 0 nothing goes to standard error. Any other end is told there in one line.
#![tactic(auto)]

ghost use Rattle.std.specs.Prelude.{◌≡◌, ◌↔◌, ◌⊎◌, IfOk, IfErr, IsErr, IsErrOf, drop};
ghost use Rattle.std.specs.Vec.Iter.{into_iter_items};
ghost use Rattle.std.specs.Process.{exit_status};
ghost use Rattle.rk_program.specs.Causes.{status_of};

use rk_outside::{ReadSource, Sink, Source, WriteSink};
use rk_program::{Cause, Ended, run};
use std::alloc::{AllocError, Global};
use std::env::{self, Args};
use std::io;
use std::process::ExitCode;

fn main(rt: HostRuntime) -> ExitCode {
    let alloc = rt.alloc();
    let mut source = ReadSource::new(rt.stdin());
    let mut sink = WriteSink::new(rt.stdout());
    let words = words(env::args(&rt), alloc);
    let ended = run_words(alloc, words, &mut source, &mut sink);
    if ended.cause != Cause::Done {
        // Where the line can't be written, the status still tells of the end.
        let cause = ended.cause;
        let _ = eprintln!(rt; "rkrange: {cause}");
    }
    exit_code(&ended)
}

// Runs the program, or ends for the cause for which the words can't be had.
fn run_words<S: Source, K: Sink>(
    alloc: Global,
    words: Result<Vec<String>, Cause>,
    source: &mut S,
    sink: &mut K,
) -> Ended<()>
    ensures status { result.status ≡ status_of result.cause }
    ensures no_words { IfErr words (λ cause. (result.cause ≡ cause) × (source.new ≡ source.old) × (sink.new ≡ sink.old)) }
{
    match words {
        Ok(words) => run(alloc, &words, source, sink, ()),
        Err(cause) => Ended {
            status: cause.status(),
            cause,
            vault: (),
        },
    }
}

// The words after the program's name. Where they can't be had, as where one is no text, they are none that
// the program takes.
fn words(args: io::Result<Args>, alloc: Global) -> Result<Vec<String>, Cause>
    ensures ok { IfOk result (λ words. IfOk args (λ all. words.items ≡ drop 1 (into_iter_items all))) }
    ensures refused { IsErrOf result Cause.Words ↔ IsErr args }
    ensures memory { IfErr result (λ cause. (cause ≡ Cause.Words) ⊎ (cause ≡ Cause.Memory)) }
{
    let Ok(args) = args else {
        return Err(Cause::Words);
    };
    match behind_name(args, alloc) {
        Ok(words) => Ok(words),
        Err(_) => Err(Cause::Memory),
    }
}

// The arguments without the program's name.
fn behind_name(args: Args, alloc: Global) -> Result<Vec<String>, AllocError>
    ensures { IfOk result (λ words. words.items ≡ drop 1 (into_iter_items args)) }
{
    args.skip(1).collect(alloc)
}

// What the process ends with after a run that ended so.
fn exit_code(ended: &Ended<()>) -> ExitCode
    ensures { exit_status result ≡ ended.now.status }
{
    ExitCode::from(ended.status)
}
