//! The call that does all that the program does.
ghost use Rattle.std.specs.Prelude.{◌≡◌, ◌≤◌, [], None, Some, Err, IfOk};
ghost use Rattle.command_line.specs.Asked.{asked_of};
ghost use Rattle.sbcets_core.specs.Commanded.{commanded};
ghost use Rattle.sbcets_core.specs.Commands.{outside_of};
ghost use Rattle.sbcets_core.specs.Counting.{CommandCounts, counts_of};
ghost use Rattle.sbcets_core.specs.Top.{Answers, Does, Finishes, IsComplete};

use crate::commands::{Limits, build, go, run};
use crate::listings::{assemble, list};
use crate::outcome::Outcome;
use crate::report::report;
use crate::works::work;
use command_line::{Command, WordsFault, command_of};
use sb_outside::{Files, Sink, Source};
use std::alloc::Global;

/// Does all that the program does. `words` are those after the program's name: `build SRC IMAGE`
/// compiles the file SRC with some budgets and leaves the image in the file IMAGE; `run IMAGE` runs an image; `go SRC`
/// compiles and runs; `list IMAGE` puts the listing of an image to the output, and `asm LISTING IMAGE` writes the image
/// that a listing spells. `work SEED COUNT` compiles a source that the seed draws, runs it by itself, and puts four
/// lines about it. The bytes that are returned are the image that `go` or `work` built and ran, else there
/// are none. Each command but `work` asks for one read of a file, and `build` and `asm` for one write behind it.
///
/// Usage comes exactly for words that are no command or whose budgets are out of range; then ReadFault
/// where the file is not read or too long; then Refused, ListRefused or ImageRefused, exactly where the source, the
/// listing or the image is; then WriteFault where IMAGE is not written. A run ends with Exited, Limit or Trap as the
/// machine does, or with InputFault or WriteFault where a stream fails; `go` and `work` never with Trap, nor `work` with
/// InputFault. A fault of the outside comes only where its count rose, and want of memory may come before anything is
/// written or taken.
#[tactic(auto, using(crate::proofs::Answering::answers, crate::proofs::Complete::complete))]
pub fn sbcets<F: Files, I: Source, O: Sink, E: Sink>(
    alloc: Global,
    words: &[String],
    files: &mut F,
    input: &mut I,
    output: &mut O,
    errors: &mut E,
) -> (Outcome, Vec<u8>)
    // What was done, and then the line of its outcome, or a part of the line; and which counts of faults rose.
    ensures answer { Answers (commanded words.now) result.0 result.1.items
        (record {
          outside = outside_of (F.held files.old) (F.reads files.old) (F.writes files.old) (I.rest input.old)
              (O.taken output.old) (E.taken errors.old);
          counts = counts_of (F.read_faults files.old) (F.write_faults files.old) (I.faults input.old)
              (O.faults output.old) (E.faults errors.old);
        })
        (record {
          outside = outside_of (F.held files.new) (F.reads files.new) (F.writes files.new) (I.rest input.new)
              (O.taken output.new) (E.taken errors.new);
          counts = counts_of (F.read_faults files.new) (F.write_faults files.new) (I.faults input.new)
              (O.faults output.new) (E.faults errors.new);
        }) }

    // An accepted source is built and runs, unless it is of integers alone and too large, or of others and not compiled
    // yet; a readable image runs and is listed, and a listing of one is assembled: where nothing fails and memory is
    // there.
    ensures complete { IsComplete (commanded words.now) result.0 (F.held files.old) }
{
    let (outcome, image) = do_command(alloc, words, files, input, output, errors);
    let answer = finish(errors, outcome);
    (answer, image)
}

/// Leaves the tool's own line of an outcome, where it has one. `WriteFault` comes in its place where the line cannot be
/// written.
pub fn finish<E: Sink>(errors: &mut E, outcome: Outcome) -> Outcome
    ensures { Finishes outcome result (E.taken errors.old) (E.taken errors.new) (E.faults errors.old)
        (E.faults errors.new) }
{
    match report(errors, &outcome) {
        Ok(()) => outcome,
        Err(_) => Outcome::WriteFault,
    }
}

// Does what the words say, and leaves the tool's own line.
#[tactic(auto, using(crate::proofs::ListingCases::memory_does))]
fn do_command<F: Files, I: Source, O: Sink, E: Sink>(
    alloc: Global,
    words: &[String],
    files: &mut F,
    input: &mut I,
    output: &mut O,
    errors: &mut E,
) -> (Outcome, Vec<u8>)
    ensures does { Does (commanded words.now) result.0 result.1.items
        (outside_of (F.held files.old) (F.reads files.old) (F.writes files.old) (I.rest input.old)
        (O.taken output.old) (E.taken errors.old))
        (outside_of (F.held files.new) (F.reads files.new) (F.writes files.new) (I.rest input.new)
        (O.taken output.new) (E.taken errors.new)) }
    ensures counts { CommandCounts result.0
        (counts_of (F.read_faults files.old) (F.write_faults files.old) (I.faults input.old)
        (O.faults output.old) (E.faults errors.old))
        (counts_of (F.read_faults files.new) (F.write_faults files.new) (I.faults input.new)
        (O.faults output.new) (E.faults errors.new)) }
{
    match command(alloc, words) {
        Ok(command) => obey(alloc, command, files, input, output, errors),
        Err(WordsFault::Usage) => (Outcome::Usage, Vec::new(alloc)),
        Err(WordsFault::Memory) => (Outcome::Memory, Vec::new(alloc)),
    }
}

// Does what a command says.
fn obey<F: Files, I: Source, O: Sink, E: Sink>(
    alloc: Global,
    command: Command,
    files: &mut F,
    input: &mut I,
    output: &mut O,
    errors: &mut E,
) -> (Outcome, Vec<u8>)
    ensures does { Does (Some (asked_of command.entry)) result.0 result.1.items
        (outside_of (F.held files.old) (F.reads files.old) (F.writes files.old) (I.rest input.old)
        (O.taken output.old) (E.taken errors.old))
        (outside_of (F.held files.new) (F.reads files.new) (F.writes files.new) (I.rest input.new)
        (O.taken output.new) (E.taken errors.new)) }
    ensures counts { CommandCounts result.0
        (counts_of (F.read_faults files.old) (F.write_faults files.old) (I.faults input.old)
        (O.faults output.old) (E.faults errors.old))
        (counts_of (F.read_faults files.new) (F.write_faults files.new) (I.faults input.new)
        (O.faults output.new) (E.faults errors.new)) }
{
    match command {
        Command::Build {
            source,
            image,
            budgets,
        } => (
            build(alloc, source, image, budgets, files, output),
            Vec::new(alloc),
        ),
        Command::Run { image, limit } => {
            let outcome = run(alloc, image, limit, files, input, output, errors);
            (outcome, Vec::new(alloc))
        }
        Command::Go {
            source,
            budgets,
            limit,
        } => {
            let limits = Limits {
                budgets,
                instructions: limit,
            };
            go(alloc, source, &limits, files, input, output, errors)
        }
        Command::List { image } => (list(alloc, image, files, output), Vec::new(alloc)),
        Command::Assemble { listing, image } => {
            (assemble(alloc, listing, image, files), Vec::new(alloc))
        }
        Command::Work { seed, count } => work(alloc, seed, count, output, errors),
    }
}

// The command that the words ask for.
#[tactic(auto, unfolding(crate::specs::Commanded::commanded))]
fn command<'a>(alloc: Global, words: &'a [String]) -> Result<Command<'a>, WordsFault>
    ensures ok { IfOk result (λ command. commanded words.entry.now ≡ Some (asked_of command)) }
    ensures usage { result ≡ Err WordsFault.Usage → commanded words.entry.now ≡ None }
{
    command_of(alloc, words)
}
