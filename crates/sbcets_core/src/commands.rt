//! What the commands do, the tool's own line apart.
ghost use Rattle.std.specs.Prelude.{◌≡◌, ◌≤◌, ◌++◌, [], None, Some, length, decimal, IfOk, IfErr, OnErr, OnOk, ℕ, List};
ghost use Rattle.std.specs.Prelude.{Option};
ghost use Rattle.sb_outside.specs.Content.{gained, GainsPart};
ghost use Rattle.sb_outside.specs.Faults.{CountsFaults, next_count};
ghost use Rattle.elf_image.specs.Tests.{Fails, image_fault};
ghost use Rattle.sb_outside.specs.Rest.{Rest};
ghost use Rattle.sbcets_core.specs.Commands.{Outside, outside_of, Goes, Runs, Builds, IsRead, IsUnread, IsUnbuilt};
ghost use Rattle.sbcets_core.specs.Commands.{IsBuiltOf, ReadCounts, RunsImage, outcome_of, built_line};
ghost use Rattle.sbcets_core.specs.Counting.{CommandCounts, StopCounts, counts_of};

use crate::compiler::{MAX_SOURCE, compile};
use crate::outcome::{Outcome, ReadFault};
use crate::refusal::SourceRefusal;
use crate::report::put_pieces;
use elf_image::{Image, ReadError};
use image_compiler::Built;
use itoa::Buffer;
use rv_sim::{Machine, Stop};
use sb_base::Budgets;
use sb_outside::{Failed, FileFault, Files, Sink, Source};
use std::alloc::Global;

// The largest image that is read, in bytes.
pub(crate) const MAX_IMAGE: u64 = 67_108_864;

/// What a source that is compiled and run may use.
#[derive(Clone, Copy)]
pub struct Limits {
    /// The budgets that it is compiled with.
    pub budgets: Budgets,
    /// The greatest number of instructions of its image that are run.
    pub instructions: u64,
}

/// `go`: reads a source, compiles it with the budgets, and runs the image, at most so many instructions of it.
#[tactic(auto, using(crate::proofs::Cases::going))]
pub fn go<F: Files, I: Source, O: Sink, E: Sink>(
    alloc: Global,
    name: &str,
    limits: &Limits,
    files: &mut F,
    input: &mut I,
    output: &mut O,
    errors: &mut E,
) -> (Outcome, Vec<u8>)
    ensures goes { Goes name.now limits.now.budgets limits.now.instructions result.0 result.1.items
        (outside_of (F.held files.old) (F.reads files.old) (F.writes files.old) (I.rest input.old)
        (O.taken output.old) (E.taken errors.old))
        (outside_of (F.held files.new) (F.reads files.new) (F.writes files.new) (I.rest input.new)
        (O.taken output.new) (E.taken errors.new)) }
    ensures counts { CommandCounts result.0
        (counts_of (F.read_faults files.old) (F.write_faults files.old) (I.faults input.old)
        (O.faults output.old) (E.faults errors.old))
        (counts_of (F.read_faults files.new) (F.write_faults files.new) (I.faults input.new)
        (O.faults output.new) (E.faults errors.new)) }
{
    let built = match built_of(alloc, name, &limits.budgets, files) {
        Ok(built) => built,
        Err(outcome) => return (outcome, Vec::new(alloc)),
    };
    let limit = limits.instructions;
    match run_image(alloc, &built.image, limit, input, output, errors) {
        Ok(stop) => (outcome_of(stop, limit), built.image),
        Err(ReadError::Memory) => (Outcome::Memory, Vec::new(alloc)),
        Err(ReadError::Fault(_)) => unreachable!(),
    }
}

/// `run`: reads an image and runs it, at most `limit` instructions of it.
#[tactic(auto, using(crate::proofs::Cases::running))]
pub fn run<F: Files, I: Source, O: Sink, E: Sink>(
    alloc: Global,
    name: &str,
    limit: u64,
    files: &mut F,
    input: &mut I,
    output: &mut O,
    errors: &mut E,
) -> Outcome
    ensures runs { Runs name.now limit result []
        (outside_of (F.held files.old) (F.reads files.old) (F.writes files.old) (I.rest input.old)
        (O.taken output.old) (E.taken errors.old))
        (outside_of (F.held files.new) (F.reads files.new) (F.writes files.new) (I.rest input.new)
        (O.taken output.new) (E.taken errors.new)) }
    ensures counts { CommandCounts result
        (counts_of (F.read_faults files.old) (F.write_faults files.old) (I.faults input.old)
        (O.faults output.old) (E.faults errors.old))
        (counts_of (F.read_faults files.new) (F.write_faults files.new) (I.faults input.new)
        (O.faults output.new) (E.faults errors.new)) }
{
    let image = match read_of(alloc, name, MAX_IMAGE, files) {
        Ok(image) => image,
        Err(outcome) => return outcome,
    };
    match run_image(alloc, &image, limit, input, output, errors) {
        Ok(stop) => outcome_of(stop, limit),
        Err(ReadError::Memory) => Outcome::Memory,
        Err(ReadError::Fault(fault)) => Outcome::ImageRefused(fault),
    }
}

/// `build`: reads a source, compiles it with these budgets, writes the image into a file, and prints how many checks it
/// has by its text, and how many of these were dropped.
#[tactic(auto, using(crate::proofs::Cases::unbuilt_builds, crate::proofs::Cases::unbuilt_counts))]
pub fn build<F: Files, O: Sink>(
    alloc: Global,
    name: &str,
    target: &str,
    budgets: Budgets,
    files: &mut F,
    output: &mut O,
) -> Outcome
    ensures builds { (input : Rest) (errors : Option (List ℕ)) → Builds name.now target.now budgets result []
        (outside_of (F.held files.old) (F.reads files.old) (F.writes files.old) input (O.taken output.old) errors)
        (outside_of (F.held files.new) (F.reads files.new) (F.writes files.new) input (O.taken output.new) errors) }
    ensures counts { (input errors : ℕ) → CommandCounts result
        (counts_of (F.read_faults files.old) (F.write_faults files.old) input (O.faults output.old) errors)
        (counts_of (F.read_faults files.new) (F.write_faults files.new) input (O.faults output.new) errors) }
{
    let built = match built_of(alloc, name, &budgets, files) {
        Ok(built) => built,
        Err(outcome) => return outcome,
    };
    if let Err(Failed) = files.write(target, &built.image) {
        return Outcome::WriteFault;
    }
    match put_built_line(output, built.checks, built.dropped) {
        Ok(()) => Outcome::Built,
        Err(_) => Outcome::WriteFault,
    }
}

// All the bytes of a file of at most `max`, or the outcome without them.
pub(crate) fn read_of<F: Files>(
    alloc: Global,
    name: &str,
    max: u64,
    files: &mut F,
) -> Result<Vec<u8>, Outcome>
    ensures read { IfOk result (λ bytes. IsRead (F.held files.old) name.now max bytes.items) }
    ensures unread { IfErr result (λ outcome. IsUnread name.now max outcome (F.held files.old)) }
    ensures files { F.held files.new ≡ F.held files.old }
    ensures ok_counts { OnOk result (F.read_faults files.new ≡ F.read_faults files.old) }
    ensures err_counts { IfErr result
        (λ outcome. ReadCounts outcome (F.read_faults files.old) (F.read_faults files.new)) }
    ensures asked { F.reads files.new ≡ next_count (F.reads files.old) }
    ensures writes { F.write_faults files.new ≡ F.write_faults files.old }
    ensures unwritten { F.writes files.new ≡ F.writes files.old }
{
    match files.read(alloc, name, max) {
        Ok(bytes) => Ok(bytes),
        Err(FileFault::Failed) => Err(Outcome::ReadFault(ReadFault::Failed)),
        Err(FileFault::TooLong(len)) => Err(Outcome::ReadFault(ReadFault::TooLong { len, max })),
        Err(FileFault::Memory) => Err(Outcome::Memory),
    }
}

// What is built from the source of a name, or the outcome without it.
#[tactic(auto, using(crate::proofs::Cases::unread_unbuilt))]
fn built_of<F: Files>(
    alloc: Global,
    name: &str,
    budgets: &Budgets,
    files: &mut F,
) -> Result<Built, Outcome>
    ensures built { IfOk result (λ built. IsBuiltOf name.now budgets.now built (F.held files.old)) }
    ensures unbuilt { IfErr result (λ outcome. IsUnbuilt name.now budgets.now outcome (F.held files.old)) }
    ensures files { F.held files.new ≡ F.held files.old }
    ensures ok_counts { OnOk result (F.read_faults files.new ≡ F.read_faults files.old) }
    ensures err_counts { IfErr result
        (λ outcome. ReadCounts outcome (F.read_faults files.old) (F.read_faults files.new)) }
    ensures asked { F.reads files.new ≡ next_count (F.reads files.old) }
    ensures writes { F.write_faults files.new ≡ F.write_faults files.old }
    ensures unwritten { F.writes files.new ≡ F.writes files.old }
{
    let source = match read_of(alloc, name, MAX_SOURCE, files) {
        Ok(source) => source,
        Err(outcome) => return Err(outcome),
    };
    match compile(alloc, &source, budgets) {
        Ok(built) => Ok(built),
        Err(SourceRefusal::Memory) => Err(Outcome::Memory),
        Err(refusal) => Err(Outcome::Refused(refusal)),
    }
}

/// Runs an image from its start.
#[tactic(auto, using(crate::proofs::Cases::stop_counts))]
pub(crate) fn run_image<I: Source, O: Sink, E: Sink>(
    alloc: Global,
    image: &[u8],
    limit: u64,
    input: &mut I,
    output: &mut O,
    errors: &mut E,
) -> Result<Stop, ReadError>
    ensures ran { IfOk result (λ stop. RunsImage image.now limit stop
        (record { input = I.rest input.old; output = O.taken output.old; errors = E.taken errors.old })
        (record { input = I.rest input.new; output = O.taken output.new; errors = E.taken errors.new })) }
    ensures refused { IfErr result (λ e. Fails e (image_fault image.now)) }
    ensures counts { IfOk result
        (λ stop. StopCounts stop (I.faults input.old) (I.faults input.new) (O.faults output.old) (O.faults output.new)
        (E.faults errors.old) (E.faults errors.new)) }
    ensures unread { OnErr result (input.new ≡ input.old) }
    ensures unwritten { OnErr result (output.new ≡ output.old) }
    ensures silent { OnErr result (errors.new ≡ errors.old) }
{
    let image = match Image::read(alloc, image) {
        Ok(image) => image,
        Err(error) => return Err(error),
    };
    match Machine::load(alloc, &image) {
        Ok(mut machine) => Ok(machine.run(input, output, errors, limit)),
        Err(_) => Err(ReadError::Memory),
    }
}

// The outcome of a run that ended so, at this limit.
fn outcome_of(stop: Stop, limit: u64) -> Outcome
    ensures { result ≡ outcome_of stop limit }
{
    match stop {
        Stop::Exited(code) => Outcome::Exited(code),
        Stop::Trap { kind, pc } => Outcome::Trap { kind, pc },
        Stop::Limit => Outcome::Limit(limit),
        Stop::InputFault => Outcome::InputFault,
        Stop::OutputFault => Outcome::WriteFault,
    }
}

// Prints how many checks an image has, and how many were dropped.
#[tactic(auto, unfolding(crate::specs::Commands::built_line))]
fn put_built_line<S: Sink>(sink: &mut S, checks: u64, dropped: u64) -> Result<(), Failed>
    ensures ok { OnOk result (S.taken sink.new ≡ gained (S.taken sink.old) (built_line checks dropped)) }
    ensures err { OnErr result (GainsPart (S.taken sink.old) (S.taken sink.new) (built_line checks dropped)) }
    ensures cause { CountsFaults (S.faults sink.old) (S.faults sink.new) result }
{
    let mut first = Buffer::new();
    let mut second = Buffer::new();
    let checks = first.format(checks).as_bytes();
    let dropped = second.format(dropped).as_bytes();
    put_pieces(sink, &[checks, b" checks, ", dropped, b" dropped\n"])
}
