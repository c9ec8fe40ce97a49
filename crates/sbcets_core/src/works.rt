//! `work`, the tool's own line apart.
ghost use Rattle.std.specs.Prelude.{◌≡◌, ℕ, [], false, length, IfErr, IfOk, OnErr, OnOk};
ghost use Rattle.sb_base.specs.Budgets.{default_sizes};
ghost use Rattle.sb_outside.specs.Content.{gained, GainsPart};
ghost use Rattle.sb_outside.specs.Faults.{CountsFaults};
ghost use Rattle.sb_outside.specs.Rest.{Rest};
ghost use Rattle.elf_image.specs.Tests.{Fails, image_fault};
ghost use Rattle.command_line.specs.Asked.{default_limit};
ghost use Rattle.command_line.specs.Generator.{work_source};
ghost use Rattle.sbcets_core.specs.Accepted.{IsBuiltFrom};
ghost use Rattle.sbcets_core.specs.Commands.{Held, RunsImage, outside_of};
ghost use Rattle.sbcets_core.specs.Counting.{CommandCounts, counts_of};
ghost use Rattle.sbcets_core.specs.Works.{IsUnworked, Works, alone, fails, work_lines};

use crate::alone::{Kept, NoInput};
use crate::commands::run_image;
use crate::compiler::compile;
use crate::outcome::Outcome;
use crate::refusal::SourceRefusal;
use crate::report::put_pieces;
use command_line::work_source;
use elf_image::ReadError;
use image_compiler::Built;
use itoa::Buffer;
use rv_sim::Stop;
use sb_base::Budgets;
use sb_outside::{Failed, Sink};
use std::alloc::Global;

// The greatest number of instructions that are run.
const LIMIT: u64 = 1_000_000_000;

// What is built of a source of a seed.
#[derive(Drop)]
struct BuiltSource {
    // How many bytes the source has.
    size: usize,
    built: Built,
}

// A run by itself: how it stopped, and what it put to its output and to its error output.
#[derive(Drop)]
struct LoneRun {
    stop: Stop,
    shown: Vec<u8>,
    reported: Vec<u8>,
}

/// `work`: makes a source of a seed, compiles it with the default budgets and runs the image by itself. What the run
/// put to its error output goes to `errors`; what it put to its output is counted. Behind its exit four lines tell of
/// it.
pub fn work<O: Sink, E: Sink>(
    alloc: Global,
    seed: u64,
    count: u64,
    output: &mut O,
    errors: &mut E,
) -> (Outcome, Vec<u8>)
    ensures works { (files : Held) (reads writes : ℕ) (input : Rest) → Works seed count result.0 result.1.items
        (outside_of files reads writes input (O.taken output.old) (E.taken errors.old))
        (outside_of files reads writes input (O.taken output.new) (E.taken errors.new)) }
    ensures counts { (reads writes input : ℕ) → CommandCounts result.0
        (counts_of reads writes input (O.faults output.old) (E.faults errors.old))
        (counts_of reads writes input (O.faults output.new) (E.faults errors.new)) }
{
    let source = match built_source(alloc, seed, count) {
        Ok(source) => source,
        Err(outcome) => return (outcome, Vec::new(alloc)),
    };
    let run = match run_alone(alloc, &source.built.image) {
        Ok(run) => run,
        Err(ReadError::Memory) => return (Outcome::Memory, Vec::new(alloc)),
        Err(ReadError::Fault(_)) => unreachable!(),
    };
    if let Err(Failed) = put_report(errors, &run.reported) {
        return (Outcome::WriteFault, source.built.image);
    }
    match run.stop {
        Stop::Exited(status) => match put_lines(output, &source, status, run.shown.len()) {
            Ok(()) => (Outcome::Exited(status), source.built.image),
            Err(Failed) => (Outcome::WriteFault, source.built.image),
        },
        Stop::Limit => (Outcome::Limit(LIMIT), source.built.image),
        Stop::Trap { .. } => unreachable!(),
        Stop::InputFault | Stop::OutputFault => unreachable!(),
    }
}

// What is built of the source of a seed, with the default budgets, or the outcome without it.
fn built_source(alloc: Global, seed: u64, count: u64) -> Result<BuiltSource, Outcome>
    ensures built { IfOk result (λ s. IsBuiltFrom (work_source seed count) default_sizes s.built) }
    ensures size { IfOk result (λ s. s.size ≡ length (work_source seed count)) }
    ensures unbuilt { IfErr result (λ outcome. IsUnworked seed count outcome) }
{
    let source = match work_source(alloc, seed, count) {
        Ok(source) => source,
        Err(_) => return Err(Outcome::Memory),
    };
    let size = source.len();
    let budgets = Budgets::default();
    match compile(alloc, &source, &budgets) {
        Ok(built) => Ok(BuiltSource { size, built }),
        Err(SourceRefusal::Memory) => Err(Outcome::Memory),
        Err(refusal) => Err(Outcome::Refused(refusal)),
    }
}

// Runs an image by itself. Where there is no memory for what it puts, nothing is known of the run.
fn run_alone(alloc: Global, image: &[u8]) -> Result<LoneRun, ReadError>
    ensures ran { IfOk result (λ run. RunsImage image.now default_limit run.stop (alone [] [])
        (alone run.shown.items run.reported.items)) }
    ensures unfailed { IfOk result (λ run. fails run.stop ≡ false) }
    ensures refused { IfErr result (λ e. Fails e (image_fault image.now)) }
{
    let mut input = NoInput;
    let mut shown = Kept::new(alloc);
    let mut reported = Kept::new(alloc);
    let stop = match run_image(alloc, image, LIMIT, &mut input, &mut shown, &mut reported) {
        Ok(stop) => stop,
        Err(error) => return Err(error),
    };
    if fails(stop) {
        return Err(ReadError::Memory);
    }
    Ok(LoneRun {
        stop,
        shown: shown.bytes,
        reported: reported.bytes,
    })
}

// Whether the outside failed in a run.
fn fails(stop: Stop) -> bool
    ensures { result ≡ fails stop }
{
    match stop {
        Stop::InputFault | Stop::OutputFault => true,
        Stop::Exited(_) | Stop::Trap { .. } | Stop::Limit => false,
    }
}

// Puts what a run reported, if there is anything.
fn put_report<S: Sink>(sink: &mut S, reported: &[u8]) -> Result<(), Failed>
    ensures ok { OnOk result (S.taken sink.new ≡ gained (S.taken sink.old) reported.now) }
    ensures err { OnErr result (GainsPart (S.taken sink.old) (S.taken sink.new) reported.now) }
    ensures cause { CountsFaults (S.faults sink.old) (S.faults sink.new) result }
{
    if reported.is_empty() {
        return Ok(());
    }
    sink.put(reported)
}

// Puts the four lines of a run that ended with a status, of a source of so many bytes, and that put so many.
#[tactic(auto, unfolding(crate::specs::Works::work_lines))]
fn put_lines<S: Sink>(
    sink: &mut S,
    source: &BuiltSource,
    status: u8,
    shown: usize,
) -> Result<(), Failed>
    ensures ok { OnOk result (S.taken sink.new ≡ gained (S.taken sink.old)
        (work_lines source.now.size source.now.built.checks source.now.built.dropped status shown)) }
    ensures err { OnErr result (GainsPart (S.taken sink.old) (S.taken sink.new)
        (work_lines source.now.size source.now.built.checks source.now.built.dropped status shown)) }
    ensures cause { CountsFaults (S.faults sink.old) (S.faults sink.new) result }
{
    let mut of_size = Buffer::new();
    let mut of_checks = Buffer::new();
    let mut of_dropped = Buffer::new();
    let mut of_status = Buffer::new();
    let mut of_shown = Buffer::new();
    let size = of_size.format(source.size).as_bytes();
    let checks = of_checks.format(source.built.checks).as_bytes();
    let dropped = of_dropped.format(source.built.dropped).as_bytes();
    let status = of_status.format(status).as_bytes();
    let shown = of_shown.format(shown).as_bytes();
    put_pieces(
        sink,
        &[
            b"source ",
            size,
            b" bytes\n",
            checks,
            b" checks, ",
            dropped,
            b" dropped\n",
            b"status ",
            status,
            b"\n",
            b"output ",
            shown,
            b" bytes\n",
        ],
    )
}
