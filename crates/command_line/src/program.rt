//! The command line as `clap` is told of it.
ghost use Rattle.std.specs.Prelude.{◌≡◌, IfOk, false};
ghost use Rattle.clap.specs.Words.{app_of, rule_of};
ghost use Rattle.command_line.specs.Program.{assemble_words, build_words, go_words, list_words, operand, option};
ghost use Rattle.command_line.specs.Program.{program, run_words};
ghost use Rattle.command_line.specs.Program.{with_budget_options, work_words};

use clap::{Arg, Command};
use std::alloc::{AllocError, Global};

/// The tool with its six commands.
#[tactic(auto, unfolding(crate::specs::Program::program))]
pub fn program<'a>(alloc: Global) -> Result<Command<'a>, AllocError>
    ensures { IfOk result (λ command. app_of command ≡ program) }
{
    Command::new(alloc, "sbcets")
        .no_binary_name(true)
        .subcommand_required(true)
        .subcommand(build_words(alloc)?)?
        .subcommand(run_words(alloc)?)?
        .subcommand(go_words(alloc)?)?
        .subcommand(list_words(alloc)?)?
        .subcommand(assemble_words(alloc)?)?
        .subcommand(work_words(alloc)?)
}

// `build SOURCE IMAGE`, with the budgets.
fn build_words<'a>(alloc: Global) -> Result<Command<'a>, AllocError>
    ensures { IfOk result (λ command. app_of command ≡ build_words) }
{
    let command = Command::new(alloc, "build")
        .arg(operand(alloc, "source"))?
        .arg(operand(alloc, "image"))?;
    with_budget_options(alloc, command)
}

// `run IMAGE`, with the limit.
fn run_words<'a>(alloc: Global) -> Result<Command<'a>, AllocError>
    ensures { IfOk result (λ command. app_of command ≡ run_words) }
{
    Command::new(alloc, "run")
        .arg(operand(alloc, "image"))?
        .arg(option(alloc, "limit"))
}

// `go SOURCE`, with the budgets and the limit.
fn go_words<'a>(alloc: Global) -> Result<Command<'a>, AllocError>
    ensures { IfOk result (λ command. app_of command ≡ go_words) }
{
    let command = Command::new(alloc, "go").arg(operand(alloc, "source"))?;
    with_budget_options(alloc, command)?.arg(option(alloc, "limit"))
}

// `list IMAGE`.
fn list_words<'a>(alloc: Global) -> Result<Command<'a>, AllocError>
    ensures { IfOk result (λ command. app_of command ≡ list_words) }
{
    Command::new(alloc, "list").arg(operand(alloc, "image"))
}

// `asm LISTING IMAGE`.
fn assemble_words<'a>(alloc: Global) -> Result<Command<'a>, AllocError>
    ensures { IfOk result (λ command. app_of command ≡ assemble_words) }
{
    Command::new(alloc, "asm")
        .arg(operand(alloc, "listing"))?
        .arg(operand(alloc, "image"))
}

// `work SEED COUNT`.
fn work_words<'a>(alloc: Global) -> Result<Command<'a>, AllocError>
    ensures { IfOk result (λ command. app_of command ≡ work_words) }
{
    Command::new(alloc, "work")
        .arg(operand(alloc, "seed"))?
        .arg(operand(alloc, "count"))
}

// The command with the five options of the budgets.
fn with_budget_options<'a>(alloc: Global, command: Command<'a>) -> Result<Command<'a>, AllocError>
    ensures { IfOk result (λ longer. app_of longer ≡ with_budget_options (app_of command.entry)) }
{
    command
        .arg(option(alloc, "heap"))?
        .arg(option(alloc, "stack"))?
        .arg(option(alloc, "calls"))?
        .arg(option(alloc, "blocks"))?
        .arg(option(alloc, "keys"))
}

// An operand, which has to be there.
fn operand<'a>(alloc: Global, name: &'a str) -> Arg<'a>
    ensures rule { rule_of result ≡ operand name.now }
    ensures local { result.global ≡ false }
{
    Arg::new(alloc, name).required(true)
}

// An option with one value.
fn option<'a>(alloc: Global, name: &'a str) -> Arg<'a>
    ensures rule { rule_of result ≡ option name.now }
    ensures local { result.global ≡ false }
{
    Arg::new(alloc, name).long(name)
}
