//! From words to a command.
ghost use Rattle.std.specs.Prelude.{◌≡◌, ◌≤◌, ◌^◌, Err, IfOk, IfSome, None, Some, map, option_and_then, option_map};
ghost use Rattle.clap.specs.Words.{subcommand_rows_of};
ghost use Rattle.command_line.specs.Asked.{IsLimited, allowed, asked_of, budgets_at, build_at, command_at, command_in};
ghost use Rattle.command_line.specs.Asked.{assemble_at, count_at, go_at, limit_at, list_at, number_at, operand_at};
ghost use Rattle.command_line.specs.Asked.{rows_in, run_at, text_at, work_at};

use crate::command::{Command, WordsFault};
use crate::number::number_of;
use crate::program::program;
use clap::ArgMatches;
use sb_base::Budgets;
use std::alloc::Global;
use std::convert::AsStr;

const DEFAULT_LIMIT: u64 = 1_000_000_000;

const MAX_LIMIT: u64 = 1 << 62;

const MAX_COUNT: u64 = 64;

/// The command that the words ask for; they are those after the program's name. Each option may be
/// left out, and has its default then: a heap of 4194304 bytes, a stack of 1048576, calls of 4194304,
/// 16384 blocks, 2^62 keys, and a limit of 1000000000.
///
/// `WordsFault::Usage` comes exactly where the words are no command, as long as there is memory: where `clap` refuses
/// them or answers them with help, an option's value is no number, a budget is out of its range or no multiple of
/// 4096 (`Budgets::new`), the limit is above 2^62, or the functions of `work` are none or more than 64. A number is
/// decimal digits with no sign and no leading zero, below 2^64. `WordsFault::Memory` comes where memory runs out,
/// whatever the words are.
#[tactic(auto, unfolding(crate::specs::Asked::command_in))]
pub fn command_of<'a, S: AsStr>(alloc: Global, words: &'a [S]) -> Result<Command<'a>, WordsFault>
    ensures ok { IfOk result (λ command. command_in (map S.text words.entry.now) ≡ Some (asked_of command)) }
    ensures usage { result ≡ Err WordsFault.Usage → command_in (map S.text words.entry.now) ≡ None }
    ensures limited { IfOk result IsLimited }
{
    let matches = program(alloc)?.try_get_matches_from(words)?;
    match command_asked(&matches) {
        Some(command) => Ok(command),
        None => Err(WordsFault::Usage),
    }
}

// The command of the matches: `None` where a number is none, or the limit is too high.
#[tactic(auto, unfolding(crate::specs::Asked::command_at))]
fn command_asked<'a>(matches: &ArgMatches<'a>) -> Option<Command<'a>>
    ensures asked { option_map asked_of result ≡ option_and_then command_at (subcommand_rows_of matches.now) }
    ensures limited { IfSome result IsLimited }
{
    let (name, matches) = matches.subcommand()?;
    match name {
        "build" => build_asked(matches),
        "run" => run_asked(matches),
        "go" => go_asked(matches),
        "list" => list_asked(matches),
        "asm" => assemble_asked(matches),
        "work" => work_asked(matches),
        _ => None,
    }
}

// The command of the matches of `build`, and below of `run`, `go`, `list`, `asm` and `work`.
#[tactic(auto, unfolding(crate::specs::Asked::build_at))]
fn build_asked<'a>(matches: &ArgMatches<'a>) -> Option<Command<'a>>
    ensures asked { option_map asked_of result ≡ build_at (rows_in matches.now) }
    ensures limited { IfSome result IsLimited }
{
    Some(Command::Build {
        source: text_at(matches, "source")?,
        image: text_at(matches, "image")?,
        budgets: budgets_at(matches)?,
    })
}

#[tactic(auto, unfolding(crate::specs::Asked::run_at))]
fn run_asked<'a>(matches: &ArgMatches<'a>) -> Option<Command<'a>>
    ensures asked { option_map asked_of result ≡ run_at (rows_in matches.now) }
    ensures limited { IfSome result IsLimited }
{
    Some(Command::Run {
        image: text_at(matches, "image")?,
        limit: limit_at(matches)?,
    })
}

#[tactic(auto, unfolding(crate::specs::Asked::go_at))]
fn go_asked<'a>(matches: &ArgMatches<'a>) -> Option<Command<'a>>
    ensures asked { option_map asked_of result ≡ go_at (rows_in matches.now) }
    ensures limited { IfSome result IsLimited }
{
    Some(Command::Go {
        source: text_at(matches, "source")?,
        budgets: budgets_at(matches)?,
        limit: limit_at(matches)?,
    })
}

#[tactic(auto, unfolding(crate::specs::Asked::list_at))]
fn list_asked<'a>(matches: &ArgMatches<'a>) -> Option<Command<'a>>
    ensures asked { option_map asked_of result ≡ list_at (rows_in matches.now) }
    ensures limited { IfSome result IsLimited }
{
    Some(Command::List {
        image: text_at(matches, "image")?,
    })
}

#[tactic(auto, unfolding(crate::specs::Asked::assemble_at))]
fn assemble_asked<'a>(matches: &ArgMatches<'a>) -> Option<Command<'a>>
    ensures asked { option_map asked_of result ≡ assemble_at (rows_in matches.now) }
    ensures limited { IfSome result IsLimited }
{
    Some(Command::Assemble {
        listing: text_at(matches, "listing")?,
        image: text_at(matches, "image")?,
    })
}

#[tactic(auto, unfolding(crate::specs::Asked::work_at))]
fn work_asked<'a>(matches: &ArgMatches<'a>) -> Option<Command<'a>>
    ensures asked { option_map asked_of result ≡ work_at (rows_in matches.now) }
    ensures limited { IfSome result IsLimited }
{
    Some(Command::Work {
        seed: operand_at(matches, "seed")?,
        count: count_at(matches)?,
    })
}

// How many functions `work` asks for. `None` also where they are none or too many.
#[tactic(auto, unfolding(crate::specs::Asked::count_at))]
fn count_at(matches: &ArgMatches) -> Option<u64>
    ensures asked { result ≡ count_at (rows_in matches.now) }
    ensures limited { IfSome result (λ count. (1 ≤ count) × (count ≤ 64)) }
{
    operand_at(matches, "count").filter(|count| *count >= 1 && *count <= MAX_COUNT)
}

// The number of the operand of this name. `None`: it is no number.
#[tactic(auto, unfolding(crate::specs::Asked::operand_at))]
fn operand_at(matches: &ArgMatches, name: &str) -> Option<u64>
    ensures { result ≡ operand_at name.now (rows_in matches.now) }
{
    number_of(text_at(matches, name)?)
}

// The budgets of the five options, or their defaults. `None` also where one is out of its range.
#[tactic(auto, unfolding(crate::specs::Asked::budgets_at))]
fn budgets_at(matches: &ArgMatches) -> Option<Budgets>
    ensures { result ≡ budgets_at (rows_in matches.now) }
{
    let default = Budgets::default();
    let heap = number_at(matches, "heap", default.heap())?;
    let stack = number_at(matches, "stack", default.stack())?;
    let calls = number_at(matches, "calls", default.calls())?;
    let blocks = number_at(matches, "blocks", default.blocks())?;
    let keys = number_at(matches, "keys", default.keys())?;
    budgets_of(heap, stack, calls, blocks, keys)
}

// Budgets of these sizes, where each is in its range.
fn budgets_of(heap: u64, stack: u64, calls: u64, blocks: u64, keys: u64) -> Option<Budgets>
    ensures { result ≡ allowed (record { heap = heap; stack = stack; calls = calls; blocks = blocks; keys = keys }) }
{
    match Budgets::new(heap, stack, calls, blocks, keys) {
        Ok(budgets) => Some(budgets),
        Err(_) => None,
    }
}

// The number of `--limit`, or the default.
#[tactic(auto, unfolding(crate::specs::Asked::limit_at))]
fn limit_at(matches: &ArgMatches) -> Option<u64>
    ensures asked { result ≡ limit_at (rows_in matches.now) }
    ensures limited { IfSome result (λ limit. limit ≤ 2 ^ 62) }
{
    number_at(matches, "limit", DEFAULT_LIMIT).filter(|limit| *limit <= MAX_LIMIT)
}

// The number of the option of this name, or the default where it is left out. `None`: it is no number.
#[tactic(auto, unfolding(crate::specs::Asked::number_at))]
fn number_at(matches: &ArgMatches, name: &str, default: u64) -> Option<u64>
    ensures { result ≡ number_at name.now default (rows_in matches.now) }
{
    match text_at(matches, name) {
        Some(text) => number_of(text),
        None => Some(default),
    }
}

// The value of the operand or option of this name.
fn text_at<'a>(matches: &ArgMatches<'a>, name: &str) -> Option<&'a str>
    ensures { option_map (λ text. text.now) result ≡ text_at name.now (rows_in matches.now) }
{
    matches.get_str(name)
}
