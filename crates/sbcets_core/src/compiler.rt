//! From a source text to an image.
ghost use Rattle.std.specs.Prelude.{◌≡◌, ℕ, true, false, List, None, Ok, Err, IfOk, IfErr, OnOk};
ghost use Rattle.c_lexer.specs.Spelled.{TokenList};
ghost use Rattle.c_syntax.specs.StatementsView.{unit_of};
ghost use Rattle.c_parser.specs.Parsed.{IsSupported, IsTreeOf, Parses};
ghost use Rattle.c_parser.specs.Unsupported.{first_unsupported};
ghost use Rattle.c_tree.specs.View.{program_of};
ghost use Rattle.c_typer.specs.Refused.{IsCauseOf, UnlessMemory as UnlessUntyped};
ghost use Rattle.c_unit_typing.specs.Typed.{TypedUnit};
ghost use Rattle.compiled_programs.specs.Programs.{is_integer_program};
ghost use Rattle.sbcets_core.specs.declared.refusal.SourceRefusal.TheVariants.{Uncompiled};
ghost use Rattle.sbcets_core.specs.Accepted.{Compiles, HasProgram, IsFine, JudgesReadable, Judges, UnlessMemory};
ghost use Rattle.sbcets_core.specs.Accepted.{EndsOn, IsOfSize};
ghost use Rattle.sbcets_core.specs.Accepted.{expanded_tokens, with_support};
ghost use Rattle.sbcets_core.specs.Programs.{counted_as, judged_unit};

use crate::refusal::{Counted, RefusedWord, SourceRefusal};
use crate::typed_program::has_rooms;
use c_lexer::{LexError, Tokens, lex};
use c_parser::{ParseFault, parse, release};
use c_pre::{PreError, expand};
use c_syntax::Unit;
use c_tree::Program;
use c_typer::{UnitRefusal, type_unit};
use c_unit_typing::limits::Limited;
use compiled_programs::program::is_integer_program;
use image_compiler::{Built, CompileError, ExpansionError, compile_expanded};
use sb_base::{Budgets, Line};
use shadow_space::two_levels::TwoLevel;
use std::alloc::Global;

/// The largest source that is read, in bytes.
pub const MAX_SOURCE: u64 = 1_048_576;

/// The image of a source, which does what the source means with these budgets, and the number of its checks and of
/// those that were dropped; or why the source is refused, for the first of the causes in the order of `SourceRefusal`.
pub fn compile(alloc: Global, source: &[u8], budgets: &Budgets) -> Result<Built, SourceRefusal>
    ensures { Compiles source.now budgets.now result }
{
    let (program, end) = match accepted(alloc, source) {
        Ok(accepted) => accepted,
        Err(refusal) => return Err(refusal),
    };
    if is_integer_program(&program) {
        built_of_integers(alloc, budgets, &program)
    } else {
        built_with_objects(alloc, budgets, &program, end)
    }
}

// What is built of an accepted program of integers alone.
#[tactic(auto, using(crate::proofs::Building::of_integers))]
fn built_of_integers(
    alloc: Global,
    budgets: &Budgets,
    program: &Program,
) -> Result<Built, SourceRefusal>
    requires fine { IsFine (program_of program.now) }
    requires integers { is_integer_program (program_of program.now) ≡ true }
    ensures { (source : List ℕ) → Judges source (Ok (program_of program.now)) → Compiles source budgets.now result }
{
    match image_compiler::compile(alloc, budgets, program) {
        Ok(built) => Ok(built),
        Err(error) => Err(size_refusal(error)),
    }
}

// What is built of any other accepted program, of a text that ends on a line.
#[tactic(auto, using(crate::proofs::Building::with_objects))]
fn built_with_objects(
    alloc: Global,
    budgets: &Budgets,
    program: &Program,
    end: Line,
) -> Result<Built, SourceRefusal>
    requires fine { IsFine (program_of program.now) }
    requires others { is_integer_program (program_of program.now) ≡ false }
    ensures { (source : List ℕ) → Judges source (Ok (program_of program.now)) → EndsOn source end
        → Compiles source budgets.now result }
{
    match compile_expanded::<TwoLevel>(alloc, budgets, program) {
        Ok(built) => Ok(built),
        Err(error) => Err(expansion_refusal(error, end)),
    }
}

// The refusal of what is not compiled yet, of a text that ends on a line.
fn expansion_refusal(error: ExpansionError, end: Line) -> SourceRefusal
    ensures { UnlessMemory result (result ≡ Uncompiled end) }
{
    match error {
        ExpansionError::NotCompiled => SourceRefusal::Uncompiled(end),
        ExpansionError::Memory => SourceRefusal::Memory,
    }
}

// The refusal of what is too large to be built.
fn size_refusal(error: CompileError) -> SourceRefusal
    ensures { UnlessMemory result (IsOfSize error result) }
{
    match error {
        CompileError::NumbersTooLarge => SourceRefusal::NumbersTooLarge,
        CompileError::TooLarge(count) => SourceRefusal::TooLarge {
            which: Counted::Code,
            count,
        },
        CompileError::Memory => SourceRefusal::Memory,
    }
}

// The program of a source that is accepted, and the line on which its text ends.
#[tactic(auto, using(crate::proofs::Judging::judging))]
fn accepted(alloc: Global, source: &[u8]) -> Result<(Program, Line), SourceRefusal>
    ensures ok { IfOk result (λ accepted. Judges source.now (Ok (program_of accepted.0))) }
    ensures fine { IfOk result (λ accepted. IsFine (program_of accepted.0)) }
    ensures ends { IfOk result (λ accepted. EndsOn source.now accepted.1) }
    ensures err { IfErr result (λ refusal. UnlessMemory refusal (Judges source.now (Err refusal))) }
{
    let tokens = match expanded_tokens(alloc, source) {
        Ok(tokens) => tokens,
        Err(refusal) => return Err(refusal),
    };
    let end = tokens.end();
    match accepted_of(alloc, &tokens) {
        Ok(program) => Ok((program, end)),
        Err(refusal) => Err(refusal),
    }
}

// The expanded tokens of a source.
#[tactic(auto, unfolding(crate::specs::Accepted::expanded_tokens))]
fn expanded_tokens<'a>(alloc: Global, source: &'a [u8]) -> Result<Tokens<'a>, SourceRefusal>
    ensures ok { IfOk result (λ tokens. expanded_tokens source.now ≡ Ok tokens) }
    ensures err { IfErr result (λ refusal. UnlessMemory refusal (expanded_tokens source.now ≡ Err refusal)) }
{
    let count = source.len() as u64;
    if count > MAX_SOURCE {
        return Err(SourceRefusal::TooLarge {
            which: Counted::Source,
            count: u128::from(count),
        });
    }
    let tokens = match lex(alloc, source) {
        Ok(tokens) => tokens,
        Err(LexError::Fault(fault)) => return Err(SourceRefusal::Lex(fault)),
        Err(LexError::Memory) => return Err(SourceRefusal::Memory),
    };
    match expand(alloc, tokens) {
        Ok(expanded) => Ok(expanded),
        Err(PreError::Fault(fault)) => Err(SourceRefusal::Pre(fault)),
        Err(PreError::Memory) => Err(SourceRefusal::Memory),
    }
}

// The program of expanded tokens that are accepted.
#[tactic(auto, using(crate::proofs::Judging::program_judged, crate::proofs::Typing::fine))]
fn accepted_of(alloc: Global, tokens: &Tokens) -> Result<Program, SourceRefusal>
    ensures ok { IfOk result (λ program. JudgesReadable (with_support tokens.now) (Ok (program_of program))) }
    ensures fine { IfOk result (λ program. IsFine (program_of program)) }
    ensures supported { OnOk result (first_unsupported tokens.now.tokens ≡ None) }
    ensures err { IfErr result
        (λ refusal. UnlessMemory refusal (JudgesReadable (with_support tokens.now) (Err refusal))) }
{
    match typed_of(alloc, tokens) {
        Ok(program) => {
            has_rooms(&program);
            Ok(program)
        }
        Err(refusal) => Err(refusal),
    }
}

// The typed program of expanded tokens.
fn typed_of(alloc: Global, tokens: &Tokens) -> Result<Program, SourceRefusal>
    ensures ok { IfOk result (λ program. HasProgram tokens.now (program_of program)) }
    ensures err { IfErr result
        (λ refusal. UnlessMemory refusal (JudgesReadable (with_support tokens.now) (Err refusal))) }
{
    let tree = match tree_of(alloc, tokens) {
        Ok(tree) => tree,
        Err(refusal) => return Err(refusal),
    };
    let typed = type_unit(alloc, tokens.end(), &tree);
    release(tree);
    match typed {
        Ok(program) => Ok(program),
        Err(refusal) => Err(typing_refusal(refusal)),
    }
}

// The refusal of a file that has no typed program.
#[tactic(auto, using(crate::proofs::Judging::room_refused))]
fn typing_refusal(refusal: UnitRefusal) -> SourceRefusal
    ensures { (typed : TypedUnit) → UnlessUntyped refusal (IsCauseOf refusal typed) →
        UnlessMemory result (judged_unit typed ≡ Err result) }
{
    match refusal {
        UnitRefusal::Fault(fault) => SourceRefusal::Typing(fault),
        UnitRefusal::NotConstant(line) => SourceRefusal::Const(line),
        UnitRefusal::TooLarge(which, count) => SourceRefusal::TooLarge {
            which: counted_as(which),
            count,
        },
        UnitRefusal::RoomTooLarge(number) => SourceRefusal::RoomTooLarge(number),
        UnitRefusal::Memory => SourceRefusal::Memory,
    }
}

fn counted_as(which: Limited) -> Counted
    ensures { result ≡ counted_as which }
{
    match which {
        Limited::Functions => Counted::Functions,
        Limited::Parameters => Counted::Parameters,
        Limited::Members => Counted::Members,
        Limited::Globals => Counted::Globals,
    }
}

// The tree of the tokens, of which none is unsupported.
fn tree_of<'a>(alloc: Global, tokens: &Tokens<'a>) -> Result<Unit<'a>, SourceRefusal>
    ensures ok { IfOk result (λ tree. IsTreeOf tokens.now.tokens (unit_of tree)) }
    ensures supported { OnOk result (first_unsupported tokens.now.tokens ≡ None) }
    ensures err { IfErr result
        (λ refusal. UnlessMemory refusal (JudgesReadable (with_support tokens.now) (Err refusal))) }
{
    match parse(alloc, tokens) {
        Ok(tree) => Ok(tree),
        Err(fault) => Err(parse_refusal(alloc, fault)),
    }
}

// The refusal of a text that the parser refuses.
#[tactic(auto, using(crate::proofs::Judging::judged_supported, crate::proofs::Judging::judged_unsupported))]
fn parse_refusal(alloc: Global, fault: ParseFault) -> SourceRefusal
    ensures { (list : TokenList) → Parses list (Err fault) → IsSupported list (Err fault) →
        UnlessMemory result (JudgesReadable (with_support list) (Err result)) }
{
    match fault {
        ParseFault::Memory => SourceRefusal::Memory,
        ParseFault::Unsupported(word, line) => match RefusedWord::copy(alloc, word.told_as()) {
            Ok(word) => SourceRefusal::Unsupported(word, line),
            Err(_) => SourceRefusal::Memory,
        },
        ParseFault::Syntax { at, line } => SourceRefusal::Syntax { at, line },
        ParseFault::Nesting { at, line } => SourceRefusal::Nesting { at, line },
    }
}
