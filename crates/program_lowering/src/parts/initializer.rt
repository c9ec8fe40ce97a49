//! Initializers, conditions and the parts of a `for` that are evaluated (C99 6.7.8, 6.8.5). What comes next stands
//! already, so the last part is lowered first.

ghost use Rattle.std.specs.Prelude.{◌≡◌, ◌<◌, ◌^◌, IfOk, Some, map, option_map};
ghost use Rattle.c_tree.specs.Blocks.{initializer_contents, declared_contents, first_contents, if_any};
ghost use Rattle.c_tree.specs.Room.{content_height, greatest_height};
ghost use Rattle.c_tree.specs.View.{content_of, part_of, initializer_of, declared_of, first_of, expression_of};
ghost use Rattle.program_lowering.specs.StatementParts.Code.{ContentCode, PartsCode, InitializerCode, DeclaredCode};
ghost use Rattle.program_lowering.specs.StatementParts.Code.{FirstCode};
ghost use Rattle.program_lowering.specs.StatementParts.Code.{ConditionCode, PartCode, contents_in};

use crate::expressions::Emitter;
use c_tree::{Content, DeclaredVariable, Expression, First, Initializer, Part};
use std::alloc::{AllocError, Global};
use tac_ir::Instruction;

// A part of the object of a variable.
#[tactic(auto, using(crate::proofs::StatementParts::InitializerParts::contents))]
fn content(
    code: &mut Emitter,
    variable: usize,
    offset: u64,
    content: &Content,
    next: usize,
) -> Result<usize, AllocError>
    requires { content_height (content_of content.now) < 2 ^ 64 }
    ensures { IfOk result (λ n. ContentCode code.old code.new variable offset (content_of content.now) n next) }
{
    match content {
        Content::Value(e) => {
            let store = code.add(Instruction::StorePart {
                kind: e.kind,
                line: e.line,
                variable,
                offset,
                from: 0,
                next,
            })?;
            let first = code.expression(e, 0, store)?;
            Ok(first)
        }
        Content::Literal(bytes) => {
            let text = code.add_text(bytes.as_slice())?;
            let store = code.add(Instruction::StoreText {
                text,
                variable,
                offset,
                next,
            })?;
            Ok(store)
        }
    }
}

// All parts of it.
#[tactic(auto, using(crate::proofs::StatementParts::InitializerParts::no_parts))]
fn parts(
    code: &mut Emitter,
    variable: usize,
    parts: &[Part],
    next: usize,
) -> Result<usize, AllocError>
    requires { greatest_height (contents_in (map part_of parts.now)) < 2 ^ 64 }
    ensures { IfOk result (λ n. PartsCode code.old code.new variable (map part_of parts.now) n next) }
{
    let mut node = next;
    for i in (0..parts.len()).rev() {
        let part = &parts[i];
        node = content(code, variable, part.offset, &part.content, node)?;
    }
    Ok(node)
}

// The initializer of a variable.
#[tactic(auto, using(crate::proofs::StatementParts::InitializerParts::initializers))]
fn initial(
    code: &mut Emitter,
    variable: usize,
    initializer: &Initializer,
    next: usize,
) -> Result<usize, AllocError>
    requires { greatest_height (initializer_contents (Some (initializer_of initializer.now))) < 2 ^ 64 }
    ensures { IfOk result
        (λ n. InitializerCode code.old code.new variable (Some (initializer_of initializer.now)) n next) }
{
    match initializer {
        Initializer::Plain(e) => {
            let set = code.add(Instruction::SetPlain {
                variable,
                from: 0,
                next,
            })?;
            let first = code.expression(e, 0, set)?;
            Ok(first)
        }
        Initializer::Object(all) => {
            let first = parts(code, variable, all.as_slice(), next)?;
            let zero = code.add(Instruction::Zero {
                variable,
                next: first,
            })?;
            Ok(zero)
        }
    }
}

// The same where it may have none.
#[tactic(auto, using(crate::proofs::StatementParts::InitializerParts::no_initializer))]
fn initializer(
    code: &mut Emitter,
    variable: usize,
    initializer: &Option<Initializer>,
    next: usize,
) -> Result<usize, AllocError>
    requires { greatest_height (initializer_contents (option_map initializer_of initializer.now)) < 2 ^ 64 }
    ensures { IfOk result
        (λ n. InitializerCode code.old code.new variable (option_map initializer_of initializer.now) n next) }
{
    match initializer {
        None => Ok(next),
        Some(i) => {
            let first = initial(code, variable, i, next)?;
            Ok(first)
        }
    }
}

/// The variables that a declaration declares, each with its initializer, before a node.
#[tactic(auto, using(crate::proofs::StatementParts::InitializerParts::no_declared))]
pub fn declare(
    code: &mut Emitter,
    declared: &[DeclaredVariable],
    next: usize,
) -> Result<usize, AllocError>
    requires { greatest_height (declared_contents (map declared_of declared.now)) < 2 ^ 64 }
    ensures { IfOk result (λ n. DeclaredCode code.old code.new (map declared_of declared.now) n next) }
{
    let mut node = next;
    for i in (0..declared.len()).rev() {
        let variable = &declared[i];
        node = initializer(code, variable.variable, &variable.initializer, node)?;
    }
    Ok(node)
}

/// The first part of a `for`, before a node.
#[tactic(auto, using(crate::proofs::StatementParts::InitializerParts::firsts))]
pub fn first(code: &mut Emitter, first: &First, next: usize) -> Result<usize, AllocError>
    requires { greatest_height (first_contents (first_of first.now)) < 2 ^ 64 }
    ensures { IfOk result (λ n. FirstCode code.old code.new (first_of first.now) n next) }
{
    match first {
        First::Nothing => Ok(next),
        First::Expression(e) => {
            let start = code.expression(e, 0, next)?;
            Ok(start)
        }
        First::Declaration(declared) => {
            let start = declare(code, declared.as_slice(), next)?;
            Ok(start)
        }
    }
}

/// A condition, with its two ways. One that is left out has no way out.
#[tactic(auto, using(crate::proofs::StatementParts::InitializerParts::conditions))]
pub fn condition(
    code: &mut Emitter,
    e: &Option<Expression>,
    holds: usize,
    fails: usize,
) -> Result<usize, AllocError>
    requires { greatest_height (if_any (option_map expression_of e.now)) < 2 ^ 64 }
    ensures { IfOk result (λ n. ConditionCode code.old code.new (option_map expression_of e.now) n holds fails) }
{
    match e {
        None => Ok(holds),
        Some(e) => {
            let branch = code.add(Instruction::Branch {
                from: 0,
                not_zero: holds,
                zero: fails,
            })?;
            let start = code.expression(e, 0, branch)?;
            Ok(start)
        }
    }
}

/// An expression that may be left out, before a node.
#[tactic(auto, using(crate::proofs::StatementParts::InitializerParts::evaluated))]
pub fn part(code: &mut Emitter, e: &Option<Expression>, next: usize) -> Result<usize, AllocError>
    requires { greatest_height (if_any (option_map expression_of e.now)) < 2 ^ 64 }
    ensures { IfOk result (λ n. PartCode code.old code.new (option_map expression_of e.now) n next) }
{
    match e {
        None => Ok(next),
        Some(e) => {
            let start = code.expression(e, 0, next)?;
            Ok(start)
        }
    }
}
