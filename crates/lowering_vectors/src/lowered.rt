//! From a text to its three-address code.

ghost use Rattle.std.specs.Prelude.{◌≡◌, ◌≤◌, ◌+◌, true, map, IfOk, IfSome, None};
ghost use Rattle.obj_memory.specs.Heap.{rounded_up};
ghost use Rattle.c_const.specs.Initializers.{first_not_constant};
ghost use Rattle.c_tree.specs.Kinds.{size_of_kind};
ghost use Rattle.c_tree.specs.ValidProgram.{is_valid_program};
ghost use Rattle.c_tree.specs.View as view;
ghost use Rattle.c_tree.specs.View.{static_of};
ghost use Rattle.source_meaning.specs.Meaning.{statics_end};

use anyhow::{Result, bail};
use c_lexer::{Tokens, lex};
use c_parser::{parse, release};
use c_pre::expand;
use c_tree::{Kind, Program, StaticObject};
use c_typer::type_unit;
use program_lowering::programs::lower;
use static_data::pointers::size_of;
use std::alloc::Global;
use tac_ir::Tac;

/// The bytes that a text may have.
const MOST_TEXT: usize = 1_048_576;

/// The bytes that static objects may take.
const MOST_BYTES: u64 = 0x40_0000;

/// The functions that a program may have.
const MOST_FUNCTIONS: usize = 4096;

// Where a static object of a kind ends that stands at the next multiple of 16, unless it takes too many bytes.
fn end_behind(offset: u64, kind: Kind) -> Option<u64>
    requires { offset ≤ 0x400000 }
    ensures value { IfSome result (λ end. end ≡ rounded_up 16 offset + size_of_kind kind) }
    ensures small { IfSome result (λ end. end ≤ 0x400000) }
{
    let start = (offset + 15) / 16 * 16;
    let size = size_of(kind);
    if start > MOST_BYTES || size > MOST_BYTES - start {
        return None;
    }
    Some(start + size)
}

// Whether static objects take few enough bytes together.
fn is_small(statics: &[StaticObject]) -> bool
    ensures { result ≡ true → statics_end (map static_of statics.now) 0 ≤ 0x400000 }
{
    let mut offset = 0;
    for i in 0..statics.len() {
        match end_behind(offset, statics[i].kind) {
            Some(end) => offset = end,
            None => return false,
        }
    }
    true
}

fn program_of(alloc: Global, tokens: &Tokens) -> Result<Program>
    ensures valid { IfOk result (λ program. is_valid_program (view.program_of program) ≡ true) }
    ensures constant { IfOk result (λ program. first_not_constant (view.program_of program) ≡ None) }
{
    match parse(alloc, tokens) {
        Ok(unit) => {
            let typed = type_unit(alloc, tokens.end(), &unit);
            release(unit);
            match typed {
                Ok(program) => Ok(program),
                Err(_) => bail!("a text is not typed"),
            }
        }
        Err(_) => bail!("a text has no tree"),
    }
}

/// The typed program of a text.
pub fn typed(alloc: Global, text: &[u8]) -> Result<Program>
    ensures valid { IfOk result (λ program. is_valid_program (view.program_of program) ≡ true) }
    ensures constant { IfOk result (λ program. first_not_constant (view.program_of program) ≡ None) }
{
    if text.len() > MOST_TEXT {
        bail!("a text is too long");
    }
    match lex(alloc, text) {
        Ok(tokens) => match expand(alloc, tokens) {
            Ok(expanded) => program_of(alloc, &expanded),
            Err(_) => bail!("a text has directives that are wrong"),
        },
        Err(_) => bail!("a text has no tokens"),
    }
}

/// The three-address code of a program.
pub fn lowered(alloc: Global, program: &Program) -> Result<Tac>
    requires valid { is_valid_program (view.program_of program.now) ≡ true }
    requires constant { first_not_constant (view.program_of program.now) ≡ None }
{
    if program.functions.as_slice().len() > MOST_FUNCTIONS
        || !is_small(program.statics.as_slice())
    {
        bail!("a program is too large");
    }
    let code = lower(alloc, program)?;
    Ok(code)
}
