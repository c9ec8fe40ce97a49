//! Objects with their initializers: automatic variables, static objects without linkage, and objects with linkage (C99
//! 6.2.2, 6.2.4).

ghost use Rattle.std.specs.Prelude.{◌≡◌, ◌++◌, ◌∷◌, [], if◌then◌else◌, IfOk, OnOk, map, option_map};
ghost use Rattle.c_tree.specs.View.{content_of, declared_of, initializer_of, part_of, static_of};
ghost use Rattle.c_typing_state.specs.State.{state_of};
ghost use Rattle.c_programs.specs.FileState.{FileTypes, file_of};
ghost use Rattle.c_unit_typing.specs.Declarations.{content_initializer, initializer_if, parts_initializer, static_in};
ghost use Rattle.c_unit_typing.specs.Declarations.{variable_in, with_parts, with_static, with_variable};
ghost use Rattle.c_typer.specs.Initialized.{initialized_of};

use crate::declarations::lists::{only, put, single};
use crate::declarations::sizing::Initialized;
use crate::initializers::dropping::let_go;
use c_faults::Refusal;
use c_operand_typing::primaries::{is_object, kind_of_place};
use c_programs::state::{FileTyper, LinkedInitializer, LocalStatic};
use c_rules::holding::beside;
use c_tree::{Content, DeclaredVariable, Initializer, Part, StaticObject, TypeWord, Variable};
use c_typing_state::Typer;
use std::alloc::{AllocError, Global};
use tree_containers::Items;

fn variable_in(typer: &Typer, number: usize, words: &[TypeWord]) -> Variable
    ensures { result ≡ variable_in (state_of typer.now) number words.now }
{
    Variable {
        kind: kind_of_place(typer.extents(), words),
        is_object: is_object(typer, true, number, words),
    }
}

fn static_in(typer: &Typer, words: &[TypeWord], parts: Vec<Part>) -> StaticObject
    ensures { static_of result ≡ static_in (state_of typer.now) words.now (map part_of parts.items) }
{
    StaticObject {
        kind: kind_of_place(typer.extents(), words),
        is_literal: false,
        function: typer.function,
        parts: Items::from_vec(parts),
    }
}

// The initializer that has one part.
fn content_initializer(alloc: Global, part: Part) -> Result<Initializer, AllocError>
    ensures { IfOk result (λ i. initializer_of i
        ≡ content_initializer (content_of part.content) (part_of part ∷ [])) }
{
    let Part { offset, content } = part;
    match content {
        Content::Value(tree) => Ok(Initializer::Plain(tree)),
        Content::Literal(bytes) => {
            let content = Content::Literal(bytes);
            let parts = only(alloc, Part { offset, content })?;
            Ok(Initializer::Object(Items::from_vec(parts)))
        }
    }
}

// The initializer of a variable that has one: of a plain variable the only part is its value.
#[tactic(auto, using(crate::proofs::Parts::several))]
fn parts_initializer(
    alloc: Global,
    is_object: bool,
    parts: Vec<Part>,
) -> Result<Initializer, AllocError>
    ensures { IfOk result (λ i. initializer_of i ≡ parts_initializer is_object (map part_of parts.items)) }
{
    if is_object {
        return Ok(Initializer::Object(Items::from_vec(parts)));
    }
    match single(parts) {
        Ok(part) => content_initializer(alloc, part),
        Err(parts) => Ok(Initializer::Object(Items::from_vec(parts))),
    }
}

fn initializer_if(
    alloc: Global,
    has_one: bool,
    is_object: bool,
    parts: Vec<Part>,
) -> Result<Option<Initializer>, AllocError>
    ensures { IfOk result (λ i. option_map initializer_of i
        ≡ initializer_if has_one is_object (map part_of parts.items)) }
{
    if has_one {
        let initializer = parts_initializer(alloc, is_object, parts)?;
        Ok(Some(initializer))
    } else {
        let_go(parts);
        Ok(None)
    }
}

/// An automatic variable, which is declared where it stands.
pub(crate) fn with_variable<'a>(
    file: &mut FileTyper<'a>,
    number: usize,
    has_initializer: bool,
    object: Initialized,
) -> Result<Vec<DeclaredVariable>, Refusal>
    ensures { FileTypes (λ vs. map declared_of vs.items) (file_of file.new) result
        (with_variable number has_initializer (initialized_of object) (file_of file.old)) }
{
    let Initialized { c_type, parts } = object;
    let variable = variable_in(&file.typer, number, c_type.words());
    let alloc = file.typer.alloc;
    let initializer = initializer_if(alloc, has_initializer, variable.is_object, parts)?;
    let declared = only(
        alloc,
        DeclaredVariable {
            variable: number,
            initializer,
        },
    )?;
    let put = put(&mut file.variables, variable);
    let (declared, _) = beside(declared, put)?;
    Ok(declared)
}

/// A static object without linkage.
pub(crate) fn with_static<'a>(
    file: &mut FileTyper<'a>,
    number: usize,
    object: Initialized,
) -> Result<Vec<DeclaredVariable>, Refusal>
    ensures { FileTypes (λ vs. map declared_of vs.items) (file_of file.new) result
        (with_static number (initialized_of object) (file_of file.old)) }
{
    let Initialized { c_type, parts } = object;
    let object = static_in(&file.typer, c_type.words(), parts);
    put(&mut file.statics, LocalStatic { number, object })?;
    Ok(Vec::new(file.typer.alloc))
}

// Keeps the parts of an initializer, where there is one.
fn keep_parts<'a>(
    file: &mut FileTyper<'a>,
    number: usize,
    has_initializer: bool,
    parts: Vec<Part>,
) -> Result<(), AllocError>
    ensures { OnOk result (file_of file.new ≡ (if has_initializer then record (file_of file.old) {
      initializers = (file_of file.old).initializers ++ (number, map part_of parts.items) ∷ [];
    } else file_of file.old)) }
{
    if has_initializer {
        let parts = Items::from_vec(parts);
        put(&mut file.initializers, LinkedInitializer { number, parts })
    } else {
        let_go(parts);
        Ok(())
    }
}

/// An object with linkage, whose initializer is kept.
pub(crate) fn with_parts<'a>(
    file: &mut FileTyper<'a>,
    number: usize,
    has_initializer: bool,
    object: Initialized,
) -> Result<Vec<DeclaredVariable>, Refusal>
    ensures { FileTypes (λ vs. map declared_of vs.items) (file_of file.new) result
        (with_parts number has_initializer (initialized_of object) (file_of file.old)) }
{
    let Initialized { c_type: _, parts } = object;
    keep_parts(file, number, has_initializer, parts)?;
    Ok(Vec::new(file.typer.alloc))
}
