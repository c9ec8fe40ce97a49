//! The functions of a program, with the bytes that a call of each takes.

ghost use Rattle.std.specs.Prelude.{◌≡◌, ℕ, ◌<◌, List, [], length, map, slice_get, IfErr, IfOk, Ok, Err, None, Some};
ghost use Rattle.std.specs.Prelude.{option_map};
ghost use Rattle.c_tree.specs.Programs as programs;
ghost use Rattle.c_tree.specs.Room.{greatest_height, static_contents};
ghost use Rattle.c_tree.specs.View.{function_of, function_type_of, static_of};
ghost use Rattle.c_room.specs.Numbers.{fitting};
ghost use Rattle.c_programs.specs.FileState.{definition_of};
ghost use Rattle.c_unit_typing.specs.Programs.{function_type};
ghost use Rattle.c_programs.specs.declared.refusal.ProgramRefusal.TheVariants.{RoomTooLarge};
ghost use Rattle.c_programs.specs.ProgramRefused.{UnlessMemory, refused_at};
ghost use Rattle.c_programs.specs.Rooms.{function_in, made, room_among};

use crate::kinds::{function_type, result_kind};
use crate::lists::add;
use crate::place::place_among;
use crate::refusal::ProgramRefusal;
use crate::state::Definition;
use c_room::{room, static_heights};
use c_tree::{CType, Extent, Function, FunctionType, StaticObject};
use std::alloc::{AllocError, Global};

/// The types of functions, with the kinds of their parameters and results (C99 6.7.5.3).
pub fn function_types(
    alloc: Global,
    extents: &[Option<Extent>],
    types: Vec<CType>,
) -> Result<Vec<FunctionType>, AllocError>
    ensures { IfOk result (λ made. map function_type_of made.items ≡ map (function_type extents.now) types.items) }
{
    let mut made = Vec::new(alloc);
    for c_type in types {
        made.push(function_type(alloc, extents, c_type)?)?;
    }
    Ok(made)
}

// The function of a definition, where the bytes that a call of it takes fit 64 bits, with the greatest height of the
// static objects in its block.
fn function(
    extents: &[Option<Extent>],
    types: &[CType],
    height: Option<u64>,
    definition: Definition,
) -> Option<Function>
    ensures { (os : List programs.StaticObject) (n : ℕ) → height ≡ fitting (greatest_height (static_contents os n))
        → option_map function_of result ≡ function_in types.now
        (fitting (room_among extents.now types.now os n (definition_of definition))) (definition_of definition) }
{
    let Definition {
        line,
        c_type,
        parameters,
        variables,
        body,
    } = definition;
    let returned = result_kind(extents, c_type.words());
    let room = room(
        parameters.as_slice(),
        variables.as_slice(),
        body.as_slice(),
        height,
        returned,
    )?;
    let type_number = place_among(c_type.words(), types);
    Some(Function {
        line,
        type_number,
        parameters,
        variables,
        body,
        room,
    })
}

// The function with a number, where a call of it does not take too much.
fn with_room(number: usize, function: Option<Function>) -> Result<Function, ProgramRefusal>
    ensures there { IfOk result (λ f. function ≡ Some f) }
    ensures refused { IfErr result (λ e. (function ≡ None) × (e ≡ RoomTooLarge number)) }
{
    match function {
        Some(function) => Ok(function),
        None => Err(ProgramRefusal::RoomTooLarge(number)),
    }
}

fn height_at(heights: &[Option<u64>], number: usize) -> Option<u64>
    requires { number < length heights.now }
    ensures { slice_get heights.now number ≡ Some result }
{
    heights[number]
}

/// The functions of definitions in order. `RoomTooLarge` comes with the number of the first of which a call takes 2^64
/// bytes or more.
pub fn functions(
    alloc: Global,
    extents: &[Option<Extent>],
    types: &[CType],
    statics: &[StaticObject],
    definitions: Vec<Definition>,
) -> Result<Vec<Function>, ProgramRefusal>
    ensures made { IfOk result (λ functions. made extents.now types.now (map static_of statics.now) 0 []
        (map definition_of definitions.items) ≡ Ok (map function_of functions.items)) }
    ensures refused { IfErr result (λ e. UnlessMemory e (made extents.now types.now (map static_of statics.now) 0 []
        (map definition_of definitions.items) ≡ Err (refused_at e))) }
{
    let heights = static_heights(alloc, statics, definitions.len())?;
    let mut functions = Vec::new(alloc);
    let mut number = 0;
    for definition in definitions {
        let height = height_at(&heights, number);
        let function = match with_room(number, function(extents, types, height, definition)) {
            Ok(function) => function,
            Err(refusal) => return Err(refusal),
        };
        add(&mut functions, function)?;
        number += 1;
    }
    Ok(functions)
}
