//! Calls (C99 6.5.2.2), whose arguments are typed.

ghost use Rattle.std.specs.Prelude.{◌≡◌, ◌++◌, ◌∷◌, [], map, option_map, IfOk, OnOk, Ok, Err};
ghost use Rattle.c_operand_typing.specs.Calls.{called_of, library_called, place_among, applied, called_by_value};
ghost use Rattle.c_operand_typing.specs.Calls.{called_plainly, callee_number, name_called, plainly_applied};
ghost use Rattle.c_operand_typing.specs.Calls.{pointer_applied, pointer_called, printed, with_callee_type};
ghost use Rattle.c_faults.specs.declared.fault.Refusal.{Refusal};
ghost use Rattle.c_faults.specs.declared.fault.Refusal.TheVariants.{Memory};
ghost use Rattle.c_faults.specs.Answer.{Gives};
ghost use Rattle.c_rules.specs.Values.{value_of};
ghost use Rattle.c_place_rules.specs.Operands.{operand_of};
ghost use Rattle.c_call_rules.specs.FunctionTypes.{callee_type};
ghost use Rattle.c_call_rules.specs.Printing.{format_of};
ghost use Rattle.c_scope.specs.Names.{meaning};
ghost use Rattle.c_call_rules.specs.Calls.{callee_of};
ghost use Rattle.c_typing_state.specs.State.{Types, state_of};

use crate::{operators, primaries};
use c_call_rules::callee::Callee;
use c_call_rules::calling::{called, called_through};
use c_call_rules::function_type::callee_type;
use c_call_rules::printing::{Format, formatted};
use c_faults::Refusal;
use c_place_rules::operand::Operand;
use c_rules::TypedValue;
use c_rules::holding::beside;
use c_scope::meaning::{Designated, LibraryFunction, Meaning};
use c_tree::{CType, Routine, TypeWord, routine_type, same_words};
use c_typing_state::Typer;
use sb_base::Line;
use std::alloc::{AllocError, Global};

/// What is called.
#[derive(Drop)]
pub enum Called {
    /// A function of the source by its plain name: its number and its type.
    Function(usize, CType),
    /// A routine of the library.
    Library(Routine),
    /// `printf`.
    Printf,
    /// What a value points to.
    Pointer(TypedValue),
}

fn library_called(function: LibraryFunction) -> Called
    ensures { called_of result ≡ library_called function }
{
    match function {
        LibraryFunction::Routine(routine) => Called::Library(routine),
        LibraryFunction::Printf => Called::Printf,
    }
}

// The place of a type among others, or their number.
fn place_among(words: &[TypeWord], types: &[CType]) -> usize
    ensures { result ≡ place_among words.now types.now }
{
    let mut place = 0;
    for c_type in types {
        if same_words(words, c_type.words()) {
            return place;
        }
        place += 1;
    }
    place
}

/// What the plain name before a `(` calls. The rules are those of `named` and `value`.
pub fn name_called(
    typer: &mut Typer,
    is_evaluated: bool,
    name: &[u8],
    line: Line,
) -> Result<Called, Refusal>
    ensures { Types called_of (state_of typer.new) result
        (name_called is_evaluated name.now line (state_of typer.old)) }
{
    let called = match called_plainly(typer, name)? {
        Some(called) => called,
        None => called_by_value(typer, is_evaluated, name, line)?,
    };
    primaries::count_use(typer, is_evaluated, name, line);
    Ok(called)
}

// A function of the source or of the library, if the name is one.
fn called_plainly(typer: &Typer, name: &[u8]) -> Result<Option<Called>, Refusal>
    ensures { Gives (option_map called_of) result
        (Ok (called_plainly (meaning name.now (state_of typer.now).environment.names))) }
{
    match typer.environment.names.get(name) {
        Some(Meaning::Named(Designated::Function(number), c_type)) => {
            let c_type = CType::new(c_type.words().to_vec(typer.alloc)?);
            Ok(Some(Called::Function(*number, c_type)))
        }
        Some(Meaning::Named(Designated::Library(function), _)) => {
            Ok(Some(library_called(*function)))
        }
        _ => Ok(None),
    }
}

/// What the value of an operand points to. The rules are those of `value`.
pub fn pointer_called(typer: &Typer, operand: Operand) -> Result<Called, Refusal>
    ensures { Gives called_of result (pointer_called (operand_of operand) (state_of typer.now)) }
{
    let value = operators::value(typer, operand)?;
    Ok(Called::Pointer(value))
}

/// A call of these arguments, with the line of its `(`. The rules are those of `called` and `called_through`.
pub fn applied(
    typer: &mut Typer,
    line: Line,
    callee: Called,
    arguments: Vec<TypedValue>,
) -> Result<Operand, Refusal>
    ensures { Types operand_of (state_of typer.new) result
        (applied line (called_of callee) (map value_of arguments.items) (state_of typer.old)) }
{
    match callee {
        Called::Function(number, c_type) => {
            plainly_applied(
                typer,
                line,
                Callee::Function(number),
                c_type.words(),
                arguments,
            )
        }
        Called::Library(routine) => {
            plainly_applied(
                typer,
                line,
                Callee::Library(routine),
                routine_type(routine),
                arguments,
            )
        }
        Called::Printf => printed(typer, line, None, arguments),
        Called::Pointer(value) => pointer_applied(typer, line, value, arguments),
    }
}

fn called_by_value(
    typer: &Typer,
    is_evaluated: bool,
    name: &[u8],
    line: Line,
) -> Result<Called, Refusal>
    ensures { Gives called_of result (called_by_value is_evaluated line
        (meaning name.now (state_of typer.now).environment.names) (state_of typer.now)) }
{
    let operand = primaries::meant(typer, is_evaluated, name, line)?;
    pointer_called(typer, operand)
}

fn plainly_applied(
    typer: &Typer,
    line: Line,
    callee: Callee,
    words: &[TypeWord],
    arguments: Vec<TypedValue>,
) -> Result<Operand, Refusal>
    ensures { Gives operand_of result (plainly_applied line (callee_of callee) words.now
        (map value_of arguments.items) (state_of typer.now)) }
{
    let value = called(typer.alloc, typer.extents(), line, callee, words, arguments)?;
    Ok(Operand::Value(value))
}

/// A call of `printf` of a first argument and those behind it. The rules are those of `formatted`.
pub fn printed(
    typer: &Typer,
    line: Line,
    format: Option<Format>,
    arguments: Vec<TypedValue>,
) -> Result<Operand, Refusal>
    ensures { Gives operand_of result (printed line (option_map format_of format)
        (map value_of arguments.items) (state_of typer.now)) }
{
    let value = formatted(typer.alloc, typer.extents(), line, format, arguments)?;
    Ok(Operand::Value(value))
}

fn pointer_applied(
    typer: &mut Typer,
    line: Line,
    value: TypedValue,
    arguments: Vec<TypedValue>,
) -> Result<Operand, Refusal>
    ensures { Types operand_of (state_of typer.new) result
        (pointer_applied line (value_of value) (map value_of arguments.items) (state_of typer.old)) }
{
    let counted = count_type(typer, value.c_type.words());
    let (value, (arguments, number)) = beside(value, beside(arguments, counted))?;
    let value = called_through(typer.alloc, typer.extents(), line, number, value, arguments)?;
    Ok(Operand::Value(value))
}

// The number of the function type to which a value of a type points, and that type among those that are called.
fn count_type(typer: &mut Typer, words: &[TypeWord]) -> Result<usize, Refusal>
    ensures number { IfOk result (λ number. number ≡ callee_number (callee_type words.now) (state_of typer.old)) }
    ensures added { OnOk result (state_of typer.new ≡ with_callee_type (callee_type words.now) (state_of typer.old)) }
    ensures memory { (e : Refusal) → result ≡ Err e → e ≡ Memory }
{
    let Some(words) = callee_type(words) else {
        return Ok(0);
    };
    let number = place_among(words, &typer.function_types);
    if number >= typer.function_types.len() {
        add_type(typer, words)?;
    }
    Ok(number)
}

fn add_type(typer: &mut Typer, words: &[TypeWord]) -> Result<(), AllocError>
    ensures { OnOk result (state_of typer.new ≡ record (state_of typer.old) {
      function_types = (state_of typer.old).function_types ++ words.now ∷ [];
    }) }
{
    let c_type = CType::new(words.to_vec(typer.alloc)?);
    typer.function_types.push(c_type)?;
    Ok(())
}
