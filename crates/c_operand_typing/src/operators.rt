//! The operators of the syntax, on operands that are typed (C99 6.5.2 to 6.5.17).

ghost use Rattle.std.specs.Prelude.{◌≡◌, ◌+◌, ◌<◌, length, OnOk, option_copied, option_map};
ghost use Rattle.c_faults.specs.Answer.{Gives};
ghost use Rattle.c_rules.specs.Values.{value_of};
ghost use Rattle.c_place_rules.specs.Operands.{operand_of};
ghost use Rattle.c_tree.specs.View.{lvalue_of};
ghost use Rattle.c_operand_typing.specs.Operators.{is_array_type, is_readable, lengthened, marked, structure_behind};
ghost use Rattle.c_operand_typing.specs.Operators.{unreadable, value_among, variable_named, addressed, arrowed};
ghost use Rattle.c_operand_typing.specs.Operators.{assigned_by, combined, dotted, indexed, member_in, object_taken};
ghost use Rattle.c_operand_typing.specs.Operators.{stepped_by, unary_value};
ghost use Rattle.c_place_rules.specs.Places.{member_view};
ghost use Rattle.c_typing_state.specs.State.{Types, extents, state_of};

use crate::forms::{AssignmentForm, BinaryForm, PrefixForm};
use c_assignment_rules::{assignment, compound, stepped};
use c_faults::{Refusal, Rule};
use c_place_rules::operand::{Operand, value_in};
use c_place_rules::place::{address, arrow, dereferenced, selected, structure_number, type_in};
use c_place_rules::refusal::refused;
use c_rules::unary::unary;
use c_rules::value::unqualified;
use c_rules::{TypedValue, binary, comma, logical};
use c_tree::{Extent, Fixity, Lvalue, LvalueNode, Member, TypeWord};
use c_typing_state::Typer;
use sb_base::Line;
use std::alloc::{AllocError, Global};

/// The value of an operand, among structures and unions with these extents (C99 6.3.2.1). The rule on incomplete types
/// is violated by an lvalue, no array, whose type is not complete, and then those of `value_in`.
pub fn value_among(
    alloc: Global,
    extents: &[Option<Extent>],
    operand: Operand,
) -> Result<TypedValue, Refusal>
    ensures { Gives value_of result (value_among extents.now (operand_of operand)) }
{
    if let Some(line) = unreadable(extents, &operand) {
        return refused(operand, Rule::Incomplete, line);
    }
    value_in(alloc, operand)
}

// The line of an lvalue that is not read, since its type is incomplete.
fn unreadable(extents: &[Option<Extent>], operand: &Operand) -> Option<Line>
    ensures { result ≡ unreadable extents.now (operand_of operand.now) }
{
    match operand {
        Operand::Place(place) if !is_readable(extents, place.c_type.words()) => {
            Some(place.tree.line)
        }
        _ => None,
    }
}

fn is_readable(extents: &[Option<Extent>], words: &[TypeWord]) -> bool
    ensures { result ≡ is_readable extents.now words.now }
{
    is_array_type(unqualified(words)) || Extent::of_type(extents, words).is_some()
}

fn is_array_type(words: &[TypeWord]) -> bool
    ensures { result ≡ is_array_type words.now }
{
    matches!(words, [TypeWord::Array { .. } | TypeWord::OpenArray, ..])
}

// The variable whose name an lvalue is, parentheses aside.
fn variable_named(place: &Lvalue) -> Option<usize>
    ensures { result ≡ variable_named (lvalue_of place.now) }
{
    match &place.node {
        LvalueNode::Automatic(number) => Some(*number),
        LvalueNode::Parenthesized(inner) => variable_named(inner.get()),
        _ => None,
    }
}

// Marks of at least one more than a number.
fn lengthen(marks: &mut Vec<bool>, number: usize) -> Result<(), AllocError>
    ensures value { OnOk result (marks.new.items ≡ lengthened (number + 1) marks.old.items) }
    ensures long { OnOk result (number < length marks.new.items) }
{
    while marks.len() <= number {
        marks.push(false)?;
    }
    Ok(())
}

// Marks of which that of a number is set.
fn mark(marks: &mut Vec<bool>, number: usize) -> Result<(), AllocError>
    ensures { OnOk result (marks.new.items ≡ marked number marks.old.items) }
{
    lengthen(marks, number)?;
    marks[number] = true;
    Ok(())
}

/// The value of an operand, by `value_among`.
pub fn value(typer: &Typer, operand: Operand) -> Result<TypedValue, Refusal>
    ensures { Gives value_of result (value_among (extents (state_of typer.now)) (operand_of operand)) }
{
    value_among(typer.alloc, typer.extents(), operand)
}

/// `&` of an operand. The rule is that of `address`.
pub fn addressed(
    typer: &mut Typer,
    is_evaluated: bool,
    line: Line,
    operand: Operand,
) -> Result<TypedValue, Refusal>
    ensures { Types value_of (state_of typer.new) result
        (addressed is_evaluated line (operand_of operand) (state_of typer.old)) }
{
    if is_evaluated {
        take(typer, &operand)?;
    }
    address(typer.alloc, line, operand)
}

// The text takes the address of an operand.
fn take(typer: &mut Typer, operand: &Operand) -> Result<(), AllocError>
    ensures { OnOk result (state_of typer.new ≡ object_taken (operand_of operand.now) (state_of typer.old)) }
{
    match operand {
        Operand::Place(place) => match variable_named(&place.tree) {
            Some(number) => mark(&mut typer.taken, number),
            None => Ok(()),
        },
        _ => Ok(()),
    }
}

/// `*`, `+`, `-`, `~` or `!` of a value. The rules are those of `dereferenced` and `unary`.
pub fn unary_value(
    typer: &Typer,
    form: PrefixForm,
    line: Line,
    value: TypedValue,
) -> Result<Operand, Refusal>
    ensures { Gives operand_of result (unary_value form line (value_of value) (state_of typer.now)) }
{
    match form {
        PrefixForm::Value(operator) => {
            let value = unary(typer.alloc, typer.extents(), operator, line, value)?;
            Ok(Operand::Value(value))
        }
        PrefixForm::Dereference => dereferenced(typer.alloc, typer.extents(), line, value),
        _ => refused(value, Rule::Operands, line),
    }
}

/// `++` or `--` of an operand. The rules are those of `stepped`.
pub fn stepped_by(
    typer: &Typer,
    form: PrefixForm,
    fixity: Fixity,
    line: Line,
    operand: Operand,
) -> Result<Operand, Refusal>
    ensures { Gives operand_of result
        (stepped_by form fixity line (operand_of operand) (state_of typer.now)) }
{
    let PrefixForm::Step(operator) = form else {
        return refused(operand, Rule::Operands, line);
    };
    let (extents, with_const) = (typer.extents(), typer.with_const());
    let value = stepped(
        typer.alloc,
        extents,
        with_const,
        operator,
        fixity,
        line,
        operand,
    )?;
    Ok(Operand::Value(value))
}

/// `[]` of two values. The rule is that of `indexed`.
pub fn indexed(
    typer: &Typer,
    line: Line,
    left: TypedValue,
    right: TypedValue,
) -> Result<Operand, Refusal>
    ensures { Gives operand_of result
        (indexed line (value_of left) (value_of right) (state_of typer.now)) }
{
    let place = c_place_rules::place::indexed(typer.alloc, typer.extents(), line, left, right)?;
    Ok(Operand::Place(place))
}

// The member of this name of a structure or union.
fn member_in<'t>(typer: &'t Typer, number: Option<usize>, name: &[u8]) -> Option<&'t Member>
    ensures { option_map member_view (option_copied result) ≡ member_in number name.now (state_of typer.now) }
{
    match number {
        None => None,
        Some(number) => typer.environment.structures.member(number, name),
    }
}

/// `.` of an operand. The rule is that of `selected`.
pub fn dotted(typer: &Typer, line: Line, name: &[u8], operand: Operand) -> Result<Operand, Refusal>
    ensures { Gives operand_of result (dotted line name.now (operand_of operand) (state_of typer.now)) }
{
    let found = member_in(typer, structure_number(type_in(&operand)), name);
    let place = selected(typer.alloc, line, found, operand)?;
    Ok(Operand::Place(place))
}

/// `->` of a value. The rule is that of `arrow`; none but a pointer has a member.
pub fn arrowed(
    typer: &Typer,
    line: Line,
    name: &[u8],
    value: TypedValue,
) -> Result<Operand, Refusal>
    ensures { Gives operand_of result (arrowed line name.now (value_of value) (state_of typer.now)) }
{
    let number = structure_behind(unqualified(value.c_type.words()));
    let found = member_in(typer, number, name);
    let place = arrow(typer.alloc, line, found, value)?;
    Ok(Operand::Place(place))
}

/// An operator between two values. The rules are those of `comma`, `logical` and `binary`.
pub fn combined(
    typer: &Typer,
    form: BinaryForm,
    line: Line,
    left: TypedValue,
    right: TypedValue,
) -> Result<Operand, Refusal>
    ensures { Gives operand_of result
        (combined form line (value_of left) (value_of right) (state_of typer.now)) }
{
    let alloc = typer.alloc;
    let extents = typer.extents();
    let value = match form {
        BinaryForm::Comma => comma(alloc, line, left, right)?,
        BinaryForm::Logical(operator) => { logical(alloc, extents, operator, line, left, right)? }
        BinaryForm::Value(operator) => binary(alloc, extents, operator, line, left, right)?,
        BinaryForm::Nothing => return refused((left, right), Rule::Operands, line),
    };
    Ok(Operand::Value(value))
}

/// An assignment of a value to an operand. The rules are those of `assignment` and `compound`.
pub fn assigned_by(
    typer: &Typer,
    form: AssignmentForm,
    line: Line,
    left: Operand,
    right: TypedValue,
) -> Result<Operand, Refusal>
    ensures { Gives operand_of result
        (assigned_by form line (operand_of left) (value_of right) (state_of typer.now)) }
{
    let alloc = typer.alloc;
    let (extents, marks) = (typer.extents(), typer.with_const());
    let value = match form {
        AssignmentForm::Simple => assignment(alloc, extents, marks, line, left, right)?,
        AssignmentForm::Compound(operator) => {
            compound(alloc, extents, marks, operator, line, left, right)?
        }
        AssignmentForm::Nothing => return refused((left, right), Rule::Operands, line),
    };
    Ok(Operand::Value(value))
}

// The structure or union to which a pointer points.
fn structure_behind(words: &[TypeWord]) -> Option<usize>
    ensures { result ≡ structure_behind words.now }
{
    match words {
        [TypeWord::Pointer, target @ ..] => structure_number(target),
        _ => None,
    }
}
