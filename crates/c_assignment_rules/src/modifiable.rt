//! What may be written (C99 6.3.2.1 paragraph 1).

ghost use Rattle.std.specs.Prelude.{◌≡◌, get_or, false};
ghost use Rattle.c_faults.specs.Answer.{Gives};
ghost use Rattle.c_place_rules.specs.Operands.{operand_of, place_of, variable_of};
ghost use Rattle.c_assignment_rules.specs.Assignable.{assignable, has_const, is_array_type, is_unsized_structure};
ghost use Rattle.c_assignment_rules.specs.Assignable.{place_rule, variable_rule, write_rule};

use c_faults::{Refusal, Rule};
use c_place_rules::operand::is_lvalue;
use c_place_rules::refusal::refused;
use c_place_rules::{Operand, TypedPlace, TypedVariable};
use c_tree::{Kind, TypeWord};
use sb_base::Line;

/// An operand that may be written, with the line of the operator, where the list tells of each structure and union, by
/// number, whether it has a const member, also within members. The rule on incomplete types is violated by an lvalue of
/// a structure or union that is incomplete where it is named, that on writes by what is no lvalue, by an array, and by
/// what is const or has a const member.
pub fn assignable(with_const: &[bool], line: Line, operand: Operand) -> Result<Operand, Refusal>
    ensures { Gives operand_of result (assignable with_const.now line (operand_of operand)) }
{
    match write_rule(with_const, &operand) {
        Some(rule) => refused(operand, rule, line),
        None => Ok(operand),
    }
}

fn write_rule(with_const: &[bool], operand: &Operand) -> Option<Rule>
    ensures { result ≡ write_rule with_const.now (operand_of operand.now) }
{
    match operand {
        Operand::Place(place) => place_rule(with_const, place),
        Operand::Variable(variable) => variable_rule(with_const, variable),
        Operand::Value(_) | Operand::Function(_) => Some(Rule::NotAssignable),
    }
}

fn place_rule(with_const: &[bool], place: &TypedPlace) -> Option<Rule>
    ensures { result ≡ place_rule with_const.now (place_of place.now) }
{
    let words = place.c_type.words();
    if is_unsized_structure(place.tree.kind) {
        return Some(Rule::Incomplete);
    }
    if !is_lvalue(&place.tree) || (is_array_type(words) || has_const(with_const, words)) {
        return Some(Rule::NotAssignable);
    }
    None
}

fn variable_rule(with_const: &[bool], variable: &TypedVariable) -> Option<Rule>
    ensures { result ≡ variable_rule with_const.now (variable_of variable.now) }
{
    if has_const(with_const, variable.c_type.words()) {
        Some(Rule::NotAssignable)
    } else {
        None
    }
}

/// Whether a type is const or has a const part: a const member, also within members and elements, of the structures
/// and unions of which the list tells, by number, that they have one. A structure has one where this holds of the type
/// of a member.
pub fn has_const(with_const: &[bool], words: &[TypeWord]) -> bool
    ensures { result ≡ has_const with_const.now words.now }
{
    match words {
        [TypeWord::Const, ..] => true,
        [TypeWord::Array { .. } | TypeWord::OpenArray, element @ ..] => {
            has_const(with_const, element)
        }
        [TypeWord::Structure(number), ..] => structure_has_const(with_const, *number),
        _ => false,
    }
}

fn structure_has_const(with_const: &[bool], number: usize) -> bool
    ensures { result ≡ get_or with_const.now number false }
{
    match with_const.get(number) {
        Some(has_const) => *has_const,
        None => false,
    }
}

fn is_array_type(words: &[TypeWord]) -> bool
    ensures { result ≡ is_array_type words.now }
{
    match words {
        [TypeWord::Array { .. } | TypeWord::OpenArray, ..] => true,
        [TypeWord::Const, behind @ ..] => is_array_type(behind),
        _ => false,
    }
}

fn is_unsized_structure(kind: Kind) -> bool
    ensures { result ≡ is_unsized_structure kind }
{
    match kind {
        Kind::Structure(bytes) => bytes == 0,
        _ => false,
    }
}
