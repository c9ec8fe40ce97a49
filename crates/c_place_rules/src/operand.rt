//! Typed operands: values, lvalues and functions, and the value that each stands for (C99 6.3.2.1).

ghost use Rattle.std.specs.Prelude.{◌≡◌, IfOk, Ok};
ghost use Rattle.c_tree.specs.View.{expression_of, lvalue_of};
ghost use Rattle.c_tree.specs.Valid.{is_lvalue};
ghost use Rattle.c_faults.specs.Answer.{Gives};
ghost use Rattle.c_rules.specs.Values.{value_of};
ghost use Rattle.c_place_rules.specs.Operands.{decayed, element_of, element_pointer, enclosed, enclosed_name};
ghost use Rattle.c_place_rules.specs.Operands.{enclosed_place};
ghost use Rattle.c_place_rules.specs.Operands.{enclosed_tree, enclosed_value, enclosed_variable, function_value};
ghost use Rattle.c_place_rules.specs.Operands.{loaded};
ghost use Rattle.c_place_rules.specs.Operands.{operand_of, place_of, read_value, value_in, variable_of, variable_value};

use crate::target::{pointer_to, unqualified_type};
use c_faults::{Fault, Refusal, Rule};
use c_rules::TypedValue;
use c_rules::holding::beside;
use c_rules::value::unqualified;
use c_tree::{CType, Expression, Kind, Lvalue, LvalueNode, Node, PlainName, TypeWord};
use obj_memory::Scalar;
use sb_base::Line;
use std::alloc::{AllocError, Global};
use tree_containers::Boxed;

/// The kind of a pointer.
pub const POINTER: Kind = Kind::Scalar(Scalar::Pointer);

/// What designates an object or a part of one: its type with all its qualifiers, and its typed tree.
#[derive(Drop)]
pub struct TypedPlace {
    /// Its type.
    pub c_type: CType,
    /// Its tree.
    pub tree: Lvalue,
}

/// The name of a plain variable, maybe in parentheses.
#[derive(Drop)]
pub struct TypedVariable {
    /// The type of the variable with its qualifiers.
    pub c_type: CType,
    /// Which variable it is, and the parentheses around its name.
    pub name: PlainName,
    /// The tree that gives its value.
    pub tree: Expression,
}

/// An operand.
#[derive(Drop)]
pub enum Operand {
    /// A value.
    Value(TypedValue),
    /// An object or a part of one, or a member of a structure value.
    Place(TypedPlace),
    /// A plain variable. One of which the text takes the address is an object.
    Variable(TypedVariable),
    /// A function: its type is that of the function, and its tree a pointer to it.
    Function(TypedValue),
}

/// The value of an operand: what an lvalue holds, the pointer to the first element of an array, the pointer to a
/// function
/// (C99 6.3.2.1). The rule on arrays of values is violated, at the `.`, by an array member of a structure that is no
/// lvalue.
pub fn value_in(alloc: Global, operand: Operand) -> Result<TypedValue, Refusal>
    ensures { Gives value_of result (value_in (operand_of operand)) }
{
    match operand {
        Operand::Value(value) => Ok(value),
        Operand::Place(place) => loaded(alloc, place),
        Operand::Variable(variable) => variable_value(alloc, variable),
        Operand::Function(function) => function_value(alloc, function),
    }
}

fn variable_value(alloc: Global, variable: TypedVariable) -> Result<TypedValue, Refusal>
    ensures { Gives value_of result (Ok (variable_value (variable_of variable))) }
{
    let TypedVariable { c_type, tree, .. } = variable;
    let (tree, c_type) = beside(tree, unqualified_type(alloc, c_type.words()))?;
    Ok(TypedValue { c_type, tree })
}

fn function_value(alloc: Global, function: TypedValue) -> Result<TypedValue, Refusal>
    ensures { Gives value_of result (Ok (function_value (value_of function))) }
{
    let TypedValue { c_type, tree } = function;
    let (tree, c_type) = beside(tree, pointer_to(alloc, c_type.words()))?;
    Ok(TypedValue { c_type, tree })
}

// What a place holds, or the pointer to its first element.
fn loaded(alloc: Global, place: TypedPlace) -> Result<TypedValue, Refusal>
    ensures { Gives value_of result (loaded (place_of place)) }
{
    match unqualified(place.c_type.words()) {
        [TypeWord::Array { .. } | TypeWord::OpenArray, ..] => decayed(alloc, place),
        _ => read_value(alloc, place),
    }
}

fn read_value(alloc: Global, place: TypedPlace) -> Result<TypedValue, Refusal>
    ensures { Gives value_of result (read_value (place_of place)) }
{
    let TypedPlace { c_type, tree } = place;
    let kind = tree.kind;
    let line = tree.line;
    let (tree, c_type) = beside(tree, unqualified_type(alloc, c_type.words()))?;
    let node = Node::Read(Boxed::new(alloc, tree)?);
    let tree = Expression { kind, line, node };
    Ok(TypedValue { c_type, tree })
}

fn decayed(alloc: Global, place: TypedPlace) -> Result<TypedValue, Refusal>
    ensures { Gives value_of result (decayed (place_of place)) }
{
    let c_type = element_pointer(alloc, &place);
    let (tree, c_type) = beside(place.tree, c_type)?;
    let line = tree.line;
    let node = Node::Decay(Boxed::new(alloc, tree)?);
    let kind = POINTER;
    let tree = Expression { kind, line, node };
    Ok(TypedValue { c_type, tree })
}

// The type of pointers to the elements of an array that has an address.
fn element_pointer(alloc: Global, place: &TypedPlace) -> Result<CType, Refusal>
    ensures { Gives (λ c_type. c_type) result (element_pointer (place_of place.now)) }
{
    if !is_lvalue(&place.tree) {
        let rule = Rule::ArrayOfValue;
        let line = place.tree.line;
        return Err(Refusal::Fault(Fault { rule, line }));
    }
    let c_type = pointer_to(alloc, element_of(place.c_type.words()))?;
    Ok(c_type)
}

// The type of the elements of an array.
fn element_of(words: &[TypeWord]) -> &[TypeWord]
    ensures { result.now ≡ element_of words.now }
{
    match words {
        [TypeWord::Const, behind @ ..] => element_of(behind),
        [TypeWord::Array { .. } | TypeWord::OpenArray, element @ ..] => element,
        _ => words,
    }
}

/// Whether it has an address and may be assigned: a member of a structure value may not (C99 6.5.2.3 paragraph 3).
pub fn is_lvalue(tree: &Lvalue) -> bool
    ensures { result ≡ is_lvalue (lvalue_of tree.now) }
{
    match &tree.node {
        LvalueNode::Member(inner, ..) => is_lvalue(inner.get()),
        LvalueNode::Parenthesized(inner) => is_lvalue(inner.get()),
        LvalueNode::MemberOfValue(..) => false,
        _ => true,
    }
}

/// An operand in parentheses, with the line of the `(`: it stays what it is (C99 6.5.1 paragraph 5).
pub fn enclosed(alloc: Global, line: Line, operand: Operand) -> Result<Operand, Refusal>
    ensures { Gives operand_of result (enclosed line (operand_of operand)) }
{
    match operand {
        Operand::Value(value) => Ok(Operand::Value(enclosed_value(alloc, line, value)?)),
        Operand::Place(place) => Ok(Operand::Place(enclosed_place(alloc, place)?)),
        Operand::Variable(variable) => {
            let variable = enclosed_variable(alloc, line, variable)?;
            Ok(Operand::Variable(variable))
        }
        Operand::Function(function) => {
            Ok(Operand::Function(enclosed_value(alloc, line, function)?))
        }
    }
}

fn enclosed_value(alloc: Global, line: Line, value: TypedValue) -> Result<TypedValue, AllocError>
    ensures { IfOk result (λ value'. value_of value' ≡ enclosed_value line (value_of value)) }
{
    let TypedValue { c_type, tree } = value;
    let tree = enclosed_tree(alloc, line, tree)?;
    Ok(TypedValue { c_type, tree })
}

fn enclosed_variable(
    alloc: Global,
    line: Line,
    variable: TypedVariable,
) -> Result<TypedVariable, AllocError>
    ensures { IfOk result (λ variable'. variable_of variable' ≡ enclosed_variable line (variable_of variable)) }
{
    let TypedVariable { c_type, name, tree } = variable;
    let tree = enclosed_tree(alloc, line, tree)?;
    let name = enclosed_name(name);
    Ok(TypedVariable { c_type, name, tree })
}

fn enclosed_tree(alloc: Global, line: Line, tree: Expression) -> Result<Expression, AllocError>
    ensures { IfOk result (λ tree'. expression_of tree' ≡ enclosed_tree line (expression_of tree)) }
{
    let kind = tree.kind;
    let node = Node::Parenthesized(Boxed::new(alloc, tree)?);
    Ok(Expression { kind, line, node })
}

fn enclosed_place(alloc: Global, place: TypedPlace) -> Result<TypedPlace, AllocError>
    ensures { IfOk result (λ place'. place_of place' ≡ enclosed_place (place_of place)) }
{
    let TypedPlace { c_type, tree } = place;
    let kind = tree.kind;
    let line = tree.line;
    let node = LvalueNode::Parenthesized(Boxed::new(alloc, tree)?);
    let tree = Lvalue { kind, line, node };
    Ok(TypedPlace { c_type, tree })
}

fn enclosed_name(name: PlainName) -> PlainName
    ensures { result ≡ enclosed_name name }
{
    PlainName {
        variable: name.variable,
        parentheses: name.parentheses.saturating_add(1),
    }
}
