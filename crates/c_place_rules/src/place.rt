//! `*`, `&`, `[]`, `.`, `->` and `sizeof` (C99 6.5.2.1, 6.5.2.3, 6.5.3.2, 6.5.3.4).

ghost use Rattle.std.specs.Prelude.{◌≡◌, option_map, Ok};
ghost use Rattle.c_faults.specs.Answer.{Gives};
ghost use Rattle.c_rules.specs.Values.{value_of};
ghost use Rattle.c_place_rules.specs.Operands.{a_function, a_place, operand_of, place_of};
ghost use Rattle.c_place_rules.specs.Places.{address, arrow, dereferenced, designated, element_view, function_address};
ghost use Rattle.c_place_rules.specs.Places.{function_behind};
ghost use Rattle.c_place_rules.specs.Places.{indexed, member_behind, member_of_place, member_of_value, member_view};
ghost use Rattle.c_place_rules.specs.Places.{object_behind};
ghost use Rattle.c_place_rules.specs.Places.{place_address, place_pointer, selected, selected_in, size_of};
ghost use Rattle.c_place_rules.specs.Places.{structure_of, subscript};
ghost use Rattle.c_place_rules.specs.Places.{type_in};

use crate::operand::{Operand, POINTER, TypedPlace, is_lvalue};
use crate::refusal::refused;
use crate::target::{is_const, object_kind, pointee, pointee_type, pointer_to, qualified, target};
use c_faults::{Fault, Refusal, Rule};
use c_rules::holding::{beside, boxed_pair};
use c_rules::value::{integer, typed};
use c_rules::{Class, Target, TypedValue};
use c_tree::{CType, Expression, Extent, Lvalue, LvalueNode, Member, Node, OffsetForm, TypeWord};
use obj_memory::IntType;
use sb_base::Line;
use std::alloc::Global;
use tree_containers::Boxed;

/// `*` of a pointer: the object or the function that it points to. The rule on targets is violated by what is no
/// pointer to
/// a complete object type or function type.
#[tactic(auto, unfolding(crate::specs::Places::dereferenced))]
pub fn dereferenced(
    alloc: Global,
    structures: &[Option<Extent>],
    line: Line,
    pointer: TypedValue,
) -> Result<Operand, Refusal>
    ensures { Gives operand_of result (dereferenced structures.now line (value_of pointer)) }
{
    match Class::of(structures, pointer.c_type.words()) {
        Class::Pointer(Target::Object(size)) => object_behind(alloc, size, line, pointer),
        Class::Pointer(Target::Function) => function_behind(alloc, line, pointer),
        _ => refused(pointer, Rule::NoTarget, line),
    }
}

fn object_behind(
    alloc: Global,
    size: u64,
    line: Line,
    pointer: TypedValue,
) -> Result<Operand, Refusal>
    ensures { Gives operand_of result (Ok (a_place (object_behind size line (value_of pointer)))) }
{
    let TypedValue { c_type, tree } = pointer;
    let (tree, c_type) = beside(tree, pointee_type(alloc, c_type.words()))?;
    let kind = object_kind(size, c_type.words());
    let node = LvalueNode::Deref(Boxed::new(alloc, tree)?);
    let tree = Lvalue { kind, line, node };
    Ok(Operand::Place(TypedPlace { c_type, tree }))
}

fn function_behind(alloc: Global, line: Line, pointer: TypedValue) -> Result<Operand, Refusal>
    ensures { Gives operand_of result (Ok (a_function (function_behind line (value_of pointer)))) }
{
    let TypedValue { c_type, tree } = pointer;
    let (tree, c_type) = beside(tree, pointee_type(alloc, c_type.words()))?;
    let node = Node::DerefFunction(Boxed::new(alloc, tree)?);
    let kind = POINTER;
    let tree = Expression { kind, line, node };
    Ok(Operand::Function(TypedValue { c_type, tree }))
}

/// `&` of an lvalue or a function. The rule on addresses is violated by any other operand; a plain variable is one,
/// since
/// one of which the text takes the address is an object.
pub fn address(alloc: Global, line: Line, operand: Operand) -> Result<TypedValue, Refusal>
    ensures { Gives value_of result (address line (operand_of operand)) }
{
    match operand {
        Operand::Place(place) => place_address(alloc, line, place),
        Operand::Function(function) => function_address(alloc, line, function),
        Operand::Value(value) => refused(value, Rule::NoAddress, line),
        Operand::Variable(variable) => refused(variable, Rule::NoAddress, line),
    }
}

fn place_address(alloc: Global, line: Line, place: TypedPlace) -> Result<TypedValue, Refusal>
    ensures { Gives value_of result (place_address line (place_of place)) }
{
    let c_type = place_pointer(alloc, line, &place);
    let (tree, c_type) = beside(place.tree, c_type)?;
    let node = Node::Address(Boxed::new(alloc, tree)?);
    let kind = POINTER;
    let tree = Expression { kind, line, node };
    Ok(TypedValue { c_type, tree })
}

// The type of pointers to what has an address.
fn place_pointer(alloc: Global, line: Line, place: &TypedPlace) -> Result<CType, Refusal>
    ensures { Gives (λ c_type. c_type) result (place_pointer line (place_of place.now)) }
{
    if !is_lvalue(&place.tree) {
        let rule = Rule::NoAddress;
        return Err(Refusal::Fault(Fault { rule, line }));
    }
    let c_type = pointer_to(alloc, place.c_type.words())?;
    Ok(c_type)
}

fn function_address(alloc: Global, line: Line, function: TypedValue) -> Result<TypedValue, Refusal>
    ensures { Gives value_of result (Ok (function_address line (value_of function))) }
{
    let TypedValue { c_type, tree } = function;
    let (tree, c_type) = beside(tree, pointer_to(alloc, c_type.words()))?;
    let node = Node::AddressFunction(Boxed::new(alloc, tree)?);
    let kind = POINTER;
    let tree = Expression { kind, line, node };
    Ok(TypedValue { c_type, tree })
}

/// `[]` of a pointer and an integer, in either order. The rule on targets is violated by any others, and by a pointer
/// to
/// what is no complete object type.
#[tactic(auto, unfolding(crate::specs::Places::indexed))]
pub fn indexed(
    alloc: Global,
    structures: &[Option<Extent>],
    line: Line,
    left: TypedValue,
    right: TypedValue,
) -> Result<TypedPlace, Refusal>
    ensures { Gives place_of result (indexed structures.now line (value_of left) (value_of right)) }
{
    let element = designated(alloc, structures, line, &left, &right);
    let (left, (right, element)) = beside(left.tree, beside(right.tree, element))?;
    let (left, right) = boxed_pair(alloc, left, right)?;
    let Element { form, size, c_type } = element;
    let kind = object_kind(size, c_type.words());
    let node = LvalueNode::Index(form, size, left, right);
    let tree = Lvalue { kind, line, node };
    Ok(TypedPlace { c_type, tree })
}

// What `[]` designates: where the pointer stands, the bytes of an element, and its type.
#[derive(Drop)]
struct Element {
    form: OffsetForm,
    size: u64,
    c_type: CType,
}

fn designated(
    alloc: Global,
    structures: &[Option<Extent>],
    line: Line,
    left: &TypedValue,
    right: &TypedValue,
) -> Result<Element, Refusal>
    ensures { Gives element_view result (designated structures.now line (value_of left.now) (value_of right.now)) }
{
    let left_class = Class::of(structures, left.c_type.words());
    let right_class = Class::of(structures, right.c_type.words());
    let Some((form, size)) = subscript(left_class, right_class) else {
        let rule = Rule::NoTarget;
        return Err(Refusal::Fault(Fault { rule, line }));
    };
    let pointer = match form {
        OffsetForm::PointerPlusIndex | OffsetForm::PointerMinusIndex => left,
        OffsetForm::IndexPlusPointer => right,
    };
    let c_type = pointee_type(alloc, pointer.c_type.words())?;
    Ok(Element { form, size, c_type })
}

fn subscript(left: Class, right: Class) -> Option<(OffsetForm, u64)>
    ensures { result ≡ subscript left right }
{
    match (left, right) {
        (Class::Pointer(Target::Object(size)), Class::Integer(_)) => {
            Some((OffsetForm::PointerPlusIndex, size))
        }
        (Class::Integer(_), Class::Pointer(Target::Object(size))) => {
            Some((OffsetForm::IndexPlusPointer, size))
        }
        _ => None,
    }
}

/// The number of the structure or union that a type is, in which the member of a `.` is looked up; that of a `->` is
/// looked
/// up in what the pointer points to (`target::pointee`).
pub fn structure_number(words: &[TypeWord]) -> Option<usize>
    ensures { result ≡ structure_of words.now }
{
    match words {
        [TypeWord::Const, behind @ ..] => structure_number(behind),
        [TypeWord::Structure(number), ..] => Some(*number),
        _ => None,
    }
}

/// `.` of an operand: its member, if its structure or union was found to have it. The rule on members is violated where
/// it
/// was not.
pub fn selected(
    alloc: Global,
    line: Line,
    found: Option<&Member>,
    operand: Operand,
) -> Result<TypedPlace, Refusal>
    ensures { Gives place_of result
        (selected line (option_map (λ m. member_view m.now) found.entry) (operand_of operand)) }
{
    match found {
        Some(found) => selected_in(alloc, line, found, operand),
        None => refused(operand, Rule::NoMember, line),
    }
}

fn selected_in(
    alloc: Global,
    line: Line,
    found: &Member,
    operand: Operand,
) -> Result<TypedPlace, Refusal>
    ensures { Gives place_of result (selected_in line (member_view found.now) (operand_of operand)) }
{
    match operand {
        Operand::Value(value) => member_of_value(alloc, line, found, value),
        Operand::Place(place) => member_of_place(alloc, line, found, place),
        Operand::Variable(variable) => refused(variable, Rule::NoMember, line),
        Operand::Function(function) => refused(function, Rule::NoMember, line),
    }
}

fn member_of_value(
    alloc: Global,
    line: Line,
    found: &Member,
    value: TypedValue,
) -> Result<TypedPlace, Refusal>
    ensures { Gives place_of result (Ok (member_of_value line (member_view found.now) (value_of value))) }
{
    let c_type = qualified(alloc, false, found.c_type.words());
    let (tree, c_type) = beside(value.tree, c_type)?;
    let kind = object_kind(found.size, c_type.words());
    let node = LvalueNode::MemberOfValue(Boxed::new(alloc, tree)?, found.offset, found.size);
    let tree = Lvalue { kind, line, node };
    Ok(TypedPlace { c_type, tree })
}

fn member_of_place(
    alloc: Global,
    line: Line,
    found: &Member,
    place: TypedPlace,
) -> Result<TypedPlace, Refusal>
    ensures { Gives place_of result (Ok (member_of_place line (member_view found.now) (place_of place))) }
{
    let is_const = is_const(place.c_type.words());
    let c_type = qualified(alloc, is_const, found.c_type.words());
    let (tree, c_type) = beside(place.tree, c_type)?;
    let kind = object_kind(found.size, c_type.words());
    let node = LvalueNode::Member(Boxed::new(alloc, tree)?, found.offset, found.size);
    let tree = Lvalue { kind, line, node };
    Ok(TypedPlace { c_type, tree })
}

/// `->` of a pointer: the member of what it points to, if that was found to have it. The rule on members is violated
/// where
/// it was not.
pub fn arrow(
    alloc: Global,
    line: Line,
    found: Option<&Member>,
    pointer: TypedValue,
) -> Result<TypedPlace, Refusal>
    ensures { Gives place_of result (arrow line (option_map (λ m. member_view m.now) found.entry) (value_of pointer)) }
{
    match found {
        Some(found) => member_behind(alloc, line, found, pointer),
        None => refused(pointer, Rule::NoMember, line),
    }
}

fn member_behind(
    alloc: Global,
    line: Line,
    found: &Member,
    pointer: TypedValue,
) -> Result<TypedPlace, Refusal>
    ensures { Gives place_of result (Ok (member_behind line (member_view found.now) (value_of pointer))) }
{
    let is_const = is_const(pointee(pointer.c_type.words()));
    let c_type = qualified(alloc, is_const, found.c_type.words());
    let (tree, c_type) = beside(pointer.tree, c_type)?;
    let kind = object_kind(found.size, c_type.words());
    let node = LvalueNode::Arrow(Boxed::new(alloc, tree)?, found.offset, found.size);
    let tree = Lvalue { kind, line, node };
    Ok(TypedPlace { c_type, tree })
}

/// `sizeof` of a type, or of an operand of this type: its bytes. The rule on incomplete types is violated by an
/// incomplete
/// one, the rule on operands by that of a function.
#[tactic(auto, unfolding(crate::specs::Places::size_of))]
pub fn size_of(
    alloc: Global,
    structures: &[Option<Extent>],
    line: Line,
    words: &[TypeWord],
) -> Result<TypedValue, Refusal>
    ensures { Gives value_of result (size_of structures.now line words.now) }
{
    match target(structures, words) {
        Target::Object(size) => {
            let kind = integer(IntType::UnsignedLong);
            let node = Node::Constant(size);
            typed(
                alloc,
                IntType::UnsignedLong,
                Expression { kind, line, node },
            )
        }
        Target::Function => {
            let rule = Rule::Operands;
            Err(Refusal::Fault(Fault { rule, line }))
        }
        Target::Incomplete | Target::Void => {
            let rule = Rule::Incomplete;
            Err(Refusal::Fault(Fault { rule, line }))
        }
    }
}

/// The type of an operand, as `sizeof` sees it: it is not read, and does not decay.
pub fn type_in(operand: &Operand) -> &[TypeWord]
    ensures { result.now ≡ type_in (operand_of operand.now) }
{
    match operand {
        Operand::Value(value) => value.c_type.words(),
        Operand::Place(place) => place.c_type.words(),
        Operand::Variable(variable) => variable.c_type.words(),
        Operand::Function(function) => function.c_type.words(),
    }
}
