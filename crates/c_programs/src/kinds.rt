//! Kinds of types (C99 6.2.5, 6.7.5.3).

ghost use Rattle.std.specs.Prelude.{◌≡◌, IfOk, option_map};
ghost use Rattle.c_tree.specs.TypesAgree.{kind_of_type, structure_kind};
ghost use Rattle.c_tree.specs.View.{function_type_of};
ghost use Rattle.c_unit_typing.specs.Programs.{function_type, kind_or_void, parameter_kinds, result_kind};
ghost use Rattle.c_programs.specs.Words.{behind_takes};

use c_call_rules::function_type::{behind_parameter, result_type};
use c_tree::{CType, Extent, FunctionType, Kind, TypeWord};
use obj_memory::{IntType, Scalar};
use std::alloc::{AllocError, Global};
use tree_containers::Items;

fn structure_kind(extent: Option<Extent>) -> Option<Kind>
    ensures { result ≡ structure_kind extent }
{
    match extent {
        None => None,
        Some(extent) => Some(Kind::Structure(extent.size())),
    }
}

/// The kind of what has a type, among structures and unions that have these extents. Arrays, functions and incomplete
/// structures have none.
#[tactic(auto, unfolding(c_tree::specs::Extents::extent_of))]
pub fn kind_of_type(structures: &[Option<Extent>], words: &[TypeWord]) -> Option<Kind>
    ensures { result ≡ kind_of_type structures.now words.now }
{
    match words {
        [TypeWord::Void, ..] => Some(Kind::Void),
        [TypeWord::Integer(t), ..] => Some(Kind::Scalar(Scalar::Integer(*t))),
        [TypeWord::Enumeration(_), ..] => Some(Kind::Scalar(Scalar::Integer(IntType::Int))),
        [TypeWord::Pointer, ..] => Some(Kind::Scalar(Scalar::Pointer)),
        [TypeWord::Structure(_), ..] => structure_kind(Extent::of_type(structures, words)),
        [TypeWord::Const, behind @ ..] => kind_of_type(structures, behind),
        _ => None,
    }
}

fn kind_or_void(kind: Option<Kind>) -> Kind
    ensures { result ≡ kind_or_void kind }
{
    match kind {
        None => Kind::Void,
        Some(kind) => kind,
    }
}

/// The kind of what functions of a type give (C99 6.7.5.3), `Void` where its result has none.
pub fn result_kind(structures: &[Option<Extent>], words: &[TypeWord]) -> Kind
    ensures { result ≡ result_kind structures.now words.now }
{
    kind_or_void(kind_of_type(structures, result_type(words)))
}

// What stands behind "function taking".
fn behind_takes(words: &[TypeWord]) -> Option<&[TypeWord]>
    ensures { option_map (λ type. type.now) result ≡ behind_takes words.now }
{
    match words {
        [TypeWord::Takes, behind @ ..] => Some(behind),
        _ => None,
    }
}

/// The kinds of the parameters of functions of a type (C99 6.7.5.3), `Void` for one that has none.
pub fn parameter_kinds(
    alloc: Global,
    structures: &[Option<Extent>],
    words: &[TypeWord],
) -> Result<Vec<Kind>, AllocError>
    ensures { IfOk result (λ kinds. kinds.items ≡ parameter_kinds structures.now 0 words.now) }
{
    let mut kinds = Vec::new(alloc);
    let mut rest = words;
    loop {
        match behind_takes(rest) {
            None => return Ok(kinds),
            Some(parameter) => {
                kinds.push(kind_or_void(kind_of_type(structures, parameter)))?;
                rest = behind_parameter(rest);
            }
        }
    }
}

/// A type of functions, with the kinds of its parameters and of what its functions give.
pub fn function_type(
    alloc: Global,
    structures: &[Option<Extent>],
    c_type: CType,
) -> Result<FunctionType, AllocError>
    ensures { IfOk result (λ made. function_type_of made ≡ function_type structures.now c_type) }
{
    let parameters = Items::from_vec(parameter_kinds(alloc, structures, c_type.words())?);
    let result = result_kind(structures, c_type.words());
    Ok(FunctionType {
        c_type,
        parameters,
        result,
    })
}
