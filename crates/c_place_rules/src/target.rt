//! The types of what pointers point to, and of pointers (C99 6.2.5, 6.7.3).

ghost use Rattle.std.specs.Prelude.{◌≡◌, ◌∷◌, IfOk};
ghost use Rattle.c_tree.specs.declared.c_type.TypeWord.TheVariants.{Pointer};
ghost use Rattle.c_rules.specs.Types.{object_of, target_of, unqualified};
ghost use Rattle.c_place_rules.specs.Targets.{constant, is_const, object_kind, pointee_of, qualified};

use c_rules::Target;
use c_rules::value::{integer, unqualified};
use c_tree::{CType, Extent, Kind, MAX_SIZE, TypeWord};
use obj_memory::{IntType, Scalar};
use std::alloc::{AllocError, Global};

/// What a pointer points to; any other type is left.
pub fn pointee(words: &[TypeWord]) -> &[TypeWord]
    ensures { result.now ≡ pointee_of words.now }
{
    match words {
        [TypeWord::Const, behind @ ..] => pointee(behind),
        [TypeWord::Pointer, target @ ..] => target,
        _ => words,
    }
}

/// What a type is for an operator that asks for a complete one.
pub fn target(structures: &[Option<Extent>], words: &[TypeWord]) -> Target
    ensures { result ≡ target_of structures.now words.now }
{
    match words {
        [TypeWord::Void, ..] => Target::Void,
        [TypeWord::Takes | TypeWord::Gives, ..] => Target::Function,
        [TypeWord::Const, behind @ ..] => target(structures, behind),
        _ => object(Extent::of_type(structures, words)),
    }
}

fn object(extent: Option<Extent>) -> Target
    ensures { result ≡ object_of extent }
{
    match extent {
        Some(extent) if extent.size() >= 1 && extent.size() <= MAX_SIZE => {
            Target::Object(extent.size())
        }
        _ => Target::Incomplete,
    }
}

/// The kind of an object of a type that has so many bytes.
pub fn object_kind(size: u64, words: &[TypeWord]) -> Kind
    ensures { result ≡ object_kind size words.now }
{
    match words {
        [TypeWord::Integer(t), ..] => integer(*t),
        [TypeWord::Enumeration(_), ..] => integer(IntType::Int),
        [TypeWord::Pointer, ..] => Kind::Scalar(Scalar::Pointer),
        [TypeWord::Array { .. } | TypeWord::OpenArray, ..] => Kind::Array(size),
        [TypeWord::Structure(_), ..] => Kind::Structure(size),
        [TypeWord::Const, behind @ ..] => object_kind(size, behind),
        _ => Kind::Void,
    }
}

/// Whether a type is const.
pub fn is_const(words: &[TypeWord]) -> bool
    ensures { result ≡ is_const words.now }
{
    match words {
        [TypeWord::Array { .. } | TypeWord::OpenArray, element @ ..] => is_const(element),
        [TypeWord::Const, ..] => true,
        _ => false,
    }
}

/// A type without its own qualifiers.
pub fn unqualified_type(alloc: Global, words: &[TypeWord]) -> Result<CType, AllocError>
    ensures { IfOk result (λ c_type. c_type ≡ unqualified words.now) }
{
    let words = unqualified(words).to_vec(alloc)?;
    Ok(CType::new(words))
}

/// The type of pointers to a type.
pub fn pointer_to(alloc: Global, words: &[TypeWord]) -> Result<CType, AllocError>
    ensures { IfOk result (λ c_type. c_type ≡ Pointer ∷ words.now) }
{
    let mut pointer = vec![in alloc; TypeWord::Pointer]?;
    pointer.extend_from_slice(words)?;
    Ok(CType::new(pointer))
}

/// The type of what a pointer points to.
pub fn pointee_type(alloc: Global, words: &[TypeWord]) -> Result<CType, AllocError>
    ensures { IfOk result (λ c_type. c_type ≡ pointee_of words.now) }
{
    let words = pointee(words).to_vec(alloc)?;
    Ok(CType::new(words))
}

/// The const type of a type: of an array, the elements are const (6.7.3 paragraph 8).
pub fn constant(alloc: Global, words: &[TypeWord]) -> Result<Vec<TypeWord>, AllocError>
    ensures { IfOk result (λ type. type.items ≡ constant words.now) }
{
    match words {
        [TypeWord::Const, ..] => words.to_vec(alloc),
        [
            array @ (TypeWord::Array { .. } | TypeWord::OpenArray),
            element @ ..,
        ] => {
            let mut type_words = vec![in alloc; *array]?;
            let element = constant(alloc, element)?;
            type_words.extend_from_slice(&element)?;
            Ok(type_words)
        }
        _ => {
            let mut type_words = vec![in alloc; TypeWord::Const]?;
            type_words.extend_from_slice(words)?;
            Ok(type_words)
        }
    }
}

/// A type, const where what it is a part of is.
pub fn qualified(alloc: Global, is_const: bool, words: &[TypeWord]) -> Result<CType, AllocError>
    ensures { IfOk result (λ c_type. c_type ≡ qualified is_const words.now) }
{
    let words = if is_const {
        constant(alloc, words)?
    } else {
        words.to_vec(alloc)?
    };
    Ok(CType::new(words))
}
