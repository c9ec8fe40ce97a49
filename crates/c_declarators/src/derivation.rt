//! What a declarator derives its type from (C99 6.7.5).

ghost use Rattle.std.specs.Prelude.{◌≡◌, ◌∷◌, ◌||◌, map, option_map, IfOk};
ghost use Rattle.c_tree.specs.Extents.{extent_of};
ghost use Rattle.c_declarators.specs.Derivations.{array_built, array_of, built, built_of, derivation_of, derived};
ghost use Rattle.c_declarators.specs.Derivations.{element_faults, function_built, function_words, is_array, is_large};
ghost use Rattle.c_declarators.specs.Derivations.{pointer_words, sized_array, to_open_array};
ghost use Rattle.c_declarators.specs.Faults.{and_faults};

use crate::faults::TypeFaults;
use c_rules::value::unqualified;
use c_scope::declaring::is_function;
use c_tree::{CType, Extent, MAX_SIZE, TypeWord};
use std::alloc::{AllocError, Global};

/// A step of the derivation of a type.
#[derive(Drop)]
pub enum Derivation {
    /// "pointer to", const or not (6.7.5.1).
    Pointer(bool),
    /// "array of an unknown size of" (6.7.5.2).
    OpenArray,
    /// "array of so many"; the number is not told where it is no integer constant expression of at least 1 (6.7.5.2).
    Array(Option<u64>),
    /// "function taking" parameters of these types, adjusted and without qualifiers of their own, "giving" (6.7.5.3).
    Function(Vec<CType>),
}

/// A type, and the rules that it violates by itself.
#[derive(Drop)]
pub struct BuiltType {
    /// The type.
    pub c_type: CType,
    /// The rules.
    pub faults: TypeFaults,
}

/// The type that a declarator gives its name, with its steps from the name outward, from the type that the specifiers
/// name, among structures and unions with these extents. It calls itself as deeply as there are steps.
pub fn built(
    alloc: Global,
    structures: &[Option<Extent>],
    base: &[TypeWord],
    derivations: &[Derivation],
) -> Result<BuiltType, AllocError>
    ensures { IfOk result (λ b. built_of b ≡ built structures.now base.now (map derivation_of derivations.now)) }
{
    match derivations {
        [] => Ok(BuiltType {
            c_type: CType::new(base.to_vec(alloc)?),
            faults: TypeFaults::none(),
        }),
        [first, behind @ ..] => {
            let inner = built(alloc, structures, base, behind)?;
            derived(alloc, structures, first, inner)
        }
    }
}

fn derived(
    alloc: Global,
    structures: &[Option<Extent>],
    derivation: &Derivation,
    inner: BuiltType,
) -> Result<BuiltType, AllocError>
    ensures { IfOk result (λ b. built_of b ≡ derived structures.now (derivation_of derivation.now) (built_of inner)) }
{
    match derivation {
        Derivation::Pointer(is_const) => pointer(alloc, *is_const, inner),
        Derivation::OpenArray => open_array(alloc, structures, inner),
        Derivation::Array(count) => array(alloc, structures, *count, inner),
        Derivation::Function(parameters) => function(alloc, parameters, inner),
    }
}

fn pointer(alloc: Global, is_const: bool, inner: BuiltType) -> Result<BuiltType, AllocError>
    ensures { IfOk result (λ b. built_of b
        ≡ record { type = pointer_words is_const (built_of inner).type; faults = (built_of inner).faults }) }
{
    let mut words = Vec::new(alloc);
    if is_const {
        words.push(TypeWord::Const)?;
    }
    words.push(TypeWord::Pointer)?;
    words.extend_from_slice(inner.c_type.words())?;
    Ok(BuiltType {
        c_type: CType::new(words),
        faults: inner.faults,
    })
}

fn open_array(
    alloc: Global,
    structures: &[Option<Extent>],
    inner: BuiltType,
) -> Result<BuiltType, AllocError>
    ensures { IfOk result (λ b. built_of b ≡ derived structures.now to_open_array (built_of inner)) }
{
    let faults = element_faults(structures, inner.c_type.words());
    with_word(alloc, TypeWord::OpenArray, inner, faults)
}

// One word more, and further rules that are violated.
fn with_word(
    alloc: Global,
    word: TypeWord,
    inner: BuiltType,
    faults: TypeFaults,
) -> Result<BuiltType, AllocError>
    ensures { IfOk result (λ b. built_of b
        ≡ record { type = word ∷ (built_of inner).type; faults = and_faults (built_of inner).faults faults }) }
{
    let mut words = vec![in alloc; word]?;
    words.extend_from_slice(inner.c_type.words())?;
    Ok(BuiltType {
        c_type: CType::new(words),
        faults: inner.faults.and(faults),
    })
}

fn array(
    alloc: Global,
    structures: &[Option<Extent>],
    count: Option<u64>,
    inner: BuiltType,
) -> Result<BuiltType, AllocError>
    ensures { IfOk result (λ b. built_of b ≡ array_built structures.now count (built_of inner)) }
{
    let faults = element_faults(structures, inner.c_type.words());
    let Some(count) = count else {
        let word = TypeWord::Array { count: 0, bytes: 0 };
        let faults = TypeFaults {
            miscounted: true,
            ..faults
        };
        return with_word(alloc, word, inner, faults);
    };
    let word = array_of(count, Extent::of_type(structures, inner.c_type.words()));
    let faults = TypeFaults {
        large: is_large(word),
        ..faults
    };
    with_word(alloc, word, inner, faults)
}

/// An array of elements of this size, of which no more than 2^32 + 1 bytes are counted; none where they have no size.
pub fn array_of(count: u64, element: Option<Extent>) -> TypeWord
    ensures { result ≡ array_of count element }
{
    match element {
        None => TypeWord::Array { count, bytes: 0 },
        Some(element) => TypeWord::array(count, element),
    }
}

/// Whether an array has more than 2^32 bytes.
pub fn is_large(word: TypeWord) -> bool
    ensures { result ≡ is_large word }
{
    match word {
        TypeWord::Array { bytes, .. } => bytes > MAX_SIZE,
        _ => false,
    }
}

/// What the type of the elements of an array, or of a member, violates: it is no function and is complete.
pub fn element_faults(structures: &[Option<Extent>], element: &[TypeWord]) -> TypeFaults
    ensures { result ≡ element_faults structures.now element.now }
{
    let misplaced = is_function(element);
    TypeFaults {
        incomplete: !misplaced && Extent::of_type(structures, element).is_none(),
        misplaced,
        ..TypeFaults::none()
    }
}

fn function(alloc: Global, parameters: &[CType], inner: BuiltType) -> Result<BuiltType, AllocError>
    ensures { IfOk result (λ b. built_of b ≡ function_built parameters.now (built_of inner)) }
{
    let result = inner.c_type.words();
    let faults = TypeFaults {
        misplaced: is_function(unqualified(result)) || is_array(result),
        ..TypeFaults::none()
    };
    let words = function_words(alloc, parameters, result)?;
    Ok(BuiltType {
        c_type: CType::new(words),
        faults: inner.faults.and(faults),
    })
}

/// Whether a type is that of arrays (6.7.5.2).
pub fn is_array(words: &[TypeWord]) -> bool
    ensures { result ≡ is_array words.now }
{
    matches!(words, [TypeWord::Array { .. } | TypeWord::OpenArray, ..])
}

/// The words of the type of functions with parameters of these types and this result (6.7.5.3).
pub fn function_words(
    alloc: Global,
    parameters: &[CType],
    of: &[TypeWord],
) -> Result<Vec<TypeWord>, AllocError>
    ensures { IfOk result (λ words. words.items ≡ function_words parameters.now of.now) }
{
    let mut words = Vec::new(alloc);
    for parameter in parameters {
        words.push(TypeWord::Takes)?;
        words.extend_from_slice(parameter.words())?;
    }
    words.push(TypeWord::Gives)?;
    words.extend_from_slice(of)?;
    Ok(words)
}
