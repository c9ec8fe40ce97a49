//! The initializer of an object, which gives an array of unknown size its size (C99 6.7.8 paragraph 22).

ghost use Rattle.std.specs.Prelude.{◌≡◌, ◌∷◌, IfOk, OnOk, option_copied, option_map};
ghost use Rattle.c_syntax.specs.StatementsView as views;
ghost use Rattle.c_scope.specs.declared.meaning.Meaning.TheVariants as meaning;
ghost use Rattle.c_scope.specs.Composite.{composite};
ghost use Rattle.c_scope.specs.Environment.{environment_of, type_or, with_name};
ghost use Rattle.c_scope.specs.Names.{declared};
ghost use Rattle.c_initializer_rules.specs.Initializing.{begun, initializing_of};
ghost use Rattle.c_declarator_typing.specs.Declarators.{located};
ghost use Rattle.c_typing_state.specs.State.{Types, state_of};
ghost use Rattle.c_unit_typing.specs.Declarations.{completed, entity_with_type, initialized_by, initialized_if};
ghost use Rattle.c_unit_typing.specs.Declarations.{is_of_type, is_same_object, sized, with_entity, with_size};
ghost use Rattle.c_unit_typing.specs.Initializers.{initialized};
ghost use Rattle.c_typer.specs.Initialized.{initialized_of};

use crate::initializers::initialized;
use c_declarator_typing::shape::LocatedName;
use c_declarators::derivation::{array_of, is_large};
use c_faults::{Fault, Refusal, Rule};
use c_initializer_rules::Initializing;
use c_rules::holding::beside;
use c_scope::composite::{are_compatible, composite};
use c_scope::environment::Environment;
use c_scope::meaning::{Designated, Entity, Meaning};
use c_syntax::declaration::Initializer;
use c_tree::{CType, Extent, Part, TypeWord};
use c_typing_state::Typer;
use std::alloc::{AllocError, Global};

/// An object with its initializer. It is taken apart wherever it goes, so that no proof writes out how it is let go.
pub struct Initialized {
    /// Its type.
    pub c_type: CType,
    /// The parts of the initializer.
    pub parts: Vec<Part>,
}

// The composite of two types, or the second where they are not compatible.
fn joint_type(alloc: Global, left: &[TypeWord], right: &[TypeWord]) -> Result<CType, AllocError>
    ensures { IfOk result (λ c_type. c_type ≡ type_or (composite left.now right.now) right.now) }
{
    match composite(alloc, left, right)? {
        Some(c_type) => Ok(c_type),
        None => {
            let words = right.to_vec(alloc)?;
            Ok(CType::new(words))
        }
    }
}

// What the declarations of an object with linkage say, where it has this type.
fn with_type(alloc: Global, entity: &Entity, words: &[TypeWord]) -> Result<Entity, AllocError>
    ensures { IfOk result (λ e. e ≡ entity_with_type words.now entity.now) }
{
    let c_type = joint_type(alloc, entity.c_type.words(), words)?;
    Ok(Entity {
        what: entity.what,
        c_type,
        is_defined: entity.is_defined,
        is_tentative: entity.is_tentative,
    })
}

fn with_entity<'a>(
    environment: &mut Environment<'a>,
    alloc: Global,
    name: &'a [u8],
    words: &[TypeWord],
) -> Result<(), AllocError>
    ensures { OnOk result (environment_of environment.new
        ≡ with_entity name.now (option_map (entity_with_type words.now)
        (declared name.now (environment_of environment.old).entities)) (environment_of environment.old)) }
{
    let entity = match environment.entities.get(name) {
        None => return Ok(()),
        Some(entity) => with_type(alloc, entity, words)?,
    };
    environment.entities.bind(name, entity)
}

fn with_name<'a>(
    environment: &mut Environment<'a>,
    alloc: Global,
    what: Designated,
    name: &'a [u8],
    words: &[TypeWord],
) -> Result<(), AllocError>
    ensures { OnOk result (environment_of environment.new
        ≡ with_name name.now (meaning.Named what words.now) (environment_of environment.old)) }
{
    let c_type = CType::new(words.to_vec(alloc)?);
    environment.names.bind(name, Meaning::Named(what, c_type))
}

// An object whose name stands for it with this type from now on.
fn with_size<'a>(
    environment: &mut Environment<'a>,
    alloc: Global,
    what: Designated,
    name: &'a [u8],
    words: &[TypeWord],
) -> Result<(), AllocError>
    ensures { OnOk result (environment_of environment.new
        ≡ with_size what name.now words.now (environment_of environment.old)) }
{
    match what {
        Designated::Object(_) => {
            with_entity(environment, alloc, name, words)?;
            with_name(environment, alloc, what, name, words)
        }
        _ => with_name(environment, alloc, what, name, words),
    }
}

fn is_of_type(words: &[TypeWord], entity: Option<&Entity>) -> bool
    ensures { result ≡ is_of_type words.now (option_copied entity.entry) }
{
    match entity {
        None => true,
        Some(entity) => are_compatible(entity.c_type.words(), words),
    }
}

// Whether the other declarations of an object with linkage have compatible types.
fn is_same_object(
    environment: &Environment,
    what: Designated,
    name: &[u8],
    words: &[TypeWord],
) -> bool
    ensures { result ≡ is_same_object what name.now words.now (environment_of environment.now) }
{
    match what {
        Designated::Object(_) => is_of_type(words, environment.entities.get(name)),
        _ => true,
    }
}

fn array_type(alloc: Global, array: TypeWord, element: &[TypeWord]) -> Result<CType, AllocError>
    ensures { IfOk result (λ c_type. c_type ≡ array ∷ element.now) }
{
    let mut words = vec![in alloc; array]?;
    words.extend_from_slice(element)?;
    Ok(CType::new(words))
}

// An array that has its size: the type that its name stands for from now on.
fn sized<'a>(
    typer: &mut Typer<'a>,
    what: Designated,
    name: &LocatedName<'a>,
    array: TypeWord,
    element: &[TypeWord],
) -> Result<CType, Refusal>
    ensures { Types (λ c_type. c_type) (state_of typer.new) result
        (sized what (located name.now) array element.now (state_of typer.old)) }
{
    let line = name.line;
    let c_type = array_type(typer.alloc, array, element)?;
    if !is_same_object(&typer.environment, what, name.name.bytes(), c_type.words()) {
        let rule = Rule::Redeclared;
        return Err(Refusal::Fault(Fault { rule, line }));
    }
    if is_large(array) {
        let rule = Rule::LargeType;
        return Err(Refusal::Fault(Fault { rule, line }));
    }
    with_size(
        &mut typer.environment,
        typer.alloc,
        what,
        name.name.bytes(),
        c_type.words(),
    )?;
    Ok(c_type)
}

// The type of an object behind its initializer, which has so many elements.
fn completed<'a>(
    typer: &mut Typer<'a>,
    what: Designated,
    name: &LocatedName<'a>,
    words: &[TypeWord],
    count: u64,
) -> Result<CType, Refusal>
    ensures { Types (λ c_type. c_type) (state_of typer.new) result
        (completed what (located name.now) words.now count (state_of typer.old)) }
{
    match words {
        [TypeWord::OpenArray, element @ ..] => {
            let array = array_of(count, Extent::of_type(typer.extents(), element));
            sized(typer, what, name, array, element)
        }
        _ => {
            let words = words.to_vec(typer.alloc)?;
            Ok(CType::new(words))
        }
    }
}

// An initializer of an object of a type, read to its end.
fn read<'a>(
    typer: &mut Typer<'a>,
    words: &[TypeWord],
    tree: &Initializer<'a>,
) -> Result<Initializing, Refusal>
    ensures { Types initializing_of (state_of typer.new) result
        (initialized (views.initializer_of tree.now) (begun words.now) (state_of typer.old)) }
{
    let mut begun = Initializing::new(typer.alloc, words)?;
    let read = initialized(typer, &mut begun, tree);
    let (begun, _) = beside(begun, read)?;
    Ok(begun)
}

// The type and the parts of an object with its initializer.
fn initialized_by<'a>(
    typer: &mut Typer<'a>,
    what: Designated,
    name: &LocatedName<'a>,
    words: &[TypeWord],
    tree: &Initializer<'a>,
) -> Result<Initialized, Refusal>
    ensures { Types initialized_of (state_of typer.new) result (initialized_by what (located name.now) words.now
        (views.initializer_of tree.now) (state_of typer.old)) }
{
    let begun = read(typer, words, tree)?;
    let (count, parts) = begun.finish(typer.alloc)?;
    let c_type = completed(typer, what, name, words, count);
    let (parts, c_type) = beside(parts, c_type)?;
    Ok(Initialized { c_type, parts })
}

/// The type and the parts of an object with its initializer, if it has one. An array of unknown size has that of its
/// initializer; the rules that other declarations have compatible types, and that no type is too large, are violated at
/// the name. Other refusals as of `initialized`.
pub(crate) fn initialized_if<'a>(
    typer: &mut Typer<'a>,
    what: Designated,
    name: &LocatedName<'a>,
    words: &[TypeWord],
    tree: Option<&Initializer<'a>>,
) -> Result<Initialized, Refusal>
    ensures { Types initialized_of (state_of typer.new) result (initialized_if what (located name.now) words.now
        (option_map views.initializer_of (option_copied tree.entry)) (state_of typer.old)) }
{
    match tree {
        Some(tree) => initialized_by(typer, what, name, words, tree),
        None => {
            let c_type = CType::new(words.to_vec(typer.alloc)?);
            let parts = Vec::new(typer.alloc);
            Ok(Initialized { c_type, parts })
        }
    }
}
