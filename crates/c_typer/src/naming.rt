//! The name of a function that is defined (C99 6.9.1).

ghost use Rattle.std.specs.Prelude.{◌≡◌, Ok};
ghost use Rattle.c_declarators.specs.Derivations.{built_of};
ghost use Rattle.c_scope.specs.Declaring as declaring;
ghost use Rattle.c_scope.specs.Names.{declared};
ghost use Rattle.c_declarator_typing.specs.Declarators.{declaring as declares, located, shape_of};
ghost use Rattle.c_declarator_typing.specs.Specifications.{specification_of};
ghost use Rattle.c_typing_state.specs.State.{Types, extents, judged, state_of, ◌>>>◌};
ghost use Rattle.c_unit_typing.specs.Units.{defined_as, definition_of, definition_rule, gives_incomplete};
ghost use Rattle.c_unit_typing.specs.Units.{is_incomplete_structure};

use crate::declarations::naming::meaning_here;
use crate::declarations::specifying::misplaced;
use c_call_rules::function_type::result_type;
use c_declarator_typing::shape::{LocatedName, built_in};
use c_declarator_typing::{Shape, Specification};
use c_declarators::BuiltType;
use c_declarators::faults::TypeFaults;
use c_faults::{Refusal, Rule};
use c_rules::value::unqualified;
use c_scope::declaring::Declared;
use c_scope::meaning::{Meaning, Storage};
use c_tree::{Extent, TypeWord};
use c_typing_state::Typer;

fn is_incomplete_structure(extents: &[Option<Extent>], words: &[TypeWord]) -> bool
    ensures { result ≡ is_incomplete_structure extents.now words.now }
{
    match words {
        [TypeWord::Structure(_), ..] => Extent::of_type(extents, words).is_none(),
        _ => false,
    }
}

// Whether functions of a type give an incomplete structure or union.
fn gives_incomplete(extents: &[Option<Extent>], words: &[TypeWord]) -> bool
    ensures { result ≡ gives_incomplete extents.now words.now }
{
    is_incomplete_structure(extents, unqualified(result_type(words)))
}

// The rule that a definition violates at its name: what the function gives is void or of a complete type (6.9.1
// paragraph 3).
fn definition_rule(extents: &[Option<Extent>], built: &BuiltType) -> Option<Rule>
    ensures { result ≡ definition_rule extents.now (built_of built.now) }
{
    let faults = built.faults;
    let incomplete = faults.incomplete || gives_incomplete(extents, built.c_type.words());
    TypeFaults {
        incomplete,
        ..faults
    }
    .rule()
}

fn definition_of<'a, 't>(
    extents: &[Option<Extent>],
    specification: &Specification,
    built: &'t BuiltType,
    name: &LocatedName<'a>,
) -> Declared<'a, 't>
    ensures { declaring.declaration_of result ≡ definition_of extents.now (specification_of specification.now)
        (built_of built.now) (located name.now) }
{
    Declared {
        name: name.name.bytes(),
        specifiers_line: specification.line,
        line: name.line,
        initializer_line: name.line,
        storage: specification.storage,
        c_type: built.c_type.words(),
        type_rule: definition_rule(extents, built),
        may_be_incomplete: false,
        has_initializer: false,
        has_body: true,
    }
}

// Declares the name of a definition.
fn declare<'a>(
    typer: &mut Typer<'a>,
    specification: &Specification,
    built: &BuiltType,
    name: &LocatedName<'a>,
) -> Result<(), Refusal>
    ensures { Types (λ done. located name.now) (state_of typer.new) result (declares (located name.now)
        (definition_of (extents (state_of typer.old)) (specification_of specification.now) (built_of built.now)
        (located name.now)) (state_of typer.old)) }
{
    let declared = definition_of(typer.extents(), specification, built, name);
    typer.environment.declare(typer.alloc, &declared)
}

// A definition whose type is built.
fn defined_with<'a>(
    typer: &mut Typer<'a>,
    specification: &Specification,
    built: &BuiltType,
    name: &LocatedName<'a>,
) -> Result<Option<Meaning>, Refusal>
    ensures { Types (λ m. m) (state_of typer.new) result ((declares (located name.now) (definition_of (extents
        (state_of typer.old)) (specification_of specification.now) (built_of built.now) (located name.now)) >>> λ name.
        judged (λ s. Ok (declared name.0 s.environment.names.current))) (state_of typer.old)) }
{
    declare(typer, specification, built, name)?;
    let meaning = meaning_here(typer, name.name.bytes())?;
    Ok(meaning)
}

/// Declares the name of a function that is defined, and gives what it stands for. A `typedef` among the specifiers
/// violates the rule on storage-class specifiers at the first of them (6.9.1 paragraph 4). Other refusals as of
/// `Environment::declare`.
pub(crate) fn defined_as<'a>(
    typer: &mut Typer<'a>,
    specification: &Specification,
    shape: &Shape<'a>,
    name: &LocatedName<'a>,
) -> Result<Option<Meaning>, Refusal>
    ensures { Types (λ m. m) (state_of typer.new) result (defined_as (specification_of specification.now)
        (shape_of shape.now) (located name.now) (state_of typer.old)) }
{
    match specification.storage {
        Storage::Typedef => misplaced(specification.line),
        _ => {
            let built = built_in(typer, specification, shape)?;
            defined_with(typer, specification, &built, name)
        }
    }
}
