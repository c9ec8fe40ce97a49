//! What a declarator gives its name (C99 6.2.1, 6.7).

ghost use Rattle.std.specs.Prelude.{◌≡◌, IfOk, Ok};
ghost use Rattle.c_declarators.specs.Derivations.{built_of};
ghost use Rattle.c_scope.specs.Declaring as declaring;
ghost use Rattle.c_scope.specs.Names.{declared};
ghost use Rattle.c_declarator_typing.specs.Declarators.{declaring as declares, located, shape_of};
ghost use Rattle.c_declarator_typing.specs.Specifications.{specification_of};
ghost use Rattle.c_typing_state.specs.State.{Types, judged, state_of, ◌>>>◌};
ghost use Rattle.c_unit_typing.specs.Declarations.{declaration_of, declared_as, line_or};

use crate::declarations::specifying::{has_place, misplaced};
use c_declarator_typing::shape::{LocatedName, built_in};
use c_declarator_typing::{Shape, Specification};
use c_declarators::BuiltType;
use c_faults::Refusal;
use c_scope::declaring::Declared;
use c_scope::meaning::Meaning;
use c_tree::CType;
use c_typing_state::Typer;
use sb_base::Line;
use std::alloc::{AllocError, Global};

fn line_or(line: Option<Line>, other: Line) -> Line
    ensures { result ≡ line_or line other }
{
    match line {
        Some(line) => line,
        None => other,
    }
}

// A declarator of a declaration, with the line of its initializer, if it has one.
fn declarator_of<'a, 't>(
    specification: &Specification,
    built: &'t BuiltType,
    name: &LocatedName<'a>,
    initializer: Option<Line>,
) -> Declared<'a, 't>
    ensures { declaring.declaration_of result ≡ declaration_of (specification_of specification.now)
        (built_of built.now) (located name.now) initializer }
{
    Declared {
        name: name.name.bytes(),
        specifiers_line: specification.line,
        line: name.line,
        initializer_line: line_or(initializer, name.line),
        storage: specification.storage,
        c_type: built.c_type.words(),
        type_rule: built.faults.rule(),
        may_be_incomplete: built.faults.misplaced,
        has_initializer: initializer.is_some(),
        has_body: false,
    }
}

// Declares the name of a declarator.
fn declare<'a>(
    typer: &mut Typer<'a>,
    specification: &Specification,
    built: &BuiltType,
    name: &LocatedName<'a>,
    initializer: Option<Line>,
) -> Result<(), Refusal>
    ensures { Types (λ done. located name.now) (state_of typer.new) result (declares (located name.now)
        (declaration_of (specification_of specification.now) (built_of built.now) (located name.now) initializer)
        (state_of typer.old)) }
{
    let declared = declarator_of(specification, built, name, initializer);
    typer.environment.declare(typer.alloc, &declared)
}

// A meaning once more.
fn again(alloc: Global, meaning: &Meaning) -> Result<Meaning, AllocError>
    ensures { IfOk result (λ m. m ≡ meaning.now) }
{
    match meaning {
        Meaning::Typedef(c_type) => {
            let c_type = CType::new(c_type.words().to_vec(alloc)?);
            Ok(Meaning::Typedef(c_type))
        }
        Meaning::Constant(word) => Ok(Meaning::Constant(*word)),
        Meaning::Named(what, c_type) => {
            let c_type = CType::new(c_type.words().to_vec(alloc)?);
            Ok(Meaning::Named(*what, c_type))
        }
    }
}

/// What a name stands for in the innermost scope.
pub(crate) fn meaning_here(typer: &Typer, name: &[u8]) -> Result<Option<Meaning>, AllocError>
    ensures { IfOk result (λ m. m ≡ declared name.now (state_of typer.now).environment.names.current) }
{
    match typer.environment.names.here(name) {
        None => Ok(None),
        Some(meaning) => Ok(Some(again(typer.alloc, meaning)?)),
    }
}

// A declarator whose type is built.
fn declared_with<'a>(
    typer: &mut Typer<'a>,
    specification: &Specification,
    built: &BuiltType,
    name: &LocatedName<'a>,
    initializer: Option<Line>,
) -> Result<Option<Meaning>, Refusal>
    ensures { Types (λ m. m) (state_of typer.new) result ((declares (located name.now) (declaration_of
        (specification_of specification.now) (built_of built.now) (located name.now) initializer) >>> λ name. judged (λ
        s. Ok (declared name.0 s.environment.names.current))) (state_of typer.old)) }
{
    declare(typer, specification, built, name, initializer)?;
    let meaning = meaning_here(typer, name.name.bytes())?;
    Ok(meaning)
}

/// Declares the name of a declarator, with the line of its initializer, if it has one, and gives what it stands for.
/// Where a `for` takes none such, the rule on storage-class specifiers is violated at the first specifier. Other
/// refusals as of `Environment::declare`.
pub(crate) fn declared_as<'a>(
    typer: &mut Typer<'a>,
    in_head: bool,
    specification: &Specification,
    shape: &Shape<'a>,
    initializer: Option<Line>,
    name: &LocatedName<'a>,
) -> Result<Option<Meaning>, Refusal>
    ensures { Types (λ m. m) (state_of typer.new) result (declared_as in_head (specification_of specification.now)
        (shape_of shape.now) initializer (located name.now) (state_of typer.old)) }
{
    let built = built_in(typer, specification, shape)?;
    if has_place(in_head, specification, built.c_type.words()) {
        declared_with(typer, specification, &built, name, initializer)
    } else {
        misplaced(specification.line)
    }
}
