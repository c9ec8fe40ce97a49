//! Declarators without initializers: type names and parameters (C99 6.7.5, 6.7.6).

ghost use Rattle.std.specs.Prelude.{◌≡◌, not, IfOk, Ok, Some};
ghost use Rattle.c_faults.specs.Answer.{Gives};
ghost use Rattle.c_declarator_typing.specs.Declarators.{has_storage, is_void, not_for_parameter, rule_or_storage};
ghost use Rattle.c_declarator_typing.specs.Declarators.{unless, built_in, located, nameless_parameter, parameter};
ghost use Rattle.c_declarator_typing.specs.Declarators.{parameter_built, scope_left, scope_opened, shape_of};
ghost use Rattle.c_declarator_typing.specs.Declarators.{type_named};
ghost use Rattle.c_declarators.specs.Derivations.{built_of};
ghost use Rattle.c_scope.specs.Parameters.{scope_of};
ghost use Rattle.c_rules.specs.Types.{unqualified};
ghost use Rattle.c_declarators.specs.Adjusted.{adjusted};
ghost use Rattle.c_declarator_typing.specs.Specifications.{specification_of};
ghost use Rattle.c_typing_state.specs.State.{Types, state_of};

use crate::specification::Specification;
use c_declarators::{BuiltType, Derivation, adjusted, built};
use c_faults::{Fault, Refusal, Rule};
use c_lexer::Spelling;
use c_place_rules::target::unqualified_type;
use c_scope::declaring::Declared;
use c_scope::meaning::Storage;
use c_scope::parameters::ParameterScope;
use c_tree::{CType, TypeWord};
use c_typing_state::Typer;
use sb_base::Line;
use std::alloc::{AllocError, Global};

/// A name and the line on which it stands.
#[derive(Drop)]
pub struct LocatedName<'a> {
    /// The name.
    pub name: Spelling<'a>,
    /// The line.
    pub line: Line,
}

/// What a declarator says.
#[derive(Drop)]
pub struct Shape<'a> {
    /// Its name, if it has one.
    pub name: Option<LocatedName<'a>>,
    /// What it derives the type from, from the name outward.
    pub derivations: Vec<Derivation>,
    /// The scope of the parameters that directly follow the name, if some do.
    pub parameters: Option<ParameterScope<'a>>,
}

impl<'a> Shape<'a> {
    ghost use Rattle.std.specs.Prelude.{◌≡◌, [], IfOk, option_map};
    ghost use Rattle.c_declarators.specs.Derivations.{derivation_of};
    ghost use Rattle.c_scope.specs.Parameters.{scope_of};
    ghost use Rattle.c_declarator_typing.specs.Declarators.{located, plain_shape, shape_of, with_derivation};
    ghost use Rattle.c_declarator_typing.specs.Declarators.{with_function};

    /// A name alone, or no name.
    pub fn new(alloc: Global, name: Option<LocatedName<'a>>) -> Self
        ensures { shape_of result ≡ plain_shape (option_map located name.entry) }
    {
        Shape {
            name,
            derivations: Vec::new(alloc),
            parameters: None,
        }
    }

    /// With one more step of the derivation.
    pub fn with_derivation(self, derivation: Derivation) -> Result<Self, AllocError>
        ensures { IfOk result (λ shape. shape_of shape ≡ with_derivation (derivation_of derivation)
            (shape_of self.entry)) }
    {
        let Shape {
            name,
            mut derivations,
            parameters,
        } = self;
        derivations.push(derivation)?;
        Ok(Shape {
            name,
            derivations,
            parameters,
        })
    }

    /// With parameters of these types, and their scope.
    pub fn with_function(
        self,
        types: Vec<CType>,
        scope: ParameterScope<'a>,
    ) -> Result<Self, AllocError>
        ensures { IfOk result (λ shape. shape_of shape ≡ with_function types.items (scope_of scope.entry)
            (shape_of self.entry)) }
    {
        let Shape {
            name,
            mut derivations,
            parameters,
        } = self;
        let parameters = if derivations.is_empty() {
            Some(scope)
        } else {
            parameters
        };
        derivations.push(Derivation::Function(types))?;
        Ok(Shape {
            name,
            derivations,
            parameters,
        })
    }
}

fn has_storage(storage: Storage) -> bool
    ensures { result ≡ has_storage storage }
{
    !matches!(storage, Storage::Absent)
}

fn is_for_parameter(storage: Storage) -> bool
    ensures { result ≡ not (not_for_parameter storage) }
{
    matches!(storage, Storage::Absent | Storage::Register)
}

fn is_void(words: &[TypeWord]) -> bool
    ensures { result ≡ is_void words.now }
{
    match words {
        [TypeWord::Void, ..] => true,
        [TypeWord::Const, behind @ ..] => is_void(behind),
        _ => false,
    }
}

/// The first rule, with that on storage-class specifiers behind the others.
pub(crate) fn rule_or_storage(rule: Option<Rule>, is_misplaced: bool) -> Option<Rule>
    ensures { result ≡ rule_or_storage rule is_misplaced }
{
    match rule {
        Some(rule) => Some(rule),
        None if is_misplaced => Some(Rule::MisplacedStorage),
        None => None,
    }
}

/// That a rule is violated, if there is one.
pub(crate) fn refusal(rule: Option<Rule>, line: Line) -> Result<(), Refusal>
    ensures { Gives (λ x. x) result (unless rule line tt) }
{
    match rule {
        None => Ok(()),
        Some(rule) => Err(Refusal::Fault(Fault { rule, line })),
    }
}

impl Specification {
    ghost use Rattle.std.specs.Prelude.{◌≡◌};
    ghost use Rattle.c_declarator_typing.specs.Declarators.{has_storage, is_misplaced};
    ghost use Rattle.c_declarator_typing.specs.Specifications.{specification_of};

    /// Whether it has a storage-class specifier that a parameter may not have.
    fn is_misplaced(&self) -> bool
        ensures { result ≡ is_misplaced (specification_of self.now) }
    {
        self.has_two_storages || !is_for_parameter(self.storage)
    }

    /// Whether it has a storage-class specifier.
    pub fn has_storage(&self) -> bool
        ensures { result ≡ has_storage (specification_of self.now).storage }
    {
        has_storage(self.storage)
    }
}

/// Opens the scope of parameters, and gives how many variables the function around it has.
pub fn open_scope(typer: &mut Typer) -> Result<usize, Refusal>
    ensures { Types (λ n. n) (state_of typer.new) result (scope_opened (state_of typer.old)) }
{
    let before = typer.environment.variables;
    typer.environment.open(typer.alloc)?;
    Ok(before)
}

/// Leaves the scope of parameters. The function around it has as many variables as are given.
pub fn leave_scope<'a>(typer: &mut Typer<'a>, before: usize) -> ParameterScope<'a>
    ensures { scope_left before (state_of typer.old) ≡ Ok (state_of typer.new, scope_of result) }
{
    typer.environment.leave_parameters(typer.alloc, before)
}

/// The type that a declarator gives its name, and the rules that it violates by itself.
pub fn built_in(
    typer: &Typer,
    specification: &Specification,
    shape: &Shape,
) -> Result<BuiltType, AllocError>
    ensures { IfOk result (λ b. built_of b
        ≡ built_in (state_of typer.now) (specification_of specification.now) (shape_of shape.now)) }
{
    let words = specification.c_type.words();
    built(typer.alloc, typer.extents(), words, &shape.derivations)
}

/// A type name. At the first token of its specifiers it violates the rules of its own type, then that on
/// storage-class specifiers.
pub fn type_named(
    typer: &Typer,
    specification: &Specification,
    shape: &Shape,
) -> Result<CType, Refusal>
    ensures { Gives (λ c_type. c_type) result (type_named (specification_of specification.now)
        (shape_of shape.now) (state_of typer.now)) }
{
    let BuiltType { c_type, faults } = built_in(typer, specification, shape)?;
    let rule = rule_or_storage(faults.rule(), specification.has_storage());
    refusal(rule, specification.line)?;
    Ok(c_type)
}

/// A parameter, in the scope of the parameters, and its type without qualifiers of its own. Without a name it
/// violates the rules of its own type and that on storage-class specifiers at the first token of its specifiers;
/// with one the latter there, and those of `declare` at its name.
pub fn parameter_declared<'a>(
    typer: &mut Typer<'a>,
    in_definition: bool,
    specification: &Specification,
    shape: &Shape<'a>,
) -> Result<CType, Refusal>
    ensures { Types (λ c_type. c_type) (state_of typer.new) result (parameter in_definition
        (specification_of specification.now) (shape_of shape.now) (state_of typer.old)) }
{
    let built = built_in(typer, specification, shape)?;
    match &shape.name {
        None => nameless_parameter(typer.alloc, specification, built),
        Some(name) => named_parameter(typer, in_definition, specification, built, name),
    }
}

fn nameless_parameter(
    alloc: Global,
    specification: &Specification,
    built: BuiltType,
) -> Result<CType, Refusal>
    ensures { Gives (λ c_type. c_type) result (nameless_parameter
        (specification_of specification.now) (built_of built)) }
{
    let BuiltType { c_type, mut faults } = built;
    faults.incomplete = faults.incomplete || is_void(c_type.words());
    let rule = rule_or_storage(faults.rule(), specification.is_misplaced());
    refusal(rule, specification.line)?;
    parameter_type(alloc, c_type.words())
}

// The type of a parameter in the type of its function.
fn parameter_type(alloc: Global, words: &[TypeWord]) -> Result<CType, Refusal>
    ensures { Gives (λ c_type. c_type) result (Ok (unqualified (adjusted words.now))) }
{
    let c_type = adjusted(alloc, words)?;
    let c_type = unqualified_type(alloc, c_type.words())?;
    Ok(c_type)
}

fn named_parameter<'a>(
    typer: &mut Typer<'a>,
    in_definition: bool,
    specification: &Specification,
    built: BuiltType,
    name: &LocatedName<'a>,
) -> Result<CType, Refusal>
    ensures { Types (λ c_type. c_type) (state_of typer.new) result (parameter_built in_definition
        (specification_of specification.now) (built_of built) (Some (located name.now)) (state_of typer.old)) }
{
    if specification.is_misplaced() {
        let (rule, line) = (Rule::MisplacedStorage, specification.line);
        return Err(Refusal::Fault(Fault { rule, line }));
    }
    let may_be_incomplete = !in_definition && !is_void(built.c_type.words());
    let c_type = adjusted(typer.alloc, built.c_type.words())?;
    let declared = Declared {
        name: name.name.bytes(),
        specifiers_line: specification.line,
        line: name.line,
        initializer_line: name.line,
        storage: specification.storage,
        c_type: c_type.words(),
        type_rule: built.faults.rule(),
        may_be_incomplete,
        has_initializer: false,
        has_body: false,
    };
    typer.environment.declare(typer.alloc, &declared)?;
    let c_type = unqualified_type(typer.alloc, c_type.words())?;
    Ok(c_type)
}
