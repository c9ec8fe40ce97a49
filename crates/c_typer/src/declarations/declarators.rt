//! Declarators with their initializers, and declarations (C99 6.7), in the order of the tokens.

ghost use Rattle.std.specs.Prelude.{◌≡◌, Some, is_none, is_some, map, option_copied, option_map};
ghost use Rattle.c_syntax.specs.StatementsView as views;
ghost use Rattle.c_tree.specs.View.{declared_of};
ghost use Rattle.c_scope.specs.declared.meaning.Designated.TheVariants as kinds;
ghost use Rattle.c_scope.specs.declared.meaning.Meaning.TheVariants as meanings;
ghost use Rattle.c_declarator_typing.specs.Declarators.{located, shape_of};
ghost use Rattle.c_declarator_typing.specs.Specifications.{specification_of};
ghost use Rattle.c_programs.specs.FileState.{FileTypes, file_of};
ghost use Rattle.c_unit_typing.specs.Declarations.{declaration, declared_with, initialized_if, initializer_in};
ghost use Rattle.c_unit_typing.specs.Declarations.{named_by, with_declarator, with_declarators, with_others};
ghost use Rattle.c_unit_typing.specs.Declarations.{with_parts, with_static, with_variable};
ghost use Rattle.c_unit_typing.specs.Files.{in_state, ◌~>◌};
ghost use Rattle.c_unit_typing.specs.Lines as lines;

use crate::declarations::lists::joined;
use crate::declarations::naming::declared_as;
use crate::declarations::objects::{with_parts, with_static, with_variable};
use crate::declarations::sizing::initialized_if;
use crate::declarations::specifying::{alone_in, specified};
use crate::initializers::dropping::let_go;
use c_declarator_typing::shape::LocatedName;
use c_declarator_typing::{Shape, Specification};
use c_faults::Refusal;
use c_programs::state::FileTyper;
use c_rules::holding::beside;
use c_scope::meaning::{Designated, Meaning};
use c_syntax::declaration::{Declaration, InitDeclarator, InitDeclarators, Initializer};
use c_syntax::{Boxed, Position};
use c_syntax_typing::declarator;
use c_tree::{CType, DeclaredVariable};
use c_unit_typing::lines::initializer_line;
use sb_base::Line;

fn has_initializer(tree: Option<&Initializer>) -> bool
    ensures { result ≡ is_some (option_map views.initializer_of (option_copied tree.entry)) }
{
    match tree {
        None => false,
        Some(_) => true,
    }
}

// An automatic variable with its initializer, if it has one.
fn variable<'a>(
    file: &mut FileTyper<'a>,
    name: &LocatedName<'a>,
    tree: Option<&Initializer<'a>>,
    number: usize,
    c_type: &CType,
) -> Result<Vec<DeclaredVariable>, Refusal>
    ensures { FileTypes (λ vs. map declared_of vs.items) (file_of file.new) result
        ((in_state (initialized_if (kinds.Variable number) (located name.now) c_type.now
        (option_map views.initializer_of (option_copied tree.entry)))
        ~> with_variable number (is_some (option_map views.initializer_of (option_copied tree.entry))))
        (file_of file.old)) }
{
    let what = Designated::Variable(number);
    let object = initialized_if(&mut file.typer, what, name, c_type.words(), tree)?;
    with_variable(file, number, has_initializer(tree), object)
}

// A static object without linkage with its initializer, if it has one.
fn without_linkage<'a>(
    file: &mut FileTyper<'a>,
    name: &LocatedName<'a>,
    tree: Option<&Initializer<'a>>,
    number: usize,
    c_type: &CType,
) -> Result<Vec<DeclaredVariable>, Refusal>
    ensures { FileTypes (λ vs. map declared_of vs.items) (file_of file.new) result
        ((in_state (initialized_if (kinds.Static number) (located name.now) c_type.now
        (option_map views.initializer_of (option_copied tree.entry))) ~> with_static number) (file_of file.old)) }
{
    let what = Designated::Static(number);
    let object = initialized_if(&mut file.typer, what, name, c_type.words(), tree)?;
    with_static(file, number, object)
}

// An object with linkage with its initializer, if it has one.
fn with_linkage<'a>(
    file: &mut FileTyper<'a>,
    name: &LocatedName<'a>,
    tree: Option<&Initializer<'a>>,
    number: usize,
    c_type: &CType,
) -> Result<Vec<DeclaredVariable>, Refusal>
    ensures { FileTypes (λ vs. map declared_of vs.items) (file_of file.new) result
        ((in_state (initialized_if (kinds.Object number) (located name.now) c_type.now
        (option_map views.initializer_of (option_copied tree.entry)))
        ~> with_parts number (is_some (option_map views.initializer_of (option_copied tree.entry))))
        (file_of file.old)) }
{
    let what = Designated::Object(number);
    let object = initialized_if(&mut file.typer, what, name, c_type.words(), tree)?;
    with_parts(file, number, has_initializer(tree), object)
}

// What a name designates, with its initializer, if it has one.
fn designated<'a>(
    file: &mut FileTyper<'a>,
    name: &LocatedName<'a>,
    tree: Option<&Initializer<'a>>,
    what: Designated,
    c_type: &CType,
) -> Result<Vec<DeclaredVariable>, Refusal>
    ensures { FileTypes (λ vs. map declared_of vs.items) (file_of file.new) result (declared_with (located name.now)
        (option_map views.initializer_of (option_copied tree.entry)) (Some (meanings.Named what c_type.now))
        (file_of file.old)) }
{
    match what {
        Designated::Variable(number) => variable(file, name, tree, number, c_type),
        Designated::Static(number) => without_linkage(file, name, tree, number, c_type),
        Designated::Object(number) => with_linkage(file, name, tree, number, c_type),
        _ => Ok(Vec::new(file.typer.alloc)),
    }
}

// What a declarator declared, with its initializer, if it has one.
fn declared_with<'a>(
    file: &mut FileTyper<'a>,
    name: &LocatedName<'a>,
    tree: Option<&Initializer<'a>>,
    meaning: &Meaning,
) -> Result<Vec<DeclaredVariable>, Refusal>
    ensures { FileTypes (λ vs. map declared_of vs.items) (file_of file.new) result (declared_with (located name.now)
        (option_map views.initializer_of (option_copied tree.entry)) (Some meaning.now) (file_of file.old)) }
{
    match meaning {
        Meaning::Named(what, c_type) => designated(file, name, tree, *what, c_type),
        _ => Ok(Vec::new(file.typer.alloc)),
    }
}

// The same where a declarator may have declared nothing.
fn declared_if<'a>(
    file: &mut FileTyper<'a>,
    name: &LocatedName<'a>,
    tree: Option<&Initializer<'a>>,
    meaning: Option<Meaning>,
) -> Result<Vec<DeclaredVariable>, Refusal>
    ensures { FileTypes (λ vs. map declared_of vs.items) (file_of file.new) result (declared_with (located name.now)
        (option_map views.initializer_of (option_copied tree.entry)) meaning (file_of file.old)) }
{
    match meaning {
        Some(meaning) => {
            let variables = declared_with(file, name, tree, &meaning);
            let_go(meaning);
            variables
        }
        None => Ok(Vec::new(file.typer.alloc)),
    }
}

fn line_of(tree: Option<&Initializer>) -> Option<Line>
    ensures { result ≡ option_map lines.initializer_line
        (option_map views.initializer_of (option_copied tree.entry)) }
{
    match tree {
        None => None,
        Some(tree) => Some(initializer_line(tree)),
    }
}

// A declarator with its name.
fn named<'a>(
    file: &mut FileTyper<'a>,
    in_head: bool,
    specification: &Specification,
    tree: Option<&Initializer<'a>>,
    shape: &Shape<'a>,
    name: &LocatedName<'a>,
) -> Result<Vec<DeclaredVariable>, Refusal>
    ensures { FileTypes (λ vs. map declared_of vs.items) (file_of file.new) result (named_by in_head
        (specification_of specification.now) (option_map views.initializer_of (option_copied tree.entry))
        (shape_of shape.now) (Some (located name.now)) (file_of file.old)) }
{
    let line = line_of(tree);
    let meaning = declared_as(&mut file.typer, in_head, specification, shape, line, name)?;
    declared_if(file, name, tree, meaning)
}

fn named_by<'a>(
    file: &mut FileTyper<'a>,
    in_head: bool,
    specification: &Specification,
    tree: Option<&Initializer<'a>>,
    shape: &Shape<'a>,
) -> Result<Vec<DeclaredVariable>, Refusal>
    ensures { FileTypes (λ vs. map declared_of vs.items) (file_of file.new) result (named_by in_head
        (specification_of specification.now) (option_map views.initializer_of (option_copied tree.entry))
        (shape_of shape.now) (shape_of shape.now).name (file_of file.old)) }
{
    match &shape.name {
        None => Ok(Vec::new(file.typer.alloc)),
        Some(name) => named(file, in_head, specification, tree, shape, name),
    }
}

fn initializer_in<'t, 'a>(tree: &'t InitDeclarator<'a>) -> Option<&'t Initializer<'a>>
    ensures { option_map views.initializer_of (option_copied result)
        ≡ initializer_in (views.init_declarator_of tree.now) }
{
    match &tree.initializer {
        None => None,
        Some((_, tree)) => Some(tree.get()),
    }
}

// A declarator, and its initializer or none.
fn with_declarator<'a>(
    file: &mut FileTyper<'a>,
    in_head: bool,
    specification: &Specification,
    tree: &InitDeclarator<'a>,
) -> Result<Vec<DeclaredVariable>, Refusal>
    ensures { FileTypes (λ vs. map declared_of vs.items) (file_of file.new) result (with_declarator in_head
        (specification_of specification.now) (views.init_declarator_of tree.now) (file_of file.old)) }
{
    let shape = declarator(&mut file.typer, false, tree.declarator.get())?;
    let variables = named_by(file, in_head, specification, initializer_in(tree), &shape);
    let_go(shape);
    variables
}

// Declarators, each behind its comma, behind those before.
fn with_others<'a>(
    file: &mut FileTyper<'a>,
    in_head: bool,
    specification: &Specification,
    trees: &[(Position, InitDeclarator<'a>)],
    before: Vec<DeclaredVariable>,
) -> Result<Vec<DeclaredVariable>, Refusal>
    ensures { FileTypes (λ vs. map declared_of vs.items) (file_of file.new) result (with_others in_head
        (specification_of specification.now) (views.more_init_declarators_in trees.now) (map declared_of before.items)
        (file_of file.old)) }
{
    let mut variables = before;
    for (_, tree) in trees {
        let more = with_declarator(file, in_head, specification, tree);
        let (before, more) = beside(variables, more)?;
        variables = joined(before, more)?;
    }
    Ok(variables)
}

// The declarators of a declaration, if it has any.
fn with_declarators<'a>(
    file: &mut FileTyper<'a>,
    in_head: bool,
    specification: &Specification,
    trees: &Option<Boxed<InitDeclarators<'a>>>,
) -> Result<Vec<DeclaredVariable>, Refusal>
    ensures { FileTypes (λ vs. map declared_of vs.items) (file_of file.new) result (with_declarators in_head
        (specification_of specification.now) (views.init_declarators_of trees.now) (file_of file.old)) }
{
    match trees {
        None => {
            alone_in(&file.typer, in_head, specification)?;
            Ok(Vec::new(file.typer.alloc))
        }
        Some(trees) => {
            let trees = trees.get();
            let variables = with_declarator(file, in_head, specification, &trees.first)?;
            with_others(
                file,
                in_head,
                specification,
                trees.others.as_slice(),
                variables,
            )
        }
    }
}

// Whether a declaration has no declarators.
fn is_alone(tree: &Declaration) -> bool
    ensures { result ≡ is_none (views.declaration_of tree.now).declarators }
{
    match &tree.declarators {
        None => true,
        Some(_) => false,
    }
}

/// Types a declaration (C99 6.7), which stands in the head of a `for` (6.8.5.3) or not: its automatic variables, in
/// order. The refusal is that of the first rule that is violated, in the order of the tokens, or that there is no
/// memory.
pub(crate) fn declaration<'a>(
    file: &mut FileTyper<'a>,
    in_head: bool,
    tree: &Declaration<'a>,
) -> Result<Vec<DeclaredVariable>, Refusal>
    ensures { FileTypes (λ vs. map declared_of vs.items) (file_of file.new) result
        (declaration in_head (views.declaration_of tree.now) (file_of file.old)) }
{
    let specification = specified(&mut file.typer, is_alone(tree), tree)?;
    let variables = with_declarators(file, in_head, &specification, &tree.declarators);
    let_go(specification);
    variables
}
