//! Which initializers, declarations, statements and files are well formed (C99 6.7 to 6.9).

ghost use Rattle.std.specs.Prelude.{◌≡◌, IsTrue, ◌↔◌, ◌∷◌, [], IfOk, OnOk, true, false};
ghost use Rattle.c_syntax.specs.Formed as formed;
ghost use Rattle.c_syntax.specs.StatementsView as views;
ghost use Rattle.c_syntax.specs.View as view;

use crate::formed::{are_specifiers, is_argument, is_expression, is_named};
use crate::levels::{declarator_fits, expression_fits, specifiers_fit};
use crate::statement_levels::{block_fits, initializer_fits};
use c_lexer::Spelling;
use c_syntax::declaration::{
    Declaration, Designation, Designator, InitDeclarator, InitDeclarators, Initializer,
    InitializerItem,
};
use c_syntax::declarators::defines_function;
use c_syntax::names::declared_name;
use c_syntax::operators::precedence;
use c_syntax::position::Position;
use c_syntax::specifiers::has_typedef;
use c_syntax::statement::{Block, BlockItem, External, ForInit, Statement, Unit, ends_open};
use c_syntax::tree::{Declarator, Expression, Specifier};
use std::alloc::{AllocError, Global};
use tree_containers::Boxed;

/// How many levels of nesting each part of a file may have.
const LEVELS: usize = 200;

/// The typedef name that is in force from the start.
const SIZE_T: &[u8] = b"size_t";

/// Whether there are no designators.
#[tactic(auto, using(c_syntax::proofs::StatementViews::some_designators))]
fn is_no_designator(designators: &[Designator]) -> bool
    ensures { result ≡ formed.is_empty (views.designators_in designators.now) }
{
    match designators {
        [] => true,
        [_, ..] => false,
    }
}

/// Whether designators are well formed (C99 6.7.8).
fn are_designators<'r, 'a>(names: &'r [Spelling<'a>], designators: &'r [Designator<'a>]) -> bool
    ensures { IsTrue result ↔ formed.AreDesignators names.now (views.designators_in designators.now) }
{
    for designator in designators {
        if !is_designator(names, designator) {
            return false;
        }
    }
    true
}

/// Whether a designator is well formed.
fn is_designator<'r, 'a>(names: &'r [Spelling<'a>], designator: &'r Designator<'a>) -> bool
    ensures { IsTrue result ↔ formed.AreDesignators names.now (views.designator_of designator.now ∷ []) }
{
    match designator {
        Designator::Element(_, index, _) => {
            3 <= precedence(index.get()) && is_expression(names, index.get())
        }
        Designator::Member(_, _) => true,
    }
}

/// Whether a designation, if there is one, is well formed (C99 6.7.8).
fn is_designation<'r, 'a>(
    names: &'r [Spelling<'a>],
    designation: &'r Option<Designation<'a>>,
) -> bool
    ensures { IsTrue result ↔ formed.IsDesignation names.now (views.designation_of designation.now) }
{
    match designation {
        None => true,
        Some(designation) => {
            !is_no_designator(designation.designators.as_slice())
                && are_designators(names, designation.designators.as_slice())
        }
    }
}

/// Whether an initializer is well formed (C99 6.7.8).
#[cycle(initializers)]
#[tactic(auto, using(c_syntax::proofs::StatementViews::braced_view))]
fn is_initializer<'r, 'a>(names: &'r [Spelling<'a>], initializer: &'r Initializer<'a>) -> bool
    ensures { IsTrue result ↔ formed.IsInitializer names.now (views.initializer_of initializer.now) }
{
    match initializer {
        Initializer::Value(value) => is_argument(names, value.expression.get()),
        Initializer::Braced(_, first, others, _, _) => {
            is_item(names, first.get()) && are_more_items(names, others.as_slice())
        }
    }
}

/// Whether an initializer in a list is well formed.
#[cycle(initializers)]
#[tactic(auto, using(c_syntax::proofs::StatementViews::item_view))]
fn is_item<'r, 'a>(names: &'r [Spelling<'a>], item: &'r InitializerItem<'a>) -> bool
    ensures { IsTrue result ↔ formed.IsItem names.now (views.item_of item.now) }
{
    is_designation(names, &item.designation) && is_initializer(names, &item.initializer)
}

/// Whether the initializers behind the first are well formed.
#[cycle(initializers)]
fn are_more_items<'r, 'a>(
    names: &'r [Spelling<'a>],
    others: &'r [(Position, InitializerItem<'a>)],
) -> bool
    ensures { IsTrue result ↔ formed.AreMoreItems names.now (views.more_items_in others.now) }
{
    for (_, item) in others {
        if !is_item(names, item) {
            return false;
        }
    }
    true
}

/// Whether an expression is well formed and has no more levels.
fn is_whole<'r, 'a>(
    names: &'r [Spelling<'a>],
    expression: &'r Expression<'a>,
    levels: usize,
) -> bool
    ensures { IsTrue result ↔ formed.IsWhole levels names.now (view.expression_of expression.now) }
{
    expression_fits(expression, levels) && is_expression(names, expression)
}

/// Whether an expression, if there is one, is well formed and has no more levels.
fn is_optional<'r, 'a>(
    names: &'r [Spelling<'a>],
    expression: &'r Option<Boxed<Expression<'a>>>,
    levels: usize,
) -> bool
    ensures { IsTrue result ↔ formed.IsOptional levels names.now (views.optional_of expression.now) }
{
    match expression {
        None => true,
        Some(expression) => is_whole(names, expression.get(), levels),
    }
}

/// Whether specifiers of a declaration are well formed and have no more levels (C99 6.7).
fn begin_declaration<'r, 'a>(
    names: &'r [Spelling<'a>],
    specifiers: &'r [Specifier<'a>],
    levels: usize,
) -> bool
    ensures { IsTrue result ↔ formed.BeginDeclaration levels names.now (view.specifiers_in specifiers.now) }
{
    specifiers_fit(specifiers, levels) && are_specifiers(names, specifiers)
}

/// Whether a declarator of a declaration is well formed and has no more levels (C99 6.7).
fn is_declared<'r, 'a>(
    names: &'r [Spelling<'a>],
    declarator: &'r Declarator<'a>,
    levels: usize,
) -> bool
    ensures { IsTrue result ↔ formed.IsDeclared levels names.now (view.declarator_of declarator.now) }
{
    declarator_fits(declarator, levels) && is_named(names, declarator)
}

/// Whether an initializer behind a declarator, if there is one, is well formed and has no more levels (C99 6.7.8).
fn is_initialized<'r, 'a>(
    names: &'r [Spelling<'a>],
    initializer: &'r Option<(Position, Boxed<Initializer<'a>>)>,
    levels: usize,
) -> bool
    ensures { IsTrue result ↔ formed.IsInitialized levels names.now (views.initialized_of initializer.now) }
{
    match initializer {
        None => true,
        Some((_, initializer)) => {
            initializer_fits(initializer.get(), levels) && is_initializer(names, initializer.get())
        }
    }
}

/// Whether a declarator with its initializer is well formed in a function, where it adds no typedef name.
fn is_local_declarator<'r, 'a>(
    names: &'r [Spelling<'a>],
    declared: &'r InitDeclarator<'a>,
    levels: usize,
) -> bool
    ensures { IsTrue result ↔ formed.IsInitDeclarator levels false names.now (views.init_declarator_of declared.now) }
{
    is_declared(names, declared.declarator.get(), levels)
        && is_initialized(names, &declared.initializer, levels)
}

/// Whether the declarators behind the first are well formed in a function.
fn are_more_local_declarators<'r, 'a>(
    names: &'r [Spelling<'a>],
    others: &'r [(Position, InitDeclarator<'a>)],
    levels: usize,
) -> bool
    ensures { IsTrue result ↔ formed.AreMoreInitDeclarators levels false names.now
        (views.more_init_declarators_in others.now) }
{
    for (_, declared) in others {
        if !is_local_declarator(names, declared, levels) {
            return false;
        }
    }
    true
}

/// Whether the declarators of a declaration in a function are well formed.
fn are_local_declarators<'r, 'a>(
    names: &'r [Spelling<'a>],
    declarators: &'r Option<Boxed<InitDeclarators<'a>>>,
    levels: usize,
) -> bool
    ensures { IsTrue result ↔ formed.AreInitDeclarators levels false names.now
        (views.init_declarators_of declarators.now) }
{
    match declarators {
        None => true,
        Some(declarators) => {
            let declarators = declarators.get();
            is_local_declarator(names, &declarators.first, levels)
                && are_more_local_declarators(names, declarators.others.as_slice(), levels)
        }
    }
}

/// Whether a declaration in a function is well formed: it is no typedef.
fn is_local<'r, 'a>(
    names: &'r [Spelling<'a>],
    declaration: &'r Declaration<'a>,
    levels: usize,
) -> bool
    ensures { IsTrue result ↔ formed.IsLocal levels names.now (views.declaration_of declaration.now) }
{
    !has_typedef(declaration.specifiers.as_slice())
        && begin_declaration(names, declaration.specifiers.as_slice(), levels)
        && are_local_declarators(names, &declaration.declarators, levels)
}

/// Whether the first part of the head of a `for` is well formed (C99 6.8.5.3).
fn is_for_init<'r, 'a>(names: &'r [Spelling<'a>], init: &'r ForInit<'a>, levels: usize) -> bool
    ensures { IsTrue result ↔ formed.IsForInit levels names.now (views.for_init_of init.now) }
{
    match init {
        ForInit::Declaration(declaration) => is_local(names, declaration, levels),
        ForInit::Expression(expression, _) => is_optional(names, expression, levels),
    }
}

/// Whether a statement is well formed, each of its expressions and declarations with no more levels (C99 6.8).
#[cycle(statements)]
fn is_statement<'r, 'a>(
    names: &'r [Spelling<'a>],
    statement: &'r Statement<'a>,
    levels: usize,
) -> bool
    ensures { IsTrue result ↔ formed.IsStatement levels names.now (views.statement_of statement.now) }
{
    match statement {
        Statement::Block(block) => is_block(names, block, levels),
        Statement::Break(_, _) | Statement::Continue(_, _) => true,
        Statement::Expression(expression, _) | Statement::Return(_, expression, _) => {
            is_optional(names, expression, levels)
        }
        Statement::If(_, condition, inner) | Statement::While(_, condition, inner) => {
            is_whole(names, condition.inner.get(), levels)
                && is_statement(names, inner.get(), levels)
        }
        Statement::IfElse(_, condition, first, _, second) => {
            !ends_open(first.get())
                && is_whole(names, condition.inner.get(), levels)
                && is_statement(names, first.get(), levels)
                && is_statement(names, second.get(), levels)
        }
        Statement::Switch(_, value, block) => {
            is_whole(names, value.inner.get(), levels) && is_block(names, block, levels)
        }
        Statement::Do(_, inner, end) => {
            is_statement(names, inner.get(), levels)
                && is_whole(names, end.condition.inner.get(), levels)
        }
        Statement::For(_, head, inner) => {
            is_for_init(names, &head.init, levels)
                && is_optional(names, &head.condition, levels)
                && is_optional(names, &head.step, levels)
                && is_statement(names, inner.get(), levels)
        }
        Statement::Case(label, inner) => {
            3 <= precedence(label.value.get())
                && is_whole(names, label.value.get(), levels)
                && is_statement(names, inner.get(), levels)
        }
        Statement::Default(_, _, inner) => is_statement(names, inner.get(), levels),
    }
}

/// Whether a block is well formed (C99 6.8.2).
#[cycle(statements)]
#[tactic(auto, using(c_syntax::proofs::StatementViews::block_view))]
fn is_block<'r, 'a>(names: &'r [Spelling<'a>], block: &'r Block<'a>, levels: usize) -> bool
    ensures { IsTrue result ↔ formed.IsBlock levels names.now (views.block_of block.now) }
{
    are_items(names, block.items.as_slice(), levels)
}

/// Whether what stands in a block is well formed.
#[cycle(statements)]
fn are_items<'r, 'a>(names: &'r [Spelling<'a>], items: &'r [BlockItem<'a>], levels: usize) -> bool
    ensures { IsTrue result ↔ formed.AreItems levels names.now (views.items_in items.now) }
{
    for item in items {
        if !is_block_item(names, item, levels) {
            return false;
        }
    }
    true
}

/// Whether a declaration or statement of a block is well formed.
#[cycle(statements)]
fn is_block_item<'r, 'a>(names: &'r [Spelling<'a>], item: &'r BlockItem<'a>, levels: usize) -> bool
    ensures { IsTrue result ↔ formed.IsBlockItem levels names.now (views.block_item_of item.now) }
{
    match item {
        BlockItem::Declaration(declaration) => is_local(names, declaration, levels),
        BlockItem::Statement(statement) => is_statement(names, statement.get(), levels),
    }
}

/// Adds the name of a declarator, if it has one, to the typedef names.
fn add_declared<'a>(
    names: &mut Vec<Spelling<'a>>,
    declarator: &Declarator<'a>,
) -> Result<(), AllocError>
    ensures { OnOk result (names.new.items ≡ formed.with_declared (formed.declared (view.declarator_of declarator.now))
        names.old.items) }
{
    match declared_name(declarator) {
        None => Ok(()),
        Some(name) => {
            names.push(name)?;
            Ok(())
        }
    }
}

/// Adds the name of a declarator to the typedef names, where it is a typedef's (C99 6.7.7).
fn add_name<'a>(
    names: &mut Vec<Spelling<'a>>,
    is_typedef: bool,
    declarator: &Declarator<'a>,
) -> Result<(), AllocError>
    ensures { OnOk result (names.new.items ≡ formed.names_after is_typedef (view.declarator_of declarator.now)
        names.old.items) }
{
    if is_typedef {
        add_declared(names, declarator)
    } else {
        Ok(())
    }
}

/// Whether a declarator with its initializer is well formed at file scope. Where it is, its name has been added to the
/// typedef names, if it is a typedef's. An error: no memory for the name.
fn is_init_declarator<'a>(
    names: &mut Vec<Spelling<'a>>,
    is_typedef: bool,
    declared: &InitDeclarator<'a>,
    levels: usize,
) -> Result<bool, AllocError>
    ensures answer { IfOk result (λ b. IsTrue b ↔ formed.IsInitDeclarator levels is_typedef names.old.items
        (views.init_declarator_of declared.now)) }
    ensures names { IfOk result (λ b. IsTrue b → names.new.items
        ≡ formed.names_after is_typedef (view.declarator_of declared.now.declarator) names.old.items) }
{
    if !is_declared(names.as_slice(), declared.declarator.get(), levels) {
        return Ok(false);
    }
    add_name(names, is_typedef, declared.declarator.get())?;
    Ok(is_initialized(names.as_slice(), &declared.initializer, levels))
}

/// Whether the declarators behind the first are well formed at file scope. Where they are, their names have been added
/// to the typedef names, if they are a typedef's. An error: no memory for them.
fn are_more_init_declarators<'a>(
    names: &mut Vec<Spelling<'a>>,
    is_typedef: bool,
    others: &[(Position, InitDeclarator<'a>)],
    levels: usize,
) -> Result<bool, AllocError>
    ensures answer { IfOk result (λ b. IsTrue b ↔ formed.AreMoreInitDeclarators levels is_typedef names.old.items
        (views.more_init_declarators_in others.now)) }
    ensures names { IfOk result (λ b. IsTrue b → names.new.items
        ≡ formed.names_after_more is_typedef (views.more_init_declarators_in others.now) names.old.items) }
{
    for (_, declared) in others {
        if !is_init_declarator(names, is_typedef, declared, levels)? {
            return Ok(false);
        }
    }
    Ok(true)
}

/// Whether the declarators of a declaration at file scope are well formed. Where they are, their names have been added
/// to the typedef names, if they are a typedef's. An error: no memory for them.
fn are_init_declarators<'a>(
    names: &mut Vec<Spelling<'a>>,
    is_typedef: bool,
    declarators: &Option<Boxed<InitDeclarators<'a>>>,
    levels: usize,
) -> Result<bool, AllocError>
    ensures answer { IfOk result (λ b. IsTrue b ↔ formed.AreInitDeclarators levels is_typedef names.old.items
        (views.init_declarators_of declarators.now)) }
    ensures names { IfOk result (λ b. IsTrue b → names.new.items
        ≡ formed.names_after_all is_typedef (views.init_declarators_of declarators.now) names.old.items) }
{
    match declarators {
        None => Ok(true),
        Some(declarators) => {
            if !is_init_declarator(names, is_typedef, &declarators.get().first, levels)? {
                return Ok(false);
            }
            are_more_init_declarators(
                names,
                is_typedef,
                declarators.get().others.as_slice(),
                levels,
            )
        }
    }
}

/// Whether a declaration at file scope is well formed. Where it is, its names have been added to the typedef names, if
/// it is a typedef. An error: no memory for them.
fn is_declaration<'a>(
    names: &mut Vec<Spelling<'a>>,
    declaration: &Declaration<'a>,
    levels: usize,
) -> Result<bool, AllocError>
    ensures answer { IfOk result (λ b. IsTrue b ↔ formed.IsDeclaration levels names.old.items
        (views.declaration_of declaration.now)) }
    ensures names { IfOk result (λ b. IsTrue b → names.new.items
        ≡ formed.names_after_declaration (views.declaration_of declaration.now) names.old.items) }
{
    if !begin_declaration(names.as_slice(), declaration.specifiers.as_slice(), levels) {
        return Ok(false);
    }
    let is_typedef = has_typedef(declaration.specifiers.as_slice());
    are_init_declarators(names, is_typedef, &declaration.declarators, levels)
}

/// Whether specifiers and a declarator may stand before a function's block, and are well formed (C99 6.9.1).
fn begin_definition<'r, 'a>(
    names: &'r [Spelling<'a>],
    specifiers: &'r [Specifier<'a>],
    declarator: &'r Declarator<'a>,
    levels: usize,
) -> bool
    ensures { IsTrue result ↔ (formed.BeginDeclaration levels names.now (view.specifiers_in specifiers.now)
        × formed.IsDeclared levels names.now (view.declarator_of declarator.now)
        × (formed.defines_function (view.declarator_of declarator.now) ≡ true)) }
{
    begin_declaration(names, specifiers, levels)
        && is_declared(names, declarator, levels)
        && defines_function(declarator)
}

/// Whether a function definition or declaration is well formed. Where it is, its names have been added to the typedef
/// names, if it is a typedef. An error: no memory for them.
fn is_external<'a>(
    names: &mut Vec<Spelling<'a>>,
    external: &External<'a>,
    levels: usize,
) -> Result<bool, AllocError>
    ensures answer { IfOk result (λ b. IsTrue b ↔ formed.IsExternal levels names.old.items
        (views.external_of external.now)) }
    ensures names { IfOk result (λ b. IsTrue b → names.new.items
        ≡ formed.names_after_external (views.external_of external.now) names.old.items) }
{
    match external {
        External::Function(specifiers, declarator, block) => {
            if !begin_definition(
                names.as_slice(),
                specifiers.as_slice(),
                declarator.get(),
                levels,
            ) {
                return Ok(false);
            }
            add_name(names, has_typedef(specifiers.as_slice()), declarator.get())?;
            Ok(block_fits(block, levels) && is_block(names.as_slice(), block, levels))
        }
        External::Declaration(declaration) => is_declaration(names, declaration, levels),
    }
}

/// Whether function definitions and declarations are well formed, each with the typedef names that those before it
/// leave (C99 6.9). An error: no memory for the names.
fn are_externals<'a>(
    names: &mut Vec<Spelling<'a>>,
    externals: &[External<'a>],
    levels: usize,
) -> Result<bool, AllocError>
    ensures { IfOk result (λ b. IsTrue b ↔ formed.AreExternals levels names.old.items
        (views.externals_in externals.now)) }
{
    for external in externals {
        if !is_external(names, external, levels)? {
            return Ok(false);
        }
    }
    Ok(true)
}

/// Whether a file is well formed, with at most 200 levels of nesting in each of its parts (C99 6.5 to 6.9), or the
/// answer that there is no memory for its typedef names.
pub fn well_formed(alloc: Global, unit: &Unit) -> Result<bool, AllocError>
    ensures { IfOk result (λ b. IsTrue b ↔ formed.IsWellFormed (views.unit_of unit.now)) }
{
    let mut names = Vec::new(alloc);
    names.push(Spelling::new(SIZE_T))?;
    match unit.externals.as_slice() {
        [] => Ok(false),
        externals => are_externals(&mut names, externals, LEVELS),
    }
}
