//! The words of declarations, statements and files, in the order of the text.

ghost use Rattle.std.specs.Prelude.{◌≡◌, ◌++◌, ◌∷◌, OnOk, IfOk};
ghost use Rattle.c_lexer.specs.declared.punctuator.Punctuator.TheVariants as punctuators;
ghost use Rattle.c_lexer.specs.declared.keyword.Keyword.TheVariants as keywords;
ghost use Rattle.c_syntax.specs.Words as spec;
ghost use Rattle.c_syntax.specs.View as view;
ghost use Rattle.c_syntax.specs.StatementsView as views;

use crate::tree_words::{
    put_declarator, put_expression, put_identifier, put_keyword, put_punctuator, put_specifiers,
    put_tail,
};
use c_lexer::{Keyword, Punctuator};
use c_syntax::declaration::{
    Declaration, Designation, Designator, InitDeclarator, Initializer, InitializerItem,
};
use c_syntax::position::{Position, Positioned};
use c_syntax::statement::{
    Block, BlockItem, External, ForHead, ForInit, Parenthesized, Statement, Unit,
};
use c_syntax::tree::Expression;
use std::alloc::{AllocError, Global};
use tree_containers::Boxed;

/// Puts the words of designators (C99 6.7.8).
fn put_designators<'a>(
    out: &mut Vec<Positioned<'a>>,
    designators: &[Designator<'a>],
) -> Result<(), AllocError>
    ensures { OnOk result ((i : spec.Words) → out.new.items ++ i ≡ out.old.items
        ++ spec.designators_words (views.designators_in designators.now) i) }
{
    for designator in designators {
        put_designator(out, designator)?;
    }
    Ok(())
}

/// Puts the words of a designator.
fn put_designator<'a>(
    out: &mut Vec<Positioned<'a>>,
    designator: &Designator<'a>,
) -> Result<(), AllocError>
    ensures { OnOk result ((i : spec.Words) → out.new.items ++ i ≡ out.old.items
        ++ spec.designator_words (views.designator_of designator.now) i) }
{
    match designator {
        Designator::Element(left, index, right) => {
            put_punctuator(out, Punctuator::LeftBracket, *left)?;
            put_expression(out, index.get())?;
            put_punctuator(out, Punctuator::RightBracket, *right)
        }
        Designator::Member(position, name) => {
            put_punctuator(out, Punctuator::Dot, *position)?;
            put_identifier(out, name)
        }
    }
}

/// Puts designators and their `=`, if there are any.
fn put_designation<'a>(
    out: &mut Vec<Positioned<'a>>,
    designation: &Option<Designation<'a>>,
) -> Result<(), AllocError>
    ensures { OnOk result ((i : spec.Words) → out.new.items ++ i ≡ out.old.items
        ++ spec.designation_words (views.designation_of designation.now) i) }
{
    let Some(designation) = designation else {
        return Ok(());
    };
    put_designators(out, designation.designators.as_slice())?;
    put_punctuator(out, Punctuator::Assign, designation.equals)
}

/// Puts the words of an initializer (C99 6.7.8).
#[cycle(initializers)]
fn put_initializer<'a>(
    out: &mut Vec<Positioned<'a>>,
    initializer: &Initializer<'a>,
) -> Result<(), AllocError>
    ensures { OnOk result ((i : spec.Words) → out.new.items ++ i ≡ out.old.items
        ++ spec.initializer_words (views.initializer_of initializer.now) i) }
{
    match initializer {
        Initializer::Value(value) => put_expression(out, value.expression.get()),
        Initializer::Braced(left, first, others, comma, right) => {
            put_punctuator(out, Punctuator::LeftBrace, *left)?;
            put_item(out, first.get())?;
            put_more_items(out, others.as_slice())?;
            put_tail(out, *comma, *right)?;
            Ok(())
        }
    }
}

/// Puts the words of an initializer in a list.
#[cycle(initializers)]
fn put_item<'a>(out: &mut Vec<Positioned<'a>>, item: &InitializerItem<'a>) -> Result<(), AllocError>
    ensures { OnOk result ((i : spec.Words) → out.new.items ++ i ≡ out.old.items
        ++ spec.item_words (views.item_of item.now) i) }
{
    put_designation(out, &item.designation)?;
    put_initializer(out, &item.initializer)
}

/// Puts the words of initializers behind commas.
#[cycle(initializers)]
fn put_more_items<'a>(
    out: &mut Vec<Positioned<'a>>,
    others: &[(Position, InitializerItem<'a>)],
) -> Result<(), AllocError>
    ensures { OnOk result ((i : spec.Words) → out.new.items ++ i ≡ out.old.items
        ++ spec.more_items_words (views.more_items_in others.now) i) }
{
    for (comma, item) in others {
        put_punctuator(out, Punctuator::Comma, *comma)?;
        put_item(out, item)?;
    }
    Ok(())
}

/// Puts the words of a declarator and its initializer (C99 6.7).
fn put_init_declarator<'a>(
    out: &mut Vec<Positioned<'a>>,
    declared: &InitDeclarator<'a>,
) -> Result<(), AllocError>
    ensures { OnOk result ((i : spec.Words) → out.new.items ++ i ≡ out.old.items
        ++ spec.init_declarator_words (views.init_declarator_of declared.now) i) }
{
    put_declarator(out, declared.declarator.get())?;
    match &declared.initializer {
        None => Ok(()),
        Some((equals, initializer)) => {
            put_punctuator(out, Punctuator::Assign, *equals)?;
            put_initializer(out, initializer.get())
        }
    }
}

/// Puts the words of declarators with initializers behind commas.
fn put_more_init_declarators<'a>(
    out: &mut Vec<Positioned<'a>>,
    others: &[(Position, InitDeclarator<'a>)],
) -> Result<(), AllocError>
    ensures { OnOk result ((i : spec.Words) → out.new.items ++ i ≡ out.old.items
        ++ spec.more_init_declarators_words (views.more_init_declarators_in others.now) i) }
{
    for (comma, declared) in others {
        put_punctuator(out, Punctuator::Comma, *comma)?;
        put_init_declarator(out, declared)?;
    }
    Ok(())
}

/// Puts the words of a declaration (C99 6.7).
fn put_declaration<'a>(
    out: &mut Vec<Positioned<'a>>,
    declaration: &Declaration<'a>,
) -> Result<(), AllocError>
    ensures { OnOk result ((i : spec.Words) → out.new.items ++ i ≡ out.old.items
        ++ spec.declaration_words (views.declaration_of declaration.now) i) }
{
    put_specifiers(out, declaration.specifiers.as_slice())?;
    if let Some(declarators) = &declaration.declarators {
        let declarators = declarators.get();
        put_init_declarator(out, &declarators.first)?;
        put_more_init_declarators(out, declarators.others.as_slice())?;
    }
    put_punctuator(out, Punctuator::Semicolon, declaration.semicolon)
}

/// Puts the words of an expression, if there is one.
fn put_optional<'a>(
    out: &mut Vec<Positioned<'a>>,
    expression: &Option<Boxed<Expression<'a>>>,
) -> Result<(), AllocError>
    ensures { OnOk result ((i : spec.Words) → out.new.items ++ i ≡ out.old.items
        ++ spec.optional_words (views.optional_of expression.now) i) }
{
    match expression {
        None => Ok(()),
        Some(expression) => put_expression(out, expression.get()),
    }
}

/// Puts a keyword and an expression in parentheses.
fn put_condition<'a>(
    out: &mut Vec<Positioned<'a>>,
    keyword: Keyword,
    position: Position,
    condition: &Parenthesized<'a>,
) -> Result<(), AllocError>
    ensures { OnOk result ((i : spec.Words) → out.new.items ++ i ≡ out.old.items
        ++ (spec.keyword keyword position ∷ spec.punctuator punctuators.LeftParenthesis condition.now.left
        ∷ spec.expression_words (view.expression_of condition.now.inner)
        (spec.punctuator punctuators.RightParenthesis condition.now.right ∷ i))) }
{
    put_keyword(out, keyword, position)?;
    put_punctuator(out, Punctuator::LeftParenthesis, condition.left)?;
    put_expression(out, condition.inner.get())?;
    put_punctuator(out, Punctuator::RightParenthesis, condition.right)
}

/// Puts the first part of the head of a `for`, with its semicolon (C99 6.8.5.3).
fn put_for_init<'a>(out: &mut Vec<Positioned<'a>>, init: &ForInit<'a>) -> Result<(), AllocError>
    ensures { OnOk result ((i : spec.Words) → out.new.items ++ i ≡ out.old.items
        ++ spec.for_init_words (views.for_init_of init.now) i) }
{
    match init {
        ForInit::Declaration(declaration) => put_declaration(out, declaration),
        ForInit::Expression(expression, semicolon) => {
            put_optional(out, expression)?;
            put_punctuator(out, Punctuator::Semicolon, *semicolon)
        }
    }
}

/// Puts the condition and the step of a `for`, with the semicolon and the parenthesis behind them.
fn put_for_rest<'a>(out: &mut Vec<Positioned<'a>>, head: &ForHead<'a>) -> Result<(), AllocError>
    ensures { OnOk result ((i : spec.Words) → out.new.items ++ i ≡ out.old.items
        ++ spec.optional_words (views.optional_of head.now.condition)
        (spec.punctuator punctuators.Semicolon head.now.semicolon
        ∷ spec.optional_words (views.optional_of head.now.step) (spec.punctuator punctuators.RightParenthesis
        head.now.right ∷ i))) }
{
    put_optional(out, &head.condition)?;
    put_punctuator(out, Punctuator::Semicolon, head.semicolon)?;
    put_optional(out, &head.step)?;
    put_punctuator(out, Punctuator::RightParenthesis, head.right)
}

/// Puts the words of a statement (C99 6.8).
#[cycle(statements)]
fn put_statement<'a>(
    out: &mut Vec<Positioned<'a>>,
    statement: &Statement<'a>,
) -> Result<(), AllocError>
    ensures { OnOk result ((i : spec.Words) → out.new.items ++ i ≡ out.old.items
        ++ spec.statement_words (views.statement_of statement.now) i) }
{
    match statement {
        Statement::Block(block) => put_block(out, block),
        Statement::Expression(expression, semicolon) => {
            put_optional(out, expression)?;
            put_punctuator(out, Punctuator::Semicolon, *semicolon)
        }
        Statement::If(position, condition, inner) => {
            put_condition(out, Keyword::If, *position, condition)?;
            put_statement(out, inner.get())
        }
        Statement::IfElse(position, condition, first, middle, second) => {
            put_condition(out, Keyword::If, *position, condition)?;
            put_statement(out, first.get())?;
            put_keyword(out, Keyword::Else, *middle)?;
            put_statement(out, second.get())
        }
        Statement::Switch(position, value, block) => {
            put_condition(out, Keyword::Switch, *position, value)?;
            put_block(out, block)
        }
        Statement::While(position, condition, inner) => {
            put_condition(out, Keyword::While, *position, condition)?;
            put_statement(out, inner.get())
        }
        Statement::Do(position, inner, end) => {
            put_keyword(out, Keyword::Do, *position)?;
            put_statement(out, inner.get())?;
            put_condition(out, Keyword::While, end.again, &end.condition)?;
            put_punctuator(out, Punctuator::Semicolon, end.semicolon)
        }
        Statement::For(position, head, inner) => {
            put_keyword(out, Keyword::For, *position)?;
            put_punctuator(out, Punctuator::LeftParenthesis, head.left)?;
            put_for_init(out, &head.init)?;
            put_for_rest(out, head)?;
            put_statement(out, inner.get())
        }
        Statement::Case(label, inner) => {
            put_keyword(out, Keyword::Case, label.position)?;
            put_expression(out, label.value.get())?;
            put_punctuator(out, Punctuator::Colon, label.colon)?;
            put_statement(out, inner.get())
        }
        Statement::Default(position, colon, inner) => {
            put_keyword(out, Keyword::Default, *position)?;
            put_punctuator(out, Punctuator::Colon, *colon)?;
            put_statement(out, inner.get())
        }
        Statement::Break(position, semicolon) => {
            put_keyword(out, Keyword::Break, *position)?;
            put_punctuator(out, Punctuator::Semicolon, *semicolon)
        }
        Statement::Continue(position, semicolon) => {
            put_keyword(out, Keyword::Continue, *position)?;
            put_punctuator(out, Punctuator::Semicolon, *semicolon)
        }
        Statement::Return(position, value, semicolon) => {
            put_keyword(out, Keyword::Return, *position)?;
            put_optional(out, value)?;
            put_punctuator(out, Punctuator::Semicolon, *semicolon)
        }
    }
}

/// Puts the words of a block (C99 6.8.2).
#[cycle(statements)]
fn put_block<'a>(out: &mut Vec<Positioned<'a>>, block: &Block<'a>) -> Result<(), AllocError>
    ensures { OnOk result ((i : spec.Words) → out.new.items ++ i ≡ out.old.items
        ++ spec.block_words (views.block_of block.now) i) }
{
    put_punctuator(out, Punctuator::LeftBrace, block.left)?;
    put_block_items(out, block.items.as_slice())?;
    put_punctuator(out, Punctuator::RightBrace, block.right)
}

/// Puts the words of what stands in a block.
#[cycle(statements)]
fn put_block_items<'a>(
    out: &mut Vec<Positioned<'a>>,
    items: &[BlockItem<'a>],
) -> Result<(), AllocError>
    ensures { OnOk result ((i : spec.Words) → out.new.items ++ i ≡ out.old.items
        ++ spec.items_words (views.items_in items.now) i) }
{
    for item in items {
        put_block_item(out, item)?;
    }
    Ok(())
}

/// Puts the words of a declaration or statement of a block.
#[cycle(statements)]
fn put_block_item<'a>(out: &mut Vec<Positioned<'a>>, item: &BlockItem<'a>) -> Result<(), AllocError>
    ensures { OnOk result ((i : spec.Words) → out.new.items ++ i ≡ out.old.items
        ++ spec.block_item_words (views.block_item_of item.now) i) }
{
    match item {
        BlockItem::Declaration(declaration) => put_declaration(out, declaration),
        BlockItem::Statement(statement) => put_statement(out, statement.get()),
    }
}

/// Puts the words of a function definition or a declaration (C99 6.9).
fn put_external<'a>(
    out: &mut Vec<Positioned<'a>>,
    external: &External<'a>,
) -> Result<(), AllocError>
    ensures { OnOk result ((i : spec.Words) → out.new.items ++ i ≡ out.old.items
        ++ spec.external_words (views.external_of external.now) i) }
{
    match external {
        External::Function(specifiers, declarator, block) => {
            put_specifiers(out, specifiers.as_slice())?;
            put_declarator(out, declarator.get())?;
            put_block(out, block)
        }
        External::Declaration(declaration) => put_declaration(out, declaration),
    }
}

/// The words of a file with their positions, or the answer that there is no memory for them.
pub fn words<'a>(alloc: Global, unit: &Unit<'a>) -> Result<Vec<Positioned<'a>>, AllocError>
    ensures { IfOk result (λ words. words.items ≡ spec.unit_words (views.unit_of unit.now)) }
{
    let mut out = Vec::new(alloc);
    for external in unit.externals.as_slice() {
        put_external(&mut out, external)?;
    }
    Ok(out)
}
