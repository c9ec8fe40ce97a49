//! Reading declarations (C99 6.7). Expressions, declarators, specifiers and initializers have at most some number of
//! levels.

ghost use Rattle.std.specs.Prelude.{◌≡◌, true, false, None, length, suc, IfOk, IfErr};
ghost use Rattle.c_grammar.specs.DeclarationReader as spec;
ghost use Rattle.c_grammar.specs.Nested.{readers};
ghost use Rattle.c_grammar.specs.Reads.{Reads};
ghost use Rattle.c_grammar.specs.declared.declarator_kind.DeclaratorKind.TheVariants as declarator_kinds;
ghost use Rattle.c_grammar.specs.declared.cursor.Fault.TheVariants.{Refused};
ghost use Rattle.c_syntax.specs.Formed as formed;
ghost use Rattle.c_syntax.specs.View.{declarator_of, specifiers_in};
ghost use Rattle.c_syntax.specs.StatementsView.{initialized_of, init_declarator_of, more_init_declarators_in};
ghost use Rattle.c_syntax.specs.StatementsView.{declaration_of};

use crate::initializer::initializer;
use c_expressions::leveled::{beside, with_item};
use c_expressions::nested::{declarator, specifiers};
use c_grammar::cursor::{Cursor, Fault, next_is};
use c_grammar::declarator_kind::DeclaratorKind;
use c_grammar::typedef_names::TypedefNames;
use c_lexer::Punctuator;
use c_syntax::names::declared_name;
use c_syntax::specifiers::has_typedef;
use c_syntax::{
    Boxed, Declaration, Declarator, InitDeclarator, InitDeclarators, Initializer, Items, Position,
    Specifier,
};
use std::alloc::{AllocError, Global};

/// Puts the name of a declarator, if it has one, behind the typedef names, or answers that there is no memory (C99
/// 6.7.7).
fn add_typedef_name<'a>(
    names: &mut TypedefNames<'a>,
    declarator: &Declarator<'a>,
) -> Result<(), AllocError>
    ensures { IfOk result (λ _. names.new ≡ formed.names_after true (declarator_of declarator.now) names.old) }
{
    if let Some(name) = declared_name(declarator) {
        names.push(name)?;
    }
    Ok(())
}

/// Puts the name of a declarator, if the specifiers before it have `typedef`, behind the typedef names, or answers that
/// there is no memory (C99 6.7.7).
pub(crate) fn add_defined_name<'a>(
    names: &mut TypedefNames<'a>,
    specifiers: &[Specifier<'a>],
    declarator: &Declarator<'a>,
) -> Result<(), AllocError>
    ensures { IfOk result (λ _. names.new ≡ formed.names_after (formed.has_typedef (specifiers_in specifiers.now))
        (declarator_of declarator.now) names.old) }
{
    if has_typedef(specifiers) {
        add_typedef_name(names, declarator)?;
    }
    Ok(())
}

/// Reads a declarator with a name (C99 6.7.5).
pub(crate) fn named_declarator<'a>(
    alloc: Global,
    names: &TypedefNames<'a>,
    tokens: &mut Cursor<'_, 'a>,
    levels: u8,
) -> Result<Boxed<Declarator<'a>>, Fault>
    ensures { Reads declarator_of ((readers names.now (suc levels)).declarator declarator_kinds.Named
        tokens.old.rest.now)
        result tokens.new.rest.now }
{
    let declarator = declarator(
        alloc,
        names,
        tokens,
        levels as usize + 1,
        DeclaratorKind::Named,
    )?;
    Ok(declarator.tree)
}

/// Reads `=` and an initializer, or nothing where no `=` stands next (C99 6.7).
#[tactic(auto, unfolding(c_grammar::specs::DeclarationReader::initialized_from))]
fn initialized<'a>(
    alloc: Global,
    names: &TypedefNames<'a>,
    tokens: &mut Cursor<'_, 'a>,
    levels: u8,
) -> Result<Option<(Position, Boxed<Initializer<'a>>)>, Fault>
    ensures { Reads initialized_of (spec.initialized_from levels names.now tokens.old.rest.now) result
        tokens.new.rest.now }
{
    if !next_is(tokens.rest, Punctuator::Assign) {
        return Ok(None);
    }
    let position = tokens.expect(Punctuator::Assign)?;
    let value = initializer(alloc, names, tokens, levels as usize + 1)?;
    let value = Boxed::new(alloc, value)?;
    Ok(Some((position, value)))
}

/// Reads what stands behind a declarator that is no typedef's (C99 6.7).
#[tactic(auto, unfolding(c_grammar::specs::DeclarationReader::init_declarator_behind))]
fn init_declarator_behind<'a>(
    alloc: Global,
    names: &TypedefNames<'a>,
    tokens: &mut Cursor<'_, 'a>,
    levels: u8,
    declarator: Boxed<Declarator<'a>>,
) -> Result<InitDeclarator<'a>, Fault>
    ensures { Reads init_declarator_of (spec.init_declarator_behind levels false names.now
        (declarator_of declarator.entry) tokens.old.rest.now) result tokens.new.rest.now }
{
    let initializer = initialized(alloc, names, tokens, levels);
    let (declarator, initializer) = beside(declarator, initializer)?;
    Ok(InitDeclarator {
        declarator,
        initializer,
    })
}

/// Reads a declarator of a declaration that is no typedef, and its initializer or none (C99 6.7).
#[tactic(auto, unfolding(c_grammar::specs::DeclarationReader::init_declarator_from))]
fn init_declarator<'a>(
    alloc: Global,
    names: &TypedefNames<'a>,
    tokens: &mut Cursor<'_, 'a>,
    levels: u8,
) -> Result<InitDeclarator<'a>, Fault>
    ensures { Reads init_declarator_of (spec.init_declarator_from levels false names.now tokens.old.rest.now) result
        tokens.new.rest.now }
{
    let declarator = named_declarator(alloc, names, tokens, levels)?;
    init_declarator_behind(alloc, names, tokens, levels, declarator)
}

/// Reads the declarators behind the first of a declaration that is no typedef, each behind its comma (C99 6.7).
#[tactic(auto, unfolding(c_grammar::specs::DeclarationReader::more_init_declarators_from))]
fn more_init_declarators<'a>(
    alloc: Global,
    names: &TypedefNames<'a>,
    tokens: &mut Cursor<'_, 'a>,
    levels: u8,
) -> Result<Items<(Position, InitDeclarator<'a>)>, Fault>
    ensures { Reads more_init_declarators_in (spec.more_init_declarators_from levels false (length tokens.old.rest.now)
        names.now tokens.old.rest.now) result tokens.new.rest.now }
{
    let mut others = Vec::new(alloc);
    for _ in 0..tokens.rest.len() {
        let Some(position) = tokens.take(Punctuator::Comma) else {
            return Ok(Items::from_vec(others));
        };
        let (before, other) = beside(others, init_declarator(alloc, names, tokens, levels))?;
        others = with_item(before, (position, other))?;
    }
    Ok(Items::from_vec(others))
}

/// Reads what stands behind a typedef's declarator, whose name is a typedef name from there on (C99 6.7, 6.7.7).
#[tactic(auto, unfolding(c_grammar::specs::DeclarationReader::init_declarator_behind))]
fn typedef_behind<'a>(
    alloc: Global,
    names: &mut TypedefNames<'a>,
    tokens: &mut Cursor<'_, 'a>,
    levels: u8,
    declarator: Boxed<Declarator<'a>>,
) -> Result<InitDeclarator<'a>, Fault>
    ensures read { Reads init_declarator_of (spec.init_declarator_behind levels true names.old
        (declarator_of declarator.entry) tokens.old.rest.now) result tokens.new.rest.now }
    ensures declarator { IfOk result (λ x. x.declarator ≡ declarator.entry) }
    ensures names { IfOk result (λ _. names.new ≡ formed.names_after true (declarator_of declarator.entry) names.old) }
{
    let added = add_typedef_name(names, declarator.get());
    let (declarator, ()) = beside(declarator, added)?;
    let initializer = initialized(alloc, names, tokens, levels);
    let (declarator, initializer) = beside(declarator, initializer)?;
    Ok(InitDeclarator {
        declarator,
        initializer,
    })
}

/// Reads a typedef's declarator, and its initializer or none (C99 6.7, 6.7.7).
#[tactic(auto, unfolding(c_grammar::specs::DeclarationReader::init_declarator_from))]
fn typedef_declarator<'a>(
    alloc: Global,
    names: &mut TypedefNames<'a>,
    tokens: &mut Cursor<'_, 'a>,
    levels: u8,
) -> Result<InitDeclarator<'a>, Fault>
    ensures read { Reads init_declarator_of (spec.init_declarator_from levels true names.old tokens.old.rest.now)
        result tokens.new.rest.now }
    ensures names { IfOk result (λ x. names.new ≡ formed.names_after true (declarator_of x.declarator) names.old) }
{
    let declarator = named_declarator(alloc, names, tokens, levels)?;
    typedef_behind(alloc, names, tokens, levels, declarator)
}

/// Reads the declarators behind the first of a typedef, each behind its comma (C99 6.7, 6.7.7).
#[tactic(auto, unfolding(c_grammar::specs::DeclarationReader::more_init_declarators_from))]
fn more_typedef_declarators<'a>(
    alloc: Global,
    names: &mut TypedefNames<'a>,
    tokens: &mut Cursor<'_, 'a>,
    levels: u8,
) -> Result<Items<(Position, InitDeclarator<'a>)>, Fault>
    ensures read { Reads more_init_declarators_in (spec.more_init_declarators_from levels true
        (length tokens.old.rest.now) names.old tokens.old.rest.now) result tokens.new.rest.now }
    ensures names { IfOk result (λ z. names.new ≡ formed.names_after_more true (more_init_declarators_in z) names.old) }
{
    let mut others = Vec::new(alloc);
    for _ in 0..tokens.rest.len() {
        let Some(position) = tokens.take(Punctuator::Comma) else {
            return Ok(Items::from_vec(others));
        };
        let (before, other) = beside(others, typedef_declarator(alloc, names, tokens, levels))?;
        others = with_item(before, (position, other))?;
    }
    Ok(Items::from_vec(others))
}

/// Reads the rest of a declaration that is no typedef, behind its first declarator (C99 6.7).
#[tactic(auto, unfolding(c_grammar::specs::DeclarationReader::declaration_behind))]
fn plain_declaration_behind<'a>(
    alloc: Global,
    names: &TypedefNames<'a>,
    tokens: &mut Cursor<'_, 'a>,
    levels: u8,
    specifiers: Items<Specifier<'a>>,
    declarator: Boxed<Declarator<'a>>,
) -> Result<Declaration<'a>, Fault>
    requires { formed.has_typedef (specifiers_in specifiers) ≡ false }
    ensures read { Reads declaration_of (spec.declaration_behind levels names.now (specifiers_in specifiers.entry)
        (declarator_of declarator.entry) tokens.old.rest.now) result tokens.new.rest.now }
    ensures plain { IfOk result (λ x. formed.has_typedef (specifiers_in x.specifiers) ≡ false) }
{
    let first = init_declarator_behind(alloc, names, tokens, levels, declarator);
    let parts = beside(specifiers, first)?;
    let parts = beside(parts, more_init_declarators(alloc, names, tokens, levels))?;
    let (parts, semicolon) = beside(parts, tokens.expect(Punctuator::Semicolon))?;
    let ((specifiers, first), others) = parts;
    let declarators = Boxed::new(alloc, InitDeclarators { first, others });
    let (specifiers, declarators) = beside(specifiers, declarators)?;
    Ok(Declaration {
        specifiers,
        declarators: Some(declarators),
        semicolon,
    })
}

/// Reads the rest of a typedef behind its first declarator (C99 6.7, 6.7.7).
#[tactic(auto, unfolding(c_grammar::specs::DeclarationReader::declaration_behind))]
fn typedef_declaration_behind<'a>(
    alloc: Global,
    names: &mut TypedefNames<'a>,
    tokens: &mut Cursor<'_, 'a>,
    levels: u8,
    specifiers: Items<Specifier<'a>>,
    declarator: Boxed<Declarator<'a>>,
) -> Result<Declaration<'a>, Fault>
    requires { formed.has_typedef (specifiers_in specifiers) ≡ true }
    ensures read { Reads declaration_of (spec.declaration_behind levels names.old (specifiers_in specifiers.entry)
        (declarator_of declarator.entry) tokens.old.rest.now) result tokens.new.rest.now }
    ensures names { IfOk result (λ x. names.new ≡ formed.names_after_declaration (declaration_of x) names.old) }
{
    let first = typedef_behind(alloc, names, tokens, levels, declarator);
    let parts = beside(specifiers, first)?;
    let parts = beside(
        parts,
        more_typedef_declarators(alloc, names, tokens, levels),
    )?;
    let (parts, semicolon) = beside(parts, tokens.expect(Punctuator::Semicolon))?;
    let ((specifiers, first), others) = parts;
    let declarators = Boxed::new(alloc, InitDeclarators { first, others });
    let (specifiers, declarators) = beside(specifiers, declarators)?;
    Ok(Declaration {
        specifiers,
        declarators: Some(declarators),
        semicolon,
    })
}

/// Reads the rest of a declaration behind its first declarator, and puts the names of a typedef behind the typedef
/// names (C99 6.7, 6.7.7).
pub(crate) fn declaration_behind<'a>(
    alloc: Global,
    names: &mut TypedefNames<'a>,
    tokens: &mut Cursor<'_, 'a>,
    levels: u8,
    specifiers: Items<Specifier<'a>>,
    declarator: Boxed<Declarator<'a>>,
) -> Result<Declaration<'a>, Fault>
    ensures read { Reads declaration_of (spec.declaration_behind levels names.old (specifiers_in specifiers.entry)
        (declarator_of declarator.entry) tokens.old.rest.now) result tokens.new.rest.now }
    ensures names { IfOk result (λ x. names.new ≡ formed.names_after_declaration (declaration_of x) names.old) }
{
    if has_typedef(specifiers.as_slice()) {
        return typedef_declaration_behind(alloc, names, tokens, levels, specifiers, declarator);
    }
    let declaration = plain_declaration_behind(
        alloc, names, tokens, levels, specifiers, declarator,
    )?;
    Ok(declaration)
}

/// Reads the semicolon of a declaration without declarators (C99 6.7).
#[tactic(auto, unfolding(c_grammar::specs::DeclarationReader::bare_declaration_from))]
pub(crate) fn bare_declaration<'a>(
    tokens: &mut Cursor<'_, 'a>,
    levels: u8,
    specifiers: Items<Specifier<'a>>,
) -> Result<Declaration<'a>, Fault>
    ensures read { Reads declaration_of (spec.bare_declaration_from levels (specifiers_in specifiers.entry)
        tokens.old.rest.now) result tokens.new.rest.now }
    ensures bare { IfOk result (λ x. x.declarators ≡ None) }
    ensures no_memory { IfErr result (λ f. f ≡ Refused) }
{
    let (specifiers, semicolon) = beside(specifiers, tokens.expect(Punctuator::Semicolon))?;
    Ok(Declaration {
        specifiers,
        declarators: None,
        semicolon,
    })
}

/// Reads a declaration in a function, where no `typedef` stands (C99 6.7).
#[tactic(auto, unfolding(c_grammar::specs::DeclarationReader::local_from), using(crate::proofs::Typedefs::no_typedef))]
pub(crate) fn local<'a>(
    alloc: Global,
    names: &TypedefNames<'a>,
    tokens: &mut Cursor<'_, 'a>,
    levels: u8,
) -> Result<Declaration<'a>, Fault>
    ensures { Reads declaration_of (spec.local_from levels names.now tokens.old.rest.now) result tokens.new.rest.now }
{
    let specifiers = specifiers(alloc, names, tokens, levels as usize + 1, false)?;
    if next_is(tokens.rest, Punctuator::Semicolon) {
        return bare_declaration(tokens, levels, specifiers.tree);
    }
    let declarator = named_declarator(alloc, names, tokens, levels);
    let (specifiers, declarator) = beside(specifiers, declarator)?;
    plain_declaration_behind(alloc, names, tokens, levels, specifiers.tree, declarator)
}
