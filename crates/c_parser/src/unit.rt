//! Reading files (C99 6.9).

ghost use Rattle.std.specs.Prelude.{◌≡◌, length, IfOk};
ghost use Rattle.c_grammar.specs.UnitReader as spec;
ghost use Rattle.c_grammar.specs.Reads.{Reads};
ghost use Rattle.c_syntax.specs.Formed as formed;
ghost use Rattle.c_syntax.specs.View.{declarator_of, specifiers_in};
ghost use Rattle.c_syntax.specs.StatementsView.{external_of, externals_in, unit_of};

use crate::declaration::{
    add_defined_name, bare_declaration, declaration_behind, named_declarator,
};
use crate::statement::block;
use c_expressions::nested::specifiers;
use c_grammar::cursor::{Cursor, Fault, next_is};
use c_grammar::typedef_names::TypedefNames;
use c_lexer::{Punctuator, Spelling};
use c_syntax::declarators::defines_function;
use c_syntax::specifiers::has_typedef;
use c_syntax::{Boxed, Declarator, External, Items, Specifier, Unit};
use std::alloc::{AllocError, Global};

/// How many levels there may be in each part of a file (C99 5.2.4.1 lets an implementation set such a limit).
const LEVELS: u8 = 200;

/// The typedef name that is in force from the start.
const SIZE_T: &[u8] = b"size_t";

/// Reads the block of a function; the specifiers and the declarator stand before it (C99 6.9.1).
#[tactic(auto, unfolding(c_grammar::specs::UnitReader::definition_from))]
fn definition<'a>(
    alloc: Global,
    names: &mut TypedefNames<'a>,
    tokens: &mut Cursor<'_, 'a>,
    levels: u8,
    specifiers: Items<Specifier<'a>>,
    declarator: Boxed<Declarator<'a>>,
) -> Result<External<'a>, Fault>
    ensures read { Reads external_of (spec.definition_from levels names.old (specifiers_in specifiers.entry)
        (declarator_of declarator.entry) tokens.old.rest.now) result tokens.new.rest.now }
    ensures names { IfOk result (λ x. names.new ≡ formed.names_after_external (external_of x) names.old) }
{
    if !defines_function(declarator.get()) {
        return Err(Fault::Refused);
    }
    add_defined_name(names, specifiers.as_slice(), declarator.get())?;
    let block = block(alloc, names, tokens, levels, levels as usize + 1)?;
    Ok(External::Function(specifiers, declarator, block))
}

/// Reads what stands behind specifiers and a declarator at file scope (C99 6.9).
#[tactic(auto, unfolding(c_grammar::specs::UnitReader::external_behind))]
fn external_behind<'a>(
    alloc: Global,
    names: &mut TypedefNames<'a>,
    tokens: &mut Cursor<'_, 'a>,
    levels: u8,
    specifiers: Items<Specifier<'a>>,
    declarator: Boxed<Declarator<'a>>,
) -> Result<External<'a>, Fault>
    ensures read { Reads external_of (spec.external_behind levels names.old (specifiers_in specifiers.entry)
        (declarator_of declarator.entry) tokens.old.rest.now) result tokens.new.rest.now }
    ensures names { IfOk result (λ x. names.new ≡ formed.names_after_external (external_of x) names.old) }
{
    if next_is(tokens.rest, Punctuator::LeftBrace) {
        return definition(alloc, names, tokens, levels, specifiers, declarator);
    }
    let declaration = declaration_behind(alloc, names, tokens, levels, specifiers, declarator)?;
    Ok(External::Declaration(declaration))
}

/// Reads a function definition or declaration (C99 6.9).
#[tactic(auto, unfolding(c_grammar::specs::UnitReader::external_from))]
fn external<'a>(
    alloc: Global,
    names: &mut TypedefNames<'a>,
    tokens: &mut Cursor<'_, 'a>,
    levels: u8,
) -> Result<External<'a>, Fault>
    ensures read { Reads external_of (spec.external_from levels names.old tokens.old.rest.now) result
        tokens.new.rest.now }
    ensures names { IfOk result (λ x. names.new ≡ formed.names_after_external (external_of x) names.old) }
{
    let specifiers = specifiers(alloc, names, tokens, levels as usize + 1, true)?;
    if next_is(tokens.rest, Punctuator::Semicolon) {
        let declaration = bare_declaration(tokens, levels, specifiers.tree)?;
        return Ok(External::Declaration(declaration));
    }
    let declarator = named_declarator(alloc, names, tokens, levels)?;
    external_behind(alloc, names, tokens, levels, specifiers.tree, declarator)
}

/// Reads function definitions and declarations to the end (C99 6.9).
#[tactic(auto, unfolding(c_grammar::specs::UnitReader::externals_from))]
fn externals<'a>(
    alloc: Global,
    names: &mut TypedefNames<'a>,
    tokens: &mut Cursor<'_, 'a>,
    levels: u8,
) -> Result<Items<External<'a>>, Fault>
    ensures { Reads externals_in (spec.externals_from levels (length tokens.old.rest.now) names.old
        tokens.old.rest.now) result tokens.new.rest.now }
{
    let mut externals = Vec::new(alloc);
    for _ in 0..tokens.rest.len() {
        if tokens.rest.is_empty() {
            return Ok(Items::from_vec(externals));
        }
        let external = external(alloc, names, tokens, levels)?;
        externals.push(external)?;
    }
    if tokens.rest.is_empty() {
        return Ok(Items::from_vec(externals));
    }
    Err(Fault::Refused)
}

/// Reads a file (C99 6.9). `size_t` is a typedef name from its start on.
#[tactic(auto, unfolding(c_grammar::specs::UnitReader::unit_from))]
pub fn unit<'a>(alloc: Global, tokens: &mut Cursor<'_, 'a>) -> Result<Unit<'a>, Fault>
    ensures { Reads unit_of (spec.unit_from tokens.old.rest.now) result tokens.new.rest.now }
{
    let [_, ..] = tokens.rest else {
        return Err(Fault::Refused);
    };
    let mut names = TypedefNames::new(alloc);
    names.push(Spelling::new(SIZE_T))?;
    let externals = externals(alloc, &mut names, tokens, LEVELS)?;
    Ok(Unit { externals })
}
