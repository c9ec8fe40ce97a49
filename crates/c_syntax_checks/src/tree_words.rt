//! The words that a tree is written with, in the order of the text.

ghost use Rattle.std.specs.Prelude.{◌≡◌, ◌++◌, ◌∷◌, OnOk};
ghost use Rattle.c_lexer.specs.declared.keyword.Keyword.TheVariants as keywords;
ghost use Rattle.c_lexer.specs.declared.punctuator.Punctuator.TheVariants as punctuators;
ghost use Rattle.c_syntax.specs.Words as spec;
ghost use Rattle.c_syntax.specs.View as view;

use c_lexer::{Keyword, Punctuator, TokenKind};
use c_syntax::position::{Position, Positioned, Spelled};
use c_syntax::tree::{
    Arguments, Declarator, Enumerator, Expression, Member, Parameters, Specifier, TypedDeclarator,
};
use std::alloc::AllocError;
use tree_containers::Boxed;

/// Puts a word behind the others.
fn put<'a>(
    out: &mut Vec<Positioned<'a>>,
    word: TokenKind<'a>,
    position: Position,
) -> Result<(), AllocError>
    ensures { OnOk result ((i : spec.Words) → out.new.items ++ i ≡ out.old.items
        ++ (spec.word_at word.entry position ∷ i)) }
{
    out.push(Positioned {
        kind: word,
        position,
    })?;
    Ok(())
}

/// Puts a keyword.
pub(crate) fn put_keyword<'a>(
    out: &mut Vec<Positioned<'a>>,
    keyword: Keyword,
    position: Position,
) -> Result<(), AllocError>
    ensures { OnOk result ((i : spec.Words) → out.new.items ++ i ≡ out.old.items
        ++ (spec.keyword keyword position ∷ i)) }
{
    put(out, TokenKind::Keyword(keyword), position)
}

/// Puts a punctuator.
pub(crate) fn put_punctuator<'a>(
    out: &mut Vec<Positioned<'a>>,
    punctuator: Punctuator,
    position: Position,
) -> Result<(), AllocError>
    ensures { OnOk result ((i : spec.Words) → out.new.items ++ i ≡ out.old.items
        ++ (spec.punctuator punctuator position ∷ i)) }
{
    put(out, TokenKind::Punctuator(punctuator), position)
}

/// Puts an identifier.
pub(crate) fn put_identifier<'a>(
    out: &mut Vec<Positioned<'a>>,
    name: &Spelled<'a>,
) -> Result<(), AllocError>
    ensures { OnOk result ((i : spec.Words) → out.new.items ++ i ≡ out.old.items ++ (spec.identifier name.now ∷ i)) }
{
    put(
        out,
        TokenKind::Identifier(name.spelling.again()),
        name.position,
    )
}

/// Puts string literals that stand side by side.
fn put_strings<'a>(
    out: &mut Vec<Positioned<'a>>,
    first: &Spelled<'a>,
    others: &[Spelled<'a>],
) -> Result<(), AllocError>
    ensures { OnOk result ((i : spec.Words) → out.new.items ++ i ≡ out.old.items
        ++ (spec.string first.now ∷ spec.strings_words others.now i)) }
{
    put(
        out,
        TokenKind::StringLiteral(first.spelling.again()),
        first.position,
    )?;
    for string in others {
        put(
            out,
            TokenKind::StringLiteral(string.spelling.again()),
            string.position,
        )?;
    }
    Ok(())
}

/// Puts the words `const` behind a `*`.
fn put_consts<'a>(out: &mut Vec<Positioned<'a>>, positions: &[Position]) -> Result<(), AllocError>
    ensures { OnOk result ((i : spec.Words) → out.new.items ++ i ≡ out.old.items ++ spec.const_words positions.now i) }
{
    for position in positions {
        put_keyword(out, Keyword::Const, *position)?;
    }
    Ok(())
}

/// Puts a `*` and the words `const` behind it.
fn put_pointer<'a>(
    out: &mut Vec<Positioned<'a>>,
    position: Position,
    consts: &[Position],
) -> Result<(), AllocError>
    ensures { OnOk result ((i : spec.Words) → out.new.items ++ i ≡ out.old.items
        ++ (spec.punctuator punctuators.Star position ∷ spec.const_words consts.now i)) }
{
    put_punctuator(out, Punctuator::Star, position)?;
    put_consts(out, consts)
}

/// Puts `[` and `]`.
fn put_brackets<'a>(
    out: &mut Vec<Positioned<'a>>,
    left: Position,
    right: Position,
) -> Result<(), AllocError>
    ensures { OnOk result ((i : spec.Words) → out.new.items ++ i ≡ out.old.items
        ++ (spec.punctuator punctuators.LeftBracket left ∷ spec.punctuator punctuators.RightBracket right ∷ i)) }
{
    put_punctuator(out, Punctuator::LeftBracket, left)?;
    put_punctuator(out, Punctuator::RightBracket, right)
}

/// Puts a keyword and an identifier.
fn put_named<'a>(
    out: &mut Vec<Positioned<'a>>,
    keyword: Keyword,
    position: Position,
    name: &Spelled<'a>,
) -> Result<(), AllocError>
    ensures { OnOk result ((i : spec.Words) → out.new.items ++ i ≡ out.old.items
        ++ (spec.keyword keyword position ∷ spec.identifier name.now ∷ i)) }
{
    put_keyword(out, keyword, position)?;
    put_identifier(out, name)
}

/// Puts a tag, if there is one.
fn put_tag<'a>(out: &mut Vec<Positioned<'a>>, tag: &Option<Spelled<'a>>) -> Result<(), AllocError>
    ensures { OnOk result ((i : spec.Words) → out.new.items ++ i ≡ out.old.items ++ spec.tag_words tag.now i) }
{
    match tag {
        None => Ok(()),
        Some(name) => put_identifier(out, name),
    }
}

/// Puts a keyword, a tag, if there is one, and `{`.
fn put_head<'a>(
    out: &mut Vec<Positioned<'a>>,
    keyword: Keyword,
    position: Position,
    tag: &Option<Spelled<'a>>,
    left: Position,
) -> Result<(), AllocError>
    ensures { OnOk result ((i : spec.Words) → out.new.items ++ i ≡ out.old.items
        ++ (spec.keyword keyword position ∷ spec.tag_words tag.now (spec.punctuator punctuators.LeftBrace left ∷ i))) }
{
    put_keyword(out, keyword, position)?;
    put_tag(out, tag)?;
    put_punctuator(out, Punctuator::LeftBrace, left)
}

/// Puts a last comma, if there is one, and `}`.
pub(crate) fn put_tail<'a>(
    out: &mut Vec<Positioned<'a>>,
    comma: Option<Position>,
    right: Position,
) -> Result<(), AllocError>
    ensures { OnOk result ((i : spec.Words) → out.new.items ++ i ≡ out.old.items
        ++ (spec.comma_words comma (spec.punctuator punctuators.RightBrace right ∷ i))) }
{
    if let Some(position) = comma {
        put_punctuator(out, Punctuator::Comma, position)?;
    }
    put_punctuator(out, Punctuator::RightBrace, right)
}

/// Puts the words of an expression (C99 6.5).
#[cycle(words)]
pub(crate) fn put_expression<'r, 'a>(
    out: &'r mut Vec<Positioned<'a>>,
    expression: &'r Expression<'a>,
) -> Result<(), AllocError>
    ensures { OnOk result ((i : spec.Words) → out.new.items ++ i ≡ out.old.items
        ++ spec.expression_words (view.expression_of expression.now) i) }
{
    match expression {
        Expression::Identifier(name) => put_identifier(out, name),
        Expression::Integer(constant) => put(
            out,
            TokenKind::Integer(constant.spelling.again()),
            constant.position,
        ),
        Expression::Character(constant) => put(
            out,
            TokenKind::Character(constant.spelling.again()),
            constant.position,
        ),
        Expression::Strings(first, others) => put_strings(out, first, others.as_slice()),
        Expression::Parenthesized(left, inner, right) => {
            put_behind(out, Punctuator::LeftParenthesis, *left, inner)?;
            put_punctuator(out, Punctuator::RightParenthesis, *right)
        }
        Expression::Subscript(array, left, index, right) => {
            put_boxed(out, array)?;
            put_behind(out, Punctuator::LeftBracket, *left, index)?;
            put_punctuator(out, Punctuator::RightBracket, *right)
        }
        Expression::Call(called, left, arguments, right) => {
            put_boxed(out, called)?;
            put_punctuator(out, Punctuator::LeftParenthesis, *left)?;
            put_arguments(out, arguments)?;
            put_punctuator(out, Punctuator::RightParenthesis, *right)
        }
        Expression::Member(whole, operator, position, name) => {
            put_boxed(out, whole)?;
            put_punctuator(out, *operator, *position)?;
            put_identifier(out, name)
        }
        Expression::Postfix(operand, operator, position) => {
            put_boxed(out, operand)?;
            put_punctuator(out, *operator, *position)
        }
        Expression::Unary(operator, position, operand) => {
            put_behind(out, *operator, *position, operand)
        }
        Expression::SizeofExpression(position, operand) => {
            put_keyword(out, Keyword::Sizeof, *position)?;
            put_boxed(out, operand)
        }
        Expression::SizeofType(position, left, name, right) => {
            put_keyword(out, Keyword::Sizeof, *position)?;
            put_name(out, *left, name, *right)
        }
        Expression::Cast(left, name, right, operand) => {
            put_name(out, *left, name, *right)?;
            put_boxed(out, operand)
        }
        Expression::Binary(first, operator, position, second) => {
            put_boxed(out, first)?;
            put_behind(out, *operator, *position, second)
        }
        Expression::Conditional(condition, question, first, colon, second) => {
            put_boxed(out, condition)?;
            put_behind(out, Punctuator::Question, *question, first)?;
            put_behind(out, Punctuator::Colon, *colon, second)
        }
        Expression::Assignment(first, operator, position, second) => {
            put_boxed(out, first)?;
            put_behind(out, *operator, *position, second)
        }
    }
}

/// Puts the words of an expression in a block of its own.
#[cycle(words)]
fn put_boxed<'r, 'a>(
    out: &'r mut Vec<Positioned<'a>>,
    boxed: &'r Boxed<Expression<'a>>,
) -> Result<(), AllocError>
    ensures { OnOk result ((i : spec.Words) → out.new.items ++ i ≡ out.old.items
        ++ spec.expression_words (view.expression_of boxed.now) i) }
{
    put_expression(out, boxed.get())
}

/// Puts a punctuator and the words of an expression behind it.
#[cycle(words)]
fn put_behind<'r, 'a>(
    out: &'r mut Vec<Positioned<'a>>,
    punctuator: Punctuator,
    position: Position,
    boxed: &'r Boxed<Expression<'a>>,
) -> Result<(), AllocError>
    ensures { OnOk result ((i : spec.Words) → out.new.items ++ i ≡ out.old.items
        ++ (spec.punctuator punctuator position ∷ spec.expression_words (view.expression_of boxed.now) i)) }
{
    put_punctuator(out, punctuator, position)?;
    put_expression(out, boxed.get())
}

/// Puts a type name in parentheses.
#[cycle(words)]
fn put_name<'r, 'a>(
    out: &'r mut Vec<Positioned<'a>>,
    left: Position,
    name: &'r Boxed<TypedDeclarator<'a>>,
    right: Position,
) -> Result<(), AllocError>
    ensures { OnOk result ((i : spec.Words) → out.new.items ++ i ≡ out.old.items
        ++ (spec.punctuator punctuators.LeftParenthesis left ∷ spec.typed_words (view.typed_of name.now)
        (spec.punctuator punctuators.RightParenthesis right ∷ i))) }
{
    put_punctuator(out, Punctuator::LeftParenthesis, left)?;
    put_typed(out, name.get())?;
    put_punctuator(out, Punctuator::RightParenthesis, right)
}

/// Puts the words of arguments (C99 6.5.2.2).
#[cycle(words)]
fn put_arguments<'r, 'a>(
    out: &'r mut Vec<Positioned<'a>>,
    arguments: &'r Arguments<'a>,
) -> Result<(), AllocError>
    ensures { OnOk result ((i : spec.Words) → out.new.items ++ i ≡ out.old.items
        ++ spec.arguments_words (view.arguments_of arguments.now) i) }
{
    match arguments {
        Arguments::Empty => Ok(()),
        Arguments::Given(first, others) => {
            put_boxed(out, first)?;
            for (comma, argument) in others.as_slice() {
                put_behind(out, Punctuator::Comma, *comma, argument)?;
            }
            Ok(())
        }
    }
}

/// Puts the words of a type name or parameter (C99 6.7.5, 6.7.6).
#[cycle(words)]
fn put_typed<'r, 'a>(
    out: &'r mut Vec<Positioned<'a>>,
    typed: &'r TypedDeclarator<'a>,
) -> Result<(), AllocError>
    ensures { OnOk result ((i : spec.Words) → out.new.items ++ i ≡ out.old.items
        ++ spec.typed_words (view.typed_of typed.now) i) }
{
    put_specifiers(out, typed.specifiers.as_slice())?;
    put_declarator(out, typed.declarator.get())
}

/// Puts the words of a declarator (C99 6.7.5).
#[cycle(words)]
pub(crate) fn put_declarator<'r, 'a>(
    out: &'r mut Vec<Positioned<'a>>,
    declarator: &'r Declarator<'a>,
) -> Result<(), AllocError>
    ensures { OnOk result ((i : spec.Words) → out.new.items ++ i ≡ out.old.items
        ++ spec.declarator_words (view.declarator_of declarator.now) i) }
{
    match declarator {
        Declarator::Named(name) => put_identifier(out, name),
        Declarator::Unnamed => Ok(()),
        Declarator::Pointer(position, consts, inner) => {
            put_pointer(out, *position, consts.as_slice())?;
            put_inner(out, inner)
        }
        Declarator::Parenthesized(left, inner, right) => {
            put_punctuator(out, Punctuator::LeftParenthesis, *left)?;
            put_inner(out, inner)?;
            put_punctuator(out, Punctuator::RightParenthesis, *right)
        }
        Declarator::OpenArray(inner, left, right) => {
            put_inner(out, inner)?;
            put_brackets(out, *left, *right)
        }
        Declarator::Array(inner, left, size, right) => {
            put_inner(out, inner)?;
            put_behind(out, Punctuator::LeftBracket, *left, size)?;
            put_punctuator(out, Punctuator::RightBracket, *right)
        }
        Declarator::Function(inner, left, parameters, right) => {
            put_inner(out, inner)?;
            put_punctuator(out, Punctuator::LeftParenthesis, *left)?;
            put_parameters(out, parameters)?;
            put_punctuator(out, Punctuator::RightParenthesis, *right)
        }
    }
}

/// Puts the words of a declarator in a block of its own.
#[cycle(words)]
fn put_inner<'r, 'a>(
    out: &'r mut Vec<Positioned<'a>>,
    inner: &'r Boxed<Declarator<'a>>,
) -> Result<(), AllocError>
    ensures { OnOk result ((i : spec.Words) → out.new.items ++ i ≡ out.old.items
        ++ spec.declarator_words (view.declarator_of inner.now) i) }
{
    put_declarator(out, inner.get())
}

/// Puts the words of parameters (C99 6.7.5.3).
#[cycle(words)]
fn put_parameters<'r, 'a>(
    out: &'r mut Vec<Positioned<'a>>,
    parameters: &'r Parameters<'a>,
) -> Result<(), AllocError>
    ensures { OnOk result ((i : spec.Words) → out.new.items ++ i ≡ out.old.items
        ++ spec.parameters_words (view.parameters_of parameters.now) i) }
{
    match parameters {
        Parameters::Empty => Ok(()),
        Parameters::Void(position) => put_keyword(out, Keyword::Void, *position),
        Parameters::Given(first, others) => {
            put_typed(out, first.get())?;
            for (comma, parameter) in others.as_slice() {
                put_punctuator(out, Punctuator::Comma, *comma)?;
                put_typed(out, parameter)?;
            }
            Ok(())
        }
    }
}

/// Puts the words of specifiers (C99 6.7).
#[cycle(words)]
pub(crate) fn put_specifiers<'r, 'a>(
    out: &'r mut Vec<Positioned<'a>>,
    specifiers: &'r [Specifier<'a>],
) -> Result<(), AllocError>
    ensures { OnOk result ((i : spec.Words) → out.new.items ++ i ≡ out.old.items
        ++ spec.specifiers_words (view.specifiers_in specifiers.now) i) }
{
    for specifier in specifiers {
        put_specifier(out, specifier)?;
    }
    Ok(())
}

/// Puts the words of a specifier (C99 6.7.1 to 6.7.4).
#[cycle(words)]
fn put_specifier<'r, 'a>(
    out: &'r mut Vec<Positioned<'a>>,
    specifier: &'r Specifier<'a>,
) -> Result<(), AllocError>
    ensures { OnOk result ((i : spec.Words) → out.new.items ++ i ≡ out.old.items
        ++ spec.specifier_words (view.specifier_of specifier.now) i) }
{
    match specifier {
        Specifier::Keyword(keyword, position) => put_keyword(out, *keyword, *position),
        Specifier::TypedefName(name) => put_identifier(out, name),
        Specifier::Structure(keyword, position, tag) => put_named(out, *keyword, *position, tag),
        Specifier::StructureBody(keyword, position, tag, left, members, right) => {
            put_head(out, *keyword, *position, tag, *left)?;
            put_members(out, members.as_slice())?;
            put_punctuator(out, Punctuator::RightBrace, *right)
        }
        Specifier::Enumeration(position, tag) => put_named(out, Keyword::Enum, *position, tag),
        Specifier::EnumerationBody(position, tag, left, first, others, comma, right) => {
            put_head(out, Keyword::Enum, *position, tag, *left)?;
            put_enumerator(out, first.get())?;
            put_more_enumerators(out, others.as_slice())?;
            put_tail(out, *comma, *right)?;
            Ok(())
        }
    }
}

/// Puts the words of declarations of members (C99 6.7.2.1).
#[cycle(words)]
fn put_members<'r, 'a>(
    out: &'r mut Vec<Positioned<'a>>,
    members: &'r [Member<'a>],
) -> Result<(), AllocError>
    ensures { OnOk result ((i : spec.Words) → out.new.items ++ i ≡ out.old.items
        ++ spec.members_words (view.members_in members.now) i) }
{
    for member in members {
        put_member(out, member)?;
    }
    Ok(())
}

/// Puts the words of a declaration of members.
#[cycle(words)]
fn put_member<'r, 'a>(
    out: &'r mut Vec<Positioned<'a>>,
    member: &'r Member<'a>,
) -> Result<(), AllocError>
    ensures { OnOk result ((i : spec.Words) → out.new.items ++ i ≡ out.old.items
        ++ spec.member_words (view.member_of member.now) i) }
{
    put_specifiers(out, member.specifiers.as_slice())?;
    put_declarator(out, member.first.get())?;
    put_more_declarators(out, member.others.as_slice())?;
    put_punctuator(out, Punctuator::Semicolon, member.semicolon)?;
    Ok(())
}

/// Puts the words of declarators behind commas.
#[cycle(words)]
fn put_more_declarators<'r, 'a>(
    out: &'r mut Vec<Positioned<'a>>,
    others: &'r [(Position, Boxed<Declarator<'a>>)],
) -> Result<(), AllocError>
    ensures { OnOk result ((i : spec.Words) → out.new.items ++ i ≡ out.old.items
        ++ spec.more_declarators_words (view.more_declarators_in others.now) i) }
{
    for (comma, declarator) in others {
        put_punctuator(out, Punctuator::Comma, *comma)?;
        put_declarator(out, declarator.get())?;
    }
    Ok(())
}

/// Puts the words of enumerators behind commas.
#[cycle(words)]
fn put_more_enumerators<'r, 'a>(
    out: &'r mut Vec<Positioned<'a>>,
    others: &'r [(Position, Enumerator<'a>)],
) -> Result<(), AllocError>
    ensures { OnOk result ((i : spec.Words) → out.new.items ++ i ≡ out.old.items
        ++ spec.more_enumerators_words (view.more_enumerators_in others.now) i) }
{
    for (comma, enumerator) in others {
        put_punctuator(out, Punctuator::Comma, *comma)?;
        put_enumerator(out, enumerator)?;
    }
    Ok(())
}

/// Puts the words of an enumerator (C99 6.7.2.2).
#[cycle(words)]
fn put_enumerator<'r, 'a>(
    out: &'r mut Vec<Positioned<'a>>,
    enumerator: &'r Enumerator<'a>,
) -> Result<(), AllocError>
    ensures { OnOk result ((i : spec.Words) → out.new.items ++ i ≡ out.old.items
        ++ spec.enumerator_words (view.enumerator_of enumerator.now) i) }
{
    match enumerator {
        Enumerator::Plain(name) => put_identifier(out, name),
        Enumerator::Valued(name, equals, value) => {
            put_identifier(out, name)?;
            put_behind(out, Punctuator::Assign, *equals, value)
        }
    }
}
