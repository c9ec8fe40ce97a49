//! What specifiers and declarators at file scope say before the file is typed (C99 6.7).

ghost use Rattle.std.specs.Prelude.{◌≡◌, OnOk};
ghost use Rattle.c_syntax.specs.View as view;
ghost use Rattle.c_scope.specs.Names.{names_of};
ghost use Rattle.c_facts.specs.Facts.{declares_function, has_extern, is_extern, name_function, names_function, tags_in};
ghost use Rattle.c_facts.specs.Facts.{tags_in_member, tags_in_members, tags_of, with_tag};

use c_lexer::Keyword;
use c_scope::names::Names;
use c_syntax::{Declarator, Member, Specifier, Spelled};
use std::alloc::AllocError;

fn add_tag<'a>(tags: &mut Names<'a, bool>, tag: &Option<Spelled<'a>>) -> Result<(), AllocError>
    ensures { OnOk result (names_of tags.new ≡ with_tag tag.now (names_of tags.old)) }
{
    match tag {
        None => Ok(()),
        Some(tag) => tags.bind(tag.spelling.bytes(), true),
    }
}

/// Adds the tags with lists of members among specifiers, also among those of members.
#[cycle(tags)]
pub fn add_tags<'a>(
    tags: &mut Names<'a, bool>,
    specifiers: &[Specifier<'a>],
) -> Result<(), AllocError>
    ensures { OnOk result (names_of tags.new ≡ tags_in (view.specifiers_in specifiers.now) (names_of tags.old)) }
{
    for specifier in specifiers {
        add_tags_of(tags, specifier)?;
    }
    Ok(())
}

#[cycle(tags)]
fn add_tags_of<'a>(tags: &mut Names<'a, bool>, specifier: &Specifier<'a>) -> Result<(), AllocError>
    ensures { OnOk result (names_of tags.new ≡ tags_of (view.specifier_of specifier.now) (names_of tags.old)) }
{
    match specifier {
        Specifier::StructureBody(_, _, tag, _, members, _) => {
            add_tag(tags, tag)?;
            add_tags_in_members(tags, members.as_slice())
        }
        _ => Ok(()),
    }
}

#[cycle(tags)]
fn add_tags_in_members<'a>(
    tags: &mut Names<'a, bool>,
    members: &[Member<'a>],
) -> Result<(), AllocError>
    ensures { OnOk result (names_of tags.new ≡ tags_in_members (view.members_in members.now) (names_of tags.old)) }
{
    for member in members {
        add_tags_in_member(tags, member)?;
    }
    Ok(())
}

#[cycle(tags)]
#[tactic(auto, using(c_syntax::proofs::MemberView::member_view))]
fn add_tags_in_member<'a>(tags: &mut Names<'a, bool>, member: &Member<'a>) -> Result<(), AllocError>
    ensures { OnOk result (names_of tags.new ≡ tags_in_member (view.member_of member.now) (names_of tags.old)) }
{
    add_tags(tags, member.specifiers.as_slice())
}

/// Whether specifiers name a type of functions, where this is known of the typedef names.
pub fn name_function(types: &Names<bool>, specifiers: &[Specifier]) -> bool
    ensures { result ≡ name_function (names_of types.now) (view.specifiers_in specifiers.now) }
{
    for specifier in specifiers {
        if names_function(types, specifier) {
            return true;
        }
    }
    false
}

fn names_function(types: &Names<bool>, specifier: &Specifier) -> bool
    ensures { result ≡ names_function (names_of types.now) (view.specifier_of specifier.now) }
{
    match specifier {
        Specifier::TypedefName(name) => match types.get(name.spelling.bytes()) {
            Some(is_function) => *is_function,
            None => false,
        },
        _ => false,
    }
}

/// Whether a declarator gives its name a function type, where that of the specifiers is one or not.
pub fn declares_function(base: bool, declarator: &Declarator) -> bool
    ensures { result ≡ declares_function base (view.declarator_of declarator.now) }
{
    match declarator {
        Declarator::Named(_) | Declarator::Unnamed => base,
        Declarator::Pointer(_, _, inner)
        | Declarator::OpenArray(inner, _, _)
        | Declarator::Array(inner, _, _, _) => declares_function(false, inner.get()),
        Declarator::Parenthesized(_, inner, _) => declares_function(base, inner.get()),
        Declarator::Function(inner, _, _, _) => declares_function(true, inner.get()),
    }
}

/// Whether `extern` is among specifiers.
pub fn has_extern(specifiers: &[Specifier]) -> bool
    ensures { result ≡ has_extern (view.specifiers_in specifiers.now) }
{
    for specifier in specifiers {
        if is_extern(specifier) {
            return true;
        }
    }
    false
}

fn is_extern(specifier: &Specifier) -> bool
    ensures { result ≡ is_extern (view.specifier_of specifier.now) }
{
    matches!(specifier, Specifier::Keyword(Keyword::Extern, _))
}
