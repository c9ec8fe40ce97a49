//! Specifiers, members and enumerators from their parts, of which the last may have been refused (C99 6.7.2).

ghost use Rattle.std.specs.Prelude.{◌≡◌, ℕ, suc, max};
ghost use Rattle.c_expressions.specs.Built as built;
ghost use Rattle.c_expressions.specs.LeveledReads.{Below, BelowDeclarator, IsSize, ReadsExpression, ReadsLeveled};
ghost use Rattle.c_expressions.specs.Steps.{declarators_behind, declarators_behind_levels};
ghost use Rattle.c_grammar.specs.Reader.{Outcome};
ghost use Rattle.c_grammar.specs.Reads.{Reads};
ghost use Rattle.c_syntax.specs.Levels.{enumerator_levels, member_levels, members_levels, specifier_levels};
ghost use Rattle.c_syntax.specs.Levels.{specifiers_levels};
ghost use Rattle.c_syntax.specs.Tree as t;
ghost use Rattle.c_syntax.specs.View.{declarator_of, enumerator_of, member_of, members_in, specifier_of};
ghost use Rattle.c_syntax.specs.View.{more_declarators_in, specifiers_in};
ghost use Rattle.c_syntax.specs.Words.{Words};
ghost use Rattle.c_syntax.specs.declared.position.Position as positions;

use crate::leveled::{Leveled, leaf};
use c_grammar::cursor::Fault;
use c_lexer::Keyword;
use c_syntax::{
    Boxed, Declarator, Enumerator, Expression, Items, Member, Position, Specifier, Spelled,
};

/// A structure or union with members (C99 6.7.2.1).
pub fn structure_body<'a>(
    keyword: Keyword,
    position: Position,
    tag: Option<Spelled<'a>>,
    left: Position,
    members: Leveled<Items<Member<'a>>>,
    right: Result<Position, Fault>,
) -> Result<Leveled<Specifier<'a>>, Fault>
    ensures { (n : ℕ) → (o : Outcome positions.Position) → (i : Words) → IsSize n
        → Below n members.entry.levels (members_levels (members_in members.entry.tree))
        → Reads (λ p. p) o right i
        → ReadsLeveled specifier_of specifier_levels (suc n)
        (built.structure_body keyword position tag.entry left (members_in members.entry.tree) o) result i }
{
    match right {
        Ok(right) => {
            let Leveled {
                tree: members,
                levels,
            } = members;
            Ok(Leveled {
                tree: Specifier::StructureBody(keyword, position, tag, left, members, right),
                levels: levels.saturating_add(1),
            })
        }
        Err(fault) => Err(fault),
    }
}

/// A declaration of members with its levels.
fn member_with<'a>(
    specifiers: Leveled<Items<Specifier<'a>>>,
    first: Leveled<Boxed<Declarator<'a>>>,
    others: Leveled<Items<(Position, Boxed<Declarator<'a>>)>>,
    semicolon: Position,
) -> Leveled<Member<'a>>
    ensures tree { member_of result.tree ≡ t.member_declaration (specifiers_in specifiers.entry.tree)
        (declarator_of first.entry.tree) (more_declarators_in others.entry.tree) semicolon }
    ensures levels { result.levels ≡ max specifiers.entry.levels (max first.entry.levels others.entry.levels) }
{
    let Leveled {
        tree: specifiers,
        levels: of_specifiers,
    } = specifiers;
    let Leveled {
        tree: first,
        levels: of_first,
    } = first;
    let Leveled {
        tree: others,
        levels: of_others,
    } = others;
    Leveled {
        tree: Member {
            specifiers,
            first,
            others,
            semicolon,
        },
        levels: of_specifiers.max(of_first.max(of_others)),
    }
}

/// A declaration of members (C99 6.7.2.1).
pub fn member_declaration<'a>(
    specifiers: Leveled<Items<Specifier<'a>>>,
    first: Leveled<Boxed<Declarator<'a>>>,
    others: Leveled<Items<(Position, Boxed<Declarator<'a>>)>>,
    semicolon: Result<Position, Fault>,
) -> Result<Leveled<Member<'a>>, Fault>
    ensures { (n : ℕ) → (o : Outcome positions.Position) → (i : Words)
        → Below n specifiers.entry.levels (specifiers_levels (specifiers_in specifiers.entry.tree))
        → BelowDeclarator n first.entry
        → Below n others.entry.levels (declarators_behind_levels (declarators_behind others.entry.tree))
        → Reads (λ p. p) o semicolon i
        → ReadsLeveled member_of member_levels n (built.member_declaration (specifiers_in specifiers.entry.tree)
        (declarator_of first.entry.tree) (declarators_behind others.entry.tree) o) result i }
{
    match semicolon {
        Ok(semicolon) => Ok(member_with(specifiers, first, others, semicolon)),
        Err(fault) => Err(fault),
    }
}

/// A name as an enumerator (C99 6.7.2.2).
pub fn plain<'a>(name: Spelled<'a>) -> Leveled<Enumerator<'a>>
    ensures tree { enumerator_of result.tree ≡ t.plain name.entry }
    ensures levels { result.levels ≡ 0 }
{
    leaf(Enumerator::Plain(name))
}

/// An enumerator with its value (C99 6.7.2.2).
pub fn valued<'a>(
    name: Spelled<'a>,
    position: Position,
    value: Result<Leveled<Boxed<Expression<'a>>>, Fault>,
) -> Result<Leveled<Enumerator<'a>>, Fault>
    ensures { (n : ℕ) → (o : Outcome t.Expression) → (i : Words) → ReadsExpression n o value.entry i
        → ReadsLeveled enumerator_of enumerator_levels n (built.valued name.entry position o) result i }
{
    match value {
        Ok(value) => {
            let Leveled {
                tree: value,
                levels,
            } = value;
            Ok(Leveled {
                tree: Enumerator::Valued(name, position, value),
                levels,
            })
        }
        Err(fault) => Err(fault),
    }
}
