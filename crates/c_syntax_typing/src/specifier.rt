//! Specifiers (C99 6.7.1 to 6.7.4).

ghost use Rattle.std.specs.Prelude.{◌≡◌};
ghost use Rattle.c_faults.specs.Answer.{Gives};
ghost use Rattle.c_syntax_typing.specs.Specifiers.{with_typedef_name};
ghost use Rattle.c_declarator_typing.specs.Specifications.{gathered_of, tag_type, with_named};
ghost use Rattle.c_typing_state.specs.State.{Types, done, state_of, ◌>>>◌};
ghost use Rattle.c_expression_typing.specs.Constructs.{tagged_as};
ghost use Rattle.c_expression_typing.specs.Lines.{name_of};

use crate::nested::Nested;
use c_declarator_typing::members::tag_completed;
use c_declarator_typing::specification::{tag_kind, typedef_type};
use c_declarator_typing::{Gathered, Shape, Specification};
use c_expression_typing::constructs::{begun_as, tagged_as, with_tag};
use c_expression_typing::lines::{first_line, tag_name};
use c_faults::Refusal;
use c_lexer::Keyword;
use c_place_rules::operand::Operand;
use c_rules::holding::beside;
use c_scope::meaning::Tag;
use c_scope::tags::TagKind;
use c_syntax::{Declarator, Enumerator, Expression, Member, Position, Specifier, Spelled};
use c_typing_state::Typer;
use sb_base::Line;

// What specifiers say with a typedef name.
fn with_typedef_name<'a>(
    typer: &Typer<'a>,
    before: Gathered,
    name: &Spelled<'a>,
) -> Result<Gathered, Refusal>
    ensures { Gives gathered_of result
        (with_typedef_name (name_of name.now) name.now.position.line (gathered_of before) (state_of typer.now)) }
{
    let c_type = typedef_type(typer, name.spelling.bytes(), name.position.line);
    let (before, c_type) = beside(before, c_type)?;
    Ok(before.with_named(c_type))
}

// What specifiers say with a tag without a list.
fn with_tagged<'a>(
    typer: &mut Typer<'a>,
    is_alone: bool,
    line: Line,
    before: Gathered,
    kind: TagKind,
    name: &Spelled<'a>,
) -> Result<Gathered, Refusal>
    ensures { Types gathered_of (state_of typer.new) result ((tagged_as is_alone kind (name_of name.now) line >>> λ tag.
        done (with_named (tag_type tag) (gathered_of before))) (state_of typer.old)) }
{
    let tag = tagged_as(typer, is_alone, kind, name.spelling.bytes(), line);
    let (before, tag) = beside(before, tag)?;
    let gathered = with_tag(typer.alloc, before, tag)?;
    Ok(gathered)
}

impl<
    'a,
    E,
    D: FnOnce(&mut Typer<'a>, bool, &Declarator<'a>) -> Result<Shape<'a>, Refusal> + Copy,
    S: FnOnce(&mut Typer<'a>, bool, &[Specifier<'a>]) -> Result<Specification, Refusal> + Copy,
> Nested<E, D, S> {
    ghost use Rattle.std.specs.Prelude.{Bool, Option, suc};
    ghost use Rattle.c_syntax.specs.Tree as tree;
    ghost use Rattle.c_syntax.specs.View.{members_in};
    ghost use Rattle.c_syntax.specs.Levels.{members_levels};
    ghost use Rattle.c_syntax.specs.declared.position.Position.{Position};
    ghost use Rattle.c_declarator_typing.specs.Members.{no_entries, tag_completed};
    ghost use Rattle.c_declarator_typing.specs.Specifications.{gathered_of};
    ghost use Rattle.c_typing_state.specs.State.{Types, state_of, ◌>>>◌};
    ghost use Rattle.c_expression_typing.specs.Typed.{gathered};
    ghost use Rattle.c_expression_typing.specs.Typed.{with_members, with_specifier};
    ghost use Rattle.c_syntax_typing.specs.Nested.{DeeperNames};

    // The members of a structure or union that was begun, which is complete with them.
    fn completed(
        &self,
        typer: &mut Typer<'a>,
        line: Line,
        tag: Tag,
        members: &[Member<'a>],
    ) -> Result<Tag, Refusal>
        requires deeper { DeeperNames self.now D.FnOnce S.FnOnce (suc (members_levels (members_in members.now))) }
        ensures { Types (λ t. t) (state_of typer.new) result ((with_members (members_in members.now) no_entries >>> λ
            es.
            tag_completed line tag es) (state_of typer.old)) }
    {
        let entries = self.members(typer, members)?;
        tag_completed(typer, line, tag, entries)
    }

    // `struct` or `union`, a tag or none, and `{ members }` (6.7.2.1).
    fn with_structure(
        &self,
        typer: &mut Typer<'a>,
        line: Line,
        before: Gathered,
        keyword: Keyword,
        name: &Option<Spelled<'a>>,
        members: &[Member<'a>],
    ) -> Result<Gathered, Refusal>
        requires deeper { DeeperNames self.now D.FnOnce S.FnOnce (suc (members_levels (members_in members.now))) }
        ensures { (is_alone : Bool) (at opening closing : Position) → Types gathered_of (state_of typer.new) result
            (with_specifier is_alone line (tree.structure_body keyword at name.now opening (members_in members.now)
            closing) (gathered_of before) (state_of typer.old)) }
    {
        let tag = begun_as(typer, tag_kind(keyword), tag_name(name), line);
        let (before, tag) = beside(before, tag)?;
        let (before, tag) = beside(before, self.completed(typer, line, tag, members))?;
        let gathered = with_tag(typer.alloc, before, tag)?;
        Ok(gathered)
    }
}

impl<
    'a,
    E: FnOnce(&mut Typer<'a>, bool, &Expression<'a>) -> Result<Operand, Refusal> + Copy,
    D,
    S,
> Nested<E, D, S> {
    ghost use Rattle.std.specs.Prelude.{Bool, Option, Some, max, suc};
    ghost use Rattle.c_syntax.specs.Tree as tree;
    ghost use Rattle.c_syntax.specs.View.{enumerator_of, more_enumerators_in};
    ghost use Rattle.c_syntax.specs.Levels.{enumerator_levels, more_enumerators_levels};
    ghost use Rattle.c_syntax.specs.declared.position.Position.{Position};
    ghost use Rattle.c_declarator_typing.specs.Specifications.{gathered_of};
    ghost use Rattle.c_typing_state.specs.State.{Types, state_of, ◌>>>◌};
    ghost use Rattle.c_expression_typing.specs.Typed.{enumerator, gathered, more_enumerators};
    ghost use Rattle.c_expression_typing.specs.Typed.{with_specifier};
    ghost use Rattle.c_syntax_typing.specs.Nested.{DeeperExpressions};

    // The enumerators of an enumeration that was begun.
    #[tactic(auto, using(crate::proofs::Lower::lower_expressions))]
    fn enumerators(
        &self,
        typer: &mut Typer<'a>,
        first: &Enumerator<'a>,
        more: &[(Position, Enumerator<'a>)],
    ) -> Result<Option<u64>, Refusal>
        requires deeper { DeeperExpressions self.now E.FnOnce (suc (max (enumerator_levels (enumerator_of first.now))
            (more_enumerators_levels (more_enumerators_in more.now)))) }
        ensures { Types (λ next. next) (state_of typer.new) result ((enumerator (Some 0) (enumerator_of first.now) >>>
            λ next. more_enumerators (more_enumerators_in more.now) next) (state_of typer.old)) }
    {
        let next = self.enumerator(typer, Some(0), first)?;
        self.more_enumerators(typer, next, more)
    }

    // `enum`, a tag or none, and `{ enumerators }` (6.7.2.2).
    fn with_enumeration(
        &self,
        typer: &mut Typer<'a>,
        line: Line,
        before: Gathered,
        name: &Option<Spelled<'a>>,
        first: &Enumerator<'a>,
        more: &[(Position, Enumerator<'a>)],
    ) -> Result<Gathered, Refusal>
        requires deeper { DeeperExpressions self.now E.FnOnce (suc (max (enumerator_levels (enumerator_of first.now))
            (more_enumerators_levels (more_enumerators_in more.now)))) }
        ensures { (is_alone : Bool) (at opening closing : Position) (comma : Option Position) → Types gathered_of
            (state_of typer.new) result (with_specifier is_alone line (tree.enumeration_body at name.now opening
            (enumerator_of first.now) (more_enumerators_in more.now) comma closing) (gathered_of before)
            (state_of typer.old)) }
    {
        let tag = begun_as(typer, TagKind::Enumeration, tag_name(name), line);
        let (before, tag) = beside(before, tag)?;
        let (before, _) = beside(before, self.enumerators(typer, first, more))?;
        let gathered = with_tag(typer.alloc, before, tag)?;
        Ok(gathered)
    }
}

impl<
    'a,
    E: FnOnce(&mut Typer<'a>, bool, &Expression<'a>) -> Result<Operand, Refusal> + Copy,
    D: FnOnce(&mut Typer<'a>, bool, &Declarator<'a>) -> Result<Shape<'a>, Refusal> + Copy,
    S: FnOnce(&mut Typer<'a>, bool, &[Specifier<'a>]) -> Result<Specification, Refusal> + Copy,
> Nested<E, D, S> {
    ghost use Rattle.c_syntax.specs.Tree as tree;
    ghost use Rattle.c_syntax.specs.View.{specifier_of, specifiers_in};
    ghost use Rattle.c_syntax.specs.Levels.{specifier_levels, specifiers_levels};
    ghost use Rattle.c_declarator_typing.specs.Specifications.{gathered_of, nothing_gathered, specification_of};
    ghost use Rattle.c_typing_state.specs.State.{Types, state_of};
    ghost use Rattle.c_expression_typing.specs.Typed.{gathered, specification};
    ghost use Rattle.c_expression_typing.specs.Typed.{with_specifier};
    ghost use Rattle.c_syntax_typing.specs.Nested.{Deeper};

    // What specifiers say with one more, where their first token stands on a line.
    #[tactic(auto, using(crate::proofs::Lower::parts_alone, c_syntax::proofs::ListViews::enumeration_view))]
    fn with_specifier(
        &self,
        typer: &mut Typer<'a>,
        is_alone: bool,
        line: Line,
        before: Gathered,
        tree: &Specifier<'a>,
    ) -> Result<Gathered, Refusal>
        requires deeper { Deeper self.now E.FnOnce D.FnOnce S.FnOnce (specifier_levels (specifier_of tree.now)) }
        ensures { Types gathered_of (state_of typer.new) result (with_specifier is_alone line (specifier_of tree.now)
            (gathered_of before) (state_of typer.old)) }
    {
        match tree {
            Specifier::Keyword(keyword, _) => Ok(before.with_keyword(*keyword)),
            Specifier::TypedefName(name) => with_typedef_name(typer, before, name),
            Specifier::Structure(keyword, _, name) => {
                with_tagged(typer, is_alone, line, before, tag_kind(*keyword), name)
            }
            Specifier::StructureBody(keyword, _, name, _, members, _) => {
                self.with_structure(typer, line, before, *keyword, name, members.as_slice())
            }
            Specifier::Enumeration(_, name) => {
                with_tagged(typer, is_alone, line, before, TagKind::Enumeration, name)
            }
            Specifier::EnumerationBody(_, name, _, first, more, _, _) => {
                self.with_enumeration(typer, line, before, name, first.get(), more.as_slice())
            }
        }
    }

    // What specifiers say together, where the first token stands on a line.
    #[tactic(auto, using(crate::proofs::Lower::lower))]
    fn gathered(
        &self,
        typer: &mut Typer<'a>,
        is_alone: bool,
        line: Line,
        trees: &[Specifier<'a>],
    ) -> Result<Gathered, Refusal>
        requires deeper { Deeper self.now E.FnOnce D.FnOnce S.FnOnce (specifiers_levels (specifiers_in trees.now)) }
        ensures { Types gathered_of (state_of typer.new) result (gathered is_alone line (specifiers_in trees.now)
            nothing_gathered (state_of typer.old)) }
    {
        let mut gathered = Gathered::nothing();
        for tree in trees {
            gathered = self.with_specifier(typer, is_alone, line, gathered, tree)?;
        }
        Ok(gathered)
    }

    /// What specifiers say.
    pub(crate) fn specifiers_at(
        &self,
        typer: &mut Typer<'a>,
        is_alone: bool,
        trees: &[Specifier<'a>],
    ) -> Result<Specification, Refusal>
        requires deeper { Deeper self.now E.FnOnce D.FnOnce S.FnOnce (specifiers_levels (specifiers_in trees.now)) }
        ensures { Types specification_of (state_of typer.new) result
            (specification is_alone (specifiers_in trees.now) (state_of typer.old)) }
    {
        let line = first_line(trees);
        let gathered = self.gathered(typer, is_alone, line, trees)?;
        let specification = gathered.specified(typer.alloc, line)?;
        Ok(specification)
    }
}
