//! Members of structures and unions (C99 6.7.2.1).

use crate::dropped::without;
use crate::nested::Nested;
use c_declarator_typing::members::member_added;
use c_declarator_typing::{Entries, Shape, Specification};
use c_faults::Refusal;
use c_place_rules::operand::Operand;
use c_rules::holding::beside;
use c_syntax::{Boxed, Declarator, Expression, Member, Position, Specifier};
use c_typing_state::Typer;

impl<
    'a,
    E,
    D: FnOnce(&mut Typer<'a>, bool, &Declarator<'a>) -> Result<Shape<'a>, Refusal> + Copy,
    S,
> Nested<E, D, S> {
    ghost use Rattle.std.specs.Prelude.{false, suc};
    ghost use Rattle.c_syntax.specs.View.{declarator_of, more_declarators_in};
    ghost use Rattle.c_syntax.specs.Levels.{more_declarators_levels};
    ghost use Rattle.c_declarator_typing.specs.Members.{entries_of};
    ghost use Rattle.c_declarator_typing.specs.Specifications.{specification_of};
    ghost use Rattle.c_typing_state.specs.State.{Types, state_of};
    ghost use Rattle.c_expression_typing.specs.Constructs.{with_shape};
    ghost use Rattle.c_expression_typing.specs.Typed.{shape, specification};
    ghost use Rattle.c_expression_typing.specs.Typed.{with_more_declared};
    ghost use Rattle.c_syntax_typing.specs.Nested.{DeeperDeclarators, TypesDeclarator};

    // Members with what a declarator adds.
    fn with_declared(
        &self,
        typer: &mut Typer<'a>,
        specification: &Specification,
        before: Entries<'a>,
        tree: &Boxed<Declarator<'a>>,
    ) -> Result<Entries<'a>, Refusal>
        requires { TypesDeclarator D.FnOnce self.now.declarator (declarator_of tree.now) }
        ensures { Types entries_of (state_of typer.new) result (with_shape (specification_of specification.now)
            (entries_of before.entry) (shape false (declarator_of tree.now)) (state_of typer.old)) }
    {
        let (before, shape) = beside(before, self.shape(typer, false, tree))?;
        let added = member_added(typer, specification, &shape, before);
        without(shape, added)
    }

    // Members with what declarators add, each behind its comma.
    fn with_more_declared(
        &self,
        typer: &mut Typer<'a>,
        specification: &Specification,
        before: Entries<'a>,
        trees: &[(Position, Boxed<Declarator<'a>>)],
    ) -> Result<Entries<'a>, Refusal>
        requires deeper { DeeperDeclarators self.now D.FnOnce (suc (more_declarators_levels (more_declarators_in
            trees.now))) }
        ensures { Types entries_of (state_of typer.new) result (with_more_declared
            (specification_of specification.now) (more_declarators_in trees.now) (entries_of before.entry)
            (state_of typer.old)) }
    {
        let mut entries = before;
        for (_, tree) in trees {
            entries = self.with_declared(typer, specification, entries, tree)?;
        }
        Ok(entries)
    }
}

impl<
    'a,
    E,
    D,
    S: FnOnce(&mut Typer<'a>, bool, &[Specifier<'a>]) -> Result<Specification, Refusal> + Copy,
> Nested<E, D, S> {
    ghost use Rattle.std.specs.Prelude.{false};
    ghost use Rattle.c_syntax.specs.View.{specifiers_in};
    ghost use Rattle.c_declarator_typing.specs.Members.{member_specified};
    ghost use Rattle.c_declarator_typing.specs.Specifications.{specification_of};
    ghost use Rattle.c_typing_state.specs.State.{Types, judged, state_of, ◌>>>◌};
    ghost use Rattle.c_expression_typing.specs.Typed.{specification};
    ghost use Rattle.c_syntax_typing.specs.Nested.{TypesSpecifiers};

    // What the specifiers of members say.
    fn member_specification(
        &self,
        typer: &mut Typer<'a>,
        trees: &[Specifier<'a>],
    ) -> Result<Specification, Refusal>
        requires { TypesSpecifiers S.FnOnce self.now.specifiers (specifiers_in trees.now) }
        ensures { Types specification_of (state_of typer.new) result ((specification false (specifiers_in trees.now)
            >>> λ spec. judged (λ s. member_specified spec)) (state_of typer.old)) }
    {
        let specification = self.specification(typer, trees)?;
        specification.for_members()
    }
}

impl<
    'a,
    E,
    D: FnOnce(&mut Typer<'a>, bool, &Declarator<'a>) -> Result<Shape<'a>, Refusal> + Copy,
    S: FnOnce(&mut Typer<'a>, bool, &[Specifier<'a>]) -> Result<Specification, Refusal> + Copy,
> Nested<E, D, S> {
    ghost use Rattle.std.specs.Prelude.{suc};
    ghost use Rattle.c_syntax.specs.View.{member_of, members_in};
    ghost use Rattle.c_syntax.specs.Levels.{member_levels, members_levels};
    ghost use Rattle.c_declarator_typing.specs.Members.{entries_of, no_entries};
    ghost use Rattle.c_typing_state.specs.State.{Types, state_of};
    ghost use Rattle.c_expression_typing.specs.Typed.{with_member, with_members};
    ghost use Rattle.c_syntax_typing.specs.Nested.{DeeperNames};

    // Members with those of a declaration.
    #[tactic(auto, using(crate::proofs::Lower::for_declarators_alone, c_syntax::proofs::MemberView::member_view))]
    fn with_member(
        &self,
        typer: &mut Typer<'a>,
        before: Entries<'a>,
        tree: &Member<'a>,
    ) -> Result<Entries<'a>, Refusal>
        requires deeper { DeeperNames self.now D.FnOnce S.FnOnce (suc (member_levels (member_of tree.now))) }
        ensures { Types entries_of (state_of typer.new) result
            (with_member (member_of tree.now) (entries_of before.entry) (state_of typer.old)) }
    {
        let specification = self.member_specification(typer, tree.specifiers.as_slice());
        let (before, specification) = beside(before, specification)?;
        let entries = self.with_declared(typer, &specification, before, &tree.first);
        let (specification, entries) = beside(specification, entries)?;
        let entries = self.with_more_declared(
            typer,
            &specification,
            entries,
            tree.others.as_slice(),
        );
        without(specification, entries)
    }

    /// The members that declarations declare.
    #[tactic(auto, using(crate::proofs::Lower::lower_names))]
    pub(crate) fn members(
        &self,
        typer: &mut Typer<'a>,
        trees: &[Member<'a>],
    ) -> Result<Entries<'a>, Refusal>
        requires deeper { DeeperNames self.now D.FnOnce S.FnOnce (suc (members_levels (members_in trees.now))) }
        ensures { Types entries_of (state_of typer.new) result
            (with_members (members_in trees.now) no_entries (state_of typer.old)) }
    {
        let mut entries = Entries::new(typer.alloc);
        for tree in trees {
            entries = self.with_member(typer, entries, tree)?;
        }
        Ok(entries)
    }
}
