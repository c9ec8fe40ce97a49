//! The specifiers of a declaration (C99 6.7.1), and what they allow where it stands.

ghost use Rattle.std.specs.Prelude.{◌≡◌, [], if◌then◌else◌, Ok, Err};
ghost use Rattle.c_syntax.specs.StatementsView as views;
ghost use Rattle.c_faults.specs.declared.fault.Refusal.TheVariants.{Fault as OfFault};
ghost use Rattle.c_faults.specs.declared.fault.Rule.TheVariants.{MisplacedStorage};
ghost use Rattle.c_faults.specs.Answer.{Gives, violates};
ghost use Rattle.c_declarator_typing.specs.Specifications.{specification_of};
ghost use Rattle.c_typing_state.specs.State.{Types, state_of};
ghost use Rattle.c_unit_typing.specs.Declarations.{alone_in, has_place, is_automatic, specified};

use c_declarator_typing::Specification;
use c_faults::{Fault, Refusal, Rule};
use c_rules::holding::beside;
use c_scope::declaring::{is_function, is_misplaced};
use c_scope::meaning::Storage;
use c_syntax::declaration::Declaration;
use c_syntax_typing::specifiers;
use c_tree::TypeWord;
use c_typing_state::Typer;
use sb_base::Line;

/// That a storage-class specifier is out of place.
pub(crate) fn misplaced<T>(line: Line) -> Result<T, Refusal>
    ensures { result ≡ Err (OfFault (record { rule = MisplacedStorage; line = line })) }
{
    let rule = Rule::MisplacedStorage;
    Err(Refusal::Fault(Fault { rule, line }))
}

/// Judges that there is at most one storage-class specifier (6.7.1 paragraph 2), at the first of the specifiers.
pub(crate) fn stored_once(specification: &Specification) -> Result<(), Refusal>
    ensures { Gives (λ done. specification_of specification.now) result
        (if specification.now.has_two_storages then violates MisplacedStorage specification.now.line
        else Ok (specification_of specification.now)) }
{
    if specification.has_two_storages {
        misplaced(specification.line)
    } else {
        Ok(())
    }
}

/// What the specifiers of a declaration say, which are alone where it has no declarators. At the first of them a second
/// storage-class specifier violates the rule on these. Other refusals as of `specifiers`.
pub(crate) fn specified<'a>(
    typer: &mut Typer<'a>,
    is_alone: bool,
    tree: &Declaration<'a>,
) -> Result<Specification, Refusal>
    ensures { Types specification_of (state_of typer.new) result
        (specified is_alone (views.declaration_of tree.now) (state_of typer.old)) }
{
    let specification = specifiers(typer, is_alone, tree.specifiers.as_slice())?;
    let judged = stored_once(&specification);
    let (specification, _) = beside(specification, judged)?;
    Ok(specification)
}

fn is_automatic(storage: Storage) -> bool
    ensures { result ≡ is_automatic storage }
{
    matches!(storage, Storage::Absent | Storage::Auto | Storage::Register)
}

/// Whether a declarator of a type may stand where it does: in the head of a `for` it declares an automatic variable
/// (6.8.5 paragraph 3).
pub(crate) fn has_place(in_head: bool, specification: &Specification, words: &[TypeWord]) -> bool
    ensures { result ≡ has_place in_head (specification_of specification.now) words.now }
{
    !in_head || (is_automatic(specification.storage) && !is_function(words))
}

/// Judges specifiers without declarators: they have no storage-class specifier out of place either (6.7.1).
pub(crate) fn alone_in(
    typer: &Typer,
    in_head: bool,
    specification: &Specification,
) -> Result<(), Refusal>
    ensures { Gives (λ done. []) result
        (alone_in in_head (specification_of specification.now) (state_of typer.now)) }
{
    let in_file = typer.environment.in_file();
    if is_misplaced(in_file, false, specification.storage)
        || !has_place(in_head, specification, specification.c_type.words())
    {
        misplaced(specification.line)
    } else {
        Ok(())
    }
}
