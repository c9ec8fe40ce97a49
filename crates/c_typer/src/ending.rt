//! The end of a file (C99 5.1.2.2.1, 6.9 paragraph 5).

ghost use Rattle.std.specs.Prelude.{◌≡◌, option_copied};
ghost use Rattle.c_faults.specs.Answer.{Gives};
ghost use Rattle.c_programs.specs.FileState.{file_of};
ghost use Rattle.c_unit_typing.specs.Units.{all_defined, ended, is_main};

use c_faults::{Fault, Refusal, Rule};
use c_programs::state::FileTyper;
use c_scope::meaning::Entity;
use c_tree::{TypeWord, same_words};
use obj_memory::IntType;
use sb_base::Line;

// Whether what has linkage is `int main(void)`, which is defined.
fn is_main(entity: Option<&Entity>) -> bool
    ensures { result ≡ is_main (option_copied entity.entry) }
{
    match entity {
        None => false,
        Some(entity) => {
            let main_type = [TypeWord::Gives, TypeWord::Integer(IntType::Int)];
            entity.is_defined && same_words(entity.c_type.words(), &main_type)
        }
    }
}

// Each function that is used is defined.
fn all_defined(file: &FileTyper, undefined: Option<Line>) -> Result<(), Refusal>
    ensures { Gives (λ done. file_of file.now) result (all_defined undefined (file_of file.now)) }
{
    match undefined {
        None => Ok(()),
        Some(line) => {
            let rule = Rule::UndefinedFunction;
            Err(Refusal::Fault(Fault { rule, line }))
        }
    }
}

/// Judges the end of a file, on the line where its text ends: `int main(void)` has to be defined; then each function
/// that is used, at the first use.
pub(crate) fn ended(file: &FileTyper, end: Line) -> Result<(), Refusal>
    ensures { Gives (λ done. file_of file.now) result (ended end (file_of file.now)) }
{
    if is_main(file.typer.environment.entities.get(b"main")) {
        all_defined(file, file.typer.undefined)
    } else {
        let (rule, line) = (Rule::NoMain, end);
        Err(Refusal::Fault(Fault { rule, line }))
    }
}
