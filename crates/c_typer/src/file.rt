//! The typing of a file (C99 6.9).

ghost use Rattle.std.specs.Prelude.{◌≡◌, IfOk};
ghost use Rattle.c_syntax.specs.StatementsView as views;
ghost use Rattle.c_facts.specs.Facts.{facts_in};
ghost use Rattle.c_faults.specs.Answer.{Gives};
ghost use Rattle.c_programs.specs.FileState.{file_of};
ghost use Rattle.c_unit_typing.specs.Units.{file_before, file_in, file_with};

use crate::ending::ended;
use crate::externals::externals;
use c_facts::found::facts_in;
use c_faults::Refusal;
use c_programs::state::FileTyper;
use c_rules::holding::beside;
use c_scope::environment::Environment;
use c_syntax::External;
use sb_base::Line;
use std::alloc::{AllocError, Global};
use tree_containers::Items;

// The state before a file.
fn file_before<'a>(
    alloc: Global,
    objects: Option<Items<Items<bool>>>,
    trees: &[External<'a>],
) -> Result<FileTyper<'a>, AllocError>
    ensures { IfOk result (λ file. file_of file ≡ file_before objects (facts_in (views.externals_in trees.now))) }
{
    let facts = facts_in(alloc, trees)?;
    let environment = Environment::new(alloc, facts)?;
    Ok(FileTyper::new(alloc, environment, objects))
}

/// Types a file whose text ends on a line, where it is known or not which variables of each function are objects since
/// the text takes their addresses. The refusal is that of the first rule that is violated, in the order of the tokens,
/// or that there is no memory.
pub fn file_with<'a>(
    alloc: Global,
    objects: Option<Items<Items<bool>>>,
    end: Line,
    trees: &[External<'a>],
) -> Result<FileTyper<'a>, Refusal>
    ensures { Gives file_of result (file_with objects end (views.externals_in trees.now)) }
{
    let mut file = file_before(alloc, objects, trees)?;
    let typed = externals(&mut file, trees);
    let (file, _) = beside(file, typed)?;
    let judged = ended(&file, end);
    let (file, _) = beside(file, judged)?;
    Ok(file)
}

// Of which variables of each function the text takes the addresses.
fn taken_in(file: FileTyper) -> Items<Items<bool>>
    ensures { result ≡ (file_of file.entry).taken }
{
    let FileTyper {
        typer: _,
        variables: _,
        statics: _,
        initializers: _,
        definitions: _,
        objects: _,
        taken,
    } = file;
    Items::from_vec(taken)
}

/// Types a file whose text ends on a line (C99 6.9), twice: first to know which variables are objects since the text
/// takes their addresses. Refusals as of `file_with`.
pub fn file_in<'a>(
    alloc: Global,
    end: Line,
    trees: &[External<'a>],
) -> Result<FileTyper<'a>, Refusal>
    ensures { Gives file_of result (file_in end (views.externals_in trees.now)) }
{
    let first = file_with(alloc, None, end, trees)?;
    let objects = taken_in(first);
    file_with(alloc, Some(objects), end, trees)
}
