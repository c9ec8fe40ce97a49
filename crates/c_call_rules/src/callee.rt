//! What is called, and what it gives.

ghost use Rattle.std.specs.Prelude.{◌≡◌, Ok};
ghost use Rattle.c_faults.specs.Answer.{Gives};
ghost use Rattle.c_call_rules.specs.Calls.{complete_result, outcome_in, outcome_of, result_kind};

use crate::function_type::result_type;
use c_faults::{Fault, Refusal, Rule};
use c_place_rules::target::{object_kind, target, unqualified_type};
use c_rules::Target;
use c_tree::{CType, Expression, Extent, Kind, Routine, TypeWord};
use sb_base::Line;
use std::alloc::Global;

/// What is called.
#[derive(Drop)]
pub enum Callee {
    /// A function of the source by its plain name: its number.
    Function(usize),
    /// What a pointer to a function of the type with this number points to.
    Pointer(usize, Expression),
    /// A routine of the library.
    Library(Routine),
}

/// What a call gives.
#[derive(Drop)]
pub struct Outcome {
    /// The kind of the result.
    pub kind: Kind,
    /// Its type, without qualifiers.
    pub c_type: CType,
}

/// What a call of a function of this type gives, with the line of its `(`. The rule on incomplete types is violated by
/// a structure or union that is not complete there (C99 6.5.2.2 paragraph 1).
pub fn outcome_in(
    alloc: Global,
    structures: &[Option<Extent>],
    line: Line,
    words: &[TypeWord],
) -> Result<Outcome, Refusal>
    ensures { Gives outcome_of result (outcome_in structures.now line words.now) }
{
    let result = result_type(words);
    complete_result(alloc, line, target(structures, result), result)
}

fn complete_result(
    alloc: Global,
    line: Line,
    target: Target,
    words: &[TypeWord],
) -> Result<Outcome, Refusal>
    ensures { Gives outcome_of result (complete_result line target words.now) }
{
    if let Target::Incomplete = target {
        let rule = Rule::Incomplete;
        return Err(Refusal::Fault(Fault { rule, line }));
    }
    let kind = result_kind(target, words);
    let c_type = unqualified_type(alloc, words)?;
    Ok(Outcome { kind, c_type })
}

fn result_kind(target: Target, words: &[TypeWord]) -> Kind
    ensures { result ≡ result_kind target words.now }
{
    match target {
        Target::Object(size) => object_kind(size, words),
        _ => Kind::Void,
    }
}
