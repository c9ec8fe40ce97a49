//! What there is too much of in a program (C99 5.2.4.1 lets a translator set limits).

ghost use Rattle.std.specs.Prelude.{◌≡◌, ◌+◌, ◌≤◌, ◌^◌, ◌∷◌, [], map};
ghost use Rattle.obj_memory.specs.Heap.{rounded_up};
ghost use Rattle.c_syntax.specs.StatementsView as views;
ghost use Rattle.c_tree.specs.Kinds.{size_of_kind};
ghost use Rattle.c_tree.specs.View.{static_of};
ghost use Rattle.c_counts.specs.Excess.{first_above};
ghost use Rattle.c_unit_typing.specs.Typed.{end_behind};
ghost use Rattle.c_programs.specs.Limits.{IsExcess, first_large, large_or};
ghost use Rattle.c_programs.specs.Outlines.{outline_of};

use crate::outline::Outline;
use c_counts::{Excess, excess_of};
use c_syntax::Unit;
use c_tree::{Kind, StaticObject};
use c_unit_typing::limits::Limited;

/// The most functions of a program.
const MOST_FUNCTIONS: u128 = 4096;

/// The most bytes that static objects take.
const MOST_BYTES: u128 = 4194304;

fn size_of(kind: Kind) -> u64
    ensures { result ≡ size_of_kind kind }
{
    match kind {
        Kind::Void => 0,
        Kind::Scalar(scalar) => scalar.size(),
        Kind::Structure(size) | Kind::Array(size) => size,
    }
}

// The place behind an object, which stands at the next multiple of 16.
fn behind(place: u128, object: &StaticObject) -> u128
    requires { place ≤ 2 ^ 127 + 2 ^ 67 }
    ensures value { result ≡ rounded_up 16 place + size_of_kind object.now.kind }
    ensures near { result ≤ place + (2 ^ 64 + 16) }
{
    (place + 15) / 16 * 16 + size_of(object.kind) as u128
}

// The bytes that static objects take, in whole pages.
fn global_bytes(statics: &[StaticObject]) -> u128
    ensures { result ≡ rounded_up 4096 (end_behind 0 (map static_of statics.now)) }
{
    let mut place = 0;
    for object in statics {
        place = behind(place, object);
    }
    (place + 4095) / 4096 * 4096
}

// A count that is above a limit.
fn above(most: u128, count: u128) -> Option<u128>
    ensures { result ≡ first_above most (count ∷ []) }
{
    if most < count { Some(count) } else { None }
}

// How much there is of something, where there is too much of it, or else of something else.
fn large_or(
    which: Limited,
    count: Option<u128>,
    other: Option<(Limited, u128)>,
) -> Option<(Limited, u128)>
    ensures { result ≡ large_or which count other }
{
    match count {
        None => other,
        Some(count) => Some((which, count)),
    }
}

// What there is too much of, of so many functions, these lists of a file and so many bytes of static objects.
fn first_large(functions: u128, lists: Excess, bytes: u128) -> Option<(Limited, u128)>
    ensures { result ≡ first_large functions lists.parameters lists.members bytes }
{
    let globals = large_or(Limited::Globals, above(MOST_BYTES, bytes), None);
    let members = large_or(Limited::Members, lists.members, globals);
    let parameters = large_or(Limited::Parameters, lists.parameters, members);
    large_or(
        Limited::Functions,
        above(MOST_FUNCTIONS, functions),
        parameters,
    )
}

/// What there is too much of in the program of a file: the first of the limits that it violates, with how much there
/// is.
#[tactic(auto, using(crate::proofs::Limiting::is_excess))]
pub fn excess(unit: &Unit, outline: &Outline) -> Option<(Limited, u128)>
    ensures { IsExcess (views.externals_in unit.now.externals) (outline_of outline.now) result }
{
    let count = outline.definitions.len() as u128;
    let bytes = global_bytes(&outline.statics);
    first_large(count, excess_of(unit), bytes)
}
