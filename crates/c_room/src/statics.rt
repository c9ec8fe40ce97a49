//! The heights of the static objects in the blocks of functions.

ghost use Rattle.std.specs.Prelude.{◌≡◌, map, replicate, IfOk, Some, [], ◌∷◌};
ghost use Rattle.c_tree.specs.View.{static_of};
ghost use Rattle.c_room.specs.Rooms.{AreHeights, raised, with_statics};

use crate::demand::Demand;
use crate::number::greater;
use crate::statement::parts;
use c_tree::StaticObject;
use std::alloc::{AllocError, Global};

// So many functions without static objects.
fn without_statics(alloc: Global, functions: usize) -> Result<Vec<Option<u64>>, AllocError>
    ensures { IfOk result (λ heights. heights.items ≡ replicate functions (Some 0)) }
{
    vec![in alloc; Some(0); functions]
}

// With a height in the block of a function.
fn raise(heights: &mut Vec<Option<u64>>, function: usize, height: Option<u64>)
    ensures { heights.new.items ≡ raised heights.old.items function height }
{
    if function < heights.len() {
        heights[function] = greater(heights[function], height);
    }
}

// With static objects.
fn add_statics(heights: &mut Vec<Option<u64>>, statics: &[StaticObject])
    ensures { heights.new.items ≡ with_statics heights.old.items (map static_of statics.now) }
{
    for object in statics {
        add_static(heights, object);
    }
}

// With a static object.
fn add_static(heights: &mut Vec<Option<u64>>, object: &StaticObject)
    ensures { heights.new.items ≡ with_statics heights.old.items (static_of object.now ∷ []) }
{
    let height = parts(Demand::nothing(), object.parts.as_slice()).height;
    match object.function {
        None => {}
        Some(function) => raise(heights, function, height),
    }
}

/// For each of so many functions by number, the greatest height of the expressions in the initializers of the static
/// objects of its block, 0 where there are none, and `None` where it is 2^64 or more.
#[tactic(auto, using(crate::proofs::Tables::are_heights))]
pub fn static_heights(
    alloc: Global,
    statics: &[StaticObject],
    functions: usize,
) -> Result<Vec<Option<u64>>, AllocError>
    ensures { IfOk result (λ heights. AreHeights (map static_of statics.now) functions heights.items) }
{
    let mut heights = without_statics(alloc, functions)?;
    add_statics(&mut heights, statics);
    Ok(heights)
}
