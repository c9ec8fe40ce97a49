//! The bytes of the budget `calls` that a call takes.

ghost use Rattle.std.specs.Prelude.{◌≡◌, ℕ, List, length, map, IfOk};
ghost use Rattle.c_tree.specs.Programs as programs;
ghost use Rattle.c_tree.specs.Room.{greatest_height, room, static_contents};
ghost use Rattle.c_tree.specs.Statements.{statements_in};
ghost use Rattle.c_tree.specs.View.{function_of, statement_of, static_of};
ghost use Rattle.c_room.specs.Numbers.{fitting};
ghost use Rattle.c_room.specs.Rooms.{rooms};

use crate::demand::Demand;
use crate::expression::structure_bytes;
use crate::number::{greater, known, plus, times};
use crate::statement::statements;
use crate::statics::static_heights;
use c_tree::{Function, Kind, Statement, StaticObject, Variable};
use std::alloc::{AllocError, Global};

/// The bytes of the budget `calls` that a call of a function takes, from its parameters, its automatic variables, its
/// block, the greatest height of the static objects there, and the kind of what it gives. `None` where these are 2^64
/// or more.
pub fn room(
    parameters: &[Variable],
    variables: &[Variable],
    body: &[Statement],
    statics: Option<u64>,
    returned: Kind,
) -> Option<u64>
    ensures { (os : List programs.StaticObject) (n : ℕ) (f : programs.Function) → f.parameters ≡ parameters.now
        → f.variables ≡ variables.now → f.body ≡ statements_in (map statement_of body.now)
        → statics ≡ fitting (greatest_height (static_contents os n)) → result ≡ fitting (room os n returned f) }
{
    let demand = statements(Demand::nothing(), body);
    let taken = known(parameters.len() as u64);
    let own = known(variables.len() as u64);
    let height = greater(demand.height, statics);
    let homes = times(40, plus(plus(taken, own), height));
    let tags = times(32, plus(known(1), taken));
    let structures = times(5, plus(structure_bytes(returned), demand.passed));
    plus(plus(plus(known(96), homes), tags), structures)
}

/// The bytes of the budget `calls` that a call of each function takes, `None` where these are 2^64 or more, of
/// functions in order with the kinds of what they give.
pub fn rooms(
    alloc: Global,
    statics: &[StaticObject],
    functions: &[Function],
    results: &[Kind],
) -> Result<Vec<Option<u64>>, AllocError>
    requires { length results.now ≡ length functions.now }
    ensures { IfOk result (λ all. all.items
        ≡ rooms (map static_of statics.now) 0 (map function_of functions.now) results.now) }
{
    let heights = static_heights(alloc, statics, functions.len())?;
    let mut all = Vec::new(alloc);
    for i in 0..functions.len() {
        all.push(room_of(&functions[i], heights[i], results[i]))?;
    }
    Ok(all)
}

// Of a function with the height of its static objects.
fn room_of(function: &Function, statics: Option<u64>, returned: Kind) -> Option<u64>
    ensures { (os : List programs.StaticObject) (n : ℕ) → statics ≡ fitting (greatest_height (static_contents os n))
        → result ≡ fitting (room os n returned (function_of function.now)) }
{
    room(
        function.parameters.as_slice(),
        function.variables.as_slice(),
        function.body.as_slice(),
        statics,
        returned,
    )
}
