//! What is known of a typed program by the types of its numbers.
ghost use Rattle.std.specs.Prelude.{◌≡◌, ◌^◌, nat_lt, true, None, Ok, map};
ghost use Rattle.c_tree.specs.View.{function_of, program_of};
ghost use Rattle.c_programs.specs.Rooms.{first_without_room};
ghost use Rattle.sbcets_core.specs.Programs.{judged_program};

use c_tree::{Function, Program};

// The room of a function is below 2^64 bytes.
fn room_is_a_number(function: &Function)
    ensures { nat_lt (function_of function.now).room (2 ^ 64) ≡ true }
{
    // A number that is read is known to be in the range of its type.
    let _room = function.room;
}

fn rooms_are_numbers(functions: &[Function])
    ensures { first_without_room 0 (map function_of functions.now) ≡ None }
{
    for function in functions {
        room_is_a_number(function);
    }
}

/// A program that was typed has room for its functions.
#[tactic(auto, unfolding(crate::specs::Programs::judged_program))]
pub fn has_rooms(program: &Program)
    ensures { judged_program (program_of program.now) ≡ Ok (program_of program.now) }
{
    rooms_are_numbers(program.functions.as_slice());
}
