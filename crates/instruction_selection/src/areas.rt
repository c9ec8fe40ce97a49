//! Where the structures by value of a function lie: each temporary into which one is put has an area, as large as the
//! greatest of them (C99 6.5.2.2 paragraph 4, 6.8.6.4 paragraph 3).

ghost use Rattle.std.specs.Prelude.{◌≡◌, ℕ, ◌*◌, ◌<◌, ◌≤◌, ◌^◌, length, get_or, IfOk, MatchOption};
ghost use Rattle.metadata_plan.specs.Registers.{most_temporaries};
ghost use Rattle.metadata_relation.specs.Structures.{HasAreas};
ghost use Rattle.instruction_selection.specs.Areas.{sum_before, AreSumsOf, HasTable};

use crate::temporaries::most_temporaries;
use metadata_expansion::areas::greatest_structures;
use std::alloc::{AllocError, Global};
use tac_ir::{CodeFunction, Tac};

// The sums of numbers before each, and of all, where five times that is no more than some room.
fn sums_within(alloc: Global, numbers: &[u128], room: u64) -> Result<Option<Vec<u64>>, AllocError>
    requires { (i : ℕ) → get_or numbers.now i 0 ≤ 2 ^ 65 }
    ensures { IfOk result (λ found. MatchOption found (room < 5 * sum_before numbers.now (length numbers.now))
        (λ table. AreSumsOf table.items numbers.now room)) }
{
    let mut table = Vec::new(alloc);
    let mut sum = 0u128;
    for i in 0..numbers.len() {
        table.push(sum as u64)?;
        sum += numbers[i];
        if 5 * sum > u128::from(room) {
            return Ok(None);
        }
    }
    table.push(sum as u64)?;
    Ok(Some(table))
}

/// The bytes of the structures of the temporaries before each one, and before all, where what the calls are charged for
/// the function has room for them. It fails only for want of memory.
#[tactic(auto, using(crate::proofs::StructureAreas::is_not_whole))]
pub fn structure_areas(
    alloc: Global,
    program: &Tac,
    function: &CodeFunction,
) -> Result<Option<Vec<u64>>, AllocError>
    requires { most_temporaries function.now.code < 2 ^ 31 }
    ensures { IfOk result (λ found. MatchOption found (HasAreas program.now function.now → ⊥)
        (λ table. HasTable table.items program.now function.now)) }
{
    if function.room % 8 != 0 {
        return Ok(None);
    }
    let instructions = function.code.as_slice();
    let count = most_temporaries(instructions) as usize;
    let greatest = greatest_structures(alloc, program, instructions, count)?;
    sums_within(alloc, &greatest, function.room)
}
