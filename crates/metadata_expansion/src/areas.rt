//! The structures by value of a function: each temporary into which one is put has an area, as large as the greatest of
//! them (C99 6.5.2.2 paragraph 4, 6.8.6.4 paragraph 3).

ghost use Rattle.std.specs.Prelude.{◌≡◌, ℕ, ◌+◌, ◌*◌, ◌<◌, ◌≤◌, ◌^◌, max, length, get_or, nat_le, IfOk};
ghost use Rattle.c_tree.specs.declared.expression.Kind.TheVariants.{Void};
ghost use Rattle.c_tree.specs.Room.{structure_bytes};
ghost use Rattle.obj_memory.specs.Heap.{rounded_up};
ghost use Rattle.tac_ir.specs.Meaning.{function_in};
ghost use Rattle.tac_ir.specs.Structures.{result_of as given_by, result_of_type, structure_put};
ghost use Rattle.metadata_expansion.specs.Areas.{bytes_of_structure, structure_taken, put_by, AreGreatest};

use crate::registers::greater;
use c_tree::Kind;
use std::alloc::{AllocError, Global};
use tac_ir::{CodeFunction, Instruction, Tac};

/// A structure that an instruction puts into a temporary.
#[derive(Clone, Copy)]
pub struct StructurePut {
    /// The temporary.
    pub to: usize,
    /// The bytes of the structure; 0 where the instruction puts none.
    pub size: u64,
}

// The bytes of a structure; of other kinds 0.
fn structure_size(kind: Kind) -> u64
    ensures units { rounded_up 16 result ≡ structure_bytes kind }
    ensures bytes { result ≡ bytes_of_structure kind }
{
    match kind {
        Kind::Structure(size) => size,
        Kind::Void | Kind::Scalar(_) | Kind::Array(_) => 0,
    }
}

/// The kind of what a function gives.
pub(crate) fn result_kind(program: &Tac, function: &CodeFunction) -> Kind
    ensures { result ≡ get_or program.now.results function.now.type_number Void }
{
    given_by_type(program, function.type_number)
}

// What the function with a number gives; one that is not there gives nothing.
fn given_by(program: &Tac, function: usize) -> Kind
    ensures { result ≡ given_by program.now.results (function_in program.now function) }
{
    match program.functions.as_slice().get(function) {
        Some(callee) => result_kind(program, callee),
        None => Kind::Void,
    }
}

/// What functions of a type give.
pub fn given_by_type(program: &Tac, type_number: usize) -> Kind
    ensures { result ≡ result_of_type program.now.results type_number }
{
    match program.results.as_slice().get(type_number) {
        Some(kind) => *kind,
        None => Kind::Void,
    }
}

/// The structure that an instruction puts into a temporary.
#[tactic(auto, using(crate::proofs::GreatestStructures::same_put, crate::proofs::GreatestStructures::nothing_put))]
pub fn structure_put(program: &Tac, instruction: &Instruction) -> StructurePut
    ensures put { (i : ℕ) → structure_put program.now instruction.now i ≡ put_by result i }
    ensures bytes { result.size ≡ structure_taken program.now instruction.now }
{
    match instruction {
        Instruction::ZeroOf { kind, to, .. } | Instruction::Take { kind, to, .. } => StructurePut {
            to: *to,
            size: structure_size(*kind),
        },
        Instruction::Call {
            function,
            first,
            ..
        } => StructurePut {
            to: *first,
            size: structure_size(given_by(program, *function)),
        },
        Instruction::CallThrough {
            type_number,
            first,
            ..
        } => StructurePut {
            to: *first,
            size: structure_size(given_by_type(program, *type_number)),
        },
        _ => StructurePut { to: 0, size: 0 },
    }
}

// The bytes of a structure in whole units of 16.
fn whole_units(size: u64) -> u128
    ensures value { result ≡ rounded_up 16 size }
    ensures few { result ≤ 2 ^ 65 }
{
    (u128::from(size) + 15) / 16 * 16
}

// Raises the number of a temporary to the bytes of a structure that is put into it, in whole units of 16.
#[tactic(auto, using(crate::proofs::GreatestStructures::raised, crate::proofs::GreatestStructures::not_raised, crate::proofs::GreatestStructures::raised_few))]
fn raise(list: &mut Vec<u128>, put: StructurePut)
    ensures size { length list.new.items ≡ length list.old.items }
    ensures each { (i : ℕ) → i < length list.old.items
        → get_or list.new.items i 0 ≡ max (get_or list.old.items i 0) (put_by put i) }
    ensures few { ((i : ℕ) → get_or list.old.items i 0 ≤ 2 ^ 65) → (i : ℕ) → get_or list.new.items i 0 ≤ 2 ^ 65 }
{
    let bytes = whole_units(put.size);
    if put.to < list.len() {
        let most = greater(list[put.to], bytes);
        list[put.to] = most;
    }
}

/// The greatest structure of each of so many temporaries, in bytes. It fails only for want of memory.
#[tactic(auto, using(crate::proofs::GreatestStructures::none_yet, crate::proofs::GreatestStructures::one_more, crate::proofs::GreatestStructures::all_greatest))]
pub fn greatest_structures(
    alloc: Global,
    program: &Tac,
    instructions: &[Instruction],
    count: usize,
) -> Result<Vec<u128>, AllocError>
    ensures { IfOk result (λ list. AreGreatest list.items count program.now instructions.now) }
{
    let mut list = vec![in alloc; 0u128; count]?;
    for instruction in instructions {
        raise(&mut list, structure_put(program, instruction));
    }
    Ok(list)
}

/// Whether a temporary has an area, by the greatest structure of each.
pub fn has_area(areas: &[u128], temporary: usize) -> bool
    ensures { result ≡ nat_le 1 (get_or areas.now temporary 0) }
{
    match areas.get(temporary) {
        Some(bytes) => 1 <= *bytes,
        None => false,
    }
}
