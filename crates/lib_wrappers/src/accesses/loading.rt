//! Scalars loaded.

ghost use Rattle.std.specs.Prelude.{◌≡◌, ◌≤◌, ◌^◌, IfOk, ◌∷◌, length};
ghost use Rattle.addr_map.specs.Places.{AreMapped};
ghost use Rattle.flat_code.specs.Routines.Registers.{AreDistinct, AreBelow};
ghost use Rattle.flat_code.specs.Routines.Metadata.{held_registers};
ghost use Rattle.flat_code.specs.Routines.InputOutput.{IsWithoutInputOutput};
ghost use Rattle.flat_actions.specs.Actions.{registers_of, program_basis};
ghost use Rattle.lib_wrappers.specs.AccessRoutines.Holding.{holder_in, IsApartFrom};
ghost use Rattle.lib_wrappers.specs.AccessRoutines.Accessing.{IsLoadRoutine, load_op, load_integer_code};
ghost use Rattle.lib_wrappers.specs.AccessRoutines.Accessing.{load_pointer_code, load_code};
ghost use Rattle.lib_wrappers.specs.declared.accesses.held.HeldScalar.TheVariants.{Pointer};

use crate::accesses::held::HeldScalar;
use addr_map::AddrMap;
use flat_code::{FlatInstruction, Held, RightOperand};
use obj_memory::IntType;
use rv_isa::{BranchOp, LoadOp, RegOp};
use shadow_space::ShadowForm;
use std::alloc::{AllocError, Global};

/// Loads a scalar through a pointer, which is to bytes of a live object, into the registers of `into`: a pointer with
/// the entry of the word where its address is a multiple of 8, and with none elsewhere. The register of the address
/// alone is needed of the pointer. It may write the registers from `scratch` on, takes no input and puts no output. The
/// only refusal is that memory fails.
pub fn load<S: ShadowForm>(
    alloc: Global,
    map: &AddrMap,
    address: u32,
    into: HeldScalar,
    scratch: u32,
) -> Result<Vec<FlatInstruction>, AllocError>
    requires map { AreMapped map.now }
    requires below { AreBelow scratch (address ∷ registers_of (holder_in into)) }
    requires apart { IsApartFrom address into }
    requires room { scratch ≤ 2 ^ 31 }
    ensures code { IfOk result (λ r. r.items ≡ load_code S.entry_read map.now address into scratch) }
    ensures does { IfOk result
        (λ r. IsLoadRoutine (program_basis map.now S.entry (S.IsGood map.now)) address into scratch r.items) }
    ensures computes { IfOk result (λ r. IsWithoutInputOutput r.items) }
{
    match into {
        HeldScalar::Integer(of, register) => load_integer(alloc, address, of, register),
        HeldScalar::Pointer(held) => load_pointer::<S>(alloc, map, address, held, scratch),
    }
}

fn load_integer(
    alloc: Global,
    address: u32,
    of: IntType,
    into: u32,
) -> Result<Vec<FlatInstruction>, AllocError>
    ensures { IfOk result (λ r. r.items ≡ load_integer_code address of into) }
{
    let code = [FlatInstruction::Load {
        op: load_operator(of),
        into,
        at: address,
        offset: 0,
    }];
    Vec::from_slice(alloc, &code)
}

/// The operator that loads an integer of a type: of its width, with its sign.
#[tactic(auto, unfolding(crate::specs::AccessRoutines::Accessing::load_op))]
pub fn load_operator(of: IntType) -> LoadOp
    ensures { result ≡ load_op of }
{
    match of {
        IntType::Char | IntType::UnsignedChar => LoadOp::Lbu,
        IntType::SignedChar => LoadOp::Lb,
        IntType::Short => LoadOp::Lh,
        IntType::UnsignedShort => LoadOp::Lhu,
        IntType::Int => LoadOp::Lw,
        IntType::UnsignedInt => LoadOp::Lwu,
        IntType::Long | IntType::UnsignedLong | IntType::LongLong | IntType::UnsignedLongLong => {
            LoadOp::Ld
        }
    }
}

fn load_pointer<S: ShadowForm>(
    alloc: Global,
    map: &AddrMap,
    address: u32,
    into: Held,
    scratch: u32,
) -> Result<Vec<FlatInstruction>, AllocError>
    requires map { AreMapped map.now }
    requires below { AreBelow scratch (address ∷ held_registers into) }
    requires apart { AreDistinct (address ∷ held_registers into) }
    requires room { scratch ≤ 2 ^ 31 }
    ensures code { IfOk result
        (λ r. r.items ≡ load_pointer_code address into scratch (S.entry_read map.now address into.tag scratch)) }
    ensures does { IfOk result
        (λ r. IsLoadRoutine (program_basis map.now S.entry (S.IsGood map.now)) address (Pointer into) scratch r.items) }
    ensures computes { IfOk result (λ r. IsWithoutInputOutput r.items) }
{
    let read = S::read_entry(alloc, map, address, into.tag, scratch)?;
    let code = with_entry(alloc, address, into, scratch, &read)?;
    Ok(code)
}

// The word, and behind it the instructions that read its entry.
fn with_entry(
    alloc: Global,
    address: u32,
    into: Held,
    scratch: u32,
    read: &[FlatInstruction],
) -> Result<Vec<FlatInstruction>, AllocError>
    requires { length read.now ≤ 32 }
    ensures { IfOk result (λ r. r.items ≡ load_pointer_code address into scratch read.now) }
{
    let past = read.len() as u32;
    let word = [
        FlatInstruction::Load {
            op: LoadOp::Ld,
            into: into.value,
            at: address,
            offset: 0,
        },
        // the low three bits of the address alone
        FlatInstruction::Operate {
            op: RegOp::Sll,
            into: scratch,
            left: address,
            right: RightOperand::Number(61),
        },
        FlatInstruction::Branch {
            op: BranchOp::Beq,
            left: scratch,
            right: RightOperand::Number(0),
            past: 5,
        },
        FlatInstruction::Constant {
            into: into.tag.base,
            value: 0,
        },
        FlatInstruction::Constant {
            into: into.tag.bound,
            value: 0,
        },
        FlatInstruction::Constant {
            into: into.tag.key,
            value: 0,
        },
        FlatInstruction::Constant {
            into: into.tag.lock,
            value: 0,
        },
        FlatInstruction::JumpForward { past },
    ];
    let mut code = Vec::from_slice(alloc, &word)?;
    code.extend_from_slice(read)?;
    Ok(code)
}
