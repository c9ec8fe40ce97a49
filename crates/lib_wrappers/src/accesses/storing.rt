//! Scalars stored.

ghost use Rattle.std.specs.Prelude.{◌≡◌, ◌≤◌, ◌^◌, IfOk, ◌∷◌, length};
ghost use Rattle.addr_map.specs.Places.{AreMapped};
ghost use Rattle.flat_code.specs.Routines.Registers.{AreBelow};
ghost use Rattle.flat_code.specs.Routines.Metadata.{held_registers};
ghost use Rattle.flat_code.specs.Routines.InputOutput.{IsWithoutInputOutput};
ghost use Rattle.flat_actions.specs.Actions.{registers_of, program_basis};
ghost use Rattle.lib_wrappers.specs.AccessRoutines.Holding.{holder_in};
ghost use Rattle.lib_wrappers.specs.AccessRoutines.Accessing.{IsStoreRoutine, store_op, store_integer_code};
ghost use Rattle.lib_wrappers.specs.AccessRoutines.Accessing.{store_pointer_code, store_code};
ghost use Rattle.lib_wrappers.specs.declared.accesses.held.HeldScalar.TheVariants.{Pointer};

use crate::accesses::held::HeldScalar;
use addr_map::AddrMap;
use flat_code::{FlatInstruction, Held, RightOperand};
use obj_memory::IntType;
use rv_isa::{BranchOp, RegOp, StoreOp};
use shadow_space::ShadowForm;
use std::alloc::{AllocError, Global};

/// Stores the scalar in the registers of `from` through a pointer, which is to bytes of a live object: of a pointer the
/// entry too, where the address is a multiple of 8. The register of the address alone is needed of the pointer that is
/// written through. It may write the registers from `scratch` on, takes no input and puts no output. The only refusal
/// is that memory fails.
pub fn store<S: ShadowForm>(
    alloc: Global,
    map: &AddrMap,
    address: u32,
    from: HeldScalar,
    scratch: u32,
) -> Result<Vec<FlatInstruction>, AllocError>
    requires map { AreMapped map.now }
    requires below { AreBelow scratch (address ∷ registers_of (holder_in from)) }
    requires room { scratch ≤ 2 ^ 31 }
    ensures code { IfOk result (λ r. r.items ≡ store_code S.entry_write map.now address from scratch) }
    ensures does { IfOk result
        (λ r. IsStoreRoutine (program_basis map.now S.entry (S.IsGood map.now)) address from scratch r.items) }
    ensures computes { IfOk result (λ r. IsWithoutInputOutput r.items) }
{
    S::entries_are_local();
    match from {
        HeldScalar::Integer(of, register) => store_integer(alloc, address, of, register),
        HeldScalar::Pointer(held) => store_pointer::<S>(alloc, map, address, held, scratch),
    }
}

fn store_integer(
    alloc: Global,
    address: u32,
    of: IntType,
    from: u32,
) -> Result<Vec<FlatInstruction>, AllocError>
    ensures { IfOk result (λ r. r.items ≡ store_integer_code address of from) }
{
    let code = [FlatInstruction::Store {
        op: store_operator(of),
        at: address,
        offset: 0,
        from,
    }];
    Vec::from_slice(alloc, &code)
}

#[tactic(auto, unfolding(crate::specs::AccessRoutines::Accessing::store_op))]
fn store_operator(of: IntType) -> StoreOp
    ensures { result ≡ store_op of }
{
    match of {
        IntType::Char | IntType::SignedChar | IntType::UnsignedChar => StoreOp::Sb,
        IntType::Short | IntType::UnsignedShort => StoreOp::Sh,
        IntType::Int | IntType::UnsignedInt => StoreOp::Sw,
        IntType::Long | IntType::UnsignedLong | IntType::LongLong | IntType::UnsignedLongLong => {
            StoreOp::Sd
        }
    }
}

fn store_pointer<S: ShadowForm>(
    alloc: Global,
    map: &AddrMap,
    address: u32,
    from: Held,
    scratch: u32,
) -> Result<Vec<FlatInstruction>, AllocError>
    requires map { AreMapped map.now }
    requires below { AreBelow scratch (address ∷ held_registers from) }
    requires room { scratch ≤ 2 ^ 31 }
    ensures code { IfOk result
        (λ r. r.items ≡ store_pointer_code address from scratch (S.entry_write map.now address from.tag scratch)) }
    ensures does { IfOk result
        (λ r. IsStoreRoutine (program_basis map.now S.entry (S.IsGood map.now)) address (Pointer from) scratch r.items) }
    ensures computes { IfOk result (λ r. IsWithoutInputOutput r.items) }
{
    S::entries_are_local();
    let write = S::write_entry(alloc, map, address, from.tag, scratch)?;
    let code = with_entry(alloc, address, from, scratch, &write)?;
    Ok(code)
}

// The word, and behind it the instructions that write its entry.
fn with_entry(
    alloc: Global,
    address: u32,
    from: Held,
    scratch: u32,
    write: &[FlatInstruction],
) -> Result<Vec<FlatInstruction>, AllocError>
    requires { length write.now ≤ 32 }
    ensures { IfOk result (λ r. r.items ≡ store_pointer_code address from scratch write.now) }
{
    let past = write.len() as u32;
    let word = [
        FlatInstruction::Store {
            op: StoreOp::Sd,
            at: address,
            offset: 0,
            from: from.value,
        },
        // the low three bits of the address alone
        FlatInstruction::Operate {
            op: RegOp::Sll,
            into: scratch,
            left: address,
            right: RightOperand::Number(61),
        },
        FlatInstruction::Branch {
            op: BranchOp::Bne,
            left: scratch,
            right: RightOperand::Number(0),
            past,
        },
    ];
    let mut code = Vec::from_slice(alloc, &word)?;
    code.extend_from_slice(write)?;
    Ok(code)
}
