//! Pointers that move by elements, their differences, and pointers to members (C99 6.5.2.3, 6.5.6).

ghost use Rattle.std.specs.Prelude.{◌≡◌, ◌+◌, ◌<◌, ◌≤◌, ◌^◌, ◌++◌, ◌∷◌, [], false, true, OnOk};
ghost use Rattle.rv_isa.specs.declared.instruction.RegOp.TheVariants.{Add as add_op};
ghost use Rattle.flat_code.specs.declared.instruction.FlatInstruction.TheVariants.{Operate as Operation};
ghost use Rattle.shadow_space.specs.Form.{EntryCode};
ghost use Rattle.addr_map.specs.Places.{MapSizes};
ghost use Rattle.metadata_plan.specs.OperatorLists.Operators.{operators};
ghost use Rattle.metadata_relation.specs.InlineLists.{inline_lists};
ghost use Rattle.metadata_relation.specs.Blocks.{narrow_code, number_code, number_operand, offset_code};

use crate::entries::{held_from, put_value};
use crate::list::{append, put};
use crate::numbers::{number_operand, put_number};
use c_tree::OffsetForm;
use flat_actions::narrow;
use flat_code::FlatInstruction;
use flat_operators::binary::Registers;
use flat_operators::pointers::{put_back, put_forward};
use rv_isa::RegOp;
use std::alloc::{AllocError, Global};

/// Puts a pointer that moves by elements of `size` bytes behind a list. It fails only for want of memory.
pub fn put_moved(
    code: &mut Vec<FlatInstruction>,
    form: OffsetForm,
    size: u64,
    operands: Registers,
) -> Result<(), AllocError>
    ensures { OnOk result ((read write : EntryCode) (map : MapSizes) → code.new.items ≡ code.old.items
        ++ offset_code (inline_lists read write map) form size operands.into operands.left operands.right
        operands.scratch) }
{
    let Registers {
        into,
        left,
        right,
        scratch,
    } = operands;
    match form {
        OffsetForm::PointerPlusIndex => put_forward(code, size, operands),
        OffsetForm::IndexPlusPointer => {
            let turned = Registers {
                into,
                left: right,
                right: left,
                scratch,
            };
            put_forward(code, size, turned)
        }
        OffsetForm::PointerMinusIndex => put_back(code, size, operands),
    }
}

/// A member of what a pointer points to.
#[derive(Clone, Copy)]
pub struct MemberRange {
    /// The bytes before it.
    pub offset: u64,
    /// Its bytes.
    pub size: u64,
}

// Puts the address so many bytes behind another one behind a list.
pub(crate) fn put_member_address(
    code: &mut Vec<FlatInstruction>,
    offset: u64,
    into: u32,
    from: u32,
    scratch: u32,
) -> Result<(), AllocError>
    requires { scratch < 2 ^ 31 }
    ensures { OnOk result (code.new.items ≡ code.old.items
        ++ (number_code operators offset scratch (scratch + 1)
        ++ Operation add_op into from (number_operand offset scratch) ∷ [])) }
{
    put_number(code, offset, scratch, scratch + 1)?;
    put(
        code,
        FlatInstruction::Operate {
            op: RegOp::Add,
            into,
            left: from,
            right: number_operand(offset, scratch),
        },
    )
}

/// Puts a pointer narrowed to a member behind a list, with its entry where that is kept. It fails only for want of
/// memory.
pub fn put_narrowed(
    alloc: Global,
    code: &mut Vec<FlatInstruction>,
    member: MemberRange,
    with_entry: bool,
    into: u32,
    from: u32,
    scratch: u32,
) -> Result<(), AllocError>
    requires into { into + 5 ≤ scratch }
    requires from { from + 5 ≤ scratch }
    requires room { scratch + 16 ≤ 2 ^ 31 }
    ensures { OnOk result ((read write : EntryCode) (map : MapSizes) → code.new.items ≡ code.old.items
        ++ narrow_code (inline_lists read write map) with_entry member.offset member.size into from scratch) }
{
    let MemberRange { offset, size } = member;
    if !with_entry {
        return put_member_address(code, offset, into, from, scratch);
    }
    put_value(code, true, into, from)?;
    put_number(code, offset, scratch, scratch + 2)?;
    put_number(code, size, scratch + 1, scratch + 2)?;
    let by = number_operand(offset, scratch);
    let many = number_operand(size, scratch + 1);
    let list = narrow(alloc, held_from(into), by, many, scratch + 2)?;
    append(code, &list)
}
