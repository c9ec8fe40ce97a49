//! Checks of pointers (C99 6.5.3.2): by their entries, and of named objects by the places of these.

ghost use Rattle.std.specs.Prelude.{◌≡◌, ℕ, ◌+◌, ◌-◌, ◌<◌, ◌≤◌, ◌^◌, ◌++◌, ◌∷◌, [], Bool, OnOk, Some, None, slice_get};
ghost use Rattle.std.specs.Prelude.{max, min};
ghost use Rattle.std.specs.Prelude.{length, MatchOption};
ghost use Rattle.std.specs.List.{list_all};
ghost use Rattle.shadow_space.specs.Form.{EntryCode};
ghost use Rattle.metadata_plan.specs.OperatorLists.Operators.{operators};
ghost use Rattle.metadata_plan.specs.Entries.{can_compare, is_fixed, is_name, key_in};
ghost use Rattle.metadata_relation.specs.InlineLists.{inline_lists};
ghost use Rattle.metadata_relation.specs.Blocks.{check_code, compare_code, judge_code, named_address, named_size};
ghost use Rattle.metadata_relation.specs.Blocks.{number_code, number_operand, path_range};
ghost use Rattle.rv_isa.specs.declared.instruction.BranchOp.TheVariants.{Bltu};
ghost use Rattle.sb_base.specs.declared.ending.Ending.TheVariants.{Spatial};
ghost use Rattle.tac_ir.specs.declared.instruction.Test.TheVariants.{Spatial as SpatialTest};
ghost use Rattle.flat_code.specs.declared.instruction.FlatInstruction.TheVariants.{Branch as Choice, End};
ghost use Rattle.instruction_selection.specs.Contexts.{IsPrepared};
ghost use Rattle.instruction_selection.specs.Selected.{expansion_of};

use crate::context::FunctionContext;
use crate::entries::held_from;
use crate::list::{append, put};
use crate::numbers::{number_operand, put_number};
use crate::pointers::put_member_address;
use crate::statics::static_place;
use crate::variables::kind_of;
use flat_actions::{spatial_check, temporal_check};
use flat_code::{FlatInstruction, RightOperand};
use flat_operators::constant::put_constant;
use rv_isa::{BranchOp, RegOp};
use sb_base::{Ending, Line};
use static_data::pointers::size_of;
use std::alloc::AllocError;
use tac_ir::{Base, CodeFunction, Key, Member, Test};

/// A check of a pointer.
#[derive(Clone, Copy)]
pub struct Check {
    /// What is tested.
    pub test: Test,
    /// The bytes of the access.
    pub size: u64,
    /// The line that a report names.
    pub line: Line,
    /// The register of the pointer.
    pub pointer: u32,
    /// The first register that is free.
    pub scratch: u32,
}

/// Puts a check of a pointer by its entry behind a list. It fails only for want of memory.
#[tactic(auto, using(crate::proofs::Operands::held_below, crate::proofs::Operands::operand_below))]
pub fn put_check(
    code: &mut Vec<FlatInstruction>,
    context: &FunctionContext,
    check: Check,
) -> Result<(), AllocError>
    requires pointer { check.pointer + 5 ≤ check.scratch }
    requires room { check.scratch + 16 ≤ 2 ^ 31 }
    ensures { OnOk result ((read write : EntryCode) → code.new.items ≡ code.old.items
        ++ check_code (inline_lists read write context.now.map.now) check.test check.size check.line check.pointer
        check.scratch) }
{
    let Check {
        size,
        line,
        scratch,
        ..
    } = check;
    let pointer = held_from(check.pointer);
    match check.test {
        Test::Spatial => {
            put_number(code, size, scratch, scratch + 1)?;
            let size = number_operand(size, scratch);
            let list = spatial_check(context.alloc, pointer, size, line, scratch + 1)?;
            append(code, &list)
        }
        Test::Temporal => {
            let list = temporal_check(context.alloc, pointer, line, scratch)?;
            append(code, &list)
        }
    }
}

// Whether a key begins with the name of an object.
fn is_named(base: Base) -> bool
    ensures { result ≡ is_name base }
{
    match base {
        Base::Plain(_) => false,
        Base::Automatic(_) | Base::Static(_) => true,
    }
}

// Whether a member stands so many bytes behind the base, whatever the variables hold.
fn is_fixed(member: &Member) -> bool
    ensures { result ≡ is_fixed member.now }
{
    member.scaled.is_none() && member.constant < 1 << 32
}

// Whether all members do.
fn are_fixed(members: &[Member]) -> bool
    ensures { result ≡ list_all is_fixed members.now }
{
    for member in members {
        if !is_fixed(member) {
            return false;
        }
    }
    true
}

// Whether a check of a pointer with a key compares its address with that of a named object.
fn can_compare(test: Test, key: &Key) -> bool
    ensures { result ≡ can_compare test key.now }
{
    match test {
        Test::Spatial => is_named(key.base) && are_fixed(key.path.as_slice()),
        Test::Temporal => is_named(key.base),
    }
}

/// Bytes of a named object, from its first address on.
#[derive(Clone, Copy)]
pub struct ByteRange {
    /// The first.
    pub start: u128,
    /// One past the last.
    pub end: u128,
}

// The greater of two numbers.
fn greater(left: u128, right: u128) -> u128
    ensures value { result ≡ max left right }
    ensures among { (n : ℕ) → left < n → right < n → result < n }
{
    if left < right { right } else { left }
}

// The less of two numbers.
fn less(left: u128, right: u128) -> u128
    ensures value { result ≡ min left right }
    ensures low { result ≤ left }
{
    if left < right { left } else { right }
}

// One of the members of a path, by its number.
fn member_at(path: &[Member], number: usize) -> &Member
    requires { number < length path.now }
    ensures { slice_get path.now number ≡ Some result.now }
{
    &path[number]
}

// The bytes of a member whose place is fixed.
fn member_range(member: &Member) -> ByteRange
    ensures start { result.start ≡ member.now.constant }
    ensures end { result.end ≡ member.now.constant + member.now.size }
    ensures low { result.start < 2 ^ 64 }
{
    let start = member.constant as u128;
    ByteRange {
        start,
        end: start + member.size as u128,
    }
}

// The bytes of an object of a size that a path narrows a pointer to.
fn path_range(size: u64, path: &[Member]) -> ByteRange
    ensures start { result.start ≡ (path_range size path.now).start }
    ensures end { result.end ≡ (path_range size path.now).end }
    ensures inside { result.end ≤ size }
    ensures low { result.start < 2 ^ 64 }
{
    let mut start = 0;
    let mut end = size as u128;
    let count = path.len();
    for behind in 0..count {
        let member = member_range(member_at(path, count - 1 - behind));
        start = greater(start, member.start);
        end = less(end, member.end);
    }
    ByteRange { start, end }
}

// The bytes of the object that a key begins with.
fn named_size(context: &FunctionContext, base: Base) -> u64
    requires { IsPrepared context.now }
    ensures value { result ≡ named_size context.now.map.now context.now.program.now context.now.function.now base }
    ensures small { result ≤ 2 ^ 62 }
{
    match base {
        Base::Plain(_) => 0,
        Base::Automatic(variable) => size_of(kind_of(context.function, variable)),
        Base::Static(number) => static_place(context, number).size,
    }
}

// Puts the address so many bytes behind that of a named object into a register.
fn put_named_address(
    code: &mut Vec<FlatInstruction>,
    context: &FunctionContext,
    base: Base,
    offset: u64,
    register: u32,
) -> Result<(), AllocError>
    requires prepared { IsPrepared context.now }
    requires inside { offset ≤ named_size context.now.map.now context.now.program.now context.now.function.now base }
    requires room { register + 16 ≤ 2 ^ 31 }
    ensures { OnOk result (code.new.items ≡ code.old.items ++ named_address operators context.now.map.now
        context.now.program.now context.now.function.now base offset register) }
{
    match base {
        Base::Plain(_) => Ok(()),
        Base::Automatic(variable) => {
            let home = context.home(variable);
            put_member_address(code, offset, register, home, register)
        }
        Base::Static(number) => {
            put_constant(
                code,
                register,
                static_place(context, number).address + offset,
            )
        }
    }
}

// Puts the test that a word in a register is at most a number, else the run ends with a spatial violation.
fn put_most(code: &mut Vec<FlatInstruction>, check: Check, most: u64) -> Result<(), AllocError>
    requires room { check.scratch + 16 ≤ 2 ^ 31 }
    requires most { most < 2 ^ 64 - 1 }
    ensures { OnOk result (code.new.items ≡ code.old.items
        ++ (number_code operators (most + 1) (check.scratch + 1) (check.scratch + 2)
        ++ (Choice Bltu check.scratch (number_operand (most + 1) (check.scratch + 1)) 1
        ∷ End (Spatial check.line) ∷ []))) }
{
    let register = check.scratch + 1;
    put_number(code, most + 1, register, register + 1)?;
    put(
        code,
        FlatInstruction::Branch {
            op: BranchOp::Bltu,
            left: check.scratch,
            right: number_operand(most + 1, register),
            past: 1,
        },
    )?;
    put(code, FlatInstruction::End(Ending::Spatial(check.line)))
}

// Puts the comparison of a pointer with the bytes of a named object that its key narrows it to.
fn put_range_test(
    code: &mut Vec<FlatInstruction>,
    context: &FunctionContext,
    key: &Key,
    check: Check,
) -> Result<(), AllocError>
    requires prepared { IsPrepared context.now }
    requires room { check.scratch + 16 ≤ 2 ^ 31 }
    ensures { OnOk result (code.new.items ≡ code.old.items ++ compare_code operators context.now.map.now
        context.now.program.now context.now.function.now SpatialTest key.now check.size check.line check.pointer
        check.scratch) }
{
    let range = path_range(named_size(context, key.base), key.path.as_slice());
    let least = range.start + check.size as u128;
    if least > range.end {
        return put(code, FlatInstruction::End(Ending::Spatial(check.line)));
    }
    put_named_address(code, context, key.base, range.start as u64, check.scratch)?;
    put(
        code,
        FlatInstruction::Operate {
            op: RegOp::Sub,
            into: check.scratch,
            left: check.pointer,
            right: RightOperand::Register(check.scratch),
        },
    )?;
    put_most(code, check, (range.end - least) as u64)
}

// Puts a check of a pointer with a key behind a list.
#[tactic(auto, using(crate::proofs::Lists::nothing_behind))]
fn put_keyed(
    code: &mut Vec<FlatInstruction>,
    context: &FunctionContext,
    check: Check,
    key: &Key,
) -> Result<(), AllocError>
    requires prepared { IsPrepared context.now }
    requires pointer { check.pointer + 5 ≤ check.scratch }
    requires room { check.scratch + 16 ≤ 2 ^ 31 }
    ensures { OnOk result ((read write : EntryCode) (with_entry : Bool) → code.new.items ≡ code.old.items
        ++ judge_code (expansion_of read write context.now with_entry) context.now.function.now check.test
        (Some key.now) check.size check.line check.pointer check.scratch) }
{
    if !can_compare(check.test, key) {
        return put_check(code, context, check);
    }
    match check.test {
        Test::Spatial => put_range_test(code, context, key, check),
        Test::Temporal => Ok(()),
    }
}

// The key of a number in a function.
fn key_of(function: &CodeFunction, number: Option<usize>) -> Option<&Key>
    ensures { MatchOption result (key_in function.now number ≡ None)
        (λ key. key_in function.now number ≡ Some key.now) }
{
    match number {
        Some(number) => function.keys.as_slice().get(number),
        None => None,
    }
}

/// Puts a check of a pointer behind a list: where its key begins with an object's name nothing is tested of its life,
/// and where no member of the path moves, its address is compared with that of the object. It fails only for want of
/// memory.
pub fn put_judge(
    code: &mut Vec<FlatInstruction>,
    context: &FunctionContext,
    check: Check,
    number: Option<usize>,
) -> Result<(), AllocError>
    requires prepared { IsPrepared context.now }
    requires pointer { check.pointer + 5 ≤ check.scratch }
    requires room { check.scratch + 16 ≤ 2 ^ 31 }
    ensures { OnOk result ((read write : EntryCode) (with_entry : Bool) → code.new.items ≡ code.old.items
        ++ judge_code (expansion_of read write context.now with_entry) context.now.function.now check.test
        (key_in context.now.function.now number) check.size check.line check.pointer check.scratch) }
{
    match key_of(context.function, number) {
        Some(key) => put_keyed(code, context, check, key),
        None => put_check(code, context, check),
    }
}
