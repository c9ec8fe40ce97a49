//! The kinds of instructions, what they cost, and which of them find a wrong access.

ghost use Rattle.std.specs.Prelude.{◌≤◌};

use c_tree::Kind;
use obj_memory::Scalar;
use tac_ir::{Instruction, Mode};

/// The names of the kinds of instructions, in the order of their declaration.
pub const KIND_NAMES: [&str; 35] = [
    "Reserved",
    "Constant",
    "FunctionPointer",
    "GetPlain",
    "SetPlain",
    "UpdatePlain",
    "HomePointer",
    "StaticPointer",
    "ZeroOf",
    "Convert",
    "Unary",
    "Binary",
    "Offset",
    "Difference",
    "Narrow",
    "Member",
    "Take",
    "Read",
    "Write",
    "Update",
    "Judge",
    "Zero",
    "StorePart",
    "StoreText",
    "Branch",
    "Case",
    "Turn",
    "Library",
    "Print",
    "Call",
    "CallThrough",
    "EnterBlock",
    "LeaveBlock",
    "Return",
    "Skip",
];

/// The place of the name of an instruction's kind in `KIND_NAMES`.
pub(crate) fn kind_of(instruction: &Instruction) -> usize {
    match instruction {
        Instruction::Reserved => 0,
        Instruction::Constant { .. } => 1,
        Instruction::FunctionPointer { .. } => 2,
        Instruction::GetPlain { .. } => 3,
        Instruction::SetPlain { .. } => 4,
        Instruction::UpdatePlain { .. } => 5,
        Instruction::HomePointer { .. } => 6,
        Instruction::StaticPointer { .. } => 7,
        Instruction::ZeroOf { .. } => 8,
        Instruction::Convert { .. } => 9,
        Instruction::Unary { .. } => 10,
        Instruction::Binary { .. } => 11,
        Instruction::Offset { .. } => 12,
        Instruction::Difference { .. } => 13,
        Instruction::Narrow { .. } => 14,
        Instruction::Member { .. } => 15,
        Instruction::Take { .. } => 16,
        Instruction::Read { .. } => 17,
        Instruction::Write { .. } => 18,
        Instruction::Update { .. } => 19,
        Instruction::Judge { .. } => 20,
        Instruction::Zero { .. } => 21,
        Instruction::StorePart { .. } => 22,
        Instruction::StoreText { .. } => 23,
        Instruction::Branch { .. } => 24,
        Instruction::Case { .. } => 25,
        Instruction::Turn { .. } => 26,
        Instruction::Library { .. } => 27,
        Instruction::Print { .. } => 28,
        Instruction::Call { .. } => 29,
        Instruction::CallThrough { .. } => 30,
        Instruction::EnterBlock { .. } => 31,
        Instruction::LeaveBlock { .. } => 32,
        Instruction::Return { .. } => 33,
        Instruction::Skip { .. } => 34,
    }
}

/// What kind of instruction ended a run.
#[derive(Clone, Copy)]
pub enum Finder {
    /// An access of an object.
    Access,
    /// A check that `check_insert` put in.
    Check,
    /// A routine of the library.
    Routine,
    /// Another instruction, or none: the call of `main`.
    Other,
}

/// What kind of instruction this one is to a run that ends at it.
pub(crate) fn finder_of(instruction: &Instruction) -> Finder {
    match instruction {
        Instruction::Read { .. } | Instruction::Write { .. } | Instruction::Update { .. } => {
            Finder::Access
        }
        Instruction::Judge { .. } => Finder::Check,
        Instruction::Library { .. } | Instruction::Print { .. } => Finder::Routine,
        _ => Finder::Other,
    }
}

// The checks that an access will get.
fn checks_of(mode: Mode) -> u64
    ensures { result ≤ 2 }
{
    match mode {
        Mode::Named | Mode::Judged => 0,
        Mode::Unchecked => 2,
    }
}

// What a value that is read costs beside its access.
fn entries_of(kind: Kind) -> u64
    ensures { result ≤ 2 }
{
    match kind {
        Kind::Scalar(Scalar::Pointer) => 2,
        Kind::Void | Kind::Scalar(_) | Kind::Structure(_) | Kind::Array(_) => 0,
    }
}

// And one that is written.
fn stores_of(kind: Kind) -> u64
    ensures { result ≤ 5 }
{
    match kind {
        Kind::Scalar(Scalar::Pointer) => 3,
        Kind::Structure(_) => 5,
        Kind::Void | Kind::Scalar(_) | Kind::Array(_) => 0,
    }
}

// The same of a part of an object.
fn parts_of(kind: Kind) -> u64
    ensures { result ≤ 5 }
{
    match kind {
        Kind::Scalar(Scalar::Pointer) => 2,
        Kind::Structure(_) => 5,
        Kind::Void | Kind::Scalar(_) | Kind::Array(_) => 0,
    }
}

// The same of an update.
fn updates_of(scalar: Scalar) -> u64
    ensures { result ≤ 6 }
{
    match scalar {
        Scalar::Pointer => 6,
        Scalar::Integer(_) => 1,
    }
}

/// The units of work that the first call costs.
pub(crate) const FIRST_CALL: u64 = 4;

// The cost of what calls and enters.
fn cost_of_call(instruction: &Instruction) -> u64 {
    match *instruction {
        Instruction::Library { .. } => 12,
        Instruction::Print { count, .. } => (count as u64).saturating_mul(3).saturating_add(2),
        Instruction::Call { .. } => 6,
        Instruction::CallThrough { .. } => 8,
        Instruction::Return { .. } => 3,
        Instruction::EnterBlock { .. } => 7,
        Instruction::LeaveBlock { .. } => 2,
        _ => 1,
    }
}

/// The units of work that an instruction costs, beside those of the bytes that it moves.
pub(crate) fn cost(instruction: &Instruction) -> u64 {
    match *instruction {
        Instruction::UpdatePlain { .. }
        | Instruction::Offset { .. }
        | Instruction::Narrow { .. }
        | Instruction::Member { .. } => 2,
        Instruction::Read { kind, mode, .. } => 1 + entries_of(kind) + checks_of(mode),
        Instruction::Write { kind, mode, .. } => 1 + stores_of(kind) + checks_of(mode),
        Instruction::Update { scalar, mode, .. } => 1 + updates_of(scalar) + checks_of(mode),
        Instruction::StorePart { kind, .. } => 1 + parts_of(kind),
        Instruction::Take { .. } => 5,
        Instruction::Zero { .. } => 3,
        _ => cost_of_call(instruction),
    }
}
