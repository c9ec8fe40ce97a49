//! The operators by their names: with a register on the right, and with a number.

use rv_isa::{BranchOp, LoadOp, RegOp, RegOp32, StoreOp};

/// An operator's name before two registers, that before a register and a number, and the operator.
pub type Operator<T> = (&'static str, &'static str, T);

/// The operator with a name, and whether its right operand is a register.
pub fn find<T: Copy>(table: &[Operator<T>], name: &str) -> Option<(T, bool)> {
    for (with_register, with_number, op) in table {
        if *with_register == name {
            return Some((*op, true));
        }
        if *with_number == name {
            return Some((*op, false));
        }
    }
    None
}

/// Operators of 64 bits.
pub const OPERATORS: [Operator<RegOp>; 18] = [
    ("add", "addi", RegOp::Add),
    ("sub", "subi", RegOp::Sub),
    ("sll", "slli", RegOp::Sll),
    ("slt", "slti", RegOp::Slt),
    ("sltu", "sltui", RegOp::Sltu),
    ("xor", "xori", RegOp::Xor),
    ("srl", "srli", RegOp::Srl),
    ("sra", "srai", RegOp::Sra),
    ("or", "ori", RegOp::Or),
    ("and", "andi", RegOp::And),
    ("mul", "muli", RegOp::Mul),
    ("mulh", "mulhi", RegOp::Mulh),
    ("mulhsu", "mulhsui", RegOp::Mulhsu),
    ("mulhu", "mulhui", RegOp::Mulhu),
    ("div", "divi", RegOp::Div),
    ("divu", "divui", RegOp::Divu),
    ("rem", "remi", RegOp::Rem),
    ("remu", "remui", RegOp::Remu),
];

/// Operators of 32 bits.
pub const OPERATORS_32: [Operator<RegOp32>; 10] = [
    ("addw", "addwi", RegOp32::Addw),
    ("subw", "subwi", RegOp32::Subw),
    ("sllw", "sllwi", RegOp32::Sllw),
    ("srlw", "srlwi", RegOp32::Srlw),
    ("sraw", "srawi", RegOp32::Sraw),
    ("mulw", "mulwi", RegOp32::Mulw),
    ("divw", "divwi", RegOp32::Divw),
    ("divuw", "divuwi", RegOp32::Divuw),
    ("remw", "remwi", RegOp32::Remw),
    ("remuw", "remuwi", RegOp32::Remuw),
];

/// Conditions.
pub const CONDITIONS: [Operator<BranchOp>; 6] = [
    ("beq", "beqi", BranchOp::Beq),
    ("bne", "bnei", BranchOp::Bne),
    ("blt", "blti", BranchOp::Blt),
    ("bge", "bgei", BranchOp::Bge),
    ("bltu", "bltui", BranchOp::Bltu),
    ("bgeu", "bgeui", BranchOp::Bgeu),
];

/// Loads.
pub const LOADS: [Operator<LoadOp>; 7] = [
    ("lb", "", LoadOp::Lb),
    ("lh", "", LoadOp::Lh),
    ("lw", "", LoadOp::Lw),
    ("ld", "", LoadOp::Ld),
    ("lbu", "", LoadOp::Lbu),
    ("lhu", "", LoadOp::Lhu),
    ("lwu", "", LoadOp::Lwu),
];

/// Stores.
pub const STORES: [Operator<StoreOp>; 4] = [
    ("sb", "", StoreOp::Sb),
    ("sh", "", StoreOp::Sh),
    ("sw", "", StoreOp::Sw),
    ("sd", "", StoreOp::Sd),
];
