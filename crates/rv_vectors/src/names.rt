// The names of operations in assembly language, by the RISC-V unprivileged ISA manual.

use rv_isa::{BranchOp, ImmOp, LoadOp, RegOp, RegOp32, ShiftOp, ShiftOp32, StoreOp};

pub fn branch(op: BranchOp) -> &'static str {
    match op {
        BranchOp::Beq => "beq",
        BranchOp::Bne => "bne",
        BranchOp::Blt => "blt",
        BranchOp::Bge => "bge",
        BranchOp::Bltu => "bltu",
        BranchOp::Bgeu => "bgeu",
    }
}

pub fn load(op: LoadOp) -> &'static str {
    match op {
        LoadOp::Lb => "lb",
        LoadOp::Lh => "lh",
        LoadOp::Lw => "lw",
        LoadOp::Ld => "ld",
        LoadOp::Lbu => "lbu",
        LoadOp::Lhu => "lhu",
        LoadOp::Lwu => "lwu",
    }
}

pub fn store(op: StoreOp) -> &'static str {
    match op {
        StoreOp::Sb => "sb",
        StoreOp::Sh => "sh",
        StoreOp::Sw => "sw",
        StoreOp::Sd => "sd",
    }
}

pub fn immediate(op: ImmOp) -> &'static str {
    match op {
        ImmOp::Addi => "addi",
        ImmOp::Slti => "slti",
        ImmOp::Sltiu => "sltiu",
        ImmOp::Xori => "xori",
        ImmOp::Ori => "ori",
        ImmOp::Andi => "andi",
    }
}

pub fn shift(op: ShiftOp) -> &'static str {
    match op {
        ShiftOp::Slli => "slli",
        ShiftOp::Srli => "srli",
        ShiftOp::Srai => "srai",
    }
}

pub fn shift32(op: ShiftOp32) -> &'static str {
    match op {
        ShiftOp32::Slliw => "slliw",
        ShiftOp32::Srliw => "srliw",
        ShiftOp32::Sraiw => "sraiw",
    }
}

pub fn register(op: RegOp) -> &'static str {
    match op {
        RegOp::Add => "add",
        RegOp::Sub => "sub",
        RegOp::Sll => "sll",
        RegOp::Slt => "slt",
        RegOp::Sltu => "sltu",
        RegOp::Xor => "xor",
        RegOp::Srl => "srl",
        RegOp::Sra => "sra",
        RegOp::Or => "or",
        RegOp::And => "and",
        RegOp::Mul => "mul",
        RegOp::Mulh => "mulh",
        RegOp::Mulhsu => "mulhsu",
        RegOp::Mulhu => "mulhu",
        RegOp::Div => "div",
        RegOp::Divu => "divu",
        RegOp::Rem => "rem",
        RegOp::Remu => "remu",
    }
}

pub fn register32(op: RegOp32) -> &'static str {
    match op {
        RegOp32::Addw => "addw",
        RegOp32::Subw => "subw",
        RegOp32::Sllw => "sllw",
        RegOp32::Srlw => "srlw",
        RegOp32::Sraw => "sraw",
        RegOp32::Mulw => "mulw",
        RegOp32::Divw => "divw",
        RegOp32::Divuw => "divuw",
        RegOp32::Remw => "remw",
        RegOp32::Remuw => "remuw",
    }
}
