//! The operators of flat code (RISC-V unprivileged ISA manual), as far as routines use them.

use rv_isa::{BranchOp, LoadOp, RegOp, RegOp32, StoreOp};

/// What an operator of 64 bits gives.
pub fn operated(op: RegOp, left: u64, right: u64) -> Option<u64> {
    match op {
        RegOp::Add => Some(left.wrapping_add(right)),
        RegOp::Sub => Some(left.wrapping_sub(right)),
        RegOp::Sll => Some(left.wrapping_shl((right % 64) as u32)),
        RegOp::Srl => Some(left.wrapping_shr((right % 64) as u32)),
        RegOp::Sltu => Some((left < right) as u64),
        RegOp::Mul => Some(left.wrapping_mul(right)),
        RegOp::Mulhu => Some(upper_half(left, right)),
        RegOp::Div => Some(quotient(left, right)),
        RegOp::Divu => Some(left.checked_div(right).unwrap_or(u64::MAX)),
        RegOp::Remu => Some(left.checked_rem(right).unwrap_or(left)),
        _ => None,
    }
}

// The quotient of numbers with a sign, without its fraction; all bits where the divisor is 0 (the division extension).
fn quotient(left: u64, right: u64) -> u64 {
    let sign = 1 << 63;
    let (above, below) = (magnitude(left), magnitude(right));
    let Some(number) = above.checked_div(below) else {
        return u64::MAX;
    };
    if (left ^ right) >= sign {
        0u64.wrapping_sub(number)
    } else {
        number
    }
}

// How far a number with a sign is from 0.
fn magnitude(number: u64) -> u64 {
    if number >= 1 << 63 {
        0u64.wrapping_sub(number)
    } else {
        number
    }
}

// The upper half of a product, by the products of the halves of its factors.
fn upper_half(left: u64, right: u64) -> u64 {
    let (high, low) = (left >> 32, left & 0xffff_ffff);
    let (upper, lower) = (right >> 32, right & 0xffff_ffff);
    let carried = low.wrapping_mul(lower) >> 32;
    let middle = high.wrapping_mul(lower).wrapping_add(carried);
    let other = low.wrapping_mul(upper).wrapping_add(middle & 0xffff_ffff);
    high.wrapping_mul(upper)
        .wrapping_add(middle >> 32)
        .wrapping_add(other >> 32)
}

// The low bits from a sign bit on, extended with it.
fn extended(number: u64, sign: u64) -> u64 {
    let low = number & sign.wrapping_mul(2).wrapping_sub(1);
    (low ^ sign).wrapping_sub(sign)
}

/// What an operator of 32 bits gives.
pub fn operated32(op: RegOp32, left: u64, right: u64) -> Option<u64> {
    match op {
        RegOp32::Addw => Some(extended(left.wrapping_add(right), 0x8000_0000)),
        _ => None,
    }
}

/// Whether a branch is taken.
pub fn branched(op: BranchOp, left: u64, right: u64) -> Option<bool> {
    match op {
        BranchOp::Beq => Some(left == right),
        BranchOp::Bne => Some(left != right),
        BranchOp::Bge => Some((left ^ (1 << 63)) >= (right ^ (1 << 63))),
        BranchOp::Bltu => Some(left < right),
        BranchOp::Bgeu => Some(left >= right),
        _ => None,
    }
}

/// The bytes of a load.
pub fn load_size(op: LoadOp) -> usize {
    match op {
        LoadOp::Lb | LoadOp::Lbu => 1,
        LoadOp::Lh | LoadOp::Lhu => 2,
        LoadOp::Lw | LoadOp::Lwu => 4,
        LoadOp::Ld => 8,
    }
}

/// What a load makes of the number in its bytes.
pub fn loaded(op: LoadOp, number: u64) -> u64 {
    match op {
        LoadOp::Lb => extended(number, 0x80),
        LoadOp::Lh => extended(number, 0x8000),
        LoadOp::Lw => extended(number, 0x8000_0000),
        _ => number,
    }
}

/// The bytes of a store.
pub fn store_size(op: StoreOp) -> usize {
    match op {
        StoreOp::Sb => 1,
        StoreOp::Sh => 2,
        StoreOp::Sw => 4,
        StoreOp::Sd => 8,
    }
}
