//! Emission of machine code: the instructions that stand for each instruction of flat code under a plan are put behind
//! a list, exactly those of `block` in `machine_laws`.

pub mod block;
mod calls;
mod constants;
pub mod endings;
mod immediates;
mod local;
pub mod table;
mod values;

pub use crate::emission::block::{
    PlacedInstruction, PlannedFunction, left_register, put_block, put_entry, right_register,
};
pub use crate::emission::endings::put_tails;
pub use crate::emission::table::{START_BYTES, put_row, put_start, start_address};
