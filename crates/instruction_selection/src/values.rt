//! Conversions, and plain variables (C99 6.3.1.3, 6.5.16).

ghost use Rattle.std.specs.Prelude.{◌≡◌, ℕ, ◌+◌, ◌≤◌, ◌^◌, ◌++◌, OnOk};
ghost use Rattle.shadow_space.specs.Form.{EntryCode};
ghost use Rattle.addr_map.specs.Places.{MapSizes};
ghost use Rattle.metadata_relation.specs.InlineLists.{inline_lists};
ghost use Rattle.metadata_relation.specs.Blocks.{conversion, get_code, set_code};

use crate::entries::{put_untagged, put_value};
use crate::list::put;
use c_tree::Kind;
use flat_code::FlatInstruction;
use flat_operators::conversion::put_conversion;
use obj_memory::Scalar;
use std::alloc::AllocError;

/// Puts a conversion to a kind behind a list: a pointer keeps its entry, and what is no pointer has none. It fails only
/// for want of memory.
pub fn put_converted(
    code: &mut Vec<FlatInstruction>,
    kind: Kind,
    with_entry: bool,
    into: u32,
    from: u32,
) -> Result<(), AllocError>
    requires into { into ≤ 2 ^ 31 }
    requires from { from ≤ 2 ^ 31 }
    ensures { OnOk result ((read write : EntryCode) (map : MapSizes) (scratch : ℕ) → code.new.items ≡ code.old.items
        ++ conversion (inline_lists read write map) kind with_entry into from scratch) }
{
    match kind {
        Kind::Void => {
            put(code, FlatInstruction::Constant { into, value: 0 })?;
            put_untagged(code, with_entry, into)
        }
        Kind::Scalar(Scalar::Integer(int_type)) => {
            put_conversion(code, int_type, into, from)?;
            put_untagged(code, with_entry, into)
        }
        Kind::Scalar(Scalar::Pointer) | Kind::Structure(_) | Kind::Array(_) => {
            put_value(code, with_entry, into, from)
        }
    }
}

/// Puts what gives the value of a plain variable of a type behind a list. It fails only for want of memory.
pub fn put_get(
    code: &mut Vec<FlatInstruction>,
    scalar: Option<Scalar>,
    with_entry: bool,
    into: u32,
    variable: u32,
) -> Result<(), AllocError>
    requires into { into ≤ 2 ^ 31 }
    requires variable { variable ≤ 2 ^ 31 }
    ensures { OnOk result (code.new.items ≡ code.old.items ++ get_code scalar with_entry into variable) }
{
    match scalar {
        Some(Scalar::Pointer) => put_value(code, with_entry, into, variable),
        Some(Scalar::Integer(_)) | None => {
            put(
                code,
                FlatInstruction::Move {
                    into,
                    from: variable,
                },
            )?;
            put_untagged(code, with_entry, into)
        }
    }
}

/// Puts what gives a plain variable of a type a value behind a list. It fails only for want of memory.
pub fn put_set(
    code: &mut Vec<FlatInstruction>,
    scalar: Option<Scalar>,
    variable: u32,
    from: u32,
) -> Result<(), AllocError>
    requires variable { variable ≤ 2 ^ 31 }
    requires from { from ≤ 2 ^ 31 }
    ensures { OnOk result (code.new.items ≡ code.old.items ++ set_code scalar variable from) }
{
    match scalar {
        Some(Scalar::Pointer) => put_value(code, true, variable, from),
        Some(Scalar::Integer(_)) | None => put(
            code,
            FlatInstruction::Move {
                into: variable,
                from,
            },
        ),
    }
}
