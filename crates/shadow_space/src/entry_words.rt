//! The four words of an entry in memory, loaded and stored.

ghost use Rattle.std.specs.Prelude.{◌≡◌, IfOk};
ghost use Rattle.shadow_space.specs.Direct.{load_entry as load_entry_code, store_entry as store_entry_code};
ghost use Rattle.shadow_space.specs.Direct.{same_register as same_register_entry};

use flat_code::{Entry, FlatInstruction};
use rv_isa::{LoadOp, StoreOp};
use std::alloc::{AllocError, Global};

// From the address in a register on.
pub(crate) fn load_entry(
    alloc: Global,
    at: u32,
    into: Entry,
) -> Result<Vec<FlatInstruction>, AllocError>
    ensures { IfOk result (λ r. r.items ≡ load_entry_code at into) }
{
    let code = [
        FlatInstruction::Load {
            op: LoadOp::Ld,
            into: into.base,
            at: at,
            offset: 0,
        },
        FlatInstruction::Load {
            op: LoadOp::Ld,
            into: into.bound,
            at: at,
            offset: 8,
        },
        FlatInstruction::Load {
            op: LoadOp::Ld,
            into: into.key,
            at: at,
            offset: 16,
        },
        FlatInstruction::Load {
            op: LoadOp::Ld,
            into: into.lock,
            at: at,
            offset: 24,
        },
    ];
    Vec::from_slice(alloc, &code)
}

pub(crate) fn store_entry(
    alloc: Global,
    at: u32,
    from: Entry,
) -> Result<Vec<FlatInstruction>, AllocError>
    ensures { IfOk result (λ r. r.items ≡ store_entry_code at from) }
{
    let code = [
        FlatInstruction::Store {
            op: StoreOp::Sd,
            at: at,
            offset: 0,
            from: from.base,
        },
        FlatInstruction::Store {
            op: StoreOp::Sd,
            at: at,
            offset: 8,
            from: from.bound,
        },
        FlatInstruction::Store {
            op: StoreOp::Sd,
            at: at,
            offset: 16,
            from: from.key,
        },
        FlatInstruction::Store {
            op: StoreOp::Sd,
            at: at,
            offset: 24,
            from: from.lock,
        },
    ];
    Vec::from_slice(alloc, &code)
}

// An entry whose words are all in one register.
pub(crate) fn same_register(register: u32) -> Entry
    ensures { result ≡ same_register_entry register }
{
    Entry {
        base: register,
        bound: register,
        key: register,
        lock: register,
    }
}
