//! The expansion of a program.

ghost use Rattle.std.specs.Prelude.{◌<◌, ◌^◌, IfErr, IfOk, length};
ghost use Rattle.program_expansion.specs.Expansions.{AreAllFunctionsOf, AreFunctionsOf, IsExpansionOf, Refuses};
ghost use Rattle.program_expansion.specs.Expansions.{types_by};
ghost use Rattle.program_expansion.specs.Tables.{AreTables};

use crate::entry::entry_function;
use crate::error::ExpandError;
use crate::function::expand_function;
use crate::limits::{are_within_limits, function_at};
use crate::list::{joined, push};
use crate::tables::Tables;
use addr_map::AddrMap;
use flat_code::{FlatFunction, FlatProgram};
use instruction_selection::statics::static_places;
use instruction_selection::type_keys::type_keys;
use shadow_space::ShadowForm;
use std::alloc::Global;
use tac_ir::Tac;
use tree_containers::Items;

// The expansions of all functions of a program.
fn functions_of<S: ShadowForm>(tables: &Tables) -> Result<Vec<FlatFunction>, ExpandError>
    requires { AreTables tables.now }
    ensures ok { IfOk result (λ list. AreFunctionsOf S.entry_read S.entry_write tables.now.map.now
        tables.now.program.now (types_by tables.now.types.now) (length tables.now.program.now.functions) list.items) }
    ensures err { IfErr result (Refuses S.entry_read S.entry_write tables.now.map.now tables.now.program.now) }
{
    let program = tables.program;
    let mut list = Vec::new(tables.alloc);
    for number in 0..program.functions.as_slice().len() {
        let function = expand_function::<S>(tables, function_at(program, number))?;
        push(&mut list, function)?;
    }
    Ok(list)
}

// The expansions of all functions of a program, if it has one.
fn expanded<S: ShadowForm>(
    alloc: Global,
    map: &AddrMap,
    code: &Tac,
) -> Result<Vec<FlatFunction>, ExpandError>
    ensures ok { IfOk result (λ list. AreAllFunctionsOf S.entry_read S.entry_write map.now code.now list.items) }
    ensures err { IfErr result (Refuses S.entry_read S.entry_write map.now code.now) }
{
    if !are_within_limits(alloc, code)? {
        return Err(ExpandError::OutsideLimits);
    }
    let statics = static_places(alloc, map, code)?;
    let types = type_keys(alloc, code.functions.as_slice())?;
    let tables = Tables {
        alloc,
        map,
        program: code,
        statics: statics.as_slice(),
        types: types.as_slice(),
    };
    functions_of::<S>(&tables)
}

/// The expansion of a program in checked three-address code under a form of the shadow space: its functions with their
/// numbers, those of the runtime behind them, and last the one with which a run begins; or why there is none.
pub fn expand<S: ShadowForm>(
    alloc: Global,
    map: &AddrMap,
    code: &Tac,
    runtime: Vec<FlatFunction>,
) -> Result<FlatProgram, ExpandError>
    requires { length runtime.items < 2 ^ 31 }
    ensures ok { IfOk result (IsExpansionOf S.entry_read S.entry_write map.now code.now runtime.items) }
    ensures err { IfErr result (Refuses S.entry_read S.entry_write map.now code.now) }
{
    let functions = expanded::<S>(alloc, map, code)?;
    let entry = entry_function(alloc, map, code)?;
    let number = code.functions.as_slice().len() + runtime.len();
    let all = joined(functions, runtime, entry)?;
    Ok(FlatProgram {
        functions: Items::from_vec(all),
        entry: number as u32,
    })
}
