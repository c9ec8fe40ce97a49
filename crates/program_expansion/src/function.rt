//! The expansion of a function.

ghost use Rattle.std.specs.Prelude.{IfErr, IfOk};
ghost use Rattle.instruction_selection.specs.Areas.{HasTable};
ghost use Rattle.instruction_selection.specs.Registers.{AreRegisters};
ghost use Rattle.program_expansion.specs.Expansions.{IsBodyOf, IsFunctionOf, types_by};
ghost use Rattle.program_expansion.specs.Limits.{IsWithinLimits};
ghost use Rattle.program_expansion.specs.Tables.{AreTables, FunctionRefusal};

use crate::error::ExpandError;
use crate::homes::homes;
use crate::source::FunctionBlocks;
use crate::tables::Tables;
use flat_code::{FlatFunction, FlatInstruction};
use instruction_selection::areas::structure_areas;
use instruction_selection::calls::{result_of, result_words};
use instruction_selection::registers::argument_words;
use instruction_selection::{FunctionContext, Registers};
use metadata_expansion::body::put_body;
use metadata_expansion::entry_table;
use metadata_expansion::layout::is_short;
use shadow_space::ShadowForm;
use std::marker::PhantomData;
use tac_ir::CodeFunction;
use tree_containers::Items;

// The table of the areas of a function, which has room for them.
fn areas_of<S: ShadowForm>(
    tables: &Tables,
    function: &CodeFunction,
) -> Result<Vec<u64>, ExpandError>
    requires { IsWithinLimits tables.now.program.now function.now }
    ensures ok { IfOk result (λ table. HasTable table.items tables.now.program.now function.now) }
    ensures err { IfErr result (FunctionRefusal S.entry_read S.entry_write tables.now function.now) }
{
    match structure_areas(tables.alloc, tables.program, function)? {
        Some(table) => Ok(table),
        None => Err(ExpandError::OutsideLimits),
    }
}

// The body of a function.
fn body_of<S: ShadowForm>(
    tables: &Tables,
    function: &CodeFunction,
    registers: &Registers,
    areas: &[u64],
) -> Result<Vec<FlatInstruction>, ExpandError>
    requires tables { AreTables tables.now }
    requires limits { IsWithinLimits tables.now.program.now function.now }
    requires registers { AreRegisters registers.now function.now }
    requires areas { HasTable areas.now tables.now.program.now function.now }
    ensures ok { IfOk result (λ body. IsBodyOf S.entry_read S.entry_write tables.now.map.now tables.now.program.now
        (types_by tables.now.types.now) function.now body.items) }
    ensures err { IfErr result (FunctionRefusal S.entry_read S.entry_write tables.now function.now) }
{
    let Tables {
        alloc,
        map,
        program,
        statics,
        types,
    } = *tables;
    let entries = entry_table(alloc, program, function)?;
    let context = FunctionContext {
        alloc,
        map,
        program,
        function,
        registers,
        statics,
        types,
        areas,
    };
    let blocks: FunctionBlocks<S> = FunctionBlocks {
        context,
        entries: &entries,
        form: PhantomData,
    };
    if !is_short(alloc, &blocks, function)? {
        return Err(ExpandError::TooManyInstructions);
    }
    let mut body = Vec::new(alloc);
    put_body(&mut body, alloc, &blocks, function)?;
    Ok(body)
}

/// The expansion of a function of a program.
pub fn expand_function<S: ShadowForm>(
    tables: &Tables,
    function: &CodeFunction,
) -> Result<FlatFunction, ExpandError>
    requires tables { AreTables tables.now }
    requires limits { IsWithinLimits tables.now.program.now function.now }
    ensures ok { IfOk result (IsFunctionOf S.entry_read S.entry_write tables.now.map.now tables.now.program.now
        (types_by tables.now.types.now) function.now) }
    ensures err { IfErr result (FunctionRefusal S.entry_read S.entry_write tables.now function.now) }
{
    let program = tables.program;
    let registers = Registers::new(tables.alloc, function)?;
    let areas = areas_of::<S>(tables, function)?;
    let body = body_of::<S>(tables, function, &registers, areas.as_slice())?;
    let homes = homes(tables.alloc, function, &registers)?;
    Ok(FlatFunction {
        parameters: argument_words(function.parameters.as_slice()),
        results: result_words(result_of(program, function)),
        room: function.room,
        is_runtime: false,
        homes: Items::from_vec(homes),
        body: Items::from_vec(body),
    })
}
