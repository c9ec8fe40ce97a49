//! The generator.

ghost use Rattle.std.specs.Prelude as prelude;
ghost use Rattle.std.specs.Prelude.{◌≡◌, ◌+◌, ◌*◌, ◌<◌, ◌≤◌, ◌^◌, ◌++◌, length, map};
ghost use Rattle.std.specs.Prelude.{MatchResult, OnOk, IfOk};
ghost use Rattle.flat_code.specs.Calls.{function_in};
ghost use Rattle.flat_code.specs.Meaning.{body_of};
ghost use Rattle.rv_isa.specs.Table.{word_of};
ghost use Rattle.rv_asm.specs.Forms.{IsAssemblable};
ghost use Rattle.machine_laws.specs.Calls.Calls.{row};
ghost use Rattle.machine_laws.specs.Calls.Table.{source_count, runtime_begin};
ghost use Rattle.machine_laws.specs.Layout.Lists.{items_of};
ghost use Rattle.machine_laws.specs.Segments.Segments.{function_words, words_if, words_below, start_with_tails};
ghost use Rattle.rv_codegen.specs.Generated.{IsReady, HasLongFunction, AreBelow, IsGenerated, IsCause};

use crate::code::{Code, GenerateError};
use crate::emission::{START_BYTES, put_row, put_start, put_tails, start_address};
use crate::listing::function_items;
use addr_map::AddrMap;
use flat_code::{FlatFunction, FlatProgram};
use machine_laws::laws::segments::lists_can_be_assembled;
use reg_plan::FunctionPlan;
use rv_asm::laws::long_lists_have_many_words;
use rv_asm::{assemble, is_assemblable, word_count};
use rv_isa::{Instr, encode};
use std::alloc::{AllocError, Global};

// How many words a function has, if it is one of those that are asked for.
fn word_count_if(
    alloc: Global,
    map: &AddrMap,
    program: &FlatProgram,
    plans: &[FunctionPlan],
    sources: u32,
    runtime: bool,
    number: u32,
) -> Result<u128, AllocError>
    requires sources { sources ≡ source_count program.now }
    requires ready { IsReady program.now plans.now }
    requires function { number < length program.now.functions }
    ensures value { IfOk result (λ count. count ≡ length (words_if map.now program.now plans.now runtime number)) }
    ensures small { IfOk result (λ count. count < 2 ^ 66) }
{
    let functions = program.functions.as_slice();
    if is_of_runtime(&functions[number as usize]) != runtime {
        return Ok(0);
    }
    let list = function_items(alloc, map, program, plans, sources, number)?;
    lists_can_be_assembled();
    word_count(alloc, list.as_slice())
}

// How many words all of these functions have.
#[tactic(auto, using(crate::proofs::Counted::counts))]
fn word_count_of(
    alloc: Global,
    map: &AddrMap,
    program: &FlatProgram,
    plans: &[FunctionPlan],
    sources: u32,
    runtime: bool,
) -> Result<u128, AllocError>
    requires sources { sources ≡ source_count program.now }
    requires ready { IsReady program.now plans.now }
    ensures value { IfOk result (λ count.
        count ≡ length (words_below map.now program.now plans.now runtime (length program.now.functions))) }
    ensures small { IfOk result (λ count. count < 2 ^ 99) }
{
    let mut count = 0u128;
    for number in 0..program.functions.as_slice().len() as u32 {
        count += word_count_if(alloc, map, program, plans, sources, runtime, number)?;
    }
    Ok(count)
}

// Why nothing is generated where a function cannot be assembled: it alone has more words than its segment has room for.
fn refusal(
    alloc: Global,
    map: &AddrMap,
    program: &FlatProgram,
    plans: &[FunctionPlan],
    sources: u32,
) -> Result<GenerateError, AllocError>
    requires sources { sources ≡ source_count program.now }
    requires ready { IsReady program.now plans.now }
    requires long { HasLongFunction map.now program.now plans.now }
    ensures { IfOk result (IsCause map.now program.now plans.now) }
{
    long_lists_have_many_words();
    let code_bytes = 4 * word_count_of(alloc, map, program, plans, sources, false)?;
    if code_bytes > 0x80_0000 {
        return Ok(GenerateError::TooLarge(code_bytes));
    }
    let runtime = word_count_of(alloc, map, program, plans, sources, true)?;
    let count = program.functions.as_slice().len() as u128;
    let table_bytes = 16 * count + u128::from(START_BYTES) + 4 * runtime;
    Ok(GenerateError::RuntimeTooLarge(table_bytes))
}

// The words of a function.
fn function_words(
    alloc: Global,
    map: &AddrMap,
    program: &FlatProgram,
    plans: &[FunctionPlan],
    sources: u32,
    number: u32,
) -> Result<Vec<u32>, GenerateError>
    requires sources { sources ≡ source_count program.now }
    requires ready { IsReady program.now plans.now }
    requires function { number < length program.now.functions }
    ensures { MatchResult result
        (λ words. (words.items ≡ function_words map.now program.now plans.now number)
        × IsAssemblable (items_of map.now program.now plans.now number))
        (IsCause map.now program.now plans.now) }
{
    let list = function_items(alloc, map, program, plans, sources, number)?;
    let items = list.as_slice();
    let able = is_assemblable(alloc, items)?;
    lists_can_be_assembled();
    if able {
        return Ok(assemble(alloc, items)?);
    }
    Err(refusal(alloc, map, program, plans, sources)?)
}

// What is generated so far.
#[derive(Drop)]
struct Segments {
    rows: Vec<Instr>,
    runtime: Vec<u32>,
    compiled: Vec<u32>,
}

// Puts a function of the runtime.
#[tactic(auto, using(machine_laws::proofs::Calls::Table::tails_length))]
fn put_runtime(
    segments: &mut Segments,
    program: &FlatProgram,
    words: &[u32],
) -> Result<(), AllocError>
    ensures rows { OnOk result
        (segments.new.rows.items ≡ segments.old.rows.items
        ++ row (runtime_begin program.now + 4 * length segments.old.runtime.items)) }
    ensures runtime { OnOk result (segments.new.runtime.items ≡ segments.old.runtime.items ++ words.now) }
    ensures compiled { segments.new.compiled.items ≡ segments.old.compiled.items }
{
    let count = program.functions.as_slice().len() as u128;
    let begin = 0x1_0000
        + 16 * count
        + u128::from(START_BYTES)
        + 4 * segments.runtime.len() as u128;
    put_row(&mut segments.rows, begin)?;
    segments.runtime.extend_from_slice(words)?;
    Ok(())
}

// Puts a function of the program.
fn put_compiled(segments: &mut Segments, words: &[u32]) -> Result<(), AllocError>
    ensures rows { OnOk result
        (segments.new.rows.items ≡ segments.old.rows.items
        ++ row (0x100000 + 4 * length segments.old.compiled.items)) }
    ensures compiled { OnOk result (segments.new.compiled.items ≡ segments.old.compiled.items ++ words.now) }
    ensures runtime { segments.new.runtime.items ≡ segments.old.runtime.items }
{
    put_row(
        &mut segments.rows,
        0x10_0000 + 4 * segments.compiled.len() as u128,
    )?;
    segments.compiled.extend_from_slice(words)?;
    Ok(())
}

// Whether a function is one of the runtime.
fn is_of_runtime(function: &FlatFunction) -> bool
    ensures { result ≡ function.now.is_runtime }
{
    function.is_runtime
}

// Puts a function.
fn put_function(
    segments: &mut Segments,
    alloc: Global,
    map: &AddrMap,
    program: &FlatProgram,
    plans: &[FunctionPlan],
    sources: u32,
    number: u32,
) -> Result<(), GenerateError>
    requires sources { sources ≡ source_count program.now }
    requires ready { IsReady program.now plans.now }
    requires function { number < length program.now.functions }
    requires below { AreBelow map.now program.now plans.now number segments.old.rows.items
        segments.old.runtime.items segments.old.compiled.items }
    ensures { MatchResult result
        (λ _. AreBelow map.now program.now plans.now (number + 1) segments.new.rows.items
        segments.new.runtime.items segments.new.compiled.items)
        (IsCause map.now program.now plans.now) }
{
    let code = function_words(alloc, map, program, plans, sources, number)?;
    let words = code.as_slice();
    let functions = program.functions.as_slice();
    let runtime = is_of_runtime(&functions[number as usize]);
    if runtime {
        put_runtime(segments, program, words)?;
        return Ok(());
    }
    put_compiled(segments, words)?;
    Ok(())
}

// All functions.
fn segments_of(
    alloc: Global,
    map: &AddrMap,
    program: &FlatProgram,
    plans: &[FunctionPlan],
    sources: u32,
) -> Result<Segments, GenerateError>
    requires sources { sources ≡ source_count program.now }
    requires ready { IsReady program.now plans.now }
    ensures { MatchResult result
        (λ s. AreBelow map.now program.now plans.now (length program.now.functions) s.rows.items s.runtime.items
        s.compiled.items)
        (IsCause map.now program.now plans.now) }
{
    let mut segments = Segments {
        rows: Vec::new(alloc),
        runtime: Vec::new(alloc),
        compiled: Vec::new(alloc),
    };
    for number in 0..program.functions.as_slice().len() as u32 {
        put_function(&mut segments, alloc, map, program, plans, sources, number)?;
    }
    Ok(segments)
}

// The words of instructions.
fn put_words(words: &mut Vec<u32>, instrs: &[Instr]) -> Result<(), AllocError>
    ensures { OnOk result (words.new.items ≡ words.old.items ++ map word_of instrs.now) }
{
    for instr in instrs {
        words.push(encode(*instr))?;
    }
    Ok(())
}

// The start, and the tails of endings.
fn start_of(
    alloc: Global,
    map: &AddrMap,
    program: &FlatProgram,
    sources: u32,
) -> Result<Vec<Instr>, AllocError>
    requires { sources ≡ source_count program.now }
    ensures { IfOk result (λ code. code.items ≡ start_with_tails map.now program.now) }
{
    let mut code = Vec::new(alloc);
    put_start(&mut code, map, program, sources)?;
    put_tails(&mut code)?;
    Ok(code)
}

// The words of the jump table with the start behind the first entries, and of the functions of the runtime.
fn table_of(
    alloc: Global,
    first: &[Instr],
    start: &[Instr],
    last: &[Instr],
    runtime: &[u32],
) -> Result<Vec<u32>, AllocError>
    ensures { IfOk result
        (λ table. table.items ≡ prelude.map word_of (first.now ++ (start.now ++ last.now)) ++ runtime.now) }
{
    let mut table = Vec::new(alloc);
    put_words(&mut table, first)?;
    put_words(&mut table, start)?;
    put_words(&mut table, last)?;
    table.extend_from_slice(runtime)?;
    Ok(table)
}

// One past the last function of the program.
#[tactic(auto, unfolding(machine_laws::specs::Calls::Table::program_end))]
fn source_count(program: &FlatProgram) -> u32
    requires { length program.now.functions < 2 ^ 32 }
    ensures count { result ≡ source_count program.now }
    ensures within { result ≤ length program.now.functions }
{
    let mut count = 0;
    let functions = program.functions.as_slice();
    for number in 0..functions.len() as u32 {
        if !is_of_runtime(&functions[number as usize]) {
            count = number + 1;
        }
    }
    count
}

/// The code of a program under its plans, one for each function. `TooLarge` comes exactly where the functions of the
/// program take more than 8388608 bytes; `RuntimeTooLarge` where they take no more, and the jump table with the start
/// and the tails of endings, and the functions of the runtime, more than 983040; `Memory` where there is none.
pub fn generate(
    alloc: Global,
    map: &AddrMap,
    program: &FlatProgram,
    plans: &[FunctionPlan],
) -> Result<Code, GenerateError>
    requires { IsReady program.now plans.now }
    ensures { MatchResult result
        (λ c. IsGenerated map.now program.now plans.now c.start c.table.items c.compiled.items)
        (IsCause map.now program.now plans.now) }
{
    let sources = source_count(program);
    let Segments {
        rows,
        runtime,
        compiled,
    } = segments_of(alloc, map, program, plans, sources)?;
    let code_bytes = 4 * compiled.len() as u128;
    if code_bytes > 0x80_0000 {
        return Err(GenerateError::TooLarge(code_bytes));
    }
    let begin = start_of(alloc, map, program, sources)?;
    let (first, last) = rows.as_slice().split_at(4 * sources as usize);
    let table = table_of(alloc, first, &begin, last, &runtime)?;
    let table_bytes = 4 * table.len() as u128;
    if table_bytes > 0xf_0000 {
        return Err(GenerateError::RuntimeTooLarge(table_bytes));
    }
    Ok(Code {
        start: start_address(sources),
        table,
        compiled,
    })
}
