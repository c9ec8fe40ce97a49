//! Whole programs.

ghost use Rattle.std.specs.Prelude.{◌≡◌, ◌≤◌, true, IfOk, None, map, length, get_or};
ghost use Rattle.std.specs.List.{list_all};
ghost use Rattle.c_tree.specs.declared.expression.Kind.TheVariants.{Void};
ghost use Rattle.c_tree.specs.View.{function_of, function_type_of, program_of, static_of};
ghost use Rattle.c_tree.specs.ValidProgram.{is_valid_program};
ghost use Rattle.c_const.specs.Initializers.{first_not_constant};
ghost use Rattle.c_lower.specs.Programs.{IsLowered, literals_of};
ghost use Rattle.source_meaning.specs.Meaning.{statics_end};
ghost use Rattle.program_lowering.specs.ProgramCode.Whole.{is_ready, AreFunctions, Holding, results_of, Assembles};
ghost use Rattle.program_lowering.specs.ProgramCode.Weights.{IsWeighed, program_weight, instruction_count};
ghost use Rattle.program_lowering.specs.ExpressionCode.Weights.{each_one};
ghost use Rattle.program_lowering.specs.ProgramCode.Bodies.{HaveBodiesOf};
ghost use Rattle.program_lowering.specs.ProgramCode.Checks.{AwaitsChecks};
ghost use Rattle.program_lowering.specs.ProgramCode.Structures.{room_for_structures};
ghost use Rattle.tac_ir.specs.Bodies.{HaveClosedBodies, HaveNoneAdded, KeepVariables};
ghost use Rattle.tac_ir.specs.Structures.{AreasFit};

use crate::programs::function::lower_function;
use c_tree::{Function, FunctionType, Kind, Program, StaticObject};
use static_data::pointers::global_bytes;
use static_data::static_data;
use std::alloc::{AllocError, Global};
use tac_ir::{CodeFunction, StaticData, Tac};
use tree_containers::Items;

/// The functions of a program so far, its texts, and for each of its static objects whether it is a string literal.
#[derive(Drop)]
pub struct Lowering {
    pub functions: Vec<CodeFunction>,
    pub texts: Vec<Items<u8>>,
    pub literals: Vec<bool>,
}

// Of each static object whether it is a string literal.
fn literals(alloc: Global, statics: &[StaticObject]) -> Result<Vec<bool>, AllocError>
    ensures { IfOk result (λ ls. ls.items ≡ literals_of (map static_of statics.now)) }
{
    let mut literals = Vec::new(alloc);
    for object in statics {
        literals.push(object.is_literal)?;
    }
    Ok(literals)
}

// What the functions of each type give.
fn results(alloc: Global, types: &[FunctionType]) -> Result<Vec<Kind>, AllocError>
    ensures { IfOk result (λ ks. ks.items ≡ results_of (map function_type_of types.now)) }
{
    let mut results = Vec::new(alloc);
    for function_type in types {
        results.push(function_type.result)?;
    }
    Ok(results)
}

fn result_of(results: &[Kind], type_number: usize) -> Kind
    ensures { result ≡ get_or results.now type_number Void }
{
    match results.get(type_number) {
        Some(kind) => *kind,
        None => Kind::Void,
    }
}

// With one function more.
#[tactic(auto, using(crate::proofs::ProgramCode::Ready::is_ready_for))]
fn with_function(
    alloc: Global,
    done: Lowering,
    f: &Function,
    results: &[Kind],
) -> Result<Lowering, AllocError>
    requires { is_ready (function_of f.now) ≡ true }
    ensures { IfOk result (λ l. Holding done l results.now (function_of f.now)) }
{
    let Lowering {
        mut functions,
        texts,
        literals,
    } = done;
    let lowered = lower_function(alloc, f, result_of(results, f.type_number), texts, literals)?;
    functions.push(lowered.function)?;
    Ok(Lowering {
        functions,
        texts: lowered.texts,
        literals: lowered.literals,
    })
}

// All functions.
fn lower_functions(
    alloc: Global,
    functions: &[Function],
    results: &[Kind],
    literals: Vec<bool>,
) -> Result<Lowering, AllocError>
    requires { list_all is_ready (map function_of functions.now) ≡ true }
    ensures { IfOk result
        (λ l. AreFunctions l.texts.items literals.items results.now (map function_of functions.now)
        l.functions.items) }
{
    let mut done = Lowering {
        functions: Vec::new(alloc),
        texts: Vec::new(alloc),
        literals,
    };
    for i in 0..functions.len() {
        done = with_function(alloc, done, &functions[i], results)?;
    }
    Ok(done)
}

// The program of its parts.
fn assembled(
    main: usize,
    global_bytes: u64,
    statics: Items<StaticData>,
    results: Vec<Kind>,
    lowered: Lowering,
) -> Tac
    ensures { Assembles main global_bytes statics results.items lowered result }
{
    let Lowering {
        functions,
        texts,
        literals: _,
    } = lowered;
    Tac {
        functions: Items::from_vec(functions),
        results: Items::from_vec(results),
        main,
        statics,
        global_bytes,
        texts: Items::from_vec(texts),
    }
}

/// Lowers a valid program that has at most 4096 functions, where its static objects take at most 4 MiB and their
/// initializers are constant. The text of the program says which instructions its code has, how many they are, and how
/// many checks are to come. The room of each function has areas for the structures of its temporaries. The bodies of
/// counted loops are closed, assign their variables nowhere, are just the nodes of their text, and no checks are added
/// to them yet. An error comes where there is no memory for its code.
pub fn lower(alloc: Global, program: &Program) -> Result<Tac, AllocError>
    requires valid { is_valid_program (program_of program.now) ≡ true }
    requires constant { first_not_constant (program_of program.now) ≡ None }
    requires small { statics_end (program_of program.now).statics 0 ≤ 0x400000 }
    requires few { length (program_of program.now).functions ≤ 4096 }
    ensures code { IfOk result (λ t. IsLowered (program_of program.now) t) }
    ensures weighed { IfOk result (λ t. IsWeighed (program_of program.now) t) }
    ensures count { IfOk result
        (λ t. instruction_count t.functions ≡ program_weight (program_of program.now) each_one) }
    ensures checks { IfOk result (λ t. AwaitsChecks (program_of program.now) t) }
    ensures areas { IfOk result (λ t. AreasFit t (room_for_structures (program_of program.now))) }
    ensures closed { IfOk result (λ t. HaveClosedBodies t) }
    ensures bodies { IfOk result (λ t. HaveBodiesOf (program_of program.now) t) }
    ensures none_added { IfOk result (λ t. HaveNoneAdded t) }
    ensures variables { IfOk result (λ t. KeepVariables t) }
{
    let objects = program.statics.as_slice();
    let types = program.function_types.as_slice();
    let functions = program.functions.as_slice();
    let statics = static_data(alloc, program)?;
    let results = results(alloc, types)?;
    let kinds = results.as_slice();
    let literals = literals(alloc, objects)?;
    let lowered = lower_functions(alloc, functions, kinds, literals)?;
    let bytes = global_bytes(objects);
    Ok(assembled(program.main, bytes, statics, results, lowered))
}
