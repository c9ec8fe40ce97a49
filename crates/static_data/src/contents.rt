//! What static objects hold.

ghost use Rattle.std.specs.Prelude.{◌≡◌, ◌≤◌, true, IfOk, None, Ok, map, length};
ghost use Rattle.std.specs.List.{list_all};
ghost use Rattle.c_tree.specs.View.{content_of, part_of, static_of, program_of};
ghost use Rattle.c_const.specs.Contents.{is_laid_out, initial_contents};
ghost use Rattle.c_const.specs.Initializers.{first_not_constant, parts_fault, statics_fault};
ghost use Rattle.c_const.specs.View.{pointers_of};
ghost use Rattle.source_meaning.specs.Constants.Leaving.{AreBytes, HasBytes, HaveBytes};
ghost use Rattle.c_tree.specs.ValidProgram.{is_valid_program};
ghost use Rattle.source_meaning.specs.Meaning.{statics_end};
ghost use Rattle.static_data.specs.Data.{IsData, AreData, AreInitial};

use crate::pointers::{function_pointers, size_of, static_pointers};
use c_const::address::Pointers;
use c_const::contents::{InitialFault, InitialObject, initial_bytes};
use c_tree::{Content, Part, Program, StaticObject};
use std::alloc::{AllocError, Global};
use tac_ir::StaticData;
use tree_containers::Items;

// Bytes are less than 256.
fn are_bytes(bytes: &[u8])
    ensures { AreBytes bytes.now }
{
    // What is known of a slice that is read: each of its items is in the range of its type.
    let _count = bytes.len();
}

// So are those of a literal.
fn has_bytes(content: &Content)
    ensures { HasBytes (content_of content.now) }
{
    match content {
        Content::Value(_) => {}
        Content::Literal(bytes) => are_bytes(bytes.as_slice()),
    }
}

fn have_bytes(parts: &[Part])
    ensures { HaveBytes (map part_of parts.now) }
{
    for part in parts {
        has_bytes(&part.content);
    }
}

// What an object with a constant initializer holds.
#[tactic(auto, using(crate::proofs::Constancy::never_faulty))]
fn contents_of(
    alloc: Global,
    pointers: &Pointers,
    object: &StaticObject,
) -> Result<InitialObject, AllocError>
    requires laid { is_laid_out (static_of object.now) ≡ true }
    requires constant { parts_fault (pointers_of pointers.now) (static_of object.now).parts ≡ None }
    ensures { IfOk result (λ o. initial_contents (pointers_of pointers.now) (static_of object.now) ≡ Ok o) }
{
    match initial_bytes(alloc, pointers, object) {
        Ok(contents) => Ok(contents),
        Err(InitialFault::Memory) => Err(AllocError),
        Err(InitialFault::NotConstant(_)) => unreachable!(),
    }
}

// A static object with a constant initializer, where objects and functions stand so.
fn data_of(
    alloc: Global,
    pointers: &Pointers,
    object: &StaticObject,
) -> Result<StaticData, AllocError>
    requires laid { is_laid_out (static_of object.now) ≡ true }
    requires constant { parts_fault (pointers_of pointers.now) (static_of object.now).parts ≡ None }
    ensures { IfOk result (λ d. IsData (pointers_of pointers.now) (static_of object.now) d) }
{
    have_bytes(object.parts.as_slice());
    let contents = contents_of(alloc, pointers, object)?;
    let bytes = Vec::from_slice(alloc, contents.bytes())?;
    let tags = Vec::from_slice(alloc, contents.tags())?;
    Ok(StaticData {
        size: size_of(object.kind),
        bytes: Items::from_vec(bytes),
        tags: Items::from_vec(tags),
    })
}

// All of them.
fn all_data(
    alloc: Global,
    pointers: &Pointers,
    statics: &[StaticObject],
) -> Result<Vec<StaticData>, AllocError>
    requires laid { list_all is_laid_out (map static_of statics.now) ≡ true }
    requires constant { statics_fault (pointers_of pointers.now) (map static_of statics.now) ≡ None }
    ensures { IfOk result (λ ds. AreData (pointers_of pointers.now) (map static_of statics.now) ds.items) }
{
    let mut all = Vec::new(alloc);
    for i in 0..statics.len() {
        let data = data_of(alloc, pointers, &statics[i])?;
        all.push(data)?;
    }
    Ok(all)
}

/// The static objects of a valid program that has at most 4096 functions, where they take at most 4 MiB and their
/// initializers are constant: each with its bytes, and the tags of its words, as they are before the run, whatever the
/// budgets.
pub fn static_data(alloc: Global, program: &Program) -> Result<Items<StaticData>, AllocError>
    requires valid { is_valid_program (program_of program.now) ≡ true }
    requires constant { first_not_constant (program_of program.now) ≡ None }
    requires small { statics_end (program_of program.now).statics 0 ≤ 0x400000 }
    requires few { length (program_of program.now).functions ≤ 4096 }
    ensures { IfOk result (λ ds. AreInitial (program_of program.now) ds) }
{
    let objects = program.statics.as_slice();
    let statics = static_pointers(alloc, objects)?;
    let functions = function_pointers(alloc, program.functions.as_slice().len())?;
    let pointers = Pointers {
        statics: &statics,
        functions: &functions,
    };
    let data = all_data(alloc, &pointers, objects)?;
    Ok(Items::from_vec(data))
}
