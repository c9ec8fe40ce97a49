//! The program of a typed file (C99 6.9).

ghost use Rattle.std.specs.Prelude.{◌≡◌, ◌++◌, List, map, codes, IfErr, IfOk, Some};
ghost use Rattle.c_tree.specs.View as view;
ghost use Rattle.c_tree.specs.View.{static_of};
ghost use Rattle.c_scope.specs.Environment.{environment_of, facts_of};
ghost use Rattle.c_scope.specs.Names.{declared, names_of};
ghost use Rattle.c_typing_state.specs.State.{literal_of};
ghost use Rattle.c_programs.specs.FileState.{file_of, linked_initializer_of, local_static_of};
ghost use Rattle.c_unit_typing.specs.Programs as programs;
ghost use Rattle.c_unit_typing.specs.Programs.{in_order, literal_object, number_or_zero};
ghost use Rattle.c_programs.specs.Outlines.{outline_in, outline_of, program_in};
ghost use Rattle.c_programs.specs.ProgramRefused.{UnlessMemory, refused_at};
ghost use Rattle.c_programs.specs.Rooms.{first_without_room};
ghost use Rattle.c_programs.specs.Statics.{linked_among};

use crate::functions::{function_types, functions};
use crate::linkage::add_entities;
use crate::refusal::ProgramRefusal;
use crate::slots::empty;
use crate::state::{Definition, FileTyper, LinkedInitializer, LocalStatic};
use crate::statics::{add_initializers, add_literals, add_statics, finish};
use c_scope::environment::Facts;
use c_scope::meaning::Entity;
use c_scope::names::Names;
use c_tree::{CType, Extent, Program, StaticObject};
use c_typing_state::{Literal, Typer};
use std::alloc::{AllocError, Global};
use tree_containers::Items;

/// What a program is made of, before it is known what calls of its functions take.
#[derive(Drop)]
pub struct Outline {
    /// The sizes and alignments of the structures and unions, by number, where they are complete.
    pub structures: Vec<Option<Extent>>,
    /// The static objects.
    pub statics: Vec<StaticObject>,
    /// The types of functions, all different.
    pub types: Vec<CType>,
    /// The functions that are defined, in order.
    pub definitions: Vec<Definition>,
    /// The number of `main`.
    pub main: usize,
}

// The number of `main`, or 0 where it is not defined.
fn main_number(facts: &Facts) -> usize
    ensures { result ≡ number_or_zero (declared (codes "main") (facts_of facts.now).functions) }
{
    match facts.functions.get(b"main") {
        None => 0,
        Some(number) => *number,
    }
}

// The static objects in the order of their numbers: string literals, those without linkage, and those with linkage.
#[tactic(auto, using(crate::proofs::Filling::all_in_order))]
fn static_objects(
    alloc: Global,
    extents: &[Option<Extent>],
    count: usize,
    literals: Vec<Literal>,
    statics: Vec<LocalStatic>,
    initializers: Vec<LinkedInitializer>,
    entities: &Names<Entity>,
) -> Result<Vec<StaticObject>, AllocError>
    ensures { IfOk result (λ all. map static_of all.items ≡ in_order 0 count
        (map literal_object (map literal_of literals.items) ++ map local_static_of statics.items
        ++ linked_among extents.now (map linked_initializer_of initializers.items)
        (map (λ e. e.1) (names_of entities.now)))) }
{
    let mut parts = empty(alloc, count)?;
    add_initializers(&mut parts, initializers);
    let mut objects = empty(alloc, count)?;
    add_literals(alloc, &mut objects, literals)?;
    add_statics(&mut objects, statics);
    add_entities(alloc, extents, &mut objects, entities)?;
    finish(alloc, &mut objects, &mut parts)
}

fn again(alloc: Global, extents: &[Option<Extent>]) -> Result<Vec<Option<Extent>>, AllocError>
    ensures { IfOk result (λ copy. copy.items ≡ extents.now) }
{
    extents.to_vec(alloc)
}

// What a typed file is made of.
fn parts_of(file: FileTyper) -> Result<Outline, AllocError>
    ensures { IfOk result (λ o. outline_of o ≡ outline_in (file_of file.entry)) }
{
    let FileTyper {
        typer,
        variables: _,
        statics,
        initializers,
        definitions,
        objects: _,
        taken: _,
    } = file;
    let Typer {
        alloc,
        environment,
        function_types,
        objects: _,
        taken: _,
        undefined: _,
        literals,
        function: _,
    } = typer;
    let extents = environment.structures.extents();
    let statics = static_objects(
        alloc,
        extents,
        environment.statics,
        literals,
        statics,
        initializers,
        &environment.entities,
    )?;
    let structures = again(alloc, extents)?;
    Ok(Outline {
        structures,
        statics,
        types: function_types,
        definitions,
        main: main_number(&environment.facts),
    })
}

/// What the program of a typed file is made of.
pub fn outlined(file: FileTyper) -> Result<Outline, AllocError>
    ensures { IfOk result (λ o. program_in (outline_of o) ≡ programs.program_of (file_of file.entry)) }
{
    let outline = parts_of(file)?;
    Ok(outline)
}

/// The program. `RoomTooLarge` comes with the number of the first function of which a call takes 2^64 bytes or more.
#[tactic(auto, using(crate::proofs::Making::made_all, crate::proofs::Making::made_not))]
pub fn complete(alloc: Global, outline: Outline) -> Result<Program, ProgramRefusal>
    ensures made { IfOk result (λ program. view.program_of program ≡ program_in (outline_of outline)) }
    ensures refused { IfErr result (λ e. UnlessMemory e
        (first_without_room 0 (program_in (outline_of outline)).functions ≡ Some (refused_at e))) }
{
    let Outline {
        structures,
        statics,
        types,
        definitions,
        main,
    } = outline;
    let functions = functions(alloc, &structures, &types, &statics, definitions)?;
    let function_types = function_types(alloc, &structures, types)?;
    Ok(Program {
        structures: Items::from_vec(structures),
        statics: Items::from_vec(statics),
        function_types: Items::from_vec(function_types),
        functions: Items::from_vec(functions),
        main,
    })
}
