//! Static objects by their numbers (C99 6.2.4, 6.4.5, 6.9.2).

ghost use Rattle.std.specs.Prelude.{◌≡◌, ◌++◌, ◌∷◌, [], map, IfOk, OnOk, Some};
ghost use Rattle.c_tree.specs.View.{static_of};
ghost use Rattle.c_programs.specs.Slots.{all_placed};
ghost use Rattle.c_programs.specs.Statics.{finished, finished_one, found_initializer, found_literal, found_static};

use crate::slots::{put, taken};
use crate::state::{LinkedInitializer, LocalStatic};
use c_tree::{Content, Kind, Part, StaticObject};
use c_typing_state::Literal;
use std::alloc::{AllocError, Global};
use tree_containers::Items;

/// A static object as it is found.
#[derive(Drop)]
pub enum Found {
    /// With its initializer: a string literal, or an object without linkage.
    Whole(StaticObject),
    /// An object with linkage, whose initializer stands apart, by its kind.
    Linked(Kind),
}

// The object that a string literal is.
fn literal_object(alloc: Global, literal: Literal) -> Result<LocalStatic, AllocError>
    ensures { IfOk result (λ object. found_static object ≡ found_literal literal) }
{
    let Literal {
        number,
        function,
        bytes,
    } = literal;
    let kind = Kind::Array(bytes.len() as u64);
    let content = Content::Literal(Items::from_vec(bytes));
    let mut parts = Vec::new(alloc);
    parts.push(Part { offset: 0, content })?;
    let object = StaticObject {
        kind,
        is_literal: true,
        function,
        parts: Items::from_vec(parts),
    };
    Ok(LocalStatic { number, object })
}

/// With objects that are whole.
pub fn add_statics(objects: &mut Vec<Option<Found>>, statics: Vec<LocalStatic>)
    ensures { objects.new.items ≡ all_placed (map found_static statics.items) objects.old.items }
{
    for item in statics {
        let LocalStatic { number, object } = item;
        put(objects, number, Found::Whole(object));
    }
}

/// With string literals.
pub fn add_literals(
    alloc: Global,
    objects: &mut Vec<Option<Found>>,
    literals: Vec<Literal>,
) -> Result<(), AllocError>
    ensures { OnOk result
        (objects.new.items ≡ all_placed (map found_literal literals.items) objects.old.items) }
{
    for literal in literals {
        let LocalStatic { number, object } = literal_object(alloc, literal)?;
        put(objects, number, Found::Whole(object));
    }
    Ok(())
}

/// With initializers of objects with linkage.
pub fn add_initializers(slots: &mut Vec<Option<Items<Part>>>, initializers: Vec<LinkedInitializer>)
    ensures { slots.new.items ≡ all_placed (map found_initializer initializers.items) slots.old.items }
{
    for initializer in initializers {
        let LinkedInitializer { number, parts } = initializer;
        put(slots, number, parts);
    }
}

// An object with its initializer.
fn finished_object(alloc: Global, found: Found, parts: Option<Items<Part>>) -> StaticObject
    ensures { static_of result ∷ [] ≡ finished_one (Some found) parts }
{
    match found {
        Found::Whole(object) => object,
        Found::Linked(kind) => StaticObject {
            kind,
            is_literal: false,
            function: None,
            parts: match parts {
                Some(parts) => parts,
                None => Items::from_vec(Vec::new(alloc)),
            },
        },
    }
}

// Puts an object with its initializer, if there is one, behind others.
fn add_finished(
    alloc: Global,
    objects: &mut Vec<StaticObject>,
    found: Option<Found>,
    parts: Option<Items<Part>>,
) -> Result<(), AllocError>
    ensures { OnOk result (map static_of objects.new.items
        ≡ map static_of objects.old.items ++ finished_one found parts) }
{
    match found {
        None => Ok(()),
        Some(found) => {
            objects.push(finished_object(alloc, found, parts))?;
            Ok(())
        }
    }
}

/// The objects that are found, with their initializers.
#[tactic(auto, using(crate::proofs::Filling::finished_next, crate::proofs::Filling::finished_end))]
pub fn finish(
    alloc: Global,
    found: &mut Vec<Option<Found>>,
    parts: &mut Vec<Option<Items<Part>>>,
) -> Result<Vec<StaticObject>, AllocError>
    ensures { IfOk result (λ objects. map static_of objects.items ≡ finished found.old.items parts.old.items) }
{
    let mut objects = Vec::new(alloc);
    let count = found.len();
    for number in 0..count {
        let object = taken(found, number);
        let parts = taken(parts, number);
        add_finished(alloc, &mut objects, object, parts)?;
    }
    Ok(objects)
}
