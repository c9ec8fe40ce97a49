//! Objects with linkage, of which each is defined (C99 6.9.2).

ghost use Rattle.std.specs.Prelude.{◌≡◌, ◌∷◌, map, IfOk, OnOk, option_copied};
ghost use Rattle.c_tree.specs.declared.c_type.TypeWord.TheVariants as word;
ghost use Rattle.c_scope.specs.Names.{names_of};
ghost use Rattle.c_unit_typing.specs.Programs.{final_type};
ghost use Rattle.c_programs.specs.Statics.{final_kind, with_entities, with_entity, with_linked};

use crate::slots::put;
use crate::statics::Found;
use c_declarators::derivation::array_of;
use c_operand_typing::primaries::kind_of_place;
use c_scope::meaning::{Designated, Entity};
use c_scope::names::Names;
use c_tree::{Extent, Kind, TypeWord};
use std::alloc::{AllocError, Global};

// An array of one element of a type.
fn array_of_one(
    alloc: Global,
    extents: &[Option<Extent>],
    element: &[TypeWord],
) -> Result<Vec<TypeWord>, AllocError>
    ensures { IfOk result (λ words. words.items
        ≡ final_type extents.now (word.OpenArray ∷ element.now)) }
{
    let mut words = Vec::new(alloc);
    words.push(array_of(1, Extent::of_type(extents, element)))?;
    words.extend_from_slice(element)?;
    Ok(words)
}

// The kind of an object with linkage: an array whose size is unknown at the end of the file has one element (6.9.2
// paragraphs 2 and 5).
fn final_kind(
    alloc: Global,
    extents: &[Option<Extent>],
    words: &[TypeWord],
) -> Result<Kind, AllocError>
    ensures { IfOk result (λ kind. kind ≡ final_kind extents.now words.now) }
{
    match words {
        [TypeWord::OpenArray, element @ ..] => {
            let words = array_of_one(alloc, extents, element)?;
            Ok(kind_of_place(extents, &words))
        }
        _ => Ok(kind_of_place(extents, words)),
    }
}

// With what has linkage, where it is an object.
fn add_linked(
    alloc: Global,
    extents: &[Option<Extent>],
    objects: &mut Vec<Option<Found>>,
    what: Designated,
    words: &[TypeWord],
) -> Result<(), AllocError>
    ensures { OnOk result (objects.new.items ≡ with_linked extents.now words.now what objects.old.items) }
{
    match what {
        Designated::Object(number) => {
            let kind = final_kind(alloc, extents, words)?;
            put(objects, number, Found::Linked(kind));
            Ok(())
        }
        _ => Ok(()),
    }
}

// The same of an entity, if there is one.
fn add_entity(
    alloc: Global,
    extents: &[Option<Extent>],
    objects: &mut Vec<Option<Found>>,
    entity: Option<&Entity>,
) -> Result<(), AllocError>
    ensures { OnOk result
        (objects.new.items ≡ with_entity extents.now (option_copied entity.entry) objects.old.items) }
{
    match entity {
        None => Ok(()),
        Some(entity) => add_linked(alloc, extents, objects, entity.what, entity.c_type.words()),
    }
}

/// With the objects that have linkage.
#[tactic(auto, using(crate::proofs::Filling::entities_next, crate::proofs::Filling::entities_end))]
pub fn add_entities(
    alloc: Global,
    extents: &[Option<Extent>],
    objects: &mut Vec<Option<Found>>,
    entities: &Names<Entity>,
) -> Result<(), AllocError>
    ensures { OnOk result (objects.new.items
        ≡ with_entities extents.now (map (λ e. e.1) (names_of entities.now)) objects.old.items) }
{
    for number in 0..entities.len() {
        add_entity(alloc, extents, objects, entities.at(number))?;
    }
    Ok(())
}
