//! Subobjects (C99 6.7.8 paragraphs 6, 7, 17): the parts of arrays, structures and unions, and those that designators
//! name.

ghost use Rattle.std.specs.Prelude.{◌≡◌, ◌++◌, ◌∷◌, [], ◌≤◌, ◌+◌, ◌^◌, IfOk, option_copied, option_map};
ghost use Rattle.c_tree.specs.Extents.{extent_of};
ghost use Rattle.c_current_object.specs.Members.{list_in, lists_of};
ghost use Rattle.c_scope.specs.Names.{names_of};
ghost use Rattle.c_current_object.specs.Subobjects.{element_number, following, member_behind, member_number};
ghost use Rattle.c_current_object.specs.Subobjects.{number_behind, number_in, size_or_0};

use crate::members::is_union;
use c_rules::value::unqualified;
use c_scope::names::Names;
use c_scope::structures::Structures;
use c_tree::{CType, Extent, MAX_SIZE, Member, TypeWord, array_size};
use std::alloc::{AllocError, Global};
use tree_containers::Items;

/// A step from an object into a part of it.
#[derive(Clone, Copy, Debug, PartialEq, Eq)]
pub struct Step {
    /// Whether the object is a union.
    pub is_union: bool,
    /// The number of the element or member, from 0 on.
    pub number: u64,
}

/// An object that is initialized, or a part of it.
#[derive(Drop)]
pub struct Subobject {
    /// The bytes before it, at most 2^32 + 1 of them counted.
    pub offset: u64,
    /// Its type.
    pub c_type: CType,
    /// The steps that lead to it from the whole object.
    pub path: Items<Step>,
}

impl Subobject {
    ghost use Rattle.std.specs.Prelude.{◌≡◌, IfOk, option_copied, slice_get};
    ghost use Rattle.c_current_object.specs.Members.{lists_of};
    ghost use Rattle.c_current_object.specs.Subobjects.{element_in, member_in, member_of, part, part_at, whole};

    /// The whole object of a type.
    pub fn whole(alloc: Global, words: &[TypeWord]) -> Result<Subobject, AllocError>
        ensures { IfOk result (λ object. object ≡ whole words.now) }
    {
        Ok(Subobject {
            offset: 0,
            c_type: CType::new(words.to_vec(alloc)?),
            path: Items::from_vec(Vec::new(alloc)),
        })
    }

    /// The same object once more.
    pub fn duplicate(&self, alloc: Global) -> Result<Subobject, AllocError>
        ensures { IfOk result (λ object. object ≡ self.now) }
    {
        Ok(Subobject {
            offset: self.offset,
            c_type: CType::new(self.c_type.words().to_vec(alloc)?),
            path: Items::from_vec(self.path.as_slice().to_vec(alloc)?),
        })
    }

    // A part of a type, so many bytes behind its start.
    fn part_at(
        &self,
        alloc: Global,
        offset: u64,
        words: &[TypeWord],
        step: Step,
    ) -> Result<Subobject, AllocError>
        ensures { IfOk result (λ object. object ≡ part_at self.now offset words.now step) }
    {
        Ok(Subobject {
            offset: self.offset.saturating_add(offset).min(MAX_SIZE + 1),
            c_type: CType::new(words.to_vec(alloc)?),
            path: Items::from_vec(with_step(alloc, self.path.as_slice(), step)?),
        })
    }

    fn element(
        &self,
        alloc: Global,
        structures: &[Option<Extent>],
        words: &[TypeWord],
        number: u64,
    ) -> Result<Subobject, AllocError>
        ensures { IfOk result (λ object. object ≡ element_in structures.now self.now words.now number) }
    {
        let is_union = false;
        let offset = array_size(number, size_or_0(structures, words));
        self.part_at(alloc, offset, words, Step { is_union, number })
    }

    fn member(
        &self,
        alloc: Global,
        is_union: bool,
        number: u64,
        member: Option<&Member>,
    ) -> Result<Option<Subobject>, AllocError>
        ensures { IfOk result (λ object. object ≡ member_in self.now is_union number (option_copied member.entry)) }
    {
        let Some(member) = member else {
            return Ok(None);
        };
        let step = Step { is_union, number };
        let object = self.part_at(alloc, member.offset, member.c_type.words(), step)?;
        Ok(Some(object))
    }

    fn member_of(
        &self,
        alloc: Global,
        members: &Structures,
        structure: usize,
        number: u64,
    ) -> Result<Option<Subobject>, AllocError>
        ensures { IfOk result
            (λ object. object ≡ member_of self.now number (lists_of members.now structure)) }
    {
        match members.members(structure) {
            Some(list) => self.member(alloc, is_union(list), number, list.at(number as usize)),
            None => Ok(None),
        }
    }

    /// The element or member with a number, in the order of subscripts or declarations. A scalar is its own only part.
    #[tactic(auto, unfolding(crate::specs::Subobjects::part))]
    pub fn part(
        &self,
        alloc: Global,
        structures: &[Option<Extent>],
        members: &Structures,
        number: u64,
    ) -> Result<Option<Subobject>, AllocError>
        ensures { IfOk result (λ object. object ≡ part structures.now (lists_of members.now) self.now number) }
    {
        match unqualified(self.c_type.words()) {
            [TypeWord::Array { count, .. }, element @ ..] => {
                if number < *count {
                    Ok(Some(self.element(alloc, structures, element, number)?))
                } else {
                    Ok(None)
                }
            }
            [TypeWord::OpenArray, element @ ..] => {
                Ok(Some(self.element(alloc, structures, element, number)?))
            }
            [TypeWord::Structure(structure), ..] => {
                self.member_of(alloc, members, *structure, number)
            }
            [] => Ok(None),
            _ => {
                if number == 0 {
                    Ok(Some(self.duplicate(alloc)?))
                } else {
                    Ok(None)
                }
            }
        }
    }
}

fn with_step(alloc: Global, path: &[Step], step: Step) -> Result<Vec<Step>, AllocError>
    ensures { IfOk result (λ longer. longer.items ≡ path.now ++ step ∷ []) }
{
    let mut longer = path.to_vec(alloc)?;
    longer.push(step)?;
    Ok(longer)
}

fn size_or_0(structures: &[Option<Extent>], words: &[TypeWord]) -> u64
    ensures { result ≡ size_or_0 (extent_of structures.now words.now) }
{
    match Extent::of_type(structures, words) {
        Some(extent) => extent.size(),
        None => 0,
    }
}

/// The number of the part behind that with a number, of an object of a type. Of a union no part stands behind one.
#[tactic(auto, unfolding(crate::specs::Subobjects::number_behind))]
pub fn number_behind(members: &Structures, words: &[TypeWord], number: u64) -> u64
    ensures { result ≡ number_behind (lists_of members.now) words.now number }
{
    match unqualified(words) {
        [TypeWord::Structure(structure), ..] => member_behind(members.members(*structure), number),
        _ => number.saturating_add(1),
    }
}

fn member_behind(list: Option<&Names<Member>>, number: u64) -> u64
    ensures { result ≡ member_behind (option_map (λ l. list_in (names_of l)) (option_copied list.entry)) number }
{
    match list {
        Some(list) if is_union(list) => list.len() as u64,
        _ => number.saturating_add(1),
    }
}

/// The number of the element that `[n]` names in an object of a type, if that is an array, where n is the value of an
/// integer constant expression that is not negative.
#[tactic(auto, unfolding(crate::specs::Subobjects::element_number))]
pub fn element_number(words: &[TypeWord], index: Option<u64>) -> Option<u64>
    ensures { result ≡ element_number words.now index }
{
    match unqualified(words) {
        [TypeWord::Array { .. } | TypeWord::OpenArray, ..] => index,
        _ => None,
    }
}

/// The number of the member that `.name` names in an object of a type, if it has one.
#[tactic(auto, unfolding(crate::specs::Subobjects::member_number))]
pub fn member_number(members: &Structures, words: &[TypeWord], name: &[u8]) -> Option<u64>
    ensures { result ≡ member_number (lists_of members.now) words.now name.now }
{
    match unqualified(words) {
        [TypeWord::Structure(structure), ..] => number_in(name, members.members(*structure)),
        _ => None,
    }
}

fn number_in(name: &[u8], list: Option<&Names<Member>>) -> Option<u64>
    ensures { result ≡ number_in name.now (option_map (λ l. list_in (names_of l)) (option_copied list.entry)) }
{
    match list {
        Some(list) => Some(list.number(name)? as u64),
        None => None,
    }
}
