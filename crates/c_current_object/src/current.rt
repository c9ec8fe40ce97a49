//! The current object (C99 6.7.8 paragraphs 17, 18 and 20): the subobject that the next initializer is for.

ghost use Rattle.std.specs.Prelude.{◌≡◌, ◌++◌, ◌∷◌, [], IfOk};
ghost use Rattle.c_current_object.specs.CurrentObject.{next_in, open_behind};
ghost use Rattle.c_current_object.specs.Members.{lists_of};

use crate::filler::Filler;
use crate::subobject::{Subobject, element_number, member_number, number_behind};
use c_faults::{Refusal, Rule};
use c_place_rules::refusal::refused;
use c_scope::structures::Structures;
use c_tree::Extent;
use sb_base::Line;
use std::alloc::{AllocError, Global};
use tree_containers::Items;

/// An object whose parts are initialized in turn, and the number of the part that comes next.
#[derive(Drop)]
pub struct Open {
    /// The object.
    pub object: Subobject,
    /// The number of its next part.
    pub next: u64,
}

/// The object that an initializer is for.
#[derive(Drop)]
pub struct CurrentObject {
    /// The object.
    pub object: Subobject,
    /// The objects in which it lies, those in which the list in braces lies aside, the outermost first, each with the
    /// part that comes behind.
    pub levels: Items<Open>,
}

/// The levels that an elided brace goes down at most: a source has no more tokens, and each level of a type takes one.
pub const MOST_LEVELS: u64 = 1 << 20;

impl CurrentObject {
    ghost use Rattle.std.specs.Prelude.{◌≡◌, IfOk};
    ghost use Rattle.c_faults.specs.Answer.{Gives};
    ghost use Rattle.c_current_object.specs.CurrentObject.{alone, by_index, by_name, designated, first_part};
    ghost use Rattle.c_current_object.specs.CurrentObject.{part_within, reached};
    ghost use Rattle.c_current_object.specs.Members.{lists_of};
    ghost use Rattle.c_current_object.specs.Subobjects.{part};

    /// An object, in no other one.
    pub fn alone(alloc: Global, object: Subobject) -> CurrentObject
        ensures { result ≡ alone object }
    {
        CurrentObject {
            object,
            levels: Items::from_vec(Vec::new(alloc)),
        }
    }

    /// A part of it, which has this number.
    pub fn part_within(
        self,
        members: &Structures,
        number: u64,
        part: Subobject,
    ) -> Result<CurrentObject, AllocError>
        ensures { IfOk result (λ c. c ≡ part_within (lists_of members.now) self number part) }
    {
        let CurrentObject { object, levels } = self;
        let levels = with_open(members, levels.into_vec(), object, number)?;
        Ok(CurrentObject {
            object: part,
            levels: Items::from_vec(levels),
        })
    }

    // Its first part, where it has one.
    fn first_part(
        self,
        alloc: Global,
        structures: &[Option<Extent>],
        members: &Structures,
    ) -> Result<CurrentObject, AllocError>
        ensures { IfOk result (λ c. c ≡ first_part (lists_of members.now) self
            (part structures.now (lists_of members.now) self.object 0)) }
    {
        match self.object.part(alloc, structures, members, 0)? {
            Some(part) => self.part_within(members, 0, part),
            None => Ok(self),
        }
    }

    /// What an initializer without braces is for that stands where this object is the current one: the object itself
    /// where it fills it, else its first part, and so on.
    #[tactic(auto, unfolding(crate::specs::CurrentObject::reached))]
    pub fn reached(
        self,
        alloc: Global,
        structures: &[Option<Extent>],
        members: &Structures,
        filler: Filler,
    ) -> Result<CurrentObject, AllocError>
        ensures { IfOk result (λ c. c ≡ reached structures.now (lists_of members.now) filler self) }
    {
        let mut current = self;
        for _level in 0..MOST_LEVELS {
            if filler.fills(current.object.c_type.words()) {
                return Ok(current);
            }
            current = current.first_part(alloc, structures, members)?;
        }
        Ok(current)
    }

    // The part with a number that a designator names. The rule on items is violated where it names none.
    fn designated(
        self,
        alloc: Global,
        structures: &[Option<Extent>],
        members: &Structures,
        line: Line,
        number: Option<u64>,
    ) -> Result<CurrentObject, Refusal>
        ensures { Gives (λ c. c) result (designated structures.now (lists_of members.now) line self number) }
    {
        let Some(number) = number else {
            return refused(self, Rule::MisplacedItem, line);
        };
        match self.object.part(alloc, structures, members, number)? {
            Some(part) => Ok(self.part_within(members, number, part)?),
            None => refused(self, Rule::MisplacedItem, line),
        }
    }

    /// What `[n]` names in it, with the line of its `[`, where n is the value of an integer constant expression that
    /// is not negative. The rule on items is violated where n is none, or there is no such element.
    pub fn by_index(
        self,
        alloc: Global,
        structures: &[Option<Extent>],
        members: &Structures,
        line: Line,
        index: Option<u64>,
    ) -> Result<CurrentObject, Refusal>
        ensures { Gives (λ c. c) result (by_index structures.now (lists_of members.now) line index self) }
    {
        let number = element_number(self.object.c_type.words(), index);
        self.designated(alloc, structures, members, line, number)
    }

    /// What `.name` names in it, with the line of its `.`. The rule on items is violated where there is no such member.
    pub fn by_name(
        self,
        alloc: Global,
        structures: &[Option<Extent>],
        members: &Structures,
        line: Line,
        name: &[u8],
    ) -> Result<CurrentObject, Refusal>
        ensures { Gives (λ c. c) result (by_name structures.now (lists_of members.now) line name.now self) }
    {
        let number = member_number(members, self.object.c_type.words(), name);
        self.designated(alloc, structures, members, line, number)
    }
}

// Objects that are open, and one more in them, whose part with a number is initialized.
fn with_open(
    members: &Structures,
    levels: Vec<Open>,
    object: Subobject,
    number: u64,
) -> Result<Vec<Open>, AllocError>
    ensures { IfOk result (λ all. all.items ≡ levels.items ++ open_behind (lists_of members.now) object number ∷ []) }
{
    let next = number_behind(members, object.c_type.words(), number);
    let mut all = levels;
    all.push(Open { object, next })?;
    Ok(all)
}

/// What comes next in objects that are open, the outermost first: the next part of the innermost that has one left.
/// There is none where all are full.
pub fn next_in(
    alloc: Global,
    structures: &[Option<Extent>],
    members: &Structures,
    levels: Vec<Open>,
) -> Result<Option<CurrentObject>, AllocError>
    ensures { IfOk result (λ c. c ≡ next_in structures.now (lists_of members.now) levels.items) }
{
    let mut outer = levels;
    while let Some(Open { object, next }) = outer.pop() {
        if let Some(part) = object.part(alloc, structures, members, next)? {
            let levels = with_open(members, outer, object, next)?;
            return Ok(Some(CurrentObject {
                object: part,
                levels: Items::from_vec(levels),
            }));
        }
    }
    Ok(None)
}
